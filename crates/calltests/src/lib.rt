//! The calls of an analysis on examples: what is opened and refused, rounds, classes, reduced models, files and listings.
//! All of it is tests.
#![tactic(auto)]

#[cfg(test)]
mod files;
#[cfg(test)]
mod opening;
#[cfg(test)]
mod rounds;
