//! Examples of model files: read, refused and written. All of it is tests.
#![tactic(auto)]

#[cfg(test)]
mod calls;
#[cfg(test)]
mod loading;
#[cfg(test)]
mod long;
#[cfg(test)]
mod pieces;
#[cfg(test)]
mod saving;
