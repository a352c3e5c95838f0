//! What the programs say and print, on examples, and files loaded and settled as they do it. All of it is tests: a program
//! that has tests of its own is proved twice, with all that it stands on.
#![tactic(auto)]

#[cfg(test)]
mod faults;
#[cfg(test)]
mod loading;
#[cfg(test)]
mod printing;
