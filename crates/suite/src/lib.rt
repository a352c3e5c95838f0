//! The rules on examples, a module for each crate that they are about. A crate with tests is proved twice, so they stand
//! here and not beside the code.
#![tactic(auto)]

#[cfg(test)]
mod checks;
#[cfg(test)]
mod kinds;
#[cfg(test)]
mod lists;
#[cfg(test)]
mod parts;
#[cfg(test)]
mod plain;
pub mod seen;
