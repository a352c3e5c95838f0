//! The model file: what its bytes denote, what is wrong first with one that is not right, and the faults in layers.
#![tactic(auto)]

pub mod faults;
mod fill;
pub mod reading;
mod scan;

pub use scan::LONGEST;
