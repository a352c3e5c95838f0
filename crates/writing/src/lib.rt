//! Writes model files into a lent buffer: by a protocol that cannot be misused, and a whole model at once.
#![tactic(auto)]

mod append;
pub mod protocol;
pub mod saving;
