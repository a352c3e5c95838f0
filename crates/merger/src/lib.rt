//! The analysis of a model: which states no formula tells apart.
#![tactic(auto)]

mod advance;
mod ahead;
pub mod analysis;
pub mod answers;
mod between;
pub mod calls;
mod closure;
mod filling;
mod labels;
pub mod lists;
mod opening;
mod partition;
pub mod performing;
mod reach;
mod reaching;
pub mod reduced;
pub mod tables;
