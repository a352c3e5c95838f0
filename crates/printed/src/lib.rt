//! Models as text for people: a line for each state, and graphs.
#![tactic(auto)]

pub mod graph;
pub mod states;
