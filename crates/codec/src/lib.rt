//! Numbers and text in lent buffers: how each is written at a place, and how a number is read back.
#![tactic(auto)]

pub mod numbers;
pub mod pieces;
pub mod text;
