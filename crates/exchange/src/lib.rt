//! Model files brought to the merger, and what it found told as text: `take`, `settle` and `listing`.
#![tactic(auto)]

mod lines;
pub mod listing;
pub mod settling;
pub mod taking;
