//! The second engine, which shares no code with the merger: plain models, the relation and truth straight from their
//! definitions, and the tables that hold such a model; and what the trials list and count.
#![tactic(auto)]

pub mod counts;
pub mod lists;
pub mod oracle;
pub mod tables;
pub mod truth;
