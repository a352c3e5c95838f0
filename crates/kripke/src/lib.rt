//! What a model, a formula, a component, a class and a reduced model are.
//! The definitions stand in specs/, what follows from them in proofs/; nothing of the program is in either.
#![tactic(auto)]

/// A move that goes to no state goes here.
pub const NOWHERE: u16 = 4096;

/// The most states of a model, and the most moves of a row.
pub const LIMIT: u16 = 4096;

pub mod theorems;
