//! Lists of calls.
use crate::answers::{Made, Ran, Refusal};

/// A call on an analysis.
#[derive(Clone, Copy, Debug, PartialEq, Eq)]
pub enum Call {
    Round,
    /// With a budget of rounds.
    Run(usize),
    Class(u16),
    Together(u16, u16),
    Reduced,
}

/// What an accepted call answers.
#[derive(Clone, Copy, Debug, PartialEq, Eq)]
pub enum Answer {
    Made(Made),
    Ran(Ran),
    Class(u16),
    Together(bool),
    /// The reduced model is filled.
    Filled,
}

/// What a call answers, or why it is refused.
pub type Answered = Result<Answer, Refusal>;
