//! Formulas as postfix steps, and why a check is not made.
use survey::gaps::Gap;

/// One step of a formula in postfix order: it takes its operands from those that the steps before it left, and leaves one.
#[derive(Clone, Copy, Debug, PartialEq, Eq)]
pub enum Step {
    /// Everywhere true.
    True,
    /// True where the word with this number holds.
    Word(u8),
    /// True where the operand is not.
    Not,
    /// True where either operand is.
    Or,
    /// E(f U g), where `f` is the operand written first: some path ends with `g`, and has `f` before.
    Until,
    /// EG f: some path of as many moves as there are states has `f` throughout.
    Globally,
}

/// What is wrong with steps that are no formula.
#[derive(Clone, Copy, Debug, PartialEq, Eq)]
pub enum Malformed {
    /// There are none, or more than 64.
    Length,
    /// The word of this step is not below the model's count.
    UnknownWord { step: usize },
    /// This step takes more operands than there are.
    TooFewOperands { step: usize },
    /// At the end not exactly one operand is left.
    NotOneLeft,
}

/// Why a check is not made.
#[derive(Clone, Copy, Debug, PartialEq, Eq)]
pub enum Refused {
    /// The model cannot be worked on.
    Model(Gap),
    /// The steps are no formula over the model's words.
    Steps(Malformed),
    /// There are fewer marks than states.
    ShortMarks,
}
