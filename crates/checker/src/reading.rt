//! Whether steps are a formula.
ghost use Rattle.std.specs.Prelude.{◌≡◌, Decides, MatchResult};
ghost use Rattle.checker.specs.Reading.{Malforms, Readable, Known, takes};

use crate::steps::{Malformed, Step};

/// The most steps of a formula.
pub const MOST_STEPS: usize = 64;

// How many operands a step takes.
pub(crate) fn arity(step: Step) -> usize
    ensures { result ≡ takes step }
{
    match step {
        Step::True | Step::Word(_) => 0,
        Step::Not | Step::Globally => 1,
        Step::Or | Step::Until => 2,
    }
}

// Whether the step's word, if it has one, is below the count.
fn is_known(step: Step, words: u8) -> bool
    ensures { Decides result (Known words step) }
{
    match step {
        Step::Word(a) => a < words,
        _ => true,
    }
}

// Goes through the steps and counts the operands that they leave.
pub(crate) fn read(steps: &[Step], words: u8) -> Result<(), Malformed>
    ensures { MatchResult result (λ _. Readable words steps.now) (Malforms words steps.now) }
{
    if steps.is_empty() || steps.len() > MOST_STEPS {
        return Err(Malformed::Length);
    }
    let mut operands = 0;
    for (i, step) in steps.iter().enumerate() {
        if !is_known(*step, words) {
            return Err(Malformed::UnknownWord { step: i });
        }
        let taken = arity(*step);
        if operands < taken {
            return Err(Malformed::TooFewOperands { step: i });
        }
        operands = operands - taken + 1;
    }
    if operands == 1 {
        Ok(())
    } else {
        Err(Malformed::NotOneLeft)
    }
}
