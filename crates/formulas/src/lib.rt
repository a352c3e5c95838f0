//! Formulas as people write them: the word for each step, and what to do about a formula that is refused.
#![tactic(auto)]

ghost use Rattle.std.specs.Prelude.{◌≡◌, ℕ, ◌<◌, ◌↔◌, Some, decimal};
ghost use Rattle.formulas.specs.Words.{Reads};

use checker::steps::{Malformed, Refused, Step};
use console::faults::{FORMULA_LENGTH, Fault, NOT_ONE_LEFT, PAGES, TOO_FEW_OPERANDS};

// The number of a word of the model, with no sign and no 0 to fill up.
#[tactic(auto, using(crate::proofs::Numerals::number_read, crate::proofs::Numerals::begins))]
fn word_number(text: &str) -> Option<u8>
    ensures { (n : ℕ) → (result ≡ Some n) ↔ ((n < 64) × (text.now ≡ decimal n)) }
{
    match text.as_bytes() {
        [b'0'] | [b'1'..=b'9', ..] => text.parse().ok().filter(|n| *n < 64),
        _ => None,
    }
}

/// The step that a word stands for.
// Kept: Step is checker's, so FromStr would stand there, where no words are; a type of this crate's own for it is no plainer.
pub fn step_of(word: &str) -> Option<Step>
    ensures { Reads word.now result }
{
    match word {
        "true" => Some(Step::True),
        "not" => Some(Step::Not),
        "or" => Some(Step::Or),
        "EU" => Some(Step::Until),
        "EG" => Some(Step::Globally),
        _ => word_number(word.strip_prefix("w")?).map(Step::Word),
    }
}

/// What to do about a check that is not made.
pub fn advice(why: Refused) -> &'static str {
    match why {
        Refused::Model(gap) => gap.advice(),
        Refused::Steps(Malformed::Length) => FORMULA_LENGTH,
        Refused::Steps(Malformed::TooFewOperands { .. }) => TOO_FEW_OPERANDS,
        Refused::Steps(Malformed::NotOneLeft) => NOT_ONE_LEFT,
        Refused::Steps(Malformed::UnknownWord { .. }) | Refused::ShortMarks => PAGES,
    }
}
