//! A formula put to a model: in which states is it true?
#![tactic(auto)]

ghost use Rattle.std.specs.Prelude.{◌≡◌, ℕ, ◌<◌, ◌≤◌, length, MatchResult, slice_index};
ghost use Rattle.sets.specs.Sets.{bit};
ghost use Rattle.checker.specs.declared.steps.Refused.TheVariants.{Model as of_model, Steps as of_steps};
ghost use Rattle.checker.specs.Refusals.{Refuses, Checked, cause, place, move_number};
ghost use Rattle.checker.specs.Claims.{OneFormula, ReadableFormulas, OneRefusal};

use crate::reading::read;
use crate::steps::{Malformed, Refused, Step};
use crate::truth::Field;
use models::Model;
use sets::Set;
use survey::gaps::{self, Gap};

mod passing;
mod reading;
mod spread;
pub mod steps;
mod truth;

impl From<Gap> for Refused {
    ghost from_gives = { λ gap r. r ≡ of_model gap };

    fn from(gap: Gap) -> Refused {
        Refused::Model(gap)
    }
}

impl From<Malformed> for Refused {
    ghost from_gives = { λ fault r. r ≡ of_steps fault };

    fn from(fault: Malformed) -> Refused {
        Refused::Steps(fault)
    }
}

/// A refusal's numbers: its place is a state or a step.
pub type Numbers = gaps::Numbers<usize>;

impl Refused {
    /// The numbers of this refusal.
    pub fn numbers(self) -> Numbers
        ensures { (result.cause ≡ cause self) × ((result.place ≡ place self) × (result.number ≡ move_number self)) }
    {
        let (cause, place, number) = match self {
            Refused::Model(gap) => return gap.numbers().into(),
            Refused::Steps(Malformed::Length) => (31, 0, 0),
            Refused::Steps(Malformed::TooFewOperands { step }) => (32, step, 0),
            Refused::Steps(Malformed::NotOneLeft) => (33, 0, 0),
            Refused::Steps(Malformed::UnknownWord { step }) => (34, step, 0),
            Refused::ShortMarks => (35, 0, 0),
        };
        Numbers {
            cause,
            place,
            number,
        }
    }
}

/// Steps denote one formula at most, and those that are read are just those that denote one.
pub fn steps_denote() -> u8
    ensures one { OneFormula }
    ensures readable { ReadableFormulas }
{
    0
}

/// A check is refused for one reason at most, and for none if it is accepted.
pub fn one_refusal() -> u8
    ensures { OneRefusal }
{
    0
}

// Writes 1 for each of the first `n` numbers that is in the set, and 0 for each that is not.
fn mark(set: Set, n: usize, marks: &mut [u8])
    requires { (n ≤ 128) × (n ≤ length marks.old) }
    ensures states { (s : ℕ) → s < n → slice_index marks.new s ≡ bit set.bits s }
    ensures rest { (s : ℕ) → n ≤ s → slice_index marks.new s ≡ slice_index marks.old s }
{
    for (s, mark) in marks[..n].iter_mut().enumerate() {
        *mark = u8::from(set.has(s));
    }
}

/// Marks each state: 1 where the formula is true that the steps denote, 0 where it is not. A refusal leaves the marks.
pub fn check<M: Model>(model: &M, steps: &[Step], marks: &mut [u8]) -> Result<(), Refused>
    ensures { MatchResult result (λ _. Checked (M.Model.means model.now) steps.now marks.old marks.new) (λ why. Refuses (M.Model.means model.now) steps.now (length marks.old) why × (marks.new ≡ marks.old)) }
{
    let field = Field::of(model)?;
    read(steps, model.words())?;
    let n = model.size() as usize;
    if marks.len() < n {
        return Err(Refused::ShortMarks);
    }
    mark(field.truth(steps), n, marks);
    Ok(())
}
