//! The components of a model: largest sets of alike states that all reach one another inside the set.
//! One depth-first walk finds them, with two stacks in lent memory.
#![tactic(auto)]

ghost use Rattle.std.specs.Prelude.{ℕ, length, MatchResult};
ghost use Rattle.components.specs.Found.{Answers, AnswersIn, Refuses, Room};

use crate::alike::write_alike_rows;
use crate::numbering::number;
use crate::search::Search;
use models::Model;
use sets::Set;

mod alike;
mod marks;
mod numbering;
mod search;

pub use crate::marks::Walk;
pub use stack::Stack;

// Kept: survey has the same number for what is worked on; a search needs no survey.
/// The most states that are searched.
pub const MOST_STATES: u16 = 128;

// Kept: an array for the most states, since the library takes no heap.
/// The number of each state's component.
pub type Parts = [u8; 128];

/// What a search finds, besides the component of each state.
#[derive(Clone, Copy)]
pub struct Found {
    /// How many components there are.
    pub count: u8,
    /// Those that hold a cycle: they have more than one member, or one that moves to itself.
    pub cyclic: Set,
    /// Their numbers, each behind those of the components that it moves to.
    pub order: Parts,
}

/// Why a search is refused.
#[derive(Clone, Copy, Debug, PartialEq, Eq)]
pub enum Refused {
    /// There are more than 128 states.
    TooMany,
    /// Memory for fewer walk records or state numbers than there are states.
    ShortScratch,
}

// Refuses more states than are searched, or than there is memory for.
fn check_room(size: usize, walks: &[Walk], states: &[u16]) -> Result<(), Refused>
    ensures { MatchResult result (λ _. Room size (length walks.now) (length states.now)) (λ why. Refuses why size (length walks.now) (length states.now)) }
{
    if size > MOST_STATES as usize {
        return Err(Refused::TooMany);
    }
    if walks.len() < size || states.len() < size {
        return Err(Refused::ShortScratch);
    }
    Ok(())
}

/// Writes the number of each state's component to the front of `part`. The components are numbered by first member:
/// state 0 has number 0, and each later state in no earlier component opens the next.
// Kept: two slices side by side, each scratch of its own kind that is refused by its own length; the library takes no heap.
pub fn find_components<M: Model>(
    model: &M,
    walks: &mut [Walk],
    states: &mut [u16],
    part: &mut Parts,
) -> Result<Found, Refused>
    ensures { Answers (M.Model.means model.now) walks.old walks.new states.old states.new part.old part.new result }
{
    let size = model.size() as usize;
    check_room(size, walks, states)?;
    let mut rows = [Set::NONE; 128];
    write_alike_rows(model, &mut rows);
    find_in_rows(&rows[..size], walks, states, part)
}

/// The same of states that have nothing but moves: each has the set of those that it moves to. A component is here a
/// largest set of states that all reach one another.
pub fn find_in_rows(
    rows: &[Set],
    walks: &mut [Walk],
    states: &mut [u16],
    part: &mut Parts,
) -> Result<Found, Refused>
    ensures { AnswersIn rows.now walks.old walks.new states.old states.new part.old part.new result }
{
    check_room(rows.len(), walks, states)?;
    let mut search = Search::new(rows.len(), walks, states);
    search.walk_all(rows);
    Ok(number(&search.component, search.cyclic, rows.len(), part))
}
