//! A model looked over before work: its states counted, each row seen to be total, and its moves taken into sets.
#![tactic(auto)]

ghost use Rattle.std.specs.Prelude.{◌≡◌, ℕ, ◌<◌, length, MatchResult};
ghost use Rattle.kripke.specs.Models.{TotalRow};
ghost use Rattle.survey.specs.Gaps.{Gaps, Sized, Admitted, TotalBelow, RowIs, Linked, OneGap};

use gaps::Gap;
use kripke::NOWHERE;
use models::Model;
use sets::Set;
use sets::gathering::Gathering;

pub mod gaps;

/// The most states that are worked on.
pub const MOST_STATES: u16 = 128;

// Kept: an array for the most states, since the library takes no heap.
/// The states that each of 128 states moves to.
pub type Rows = [Set; 128];

/// A model has one gap at most, and none if it can be worked on.
pub fn one_gap() -> u8
    ensures { OneGap }
{
    0
}

/// The number of states, where there are some and not too many.
pub fn count_states<M: Model>(m: &M) -> Result<u16, Gap>
    ensures { MatchResult result (λ n. (n ≡ (M.Model.means m.now).frame.size) × Sized (M.Model.means m.now).frame) (λ gap. Gaps (M.Model.means m.now).frame gap × (Sized (M.Model.means m.now).frame → ⊥)) }
{
    let n = m.size();
    if n == 0 {
        return Err(Gap::NoStates);
    }
    if n > MOST_STATES {
        return Err(Gap::TooMany);
    }
    Ok(n)
}

// The states that state `s` moves to.
fn row_of<M: Model>(m: &M, s: u16) -> Result<Set, Gap>
    requires sized { Sized (M.Model.means m.now).frame }
    requires state { s < (M.Model.means m.now).frame.size }
    requires below { TotalBelow (M.Model.means m.now).frame s }
    ensures { MatchResult result (λ x. TotalRow (M.Model.means m.now).frame.size ((M.Model.means m.now).frame.row s) × RowIs (M.Model.means m.now).frame s x) (Gaps (M.Model.means m.now).frame) }
{
    let mut row = Gathering::new();
    for (k, t) in m.moves(s).enumerate() {
        if t == NOWHERE {
            return Err(Gap::Nowhere {
                state: s,
                number: k as u16,
            });
        }
        row.add(t as usize);
    }
    let row = row.set();
    if row == Set::NONE {
        return Err(Gap::EmptyRow { state: s });
    }
    Ok(row)
}

/// The moves of a model that can be worked on, each asked for once; or the first gap, by rising state.
pub fn rows_of<M: Model>(m: &M) -> Result<Rows, Gap>
    ensures { MatchResult result (λ rows. Admitted (M.Model.means m.now).frame × Linked (M.Model.means m.now).frame rows) (Gaps (M.Model.means m.now).frame) }
{
    let n = count_states(m)?;
    let mut rows = [Set::NONE; 128];
    for (s, row) in rows[..n as usize].iter_mut().enumerate() {
        *row = row_of(m, s as u16)?;
    }
    Ok(rows)
}
