//! The moves of a state, one after the other.
ghost use Rattle.std.specs.Prelude.{◌≡◌};
ghost use Rattle.std.specs.Iterator.{YieldsFirst, item_count};
ghost use Rattle.kripke.specs.Kinds.{told};

use crate::Model as KripkeModel;
use kripke::NOWHERE;
use std::marker::Model;

/// Where the moves of a state go, from the first to the last: each a state or `NOWHERE`. Each is asked for once.
#[derive(Drop)]
pub struct Moves<'a, M: KripkeModel> {
    pub(crate) model: &'a M,
    pub(crate) state: u16,
    pub(crate) size: u16,
    // the row as a slice, where the model has it so: it is found once, and not anew for each move
    pub(crate) row: Option<&'a [u16]>,
    // how many are told
    pub(crate) told: u16,
}

// What a contract sees: where the moves go that are still to come.
impl<'a, M: KripkeModel> Model for Moves<'a, M> {
    ghost use Rattle.std.specs.Prelude.{◌≡◌, ℕ, List, drop, map, MatchOption};
    ghost use Rattle.kripke.specs.Kinds.{told as goes};

    ghost Value = { List ℕ };

    ghost view = { λ it. drop it.told ((M.means it.model.now).frame.row it.state) };

    ghost invariant = { λ it. MatchOption it.row (Unit {0}) (λ row. (M.means it.model.now).frame.row it.state ≡ map (goes it.size) row.now) };
}

// Where a target of a table goes, in a model of so many states: one that is no state goes nowhere.
pub(crate) fn landing(size: u16, t: u16) -> u16
    ensures { result ≡ told size t }
{
    if t < size { t } else { NOWHERE }
}

impl<M: KripkeModel> Iterator for Moves<'_, M> {
    type Item = u16;

    ghost next_gives = { YieldsFirst (λ it. it) };

    ghost remaining = { item_count (λ it. it) };

    fn next(&mut self) -> Option<u16> {
        let t = match self.row {
            Some(row) => landing(self.size, *row.get(self.told as usize)?),
            None => self.model.target(self.state, self.told)?,
        };
        self.told += 1;
        Some(t)
    }
}
