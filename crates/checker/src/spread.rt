//! Paths by a table of moves, from where they end back to where they begin.
ghost use Rattle.std.specs.Prelude.{◌≡◌, ℕ, ◌<◌, ◌≤◌, ◌↔◌};
ghost use Rattle.sets.specs.Sets.{In};
ghost use Rattle.kripke.specs.Paths.{Until, Stays};
ghost use Rattle.checker.specs.Tables.{Goes, Closed, Feeds};

use crate::passing::passing;
use sets::Set;
use survey::Rows;

// The moves of the first `n` states, which go to states among them.
#[derive(Clone, Copy)]
pub(crate) struct Table<'a> {
    pub(crate) rows: &'a Rows,
    pub(crate) n: usize,
    ghost few: { n ≤ 128 },
    ghost closed: { Closed n rows.now },
}

impl Table<'_> {
    // The states of `f` with a move into `x`: one round over the moves.
    fn before(&self, f: Set, x: Set) -> Set
        ensures { (s : ℕ) → In result s ↔ (In f s × Feeds self.now.rows.now x self.now.n s) }
    {
        f.and(passing(self.n, |s| self.rows[s].meets(x)))
    }

    // The states with a path that ends in `g` and is in `f` before.
    pub(crate) fn until(&self, f: Set, g: Set) -> Set
        ensures { (s : ℕ) → s < self.now.n → In result s ↔ ((k : ℕ) × Until (Goes self.now.rows.now) (In f) (In g) k s) }
    {
        let mut found = g;
        'grow: loop {
            let more = found.or(self.before(f, found));
            if more == found {
                return found;
            }
            found = more;
        }
    }

    // The states with a path of `n` moves that is in `f` throughout. A round that drops no state is the last.
    pub(crate) fn globally(&self, f: Set) -> Set
        ensures { (s : ℕ) → s < self.now.n → In result s ↔ Stays (Goes self.now.rows.now) (In f) self.now.n s }
    {
        let mut left = f;
        for _turn in 0..self.n {
            let fewer = self.before(f, left);
            if fewer == left {
                return left;
            }
            left = fewer;
        }
        left
    }
}
