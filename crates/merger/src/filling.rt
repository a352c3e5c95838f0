//! A reduced model made, and filled from the tables.
ghost use Rattle.std.specs.Prelude.{◌≡◌, ℕ, ◌<◌};
ghost use Rattle.sets.specs.Sets.{In};
ghost use Rattle.merger.specs.Grids.{set_at};
ghost use Rattle.merger.specs.Tables.{Bounded};
ghost use Rattle.merger.specs.Reducing.{meaning, Drawn};

use crate::reduced::Reduced;
use crate::tables::{Found, Rounds, table};
use sets::Set;

impl Reduced {
    /// A model without states and words.
    pub fn empty() -> Reduced
        ensures { ((meaning result).frame.size ≡ 0) × ((meaning result).labels.count ≡ 0) }
    {
        Reduced {
            states: 0,
            words: 0,
            facts: [0; 128],
            moves: [Set::NONE; 128],
        }
    }
}

// One state for each class, with the words and the row of its first component.
pub(crate) fn reduce(found: &Found, rounds: &Rounds, rows: &[Set; 128]) -> Reduced
    requires bounds { Bounded found.now rounds.now }
    requires rows { (k c : ℕ) → k < found.now.components → In (set_at rows.now k) c → c < rounds.now.partition.classes }
    ensures { Drawn found.now rounds.now rows.now result }
{
    let classes = &rounds.partition;
    let all = Set::below(classes.classes());
    Reduced {
        states: classes.classes() as u16,
        words: found.words,
        facts: table(0, all, |c| found.facts[classes.first(c)]),
        moves: table(Set::NONE, all, |c| rows[classes.first(c)]),
    }
}
