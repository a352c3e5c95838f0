//! The reduced model: one state for each class of the model that was opened.
ghost use Rattle.std.specs.Prelude.{ℕ, ◌<◌, ◌≤◌, get_or};
ghost use Rattle.kripke.specs.Words.{Within};
ghost use Rattle.sets.specs.Sets.{In, none};
ghost use Rattle.merger.specs.Grids.{at, set_at};
ghost use Rattle.merger.specs.Tables.{words_of};
ghost use Rattle.merger.specs.Filled.{filled, filled_formed};

use models::facts::Facts;
use models::{Label, Model as KripkeModel};
use sets::Set;

/// A model that an analysis fills. At first it has no states and no words.
// Kept: two arrays with one count, each filled by one `table` from a table of the analysis; the libraries take no heap.
#[derive(Drop)]
pub struct Reduced {
    pub(crate) states: u16,
    pub(crate) words: u8,
    // of each state: its words as bits, and the states that it moves to
    pub(crate) facts: [u64; 128],
    pub(crate) moves: [Set; 128],
    ghost few: { states ≤ 128 },
    ghost spoken: { words ≤ 64 },
    ghost within: { (s : ℕ) → Within words (words_of (at facts s)) },
    ghost lands: { (s j : ℕ) → In (set_at moves s) j → j < states },
}

impl KripkeModel for Reduced {
    ghost means = { λ m. filled m.states m.words m.facts m.moves };

    ghost formed = { λ m. filled_formed m.states m.words m.facts m.moves m.few m.spoken m.within m.lands };

    fn size(&self) -> u16 {
        self.states
    }

    fn words(&self) -> u8 {
        self.words
    }

    fn holds(&self, a: u8, s: u16) -> bool {
        s < self.states && self.facts(s).holds(a)
    }

    fn degree(&self, s: u16) -> u16 {
        if s < self.states {
            self.moves[s as usize].count() as u16
        } else {
            0
        }
    }

    fn target(&self, s: u16, k: u16) -> Option<u16> {
        if s >= self.states {
            return None;
        }
        self.moves[s as usize].nth(k as usize).map(|t| t as u16)
    }

    fn facts(&self, s: u16) -> Facts {
        if s < self.states {
            Facts {
                bits: self.facts[s as usize],
            }
        } else {
            Facts::NONE
        }
    }
}
