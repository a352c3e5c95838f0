//! A model by tables.
ghost use Rattle.std.specs.Prelude.{◌≡◌, ◌<◌, ◌≤◌, MatchOption};
ghost use Rattle.kripke.specs.Kinds.{listed, listed_labels, listed_size, table_row};
ghost use Rattle.kripke.specs.Words.{SameWords};
ghost use Rattle.kripke.proofs.Tables.{listed_formed};

use crate::facts::Facts;
use crate::moves::landing;
use crate::{Label, Model as KripkeModel};
use kripke::LIMIT;

// A label for each state, one offset more, and the targets of all rows, one row after the other. Any tables will do:
// those that do not fit each other have no states, and an offset that is out of order has an empty row.
// Kept: tables side by side, since they are lent, as files and C programs have them.
#[derive(Drop)]
pub struct Listed<'a, L> {
    pub labels: &'a [L],
    pub offsets: &'a [u32],
    pub targets: &'a [u16],
}

impl<L> Listed<'_, L> {
    fn state_count(&self) -> u16
        ensures { result ≡ listed_size self.now.labels.now self.now.offsets.now }
    {
        let n = self.labels.len();
        if n <= LIMIT as usize && self.offsets.len() == n + 1 {
            n as u16
        } else {
            0
        }
    }

    // The row of `s` as the tables have it.
    fn span(&self, s: u16) -> &[u16]
        ensures { result.now ≡ table_row (listed_size self.now.labels.now self.now.offsets.now) self.now.offsets.now self.now.targets.now s }
    {
        if s >= self.state_count() {
            return &[];
        }
        let from = self.offsets[s as usize] as usize;
        let to = self.offsets[s as usize + 1] as usize;
        match self.targets.get(from..to) {
            Some(row) if row.len() <= LIMIT as usize => row,
            _ => &[],
        }
    }
}

impl<L: Label> Listed<'_, L> {
    // The label of `s`, if it is a state: it has the words that the model has at `s`.
    fn label(&self, s: u16) -> Option<&L>
        ensures { MatchOption result (listed_size self.now.labels.now self.now.offsets.now ≤ s) (λ label. (s < listed_size self.now.labels.now self.now.offsets.now) × SameWords (L.means label.now) ((listed_labels L.count L.means self.now.labels.now).words s)) }
    {
        if s < self.state_count() {
            self.labels.get(s as usize)
        } else {
            None
        }
    }
}

impl<L: Label> KripkeModel for Listed<'_, L> {
    ghost means = { λ m. listed L.count L.means m.labels.now m.offsets.now m.targets.now };

    ghost formed = { λ m. listed_formed L.count L.means m.labels.now m.offsets.now m.targets.now L.lawful };

    fn size(&self) -> u16 {
        self.state_count()
    }

    fn words(&self) -> u8 {
        L::word_count()
    }

    fn holds(&self, a: u8, s: u16) -> bool {
        self.label(s).is_some_and(|label| label.holds(a))
    }

    fn degree(&self, s: u16) -> u16 {
        self.span(s).len() as u16
    }

    fn target(&self, s: u16, k: u16) -> Option<u16> {
        let n = self.state_count();
        self.span(s).get(k as usize).map(|t| landing(n, *t))
    }

    fn row(&self, s: u16) -> Option<&[u16]> {
        Some(self.span(s))
    }

    fn alike(&self, s: u16, t: u16) -> bool {
        match (self.label(s), self.label(t)) {
            (Some(one), Some(other)) => one.same(other),
            _ => false,
        }
    }

    fn facts(&self, s: u16) -> Facts {
        self.label(s).map_or(Facts::NONE, |label| label.facts())
    }
}
