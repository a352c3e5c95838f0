//! A model in which a state with no move rests.
ghost use Rattle.std.specs.Prelude.{◌≡◌};
ghost use Rattle.kripke.specs.Kinds.{rested, rests};
ghost use Rattle.kripke.proofs.Rests.{rested_formed};

use crate::Model as KripkeModel;
use crate::facts::Facts;

// The model below, where a state with an empty row gets one move, to itself.
#[derive(Drop)]
pub struct Rested<M> {
    pub below: M,
}

impl<M: KripkeModel> Rested<M> {
    // Whether `s` is a state with an empty row.
    fn rests(&self, s: u16) -> bool
        ensures { result ≡ rests (M.means self.now.below).frame s }
    {
        s < self.below.size() && self.below.degree(s) == 0
    }
}

impl<M: KripkeModel> KripkeModel for Rested<M> {
    ghost means = { λ m. rested (M.means m.below) };

    ghost formed = { λ m. rested_formed _ (M.formed m.below) };

    fn size(&self) -> u16 {
        self.below.size()
    }

    fn words(&self) -> u8 {
        self.below.words()
    }

    fn holds(&self, a: u8, s: u16) -> bool {
        self.below.holds(a, s)
    }

    fn degree(&self, s: u16) -> u16 {
        if self.rests(s) {
            1
        } else {
            self.below.degree(s)
        }
    }

    fn target(&self, s: u16, k: u16) -> Option<u16> {
        if self.rests(s) {
            (k == 0).then_some(s)
        } else {
            self.below.target(s, k)
        }
    }

    fn alike(&self, s: u16, t: u16) -> bool {
        self.below.alike(s, t)
    }

    fn facts(&self, s: u16) -> Facts {
        self.below.facts(s)
    }
}
