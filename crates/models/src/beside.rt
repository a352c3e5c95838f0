//! Two models as one.
ghost use Rattle.std.specs.Prelude.{◌≡◌};
ghost use Rattle.kripke.specs.Kinds.{beside};
ghost use Rattle.kripke.proofs.Sides.{beside_formed};
ghost use Rattle.models.specs.Sides.{side_of};

use crate::Model as KripkeModel;
use crate::facts::Facts;
use kripke::{LIMIT, NOWHERE};

// The states of the second model follow those of the first.
#[derive(Drop)]
pub struct SideBySide<A, B> {
    pub first: A,
    pub second: B,
}

// Which of the two models a state belongs to, and its number there.
#[derive(Clone, Copy)]
enum Side {
    First(u16),
    Second(u16),
}

impl<A: KripkeModel, B: KripkeModel> SideBySide<A, B> {
    fn side(&self, s: u16) -> Option<Side>
        ensures { result ≡ side_of (A.means self.now.first).frame.size (B.means self.now.second).frame.size s }
    {
        let n = self.first.size();
        if s >= self.size() {
            None
        } else if s < n {
            Some(Side::First(s))
        } else {
            Some(Side::Second(s - n))
        }
    }
}

impl<A: KripkeModel, B: KripkeModel> KripkeModel for SideBySide<A, B> {
    ghost means = { λ m. beside (A.means m.first) (B.means m.second) };

    ghost formed = { λ m. beside_formed _ _ (A.formed m.first) (B.formed m.second) };

    fn size(&self) -> u16 {
        let n = self.first.size() + self.second.size();
        if n <= LIMIT { n } else { 0 }
    }

    fn words(&self) -> u8 {
        self.first.words().max(self.second.words())
    }

    fn holds(&self, a: u8, s: u16) -> bool {
        match self.side(s) {
            Some(Side::First(own)) => self.first.holds(a, own),
            Some(Side::Second(own)) => self.second.holds(a, own),
            None => false,
        }
    }

    fn degree(&self, s: u16) -> u16 {
        match self.side(s) {
            Some(Side::First(own)) => self.first.degree(own),
            Some(Side::Second(own)) => self.second.degree(own),
            None => 0,
        }
    }

    fn target(&self, s: u16, k: u16) -> Option<u16> {
        match self.side(s)? {
            Side::First(own) => self.first.target(own, k),
            // the second model's states begin at `s - own`
            Side::Second(own) => self
                .second
                .target(own, k)
                .map(|t| if t < NOWHERE { s - own + t } else { NOWHERE }),
        }
    }

    fn facts(&self, s: u16) -> Facts {
        match self.side(s) {
            Some(Side::First(own)) => self.first.facts(own),
            Some(Side::Second(own)) => self.second.facts(own),
            None => Facts::NONE,
        }
    }
}
