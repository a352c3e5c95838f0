//! A model that is lent, so that a layer can hold the one below by value or by reference.
use crate::Model as KripkeModel;
use crate::facts::Facts;

impl<M: KripkeModel> KripkeModel for &M {
    ghost means = { λ m. M.means m.now };

    ghost formed = { λ m. M.formed m.now };

    fn size(&self) -> u16 {
        (*self).size()
    }

    fn words(&self) -> u8 {
        (*self).words()
    }

    fn holds(&self, a: u8, s: u16) -> bool {
        (*self).holds(a, s)
    }

    fn degree(&self, s: u16) -> u16 {
        (*self).degree(s)
    }

    fn target(&self, s: u16, k: u16) -> Option<u16> {
        (*self).target(s, k)
    }

    fn row(&self, s: u16) -> Option<&[u16]> {
        (*self).row(s)
    }

    fn alike(&self, s: u16, t: u16) -> bool {
        (*self).alike(s, t)
    }

    fn facts(&self, s: u16) -> Facts {
        (*self).facts(s)
    }
}
