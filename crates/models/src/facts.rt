//! Sixty-four facts in one number.
ghost use Rattle.std.specs.Prelude.{◌≡◌, ℕ, ◌<◌, ◌≤◌, Bool, false, ◌&&◌, ◌||◌, ◌==◌, nat_lt};
ghost use Rattle.models.specs.Facts.{fact_words, facts_lawful};

use crate::Label;

/// Word `a` is bit `a`, and bit 0 is the lowest.
#[repr(C)]
#[derive(Clone, Copy, Debug, PartialEq, Eq)]
pub struct Facts {
    pub bits: u64,
}

impl Facts {
    /// No word holds.
    pub const NONE: Facts = Facts { bits: 0 };

    // Kept: like the check's set by a test, but of 64 bits, and kinds of labels know nothing of sets.
    // The words below `words` of which `holds` says yes.
    pub(crate) fn from_fn<F: Fn(u8) -> bool>(words: u8, holds: F) -> Facts
        requires { F.IsAlwaysCallable holds }
        ensures below { (a : ℕ) → a < words → a < 64 → F.post holds a (fact_words result a) }
        ensures past { (a : ℕ) → words ≤ a → fact_words result a ≡ false }
    {
        let mut all = Facts::NONE;
        for a in 0..words {
            if holds(a) {
                all = all.with(a);
            }
        }
        all
    }

    /// The same with word `a` besides, if there is such a word.
    pub fn with(self, a: u8) -> Facts
        ensures { (k : ℕ) → fact_words result k ≡ (fact_words self k || (k == a && nat_lt a 64)) }
    {
        if a >= 64 {
            return self;
        }
        Facts {
            bits: self.bits | (1 << a),
        }
    }
}

impl Label for Facts {
    const WORDS: u8 = 64;

    ghost count = { 64 };

    ghost means = { fact_words };

    ghost lawful = { facts_lawful };

    fn word_count() -> u8 {
        Self::WORDS
    }

    fn holds(&self, a: u8) -> bool {
        a < Self::WORDS && (self.bits >> a) & 1 == 1
    }

    fn same(&self, other: &Facts) -> bool {
        // Kept: of `self == other` a proof does not learn that both numbers have 64 bits at most, as the law needs.
        self.bits == other.bits
    }

    fn facts(&self) -> Facts {
        *self
    }
}
