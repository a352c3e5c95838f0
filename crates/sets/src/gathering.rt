//! A set that is gathered number by number.
ghost use Rattle.std.specs.Prelude.{◌≡◌, ℕ, ◌<◌, ◌⊎◌, ◌↔◌};
ghost use Rattle.sets.specs.Sets.{In, none};

use crate::Set;
use std::marker::Model;

/// Numbers that are being gathered: for many of them quicker than `Set::with`, by half.
#[derive(Drop)]
pub struct Gathering {
    // those from 0 to 63, and those from 64 to 127: a bit of a half takes few instructions
    halves: [u64; 2],
}

// Clauses see the set.
impl Model for Gathering {
    ghost use Rattle.std.specs.Prelude.{ℕ, ◌+◌, ◌*◌, ◌^◌, slice_index};
    ghost use Rattle.sets.specs.declared.Set.{Set as Numbers};

    ghost Value = { Numbers };

    ghost view = { λ g. record { bits = slice_index g.halves 0 + slice_index g.halves 1 * 2 ^ 64 } };
}

impl Gathering {
    /// No number.
    pub fn new() -> Gathering
        ensures { result ≡ none }
    {
        Gathering { halves: [0; 2] }
    }

    /// Adds `k`, if it is below 128.
    pub fn add(&mut self, k: usize)
        ensures { (j : ℕ) → In self.new j ↔ (In self.old j ⊎ ((j ≡ k) × (k < 128))) }
    {
        if k < 128 {
            self.halves[k / 64] |= 1 << (k % 64);
        }
    }

    /// The set of the numbers.
    pub fn set(&self) -> Set
        ensures { result ≡ self.now }
    {
        Set::from_halves(self.halves[0], self.halves[1])
    }
}
