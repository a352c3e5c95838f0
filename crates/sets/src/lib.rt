//! Sets of numbers below 128, one bit of a 128-bit word for each.
#![tactic(auto)]

ghost use Rattle.std.specs.Prelude.{◌≡◌, ℕ, ◌+◌, ◌*◌, ◌^◌, ◌<◌, ◌≤◌, ◌⊎◌, ◌↔◌, length, Decides, MatchOption, ◌≢◌, slice_get};
ghost use Rattle.std.specs.Iterator.{at_most};
ghost use Rattle.sets.specs.Sets.{bit, In, Splits, members};

pub mod gathering;

#[derive(Clone, Copy, PartialEq, Eq)]
pub struct Set {
    // bit k says whether k is in the set
    bits: u128,
}

impl Set {
    pub const NONE: Set = Set { bits: 0 };

    /// All numbers below 128.
    pub fn all() -> Set
        ensures { (j : ℕ) → j < 128 → In result j }
    {
        Set { bits: u128::MAX }
    }

    // Kept: a call with a contract over bits; a From would tell a reader less.
    /// The numbers of the bits that are set, bit 0 the lowest.
    pub fn from_bits(bits: u64) -> Set
        ensures { (j : ℕ) → In result j ↔ ((j < 64) × (bit bits j ≡ 1)) }
    {
        Set { bits: bits as u128 }
    }

    // The numbers of the bits that are set in either half: `low` has those from 0 to 63, and `high` those from 64 on.
    pub(crate) fn from_halves(low: u64, high: u64) -> Set
        ensures { result.bits ≡ low + high * 2 ^ 64 }
    {
        Set {
            bits: (high as u128) << 64 | low as u128,
        }
    }

    /// All numbers below `n`; from 128 up no number is in a set.
    pub fn below(n: usize) -> Set
        ensures { (j : ℕ) → In result j ↔ ((j < n) × (j < 128)) }
    {
        if n >= 128 {
            return Set::all();
        }
        Set { bits: (1 << n) - 1 }
    }

    /// Whether `k` is in the set. No number from 128 up is.
    pub fn has(self, k: usize) -> bool
        ensures { Decides result (In self k) }
    {
        k < 128 && (self.bits >> k) & 1 == 1
    }

    /// The set with `k` besides, if `k` is below 128.
    pub fn with(self, k: usize) -> Set
        ensures { (j : ℕ) → In result j ↔ (In self j ⊎ ((j ≡ k) × (k < 128))) }
    {
        if k >= 128 {
            return self;
        }
        Set {
            bits: self.bits | (1 << k),
        }
    }

    /// What is in either set.
    pub fn or(self, other: Set) -> Set
        ensures means { (j : ℕ) → In result j ↔ (In self j ⊎ In other j) }
        ensures grows { self.bits ≤ result.bits }
    {
        Set {
            bits: self.bits | other.bits,
        }
    }

    /// What is in both sets.
    pub fn and(self, other: Set) -> Set
        ensures { (j : ℕ) → In result j ↔ (In self j × In other j) }
    {
        Set {
            bits: self.bits & other.bits,
        }
    }

    /// The numbers below 128 that are not in the set.
    pub fn others(self) -> Set
        ensures { (j : ℕ) → j < 128 → In result j ↔ (In self j → ⊥) }
    {
        Set { bits: !self.bits }
    }

    /// Whether some number is in both sets.
    pub fn meets(self, other: Set) -> bool
        ensures { Decides result ((j : ℕ) × In self j × In other j) }
    {
        self.bits & other.bits != 0
    }

    /// Whether both sets have the same members.
    pub fn same(self, other: Set) -> bool
        ensures { Decides result ((j : ℕ) → In self j ↔ In other j) }
    {
        self == other
    }

    /// What is in this set and not in the other.
    pub fn minus(self, other: Set) -> Set
        ensures means { (j : ℕ) → In result j ↔ (In self j × (In other j → ⊥)) }
        ensures shrinks { result.bits ≤ self.bits }
    {
        Set {
            bits: self.bits & !other.bits,
        }
    }

    /// Whether the set has two members or more.
    pub fn several(self) -> bool
        ensures { Decides result ((j k : ℕ) × In self j × In self k × (j ≢ k)) }
    {
        match self.split_first() {
            Some((_, rest)) => rest.bits != 0,
            None => false,
        }
    }

    /// The first member, and the set without it; nothing if there is none.
    pub fn split_first(self) -> Option<(usize, Set)>
        ensures { MatchOption result (self.bits ≡ 0) (λ p. Splits self p.0 p.1) }
    {
        if self.bits == 0 {
            return None;
        }
        let first = self.bits.trailing_zeros() as usize;
        let rest = Set {
            bits: self.bits & (self.bits - 1),
        };
        Some((first, rest))
    }

    /// How many members there are.
    pub fn count(self) -> usize
        ensures { result ≡ length (members self) }
    {
        self.into_iter().count()
    }

    /// Member `k` of the members in rising order, from 0, if there are so many.
    pub fn nth(self, k: usize) -> Option<usize>
        ensures { result ≡ slice_get (members self) k }
    {
        self.into_iter().nth(k)
    }
}

/// The members of a set that are still to come, rising.
#[derive(Drop)]
pub struct IntoIter {
    left: Set,
}

impl Iterator for IntoIter {
    type Item = usize;

    ghost next_gives = { λ x r y. MatchOption r ((x.left.bits ≡ 0) × (y ≡ x)) (λ k. Splits x.left k y.left) };

    ghost remaining = { λ x. at_most (length (members x.left)) };

    fn next(&mut self) -> Option<usize> {
        let (first, rest) = self.left.split_first()?;
        self.left = rest;
        Some(first)
    }
}

impl IntoIterator for Set {
    type Item = usize;

    type IntoIter = IntoIter;

    ghost into_iter_gives = { λ x r. r.left ≡ x };

    fn into_iter(self) -> IntoIter {
        IntoIter { left: self }
    }
}
