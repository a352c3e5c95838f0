//! Sets by a test.
ghost use Rattle.std.specs.Prelude.{ℕ, ◌<◌, true, false};
ghost use Rattle.sets.specs.Sets.{In};

use sets::Set;

// The numbers below `n` and below 128 that pass a test.
pub(crate) fn passing<F: Fn(usize) -> bool>(n: usize, test: F) -> Set
    requires { (k : ℕ) → k < n → k < 128 → F.pre test k }
    ensures passed { (j : ℕ) → In result j → (j < n) × (j < 128) × F.post test j true }
    ensures failed { (j : ℕ) → j < n → j < 128 → (In result j → ⊥) → F.post test j false }
{
    let mut found = Set::NONE;
    for k in 0..n.min(128) {
        if test(k) {
            found = found.with(k);
        }
    }
    found
}
