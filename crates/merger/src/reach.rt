//! What each component reaches inside its class, as it is kept.
ghost use Rattle.std.specs.Prelude.{◌≡◌, ℕ, ◌↔◌, [], slice_index_or};
ghost use Rattle.sets.specs.Sets.{In};
ghost use Rattle.merger.specs.Grids.{at};

use sets::Set;

// Which component reaches which, both of one class.
#[derive(Drop)]
pub(crate) struct Reach {
    // for each ordered pair one byte, which is 1 if the first reaches the second
    // Kept: an array of fixed size, since the libraries take no heap; how many rows count, the classes tell.
    pub(crate) rows: [[u8; 128]; 128],
    // those that reached themselves and no other from the first
    pub(crate) still: Set,
    ghost alone: { (k l : ℕ) → In still k → (at (slice_index_or rows k []) l ≡ 1) ↔ (l ≡ k) },
}

impl Reach {
    // Nothing is reached.
    pub(crate) fn new() -> Reach {
        Reach {
            rows: [[0; 128]; 128],
            still: Set::NONE,
        }
    }
}
