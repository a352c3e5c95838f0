//! What an analysis holds, in plain tables for at most 128 states; and tables made place by place.
ghost use Rattle.std.specs.Prelude.{◌≡◌, ℕ, ◌<◌, ◌↔◌, slice_index_or};
ghost use Rattle.sets.specs.Sets.{In};
ghost use Rattle.merger.specs.Grids.{set_at};

use crate::partition::Partition;
use crate::reach::Reach;
use sets::Set;

// What an accepted open found; no round alters it.
// Kept: arrays of fixed size with their counts, since the libraries take no heap; each table is handed on by itself.
#[derive(Drop)]
pub struct Found {
    pub(crate) states: u16,
    pub(crate) words: u8,
    pub(crate) components: usize,
    pub(crate) labels: usize,
    // of each state: its component
    pub(crate) component: [u8; 128],
    // of each component: its states' words as bits
    pub(crate) facts: [u64; 128],
    // of each component: the components that its states move to, itself among them if it is cyclic
    pub(crate) moves: [Set; 128],
}

// What the rounds alter.
// Kept: apart from Found, though both are handed on side by side: one is lent while the other is written.
#[derive(Drop)]
pub struct Rounds {
    pub(crate) made: usize,
    pub(crate) settled: bool,
    // of the components
    pub(crate) partition: Partition,
    pub(crate) reach: Reach,
}

// Writes what `make` gives into each of `places`, and leaves the others.
// Kept: a table of fixed size, since the libraries take no heap.
pub(crate) fn write<T: Copy, F: Fn(usize) -> T>(table: &mut [T; 128], places: Set, make: F)
    requires can { (k : ℕ) → In places k → k < 128 → F.pre make k }
    ensures made { (k : ℕ) (d : T) → In places k → F.post make k (slice_index_or table.new k d) }
    ensures others { (k : ℕ) (d : T) → (In places k → ⊥) → slice_index_or table.new k d ≡ slice_index_or table.old k d }
{
    for k in places {
        table[k] = make(k);
    }
}

// The table that has what `make` gives at each of `places`, and `blank` at the others.
// Kept: a table of fixed size, since the libraries take no heap.
pub(crate) fn table<T: Copy, F: Fn(usize) -> T>(blank: T, places: Set, make: F) -> [T; 128]
    requires can { (k : ℕ) → In places k → k < 128 → F.pre make k }
    ensures made { (k : ℕ) (d : T) → In places k → F.post make k (slice_index_or result k d) }
    ensures others { (k : ℕ) → (In places k → ⊥) → slice_index_or result k blank ≡ blank }
{
    let mut table = [blank; 128];
    write(&mut table, places, make);
    table
}

// What is in the set of some of `places`.
pub(crate) fn union(sets: &[Set; 128], places: Set) -> Set
    ensures { (t : ℕ) → In result t ↔ ((s : ℕ) × In places s × In (set_at sets.now s) t) }
{
    let mut all = Set::NONE;
    for s in places {
        all = all.or(sets[s]);
    }
    all
}
