//! What each component reaches inside its class: written, looked over and narrowed.
ghost use Rattle.std.specs.Prelude.{◌≡◌, ℕ, ◌+◌, ◌<◌, ◌≤◌, ◌*◌, ◌⊎◌, ◌↔◌, [], slice_index_or};
ghost use Rattle.sets.specs.Sets.{bit, In, none};
ghost use Rattle.merger.specs.Grids.{at, set_at};
ghost use Rattle.merger.specs.Reaching.{On, Narrowed};

use crate::partition::Partition;
use crate::reach::Reach;
use crate::tables::write;
use sets::Set;

// Eight marks as one number. The lowest bit of its first byte is set if the first is a mark, and so on.
fn word_of(eight: &[u8; 8]) -> u64
    ensures { (i : ℕ) → i < 8 → at eight.now i ≡ 1 → bit result (8 * i) ≡ 1 }
{
    // one load
    u64::from_le_bytes(*eight)
}

// What is in `all`, or in the set of some component that the row marks, of the eight from `from` on, whose marks `word` has.
// Kept: a bit of the word leads to the next mark; where each of the eight was asked, random models took an eighth more in all.
fn union_eight(row: &[u8; 128], sets: &[Set; 128], from: usize, word: u64, all: Set) -> Set
    requires room { from + 8 ≤ 128 }
    requires marks { (i : ℕ) → i < 8 → at row.now (from + i) ≡ 1 → bit word (8 * i) ≡ 1 }
    ensures { (c : ℕ) → In result c ↔ (In all c ⊎ ((l : ℕ) × (from ≤ l) × (l < from + 8) × (at row.now l ≡ 1) × In (set_at sets.now l) c)) }
{
    let mut more = all;
    let mut left = word;
    while left != 0 {
        let l = from + left.trailing_zeros() as usize / 8;
        if row[l] == 1 {
            more = more.or(sets[l]);
        }
        // without its lowest bit
        left &= left - 1;
    }
    more
}

// Lets each of the first `count` rows mark what is in its set.
fn fill_rows(rows: &mut [[u8; 128]; 128], sets: &[Set; 128], count: usize)
    requires { count ≤ 128 }
    ensures { (k l : ℕ) → k < count → (at (slice_index_or rows.new k []) l ≡ 1) ↔ In (set_at sets.now k) l }
{
    // Kept: under `iter_mut().zip(sets)` the check knows nothing of the rows that were written.
    for (k, row) in rows[..count].iter_mut().enumerate() {
        *row = [0; 128];
        write(row, sets[k], |_| 1);
    }
}

// Those of the first `count` places whose set has just the place itself.
fn alone(sets: &[Set; 128], count: usize) -> Set
    requires { count ≤ 128 }
    ensures { (k : ℕ) → In result k → (k < count) × ((l : ℕ) → In (set_at sets.now k) l ↔ (l ≡ k)) }
{
    let mut alone = Set::NONE;
    for (k, set) in sets[..count].iter().enumerate() {
        if set.same(Set::NONE.with(k)) {
            alone = alone.with(k);
        }
    }
    alone
}

// Clears in the rows of `places` the marks of what is in another class.
fn narrow_rows(rows: &mut [[u8; 128]; 128], places: Set, classes: &Partition)
    requires { (k : ℕ) → In places k → k < classes.now.len }
    ensures each { (k l : ℕ) → In places k → l < classes.now.len → (at (slice_index_or rows.new k []) l ≡ 1) ↔ ((at (slice_index_or rows.old k []) l ≡ 1) × (at classes.now.class l ≡ at classes.now.class k)) }
    ensures others { (k : ℕ) → (In places k → ⊥) → slice_index_or rows.new k [] ≡ slice_index_or rows.old k [] }
{
    for k in places {
        classes.clear_others(k, &mut rows[k]);
    }
}

impl Reach {
    // Lets each of the components in classes reach what is in its set.
    pub(crate) fn fill(&mut self, sets: &[Set; 128], classes: &Partition)
        ensures { (k l : ℕ) → k < classes.now.len → On self.new k l ↔ In (set_at sets.now k) l }
    {
        let count = classes.len();
        fill_rows(&mut self.rows, sets, count);
        self.still = alone(sets, count);
    }

    // Components that reach themselves and no other. Each that did so at first is among them.
    pub(crate) fn still(&self) -> Set
        ensures { (k l : ℕ) → In result k → On self.now k l ↔ (l ≡ k) }
    {
        self.still
    }

    // What is in the set of some of the components in classes that component `k` reaches. The other sets have nothing.
    pub(crate) fn union(&self, k: usize, sets: &[Set; 128], classes: &Partition) -> Set
        requires component { k < classes.now.len }
        requires others { (l : ℕ) → classes.now.len ≤ l → set_at sets.now l ≡ none }
        ensures { (c : ℕ) → In result c ↔ ((l : ℕ) × (l < classes.now.len) × On self.now k l × In (set_at sets.now l) c) }
    {
        let row = &self.rows[k];
        let mut all = Set::NONE;
        let (eights, _) = row.as_chunks::<8>();
        for (block, eight) in eights[..classes.len().div_ceil(8)].iter().enumerate() {
            all = union_eight(row, sets, block * 8, word_of(eight), all);
        }
        all
    }

    // Clears the pairs of components that are in two classes.
    pub(crate) fn narrow(&mut self, classes: &Partition)
        ensures { Narrowed self.old self.new classes.now }
    {
        let others = Set::below(classes.len()).minus(self.still);
        narrow_rows(&mut self.rows, others, classes);
    }
}
