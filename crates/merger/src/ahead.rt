//! Where the components go: the classes that are one move ahead of what each of them reaches.
ghost use Rattle.std.specs.Prelude.{◌≡◌, ℕ, ◌<◌, ◌≤◌, ◌↔◌};
ghost use Rattle.sets.specs.Sets.{In, none};
ghost use Rattle.merger.specs.Grids.{at, set_at, Ahead};
ghost use Rattle.merger.specs.Reaching.{On, Outlooks};

use crate::partition::Partition;
use crate::reach::Reach;
use crate::tables::write;
use sets::Set;

// The classes one move ahead of component `from`: other classes, and its own where the component is cyclic.
fn ahead(moves: Set, classes: &Partition, from: usize) -> Set
    requires from { from < classes.now.len }
    requires inside { (to : ℕ) → In moves to → to < classes.now.len }
    ensures { (c : ℕ) → In result c ↔ Ahead (In moves) (at classes.now.class) from c }
{
    classes.classes_of(moves.minus(classes.mates_of(from)))
}

// Writes, for each component in `wanted`, the classes one move ahead of it. Before that no row has anything.
fn write_ahead(moves: &[Set; 128], classes: &Partition, wanted: Set, rows: &mut [Set; 128])
    requires wanted { (k : ℕ) → In wanted k → k < classes.now.len }
    requires inside { (k : ℕ) → In wanted k → (to : ℕ) → In (set_at moves.now k) to → to < classes.now.len }
    requires blank { (k : ℕ) → set_at rows.old k ≡ none }
    ensures wanted { (k : ℕ) → In wanted k → (c : ℕ) → In (set_at rows.new k) c ↔ Ahead (In (set_at moves.now k)) (at classes.now.class) k c }
    ensures others { (k : ℕ) → (In wanted k → ⊥) → set_at rows.new k ≡ none }
{
    write(rows, wanted, |k| ahead(moves[k], classes, k));
}

// Writes, for each component in `places`, what `ahead` has for the components that it reaches, and leaves the others.
fn write_unions(
    reach: &Reach,
    classes: &Partition,
    ahead: &[Set; 128],
    places: Set,
    rows: &mut [Set; 128],
)
    requires places { (k : ℕ) → In places k → k < classes.now.len }
    requires others { (l : ℕ) → classes.now.len ≤ l → set_at ahead.now l ≡ none }
    ensures made { (k : ℕ) → In places k → (c : ℕ) → In (set_at rows.new k) c ↔ ((l : ℕ) × (l < classes.now.len) × On reach.now k l × In (set_at ahead.now l) c) }
    ensures others { (k : ℕ) → (In places k → ⊥) → set_at rows.new k ≡ set_at rows.old k }
{
    write(rows, places, |k| reach.union(k, ahead, classes));
}

// Writes, for each component in `wanted`, the classes one move ahead of what it reaches. What is reached from `wanted` is
// wanted too, and before that no row has anything.
// Kept: rows are written in place, since a table that is handed out is copied.
pub(crate) fn write_outlooks(
    reach: &Reach,
    moves: &[Set; 128],
    classes: &Partition,
    wanted: Set,
    rows: &mut [Set; 128],
)
    requires wanted { (k : ℕ) → In wanted k → k < classes.now.len }
    requires inside { (k : ℕ) → In wanted k → (to : ℕ) → In (set_at moves.now k) to → to < classes.now.len }
    requires closed { (k l : ℕ) → In wanted k → l < classes.now.len → On reach.now k l → In wanted l }
    requires blank { (k : ℕ) → set_at rows.old k ≡ none }
    ensures { Outlooks rows.new reach.now moves.now classes.now wanted }
{
    write_ahead(moves, classes, wanted, rows);
    // one that reaches only itself sees what is ahead of it
    let far = wanted.minus(reach.still());
    if !far.same(Set::NONE) {
        let ahead = *rows;
        write_unions(reach, classes, &ahead, far, rows);
    }
}
