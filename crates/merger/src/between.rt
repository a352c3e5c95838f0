//! The moves between components.
ghost use Rattle.std.specs.Prelude.{◌≡◌, ℕ, ◌<◌, ◌↔◌};
ghost use Rattle.sets.specs.Sets.{In};
ghost use Rattle.kripke.specs.Numbering.{Ranked};
ghost use Rattle.merger.specs.Grids.{at, set_at};

use crate::partition::Partition;
use crate::tables::{union, write};
use sets::Set;

// The components that the states of component `k` move to.
fn moves_of(rows: &[Set; 128], components: &Partition, k: usize) -> Set
    requires inside { (s t : ℕ) → s < components.now.len → In (set_at rows.now s) t → t < components.now.len }
    requires component { k < components.now.classes }
    ensures { (l : ℕ) → In result l ↔ ((s t : ℕ) × (s < components.now.len) × In (set_at rows.now s) t × (at components.now.class s ≡ k) × (at components.now.class t ≡ l)) }
{
    components.classes_of(union(rows, components.members(k)))
}

// Writes for each component the components that its states move to.
pub(crate) fn write_moves(rows: &[Set; 128], components: &Partition, moves: &mut [Set; 128])
    requires inside { (s t : ℕ) → s < components.now.len → In (set_at rows.now s) t → t < components.now.len }
    requires ranked { Ranked components.now.len (at components.now.class) components.now.classes }
    ensures { (k l : ℕ) → k < components.now.classes → In (set_at moves.new k) l ↔ ((s t : ℕ) × (s < components.now.len) × In (set_at rows.now s) t × (at components.now.class s ≡ k) × (at components.now.class t ≡ l)) }
{
    if components.classes() == components.len() {
        // each state is a component by itself, of its own number
        *moves = *rows;
        return;
    }
    write(
        moves,
        Set::below(components.classes()),
        |k| moves_of(rows, components, k),
    );
}
