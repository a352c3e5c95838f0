//! What each component reaches inside its class before the first round.
ghost use Rattle.std.specs.Prelude.{◌≡◌, ℕ, ◌<◌, ◌↔◌};
ghost use Rattle.sets.specs.Sets.{In};
ghost use Rattle.kripke.specs.Paths.{Trail};
ghost use Rattle.merger.specs.Grids.{set_at};
ghost use Rattle.merger.specs.Starts.{Inner, Behind};

use crate::partition::Partition;
use crate::tables::union;
use sets::Set;

// Writes for each component what it reaches by moves inside its class, itself included. `order` has the components, each
// behind those of its class that it moves to: what these reach is known when it is come to.
pub(crate) fn close(
    moves: &[Set; 128],
    classes: &Partition,
    order: &[u8; 128],
    reach: &mut [Set; 128],
)
    requires { Behind moves.now classes.now order.now }
    ensures { (k l : ℕ) → k < classes.now.len → In (set_at reach.new k) l ↔ ((n : ℕ) × Trail (Inner moves.now classes.now) (λ j. j < classes.now.len) n k l) }
{
    for &k in &order[..classes.len()] {
        let k = k as usize;
        let next = moves[k].and(classes.mates_of(k));
        reach[k] = union(reach, next).with(k);
    }
}
