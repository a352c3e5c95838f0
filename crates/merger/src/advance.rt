//! One round on the tables.
ghost use Rattle.std.specs.Prelude.{◌≡◌, ℕ, ◌<◌, false};
ghost use Rattle.merger.specs.Grids.{at};
ghost use Rattle.merger.specs.Reaching.{On, Narrowed};
ghost use Rattle.merger.specs.Tables.{Bounded, Advanced};

use crate::ahead::write_outlooks;
use crate::partition::Partition;
use crate::reach::Reach;
use crate::tables::{Found, Rounds};
use sets::Set;

// Clears the pairs of components that are in two classes, where some are parted.
fn narrow(reach: &mut Reach, classes: &Partition, parted: bool)
    requires { parted ≡ false → (k l : ℕ) → k < classes.now.len → l < classes.now.len → On reach.old k l → at classes.now.class l ≡ at classes.now.class k }
    ensures { Narrowed reach.old reach.new classes.now }
{
    if parted {
        reach.narrow(classes);
    }
}

// Makes one more round. A component that is alone in its class is parted from nothing, so that it need not be looked at.
pub(crate) fn advance(found: &Found, rounds: &mut Rounds)
    requires { Bounded found.now rounds.old }
    ensures { Advanced found.now rounds.old rounds.new }
{
    let wanted = rounds.partition.shared();
    let mut rows = [Set::NONE; 128];
    write_outlooks(
        &rounds.reach,
        &found.moves,
        &rounds.partition,
        wanted,
        &mut rows,
    );
    let before = rounds.partition.classes();
    rounds.partition.refine(&rows);
    rounds.settled = rounds.partition.classes() == before;
    narrow(&mut rounds.reach, &rounds.partition, !rounds.settled);
    rounds.made += 1;
}
