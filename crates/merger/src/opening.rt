//! A model looked over, and its analysis begun.
ghost use Rattle.std.specs.Prelude.{◌≡◌, ℕ, ◌≤◌, length};
ghost use Rattle.sets.specs.Sets.{In};
ghost use Rattle.survey.specs.Gaps.{Admitted, Linked};
ghost use Rattle.merger.specs.Grids.{set_at};
ghost use Rattle.merger.specs.Analysed.{Surveyed};
ghost use Rattle.merger.specs.Starts.{Sorted, Started};

use crate::between::write_moves;
use crate::closure::close;
use crate::labels::{put_by_labels, write_alike, write_facts, write_first};
use crate::partition::Partition;
use crate::tables::{Found, Rounds};
use components::{Walk, find_in_rows};
use models::Model;
use sets::Set;

// Finds the components of a model, with their words and the moves between them. Answers the components, each behind those
// with its words that it moves to.
// Kept: two slices as in open.
pub(crate) fn look_over<M: Model>(
    found: &mut Found,
    model: &M,
    rows: &[Set; 128],
    walks: &mut [Walk],
    states: &mut [u16],
) -> [u8; 128]
    requires admitted { Admitted (M.Model.means model.now).frame }
    requires linked { Linked (M.Model.means model.now).frame rows.now }
    requires rooms { ((M.Model.means model.now).frame.size ≤ length walks.old) × ((M.Model.means model.now).frame.size ≤ length states.old) }
    ensures surveyed { Surveyed (M.Model.means model.now) found.new }
    ensures sorted { Sorted found.new result }
{
    let size = model.size() as usize;
    let mut facts = [0; 128];
    write_facts(model, &mut facts);
    let mut labels = Partition::new();
    put_by_labels(&facts, size, &mut labels);
    let mut alike = [Set::NONE; 128];
    write_alike(rows, &labels, &mut alike);
    let parts = find_in_rows(&alike[..size], walks, states, &mut found.component).unwrap();
    let mut components = Partition::new();
    components.by_numbers(&found.component, size);
    found.states = model.size();
    found.words = model.words();
    found.components = parts.count as usize;
    write_first(&facts, &components, &mut found.facts);
    write_moves(rows, &components, &mut found.moves);
    parts.order
}

// The classes of alike components, and what each component reaches in its class; `order` has the components, each behind
// those with its words that it moves to.
pub(crate) fn start(found: &Found, order: &[u8; 128], rounds: &mut Rounds)
    requires few { found.now.components ≤ 128 }
    requires sorted { Sorted found.now order.now }
    ensures { Started found.now rounds.new }
{
    rounds.partition.clear();
    put_by_labels(&found.facts, found.components, &mut rounds.partition);
    let mut reach = [Set::NONE; 128];
    close(&found.moves, &rounds.partition, order, &mut reach);
    rounds.reach.fill(&reach, &rounds.partition);
    rounds.made = 0;
    rounds.settled = false;
}
