//! The words of states and of components, and both by their words.
ghost use Rattle.std.specs.Prelude.{◌≡◌, ℕ, ◌<◌, ◌≤◌, ◌↔◌};
ghost use Rattle.sets.specs.Sets.{In};
ghost use Rattle.kripke.specs.Words.{SameWords};
ghost use Rattle.kripke.specs.Models.{words_at};
ghost use Rattle.kripke.specs.Numbering.{First, Numbering};
ghost use Rattle.merger.specs.Grids.{at, set_at};
ghost use Rattle.merger.specs.Tables.{words_of};

use crate::partition::Partition;
use crate::tables::write;
use models::Model;
use sets::Set;

// Writes the words of each state as bits.
// Kept: tables are written in place, here and below, since a table that is handed out is copied.
pub(crate) fn write_facts<M: Model>(model: &M, facts: &mut [u64; 128])
    requires { (M.Model.means model.now).frame.size ≤ 128 }
    ensures { (s : ℕ) → s < (M.Model.means model.now).frame.size → SameWords (words_of (at facts.new s)) (words_at (M.Model.means model.now) s) }
{
    write(
        facts,
        Set::below(model.size() as usize),
        |s| model.facts(s as u16).bits,
    );
}

// Writes for each component the words of its first state.
pub(crate) fn write_first(facts: &[u64; 128], components: &Partition, first: &mut [u64; 128])
    ensures { (k : ℕ) → k < components.now.classes → (s : ℕ) × First components.now.len (at components.now.class) k s × (at first.new k ≡ at facts.now s) }
{
    write(
        first,
        Set::below(components.classes()),
        |k| facts[components.first(k)],
    );
}

// Writes for each state those that it moves to and that are of its class.
pub(crate) fn write_alike(rows: &[Set; 128], labels: &Partition, alike: &mut [Set; 128])
    ensures { (s t : ℕ) → s < labels.now.len → In (set_at alike.new s) t ↔ (In (set_at rows.now s) t × (t < labels.now.len) × (at labels.now.class t ≡ at labels.now.class s)) }
{
    write(
        alike,
        Set::below(labels.len()),
        |s| rows[s].and(labels.group_of(s)),
    );
}

// Puts states or components together by their words, numbered by the first of each, where none are yet.
// Kept: a table and a count; the type of a slice has no bound of 128, so the `requires` would stay.
pub(crate) fn put_by_labels(facts: &[u64; 128], count: usize, labels: &mut Partition)
    requires few { count ≤ 128 }
    requires empty { (labels.old.len ≡ 0) × (labels.old.classes ≡ 0) }
    ensures len { labels.new.len ≡ count }
    ensures numbers { Numbering (λ j k. SameWords (words_of (at facts.now j)) (words_of (at facts.now k))) count (at labels.new.class) labels.new.classes }
{
    labels.by_words(facts, count);
}
