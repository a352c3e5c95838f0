//! The moves between alike states, as sets.
ghost use Rattle.std.specs.Prelude.{ℕ, ◌<◌, ◌≤◌, length, Decides, slice_index_or};
ghost use Rattle.kripke.specs.Words.{SameWords};
ghost use Rattle.models.specs.Facts.{fact_words};
ghost use Rattle.components.specs.Rows.{row_at};
ghost use Rattle.components.specs.Alike.{silent, Told, AlikeMoves};

use models::facts::Facts;
use models::{Label, Model};
use sets::Set;
use sets::gathering::Gathering;

// Writes the words of each state.
// Kept: tables are written in place, here and below, since a table that is handed out is copied.
fn write_words<M: Model>(model: &M, words: &mut [Facts; 128])
    requires { (M.Model.means model.now).frame.size ≤ 128 }
    ensures { Told (M.Model.means model.now) words.new }
{
    for (s, facts) in words[..model.size() as usize].iter_mut().enumerate() {
        *facts = model.facts(s as u16);
    }
}

// Whether `t` is a state with these words.
fn has_words(words: &[Facts], t: u16, own: Facts) -> bool
    ensures { Decides result ((t < length words.now) × SameWords (fact_words (slice_index_or words.now t silent)) (fact_words own)) }
{
    words.get(t as usize).is_some_and(|facts| facts.same(&own))
}

// The states that `s` moves to and that are alike to it.
fn row_of<M: Model>(model: &M, words: &[Facts; 128], s: u16) -> Set
    requires few { (M.Model.means model.now).frame.size ≤ 128 }
    requires state { s < (M.Model.means model.now).frame.size }
    requires told { Told (M.Model.means model.now) words.now }
    ensures { AlikeMoves (M.Model.means model.now) s result }
{
    let words = &words[..model.size() as usize];
    let own = words[s as usize];
    let mut row = Gathering::new();
    for t in model.moves(s) {
        if has_words(words, t, own) {
            row.add(t as usize);
        }
    }
    row.set()
}

// Writes for each state the states that it moves to and that are alike to it.
pub(crate) fn write_alike_rows<M: Model>(model: &M, rows: &mut [Set; 128])
    requires { (M.Model.means model.now).frame.size ≤ 128 }
    ensures { (s : ℕ) → s < (M.Model.means model.now).frame.size → AlikeMoves (M.Model.means model.now) s (row_at rows.new s) }
{
    let mut words = [Facts::NONE; 128];
    write_words(model, &mut words);
    for (s, row) in rows[..model.size() as usize].iter_mut().enumerate() {
        *row = row_of(model, &words, s as u16);
    }
}
