//! Writes the file of a whole model: a look at all of it first, so that a refusal alters nothing, and then a writing.
ghost use Rattle.std.specs.Prelude.{◌≡◌, ℕ, ◌+◌, ◌<◌, ◌≤◌, List, [], ◌∷◌, ◌++◌, length, IfOk, MatchResult};
ghost use Rattle.models.specs.declared.facts.Facts.{Facts as Label};
ghost use Rattle.codec.specs.Numbers.{codes, counted};
ghost use Rattle.codec.specs.Pieces.{placed};
ghost use Rattle.modelfile.specs.Files.{bits_of, RisingRow};
ghost use Rattle.writing.specs.Saves.{Labels, Saved, Saves, SaveFault, Measured, space_of};
ghost use Rattle.writing.specs.Savings.{MeasuredRow, SetsFit, SetsGiven, RowsFit, RowsGiven};
ghost use Rattle.writing.specs.Trips.{ClosedLoadsBack, SavedLoadsBack, LoadedSavesBack, OneSaving};
ghost use Rattle.writing.specs.Writings.{RowsHold, RowDone, RowFault, HandsBack};

use crate::protocol::{Rows, Sets, WriteFault, begin, is_rising};
use codec::numbers::{Counted, Number};
use codec::pieces::Piece;
use kripke::LIMIT;
use modelfile::LONGEST;
use models::Model;

// How many bytes N and the labels take.
fn labels_width<M: Model>(model: &M) -> usize
    ensures { (labels : List Label) × Labels (M.Model.means model.now) labels × (result ≡ length (codes ((M.Model.means model.now).frame.size ∷ bits_of labels))) }
{
    let states = model.size();
    let mut wide = Number(states as u64).width();
    // Kept: of a `map` and `sum` here the check leaves open whose labels have these widths, and that the sum fits.
    for s in 0..states {
        wide += Number(model.facts(s).bits).width();
    }
    wide
}

// Kept: an array for the most moves, since the library takes no heap.
// A table with room for the moves of any state.
type Row = [u16; LIMIT as usize];

// The moves of a state, gathered at the front of `row`.
fn gather<'r, M: Model>(model: &M, s: u16, row: &'r mut Row) -> &'r [u16]
    ensures { result.now ≡ (M.Model.means model.now).frame.row s }
{
    let mut count = 0;
    // Kept: of what is written under `iter_mut().zip(model.moves(s))` the check knows nothing, so the places are counted.
    for target in model.moves(s) {
        row[count] = target;
        count += 1;
    }
    &row[..count]
}

// How many bytes a row takes of those that are left, or why it is refused.
fn row_width(targets: &[u16], states: u16, left: usize) -> Result<usize, WriteFault>
    ensures { MeasuredRow targets.now states left result }
{
    if !is_rising(targets, states) {
        return Err(WriteFault::BadRow);
    }
    Counted(targets)
        .width_within(left)
        .ok_or(WriteFault::NoSpace)
}

// How many bytes the file of the model takes of the space, or why it is refused.
fn measure<M: Model>(model: &M, space: usize) -> Result<usize, WriteFault>
    ensures { MatchResult result (Measured (M.Model.means model.now) space) (SaveFault (M.Model.means model.now) space) }
{
    let states = model.size();
    if states == 0 {
        return Err(WriteFault::BadSize);
    }
    let mut len = labels_width(model);
    if len > space {
        return Err(WriteFault::NoSpace);
    }
    let mut row: Row = [0; LIMIT as usize];
    for s in 0..states {
        len += row_width(gather(model, s, &mut row), states, space - len)?;
    }
    Ok(len)
}

// Gives the facts of each state.
fn give_sets<M: Model>(model: &M, buffer: &mut [u8], start: Sets) -> Result<Sets, WriteFault>
    requires { SetsFit (M.Model.means model.now) buffer.old start }
    ensures { MatchResult result (SetsGiven (M.Model.means model.now) buffer.old buffer.new start (M.Model.means model.now).frame.size) (λ _. ⊥) }
{
    let mut sets = start;
    for s in 0..model.size() {
        sets = sets.set(buffer, model.facts(s))?;
    }
    Ok(sets)
}

// Gives the row of each state.
fn give_rows<M: Model>(model: &M, buffer: &mut [u8], start: Rows) -> Result<Rows, WriteFault>
    requires { RowsFit (M.Model.means model.now) buffer.old start }
    ensures { MatchResult result (RowsGiven (M.Model.means model.now) buffer.old buffer.new start (M.Model.means model.now).frame.size) (λ _. ⊥) }
{
    let mut rows = start;
    let mut row: Row = [0; LIMIT as usize];
    for s in 0..model.size() {
        rows = rows.row(buffer, gather(model, s, &mut row))?;
    }
    Ok(rows)
}

// Writes the file of a model that was measured: nothing is refused.
fn write_out<M: Model>(model: &M, buffer: &mut [u8]) -> Result<usize, WriteFault>
    requires { (len : ℕ) × Measured (M.Model.means model.now) (space_of buffer.old) len }
    ensures { MatchResult result (Saved (M.Model.means model.now) buffer.old buffer.new) (λ _. ⊥) }
{
    let begun = begin(buffer, model.size())?;
    let sets = give_sets(model, buffer, begun)?;
    let turned = sets.rows()?;
    let rows = give_rows(model, buffer, turned)?;
    let len = rows.close()?;
    Ok(len)
}

/// Writes the file of the model at the buffer's front and answers its length; the rest of the buffer is left.
/// A model without states is refused (41), and so, as the labels and the rows come, is one that has no space in the
/// buffer or in a file (42) or a row that does not rise or goes nowhere (45). Then nothing is altered.
pub fn save<M: Model>(model: &M, buffer: &mut [u8]) -> Result<usize, WriteFault>
    ensures { Saves (M.Model.means model.now) buffer.old buffer.new result }
{
    let _len = measure(model, buffer.len().min(LONGEST))?;
    write_out(model, buffer)
}

/// The laws of writing and loading: what a closed writing wrote is accepted and denotes just what was given; a saved
/// model loads as an equal one; a loaded file is saved as its own bytes; and `save` has one answer.
pub fn trip_laws() -> u8
    ensures closed { ClosedLoadsBack }
    ensures saved { SavedLoadsBack }
    ensures loaded { LoadedSavesBack }
    ensures single { OneSaving }
{
    0
}
