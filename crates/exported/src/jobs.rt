//! What the exported calls do, over memory that is lent.
ghost use Rattle.std.specs.Prelude.{◌≡◌, ℕ, length, MatchResult};
ghost use Rattle.kripke.specs.Models.{Kripke};
ghost use Rattle.merger.specs.Tells.{OpenRefuses};
ghost use Rattle.modelfile.specs.Loads.{held, StillLent};
ghost use Rattle.exchange.specs.Takes.{NotTaken};
ghost use Rattle.exchange.specs.Settles.{Settled, Brought};
ghost use Rattle.exported.specs.Jobs.{scratch, Lists, MergesFile, MergesModel, ReducesFile, step_of, steps_of, ChecksModel, FindsComponents};

use crate::outcomes::{MergeFault, ReduceFault};
use checker::check;
use checker::steps::{Refused, Step};
use components::{Walk, find_components};
use exchange::listing::listing;
use exchange::settling;
use exchange::taking::TakeFault;
use merger::analysis::Analysis;
use merger::answers::OpenRefusal;
use merger::reduced::Reduced;
use modelfile::reading::Tables;
use models::Model;
use survey::MOST_STATES;
use writing::saving::save;

// Kept: arrays of fixed size here and below, since a library takes no heap.
// Scratch has an entry for each state that an analysis may have.
const SCRATCH: usize = MOST_STATES as usize;

// Opens a model, and makes all rounds: no model settles later than after as many rounds as it has states.
fn settle<M: Model>(analysis: &mut Analysis, model: &M) -> Result<(), OpenRefusal>
    ensures { MatchResult result (λ _. Settled analysis.new (M.means model.now)) (OpenRefuses (M.means model.now) scratch scratch) }
{
    let opened = analysis.open(model, &mut [Walk::BLANK; SCRATCH], &mut [0; SCRATCH])?;
    let _ = analysis.run(opened.states as usize);
    Ok(())
}

// The same of the model that a file denotes, which the tables hold afterwards.
fn settle_file(
    analysis: &mut Analysis,
    file: &[u8],
    tables: &mut Tables<'_>,
) -> Result<(), TakeFault>
    ensures answer { MatchResult result (λ _. Brought file.now (held tables.old) (held tables.new) (Settled analysis.new)) (NotTaken file.now (held tables.old) (held tables.new) scratch scratch) }
    ensures lent { StillLent tables.old tables.new }
{
    settling::settle(
        analysis,
        file,
        tables,
        &mut [Walk::BLANK; SCRATCH],
        &mut [0; SCRATCH],
    )
}

// The listing of a settled analysis, at the text's front.
fn list(analysis: &Analysis, text: &mut [u8]) -> Result<usize, MergeFault>
    ensures { (M : Kripke) → Settled analysis.now M → Lists M text.old text.new result }
{
    listing(analysis, text).ok().ok_or(MergeFault::NoRoom)
}

pub(crate) fn merge_file(
    file: &[u8],
    tables: &mut Tables<'_>,
    text: &mut [u8],
) -> Result<usize, MergeFault>
    ensures answer { MergesFile file.now (held tables.old) (held tables.new) text.old text.new result }
    ensures lent { StillLent tables.old tables.new }
{
    let mut analysis = Analysis::new();
    settle_file(&mut analysis, file, tables)?;
    list(&analysis, text)
}

pub(crate) fn merge<M: Model>(model: &M, text: &mut [u8]) -> Result<usize, MergeFault>
    ensures { MergesModel (M.means model.now) text.old text.new result }
{
    let mut analysis = Analysis::new();
    settle(&mut analysis, model)?;
    list(&analysis, text)
}

pub(crate) fn reduce_file(
    file: &[u8],
    tables: &mut Tables<'_>,
    out: &mut [u8],
) -> Result<usize, ReduceFault>
    ensures answer { ReducesFile file.now (held tables.old) (held tables.new) out.old out.new result }
    ensures lent { StillLent tables.old tables.new }
{
    let mut analysis = Analysis::new();
    settle_file(&mut analysis, file, tables)?;
    let mut reduced = Reduced::empty();
    // a settled analysis fills it
    let _ = analysis.reduced(&mut reduced);
    Ok(save(&reduced, out)?)
}

// More than 64 are refused, so that no more than 65 are looked at.
const STEPS: usize = 65;

// The step that a number stands for.
// Kept: numbers, since an enum with a field does not cross to C.
fn step_of(number: u16) -> Step
    ensures { result ≡ step_of number }
{
    match number {
        0..256 => Step::Word(number as u8),
        256 => Step::True,
        257 => Step::Not,
        258 => Step::Or,
        259 => Step::Until,
        260 => Step::Globally,
        _ => Step::Word(u8::MAX),
    }
}

// The steps that the numbers stand for, in the memory that is lent for them.
fn read_steps<'s>(numbers: &[u16], steps: &'s mut [Step; STEPS]) -> &'s [Step]
    ensures { result.now ≡ steps_of numbers.now }
{
    let count = STEPS.min(numbers.len());
    // Kept: of what is written under `iter_mut().zip(numbers)` the check knows nothing, so each number is read by its place.
    for (k, step) in steps[..count].iter_mut().enumerate() {
        *step = step_of(numbers[k]);
    }
    &steps[..count]
}

pub(crate) fn check_steps<M: Model>(
    model: &M,
    numbers: &[u16],
    marks: &mut [u8],
) -> Result<usize, Refused>
    ensures { ChecksModel (M.means model.now) numbers.now marks.old marks.new result }
{
    let mut steps = [Step::True; STEPS];
    check(model, read_steps(numbers, &mut steps), marks)?;
    Ok(model.size() as usize)
}

pub(crate) fn components_of<M: Model>(model: &M, part: &mut [u8; 128]) -> Option<u8>
    ensures { FindsComponents (M.means model.now) part.old part.new result }
{
    let found = find_components(model, &mut [Walk::BLANK; SCRATCH], &mut [0; SCRATCH], part).ok()?;
    Some(found.count)
}
