//! The merger for programs in C and in Rust: a few calls over memory that is lent. A slice is passed as a pointer and a length.
#![tactic(auto)]

ghost use Rattle.std.specs.Prelude.{◌≡◌, ℕ, Option, Result};
ghost use Rattle.std.specs.Option.{unwrap_or};
ghost use Rattle.kripke.specs.Kinds.{listed};
ghost use Rattle.models.specs.Facts.{fact_words};
ghost use Rattle.exported.specs.Outcomes.{outcome, merge_told, reduce_told, check_told};
ghost use Rattle.exported.specs.Jobs.{tables, MergesFile, MergesModel, ReducesFile, ChecksModel, FindsComponents};
ghost use Rattle.exported.specs.declared.outcomes.MergeFault.{MergeFault};
ghost use Rattle.exported.specs.declared.outcomes.ReduceFault.{ReduceFault};
ghost use Rattle.checker.specs.declared.steps.Refused.{Refused};

// Kept: the tables side by side in each call, since slices cross to C one by one.
use crate::jobs::{check_steps, components_of, merge, merge_file, reduce_file};
use crate::outcomes::{Outcome, answered};
use modelfile::reading::Tables;
use models::facts::Facts;
use models::listed::Listed;

mod jobs;
pub mod outcomes;

/// Takes a model file, makes all rounds and writes the listing at the text's front; the length is the listing's.
/// The tables hold the model afterwards, unless the file is not right.
#[unsafe(no_mangle)]
pub extern "C" fn tulavemin_merge_file(
    file: &[u8],
    labels: &mut [Facts],
    offsets: &mut [u32],
    targets: &mut [u16],
    text: &mut [u8],
) -> Outcome
    ensures { (answer : Result ℕ MergeFault) × (result ≡ outcome merge_told answer) × MergesFile file.now (tables labels.old offsets.old targets.old) (tables labels.new offsets.new targets.new) text.old text.new answer }
{
    let mut tables = Tables {
        labels,
        offsets,
        targets,
    };
    answered(merge_file(file, &mut tables, text))
}

/// The same of a model by tables.
#[unsafe(no_mangle)]
pub extern "C" fn tulavemin_merge_tables(
    labels: &[Facts],
    offsets: &[u32],
    targets: &[u16],
    text: &mut [u8],
) -> Outcome
    ensures { (answer : Result ℕ MergeFault) × (result ≡ outcome merge_told answer) × MergesModel (listed 64 fact_words labels.now offsets.now targets.now) text.old text.new answer }
{
    let model = Listed {
        labels,
        offsets,
        targets,
    };
    answered(merge(&model, text))
}

/// Takes a model file, makes all rounds and writes the reduced model as a file to the front of `reduced`.
#[unsafe(no_mangle)]
pub extern "C" fn tulavemin_reduce_file(
    file: &[u8],
    labels: &mut [Facts],
    offsets: &mut [u32],
    targets: &mut [u16],
    reduced: &mut [u8],
) -> Outcome
    ensures { (answer : Result ℕ ReduceFault) × (result ≡ outcome reduce_told answer) × ReducesFile file.now (tables labels.old offsets.old targets.old) (tables labels.new offsets.new targets.new) reduced.old reduced.new answer }
{
    let mut tables = Tables {
        labels,
        offsets,
        targets,
    };
    answered(reduce_file(file, &mut tables, reduced))
}

/// Marks each state of a model by tables: 1 where the formula is true that the steps stand for, 0 where it is not. The length
/// is the number of states. A step is a number: a word's, or 256 true, 257 not, 258 or, 259 until, 260 globally.
#[unsafe(no_mangle)]
pub extern "C" fn tulavemin_check_tables(
    labels: &[Facts],
    offsets: &[u32],
    targets: &[u16],
    steps: &[u16],
    marks: &mut [u8],
) -> Outcome
    ensures { (answer : Result ℕ Refused) × (result ≡ outcome check_told answer) × ChecksModel (listed 64 fact_words labels.now offsets.now targets.now) steps.now marks.old marks.new answer }
{
    let model = Listed {
        labels,
        offsets,
        targets,
    };
    answered(check_steps(&model, steps, marks))
}

/// A number for each state.
#[repr(C)]
pub struct Parts {
    pub part: [u8; 128],
}

/// Writes the number of each state's component, and answers how many components there are; or 0 where there are more than
/// 128 states.
#[unsafe(no_mangle)]
pub extern "C" fn tulavemin_components(
    labels: &[Facts],
    offsets: &[u32],
    targets: &[u16],
    parts: &mut Parts,
) -> usize
    ensures { (answer : Option ℕ) × (result ≡ unwrap_or answer 0) × FindsComponents (listed 64 fact_words labels.now offsets.now targets.now) parts.old.part parts.new.part answer }
{
    let model = Listed {
        labels,
        offsets,
        targets,
    };
    // Kept: 0 for none, since an Option does not cross to C.
    components_of(&model, &mut parts.part).map_or(0, usize::from)
}
