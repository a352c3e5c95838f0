//! The rules of listed tables, of what `open` refuses and of what `check` refuses, read by hand.
use checker::steps::Step;
use std::alloc::{AllocError, Global};

/// What a refusal tells: its cause; the state, the step or the byte; and the number of a move, each 0 where there is none.
// Kept: causes are numbers, as the rules tell them; an enum would need its own table of them, beside the one that is tested.
#[derive(Clone, Copy, Debug, PartialEq, Eq)]
pub struct Told {
    pub cause: u8,
    pub place: usize,
    pub number: usize,
}

impl Told {
    /// A cause and its place.
    pub fn at(cause: u8, place: usize) -> Told {
        Told {
            cause,
            place,
            number: 0,
        }
    }
}

/// The rows that tables mean: none where there is not one offset more than labels, an empty one where the offsets fall or
/// pass the end, and 4,096 for a target that is no state.
pub fn rows(
    heap: Global,
    labels: usize,
    offsets: &[u32],
    targets: &[u16],
) -> Result<Vec<Vec<u16>>, AllocError> {
    let ends = offsets.iter().skip(1);
    if labels > 4096 || ends.len() != labels {
        return Ok(Vec::new(heap));
    }
    offsets
        .iter()
        .zip(ends)
        .map(|(from, to)| row(heap, labels, targets.get(*from as usize..*to as usize)))
        .try_collect(heap)
}

// The row that a part of the targets means.
fn row(heap: Global, labels: usize, part: Option<&[u16]>) -> Result<Vec<u16>, AllocError> {
    part.filter(|targets| targets.len() <= 4096)
        .unwrap_or(&[])
        .iter()
        .map(|target| {
            if usize::from(*target) < labels {
                *target
            } else {
                4096
            }
        })
        .collect(heap)
}

// What is wrong first with a row: that it is empty, or its first move that goes nowhere.
fn row_gap(state: usize, row: &[u16]) -> Option<Told> {
    if row.is_empty() {
        return Some(Told::at(15, state));
    }
    let number = row.iter().position(|target| *target == 4096)?;
    Some(Told {
        cause: 14,
        place: state,
        number,
    })
}

/// What `open` refuses, with so many walk records and state numbers.
pub fn open_refusal(rows: &[Vec<u16>], walks: usize, states: usize) -> Option<Told> {
    if rows.is_empty() {
        return Some(Told::at(11, 0));
    }
    if rows.len() > 128 {
        return Some(Told::at(12, 0));
    }
    if walks < rows.len() || states < rows.len() {
        return Some(Told::at(13, 0));
    }
    rows.iter()
        .enumerate()
        .find_map(|(state, row)| row_gap(state, row.as_slice()))
}

/// What `check` refuses, for a model of `states` states and `words` words and so many marks.
pub fn check_refusal(steps: &[Step], states: usize, words: u8, marks: usize) -> Option<Told> {
    if steps.is_empty() || steps.len() > 64 {
        return Some(Told::at(31, 0));
    }
    let mut operands: usize = 0;
    for (place, step) in steps.iter().enumerate() {
        let taken = match step {
            Step::Word(a) if *a >= words => return Some(Told::at(34, place)),
            Step::True | Step::Word(_) => 0,
            Step::Not | Step::Globally => 1,
            Step::Or | Step::Until => 2,
        };
        let Some(rest) = operands.checked_sub(taken) else {
            return Some(Told::at(32, place));
        };
        // each step leaves one
        operands = rest.saturating_add(1);
    }
    if operands != 1 {
        return Some(Told::at(33, 0));
    }
    (marks < states).then_some(Told::at(35, 0))
}
