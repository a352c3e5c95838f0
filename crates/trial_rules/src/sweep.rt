//! The sweeps: lists from a small alphabet, each given to the cases.
use crate::cases::Cases;
use checker::steps::Step;
use examples::pair;
use second::lists::{count_up_to, list};
use std::alloc::{AllocError, Global};

// The steps, with the last word that there is and the first that there is not.
const STEPS: [Step; 7] = [
    Step::True,
    Step::Word(63),
    Step::Word(64),
    Step::Not,
    Step::Or,
    Step::Until,
    Step::Globally,
];

// Small numbers, and bytes that a longer number begins with.
const BYTES: [u8; 6] = [0, 1, 2, 3, 0x80, 0x81];

// The entries of small tables.
const OFFSETS: [u32; 3] = [0, 1, 2];

const TARGETS: [u16; 3] = [0, 1, 2];

fn all_targets(
    heap: Global,
    cases: &mut Cases,
    labels: usize,
    offsets: &[u32],
) -> Result<(), AllocError> {
    for number in 0..count_up_to(&TARGETS, 2) {
        cases.tables(heap, labels, offsets, &list(heap, &TARGETS, number)?)?;
    }
    Ok(())
}

fn all_offsets(heap: Global, cases: &mut Cases, labels: usize) -> Result<(), AllocError> {
    for number in 0..count_up_to(&OFFSETS, 3) {
        all_targets(heap, cases, labels, &list(heap, &OFFSETS, number)?)?;
    }
    Ok(())
}

/// Tables of up to two labels, three offsets and two targets with entries below 3.
pub fn all_tables(heap: Global) -> Result<Cases, AllocError> {
    let mut cases = Cases::default();
    for labels in 0..3 {
        all_offsets(heap, &mut cases, labels)?;
    }
    Ok(cases)
}

/// Lists of up to three steps, with no, one and two marks; and 64 and 65 steps.
pub fn all_steps(heap: Global) -> Result<Cases, AllocError> {
    let swap = pair();
    let mut cases = Cases::default();
    for number in 0..count_up_to(&STEPS, 3) {
        let steps = list(heap, &STEPS, number)?;
        (0..3).for_each(|marks| cases.steps(&swap, &steps, marks));
    }
    let long = [Step::True; 65];
    cases.steps(&swap, &long[..64], 2);
    cases.steps(&swap, &long, 2);
    Ok(cases)
}

/// Files of up to six bytes from an alphabet of six.
pub fn all_files(heap: Global) -> Result<Cases, AllocError> {
    let mut cases = Cases::default();
    for number in 0..count_up_to(&BYTES, 6) {
        cases.file(heap, &list(heap, &BYTES, number)?)?;
    }
    Ok(cases)
}
