//! The labels of the longest file.

/// The label of one of 4,096 states: of 2,730 labels each takes ten bytes, the next is `bits`, and the others take one.
pub fn long_label(s: usize, bits: u64) -> u64 {
    match s {
        0..2730 => u64::MAX,
        2730 => bits,
        _ => 0,
    }
}
