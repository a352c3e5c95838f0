//! Files written a call at a time: each refusal in its order, which hands the writing back and leaves the buffer.
use crate::long::long_label;
use modelfile::LONGEST;
use models::facts::Facts;
use std::process::Abort;
use std::test::Fail;
use writing::protocol::WriteFault::{AllGiven, BadRow, BadSize, Missing, NoSpace};
use writing::protocol::{Refused, Rows, Sets, WriteFault, begin};

const EXAMPLE: [u8; 11] = [3, 0, 1, 0, 1, 1, 1, 1, 2, 1, 2];

fn write_example(buffer: &mut [u8]) -> Result<usize, WriteFault> {
    let sets = begin(buffer, 3)?
        .set(buffer, Facts { bits: 0 })?
        .set(buffer, Facts { bits: 1 })?
        .set(buffer, Facts { bits: 0 })?;
    let rows = sets
        .rows()?
        .row(buffer, &[1])?
        .row(buffer, &[1])?
        .row(buffer, &[1, 2])?;
    Ok(rows.close()?)
}

// The writing that was handed back, where a call was refused by this fault.
fn handed_back<T: Drop, W: Drop>(
    rt: &impl Abort,
    answer: Result<T, Refused<W>>,
    fault: WriteFault,
) -> Result<W, Fail> {
    let refused = answer.err().ok_or("the call was accepted")?;
    assert_eq!(rt; refused.fault, fault);
    Ok(refused.writing)
}

#[test]
fn numbers_of_refusals(rt: HostRuntime) {
    for (fault, cause) in [
        (BadSize, 41),
        (NoSpace, 42),
        (AllGiven, 43),
        (Missing, 44),
        (BadRow, 45),
    ] {
        assert_eq!(rt; fault.cause(), cause);
    }
}

// The example in so many of eleven bytes: the answer, and what the bytes then are.
fn tried(space: usize) -> (Result<usize, WriteFault>, [u8; 11]) {
    let mut buffer = [0xEE; 11];
    (write_example(&mut buffer[..space.min(11)]), buffer)
}

// In a shorter buffer what the calls before the refused one wrote stands, and the rest is left.
#[test]
fn example_and_each_shorter_buffer(rt: HostRuntime) {
    let mut buffer = [0xEE; 13];
    assert_eq!(rt; write_example(&mut buffer), Ok(11));
    assert_eq!(rt; buffer, [3, 0, 1, 0, 1, 1, 1, 1, 2, 1, 2, 0xEE, 0xEE]);
    let written = [0, 1, 2, 3, 4, 4, 6, 6, 8, 8, 8];
    for (space, len) in written.into_iter().enumerate() {
        let (answer, bytes) = tried(space);
        assert_eq!(rt; answer, Err(NoSpace));
        assert!(rt; bytes.iter().take(len).eq(EXAMPLE.iter().take(len)));
        assert!(rt; bytes.iter().skip(len).all(|byte| *byte == 0xEE));
    }
}

// Begins in so many of three bytes: the refusal, and what the bytes then are.
fn begun(states: u16, space: usize) -> (Option<WriteFault>, [u8; 3]) {
    let mut buffer = [0xEE; 3];
    let begun = begin(&mut buffer[..space.min(3)], states);
    (begun.err(), buffer)
}

#[test]
fn beginnings(rt: HostRuntime) {
    for (states, space, fault) in [
        (0, 3, BadSize),
        (4097, 3, BadSize),
        // a bad size comes before no space
        (0, 0, BadSize),
        (4097, 0, BadSize),
        (1, 0, NoSpace),
        (4096, 1, NoSpace),
    ] {
        assert_eq!(rt; begun(states, space), (Some(fault), [0xEE; 3]));
    }
    assert_eq!(rt; begun(1, 1), (None, [1, 0xEE, 0xEE]));
    assert_eq!(rt; begun(4096, 2), (None, [0x80, 0x20, 0xEE]));
}

// A writing that is refused at every turn goes on each time with what was handed back.
#[test]
fn sets_refused(rt: HostRuntime) -> Result<(), Fail> {
    let mut buffer = [0xEE; 8];
    let mut short = [0xEE; 3];
    let [five, wide] = [5, 300].map(|bits| Facts { bits });
    let mut sets = begin(&mut buffer, 2)?;
    sets = handed_back(&rt, sets.rows(), Missing)?;
    sets = sets.set(&mut buffer, five)?;
    sets = handed_back(&rt, sets.rows(), Missing)?;
    // 300 takes two bytes
    sets = handed_back(&rt, sets.set(&mut short, wide), NoSpace)?;
    sets = sets.set(&mut buffer, wide)?;
    // that all are given comes before no space
    sets = handed_back(&rt, sets.set(&mut short, Facts::NONE), AllGiven)?;
    sets = handed_back(&rt, sets.set(&mut buffer, Facts::NONE), AllGiven)?;
    assert_eq!(rt; short, [0xEE; 3]);
    assert_eq!(rt; buffer, [2, 5, 0xAC, 2, 0xEE, 0xEE, 0xEE, 0xEE]);
    let rows = sets.rows()?.row(&mut buffer, &[])?.row(&mut buffer, &[1])?;
    assert_eq!(rt; rows.close()?, 7);
    assert_eq!(rt; buffer, [2, 5, 0xAC, 2, 0, 1, 1, 0xEE]);
    Ok(())
}

// Falling, equal, not below N.
fn bad_rows(rt: &impl Abort, start: Rows, buffer: &mut [u8]) -> Result<Rows, Fail> {
    let mut rows = start;
    for bad in [[1, 0], [1, 1], [1, 2]] {
        rows = handed_back(rt, rows.row(buffer, &bad), BadRow)?;
    }
    Ok(rows)
}

#[test]
fn rows_refused(rt: HostRuntime) -> Result<(), Fail> {
    let mut buffer = [0xEE; 8];
    let mut short = [0xEE; 5];
    let [five, one] = [5, 1].map(|bits| Facts { bits });
    let sets = begin(&mut buffer, 2)?
        .set(&mut buffer, five)?
        .set(&mut buffer, one)?;
    let mut rows = handed_back(&rt, sets.rows()?.close(), Missing)?;
    // a bad row comes before no space
    rows = bad_rows(&rt, rows, &mut buffer)?;
    rows = bad_rows(&rt, rows, &mut short)?;
    // a degree and two targets, and two bytes for them
    rows = handed_back(&rt, rows.row(&mut short, &[0, 1]), NoSpace)?;
    rows = rows.row(&mut buffer, &[0, 1])?;
    rows = handed_back(&rt, rows.close(), Missing)?;
    rows = handed_back(&rt, rows.row(&mut short, &[]), NoSpace)?;
    rows = rows.row(&mut buffer, &[])?;
    // that all are given comes before a bad row and no space
    rows = handed_back(&rt, rows.row(&mut buffer, &[1, 0]), AllGiven)?;
    rows = handed_back(&rt, rows.row(&mut short, &[0]), AllGiven)?;
    assert_eq!(rt; rows.close()?, 7);
    assert_eq!(rt; short, [0xEE; 5]);
    assert_eq!(rt; buffer, [2, 5, 1, 2, 0, 1, 0, 0xEE]);
    Ok(())
}

// The longest file's sets, in a buffer that is longer.
fn long_sets(buffer: &mut [u8]) -> Result<Sets, WriteFault> {
    let mut sets = begin(buffer, 4096)?;
    for s in 0..4096 {
        let bits = long_label(s, 1 << 21);
        sets = sets.set(buffer, Facts { bits })?;
    }
    Ok(sets)
}

// The longest file: a row that would make it longer is refused.
#[test]
fn longest_by_rows(rt: HostRuntime) -> Result<(), Fail> {
    let mut buffer = vec![in rt.alloc(); 0xEE; LONGEST + 9]?;
    let mut rows = long_sets(&mut buffer)?.rows()?;
    for _row in 0..4095 {
        rows = rows.row(&mut buffer, &[])?;
    }
    rows = handed_back(&rt, rows.row(&mut buffer, &[0]), NoSpace)?;
    rows = rows.row(&mut buffer, &[])?;
    assert_eq!(rt; rows.close()?, LONGEST);
    assert_eq!(rt; buffer.get(LONGEST - 1), Some(&0));
    assert_eq!(rt; buffer.get(LONGEST), Some(&0xEE));
    Ok(())
}

// The same of a label: N takes two bytes and the first 3,276 labels ten each, which leaves five.
#[test]
fn longest_by_sets(rt: HostRuntime) -> Result<(), Fail> {
    let mut buffer = vec![in rt.alloc(); 0xEE; LONGEST + 9]?;
    let mut sets = begin(&mut buffer, 4096)?;
    for _label in 0..3276 {
        sets = sets.set(&mut buffer, Facts { bits: u64::MAX })?;
    }
    let [ten, six, five] = [u64::MAX, 1 << 35, 1 << 28].map(|bits| Facts { bits });
    sets = handed_back(&rt, sets.set(&mut buffer, ten), NoSpace)?;
    sets = handed_back(&rt, sets.set(&mut buffer, six), NoSpace)?;
    sets = sets.set(&mut buffer, five)?;
    let _full = handed_back(&rt, sets.set(&mut buffer, Facts::NONE), NoSpace)?;
    assert_eq!(rt; buffer.get(LONGEST - 1), Some(&1));
    assert_eq!(rt; buffer.get(LONGEST), Some(&0xEE));
    Ok(())
}
