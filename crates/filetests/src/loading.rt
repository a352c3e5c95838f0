//! Files that are accepted, and each refusal with its place.
use crate::long::long_label;
use codec::numbers::{Number, NumberFault};
use examples::POLLS;
use modelfile::LONGEST;
use modelfile::faults::{FileFault, TextFault};
use modelfile::reading::{Tables, load};
use models::facts::Facts;
use std::test::Fail;

// N and the number of targets, from tables of 6 labels, 6 offsets and 3 targets.
fn loaded(file: &[u8]) -> Result<(u16, usize), FileFault> {
    let mut tables = Tables {
        labels: &mut [Facts::NONE; 6],
        offsets: &mut [0; 6],
        targets: &mut [0; 3],
    };
    let found = load(file, &mut tables)?;
    Ok((found.states, found.targets))
}

#[test]
fn first_faults(rt: HostRuntime) {
    assert_eq!(rt;
        loaded(&[]),
        Err(FileFault::InNumber(NumberFault::CutShortAt(0)))
    );
    assert_eq!(rt;
        loaded(&[2, 0, 0x80]),
        Err(FileFault::InNumber(NumberFault::CutShortAt(3)))
    );
    assert_eq!(rt;
        loaded(&[0x80, 0]),
        Err(FileFault::InNumber(NumberFault::NotFewestAt(0)))
    );
    assert_eq!(rt; loaded(&[0]), Err(FileFault::OutOfRange(0)));
    assert_eq!(rt; loaded(&[0x81, 0x20]), Err(FileFault::OutOfRange(0)));
    assert_eq!(rt; loaded(&[2, 0, 0, 3]), Err(FileFault::OutOfRange(3)));
    assert_eq!(rt; loaded(&[2, 0, 0, 1, 2]), Err(FileFault::OutOfRange(4)));
    assert_eq!(rt; loaded(&[2, 0, 0, 2, 1, 1]), Err(FileFault::NotRising(5)));
    assert_eq!(rt; loaded(&[6]), Err(FileFault::TableShort(0)));
    assert_eq!(rt; loaded(&[7]), Err(FileFault::TableShort(0)));
    assert_eq!(rt;
        loaded(&[2, 0, 0, 2, 0, 1, 2, 0, 1]),
        Err(FileFault::TableShort(8))
    );
    // at one number the range and the rise come before the tables
    assert_eq!(rt;
        loaded(&[2, 0, 0, 2, 0, 1, 2, 1, 2]),
        Err(FileFault::OutOfRange(8))
    );
    assert_eq!(rt;
        loaded(&[2, 0, 0, 2, 0, 1, 2, 1, 1]),
        Err(FileFault::NotRising(8))
    );
    assert_eq!(rt; loaded(&[1, 0, 1, 0, 9]), Err(FileFault::LeftOver(4)));
    assert_eq!(rt; loaded(&[1, 0, 1, 0]), Ok((1, 1)));
}

#[test]
fn polls_fill_the_fronts(rt: HostRuntime) -> Result<(), Fail> {
    let mut labels = [Facts { bits: 9 }; 6];
    let mut offsets = [9; 7];
    let mut targets = [9; 7];
    let mut tables = Tables {
        labels: &mut labels,
        offsets: &mut offsets,
        targets: &mut targets,
    };
    let found = load(&POLLS, &mut tables)?;
    assert_eq!(rt; (found.states, found.targets), (5, 6));
    assert_eq!(rt; labels[2], Facts { bits: 1 });
    assert_eq!(rt; labels[5], Facts { bits: 9 });
    assert_eq!(rt; offsets, [0, 1, 2, 3, 4, 6, 9]);
    assert_eq!(rt; targets, [1, 2, 2, 2, 2, 4, 9]);
    // a refusal writes nothing
    let mut tables = Tables {
        labels: &mut labels,
        offsets: &mut offsets[0..5],
        targets: &mut targets,
    };
    let again = load(&POLLS, &mut tables);
    assert_eq!(rt; again.err(), Some(FileFault::TableShort(0)));
    assert_eq!(rt; offsets, [0, 1, 2, 3, 4, 6, 9]);
    Ok(())
}

#[test]
fn fault_lines(rt: HostRuntime) {
    let mut text = [b'-'; 16];
    let fault = FileFault::InNumber(NumberFault::NotFewestAt(0)).numbers();
    assert_eq!(rt; fault.write(&mut text), Ok(14));
    assert_eq!(rt; text, *b"fault 1 2 0 0\n--");
    let long = FileFault::TooLong.numbers();
    assert_eq!(rt; long.write(&mut text), Err(TextFault::BufferShort));
    assert_eq!(rt; text, *b"fault 1 2 0 0\n--");
    assert_eq!(rt; TextFault::BufferShort.cause(), 25);
}

// 4,096 states without moves, whose labels are wide enough to make the longest file; one byte more is too long.
#[test]
fn longest_file(rt: HostRuntime) -> Result<(), Fail> {
    let heap = rt.alloc();
    let mut file = vec![in heap; 0; LONGEST]?;
    let mut labels = vec![in heap; Facts::NONE; 4096]?;
    let mut offsets = vec![in heap; 0; 4097]?;
    let mut at = Number(4096).write(&mut file, 0).ok_or("room")?;
    for s in 0..4096 {
        at = Number(long_label(s, 1 << 21))
            .write(&mut file, at)
            .ok_or("room")?;
    }
    assert_eq!(rt; at, LONGEST - 4096);
    let mut tables = Tables {
        labels: &mut labels,
        offsets: &mut offsets,
        targets: &mut [],
    };
    let found = load(&file, &mut tables)?;
    assert_eq!(rt; (found.states, found.targets), (4096, 0));
    file.push(0)?;
    let again = load(&file, &mut tables);
    assert_eq!(rt; again.err(), Some(FileFault::TooLong));
    Ok(())
}
