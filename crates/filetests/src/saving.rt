//! Models of each kind saved: the file that loads again, and each refusal in its order, which leaves the buffer.
use crate::long::long_label;
use modelfile::LONGEST;
use modelfile::reading::{Tables, load};
use models::Model;
use models::beside::SideBySide;
use models::facts::Facts;
use models::listed::Listed;
use models::rested::Rested;
use models::sun::Sun;
use std::alloc::Global;
use std::process::Abort;
use std::test::Fail;
use writing::protocol::WriteFault;
use writing::protocol::WriteFault::{BadRow, BadSize, NoSpace};
use writing::saving::save;

// The length of the file and a buffer that it was saved into, of which so many bytes were lent. A refusal leaves the buffer.
fn saved<M: Model>(
    rt: &impl Abort,
    model: &M,
    space: usize,
) -> Result<(usize, [u8; 24]), WriteFault> {
    let mut buffer = [0xEE; 24];
    let answer = save(model, &mut buffer[..space.min(24)]);
    assert!(rt; answer.is_ok() || buffer == [0xEE; 24]);
    Ok((answer?, buffer))
}

const LABELS: [Facts; 3] = [
    Facts { bits: 0 },
    Facts { bits: 300 },
    Facts { bits: u64::MAX },
];

const OFFSETS: [u32; 4] = [0, 1, 1, 4];

const TARGETS: [u16; 4] = [2, 0, 1, 2];

// Its file has 1 + 13 labels' bytes and 2 + 1 + 4 bytes of rows.
fn small() -> Listed<'static, Facts> {
    Listed {
        labels: &LABELS,
        offsets: &OFFSETS,
        targets: &TARGETS,
    }
}

#[test]
fn saved_and_loaded(rt: HostRuntime) -> Result<(), Fail> {
    let (len, file) = saved(&rt, &small(), 24)?;
    assert_eq!(rt;
        file,
        [
            3, 0, 0xAC, 2, 0xFF, 0xFF, 0xFF, 0xFF, 0xFF, 0xFF, 0xFF, 0xFF, 0xFF, 1, 1, 2, 0, 3, 0,
            1, 2, 0xEE, 0xEE, 0xEE,
        ]
    );
    assert_eq!(rt; len, 21);
    let mut labels = [Facts::NONE; 3];
    let mut offsets = [9; 4];
    let mut targets = [9; 4];
    let mut tables = Tables {
        labels: &mut labels,
        offsets: &mut offsets,
        targets: &mut targets,
    };
    let found = load(&file[0..21], &mut tables)?;
    assert_eq!(rt; (found.states, found.targets), (3, 4));
    assert_eq!(rt; labels, LABELS);
    assert_eq!(rt; (offsets, targets), (OFFSETS, TARGETS));
    // the tables are saved as the file that they came from
    let again = Listed {
        labels: &labels,
        offsets: &offsets,
        targets: &targets,
    };
    assert_eq!(rt; saved(&rt, &again, 21), Ok((21, file)));
    assert_eq!(rt; saved(&rt, &again, 20).err(), Some(NoSpace));
    Ok(())
}

#[test]
fn other_kinds_saved(rt: HostRuntime) -> Result<(), Fail> {
    let night = Sun {
        altitude: -400,
        shutter: true,
        guide: false,
    };
    let dome = Listed {
        labels: &[night, night],
        offsets: &[0, 0, 1],
        targets: &[0],
    };
    let plain = Listed {
        labels: &[Facts { bits: 1 }],
        offsets: &[0, 1],
        targets: &[0],
    };
    let both = Rested {
        below: SideBySide {
            first: plain,
            second: dome,
        },
    };
    // the words 0, 1 and 4 hold at night; the dome's states follow, and the first of them rests
    let (len, file) = saved(&rt, &both, 10)?;
    assert_eq!(rt; len, 10);
    assert!(rt; file[0..11] == [3, 1, 19, 19, 1, 0, 1, 1, 1, 1, 0xEE][0..11]);
    assert_eq!(rt; saved(&rt, &both, 9).err(), Some(NoSpace));
    // not rested, its row stays empty
    let (len, file) = saved(&rt, &both.below, 24)?;
    assert_eq!(rt; len, 9);
    assert!(rt; file[0..10] == [3, 1, 19, 19, 1, 0, 0, 1, 1, 0xEE][0..10]);
    Ok(())
}

#[test]
fn no_states(rt: HostRuntime) {
    let none = Listed {
        labels: &LABELS[0..0],
        offsets: &[0],
        targets: &[],
    };
    let malformed = Listed {
        labels: &LABELS,
        offsets: &OFFSETS[0..3],
        targets: &TARGETS,
    };
    assert_eq!(rt; saved(&rt, &none, 0).err(), Some(BadSize));
    assert_eq!(rt; saved(&rt, &malformed, 24).err(), Some(BadSize));
    let both = Rested {
        below: SideBySide {
            first: none,
            second: malformed,
        },
    };
    assert_eq!(rt; saved(&rt, &both, 24).err(), Some(BadSize));
}

// Two states whose rows have two moves and one.
#[test]
fn refusals_in_their_order(rt: HostRuntime) {
    // N, the labels and the two rows take 1, 2, 3 and 2 bytes; 2 is no state
    for (targets, space, why) in [
        ([0, 1, 2], 24, Some(BadRow)),
        ([0, 1, 2], 6, Some(BadRow)),
        ([0, 1, 2], 5, Some(NoSpace)),
        ([0, 1, 2], 2, Some(NoSpace)),
        ([1, 0, 2], 3, Some(BadRow)),
        ([1, 0, 2], 2, Some(NoSpace)),
        ([1, 1, 0], 24, Some(BadRow)),
        ([0, 2, 0], 24, Some(BadRow)),
        ([0, 1, 1], 7, Some(NoSpace)),
        ([0, 1, 1], 8, None),
    ] {
        let listed = Listed {
            labels: &[Facts::NONE; 2],
            offsets: &[0, 2, 3],
            targets: &targets,
        };
        assert_eq!(rt; saved(&rt, &listed, space).err(), why);
    }
}

#[test]
fn other_kinds_refused(rt: HostRuntime) {
    let stray = Listed {
        labels: &[Facts::NONE],
        offsets: &[0, 1],
        targets: &[1],
    };
    let both = SideBySide {
        first: Rested { below: small() },
        second: stray,
    };
    // N and the labels take 15 bytes, the rows of the first model 2 + 2 + 4
    assert_eq!(rt; saved(&rt, &both, 23).err(), Some(BadRow));
    assert_eq!(rt; saved(&rt, &both, 22).err(), Some(NoSpace));
}

// Saves 4,096 states without moves into so many bytes: 2,730 labels take ten bytes each, one has these bits, and the others
// take one. What stands behind the longest file is left.
fn save_long(
    rt: &impl Abort,
    heap: Global,
    bits: u64,
    space: usize,
) -> Result<Result<usize, WriteFault>, Fail> {
    let mut buffer = vec![in heap; 0xEE; space]?;
    let labels: Vec<Facts> = (0..4096)
        .map(|s| Facts {
            bits: long_label(s, bits),
        })
        .collect(heap)?;
    let offsets = vec![in heap; 0; 4097]?;
    let model = Listed {
        labels: &labels,
        offsets: &offsets,
        targets: &[],
    };
    let answer = save(&model, &mut buffer);
    assert!(rt; buffer.iter().skip(LONGEST).all(|left| *left == 0xEE));
    Ok(answer)
}

// Four bytes for the one label make the longest file, and five are too many, though the buffer is longer.
#[test]
fn longest_saved(rt: HostRuntime) -> Result<(), Fail> {
    for (bits, space, answer) in [
        (1 << 21, LONGEST + 9, Ok(LONGEST)),
        (1 << 28, LONGEST + 9, Err(NoSpace)),
        (1 << 21, LONGEST, Ok(LONGEST)),
        (1 << 21, LONGEST - 1, Err(NoSpace)),
    ] {
        assert_eq!(rt; save_long(&rt, rt.alloc(), bits, space)?, answer);
    }
    Ok(())
}
