//! Examples of checks and of refusals.
use checker::steps::Step::{Globally, Not, Or, True, Until, Word};
use checker::steps::{Malformed, Refused, Step};
use checker::{Numbers, check as mark_states};
use examples::{chain, pair, polls};
use models::facts::Facts;
use models::listed::Listed;
use survey::gaps::Gap;

// Six marks, of which those past the states stay 7.
fn marks_of(model: &Listed<'_, Facts>, steps: &[Step]) -> Result<[u8; 6], Refused> {
    let mut marks = [7; 6];
    mark_states(model, steps, &mut marks)?;
    Ok(marks)
}

// The numbers of a refusal that leaves the marks.
fn refusal(model: &Listed<'_, Facts>, steps: &[Step], count: usize) -> Option<Numbers> {
    let mut marks = [7; 3];
    let lent = marks.get_mut(0..count)?;
    let why = mark_states(model, steps, lent).err()?;
    (marks == [7; 3]).then_some(why.numbers())
}

#[test]
fn operators(rt: HostRuntime) {
    let cases: [(&[Step], [u8; 6]); 8] = [
        (&[True], [1, 1, 1, 1, 1, 7]),
        (&[Word(0)], [0, 0, 1, 0, 0, 7]),
        (&[Word(0), Not], [1, 1, 0, 1, 1, 7]),
        (&[Word(0), Word(0), Not, Or], [1, 1, 1, 1, 1, 7]),
        (&[True, Word(0), Until], [1, 1, 1, 1, 1, 7]),
        (&[Word(0), Word(0), Not, Until], [1, 1, 0, 1, 1, 7]),
        (&[Word(0), Globally], [0, 0, 1, 0, 0, 7]),
        (&[Word(0), Not, Globally], [0, 0, 0, 0, 1, 7]),
    ];
    for (steps, marks) in cases {
        assert_eq!(rt; marks_of(&polls(), steps), Ok(marks));
    }
}

#[test]
fn refusals_of_steps(rt: HostRuntime) {
    let swap = pair();
    // too many, and yet with a word that is not known
    let many = [Word(64); 65];
    let cases: [(&[Step], usize, u8, usize); 10] = [
        (&[], 0, 31, 0),
        (&many, 0, 31, 0),
        (&[True, Word(64), Or, Or], 0, 34, 1),
        (&[True, Or, Word(64)], 0, 32, 1),
        (&[Not], 0, 32, 0),
        (&[True, Until], 0, 32, 1),
        (&[Globally], 0, 32, 0),
        (&[True, True], 0, 33, 0),
        (&[True], 0, 35, 0),
        (&[True], 1, 35, 0),
    ];
    for (steps, marks, cause, place) in cases {
        let told = Numbers {
            cause,
            place,
            number: 0,
        };
        assert_eq!(rt; refusal(&swap, steps, marks), Some(told));
    }
    assert_eq!(rt; refusal(&swap, &[True], 2), None);
}

#[test]
fn refusals_of_models(rt: HostRuntime) {
    let labels = [Facts::NONE; 3];
    // the model comes before the steps and the marks; 9 is no state, so that a move to it goes nowhere
    let cases: [(usize, [u32; 4], [u16; 4], u8, usize, u16); 5] = [
        (0, [0, 0, 0, 0], [0, 0, 0, 0], 11, 0, 0),
        (3, [0, 1, 1, 2], [0, 9, 0, 0], 15, 1, 0),
        (3, [0, 1, 4, 4], [2, 0, 9, 9], 14, 1, 1),
        (3, [0, 1, 2, 2], [2, 9, 0, 0], 14, 1, 0),
        (3, [0, 2, 3, 3], [0, 2, 1, 0], 15, 2, 0),
    ];
    for (states, offsets, targets, cause, place, number) in cases {
        let model = Listed {
            labels: &labels[0..states],
            offsets: &offsets[0..states + 1],
            targets: &targets,
        };
        let told = Numbers {
            cause,
            place,
            number,
        };
        assert_eq!(rt; refusal(&model, &[], 0), Some(told));
    }
}

// Rising numbers, for offsets and for targets.
fn count_up(offsets: &mut [u32], targets: &mut [u16]) {
    for (offset, end) in offsets.iter_mut().zip(0..) {
        *offset = end;
    }
    for (target, next) in targets.iter_mut().zip(1..) {
        *target = next;
    }
}

#[test]
fn limits(rt: HostRuntime) {
    let mut labels = [Facts::NONE; 129];
    labels[0] = Facts { bits: 1 };
    let mut offsets = [0; 130];
    let mut targets = [0; 129];
    count_up(&mut offsets, &mut targets);
    targets[127] = 0;
    let ring = Listed {
        labels: &labels[0..128],
        offsets: &offsets[0..129],
        targets: &targets,
    };
    let larger = Listed {
        labels: &labels,
        offsets: &offsets,
        targets: &targets,
    };
    let mut longest = [Not; 64];
    longest[0] = Word(0);
    let mut others = [1; 129];
    others[0] = 0;
    others[128] = 7;
    let mut marks = [7; 129];
    assert_eq!(rt; mark_states(&ring, &longest, &mut marks), Ok(()));
    assert_eq!(rt; marks, others);
    assert_eq!(rt;
        mark_states(&ring, &[True; 65], &mut marks),
        Err(Refused::Steps(Malformed::Length))
    );
    assert_eq!(rt;
        mark_states(&larger, &[True], &mut marks),
        Err(Refused::Model(Gap::TooMany))
    );
    assert_eq!(rt; marks, others);
    // the word is reached from everywhere, and no path is without it
    others[0] = 1;
    assert_eq!(rt;
        mark_states(&ring, &[True, Word(0), Until], &mut marks),
        Ok(())
    );
    assert_eq!(rt; marks, others);
    assert_eq!(rt;
        mark_states(&ring, &[Word(0), Not, Globally, Not], &mut marks),
        Ok(())
    );
    assert_eq!(rt; marks, others);
}

#[test]
fn duals(rt: HostRuntime) {
    // one move from each state, so that some path has f just if no path is without it
    let chain = chain();
    let swing = Listed {
        labels: &[
            Facts { bits: 1 },
            Facts { bits: 2 },
            Facts { bits: 4 },
            Facts { bits: 1 },
        ],
        offsets: &[0, 1, 2, 3, 4],
        targets: &[1, 0, 3, 1],
    };
    for a in 0..4 {
        let some = [True, Word(a), Until];
        let none = [Word(a), Not, Globally, Not];
        assert_eq!(rt; marks_of(&chain, &some), marks_of(&chain, &none));
        assert_eq!(rt; marks_of(&swing, &some), marks_of(&swing, &none));
    }
    assert_eq!(rt;
        marks_of(&chain, &[Word(0), Word(1), Until]),
        Ok([1, 1, 0, 1, 1, 0])
    );
    assert_eq!(rt;
        marks_of(&chain, &[Word(0), Word(1), Or, Word(2), Until]),
        Ok([1, 1, 1, 0, 0, 0])
    );
}
