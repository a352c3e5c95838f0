//! What a program says of each fault and of each formula that it refuses, and what it says to do about it.
use checker::steps::{Malformed, Refused};
use codec::numbers::NumberFault;
use console::Tables;
use console::faults::Fault;
use formulas::advice;
use intake::{NotTaken, settle};
use modelfile::faults::FileFault;
use std::test::Fail;
use survey::gaps::Gap;

const OTHER: &str =
    "docs/FORMAT.md, docs/ANALYSIS.md and docs/FORMULAS.md say what the cause means";

#[test]
fn faults_of_files(rt: HostRuntime) {
    let told = [
        (
            FileFault::InNumber(NumberFault::CutShortAt(9)),
            1,
            "the file ends inside a number: see that it came whole (docs/FORMAT.md)",
        ),
        (
            FileFault::InNumber(NumberFault::NotFewestAt(9)),
            2,
            "that number is too large or not in its fewest bytes: write it anew (docs/FORMAT.md)",
        ),
        (
            FileFault::OutOfRange(9),
            3,
            "that number is out of range: mend N, the degree or the target (docs/FORMAT.md)",
        ),
        (
            FileFault::NotRising(9),
            4,
            "that target is not above the one before: let each row rise (docs/FORMAT.md)",
        ),
        (FileFault::TableShort(9), 5, OTHER),
        (
            FileFault::LeftOver(9),
            6,
            "the model ends before that byte: cut off the rest, or mend N (docs/FORMAT.md)",
        ),
        (
            FileFault::TooLong,
            7,
            "the file has more than 32767 bytes: give a smaller model (docs/FORMAT.md)",
        ),
    ];
    for (fault, cause, advice) in told {
        assert_eq!(rt; fault.tells().cause, cause);
        assert_eq!(rt; fault.advice(), advice, "cause {cause}");
    }
}

#[test]
fn faults_of_models(rt: HostRuntime) {
    let told = [
        (Gap::NoStates, 11, OTHER),
        (
            Gap::TooMany,
            12,
            "there are more than 128 states: give a smaller model (docs/ANALYSIS.md)",
        ),
        (
            Gap::Nowhere {
                state: 3,
                number: 1,
            },
            14,
            OTHER,
        ),
        (
            Gap::EmptyRow { state: 3 },
            15,
            "that state has no move: give it one, if only to itself (docs/ANALYSIS.md)",
        ),
    ];
    for (gap, cause, advice) in told {
        assert_eq!(rt; gap.tells().cause, cause);
        assert_eq!(rt; gap.advice(), advice, "cause {cause}");
    }
}

#[test]
fn state_with_no_move(rt: HostRuntime) -> Result<(), Fail> {
    let mut tables = Tables::new(rt.alloc())?;
    let fault = settle(&[1, 0, 0], &mut tables).err().expect(&rt, "a fault");
    let not_taken = NotTaken(fault);
    assert_eq!(rt; not_taken.tells().cause, 15);
    assert_eq!(rt;
        not_taken.advice(),
        "that state has no move: give it one, if only to itself (docs/ANALYSIS.md)"
    );
    Ok(())
}

#[test]
fn refused_formulas(rt: HostRuntime) {
    let told = [
        (
            Malformed::Length,
            31,
            "a formula has 1 to 64 steps: give them as arguments (docs/FORMULAS.md)",
        ),
        (
            Malformed::TooFewOperands { step: 2 },
            32,
            "that step has too few operands: write them before it (docs/FORMULAS.md)",
        ),
        (
            Malformed::NotOneLeft,
            33,
            "more than one operand is left: join them by or or EU (docs/FORMULAS.md)",
        ),
        (Malformed::UnknownWord { step: 2 }, 34, OTHER),
    ];
    for (fault, cause, words) in told {
        let why = Refused::Steps(fault);
        assert_eq!(rt; why.numbers().cause, cause);
        assert_eq!(rt; advice(why), words, "cause {cause}");
    }
}
