//! What is wrong with what a program was given: the fault line, and what to do about it in a line for people.
ghost use Rattle.std.specs.Prelude.{◌≡◌};
ghost use Rattle.modelfile.specs.declared.faults.FaultNumbers.{FaultNumbers as Told};
ghost use Rattle.modelfile.specs.Faults.{file_told};
ghost use Rattle.console.specs.Faults.{gap_told};

use codec::numbers::NumberFault;
use modelfile::faults::{FaultNumbers, FileFault};
use std::io;
use std::io::Write;
use survey::gaps::Gap;

/// What to do about a cause that a program does not come to.
pub const PAGES: &str =
    "docs/FORMAT.md, docs/ANALYSIS.md and docs/FORMULAS.md say what the cause means";

// What to do about each cause that one does come to.
const CUT_SHORT: &str = "the file ends inside a number: see that it came whole (docs/FORMAT.md)";

const NOT_FEWEST: &str =
    "that number is too large or not in its fewest bytes: write it anew (docs/FORMAT.md)";

const OUT_OF_RANGE: &str =
    "that number is out of range: mend N, the degree or the target (docs/FORMAT.md)";

const NOT_RISING: &str =
    "that target is not above the one before: let each row rise (docs/FORMAT.md)";

const LEFT_OVER: &str =
    "the model ends before that byte: cut off the rest, or mend N (docs/FORMAT.md)";

const TOO_LONG: &str = "the file has more than 32767 bytes: give a smaller model (docs/FORMAT.md)";

const TOO_MANY: &str = "there are more than 128 states: give a smaller model (docs/ANALYSIS.md)";

const NO_MOVE: &str = "that state has no move: give it one, if only to itself (docs/ANALYSIS.md)";

/// What to do about a formula that is refused for its length.
pub const FORMULA_LENGTH: &str =
    "a formula has 1 to 64 steps: give them as arguments (docs/FORMULAS.md)";

/// The same of a step that has too few operands.
pub const TOO_FEW_OPERANDS: &str =
    "that step has too few operands: write them before it (docs/FORMULAS.md)";

/// The same of steps that leave more than one operand.
pub const NOT_ONE_LEFT: &str =
    "more than one operand is left: join them by or or EU (docs/FORMULAS.md)";

// The longest fault line: the word, and four numbers of at most 20 digits with a space before each.
const LINE: usize = 96;

/// A fault that a program answers with.
pub trait Fault {
    // what its line tells
    ghost told: { Self → Told };

    /// The numbers of its line.
    fn tells(&self) -> FaultNumbers
        ensures { result ≡ told self.now };

    /// What to do about it.
    fn advice(&self) -> &'static str;
}

impl Fault for FileFault {
    ghost told = { file_told };

    fn tells(&self) -> FaultNumbers {
        self.numbers()
    }

    fn advice(&self) -> &'static str {
        match self {
            FileFault::InNumber(NumberFault::CutShortAt(_)) => CUT_SHORT,
            FileFault::InNumber(NumberFault::NotFewestAt(_)) => NOT_FEWEST,
            FileFault::OutOfRange(_) => OUT_OF_RANGE,
            FileFault::NotRising(_) => NOT_RISING,
            FileFault::TableShort(_) => PAGES,
            FileFault::LeftOver(_) => LEFT_OVER,
            FileFault::TooLong => TOO_LONG,
        }
    }
}

impl Fault for Gap {
    ghost told = { gap_told };

    fn tells(&self) -> FaultNumbers {
        self.numbers().into()
    }

    fn advice(&self) -> &'static str {
        match self {
            Gap::TooMany => TOO_MANY,
            Gap::EmptyRow { .. } => NO_MOVE,
            Gap::NoStates | Gap::Nowhere { .. } => PAGES,
        }
    }
}

// What is wrong where only the numbers are known: what to do is told by the cause.
impl Fault for FaultNumbers {
    ghost told = { λ told. told };

    fn tells(&self) -> FaultNumbers {
        *self
    }

    fn advice(&self) -> &'static str {
        match self.cause {
            1 => CUT_SHORT,
            2 => NOT_FEWEST,
            3 => OUT_OF_RANGE,
            4 => NOT_RISING,
            6 => LEFT_OVER,
            7 => TOO_LONG,
            12 => TOO_MANY,
            15 => NO_MOVE,
            31 => FORMULA_LENGTH,
            32 => TOO_FEW_OPERANDS,
            33 => NOT_ONE_LEFT,
            _ => PAGES,
        }
    }
}

/// Prints the fault line, and on standard error what to do next.
pub fn print_fault<F: Fault>(rt: &HostRuntime, fault: &F) -> io::Result<()> {
    let mut line = [0; LINE];
    if let Ok(len) = fault.tells().write(&mut line) {
        rt.stdout().write_all(&line[0..len])?;
    }
    rt.eprintln(fault.advice())
}
