//! What is wrong with a file, and the line that tells it.
ghost use Rattle.std.specs.Prelude.{◌≡◌, ◌<◌, ◌≤◌, length, MatchResult};
ghost use Rattle.codec.specs.Pieces.{placed};
ghost use Rattle.modelfile.specs.declared.faults.FileFault.TheVariants.{InNumber as Carried};
ghost use Rattle.modelfile.specs.Faults.{number_told, file_told, gap_told, text_cause, fault_line, TellsFault};

use codec::numbers::NumberFault;
use codec::pieces::{Piece, Text};
use codec::text::Line;
use survey::gaps::GapNumbers;

/// What is wrong with a model file, and where. A fault of one of its numbers is carried whole.
#[derive(Clone, Copy, Debug, PartialEq, Eq)]
pub enum FileFault {
    /// A number is cut short, or is not in its fewest bytes.
    InNumber(NumberFault),
    /// N is 0 or above 4,096, a degree is above N, or a target is not below N.
    OutOfRange(usize),
    /// A target is not above the one before it in its row.
    NotRising(usize),
    /// A table is too short for N labels, for N + 1 offsets or for the next target.
    TableShort(usize),
    /// Bytes are left over behind the last row.
    LeftOver(usize),
    /// There are more than 32,767 bytes.
    TooLong,
}

impl From<NumberFault> for FileFault {
    ghost from_gives = { λ e r. r ≡ Carried e };

    fn from(fault: NumberFault) -> FileFault {
        FileFault::InNumber(fault)
    }
}

/// What a fault of any layer tells: its layer, its cause, its place, and the number of the move, 0 where there is none.
#[derive(Clone, Copy, Debug, PartialEq, Eq)]
pub struct FaultNumbers {
    pub layer: u8,
    pub cause: u8,
    pub place: usize,
    pub number: u16,
}

/// Why a text was not written.
#[derive(Clone, Copy, Debug, PartialEq, Eq)]
pub enum TextFault {
    /// The buffer is too short for it.
    BufferShort,
}

impl TextFault {
    /// The cause's number: 25.
    pub fn cause(self) -> u8
        ensures { result ≡ text_cause self }
    {
        match self {
            TextFault::BufferShort => 25,
        }
    }
}

// Layer 1.
impl From<NumberFault> for FaultNumbers {
    ghost from_gives = { λ fault r. r ≡ number_told fault };

    fn from(fault: NumberFault) -> FaultNumbers {
        let (cause, place) = match fault {
            NumberFault::CutShortAt(place) => (1, place),
            NumberFault::NotFewestAt(place) => (2, place),
        };
        FaultNumbers {
            layer: 1,
            cause,
            place,
            number: 0,
        }
    }
}

// Layer 3: what a model is refused for.
impl From<GapNumbers> for FaultNumbers {
    ghost from_gives = { λ of r. r ≡ gap_told of };

    fn from(of: GapNumbers) -> FaultNumbers {
        FaultNumbers {
            layer: 3,
            cause: of.cause,
            place: of.place as usize,
            number: of.number,
        }
    }
}

impl FileFault {
    /// What the fault tells.
    pub fn numbers(self) -> FaultNumbers
        ensures { result ≡ file_told self }
    {
        let (cause, place) = match self {
            FileFault::InNumber(inner) => return inner.into(),
            FileFault::OutOfRange(place) => (3, place),
            FileFault::NotRising(place) => (4, place),
            FileFault::TableShort(place) => (5, place),
            FileFault::LeftOver(place) => (6, place),
            FileFault::TooLong => (7, 32_767),
        };
        FaultNumbers {
            layer: 2,
            cause,
            place,
            number: 0,
        }
    }
}

impl FaultNumbers {
    /// Writes the fault line at the buffer's front and answers its length, or refuses and alters nothing.
    pub fn write(self, buffer: &mut [u8]) -> Result<usize, TextFault>
        ensures { TellsFault self buffer.old buffer.new result }
    {
        let numbers = [
            self.layer as u64,
            self.cause as u64,
            self.place as u64,
            self.number as u64,
        ];
        Line(Text(b"fault"), &numbers)
            .write(buffer, 0)
            .ok_or(TextFault::BufferShort)
    }
}
