//! The first pass over a file: whether it is right, and what is wrong with it first.
ghost use Rattle.std.specs.Prelude.{◌≡◌, ℕ, ◌+◌, ◌<◌, ◌≤◌, length, MatchBool, MatchOption, MatchResult};
ghost use Rattle.modelfile.specs.Files.{longest, RisingRow};
ghost use Rattle.modelfile.specs.FirstFault.{FirstFault};
ghost use Rattle.modelfile.specs.Plans.{Planned};

use crate::faults::FileFault;
use codec::numbers::number_at;
use kripke::LIMIT;

/// The most bytes of a file.
pub const LONGEST: usize = 32_767;

// With so many states at most, each target is one byte.
pub(crate) const ONE_BYTE: u16 = 0x80;

// How many entries the lent tables have.
#[derive(Clone, Copy)]
pub struct Room {
    pub labels: usize,
    pub offsets: usize,
    pub targets: usize,
}

// What the pass learns of a file that is right.
#[derive(Clone, Copy)]
pub struct Plan {
    pub states: u16,
    pub targets: usize,
    pub labels_at: usize,
}

// A file whose N is read, and the room for it.
#[derive(Drop)]
struct Source<'a> {
    file: &'a [u8],
    room: Room,
    states: u16,
    ghost short: { length file.now ≤ longest },
}

// So many targets are read, and the next number begins at `at`.
#[derive(Drop)]
struct Cursor {
    targets: usize,
    at: usize,
}

// Whether the bytes strictly rise and are below `states`.
fn is_row(bytes: &[u8], states: u16) -> bool
    ensures { MatchBool result (RisingRow states bytes.now) (RisingRow states bytes.now → ⊥) }
{
    // Kept: a search for the first pair that does not rise stops there, and so looks at one byte at a time.
    let mut low = 0;
    let mut rises = true;
    for byte in bytes {
        rises &= *byte as u16 >= low;
        low = *byte as u16 + 1;
    }
    rises && low <= states
}

impl<'a> Source<'a> {
    ghost use Rattle.modelfile.specs.Walks.{LabelsRead, RowsRead, TargetsRead, ShortRow, Begun};

    // Reads N.
    fn begin(file: &'a [u8], room: Room) -> Result<(Source<'a>, Cursor), FileFault>
        ensures { MatchResult result (Begun file.now room) (FirstFault room file.now) }
    {
        if file.len() > LONGEST {
            return Err(FileFault::TooLong);
        }
        let (size, next) = number_at(file, 0)?;
        if size == 0 || size > LIMIT as u64 {
            return Err(FileFault::OutOfRange(0));
        }
        if size as usize > room.labels || size as usize >= room.offsets {
            return Err(FileFault::TableShort(0));
        }
        let source = Source {
            file,
            room,
            states: size as u16,
        };
        let read = Cursor {
            targets: 0,
            at: next,
        };
        Ok((source, read))
    }

    // Reads the labels.
    fn labels(&self, read: &mut Cursor) -> Result<(), FileFault>
        requires { LabelsRead self.now read.old 0 }
        ensures { MatchResult result (λ _. LabelsRead self.now read.new self.now.states) (FirstFault self.now.room self.now.file.now) }
    {
        for _label in 0..self.states {
            let (_facts, next) = number_at(self.file, read.at)?;
            read.at = next;
        }
        Ok(())
    }

    // Reads the degree of the next row.
    fn degree(&self, read: &mut Cursor) -> Result<u16, FileFault>
        ensures { (rows : ℕ) → rows < self.now.states → RowsRead self.now read.old rows → MatchResult result (λ degree. TargetsRead self.now read.new rows degree 0 0) (FirstFault self.now.room self.now.file.now) }
    {
        let (degree, next) = number_at(self.file, read.at)?;
        if degree > self.states as u64 {
            return Err(FileFault::OutOfRange(read.at));
        }
        read.at = next;
        Ok(degree as u16)
    }

    // Reads the next target of a row, of which `low` is the least that may come, and answers the least that may follow.
    fn target(&self, read: &mut Cursor, low: u64) -> Result<u64, FileFault>
        ensures { (rows degree given : ℕ) → given < degree → TargetsRead self.now read.old rows degree given low → MatchResult result (λ after. TargetsRead self.now read.new rows degree (given + 1) after) (FirstFault self.now.room self.now.file.now) }
    {
        let (target, next) = number_at(self.file, read.at)?;
        if target >= self.states as u64 {
            return Err(FileFault::OutOfRange(read.at));
        }
        if target < low {
            return Err(FileFault::NotRising(read.at));
        }
        if read.targets >= self.room.targets {
            return Err(FileFault::TableShort(read.at));
        }
        read.targets += 1;
        read.at = next;
        Ok(target + 1)
    }

    // What is read with the next row too, if it is right and each of its targets is one byte, as in most files of few states.
    fn short_row(&self, read: &Cursor, degree: u16) -> Option<Cursor>
        ensures { MatchOption result (ShortRow self.now read.now degree → ⊥) (λ q. ShortRow self.now read.now degree × (q ≡ record { targets = read.now.targets + degree; at = read.now.at + degree })) }
    {
        if self.states > ONE_BYTE {
            return None;
        }
        let many = degree as usize;
        let left = self.room.targets.checked_sub(read.targets)?;
        let bytes = self.file.get(read.at..)?.get(..many)?;
        if many > left || !is_row(bytes, self.states) {
            return None;
        }
        Some(Cursor {
            targets: read.targets + many,
            at: read.at + many,
        })
    }

    // Reads the targets of a row, number by number.
    fn long_row(&self, read: &mut Cursor, degree: u16) -> Result<(), FileFault>
        ensures { (rows : ℕ) → TargetsRead self.now read.old rows degree 0 0 → MatchResult result (λ _. RowsRead self.now read.new (rows + 1)) (FirstFault self.now.room self.now.file.now) }
    {
        let mut low = 0;
        for _target in 0..degree {
            low = self.target(read, low)?;
        }
        Ok(())
    }

    // Reads the next row.
    fn row(&self, read: &mut Cursor) -> Result<(), FileFault>
        ensures { (rows : ℕ) → rows < self.now.states → RowsRead self.now read.old rows → MatchResult result (λ _. RowsRead self.now read.new (rows + 1)) (FirstFault self.now.room self.now.file.now) }
    {
        let degree = self.degree(read)?;
        match self.short_row(read, degree) {
            Some(behind) => {
                *read = behind;
                Ok(())
            }
            None => self.long_row(read, degree),
        }
    }

    // Reads all rows.
    fn rows(&self, read: &mut Cursor) -> Result<(), FileFault>
        requires { RowsRead self.now read.old 0 }
        ensures { MatchResult result (λ _. RowsRead self.now read.new self.now.states) (FirstFault self.now.room self.now.file.now) }
    {
        for _state in 0..self.states {
            self.row(read)?;
        }
        Ok(())
    }
}

/// What is learnt of a file that is right and that the tables can hold, or its first fault.
pub fn scan(file: &[u8], room: Room) -> Result<Plan, FileFault>
    ensures { MatchResult result (Planned room file.now) (FirstFault room file.now) }
{
    let (source, mut read) = Source::begin(file, room)?;
    let labels_at = read.at;
    source.labels(&mut read)?;
    source.rows(&mut read)?;
    if read.at < file.len() {
        return Err(FileFault::LeftOver(read.at));
    }
    Ok(Plan {
        states: source.states,
        targets: read.targets,
        labels_at,
    })
}
