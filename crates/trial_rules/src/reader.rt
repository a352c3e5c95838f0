//! Model files read by hand, straight from the rules of the format: the second reading that `load` is held to.
use crate::rules::Told;
use second::oracle::{Plain, State};
use std::alloc::{AllocError, AllocFailed, Global};

/// How many entries the tables have that a file is read into.
#[derive(Clone, Copy)]
pub struct Room {
    pub labels: u64,
    pub offsets: u64,
    pub targets: usize,
}

/// Why there is no model: the file's first fault, or no memory for the trial itself.
#[derive(Clone, Copy)]
pub enum Problem {
    Fault(Told),
    Memory(AllocError),
}

impl From<AllocError> for Problem {
    fn from(error: AllocError) -> Problem {
        Problem::Memory(error)
    }
}

impl<T: Drop> From<AllocFailed<T>> for Problem {
    fn from(failed: AllocFailed<T>) -> Problem {
        Problem::Memory(AllocError::from(failed))
    }
}

fn fault<T>(cause: u8, place: usize) -> Result<T, Problem> {
    Err(Problem::Fault(Told::at(cause, place)))
}

// What the bytes of a number mean, seven bits each and the lowest first, where that is below 2^64.
fn meaning(bytes: &[u8]) -> Option<u64> {
    bytes.iter().rev().try_fold(0u64, |value, byte| {
        value.checked_mul(128)?.checked_add(u64::from(*byte % 128))
    })
}

// A file that is read from its front on, with room for so many targets more.
#[derive(Drop)]
struct Reader<'a> {
    heap: Global,
    bytes: &'a [u8],
    at: usize,
    room: usize,
}

impl Reader<'_> {
    // The number that begins here.
    fn number(&mut self) -> Result<u64, Problem> {
        let rest = self.bytes.get(self.at..).unwrap_or(&[]);
        let Some(more) = rest.iter().position(|byte| *byte < 128) else {
            return fault(1, self.bytes.len());
        };
        let bytes = &rest[..=more];
        // a last byte of 0 adds nothing, so that fewer would do
        let padded = more > 0 && rest[more] == 0;
        match meaning(bytes) {
            Some(value) if !padded => {
                self.at = self.at.saturating_add(bytes.len());
                Ok(value)
            }
            _ => fault(2, self.at),
        }
    }

    // The row that begins here, of a file with `count` states.
    fn row(&mut self, count: u64) -> Result<Vec<u16>, Problem> {
        let place = self.at;
        let degree = self.number()?;
        if degree > count {
            return fault(3, place);
        }
        let mut moves: Vec<u16> = Vec::new(self.heap);
        for _move in 0..degree {
            let place = self.at;
            let target = self.number()?;
            let state = u16::try_from(target).unwrap_or(u16::MAX);
            if target >= count {
                return fault(3, place);
            }
            if moves.last() >= Some(&state) {
                return fault(4, place);
            }
            let Some(left) = self.room.checked_sub(1) else {
                return fault(5, place);
            };
            self.room = left;
            moves.push(state)?;
        }
        Ok(moves)
    }
}

/// The model that a file denotes, or its first fault.
pub fn read(heap: Global, bytes: &[u8], room: Room) -> Result<Plain, Problem> {
    if bytes.len() > 32_767 {
        return fault(7, 32_767);
    }
    let mut reader = Reader {
        heap,
        bytes,
        at: 0,
        room: room.targets,
    };
    let count = reader.number()?;
    if count == 0 || count > 4096 {
        return fault(3, 0);
    }
    if count > room.labels || count >= room.offsets {
        return fault(5, 0);
    }
    let labels: Vec<u64> = (0..count).map(|_| reader.number()).try_collect(heap)?;
    let mut states = Vec::new(heap);
    for label in labels {
        let moves = reader.row(count)?;
        states.push(State { label, moves })?;
    }
    if reader.at < bytes.len() {
        return fault(6, reader.at);
    }
    Ok(Plain { states })
}
