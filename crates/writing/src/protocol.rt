//! The writing of a model file: N, then a set of facts for each state, then a row for each state, then the end.
//! What is being given is a type of its own, so that a row among the sets, or anything after the end, does not compile.
ghost use Rattle.std.specs.Prelude.{◌≡◌, ℕ, ◌+◌, ◌<◌, ◌≤◌, List, [], ◌∷◌, ◌++◌, length, IfOk, MatchBool, MatchResult};
ghost use Rattle.models.specs.declared.facts.Facts.{Facts as Label};
ghost use Rattle.modelfile.specs.Files.{RisingRow};
ghost use Rattle.writing.specs.Writings.{write_cause, SetsHold, RowsHold, Filed, Begun, BeginFault, SetDone, SetFault, Turned, RowDone, RowFault, HandsBack, Lacks};

use crate::append::append;
use codec::numbers::{Counted, Number};
use kripke::LIMIT;
use models::facts::Facts;

/// Why a call of a writing is refused.
#[derive(Clone, Copy, Debug, PartialEq, Eq)]
pub enum WriteFault {
    /// 41: N is 0 or above 4,096.
    BadSize,
    /// 42: the buffer has no space left, or the file would have more than 32,767 bytes.
    NoSpace,
    /// 43: all sets, or all rows, are given already.
    AllGiven,
    /// 44: sets, or rows, are still missing.
    Missing,
    /// 45: the targets do not strictly rise, or one is not below N.
    BadRow,
}

impl WriteFault {
    /// The number of the refusal.
    pub fn cause(self) -> u8
        ensures { result ≡ write_cause self }
    {
        match self {
            WriteFault::BadSize => 41,
            WriteFault::NoSpace => 42,
            WriteFault::AllGiven => 43,
            WriteFault::Missing => 44,
            WriteFault::BadRow => 45,
        }
    }
}

/// A refusal hands the writing back as it was.
#[derive(Debug, Drop)]
pub struct Refused<W> {
    pub fault: WriteFault,
    pub writing: W,
}

impl<W> Refused<W> {
    fn new(writing: W, fault: WriteFault) -> Refused<W>
        ensures { result ≡ record { fault = fault; writing = writing } }
    {
        Refused { fault, writing }
    }
}

// A caller that needs no more than the fault lets the writing go by a `?`.
impl<W: Drop> From<Refused<W>> for WriteFault {
    ghost from_gives = { λ e r. r ≡ e.fault };

    fn from(refused: Refused<W>) -> WriteFault {
        refused.fault
    }
}

// How far a writing is: N, for how many states what it takes is given, and how many bytes are written.
#[derive(Clone, Copy, Debug)]
struct Progress {
    states: u16,
    given: u16,
    len: usize,
}

impl Progress {
    // Whether all is given.
    fn is_full(self) -> bool
        ensures { MatchBool result (self.states ≤ self.given) (self.given < self.states) }
    {
        self.given >= self.states
    }

    // The same with one state more, up to `len` bytes.
    fn with_next(self, len: usize) -> Progress
        requires { self.given < self.states }
        ensures { result ≡ record self { given = self.given + 1; len = len } }
    {
        Progress {
            given: self.given + 1,
            len,
            ..self
        }
    }
}

/// A writing that takes the sets of facts.
#[derive(Debug, Drop)]
pub struct Sets {
    sets: Progress,
}

/// A writing that takes the rows.
#[derive(Debug, Drop)]
pub struct Rows {
    rows: Progress,
}

/// Begins a writing: writes N at the buffer's front.
pub fn begin(buffer: &mut [u8], states: u16) -> Result<Sets, WriteFault>
    ensures answer { MatchResult result (Begun states buffer.old buffer.new) (λ e. BeginFault states buffer.old e × (buffer.new ≡ buffer.old)) }
    ensures holds { IfOk result (λ s. SetsHold buffer.new s []) }
{
    if states == 0 || states > LIMIT {
        return Err(WriteFault::BadSize);
    }
    let len = append(&Number(states as u64), buffer, 0).ok_or(WriteFault::NoSpace)?;
    let sets = Progress {
        states,
        given: 0,
        len,
    };
    Ok(Sets { sets })
}

impl Sets {
    /// Gives the facts of the next state.
    pub fn set(self, buffer: &mut [u8], facts: Facts) -> Result<Sets, Refused<Sets>>
        ensures answer { MatchResult result (SetDone self facts buffer.old buffer.new) (λ e. HandsBack self (SetFault self facts buffer.old) e × (buffer.new ≡ buffer.old)) }
        ensures holds { IfOk result (λ s. ((labels : List Label) → SetsHold buffer.old self labels → SetsHold buffer.new s (labels ++ (facts ∷ [])))) }
    {
        if self.sets.is_full() {
            return Err(Refused::new(self, WriteFault::AllGiven));
        }
        let Some(len) = append(&Number(facts.bits), buffer, self.sets.len) else {
            return Err(Refused::new(self, WriteFault::NoSpace));
        };
        let sets = self.sets.with_next(len);
        Ok(Sets { sets })
    }

    /// Ends the sets: the writing then takes rows.
    pub fn rows(self) -> Result<Rows, Refused<Sets>>
        ensures answer { MatchResult result (Turned self) (HandsBack self (Lacks self.sets.given self.sets.states)) }
        ensures holds { IfOk result (λ w. ((buffer : List ℕ) (labels : List Label) → SetsHold buffer self labels → RowsHold buffer w labels [])) }
    {
        if !self.sets.is_full() {
            return Err(Refused::new(self, WriteFault::Missing));
        }
        let rows = Progress {
            given: 0,
            ..self.sets
        };
        Ok(Rows { rows })
    }
}

// Whether the targets strictly rise and are below `states`.
pub(crate) fn is_rising(targets: &[u16], states: u16) -> bool
    ensures { MatchBool result (RisingRow states targets.now) (RisingRow states targets.now → ⊥) }
{
    targets.last().is_none_or(|last| *last < states) && targets.is_sorted_by(|a, b| a < b)
}

impl Rows {
    /// Gives the targets of the next state.
    pub fn row(self, buffer: &mut [u8], targets: &[u16]) -> Result<Rows, Refused<Rows>>
        ensures answer { MatchResult result (RowDone self targets.now buffer.old buffer.new) (λ e. HandsBack self (RowFault self targets.now buffer.old) e × (buffer.new ≡ buffer.old)) }
        ensures holds { IfOk result (λ w. ((labels : List Label) (rows : List (List ℕ)) → RowsHold buffer.old self labels rows → RowsHold buffer.new w labels (rows ++ (targets.now ∷ [])))) }
    {
        if self.rows.is_full() {
            return Err(Refused::new(self, WriteFault::AllGiven));
        }
        if !is_rising(targets, self.rows.states) {
            return Err(Refused::new(self, WriteFault::BadRow));
        }
        let Some(len) = append(&Counted(targets), buffer, self.rows.len) else {
            return Err(Refused::new(self, WriteFault::NoSpace));
        };
        let rows = self.rows.with_next(len);
        Ok(Rows { rows })
    }

    /// Ends the writing, and answers the file's length.
    pub fn close(self) -> Result<usize, Refused<Rows>>
        ensures answer { MatchResult result (λ len. (len ≡ self.rows.len) × (self.rows.states ≤ self.rows.given)) (HandsBack self (Lacks self.rows.given self.rows.states)) }
        ensures holds { IfOk result (λ len. ((buffer : List ℕ) (labels : List Label) (rows : List (List ℕ)) → RowsHold buffer self labels rows → Filed buffer len labels rows)) }
    {
        if !self.rows.is_full() {
            return Err(Refused::new(self, WriteFault::Missing));
        }
        Ok(self.rows.len)
    }
}
