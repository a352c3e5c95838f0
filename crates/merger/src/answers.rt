//! What the calls of an analysis answer.
ghost use Rattle.std.specs.Prelude.{◌≡◌};
ghost use Rattle.merger.specs.declared.answers.OpenRefusal.TheVariants.{Lacks as LacksGap};
ghost use Rattle.merger.specs.Refusals.{refusal_number, open_cause, open_place, open_move};

use survey::gaps::{Gap, GapNumbers, Numbers};

/// What an accepted open has found.
#[derive(Clone, Copy, Debug, PartialEq, Eq)]
pub struct Opened {
    /// The states.
    pub states: u16,
    /// The components.
    pub components: usize,
    /// The classes of alike states.
    pub labels: usize,
}

/// Why a model is not opened.
#[derive(Clone, Copy, Debug, PartialEq, Eq)]
pub enum OpenRefusal {
    /// The model lacks something.
    Lacks(Gap),
    /// There is memory for fewer walk records or state numbers than there are states.
    ShortScratch,
}

impl OpenRefusal {
    /// The numbers of the refusal: its cause, the state and the move in that state's row, each 0 where there is none.
    pub fn numbers(self) -> GapNumbers
        ensures { (result.cause ≡ open_cause self) × ((result.place ≡ open_place self) × (result.number ≡ open_move self)) }
    {
        match self {
            OpenRefusal::Lacks(gap) => gap.numbers(),
            OpenRefusal::ShortScratch => Numbers {
                cause: 13,
                place: 0,
                number: 0,
            },
        }
    }
}

impl From<Gap> for OpenRefusal {
    ghost from_gives = { λ gap r. r ≡ LacksGap gap };

    fn from(gap: Gap) -> OpenRefusal {
        OpenRefusal::Lacks(gap)
    }
}

/// Why a call is refused.
#[derive(Clone, Copy, Debug, PartialEq, Eq)]
pub enum Refusal {
    /// No model was opened.
    NothingOpened,
    /// The analysis is settled.
    Settled,
    /// The opened model has no such state.
    NoState(u16),
    /// The analysis is not settled.
    NotSettled,
    /// The buffer is too short for the text.
    ShortBuffer,
}

impl Refusal {
    /// The number of the refusal.
    pub fn number(self) -> u8
        ensures { result ≡ refusal_number self }
    {
        match self {
            Refusal::NothingOpened => 21,
            Refusal::Settled => 22,
            Refusal::NoState(_) => 23,
            Refusal::NotSettled => 24,
            Refusal::ShortBuffer => 25,
        }
    }
}

/// What a round has made.
#[derive(Clone, Copy, Debug, PartialEq, Eq)]
pub struct Made {
    /// The rounds made since the model was opened.
    pub rounds: usize,
    /// The classes that there are now.
    pub classes: usize,
    /// Whether this round parted nothing.
    pub settled: bool,
}

/// What is known of an opened model: how many there are of each, and whether the last round parted nothing.
#[derive(Clone, Copy, Debug, PartialEq, Eq)]
pub struct Summary {
    /// The states.
    pub states: u16,
    /// The components.
    pub components: usize,
    /// The classes of alike states.
    pub labels: usize,
    /// The rounds made since the model was opened.
    pub rounds: usize,
    /// The classes that there are now.
    pub classes: usize,
    /// Whether the analysis is settled.
    pub settled: bool,
}

/// What a run has made.
#[derive(Clone, Copy, Debug, PartialEq, Eq)]
pub struct Ran {
    /// The rounds made in this call.
    pub rounds: usize,
    /// Whether the analysis is settled.
    pub settled: bool,
}
