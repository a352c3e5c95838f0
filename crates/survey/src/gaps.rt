//! What a model may lack, so that it cannot be worked on.
ghost use Rattle.std.specs.Prelude.{◌≡◌};
ghost use Rattle.survey.specs.Gaps.{gap_cause, gap_place, gap_move};

#[derive(Clone, Copy, Debug, PartialEq, Eq)]
pub enum Gap {
    /// It has no states.
    NoStates,
    /// It has more than 128.
    TooMany,
    /// The row of this state is empty.
    EmptyRow { state: u16 },
    /// This move of this state's row goes nowhere, and is the first that does.
    Nowhere { state: u16, number: u16 },
}

/// The numbers that a refusal is told by: its cause, its place, and the number of a move, each 0 where there is none.
#[derive(Clone, Copy, Debug, PartialEq, Eq)]
pub struct Numbers<Place> {
    pub cause: u8,
    pub place: Place,
    pub number: u16,
}

/// A gap's numbers: its place is the state that has it, and the move is one of that state's row.
pub type GapNumbers = Numbers<u16>;

impl From<GapNumbers> for Numbers<usize> {
    ghost from_gives = { λ n r. r ≡ record { cause = n.cause; place = n.place; number = n.number } };

    fn from(told: GapNumbers) -> Numbers<usize> {
        Numbers {
            cause: told.cause,
            place: told.place as usize,
            number: told.number,
        }
    }
}

impl Gap {
    // Kept: a call of this name here and in the crates above, since callers know it; a From is no plainer for them.
    /// The numbers that a gap is told by.
    pub fn numbers(self) -> GapNumbers
        ensures { (result.cause ≡ gap_cause self) × ((result.place ≡ gap_place self) × (result.number ≡ gap_move self)) }
    {
        let (cause, place, number) = match self {
            Gap::NoStates => (11, 0, 0),
            Gap::TooMany => (12, 0, 0),
            Gap::EmptyRow { state } => (15, state, 0),
            Gap::Nowhere { state, number } => (14, state, number),
        };
        Numbers {
            cause,
            place,
            number,
        }
    }
}
