//! Labels and models, by the questions that can be asked of them: the merger's two interfaces, and the first kinds of each.
#![tactic(auto)]

ghost use Rattle.std.specs.Prelude.{◌≡◌, ℕ, length, map, MatchOption};
ghost use Rattle.kripke.specs.Words.{Words, SameWords, Lawful, TellsSame};
ghost use Rattle.kripke.specs.Models.{Kripke, WellFormed, TellsAlike, words_at, move};
ghost use Rattle.kripke.specs.Kinds.{told};
ghost use Rattle.models.specs.Facts.{fact_words};

use crate::facts::Facts;
use crate::moves::Moves;

pub mod beside;
pub mod facts;
pub mod lent;
pub mod listed;
pub mod moves;
pub mod rested;
pub mod sun;

/// A label kind: a fixed count of words, at most 64, and the set of words that hold of each label.
/// Two labels are the same exactly when every word holds of both or of neither.
pub trait Label {
    /// How many words the kind has.
    const WORDS: u8;

    // the count of words: `WORDS`, for clauses
    ghost count: { ℕ };

    // the words that hold of a label
    ghost means: { Self → Words };

    // at most 64 words, and none at or above the count holds of a label
    ghost lawful: { Lawful count means };

    // Kept: a call beside the constant, since a clause can name no constant of a kind that borrows.
    /// `WORDS`, with the promise that it is the count.
    fn word_count() -> u8
        ensures { result ≡ count };

    /// Whether word `a` holds of this label.
    fn holds(&self, a: u8) -> bool
        ensures { result ≡ means self.now a };

    /// Whether every word holds of both labels or of neither.
    fn same(&self, other: &Self) -> bool
        ensures { TellsSame result (means self.now) (means other.now) }
    {
        (0..Self::word_count()).all(|a| self.holds(a) == other.holds(a))
    }

    /// The words that hold of this label, as facts: word `a` is bit `a`.
    fn facts(&self) -> Facts
        ensures { SameWords (fact_words result) (means self.now) }
    {
        Facts::from_fn(Self::word_count(), |a| self.holds(a))
    }
}

/// What each kind of model answers. A number that is no state has no words and no moves, and is alike to none.
pub trait Model {
    // the Kripke model that it means
    ghost means: { Self → Kripke };

    // what each kind shows of its meaning: the limits, and that every move goes to a state or nowhere
    ghost formed: { (m : Self) → WellFormed (means m) };

    /// How many states there are, numbered from 0: at most 4,096.
    fn size(&self) -> u16
        ensures { result ≡ (means self.now).frame.size };

    /// How many words there are: at most 64.
    fn words(&self) -> u8
        ensures { result ≡ (means self.now).labels.count };

    /// Whether word `a` holds at state `s`.
    fn holds(&self, a: u8, s: u16) -> bool
        ensures { result ≡ words_at (means self.now) s a };

    /// How many moves the row of `s` has: at most 4,096.
    fn degree(&self, s: u16) -> u16
        ensures { result ≡ length ((means self.now).frame.row s) };

    /// Where move `k` of the row of `s` goes, a state or `NOWHERE`, if there is such a move.
    fn target(&self, s: u16, k: u16) -> Option<u16>
        ensures { result ≡ move ((means self.now).frame.row s) k };

    /// Whether both are states, and every word holds at both or at neither.
    fn alike(&self, s: u16, t: u16) -> bool
        ensures { TellsAlike result (means self.now) s t }
    {
        let n = self.size();
        s < n && t < n && (0..self.words()).all(|a| self.holds(a, s) == self.holds(a, t))
    }

    /// The words that hold at state `s`, as facts: word `a` is bit `a`.
    fn facts(&self, s: u16) -> Facts
        ensures { SameWords (fact_words result) (words_at (means self.now) s) }
    {
        Facts::from_fn(self.words(), |a| self.holds(a, s))
    }

    /// The row of `s` as a slice, from a kind that has it so: a number in it that is no state is a move nowhere.
    fn row(&self, s: u16) -> Option<&[u16]>
        ensures { MatchOption result (Unit {0}) (λ row. (means self.now).frame.row s ≡ map (told (means self.now).frame.size) row.now) }
    {
        None
    }

    /// Where the moves of the row of `s` go, one after the other.
    final fn moves(&self, s: u16) -> Moves<'_, Self>
    where
        Self: Sized,
        ensures { result ≡ (means self.now).frame.row s }
    {
        Moves {
            model: self,
            state: s,
            size: self.size(),
            row: self.row(s),
            told: 0,
        }
    }
}
