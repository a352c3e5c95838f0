//! A label kind for a dome that reports its slit and its motor: the example of docs/KINDS.md.
#![tactic(auto)]

ghost use Rattle.dome.specs.Dome.{dome_words, dome_lawful};

use models::Label;

/// Word 0 is slit open, word 1 is turning.
#[derive(Clone, Copy, Debug, PartialEq, Eq)]
pub struct Dome {
    pub open: bool,
    pub turning: bool,
}

impl Label for Dome {
    const WORDS: u8 = 2;

    ghost count = { 2 };

    ghost means = { dome_words };

    ghost lawful = { dome_lawful };

    fn word_count() -> u8 {
        Self::WORDS
    }

    fn holds(&self, a: u8) -> bool {
        match a {
            0 => self.open,
            1 => self.turning,
            _ => false,
        }
    }
}
