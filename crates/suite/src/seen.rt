//! A label kind that borrows: its labels look at suns that stand elsewhere, so that its type has a lifetime.
ghost use Rattle.std.specs.Prelude.{◌≡◌};
ghost use Rattle.suite.specs.Seen.{seen_words, seen_lawful};

use models::Label;
use models::sun::Sun;

/// A sun that stands elsewhere, by its twilight alone: word 0 is sunset, word 1 is night.
#[derive(Clone, Copy, Debug)]
pub struct Seen<'a> {
    pub sun: &'a Sun,
}

impl Label for Seen<'_> {
    const WORDS: u8 = 2;

    ghost count = { 2 };

    ghost means = { seen_words };

    ghost lawful = { seen_lawful };

    // the trait's clause, which the check does not carry over to a type with a lifetime
    fn word_count() -> u8
        ensures { result ≡ 2 }
    {
        Self::WORDS
    }

    fn holds(&self, a: u8) -> bool {
        match a {
            0 => self.sun.holds(0),
            1 => self.sun.holds(3),
            _ => false,
        }
    }
}
