//! Where the sun stands, and whether the telescope is ready.
ghost use Rattle.models.specs.Sun.{sun_words, sun_lawful};

use crate::Label;

// The altitude of the sun's centre in arcminutes, at or below which the sun has set.
const SUNSET: i16 = -50;
// The same at the ends of civil, nautical and astronomical twilight.
const CIVIL: i16 = -360;

const NAUTICAL: i16 = -720;

const ASTRONOMICAL: i16 = -1080;

#[derive(Clone, Copy, Debug, PartialEq, Eq)]
pub struct Sun {
    // of the sun's centre, in arcminutes
    pub altitude: i16,
    // the shutter is open
    pub shutter: bool,
    // the guide star is held
    pub guide: bool,
}

impl Label for Sun {
    const WORDS: u8 = 6;

    ghost count = { 6 };

    ghost means = { sun_words };

    ghost lawful = { sun_lawful };

    fn word_count() -> u8 {
        Self::WORDS
    }

    fn holds(&self, a: u8) -> bool {
        match a {
            0 => self.altitude <= SUNSET,
            1 => self.altitude <= CIVIL,
            2 => self.altitude <= NAUTICAL,
            3 => self.altitude <= ASTRONOMICAL,
            4 => self.shutter,
            5 => self.guide,
            _ => false,
        }
    }
}
