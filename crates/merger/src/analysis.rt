//! An analysis, and what its calls answer.
ghost use Rattle.merger.specs.Analysed.{Meant};

use crate::tables::{Found, Rounds};

/// What is known of an opened model: its states by class, after some rounds. At first nothing is opened.
#[derive(Drop)]
pub struct Analysis {
    // Kept: the tables are memory of the analysis, written in place by each open; an Option must first be given blank ones.
    pub(crate) opened: bool,
    pub(crate) found: Found,
    pub(crate) rounds: Rounds,
    ghost meant: { Meant opened found rounds },
}
