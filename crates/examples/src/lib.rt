//! The example models that the tests share.
#![tactic(auto)]

ghost use Rattle.worked.specs.Cases.{polls_listed, chain_listed, lone_listed, bare_listed};
ghost use Rattle.examples.specs.Examples.{Tabled, pair_listed};

use models::facts::Facts;
use models::listed::Listed;

const NONE: Facts = Facts::NONE;

const WORD_0: Facts = Facts { bits: 1 };

const WORD_1: Facts = Facts { bits: 2 };

const WORD_2: Facts = Facts { bits: 4 };

/// The model file of `polls`.
pub const POLLS: [u8; 17] = [5, 0, 0, 1, 0, 0, 1, 1, 1, 2, 1, 2, 1, 2, 2, 2, 4];

/// Five states, of which 2 has word 0: one, two or any number of polls before it.
pub fn polls() -> Listed<'static, Facts>
    ensures { Tabled result polls_listed }
{
    Listed {
        labels: &[NONE, NONE, WORD_0, NONE, NONE],
        offsets: &[0, 1, 2, 3, 4, 6],
        targets: &[1, 2, 2, 2, 2, 4],
    }
}

/// Two rows of three states that differ only at their ends.
pub fn chain() -> Listed<'static, Facts>
    ensures { Tabled result chain_listed }
{
    Listed {
        labels: &[WORD_0, WORD_1, WORD_2, WORD_0, WORD_1, NONE],
        offsets: &[0, 1, 2, 3, 4, 5, 6],
        targets: &[1, 2, 2, 4, 5, 5],
    }
}

/// Two states without words that move to each other.
pub fn pair() -> Listed<'static, Facts>
    ensures { Tabled result pair_listed }
{
    Listed {
        labels: &[NONE, NONE],
        offsets: &[0, 1, 2],
        targets: &[1, 0],
    }
}

/// One state that moves to itself.
pub fn single() -> Listed<'static, Facts>
    ensures { Tabled result lone_listed }
{
    Listed {
        labels: &[NONE],
        offsets: &[0, 1],
        targets: &[0],
    }
}

/// One state without a move.
pub fn resting() -> Listed<'static, Facts>
    ensures { Tabled result bare_listed }
{
    Listed {
        labels: &[NONE],
        offsets: &[0, 0],
        targets: &[],
    }
}
