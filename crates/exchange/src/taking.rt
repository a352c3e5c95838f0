//! A model file taken: loaded into lent tables and opened, with the faults of all layers.
ghost use Rattle.std.specs.Prelude.{◌≡◌};
ghost use Rattle.modelfile.specs.Loads.{held, StillLent};
ghost use Rattle.exchange.specs.declared.taking.TakeFault.TheVariants.{InFile as Carried, InModel as Refuses};
ghost use Rattle.exchange.specs.Takes.{take_told, TakeAnswer};

use components::Walk;
use merger::analysis::Analysis;
use merger::answers::{OpenRefusal, Opened};
use modelfile::faults::{FaultNumbers, FileFault};
use modelfile::reading::{Tables, load};

/// Why a model file is not taken. A fault of the file is carried whole, and with it a fault of one of its numbers.
#[derive(Clone, Copy, Debug, PartialEq, Eq)]
pub enum TakeFault {
    /// The file is not right.
    InFile(FileFault),
    /// The model that it denotes is not opened.
    InModel(OpenRefusal),
}

impl From<FileFault> for TakeFault {
    ghost from_gives = { λ e r. r ≡ Carried e };

    fn from(fault: FileFault) -> TakeFault {
        TakeFault::InFile(fault)
    }
}

impl From<OpenRefusal> for TakeFault {
    ghost from_gives = { λ e r. r ≡ Refuses e };

    fn from(refusal: OpenRefusal) -> TakeFault {
        TakeFault::InModel(refusal)
    }
}

impl TakeFault {
    /// What the fault tells: its layer, its cause, its place and the number of the move.
    pub fn numbers(self) -> FaultNumbers
        ensures { result ≡ take_told self }
    {
        match self {
            TakeFault::InFile(fault) => fault.numbers(),
            TakeFault::InModel(refusal) => refusal.numbers().into(),
        }
    }
}

/// Loads a file into the tables, then opens the model that it denotes, and answers as `open` does.
/// A file that is not right alters nothing. If only the model is refused, the tables hold it, and nothing else is altered.
pub fn take(
    analysis: &mut Analysis,
    file: &[u8],
    tables: &mut Tables<'_>,
    walks: &mut [Walk],
    states: &mut [u16],
) -> Result<Opened, TakeFault>
    ensures answer { TakeAnswer file.now (held tables.old) (held tables.new) analysis.old analysis.new walks.old walks.new states.old states.new result }
    ensures lent { StillLent tables.old tables.new }
{
    let loaded = load(file, tables)?;
    Ok(analysis.open(&tables.model(loaded), walks, states)?)
}
