//! Loads a model file into lent tables.
ghost use Rattle.std.specs.Prelude.{◌≡◌, ◌+◌, length, take};
ghost use Rattle.modelfile.specs.Loads.{held, room_of, StillLent, Loads, EachFileHasOneOutcome};

use crate::faults::FileFault;
use crate::fill::{fill_labels, fill_rows};
use crate::scan::{Room, scan};
use models::facts::Facts;
use models::listed::Listed;

/// How many states and how many targets were loaded.
#[derive(Clone, Copy, Debug, PartialEq, Eq)]
pub struct Loaded {
    pub states: u16,
    pub targets: usize,
}

/// The tables that a model file is loaded into, lent by the caller.
#[derive(Drop)]
pub struct Tables<'a> {
    pub labels: &'a mut [Facts],
    pub offsets: &'a mut [u32],
    pub targets: &'a mut [u16],
}

impl Tables<'_> {
    // How many entries there are.
    fn room(&self) -> Room
        ensures { result ≡ room_of (held self.now) }
    {
        Room {
            labels: self.labels.len(),
            offsets: self.offsets.len(),
            targets: self.targets.len(),
        }
    }

    /// The model by the fronts of the tables, as long as was loaded.
    pub fn model(&self, loaded: Loaded) -> Listed<'_, Facts>
        ensures labels { result.labels.now ≡ take loaded.states self.now.labels.now }
        ensures offsets { result.offsets.now ≡ take (loaded.states + 1) self.now.offsets.now }
        ensures targets { result.targets.now ≡ take loaded.targets self.now.targets.now }
    {
        let states = loaded.states as usize;
        Listed {
            labels: &self.labels[..states.min(self.labels.len())],
            offsets: &self.offsets[..(states + 1).min(self.offsets.len())],
            targets: &self.targets[..loaded.targets.min(self.targets.len())],
        }
    }
}

/// Fills the fronts of the tables with the model that the file denotes: N labels, N + 1 offsets, where row `s` runs from
/// offset `s` to just before offset `s + 1`, and the targets of all rows. The entries behind are left.
/// A file that is not right is refused with its first fault, and then nothing is written.
pub fn load(file: &[u8], tables: &mut Tables<'_>) -> Result<Loaded, FileFault>
    ensures loads { Loads file.now (held tables.old) (held tables.new) result }
    ensures lent { StillLent tables.old tables.new }
{
    let plan = scan(file, tables.room())?;
    let states = plan.states as usize;
    let mut at = plan.labels_at;
    fill_labels(file, &mut at, &mut tables.labels[..states]);
    fill_rows(
        file,
        &mut at,
        &mut tables.offsets[..states + 1],
        tables.targets,
    );
    Ok(Loaded {
        states: plan.states,
        targets: plan.targets,
    })
}

/// The law of `load`: whatever room the tables have, a file denotes one model or has one first fault, and not both.
pub fn load_law() -> u8
    ensures { EachFileHasOneOutcome }
{
    0
}
