//! A model file taken, and all rounds made.
ghost use Rattle.modelfile.specs.Loads.{held, StillLent};
ghost use Rattle.exchange.specs.Settles.{SettleAnswer};

use crate::taking::{TakeFault, take};
use components::Walk;
use merger::analysis::Analysis;
use modelfile::reading::Tables;

/// Takes a model file as `take` does, and then makes all rounds. What is refused is refused as by `take`.
pub fn settle(
    analysis: &mut Analysis,
    file: &[u8],
    tables: &mut Tables<'_>,
    walks: &mut [Walk],
    states: &mut [u16],
) -> Result<(), TakeFault>
    ensures answer { SettleAnswer file.now (held tables.old) (held tables.new) analysis.old analysis.new walks.old walks.new states.old states.new result }
    ensures lent { StillLent tables.old tables.new }
{
    let opened = take(analysis, file, tables, walks, states)?;
    // no model settles later than after as many rounds as it has states
    let _ = analysis.run(opened.states as usize);
    Ok(())
}
