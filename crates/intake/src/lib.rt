//! What the programs that merge share: the model file on standard input, taken into an analysis and settled.
#![tactic(auto)]

ghost use Rattle.exchange.specs.Takes.{take_told};
ghost use Rattle.intake.specs.Settling.{SettleAnswer};

use components::Walk;
use console::faults::{Fault, PAGES, print_fault};
use console::{Tables, read_file};
use exchange::settling;
use exchange::taking::TakeFault;
use merger::analysis::Analysis;
use merger::answers::OpenRefusal;
use modelfile::faults::FaultNumbers;
use std::io;

/// The most states that an analysis takes, and so the most rounds that it makes. Its scratch has an entry for each.
pub const MOST_STATES: usize = survey::MOST_STATES as usize;

/// Why a file is not taken, as a program answers with it.
// TakeFault is exchange's and Fault is console's, so the answer to both is a type of intake's own.
#[derive(Clone, Copy)]
pub struct NotTaken(pub TakeFault);

impl Fault for NotTaken {
    ghost told = { λ n. take_told n.0 };

    fn tells(&self) -> FaultNumbers {
        self.0.numbers()
    }

    fn advice(&self) -> &'static str {
        match self.0 {
            TakeFault::InFile(fault) => fault.advice(),
            TakeFault::InModel(OpenRefusal::Lacks(gap)) => gap.advice(),
            TakeFault::InModel(OpenRefusal::ShortScratch) => PAGES,
        }
    }
}

/// Takes a model file into an analysis, and makes all rounds.
pub fn settle(file: &[u8], tables: &mut Tables) -> Result<Analysis, TakeFault>
    ensures { SettleAnswer file.now tables.old result }
{
    let mut analysis = Analysis::new();
    settling::settle(
        &mut analysis,
        file,
        &mut tables.lend(),
        &mut [Walk::BLANK; MOST_STATES],
        &mut [0; MOST_STATES],
    )?;
    Ok(analysis)
}

/// Settles the file on standard input. Where it is not taken this prints the fault line, and answers `None`.
pub fn settle_input(rt: &HostRuntime) -> io::Result<Option<Analysis>> {
    settle_into(rt, &mut Tables::new(rt.alloc())?)
}

/// The same, with the model left in the tables.
pub fn settle_into(rt: &HostRuntime, tables: &mut Tables) -> io::Result<Option<Analysis>> {
    let file = read_file(rt)?;
    match settle(&file, tables) {
        Ok(analysis) => Ok(Some(analysis)),
        Err(fault) => {
            print_fault(rt, &NotTaken(fault))?;
            Ok(None)
        }
    }
}
