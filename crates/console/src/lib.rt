//! What the programs share: how they start, the model file on standard input, and the fault line.
#![tactic(auto)]

ghost use Rattle.std.specs.Prelude.{◌≡◌, ◌+◌, take};

use crate::faults::print_fault;
use anyhow::anyhow;
use kripke::LIMIT;
use modelfile::{LONGEST, reading};
use models::facts::Facts;
use models::listed::Listed;
use std::alloc::{AllocError, Global};
use std::io::Read;
use std::{env, io};

pub mod faults;

// The most states of a file. Each target takes a byte of it, so there are fewer of them than it may have bytes.
const STATES: usize = LIMIT as usize;

/// Tables with room for any model file.
#[derive(Drop)]
pub struct Tables {
    pub labels: Vec<Facts>,
    pub offsets: Vec<u32>,
    pub targets: Vec<u16>,
}

impl Tables {
    /// Tables in which nothing is loaded.
    pub fn new(heap: Global) -> Result<Tables, AllocError> {
        let labels = vec![in heap; Facts::NONE; STATES]?;
        let offsets = vec![in heap; 0; STATES + 1]?;
        let targets = vec![in heap; 0; LONGEST]?;
        Ok(Tables {
            labels,
            offsets,
            targets,
        })
    }

    /// The tables, lent to be loaded into.
    pub fn lend(&mut self) -> reading::Tables<'_>
        ensures labels { result.labels.now ≡ self.old.labels.items }
        ensures offsets { result.offsets.now ≡ self.old.offsets.items }
        ensures targets { result.targets.now ≡ self.old.targets.items }
    {
        reading::Tables {
            labels: &mut self.labels,
            offsets: &mut self.offsets,
            targets: &mut self.targets,
        }
    }

    // Kept: like the model of lent tables, but nothing is lent here, and all targets are taken.
    /// The model that was loaded, if it has so many states.
    pub fn model(&self, states: usize) -> Listed<'_, Facts>
        ensures labels { result.labels.now ≡ take states self.now.labels.items }
        ensures offsets { result.offsets.now ≡ take (states + 1) self.now.offsets.items }
        ensures targets { result.targets.now ≡ self.now.targets.items }
    {
        let labels = states.min(self.labels.len());
        let offsets = states.saturating_add(1).min(self.offsets.len());
        Listed {
            labels: &self.labels[0..labels],
            offsets: &self.offsets[0..offsets],
            targets: &self.targets,
        }
    }
}

/// The arguments of the program, with a space between two.
pub fn arguments(rt: &HostRuntime) -> anyhow::Result<String> {
    let mut all = String::new(rt.alloc());
    for word in env::args(rt)?.skip(1) {
        if !all.is_empty() {
            all.push_str(" ")?;
        }
        all.push_str(&word)?;
    }
    Ok(all)
}

/// Whether the program was called with `help` alone.
pub fn wants_help(rt: &HostRuntime) -> anyhow::Result<bool> {
    Ok(arguments(rt)?.as_str() == "help")
}

/// Says on standard error that arguments are not understood, and what to do instead. The error is for `main` to end with.
pub fn refuse(rt: &HostRuntime, words: &str, instead: &str) -> anyhow::Error {
    let _ = eprintln!(rt; "'{words}' is not understood: {instead}");
    anyhow!("the arguments are not understood")
}

/// Refuses arguments, for a program that takes none but `help`.
pub fn no_arguments(rt: &HostRuntime, instead: &str) -> anyhow::Result<()> {
    let words = arguments(rt)?;
    if words.is_empty() {
        return Ok(());
    }
    Err(refuse(rt, &words, instead))
}

/// Runs a program: prints its help if `help` is all that it was called with, and else does its job with its arguments.
pub fn run_with_arguments<F: FnOnce(&str) -> anyhow::Result<()>>(
    rt: &HostRuntime,
    help: &str,
    job: F,
) -> anyhow::Result<()>
    requires { F.IsAlwaysCallable job }
{
    let words = arguments(rt)?;
    if words.as_str() == "help" {
        return Ok(rt.print(help)?);
    }
    job(&words)
}

/// Runs a program that takes no arguments but `help`, and refuses others.
pub fn run<F: FnOnce(&HostRuntime) -> anyhow::Result<()>>(
    rt: &HostRuntime,
    help: &str,
    instead: &str,
    job: F,
) -> anyhow::Result<()>
    requires { F.IsAlwaysCallable job }
{
    run_with_arguments(rt, help, |words| {
        if words.is_empty() {
            job(rt)
        } else {
            Err(refuse(rt, words, instead))
        }
    })
}

/// Standard input, up to one byte more than a file may have: what is longer is refused all the same.
pub fn read_file(rt: &HostRuntime) -> io::Result<Vec<u8>> {
    let mut file = Vec::new(rt.alloc());
    let _count = rt.stdin().take(LONGEST as u64 + 1).read_to_end(&mut file)?;
    Ok(file)
}

/// Does a job with the model of the file on standard input, or prints the fault line.
pub fn with_model<F: FnOnce(&Listed<'_, Facts>) -> anyhow::Result<()>>(
    rt: &HostRuntime,
    job: F,
) -> anyhow::Result<()>
    requires { F.IsAlwaysCallable job }
{
    let file = read_file(rt)?;
    let mut tables = Tables::new(rt.alloc())?;
    let mut lent = tables.lend();
    match reading::load(&file, &mut lent) {
        Ok(loaded) => job(&lent.model(loaded)),
        Err(fault) => Ok(print_fault(rt, &fault)?),
    }
}
