//! Holds the merger and the check to a second engine that is written from the definitions alone.
#![tactic(auto)]

use crate::compare::Tally;
use second::tables::{Dice, SmallModels};
use std::alloc::{AllocError, Global};
use std::{env, io};

mod compare;
mod formulas;

const HELP: &str = "\
trial compares the merger and the check with a second engine, which is written
from the definitions alone, on every total model of up to three states with one
word and on a fixed sample of larger ones. It reads no file.
  trial
It prints lines of counts: what was tried, and what was compared in it.
The last number of each line, differences, is to be 0.
It takes no arguments: with any, as help, it prints this text.
";

// Every total model of so many states with one word.
fn all_of(heap: Global, size: u16, tally: &mut Tally) -> Result<(), AllocError> {
    let models = SmallModels::of(heap, size)?;
    for number in models.numbers() {
        tally.compare(heap, &models.model(heap, number)?)?;
    }
    Ok(())
}

// Every total model of up to three states with one word.
fn all_small(heap: Global) -> Result<Tally, AllocError> {
    let mut tally = Tally::default();
    for size in 1..=3 {
        all_of(heap, size, &mut tally)?;
    }
    Ok(tally)
}

// A fixed sample of larger models, sparse and dense, with one to four labels.
fn sample(heap: Global) -> Result<Tally, AllocError> {
    let mut tally = Tally::default();
    let mut dice = Dice(2026);
    for turn in 0..1000u64 {
        let size = 4 + (turn % 9) as u16;
        let model = dice.model(heap, size, 1 + turn % 4, 1 + turn % 7)?;
        tally.compare(heap, &model)?;
    }
    Ok(tally)
}

fn main(rt: HostRuntime) -> io::Result<()> {
    if env::args(&rt)?.nth(1).is_some() {
        return print!(rt; "{HELP}");
    }
    let small = all_small(rt.alloc())?;
    println!(rt; "every model of up to three states: {small}")?;
    let large = sample(rt.alloc())?;
    println!(rt; "a sample of four to twelve states: {large}")
}
