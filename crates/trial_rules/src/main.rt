//! Holds open, check, load and save to the rules of what is refused, as they were read by hand.
#![tactic(auto)]

use crate::sweep::{all_files, all_steps, all_tables};
use std::{env, io};

mod cases;
mod reader;
mod rules;
mod sweep;

const HELP: &str = "\
trial_rules goes through every small table, list of steps and file, and holds
the merger, the check and the files to the rules of what is refused, read by
hand. It reads no file.
  trial_rules
It prints lines of counts: what was tried, and what of it was refused.
The last number of each line, differences, is to be 0.
It takes no arguments: with any, as help, it prints this text.
";

fn main(rt: HostRuntime) -> io::Result<()> {
    if env::args(&rt)?.nth(1).is_some() {
        return print!(rt; "{HELP}");
    }
    let tables = all_tables(rt.alloc())?;
    println!(rt; "every small table: {tables}")?;
    let steps = all_steps(rt.alloc())?;
    println!(rt; "every short list of steps: {steps}")?;
    let files = all_files(rt.alloc())?;
    println!(rt; "every short file: {files}")
}
