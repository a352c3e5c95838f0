//! Merges the states of a model file that no formula tells apart, and lists each state with its class.
#![tactic(auto)]

use anyhow::bail;
use console::run;
use exchange::listing::listing;
use intake::settle_input;
use merger::analysis::Analysis;
use std::io::Write;
use survey::MOST_STATES;

const HELP: &str = "\
merge reads a model file from standard input, merges the states that no formula
tells apart, and prints: states, components, labels (classes of alike states),
rounds and classes, each with its number, then each state with its class.
  merge < FILE
A file or a model that is not right gives one line instead: fault, its layer,
its cause, its place, and the number of the move (0 where there is none).
docs/FORMAT.md says what causes 1 to 7 mean, docs/ANALYSIS.md 11 to 15.
";

const USAGE: &str = "write 'merge < FILE', or 'merge help'";

// Five lines of at most 15 bytes, and for each state one of at most 8.
const LONGEST_LISTING: usize = 5 * 15 + MOST_STATES as usize * 8;

fn print_listing(rt: &HostRuntime, analysis: &Analysis) -> anyhow::Result<()> {
    let mut text = [0; LONGEST_LISTING];
    let Ok(len) = listing(analysis, &mut text) else {
        bail!("no listing");
    };
    Ok(rt.stdout().write_all(&text[0..len])?)
}

fn merge(rt: &HostRuntime) -> anyhow::Result<()> {
    match settle_input(rt)? {
        Some(analysis) => print_listing(rt, &analysis),
        None => Ok(()),
    }
}

fn main(rt: HostRuntime) -> anyhow::Result<()> {
    run(&rt, HELP, USAGE, merge)
}
