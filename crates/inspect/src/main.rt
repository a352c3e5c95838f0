//! Says what is in a model file, or where it is wrong.
#![tactic(auto)]

use console::{run, with_model};
use models::Model;
use models::facts::Facts;
use models::listed::Listed;
use printed::states::State;

const HELP: &str = "\
inspect reads a model file from standard input and prints what it holds:
  states N, moves T, and for each state a line with its words and its moves.
  inspect < FILE
A file that is not right gives one line instead: fault, its layer, its cause,
the place of the byte, and the number of the move (0 where there is none).
docs/FORMAT.md says what each cause means.
";

const USAGE: &str = "write 'inspect < FILE', or 'inspect help'";

fn print_model(rt: &HostRuntime, model: &Listed<'_, Facts>) -> anyhow::Result<()> {
    let states = model.size();
    let moves = model.targets.len();
    println!(rt; "states {states}")?;
    println!(rt; "moves {moves}")?;
    for number in 0..states {
        rt.println(State { model, number })?;
    }
    Ok(())
}

fn inspect(rt: &HostRuntime) -> anyhow::Result<()> {
    with_model(rt, |model| print_model(rt, model))
}

fn main(rt: HostRuntime) -> anyhow::Result<()> {
    run(&rt, HELP, USAGE, inspect)
}
