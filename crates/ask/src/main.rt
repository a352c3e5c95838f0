//! Puts a formula to a model file: in which states is it true?
#![tactic(auto)]

use checker::check;
use checker::steps::{Refused, Step};
use console::faults::print_fault;
use console::{refuse, run_with_arguments, with_model};
use formulas::{advice, step_of};
use models::Model;
use std::env;
use survey::MOST_STATES;

const HELP: &str = "\
ask reads a model file from standard input, and a formula from its arguments.
For each state S it prints a line: S 1 where the formula is true, S 0 where not.
  ask STEP STEP .. < FILE
The steps come in postfix order, operands first:
  true      true everywhere
  w0 .. w63 true where the word holds
  f not     true where f is not
  f g or    true where f or g is
  f g EU    true where some path ends with g and has f before
  f EG      true where some path of N moves has f throughout, for N states
A file or a model that is not right gives one line instead: fault, its layer,
its cause, its place, and the number of the move (0 where there is none).
docs/FORMAT.md says what causes 1 to 7 mean, docs/FORMULAS.md 11 to 15.
A formula that is not right gives: refused, its cause, and the step (from 0).
  31        there are no steps, or more than 64: give 1 to 64
  32        the step has too few operands: write them before it
  33        more than one operand is left: join them by or or EU
";

const STEPS: &str = "the steps are true, w0 to w63, not, or, EU and EG; 'ask help' says more";

const STATES: usize = MOST_STATES as usize;

// The steps that the arguments stand for.
fn asked_steps(rt: &HostRuntime) -> anyhow::Result<Vec<Step>> {
    env::args(rt)?
        .skip(1)
        .map(|word| step_of(&word).ok_or_else(|| refuse(rt, &word, STEPS)))
        .try_collect(rt.alloc())
}

// One line for each state, or the line of the refusal.
fn answer<M: Model>(rt: &HostRuntime, model: &M, steps: &[Step]) -> anyhow::Result<()> {
    let mut marks = [0; STATES];
    match check(model, steps, &mut marks) {
        Ok(()) => {
            for (s, mark) in marks.iter().take(model.size() as usize).enumerate() {
                println!(rt; "{s} {mark}")?;
            }
        }
        Err(Refused::Model(gap)) => print_fault(rt, &gap)?,
        Err(why) => {
            let told = why.numbers();
            println!(rt; "refused {} {}", told.cause, told.place)?;
            rt.eprintln(advice(why))?;
        }
    }
    Ok(())
}

fn ask(rt: &HostRuntime) -> anyhow::Result<()> {
    let steps = asked_steps(rt)?;
    with_model(rt, |model| answer(rt, model, &steps))
}

fn main(rt: HostRuntime) -> anyhow::Result<()> {
    run_with_arguments(&rt, HELP, |_| ask(&rt))
}
