//! Loads a model file and writes it again: an accepted file comes out as its own bytes.
#![tactic(auto)]

use anyhow::bail;
use console::{run, with_model};
use modelfile::LONGEST;
use models::Model;
use std::io::Write;
use writing::saving::save;

const HELP: &str = "\
rewrite reads a model file from standard input, loads it, and writes it again
to standard output: an accepted file comes out as its own bytes.
  rewrite < FILE > COPY
A file that is not right gives one line instead: fault, its layer, its cause,
the place of the byte, and the number of the move (0 where there is none).
docs/FORMAT.md says what each cause means.
";

const USAGE: &str = "write 'rewrite < FILE', or 'rewrite help'";

fn write_model<M: Model>(rt: &HostRuntime, model: &M) -> anyhow::Result<()> {
    let mut buffer = vec![in rt.alloc(); 0; LONGEST]?;
    let Ok(len) = save(model, &mut buffer) else {
        bail!("the model is not written; 'inspect < FILE' says what it holds");
    };
    Ok(rt.stdout().write_all(&buffer[0..len])?)
}

fn rewrite(rt: &HostRuntime) -> anyhow::Result<()> {
    with_model(rt, |model| write_model(rt, model))
}

fn main(rt: HostRuntime) -> anyhow::Result<()> {
    run(&rt, HELP, USAGE, rewrite)
}
