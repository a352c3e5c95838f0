//! Draws a model file, or its reduced model, as a graph for Graphviz, with a colour for each class.
#![tactic(auto)]

ghost use Rattle.draw.specs.Forms.{Asks};

use console::{Tables, refuse, run_with_arguments};
use intake::settle_into;
use merger::analysis::Analysis;
use merger::reduced::Reduced;
use printed::graph::{ClassGraph, StateGraph};
use std::alloc::{AllocError, Global};
use std::str::FromStr;
use survey::MOST_STATES;

const HELP: &str = "\
draw reads a model file from standard input and prints a graph for Graphviz:
a node for each state with its number, its words and its class, one colour for
each class, and an arrow for each move.
  draw < FILE | dot -Tsvg > PICTURE
With the argument reduced it draws the reduced model: a node for each class with
its number, its words and the states that it stands for.
  draw reduced < FILE | dot -Tsvg > PICTURE
A file or a model that is not right gives one line instead: fault, its layer,
its cause, its place, and the number of the move (0 where there is none).
docs/FORMAT.md says what causes 1 to 7 mean, docs/ANALYSIS.md 11 to 15.
";

const USAGE: &str = "write 'draw < FILE', 'draw reduced < FILE', or 'draw help'";

// Which model is drawn.
#[derive(Clone, Copy)]
enum Form {
    Full,
    Reduced,
}

// Arguments that ask for none.
#[derive(Clone, Copy)]
struct UnknownForm;

impl FromStr for Form {
    type Err = UnknownForm;

    ghost from_str_gives = { Asks };

    fn from_str(words: &str) -> Result<Form, UnknownForm> {
        match words {
            "" => Ok(Form::Full),
            "reduced" => Ok(Form::Reduced),
            _ => Err(UnknownForm),
        }
    }
}

// The form that the arguments ask for.
fn asked_form(rt: &HostRuntime, words: &str) -> anyhow::Result<Form> {
    words.parse().map_err(|_| refuse(rt, words, USAGE))
}

// The class of each state of the opened model: past the last state the analysis answers nothing.
fn classes_of(heap: Global, analysis: &Analysis) -> Result<Vec<u16>, AllocError> {
    (0..MOST_STATES)
        .map_while(|s| analysis.class(s).ok())
        .collect(heap)
}

fn draw(rt: &HostRuntime, form: Form) -> anyhow::Result<()> {
    let mut tables = Tables::new(rt.alloc())?;
    let Some(analysis) = settle_into(rt, &mut tables)? else {
        return Ok(());
    };
    let classes = &classes_of(rt.alloc(), &analysis)?;
    match form {
        Form::Full => {
            let model = &tables.model(classes.len());
            rt.print(StateGraph { model, classes })?;
        }
        Form::Reduced => {
            let mut reduced = Reduced::empty();
            let _ = analysis.reduced(&mut reduced);
            rt.print(ClassGraph {
                model: &reduced,
                classes,
            })?;
        }
    }
    Ok(())
}

fn main(rt: HostRuntime) -> anyhow::Result<()> {
    run_with_arguments(&rt, HELP, |words| draw(&rt, asked_form(&rt, words)?))
}
