//! A model as a graph in Graphviz's language: a line for each state, then a line for each move.
ghost use Rattle.std.specs.Prelude.{◌-◌, ◌^◌};
ghost use Rattle.std.specs.Iterator.{IsFinite, UpTo};

use models::Model;
use std::fmt;

const HEAD: &str = "\
digraph model {
  rankdir=LR;
  node [shape=box, style=\"rounded,filled\", color=\"#555555\", fontname=\"Helvetica\"];
  edge [color=\"#555555\"];
";

// Light fills on which black text reads well, each unlike the one before it. The last is unlike the first.
const FILLS: [&str; 10] = [
    "#a8d0f0", // blue
    "#ffe08a", // yellow
    "#b4e0b0", // green
    "#f8b9d4", // pink
    "#d9d9d9", // grey
    "#ffbe86", // orange
    "#8fdcd6", // turquoise
    "#cdb5f2", // violet
    "#d3dc62", // lime
    "#f09c94", // red
];

// How many words or states stand in one line of a node.
const LINE: usize = 8;

// The colour of a class. Past the last colour comes the first again.
fn fill(class: u16) -> &'static str {
    FILLS[class as usize % FILLS.len()]
}

// Numbers in a node: `lead` before the first of them, and `sign` before each.
fn write_numbers<W: fmt::Write, I: Iterator<Item = usize>>(
    f: &mut fmt::Formatter<W>,
    lead: &str,
    sign: &str,
    numbers: I,
) -> fmt::Result
    requires can { I.can_next numbers }
    requires ends { IsFinite (I.remaining numbers) }
    requires few { UpTo (I.remaining numbers) (2 ^ 64 - 1) }
{
    for (place, number) in numbers.enumerate() {
        let gap = match place {
            0 => lead,
            _ if place % LINE == 0 => "\\n",
            _ => " ",
        };
        write!(f, "{gap}{sign}{number}")?;
    }
    Ok(())
}

// The line of a state: a node with its number, its words, and its class or the states that it stands for.
#[derive(Drop)]
struct Node<'a, M> {
    model: &'a M,
    state: u16,
    class: u16,
    // where it is drawn for the class: the class of each state, among them those that it stands for
    classes: Option<&'a [u16]>,
}

impl<M: Model> fmt::Display for Node<'_, M> {
    fn fmt<W: fmt::Write>(&self, f: &mut fmt::Formatter<W>) -> fmt::Result {
        let (model, s, class) = (self.model, self.state, self.class);
        write!(f, "  {s} [label=\"{s}")?;
        let words = (0..model.words()).filter(|a| model.holds(*a, s));
        write_numbers(f, "\\n", "w", words.map(usize::from))?;
        match self.classes {
            Some(classes) => {
                let members = classes.iter().enumerate().filter(|(_, own)| **own == class);
                write_numbers(f, "\\nfor ", "", members.map(|(s, _)| s))?;
            }
            None => write!(f, "\\nclass {class}")?,
        }
        let colour = fill(class);
        writeln!(f, "\", fillcolor=\"{colour}\"];")
    }
}

// The lines of a state's moves.
#[derive(Drop)]
struct Row<'a, M> {
    model: &'a M,
    state: u16,
}

impl<M: Model> fmt::Display for Row<'_, M> {
    fn fmt<W: fmt::Write>(&self, f: &mut fmt::Formatter<W>) -> fmt::Result {
        let s = self.state;
        for t in self.model.moves(s) {
            writeln!(f, "  {s} -> {t};")?;
        }
        Ok(())
    }
}

// The moves, and the end of the graph.
fn write_rows<W: fmt::Write, M: Model>(f: &mut fmt::Formatter<W>, model: &M) -> fmt::Result {
    for state in 0..model.size() {
        let row = Row { model, state };
        write!(f, "{row}")?;
    }
    f.write_str("}\n")
}

// The graph of a model with the class of each state. A reduced one says which states of the full model are merged into each:
// those that have its class there.
fn write_graph<W: fmt::Write, M: Model, I: Iterator<Item = u16>>(
    f: &mut fmt::Formatter<W>,
    model: &M,
    each: I,
    merged: Option<&[u16]>,
) -> fmt::Result
    requires can { I.can_next each }
    requires ends { IsFinite (I.remaining each) }
{
    f.write_str(HEAD)?;
    for (state, class) in (0..model.size()).zip(each) {
        let node = Node {
            model,
            state,
            class,
            classes: merged,
        };
        write!(f, "{node}")?;
    }
    write_rows(f, model)
}

/// The graph of a model, with the class of each of its states.
#[derive(Drop)]
pub struct StateGraph<'a, M> {
    pub model: &'a M,
    pub classes: &'a [u16],
}

impl<M: Model> fmt::Display for StateGraph<'_, M> {
    fn fmt<W: fmt::Write>(&self, f: &mut fmt::Formatter<W>) -> fmt::Result {
        write_graph(f, self.model, self.classes.iter().copied(), None)
    }
}

/// The graph of a reduced model, with the class of each state that it stands for.
#[derive(Drop)]
pub struct ClassGraph<'a, M> {
    pub model: &'a M,
    pub classes: &'a [u16],
}

impl<M: Model> fmt::Display for ClassGraph<'_, M> {
    fn fmt<W: fmt::Write>(&self, f: &mut fmt::Formatter<W>) -> fmt::Result {
        write_graph(f, self.model, 0..self.model.size(), Some(self.classes))
    }
}
