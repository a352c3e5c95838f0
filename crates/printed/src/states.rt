//! A state of a model as a line.
ghost use Rattle.std.specs.Iterator.{IsFinite};

use models::Model;
use std::fmt;

/// A state of a model: the words that hold, rising, and where its moves go.
#[derive(Drop)]
pub struct State<'a, M> {
    pub model: &'a M,
    pub number: u16,
}

impl<M: Model> fmt::Display for State<'_, M> {
    fn fmt<W: fmt::Write>(&self, f: &mut fmt::Formatter<W>) -> fmt::Result {
        let model = self.model;
        let s = self.number;
        write!(f, "state {s} words")?;
        write_each(f, (0..model.words()).filter(|a| model.holds(*a, s)))?;
        write!(f, " moves")?;
        write_each(f, model.moves(s))
    }
}

fn write_each<W: fmt::Write, I: Iterator>(f: &mut fmt::Formatter<W>, numbers: I) -> fmt::Result
where
    I::Item: fmt::Display + Drop,
    requires can { I.can_next numbers }
    requires ends { IsFinite (I.remaining numbers) }
{
    for number in numbers {
        write!(f, " {number}")?;
    }
    Ok(())
}
