//! The lines of a listing: counts with their names, and states with their classes.
ghost use Rattle.std.specs.Prelude.{◌≡◌, ◌-◌, [], ◌∷◌, drop};
ghost use Rattle.codec.specs.Texts.{line};
ghost use Rattle.exchange.specs.Listings.{class_in, members, states_in, text_of};

use codec::pieces::{Piece, Series};
use codec::text::{Decimal, Line};
use merger::analysis::Analysis;
use std::slice::from_ref;

// A line of a name and one number.
#[derive(Clone, Copy)]
pub struct Entry<N>(pub N, pub u64);

impl<N: Piece> Entry<N> {
    fn line(&self) -> Line<'_, &N>
        ensures { line (N.bytes result.0.now) result.1.now ≡ line (N.bytes self.now.0) (self.now.1 ∷ []) }
    {
        Line(&self.0, from_ref(&self.1))
    }
}

impl<N: Piece> Piece for Entry<N> {
    ghost bytes = { λ e. line (N.bytes e.0) (e.1 ∷ []) };

    fn width_within(&self, most: usize) -> Option<usize> {
        self.line().width_within(most)
    }

    fn put(&self, space: &mut [u8]) -> usize {
        self.line().put(space)
    }
}

// The states from one on, each with its class.
#[derive(Clone, Copy)]
pub struct Members<'a> {
    pub analysis: &'a Analysis,
    pub from: u16,
}

impl Series for Members<'_> {
    type Part = Entry<Decimal>;

    ghost text = { λ m. text_of (drop m.from (members (class_in m.analysis.now) (states_in m.analysis.now))) };

    ghost left = { λ m. states_in m.analysis.now - m.from };

    fn split_first(self) -> Option<(Entry<Decimal>, Self)> {
        let class = self.analysis.class(self.from).ok()?;
        let first = Entry(Decimal(self.from as u64), class as u64);
        let from = self.from + 1;
        Some((first, Members { from, ..self }))
    }
}
