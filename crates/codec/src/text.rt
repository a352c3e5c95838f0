//! Lines of text: a name, and numbers in decimal.
ghost use Rattle.std.specs.Prelude.{◌≡◌, ◌<◌, ◌≤◌, ◌∷◌, ◌++◌, [], length, decimal};
ghost use Rattle.std.specs.List.{flat_map};
ghost use Rattle.codec.specs.Pieces.{Lays};
ghost use Rattle.codec.specs.Texts.{field, line};

use crate::pieces::{All, Byte, Piece, Series, within};

/// A number in decimal.
#[derive(Clone, Copy, Debug, PartialEq, Eq)]
pub struct Decimal(pub u64);

impl Decimal {
    /// How many digits the number has.
    pub fn width(self) -> usize
        ensures { result ≡ length (decimal self.0) }
    {
        self.0.checked_ilog10().map_or(1, |log| log as usize + 1)
    }
}

// Lays a number of three digits at most over a front that has room for three, and answers how many these are.
fn put_short(number: u16, space: &mut [u8]) -> usize
    requires small { number < 1000 }
    requires room { 3 ≤ length space.old }
    ensures { Lays (decimal number) space.old space.new result }
{
    let last = b'0' + (number % 10) as u8;
    if number < 10 {
        space[0] = last;
        return 1;
    }
    let tens = number / 10;
    if tens < 10 {
        space[0] = b'0' + tens as u8;
        space[1] = last;
        return 2;
    }
    space[0] = b'0' + (tens / 10) as u8;
    space[1] = b'0' + (tens % 10) as u8;
    space[2] = last;
    3
}

// Lays any number over the front, as many of its digits as have room, and answers how many these are.
fn put_digits(number: u64, space: &mut [u8]) -> usize
    ensures { Lays (decimal number) space.old space.new result }
{
    let last = Byte(b'0' + (number % 10) as u8);
    if number < 10 {
        return last.put(space);
    }
    let end = put_digits(number / 10, space);
    end + last.put(&mut space[end..])
}

impl Piece for Decimal {
    ghost bytes = { λ n. decimal n.0 };

    fn width_within(&self, most: usize) -> Option<usize> {
        within(self.width(), most)
    }

    fn put(&self, space: &mut [u8]) -> usize {
        // nearly all numbers are short, and then no call is made for a digit
        if self.0 < 1000 && space.len() >= 3 {
            put_short(self.0 as u16, space)
        } else {
            put_digits(self.0, space)
        }
    }
}

/// A space and a number in decimal.
#[derive(Clone, Copy, Debug, PartialEq, Eq)]
pub struct Field(pub u64);

impl Field {
    fn spaced(&self) -> (Byte, Decimal)
        ensures { result.0.0 ∷ decimal result.1.0 ≡ field self.now.0 }
    {
        (Byte(b' '), Decimal(self.0))
    }
}

impl Piece for Field {
    ghost bytes = { λ f. field f.0 };

    fn width_within(&self, most: usize) -> Option<usize> {
        self.spaced().width_within(most)
    }

    fn put(&self, space: &mut [u8]) -> usize {
        self.spaced().put(space)
    }
}

// Kept: like a file's series of numbers, but a From between widths is a relation, and a ghost text needs a function.
/// A field for each of the numbers.
#[derive(Clone, Copy, Debug, PartialEq, Eq)]
pub struct Fields<'a>(pub &'a [u64]);

impl Series for Fields<'_> {
    type Part = Field;

    ghost text = { λ f. flat_map field f.0.now };

    ghost left = { λ f. length f.0.now };

    fn split_first(self) -> Option<(Field, Self)> {
        let (first, rest) = self.0.split_first()?;
        Some((Field(*first), Fields(rest)))
    }
}

/// A line: a name, the numbers with a space before each, and a line feed.
#[derive(Clone, Copy, Debug, PartialEq, Eq)]
pub struct Line<'a, N>(pub N, pub &'a [u64]);

impl<N: Piece> Line<'_, N> {
    fn parts(&self) -> ((&N, All<Fields<'_>>), Byte)
        ensures { (N.bytes result.0.0.now ++ flat_map field result.0.1.0.0.now) ++ (result.1.0 ∷ []) ≡ line (N.bytes self.now.0) self.now.1.now }
    {
        ((&self.0, All(Fields(self.1))), Byte(b'\n'))
    }
}

impl<N: Piece> Piece for Line<'_, N> {
    ghost bytes = { λ l. line (N.bytes l.0) l.1.now };

    fn width_within(&self, most: usize) -> Option<usize> {
        self.parts().width_within(most)
    }

    fn put(&self, space: &mut [u8]) -> usize {
        self.parts().put(space)
    }
}
