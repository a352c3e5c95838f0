//! Numbers as a file has them: seven bits to a byte, the lowest group first, in the fewest bytes.
ghost use Rattle.std.specs.Prelude.{◌≡◌, ℕ, ◌+◌, ◌++◌, ◌^◌, length, drop, nat_lt, IfSome, MatchResult};
ghost use Rattle.std.specs.List.{list_any};
ghost use Rattle.codec.specs.Numbers.{code, codes, counted, EachCodeIsShortest};
ghost use Rattle.codec.specs.Pieces.{Lays, Writes};
ghost use Rattle.codec.specs.Reading.{Begins, Endless, Refused, Reads, Stands, located, OneReading, WrittenReadsBack, ReadRewrites};

use crate::pieces::{All, Byte, Piece, Series, within};

/// What is wrong with a number of a file, and where.
#[derive(Clone, Copy, Debug, PartialEq, Eq)]
pub enum NumberFault {
    /// The bytes end before one that is below 0x80: placed at their end.
    CutShortAt(usize),
    /// Not the fewest bytes, or 2^64 or more: placed at the number's first byte.
    NotFewestAt(usize),
}

// The same of the number at the front of some bytes.
#[derive(Clone, Copy)]
enum Flaw {
    CutShort,
    NotFewest,
}

// Added on all bytes of a number but the last.
const MORE: u8 = 0x80;

// The place of the last byte of the longest numbers: ten bytes hold each below 2^64.
const LAST: usize = 9;

// Whether some byte is below 0x80, so that a number ends.
fn has_end(bytes: &[u8]) -> bool
    ensures { result ≡ list_any (λ b. nat_lt b 128) bytes.now }
{
    bytes.iter().any(|byte| *byte < MORE)
}

// Takes the number at the front of `bytes`, and what follows it.
fn read_number(bytes: &[u8]) -> Result<(u64, &[u8]), Flaw>
    ensures { MatchResult result (λ p. Begins bytes.now p.0 p.1.now) (λ e. Refused e bytes.now) }
{
    // what the bytes so far stand for, how much a 1 in the next adds, and what follows them
    let mut low = 0;
    let mut scale = 1;
    let mut left = bytes;
    for k in 0..LAST {
        let [first, rest @ ..] = left else {
            return Err(Flaw::CutShort);
        };
        if *first < MORE {
            return if *first == 0 && k > 0 {
                Err(Flaw::NotFewest)
            } else {
                Ok((low + *first as u64 * scale, rest))
            };
        }
        low += (*first - MORE) as u64 * scale;
        scale *= 128;
        left = rest;
    }
    // a tenth byte can only be 1, for 2^63
    let [first, rest @ ..] = left else {
        return Err(Flaw::CutShort);
    };
    if *first == 1 {
        return Ok((low + scale, rest));
    }
    Err(if has_end(left) {
        Flaw::NotFewest
    } else {
        Flaw::CutShort
    })
}

// The bytes from `at` on: none where that is past the end.
fn rest_from(file: &[u8], at: usize) -> &[u8]
    ensures { result.now ≡ drop at file.now }
{
    file.get(at..).unwrap_or(&[])
}

// The flaw of the number that begins at `at`, in bytes that end at `end`.
fn locate(flaw: Flaw, at: usize, end: usize) -> NumberFault
    ensures { result ≡ located flaw at end }
{
    match flaw {
        Flaw::CutShort => NumberFault::CutShortAt(end),
        Flaw::NotFewest => NumberFault::NotFewestAt(at),
    }
}

// The number that begins at `at`, however many bytes it has, and where the next begins.
// A call of its own, so that the one byte of most numbers is looked at where it is asked for.
#[inline(never)]
fn long_number_at(file: &[u8], at: usize) -> Result<(u64, usize), NumberFault>
    ensures { Reads file.now at result }
{
    let found = read_number(rest_from(file, at));
    let (number, rest) = found.map_err(|flaw| locate(flaw, at, file.len()))?;
    Ok((number, file.len() - rest.len()))
}

/// The number that begins at `at`, and where the next begins; past the end a number is cut short.
pub fn number_at(file: &[u8], at: usize) -> Result<(u64, usize), NumberFault>
    ensures { Reads file.now at result }
{
    // nearly all numbers of a file are a byte of their own, and no more is done for them
    match file.get(at) {
        Some(byte) if *byte < MORE => Ok((*byte as u64, at + 1)),
        _ => long_number_at(file, at),
    }
}

/// The number that stands at `at`, and where the next begins, for a file that was read before.
/// Where none stands there, the answer says nothing.
pub fn known_number(file: &[u8], at: usize) -> (u64, usize)
    ensures { (n next : ℕ) → Stands file.now at n next → (n ≡ result.0) × (next ≡ result.1) }
{
    number_at(file, at).unwrap_or((0, at))
}

/// A number as a file has it.
#[derive(Clone, Copy, Debug, PartialEq, Eq)]
pub struct Number(pub u64);

impl Number {
    /// How many bytes the number takes.
    pub fn width(self) -> usize
        ensures { result ≡ length (code self.0) }
    {
        // nearly all numbers of a file are a byte of their own
        if self.0 < MORE as u64 {
            return 1;
        }
        self.0.checked_ilog2().map_or(1, |log| log as usize / 7 + 1)
    }

    /// Writes the number from `at` on, and answers where it ends; writes nothing where it has no room.
    /// A reader then finds it there.
    pub fn write(self, buffer: &mut [u8], at: usize) -> Option<usize>
        ensures writes { Writes (code self.0) buffer.old at buffer.new result }
        ensures stands { IfSome result (λ end. Stands buffer.new at self.0 end) }
    {
        Piece::write(&self, buffer, at)
    }
}

// Lays a number over the front of `space`, a byte after another.
// A call of its own, so that the one byte of most numbers is laid where it is asked for.
#[inline(never)]
fn put_long(number: u64, space: &mut [u8]) -> usize
    ensures { Lays (code number) space.old space.new result }
{
    let mut left = number;
    for (end, place) in space.iter_mut().enumerate() {
        if left < MORE as u64 {
            *place = left as u8;
            return end + 1;
        }
        *place = (left % 128) as u8 + MORE;
        left /= 128;
    }
    space.len()
}

impl Piece for Number {
    ghost bytes = { λ n. code n.0 };

    fn width_within(&self, most: usize) -> Option<usize> {
        within(self.width(), most)
    }

    fn put(&self, space: &mut [u8]) -> usize {
        // nearly all numbers of a file are a byte of their own, and no more is done for them
        if self.0 < MORE as u64 {
            return Byte(self.0 as u8).put(space);
        }
        put_long(self.0, space)
    }
}

/// Numbers one after another.
#[derive(Clone, Copy, Debug, PartialEq, Eq)]
pub struct Numbers<'a>(pub &'a [u16]);

impl Series for Numbers<'_> {
    type Part = Number;

    ghost text = { λ n. codes n.0.now };

    ghost left = { λ n. length n.0.now };

    fn split_first(self) -> Option<(Number, Self)> {
        let (first, rest) = self.0.split_first()?;
        Some((Number(*first as u64), Numbers(rest)))
    }
}

/// How many numbers there are, and then each of them.
#[derive(Clone, Copy, Debug, PartialEq, Eq)]
pub struct Counted<'a>(pub &'a [u16]);

impl Counted<'_> {
    fn parts(&self) -> (Number, All<Numbers<'_>>)
        ensures { code result.0.0 ++ codes result.1.0.0.now ≡ codes (counted self.now.0.now) }
    {
        (Number(self.0.len() as u64), All(Numbers(self.0)))
    }
}

impl Piece for Counted<'_> {
    ghost bytes = { λ n. codes (counted n.0.now) };

    fn width_within(&self, most: usize) -> Option<usize> {
        self.parts().width_within(most)
    }

    fn put(&self, space: &mut [u8]) -> usize {
        self.parts().put(space)
    }
}

/// The laws of numbers: each is written in its fewest bytes, a reader has one answer, what is written
/// reads back as the same number, and an accepted number is written as its own bytes.
pub fn number_laws() -> u8
    ensures shortest { EachCodeIsShortest }
    ensures single { OneReading }
    ensures back { WrittenReadsBack }
    ensures again { ReadRewrites }
{
    0
}
