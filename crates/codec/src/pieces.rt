//! Pieces: what has bytes, and is written into a lent buffer where it has room.
ghost use Rattle.std.specs.Prelude.{◌≡◌, ℕ, ◌<◌, List, [], ◌∷◌, ◌++◌, length, MatchOption};
ghost use Rattle.std.specs.List.{flat_map};
ghost use Rattle.codec.specs.Pieces.{Lays, Measures, Writes};

/// Something that has bytes.
pub trait Piece {
    /// The bytes.
    ghost bytes: { Self → List ℕ };

    /// How many bytes there are, where that is at most `most`.
    fn width_within(&self, most: usize) -> Option<usize>
        ensures { Measures (length (bytes self.now)) most result };

    /// Lays the bytes over the front of `space`, those that have room, and answers how many these are.
    fn put(&self, space: &mut [u8]) -> usize
        ensures { Lays (bytes self.now) space.old space.new result };

    /// Writes the bytes from `at` on, and answers where they end; writes nothing where they have no room.
    fn write(&self, buffer: &mut [u8], at: usize) -> Option<usize>
        ensures { Writes (bytes self.now) buffer.old at buffer.new result }
    {
        if at > buffer.len() {
            return None;
        }
        let wide = self.width_within(buffer.len() - at)?;
        self.put(&mut buffer[at..]);
        Some(at + wide)
    }
}

// The width, where it is at most `most`.
pub(crate) fn within(wide: usize, most: usize) -> Option<usize>
    ensures { Measures wide most result }
{
    (wide <= most).then_some(wide)
}

impl<P: Piece> Piece for &P {
    ghost bytes = { λ p. P.bytes p.now };

    fn width_within(&self, most: usize) -> Option<usize> {
        (**self).width_within(most)
    }

    fn put(&self, space: &mut [u8]) -> usize {
        (**self).put(space)
    }
}

/// Two pieces, one behind the other.
impl<A: Piece, B: Piece> Piece for (A, B) {
    ghost bytes = { λ p. A.bytes p.0 ++ B.bytes p.1 };

    fn width_within(&self, most: usize) -> Option<usize> {
        let first = self.0.width_within(most)?;
        let second = self.1.width_within(most - first)?;
        Some(first + second)
    }

    fn put(&self, space: &mut [u8]) -> usize {
        let end = self.0.put(space);
        end + self.1.put(&mut space[end..])
    }
}

/// Pieces one after another: the first, and then a series again.
// Kept: an Iterator tells its items by a relation, and a piece its bytes by a function, so that each series would have two impls and laws between them.
pub trait Series: Copy {
    type Part: Piece + Drop;

    /// The bytes of all.
    ghost text: { Self → List ℕ };

    /// Falls with each piece that is taken.
    ghost left: { Self → ℕ };

    /// The first piece and the series of those behind it, or nothing where there is none.
    fn split_first(self) -> Option<(Self::Part, Self)>
        ensures { MatchOption result (text self ≡ []) (λ p. (text self ≡ Self.Part.bytes p.0 ++ text p.1) × (left p.1 < left self)) };
}

impl<'a, P: Piece> Series for &'a [P] {
    type Part = &'a P;

    ghost text = { λ s. flat_map P.bytes s.now };

    ghost left = { λ s. length s.now };

    fn split_first(self) -> Option<(&'a P, Self)> {
        <[P]>::split_first(self)
    }
}

/// All pieces of a series.
#[derive(Clone, Copy, Debug)]
pub struct All<S>(pub S);

impl<S: Series> Piece for All<S> {
    ghost bytes = { λ a. S.text a.0 };

    fn width_within(&self, most: usize) -> Option<usize> {
        let mut wide = 0;
        let mut series = self.0;
        while let Some((part, rest)) = series.split_first() {
            wide += part.width_within(most - wide)?;
            series = rest;
        }
        Some(wide)
    }

    fn put(&self, space: &mut [u8]) -> usize {
        let mut end = 0;
        let mut series = self.0;
        while let Some((part, rest)) = series.split_first() {
            end += part.put(&mut space[end..]);
            series = rest;
        }
        end
    }
}

/// One byte.
#[derive(Clone, Copy, Debug, PartialEq, Eq)]
pub struct Byte(pub u8);

impl Piece for Byte {
    ghost bytes = { λ b. b.0 ∷ [] };

    fn width_within(&self, most: usize) -> Option<usize> {
        within(1, most)
    }

    fn put(&self, space: &mut [u8]) -> usize {
        match space.first_mut() {
            Some(place) => {
                *place = self.0;
                1
            }
            None => 0,
        }
    }
}

/// Bytes as they are.
#[derive(Clone, Copy, Debug, PartialEq, Eq)]
pub struct Text<'a>(pub &'a [u8]);

impl Piece for Text<'_> {
    ghost bytes = { λ t. t.0.now };

    fn width_within(&self, most: usize) -> Option<usize> {
        within(self.0.len(), most)
    }

    fn put(&self, space: &mut [u8]) -> usize {
        let count = self.0.len().min(space.len());
        space[..count].copy_from_slice(&self.0[..count]);
        count
    }
}
