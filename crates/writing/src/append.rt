//! Pieces written behind the first bytes of a file.
ghost use Rattle.writing.specs.Appends.{Appends};

use codec::pieces::Piece;
use modelfile::LONGEST;

/// Writes the piece behind the first `len` bytes, where the buffer and a file have room for it, and answers where it ends.
pub fn append<P: Piece>(piece: &P, buffer: &mut [u8], len: usize) -> Option<usize>
    ensures { Appends (P.bytes piece.now) buffer.old len buffer.new result }
{
    let limit = buffer.len().min(LONGEST);
    piece.write(&mut buffer[..limit], len)
}
