//! The listing: how many states, components, classes of alike states, rounds and classes there are, and each state's class.
ghost use Rattle.exchange.specs.Listings.{ListingAnswer};

use crate::lines::{Entry, Members};
use codec::pieces::{All, Piece, Text};
use merger::analysis::Analysis;
use merger::answers::Refusal;

// The lines of 128 states: none has more than three digits, a space, three digits and a line feed.
const PAGE: usize = 128 * 8;

/// Writes the listing of a settled analysis at the buffer's front, leaves the rest, and answers its length.
/// Where nothing was opened, the analysis is not settled or the buffer is too short it refuses, and alters nothing.
pub fn listing(analysis: &Analysis, buffer: &mut [u8]) -> Result<usize, Refusal>
    ensures { ListingAnswer analysis.now buffer.old buffer.new result }
{
    let summary = analysis.summary()?;
    if !summary.settled {
        return Err(Refusal::NotSettled);
    }
    let counts = [
        Entry(Text(b"states"), summary.states as u64),
        Entry(Text(b"components"), summary.components as u64),
        Entry(Text(b"labels"), summary.labels as u64),
        Entry(Text(b"rounds"), summary.rounds as u64),
        Entry(Text(b"classes"), summary.classes as u64),
    ];
    // a page has room for the members, so that only its text is measured
    let mut page = [0; PAGE];
    let members = Members { analysis, from: 0 };
    let len = All(members).put(&mut page);
    let lines = (All(counts.as_slice()), Text(&page[..len]));
    lines.write(buffer, 0).ok_or(Refusal::ShortBuffer)
}
