//! What chains published, and what was read of it.

ghost use Rattle.std.specs.Prelude.{◌≡◌, ◌↔◌, Some, false, true, IsTrue};
ghost use Rattle.ibc_chain_replay.specs.ChainReplays.{AreTooMany, IsAccepted, IsPublished, height_at, heights_in, heights_of};
ghost use Rattle.ibc_chain_replay.specs.StoredLedgers.{AreReadAsPublished};

use ibc_ids::Root;
use ibc_machine::{Reading, Reply};
use ibc_wire::Header;

/// Whether as many heights of the header's chain were published as were read.
pub fn is_enough(
    published: &[Vec<(Root, u64)>],
    header: Option<Header>,
    reading: Option<Reading>,
) -> bool
    ensures { result ≡ false → AreTooMany (heights_in published.now) header reading }
{
    let (Some(header), Some(reading)) = (header, reading) else {
        return true;
    };
    reading.published <= heights_of(published, header.chain).len() as u64
}

/// The heights of a chain as it published them.
pub fn heights_of(published: &[Vec<(Root, u64)>], chain: u8) -> &[(Root, u64)]
    ensures { result.now ≡ heights_of (heights_in published.now) chain }
{
    match published.get(usize::from(chain)) {
        Some(heights) => heights.as_slice(),
        None => &[],
    }
}

// The root and the time of a height of a chain.
fn height_at(published: &[Vec<(Root, u64)>], chain: u8, height: u64) -> Option<(Root, u64)>
    ensures { result ≡ height_at (heights_in published.now) chain height }
{
    if height == 0 {
        return None;
    }
    heights_of(published, chain)
        .get(height as usize - 1)
        .copied()
}

// Whether a header has the root and the time of a height that its chain published.
fn is_published(published: &[Vec<(Root, u64)>], header: &Header) -> bool
    ensures { IsTrue result ↔ IsPublished (heights_in published.now) header.now }
{
    height_at(published, header.chain, header.height) == Some((header.root, header.time))
}

/// Whether what was read was published, and the reply is as what stands at the header's height says.
pub fn is_published_reading(
    published: &[Vec<(Root, u64)>],
    header: Option<Header>,
    reply: &Reply,
    reading: Option<Reading>,
) -> bool
    ensures { IsTrue result → AreReadAsPublished published.now header reply.now reading }
{
    let (Some(header), Some(reading)) = (header, reading) else {
        return true;
    };
    if reading.published > heights_of(published, header.chain).len() as u64 {
        return false;
    }
    is_by_row(
        reading.row_was_there,
        is_accepted(reply),
        is_published(published, &header),
    )
}

// Where a row was there, the header is accepted just where it is the published one.
fn is_by_row(row_was_there: Option<bool>, is_accepted: bool, is_published: bool) -> bool
    ensures { IsTrue result → row_was_there ≡ Some true → is_accepted ≡ is_published }
{
    match row_was_there {
        Some(true) => is_accepted == is_published,
        _ => true,
    }
}

// Whether a reply is no refusal.
fn is_accepted(reply: &Reply) -> bool
    ensures { IsTrue result ↔ IsAccepted reply.now }
{
    matches!(reply, Reply::Ok(_))
}
