//! The channels from which packets are on the way, where they are few.

ghost use Rattle.std.specs.Prelude.{◌≡◌, IfSome};
ghost use Rattle.ibc_relayer.specs.Senders.{AreSenders, has_entries, is_open_or_closed, is_named, is_silent};

use crate::due::has_peer;
use ibc_ids::{ChannelId, PortId};
use ibc_records::{Channel, CoreRecords};
use ibc_wire::ChannelState;
use std::alloc::Global;

// So many channels are few: to look through them costs less than to look up the peer of an end.
const FEW: usize = 8;

/// The channels of `a` at which packets stand. None where they are more than a few, where `a` has more channels than `b`,
/// whose ends are gone through anyway, or where memory for them is refused.
pub fn few_senders<'v>(
    alloc: Global,
    a: &'v CoreRecords,
    b: &CoreRecords,
) -> Option<Vec<&'v Channel>>
    ensures { IfSome result (λ senders. AreSenders a.now.channels senders.items) }
{
    let mut senders = Vec::new(alloc);
    let mut ends = b.channels().iter();
    for (_, theirs) in a.channels().iter() {
        ends.next()?;
        if has_packets(theirs) {
            if senders.len() == FEW {
                return None;
            }
            senders.push(theirs).ok()?;
        }
    }
    Some(senders)
}

/// Whether no packet stands at an end of `b`, and none is on the way to it.
pub fn is_silent(senders: &[&Channel], end: &(PortId, ChannelId), mine: &Channel) -> bool
    ensures { result ≡ is_silent senders.now (end.now.0, end.now.1) mine.now }
{
    !has_packets(mine) && !is_named(senders, end)
}

/// Whether an end is OPEN or CLOSED. In the states before, no message about a packet is due there.
pub fn is_open_or_closed(mine: &Channel) -> bool
    ensures { result ≡ is_open_or_closed mine.now }
{
    match mine.end().state {
        ChannelState::Open | ChannelState::Closed => true,
        ChannelState::Init | ChannelState::TryOpen => false,
    }
}

// Whether packets stand at a channel that were sent and aren't settled.
fn has_packets(channel: &Channel) -> bool
    ensures { result ≡ has_entries channel.now.commitments }
{
    let mut packets = channel.commitments();
    packets.next().is_some()
}

// Whether one of the channels names an end as its peer.
fn is_named(senders: &[&Channel], end: &(PortId, ChannelId)) -> bool
    ensures { result ≡ is_named (end.now.0, end.now.1) senders.now }
{
    senders
        .iter()
        .any(|theirs| has_peer(theirs, &end.0, &end.1))
}
