//! Which packets are due.

ghost use Rattle.std.specs.Prelude.{◌≡◌, ◌+◌, ◌-◌, ◌^◌, min};
ghost use Rattle.ibc_machine.specs.ics04.Packets as plain;
ghost use Rattle.ibc_machine.specs.ics18.Relay as relay;

use ibc_ids::{ChannelId, PortId};
use ibc_ledger::View;
use ibc_records::{Channel, Commitment};

/// Whether a packet that the peer sent is to be received at an end: the end hasn't received it, and the chain's working block
/// hasn't reached its timeouts.
pub fn is_to_receive(b: &View, mine: &Channel, sequence: u64, commitment: &Commitment) -> bool
    ensures { result ≡ relay.is_to_receive b.now mine.now (sequence, commitment.now) }
{
    !has_received(mine, sequence) && !is_late(commitment, b)
}

/// Whether an end has received a sequence, or won't take it any more.
pub fn has_received(mine: &Channel, sequence: u64) -> bool
    ensures { result ≡ plain.has_received mine.now sequence }
{
    if mine.is_ordered() {
        sequence < mine.next_recv()
    } else {
        mine.has_receipt(sequence)
    }
}

/// Whether one of a packet's timeouts is reached at a height and a time.
pub fn is_timed_out(commitment: &Commitment, height: u64, time: u64) -> bool
    ensures { result ≡ plain.is_timed_out commitment.now height time }
{
    is_reached(commitment.timeout_height, height) || is_reached(commitment.timeout_time, time)
}

// Whether one of a packet's timeouts is reached in the working block.
fn is_late(commitment: &Commitment, view: &View) -> bool
    ensures { result ≡ plain.is_timed_out commitment.now (view.now.height + 1) view.now.working_time }
{
    is_reached(commitment.timeout_height, working_height(view))
        || is_reached(commitment.timeout_time, view.working_time())
}

// Whether a limit, which is none where it is 0, is reached.
fn is_reached(limit: u64, now: u64) -> bool
    ensures { result ≡ plain.is_reached limit now }
{
    limit != 0 && limit <= now
}

// The height of the working block, which isn't counted beyond 2^64 - 1.
fn working_height(view: &View) -> u64
    ensures { result ≡ min (view.now.height + 1) (2 ^ 64 - 1) }
{
    view.height().saturating_add(1)
}

/// Whether the end's peer has this port and name.
pub fn has_peer(mine: &Channel, port: &PortId, channel: &ChannelId) -> bool
    ensures { result ≡ plain.has_peer mine.now port.now channel.now }
{
    let end = mine.end();
    let Some(peer) = &end.peer_channel else {
        return false;
    };
    *peer == *channel && *port == end.peer_port
}
