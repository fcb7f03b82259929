//! The own end of a packet's channel.

ghost use Rattle.std.specs.Prelude.{◌≡◌, ◌&&◌, nat_lt, IfOk};
ghost use Rattle.ibc_machine.specs.ics04.Channels as channels;
ghost use Rattle.ibc_machine.specs.ics04.Packets as plain;
ghost use Rattle.ibc_machine.specs.chain.Records.{commitment_of};
ghost use Rattle.ibc_machine.specs.ics24.Values.{same_commitment};
ghost use Rattle.ibc_records.specs.OwnEnds.{IsEndAt, end_or_unknown, IsConnectionAt, KnowsHeight, PassesKnown, FailsKnown};
ghost use Rattle.ibc_records.specs.TimeoutChecks.{same_timeouts};
ghost use Rattle.ibc_records.specs.WhyRefused.{FailsBy};

use crate::{Channel, Commitment, Records, known_connection};
use ibc_ids::{ChannelId, PortId, Refusal};
use ibc_wire::{ChannelState, ConnectionEnd, Packet};

/// A channel, or else `UnknownChannel`; `NoMemory`.
pub fn find_channel<'a>(
    records: &'a Records,
    port: &PortId,
    channel: &ChannelId,
) -> Result<&'a Channel, Refusal>
    ensures ok { IfOk result (λ mine. IsEndAt records.now port.now channel.now mine.now) }
    ensures err { FailsBy (end_or_unknown records.now port.now channel.now) result }
{
    match records.channel(port, channel)? {
        Some(mine) => Ok(mine),
        None => Err(Refusal::UnknownChannel),
    }
}

/// The connection of an end, whose client knows the height, or else `NoConsensus`.
pub fn known_over<'a>(
    records: &'a Records,
    mine: &Channel,
    height: u64,
) -> Result<&'a ConnectionEnd, Refusal>
    ensures there { IfOk result (λ end. IsConnectionAt records.now mine.now.end.connection end.now) }
    ensures known { IfOk result (λ end. KnowsHeight records.now end.now.client height) }
    ensures passed { PassesKnown records.now mine.now.end.connection height result }
    ensures failed { FailsKnown records.now mine.now.end.connection height result }
{
    known_connection(records, &mine.end().connection, height)
}

/// Whether the end's peer has this port and name.
pub fn has_peer(mine: &Channel, port: &PortId, channel: &ChannelId) -> bool
    ensures { result ≡ plain.has_peer mine.now port.now channel.now }
{
    let end = mine.end();
    let Some(peer) = &end.peer_channel else {
        return false;
    };
    *port == end.peer_port && *peer == *channel
}

/// Whether a sequence is a repeat: a receipt stands, or an ordered end has gone past it.
pub fn is_repeat(mine: &Channel, sequence: u64) -> bool
    ensures { result ≡ plain.is_repeat mine.now sequence }
{
    mine.has_receipt(sequence) || (mine.is_ordered() && sequence < mine.next_recv())
}

/// Whether the end is ordered, and receives another sequence before this one.
pub fn waits_before(mine: &Channel, sequence: u64) -> bool
    ensures { result ≡ (plain.is_ordered mine.now && nat_lt mine.now.next_recv sequence) }
{
    mine.is_ordered() && mine.next_recv() < sequence
}

/// Whether a packet's own commitment stands.
pub fn is_committed(mine: &Channel, packet: &Packet) -> bool
    ensures { result ≡ plain.is_committed mine.now packet.now }
{
    match mine.commitment(packet.sequence) {
        Some(found) => commits_to(found, packet),
        None => false,
    }
}

// Whether a commitment is the packet's.
fn commits_to(found: &Commitment, packet: &Packet) -> bool
    ensures { result ≡ same_commitment found.now (commitment_of packet.now) }
{
    found.payload == packet.payload && has_timeouts(found, packet)
}

// Whether a commitment has the packet's timeouts.
fn has_timeouts(found: &Commitment, packet: &Packet) -> bool
    ensures { result ≡ same_timeouts found.now packet.now }
{
    found.timeout_height == packet.timeout_height && found.timeout_time == packet.timeout_time
}

/// The end sent the packet, which isn't settled. Refused, by the first check that fails: `WrongState` where the end is
/// neither in `Open` nor in `Closed`; `WrongPeer` where its peer isn't the packet's destination; `NoCommitment` where the
/// packet's own commitment doesn't stand.
#[tactic(auto, unfolding(ibc_machine::specs::chain::Checks::and_then))]
pub fn check_pending(mine: &Channel, packet: &Packet) -> Result<(), Refusal>
    ensures { result ≡ plain.is_pending mine.now packet.now }
{
    if !is_established(mine) {
        return Err(Refusal::WrongState);
    }
    if !has_peer(mine, &packet.destination_port, &packet.destination_channel) {
        return Err(Refusal::WrongPeer);
    }
    if !is_committed(mine, packet) {
        return Err(Refusal::NoCommitment);
    }
    Ok(())
}

/// Whether the end is in `Open`.
pub fn is_open(mine: &Channel) -> bool
    ensures { result ≡ channels.is_in_state ChannelState.Open mine.now }
{
    mine.end().state == ChannelState::Open
}

// Whether the end is in `Open` or `Closed`.
fn is_established(mine: &Channel) -> bool
    ensures { result ≡ channels.is_established mine.now }
{
    match mine.end().state {
        ChannelState::Open | ChannelState::Closed => true,
        ChannelState::Init | ChannelState::TryOpen => false,
    }
}
