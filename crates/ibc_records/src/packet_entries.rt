//! What stands at a channel's paths once a packet is received, acknowledged or timed out, beside the packet's own records.

ghost use Rattle.std.specs.Prelude.{◌≡◌, ◌-◌, ◌^◌, ◌<◌, true, IfOk, IsOkUnless};
ghost use Rattle.ibc_ids.specs.declared.refusal.Refusal.TheVariants.{NoMemory};
ghost use Rattle.ibc_machine.specs.ics04.Packets.{is_ordered};
ghost use Rattle.ibc_records.specs.Entries.{IsReceivedEntry, IsAckedEntry, IsClosedEntry, SettlesPath};

use crate::channel::Channel;
use crate::packet_values::channel_counter;
use crate::values::{channel_value, set_reserved};
use ibc_ids::{Bytes, ChannelId, PortId, Refusal, channel_path, sequence_path};
use ibc_path_store::Store;
use ibc_wire::ChannelState;
use std::alloc::Global;

/// The counter of an ordered channel that receives a packet, or the packet's receipt on another. Refused: `NoMemory`.
pub fn received_entry(
    alloc: Global,
    port: &PortId,
    id: &ChannelId,
    channel: &Channel,
    sequence: u64,
) -> Result<(String, Bytes), Refusal>
    requires { is_ordered channel.now ≡ true → channel.now.next_recv < 2 ^ 64 - 1 }
    ensures ok { IfOk result (λ entry. IsReceivedEntry port.now id.now sequence channel.now entry) }
    ensures err { IsOkUnless result NoMemory }
{
    if channel.is_ordered() {
        channel_counter(alloc, "nextSequenceRecv", port, id, channel.next_recv() + 1)
    } else {
        let path = sequence_path(alloc, "receipts", port, id, sequence)?;
        Ok((path, Bytes::copy_of(alloc, &[1])?))
    }
}

/// The counter of an ordered channel whose packet is acknowledged. Refused: `NoMemory`.
pub fn acknowledged_entry(
    alloc: Global,
    port: &PortId,
    id: &ChannelId,
    channel: &Channel,
) -> Result<Option<(String, Bytes)>, Refusal>
    requires { is_ordered channel.now ≡ true → channel.now.next_ack < 2 ^ 64 - 1 }
    ensures ok { IfOk result (λ found. IsAckedEntry port.now id.now channel.now found) }
    ensures err { IsOkUnless result NoMemory }
{
    if !channel.is_ordered() {
        return Ok(None);
    }
    let entry = channel_counter(alloc, "nextSequenceAck", port, id, channel.next_ack() + 1)?;
    Ok(Some(entry))
}

/// The end of an ordered channel whose packet is timed out: it is closed. Refused: `NoMemory`.
pub fn closed_entry(
    alloc: Global,
    port: &PortId,
    id: &ChannelId,
    channel: &Channel,
) -> Result<Option<(String, Bytes)>, Refusal>
    ensures ok { IfOk result (λ found. IsClosedEntry port.now id.now channel.now found) }
    ensures err { IsOkUnless result NoMemory }
{
    if !channel.is_ordered() {
        return Ok(None);
    }
    let path = channel_path(alloc, "channelEnds", port, id)?;
    let mut end = channel.end().clone()?;
    end.state = ChannelState::Closed;
    Ok(Some((path, channel_value(alloc, &end)?)))
}

/// Removes the path of a settled packet's commitment, and sets the other path, for which there is room.
pub fn settle(store: &mut Store, commitment: &str, other: Option<(String, Bytes)>)
    requires { 0 < store.old.room }
    ensures { SettlesPath store.old commitment.now other store.new }
{
    store.remove(commitment);
    if let Some((path, value)) = other {
        set_reserved(store, path, value);
    }
}
