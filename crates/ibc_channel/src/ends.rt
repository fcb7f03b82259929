//! Ends of channels: the ones that are there, and the ones that are added or set.

ghost use Rattle.std.specs.Prelude.{◌≡◌, ◌-◌, ◌^◌, ◌<◌, Some, IfOk, OnOk, OnErr, IsOkUnless};
ghost use Rattle.ibc_ids.specs.declared.refusal.Refusal.TheVariants.{NoMemory};
ghost use Rattle.ibc_records.specs.RecordsModel.{core_of, IsUnchanged};
ghost use Rattle.ibc_channel.specs.ChannelHandshake.{end_at, end_in_state, require_end, IsEndWith, AddsNextChannel, HasEndAt, SetsEnd};
ghost use Rattle.ibc_records.specs.WhyRefused.{FailsBy};

use ibc_ids::{ChannelId, ConnectionId, PortId, Refusal, Version, nth_channel};
use ibc_records::Records;
use ibc_wire::{ChannelEnd, ChannelState, Order};
use std::alloc::Global;

/// The end of a channel, or else `UnknownChannel`; `NoMemory`.
pub fn find_end<'a>(
    records: &'a Records,
    port: &PortId,
    channel: &ChannelId,
) -> Result<&'a ChannelEnd, Refusal>
    ensures ok { IfOk result (λ end. end_at (core_of records.now) port.now channel.now ≡ Some end.now) }
    ensures err { FailsBy (require_end (core_of records.now) port.now channel.now) result }
{
    match records.channel(port, channel)? {
        Some(found) => Ok(found.end()),
        None => Err(Refusal::UnknownChannel),
    }
}

/// An end with these fields. `NoMemory` where a growth is refused.
pub fn new_end(
    state: ChannelState,
    order: Order,
    peer_port: &PortId,
    peer_channel: Option<ChannelId>,
    connection: &ConnectionId,
    version: &Version,
) -> Result<ChannelEnd, Refusal>
    ensures ok { IsEndWith state order peer_port.now peer_channel connection.now version.now result }
    ensures err { IsOkUnless result NoMemory }
{
    Ok(ChannelEnd {
        state,
        order,
        peer_port: peer_port.clone()?,
        peer_channel,
        connection: connection.clone()?,
        version: version.clone()?,
    })
}

/// The end in another state. `NoMemory` where a growth is refused.
pub fn move_end(end: &ChannelEnd, state: ChannelState) -> Result<ChannelEnd, Refusal>
    ensures ok { IfOk result (λ after. after ≡ end_in_state state end.now) }
    ensures err { IsOkUnless result NoMemory }
{
    let peer_channel = match &end.peer_channel {
        Some(peer) => Some(peer.clone()?),
        None => None,
    };
    new_end(
        state,
        end.order,
        &end.peer_port,
        peer_channel,
        &end.connection,
        &end.version,
    )
}

/// Adds an end of a port under the next identifier. `NoMemory` where a growth is refused; the records are then as before.
pub fn add_channel(
    alloc: Global,
    records: &mut Records,
    port: &PortId,
    end: ChannelEnd,
) -> Result<ChannelId, Refusal>
    requires { records.old.next_channel < 2 ^ 64 - 1 }
    ensures ok { IfOk result (λ id. AddsNextChannel port.now end records.old id records.new) }
    ensures err { IsOkUnless result NoMemory }
    ensures unchanged { OnErr result (IsUnchanged records.old records.new) }
{
    let id = nth_channel(alloc, records.next_channel())?;
    records.add_channel(port.clone()?, id.clone()?, end)?;
    Ok(id)
}

/// Sets the end of a channel that is there. `NoMemory` where a growth is refused; the records are then as before.
pub fn set_end(
    records: &mut Records,
    port: &PortId,
    channel: &ChannelId,
    end: ChannelEnd,
) -> Result<(), Refusal>
    requires { HasEndAt records.old port.now channel.now }
    ensures ok { OnOk result (SetsEnd port.now channel.now end records.old records.new) }
    ensures err { IsOkUnless result NoMemory }
    ensures unchanged { OnErr result (IsUnchanged records.old records.new) }
{
    records.set_channel_end(port.clone()?, channel.clone()?, end)
}
