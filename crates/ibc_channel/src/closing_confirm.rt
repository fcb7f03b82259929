//! Closing a channel that the peer closed.

ghost use Rattle.ibc_channel.specs.ChannelHandlers.{HandlesChanCloseConfirm};

use crate::following::follow_peer;
use ibc_ids::Refusal;
use ibc_records::Records;
use ibc_wire::{ChanCloseConfirm, ChannelState};
use std::alloc::Global;

/// Closes a channel that the peer closed (ICS 4, "chanCloseConfirm"). Refused, by the first check that fails:
/// `BadMessage` where the proof can't be read; `UnknownChannel`; `WrongState` where the end isn't in `TryOpen` or `Open`;
/// `NoConsensus` where the connection's client doesn't know the height; `BadProof` where the proof doesn't show the peer's
/// end. `NoMemory` where a growth is refused. A refusal leaves the records.
pub fn close_confirm(
    alloc: Global,
    records: &mut Records,
    message: &ChanCloseConfirm,
) -> Result<(), Refusal>
    ensures { HandlesChanCloseConfirm message.now records.old result records.new }
{
    follow_peer(
        alloc,
        records,
        ChannelState::Closed,
        &message.port,
        &message.channel,
        message.height,
        &message.proof,
    )
}
