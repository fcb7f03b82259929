//! Opening a channel that the peer opened.

ghost use Rattle.ibc_channel.specs.ChannelHandlers.{HandlesChanOpenConfirm};

use crate::following::follow_peer;
use ibc_ids::Refusal;
use ibc_records::Records;
use ibc_wire::{ChanOpenConfirm, ChannelState};
use std::alloc::Global;

/// Opens a channel that the peer opened (ICS 4, "chanOpenConfirm"). Refused, by the first check that fails: `BadMessage`
/// where the proof can't be read; `UnknownChannel`; `WrongState` where the end isn't in `TryOpen`; `NoConsensus` where the
/// connection's client doesn't know the height; `BadProof` where the proof doesn't show the peer's end. `NoMemory` where a
/// growth is refused. A refusal leaves the records.
pub fn open_confirm(
    alloc: Global,
    records: &mut Records,
    message: &ChanOpenConfirm,
) -> Result<(), Refusal>
    ensures { HandlesChanOpenConfirm message.now records.old result records.new }
{
    follow_peer(
        alloc,
        records,
        ChannelState::Open,
        &message.port,
        &message.channel,
        message.height,
        &message.proof,
    )
}
