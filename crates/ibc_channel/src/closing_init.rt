//! Closing a channel from this side.

ghost use Rattle.std.specs.Prelude.{IfOk};
ghost use Rattle.ibc_channel.specs.ChannelHandlers.{HandlesChanCloseInit, JudgesChanCloseInit};
ghost use Rattle.ibc_channel.specs.ChannelHandshake.{HasEndAt};

use crate::checks::check_state;
use crate::ends::{find_end, move_end, set_end};
use ibc_ids::Refusal;
use ibc_records::{App, Records};
use ibc_wire::{ChanCloseInit, ChannelEnd, ChannelState};

/// Closes a channel from this side, where the application of its port lets it be closed (ICS 4, "chanCloseInit").
/// Refused, by the first check that fails: `UnknownChannel`; `WrongState` where the end isn't in `Open`; `CloseRefused` by
/// the application. `NoMemory` where a growth is refused. A refusal leaves the records.
pub fn close_init<A: App>(
    records: &mut Records,
    app: &A,
    message: &ChanCloseInit,
) -> Result<(), Refusal>
    ensures { HandlesChanCloseInit A.closes message.now records.old result records.new }
{
    let end = judge_close(records, app, message)?;
    set_end(records, &message.port, &message.channel, end)
}

// The checks, in their order, and the end as it will stand.
fn judge_close<A: App>(
    records: &Records,
    app: &A,
    message: &ChanCloseInit,
) -> Result<ChannelEnd, Refusal>
    ensures judged { JudgesChanCloseInit A.closes message.now records.now result }
    ensures there { IfOk result (λ _. HasEndAt records.now message.now.port message.now.channel) }
{
    let mine = find_end(records, &message.port, &message.channel)?;
    check_state(mine, ChannelState::Open)?;
    app.on_close()?;
    move_end(mine, ChannelState::Closed)
}
