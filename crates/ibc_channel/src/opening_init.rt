//! Beginning a channel.

ghost use Rattle.std.specs.Prelude.{◌≡◌, ◌-◌, ◌^◌, ◌<◌, IfOk};
ghost use Rattle.ibc_ids.specs.Paths.{nth_channel};
ghost use Rattle.ibc_channel.specs.ChannelHandlers.{HandlesChanOpenInit, JudgesChanOpenInit};

use crate::checks::{check_connection, check_number};
use crate::ends::{add_channel, new_end};
use ibc_ids::{ChannelId, Refusal};
use ibc_records::{App, Records};
use ibc_wire::{ChanOpenInit, ChannelState};
use std::alloc::Global;

/// Begins a channel of the application of the message's port (ICS 4, "chanOpenInit"); `app` is none where the port has
/// none. Refused, by the first check that fails: `UnknownPort` where the port has no application; `UnknownConnection`;
/// as the application refuses the order or the version, `WrongOrder` or `WrongVersion`; `NumberFull` where the number of
/// the next channel is 2^64 - 1. `NoMemory` where a growth is refused. A refusal leaves the records.
pub fn open_init<A: App>(
    alloc: Global,
    records: &mut Records,
    app: Option<&A>,
    message: &ChanOpenInit,
) -> Result<ChannelId, Refusal>
    ensures answer { HandlesChanOpenInit app.entry A.opens message.now records.old result records.new }
    ensures named { IfOk result (λ id. id ≡ nth_channel records.old.next_channel) }
{
    check_init(records, app, message)?;
    let end = new_end(
        ChannelState::Init,
        message.order,
        &message.peer_port,
        None,
        &message.connection,
        &message.version,
    )?;
    add_channel(alloc, records, &message.port, end)
}

// The checks, in their order.
fn check_init<A: App>(
    records: &Records,
    app: Option<&A>,
    message: &ChanOpenInit,
) -> Result<(), Refusal>
    ensures judged { JudgesChanOpenInit app.entry A.opens message.now records.now result }
    ensures free { IfOk result (λ _. records.now.next_channel < 2 ^ 64 - 1) }
{
    let Some(app) = app else {
        return Err(Refusal::UnknownPort);
    };
    check_connection(records, &message.connection)?;
    app.on_open(message.order, &message.version)?;
    check_number(records)
}
