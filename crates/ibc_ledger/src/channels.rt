//! What becomes of the messages of channels.

ghost use Rattle.std.specs.Prelude.{◌≡◌, IfOk};
ghost use Rattle.ibc_ids.specs.Paths as paths;
ghost use Rattle.ibc_wire.specs.declared.messages.Message.TheVariants as message_of;
ghost use Rattle.ibc_ledger.specs.MessageReplies.{IsReady, IsAnswered};
ghost use Rattle.ibc_ledger.specs.PortChannels.{IsOpenInitOnPort, IsOpenTryOnPort, IsCloseInitOnPort};

use crate::applications::Applications;
use crate::host_state::HostState;
use crate::outcome::EffectTwice;
use ibc_channel::{close_confirm, close_init, open_ack, open_confirm, open_init, open_try};
use ibc_ids::{ChannelId, Refusal, nth_channel};
use ibc_machine::Effect;
use ibc_records::Records;
use ibc_transfer::is_transfer_port;
use ibc_wire::{
    ChanCloseConfirm, ChanCloseInit, ChanOpenAck, ChanOpenConfirm, ChanOpenInit, ChanOpenTry,
};
use std::alloc::Global;

impl HostState {
    /// Begins a channel (ICS 4, "chanOpenInit"). Refused as by `ibc_channel::open_init`; `UnknownPort` where the port has no application.
    pub fn chan_open_init(&mut self, message: &ChanOpenInit) -> Result<EffectTwice, Refusal>
        requires { IsReady (message_of.ChanOpenInit message.now) self.old }
        ensures { IsAnswered (message_of.ChanOpenInit message.now) self.old result self.new }
    {
        let name = nth_channel(self.alloc, self.records.next_channel())?;
        let id = init_on_port(self.alloc, &mut self.records, &self.applications, message)?;
        Ok(EffectTwice {
            told: Effect::Channel(id),
            kept: Effect::Channel(name),
        })
    }

    /// Answers a channel of the peer (ICS 4, "chanOpenTry"). Refused as by `ibc_channel::open_try`; `UnknownPort` where the port has no application.
    pub fn chan_open_try(&mut self, message: &ChanOpenTry) -> Result<EffectTwice, Refusal>
        requires { IsReady (message_of.ChanOpenTry message.now) self.old }
        ensures { IsAnswered (message_of.ChanOpenTry message.now) self.old result self.new }
    {
        let name = nth_channel(self.alloc, self.records.next_channel())?;
        let id = try_on_port(self.alloc, &mut self.records, &self.applications, message)?;
        Ok(EffectTwice {
            told: Effect::Channel(id),
            kept: Effect::Channel(name),
        })
    }

    /// Opens a channel that the peer answered (ICS 4, "chanOpenAck"). Refused as by `ibc_channel::open_ack`.
    pub fn chan_open_ack(&mut self, message: &ChanOpenAck) -> Result<EffectTwice, Refusal>
        requires { IsReady (message_of.ChanOpenAck message.now) self.old }
        ensures { IsAnswered (message_of.ChanOpenAck message.now) self.old result self.new }
    {
        EffectTwice::of_nothing(open_ack(self.alloc, &mut self.records, message))
    }

    /// Opens a channel that the peer opened (ICS 4, "chanOpenConfirm"). Refused as by `ibc_channel::open_confirm`.
    pub fn chan_open_confirm(&mut self, message: &ChanOpenConfirm) -> Result<EffectTwice, Refusal>
        requires { IsReady (message_of.ChanOpenConfirm message.now) self.old }
        ensures { IsAnswered (message_of.ChanOpenConfirm message.now) self.old result self.new }
    {
        EffectTwice::of_nothing(open_confirm(self.alloc, &mut self.records, message))
    }

    /// Closes a channel (ICS 4, "chanCloseInit"). Refused as by `ibc_channel::close_init`.
    pub fn chan_close_init(&mut self, message: &ChanCloseInit) -> Result<EffectTwice, Refusal>
        requires { IsReady (message_of.ChanCloseInit message.now) self.old }
        ensures { IsAnswered (message_of.ChanCloseInit message.now) self.old result self.new }
    {
        EffectTwice::of_nothing(close_on_port(&mut self.records, &self.applications, message))
    }

    /// Closes a channel that the peer closed (ICS 4, "chanCloseConfirm"). Refused as by `ibc_channel::close_confirm`.
    pub fn chan_close_confirm(&mut self, message: &ChanCloseConfirm) -> Result<EffectTwice, Refusal>
        requires { IsReady (message_of.ChanCloseConfirm message.now) self.old }
        ensures { IsAnswered (message_of.ChanCloseConfirm message.now) self.old result self.new }
    {
        EffectTwice::of_nothing(close_confirm(self.alloc, &mut self.records, message))
    }
}

// Begins a channel where the application of its port opens it; `UnknownPort` where the port has none.
fn init_on_port(
    alloc: Global,
    records: &mut Records,
    applications: &Applications,
    message: &ChanOpenInit,
) -> Result<ChannelId, Refusal>
    ensures answer { IsOpenInitOnPort message.now records.old result records.new }
    ensures named { IfOk result (λ id. id ≡ paths.nth_channel records.old.next_channel) }
{
    if is_transfer_port(&message.port) {
        open_init(alloc, records, Some(&applications.transfers), message)
    } else {
        let notes = applications.notes_on(&message.port);
        open_init(alloc, records, notes, message)
    }
}

// Answers a channel of the peer where the application of its port opens it; `UnknownPort` where the port has none.
fn try_on_port(
    alloc: Global,
    records: &mut Records,
    applications: &Applications,
    message: &ChanOpenTry,
) -> Result<ChannelId, Refusal>
    ensures answer { IsOpenTryOnPort message.now records.old result records.new }
    ensures named { IfOk result (λ id. id ≡ paths.nth_channel records.old.next_channel) }
{
    if is_transfer_port(&message.port) {
        open_try(alloc, records, Some(&applications.transfers), message)
    } else {
        let notes = applications.notes_on(&message.port);
        open_try(alloc, records, notes, message)
    }
}

// Closes a channel where the application of its port lets it be closed.
fn close_on_port(
    records: &mut Records,
    applications: &Applications,
    message: &ChanCloseInit,
) -> Result<(), Refusal>
    ensures { IsCloseInitOnPort message.now records.old result records.new }
{
    if is_transfer_port(&message.port) {
        close_init(records, &applications.transfers, message)
    } else {
        close_init(records, &applications.notes, message)
    }
}
