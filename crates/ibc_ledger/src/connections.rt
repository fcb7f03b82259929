//! What becomes of the messages of connections.

ghost use Rattle.ibc_wire.specs.declared.messages.Message.TheVariants as message_of;
ghost use Rattle.ibc_ledger.specs.MessageReplies.{IsReady, IsAnswered};

use crate::host_state::HostState;
use crate::outcome::EffectTwice;
use ibc_connection::{open_ack, open_confirm, open_init, open_try};
use ibc_ids::{Refusal, nth_connection};
use ibc_machine::Effect;
use ibc_wire::{ConnOpenAck, ConnOpenConfirm, ConnOpenInit, ConnOpenTry};

impl HostState {
    /// Begins a connection (ICS 3, "ConnOpenInit"). Refused as by `ibc_connection::open_init`.
    pub fn conn_open_init(&mut self, message: &ConnOpenInit) -> Result<EffectTwice, Refusal>
        requires { IsReady (message_of.ConnOpenInit message.now) self.old }
        ensures { IsAnswered (message_of.ConnOpenInit message.now) self.old result self.new }
    {
        let name = nth_connection(self.alloc, self.records.next_connection())?;
        let id = open_init(self.alloc, &mut self.records, message)?;
        Ok(EffectTwice {
            told: Effect::Connection(id),
            kept: Effect::Connection(name),
        })
    }

    /// Answers a connection of the peer (ICS 3, "ConnOpenTry"). Refused as by `ibc_connection::open_try`.
    pub fn conn_open_try(&mut self, message: &ConnOpenTry) -> Result<EffectTwice, Refusal>
        requires { IsReady (message_of.ConnOpenTry message.now) self.old }
        ensures { IsAnswered (message_of.ConnOpenTry message.now) self.old result self.new }
    {
        let name = nth_connection(self.alloc, self.records.next_connection())?;
        let id = open_try(self.alloc, &mut self.records, self.number, message)?;
        Ok(EffectTwice {
            told: Effect::Connection(id),
            kept: Effect::Connection(name),
        })
    }

    /// Opens a connection that the peer answered (ICS 3, "ConnOpenAck"). Refused as by `ibc_connection::open_ack`.
    pub fn conn_open_ack(&mut self, message: &ConnOpenAck) -> Result<EffectTwice, Refusal>
        requires { IsReady (message_of.ConnOpenAck message.now) self.old }
        ensures { IsAnswered (message_of.ConnOpenAck message.now) self.old result self.new }
    {
        EffectTwice::of_nothing(open_ack(self.alloc, &mut self.records, self.number, message))
    }

    /// Opens a connection that the peer opened (ICS 3, "ConnOpenConfirm"). Refused as by `ibc_connection::open_confirm`.
    pub fn conn_open_confirm(&mut self, message: &ConnOpenConfirm) -> Result<EffectTwice, Refusal>
        requires { IsReady (message_of.ConnOpenConfirm message.now) self.old }
        ensures { IsAnswered (message_of.ConnOpenConfirm message.now) self.old result self.new }
    {
        EffectTwice::of_nothing(open_confirm(self.alloc, &mut self.records, message))
    }
}
