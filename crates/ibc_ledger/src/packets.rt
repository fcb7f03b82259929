//! What becomes of the messages of packets.

ghost use Rattle.ibc_wire.specs.declared.messages.Message.TheVariants as message_of;
ghost use Rattle.ibc_ledger.specs.MessageReplies.{IsReady, IsAnswered};

use crate::host_state::HostState;
use crate::outcome::EffectTwice;
use ibc_ids::Refusal;
use ibc_note::send_note;
use ibc_records::{acknowledge, recv, timeout, timeout_on_close};
use ibc_transfer::{is_transfer_port, send_transfer, send_transfer_many};
use ibc_wire::{AckPacket, RecvPacket, SendNote, Timeout, TimeoutOnClose, Transfer, TransferMany};

impl HostState {
    /// Sends a note. Refused as by `ibc_note::send_note`.
    pub fn send_note(&mut self, message: &SendNote) -> Result<EffectTwice, Refusal>
        requires { IsReady (message_of.SendNote message.now) self.old }
        ensures { IsAnswered (message_of.SendNote message.now) self.old result self.new }
    {
        EffectTwice::of_sent(send_note(self.alloc, &mut self.records, message))
    }

    /// Sends tokens of one denomination (ICS 20, "sendFungibleTokens"). Refused as by `ibc_transfer::send_transfer`.
    pub fn transfer(&mut self, message: &Transfer) -> Result<EffectTwice, Refusal>
        requires { IsReady (message_of.Transfer message.now) self.old }
        ensures { IsAnswered (message_of.Transfer message.now) self.old result self.new }
    {
        let transfers = &mut self.applications.transfers;
        EffectTwice::of_sent(send_transfer(self.alloc, &mut self.records, transfers, message))
    }

    /// Sends several tokens in one packet. Refused as by `ibc_transfer::send_transfer_many`.
    pub fn transfer_many(&mut self, message: &TransferMany) -> Result<EffectTwice, Refusal>
        requires { IsReady (message_of.TransferMany message.now) self.old }
        ensures { IsAnswered (message_of.TransferMany message.now) self.old result self.new }
    {
        let transfers = &mut self.applications.transfers;
        EffectTwice::of_sent(send_transfer_many(self.alloc, &mut self.records, transfers, message))
    }

    /// Receives a packet by the application of its port (ICS 4, "recvPacket"). Refused as by `ibc_records::recv`.
    pub fn recv_packet(&mut self, message: &RecvPacket) -> Result<EffectTwice, Refusal>
        requires { IsReady (message_of.RecvPacket message.now) self.old }
        ensures { IsAnswered (message_of.RecvPacket message.now) self.old result self.new }
    {
        if is_transfer_port(&message.packet.destination_port) {
            let transfers = &mut self.applications.transfers;
            EffectTwice::of_ack(recv(self.alloc, &mut self.records, transfers, message))
        } else {
            let notes = &mut self.applications.notes;
            EffectTwice::of_ack(recv(self.alloc, &mut self.records, notes, message))
        }
    }

    /// Acknowledges a packet by the application of its port (ICS 4, "acknowledgePacket"). Refused as by `ibc_records::acknowledge`.
    pub fn ack_packet(&mut self, message: &AckPacket) -> Result<EffectTwice, Refusal>
        requires { IsReady (message_of.AckPacket message.now) self.old }
        ensures { IsAnswered (message_of.AckPacket message.now) self.old result self.new }
    {
        if is_transfer_port(&message.packet.source_port) {
            let transfers = &mut self.applications.transfers;
            EffectTwice::of_nothing(acknowledge(self.alloc, &mut self.records, transfers, message))
        } else {
            let notes = &mut self.applications.notes;
            EffectTwice::of_nothing(acknowledge(self.alloc, &mut self.records, notes, message))
        }
    }

    /// Times a packet out by the application of its port (ICS 4, "timeoutPacket"). Refused as by `ibc_records::timeout`.
    pub fn timeout(&mut self, message: &Timeout) -> Result<EffectTwice, Refusal>
        requires { IsReady (message_of.Timeout message.now) self.old }
        ensures { IsAnswered (message_of.Timeout message.now) self.old result self.new }
    {
        if is_transfer_port(&message.packet.source_port) {
            let transfers = &mut self.applications.transfers;
            EffectTwice::of_nothing(timeout(self.alloc, &mut self.records, transfers, message))
        } else {
            let notes = &mut self.applications.notes;
            EffectTwice::of_nothing(timeout(self.alloc, &mut self.records, notes, message))
        }
    }

    /// Times a packet out whose peer is closed (ICS 4, "timeoutOnClose"). Refused as by `ibc_records::timeout_on_close`.
    pub fn timeout_on_close(&mut self, message: &TimeoutOnClose) -> Result<EffectTwice, Refusal>
        requires { IsReady (message_of.TimeoutOnClose message.now) self.old }
        ensures { IsAnswered (message_of.TimeoutOnClose message.now) self.old result self.new }
    {
        if is_transfer_port(&message.packet.source_port) {
            let transfers = &mut self.applications.transfers;
            EffectTwice::of_nothing(timeout_on_close(
                self.alloc,
                &mut self.records,
                transfers,
                message,
            ))
        } else {
            let notes = &mut self.applications.notes;
            EffectTwice::of_nothing(timeout_on_close(self.alloc, &mut self.records, notes, message))
        }
    }
}
