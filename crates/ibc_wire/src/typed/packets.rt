//! What the messages that bring packets and answers promise by their types.

ghost use Rattle.std.specs.Prelude.{IsTrue};
ghost use Rattle.ibc_wire.specs.Fields.{are_typed};
ghost use Rattle.ibc_wire.specs.Messages.{message_fields};
ghost use Rattle.ibc_wire.specs.Spelling.{packet_fields};

use super::{lemma_is_text, lemma_is_u64};
use crate::{AckPacket, Message, Packet, RecvPacket, Timeout, TimeoutOnClose};

impl RecvPacket {
    pub(crate) fn lemma_typed(&self)
        ensures { IsTrue (are_typed (message_fields (Message.RecvPacket self.now))) }
    {
        self.packet.lemma_typed();
        lemma_is_u64(self.height);
        lemma_is_text(&self.proof);
    }
}

impl AckPacket {
    pub(crate) fn lemma_typed(&self)
        ensures { IsTrue (are_typed (message_fields (Message.AckPacket self.now))) }
    {
        self.packet.lemma_typed();
        lemma_is_text(&self.ack);
        lemma_is_u64(self.height);
        lemma_is_text(&self.proof);
    }
}

impl Timeout {
    pub(crate) fn lemma_typed(&self)
        ensures { IsTrue (are_typed (message_fields (Message.Timeout self.now))) }
    {
        self.packet.lemma_typed();
        lemma_is_u64(self.next_recv);
        lemma_is_u64(self.height);
        lemma_is_text(&self.proof);
    }
}

impl TimeoutOnClose {
    pub(crate) fn lemma_typed(&self)
        ensures { IsTrue (are_typed (message_fields (Message.TimeoutOnClose self.now))) }
    {
        self.packet.lemma_typed();
        lemma_is_u64(self.next_recv);
        lemma_is_u64(self.height);
        lemma_is_text(&self.proof);
        lemma_is_text(&self.proof_close);
    }
}

impl Packet {
    fn lemma_typed(&self)
        ensures { IsTrue (are_typed (packet_fields self.now)) }
    {
        lemma_is_u64(self.sequence);
        lemma_is_u64(self.timeout_height);
        lemma_is_u64(self.timeout_time);
        self.source_port.lemma_has_form();
        self.source_channel.lemma_has_form();
        self.destination_port.lemma_has_form();
        self.destination_channel.lemma_has_form();
        lemma_is_text(&self.payload);
    }
}
