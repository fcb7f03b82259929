//! What the messages of channels promise by their types.

ghost use Rattle.std.specs.Prelude.{IsTrue};
ghost use Rattle.ibc_wire.specs.Fields.{are_typed, one_byte};
ghost use Rattle.ibc_wire.specs.Messages.{message_fields};
ghost use Rattle.ibc_wire.specs.Spelling.{order_number};

use super::{lemma_is_text, lemma_is_u8, lemma_is_u64};
use crate::{
    ChanCloseConfirm, ChanCloseInit, ChanOpenAck, ChanOpenConfirm, ChanOpenInit, ChanOpenTry,
    Message, Order,
};

impl ChanOpenInit {
    pub(crate) fn lemma_typed(&self)
        ensures { IsTrue (are_typed (message_fields (Message.ChanOpenInit self.now))) }
    {
        self.port.lemma_has_form();
        lemma_is_order(self.order);
        self.connection.lemma_has_form();
        self.peer_port.lemma_has_form();
        self.version.lemma_has_form();
    }
}

impl ChanOpenTry {
    pub(crate) fn lemma_typed(&self)
        ensures { IsTrue (are_typed (message_fields (Message.ChanOpenTry self.now))) }
    {
        self.port.lemma_has_form();
        lemma_is_order(self.order);
        self.connection.lemma_has_form();
        self.peer_port.lemma_has_form();
        self.peer_channel.lemma_has_form();
        self.version.lemma_has_form();
        lemma_is_u64(self.height);
        lemma_is_text(&self.proof);
    }
}

impl ChanOpenAck {
    pub(crate) fn lemma_typed(&self)
        ensures { IsTrue (are_typed (message_fields (Message.ChanOpenAck self.now))) }
    {
        self.port.lemma_has_form();
        self.channel.lemma_has_form();
        self.peer_channel.lemma_has_form();
        lemma_is_u64(self.height);
        lemma_is_text(&self.proof);
    }
}

impl ChanOpenConfirm {
    pub(crate) fn lemma_typed(&self)
        ensures { IsTrue (are_typed (message_fields (Message.ChanOpenConfirm self.now))) }
    {
        self.port.lemma_has_form();
        self.channel.lemma_has_form();
        lemma_is_u64(self.height);
        lemma_is_text(&self.proof);
    }
}

impl ChanCloseInit {
    pub(crate) fn lemma_typed(&self)
        ensures { IsTrue (are_typed (message_fields (Message.ChanCloseInit self.now))) }
    {
        self.port.lemma_has_form();
        self.channel.lemma_has_form();
    }
}

impl ChanCloseConfirm {
    pub(crate) fn lemma_typed(&self)
        ensures { IsTrue (are_typed (message_fields (Message.ChanCloseConfirm self.now))) }
    {
        self.port.lemma_has_form();
        self.channel.lemma_has_form();
        lemma_is_u64(self.height);
        lemma_is_text(&self.proof);
    }
}

fn lemma_is_order(order: Order)
    ensures { IsTrue (one_byte (order_number order)).in_type }
{
    match order {
        Order::Unordered => lemma_is_u8(1),
        Order::Ordered => lemma_is_u8(2),
    }
}
