//! What the messages of connections promise by their types.

ghost use Rattle.std.specs.Prelude.{IsTrue};
ghost use Rattle.ibc_wire.specs.Fields.{are_typed};
ghost use Rattle.ibc_wire.specs.Messages.{message_fields};

use super::{lemma_is_text, lemma_is_u8, lemma_is_u64};
use crate::{ConnOpenAck, ConnOpenConfirm, ConnOpenInit, ConnOpenTry, Message};

impl ConnOpenInit {
    pub(crate) fn lemma_typed(&self)
        ensures { IsTrue (are_typed (message_fields (Message.ConnOpenInit self.now))) }
    {
        self.client.lemma_has_form();
        self.peer_client.lemma_has_form();
    }
}

impl ConnOpenTry {
    pub(crate) fn lemma_typed(&self)
        ensures { IsTrue (are_typed (message_fields (Message.ConnOpenTry self.now))) }
    {
        self.client.lemma_has_form();
        self.peer_client.lemma_has_form();
        self.peer_connection.lemma_has_form();
        lemma_is_u8(self.claim.chain);
        lemma_is_u64(self.claim.latest);
        lemma_is_u64(self.height);
        lemma_is_text(&self.proof_end);
        lemma_is_text(&self.proof_client);
    }
}

impl ConnOpenAck {
    pub(crate) fn lemma_typed(&self)
        ensures { IsTrue (are_typed (message_fields (Message.ConnOpenAck self.now))) }
    {
        self.connection.lemma_has_form();
        self.peer_connection.lemma_has_form();
        lemma_is_u8(self.claim.chain);
        lemma_is_u64(self.claim.latest);
        lemma_is_u64(self.height);
        lemma_is_text(&self.proof_end);
        lemma_is_text(&self.proof_client);
    }
}

impl ConnOpenConfirm {
    pub(crate) fn lemma_typed(&self)
        ensures { IsTrue (are_typed (message_fields (Message.ConnOpenConfirm self.now))) }
    {
        self.connection.lemma_has_form();
        lemma_is_u64(self.height);
        lemma_is_text(&self.proof);
    }
}
