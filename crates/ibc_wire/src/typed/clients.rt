//! What the messages of clients promise by their types.

ghost use Rattle.std.specs.Prelude.{IsTrue};
ghost use Rattle.ibc_wire.specs.Fields.{are_typed};
ghost use Rattle.ibc_wire.specs.Messages.{message_fields};

use super::{lemma_is_root, lemma_is_u8, lemma_is_u64};
use crate::{CreateClient, Message, UpdateClient};

impl CreateClient {
    pub(crate) fn lemma_typed(&self)
        ensures { IsTrue (are_typed (message_fields (Message.CreateClient self.now))) }
    {
        lemma_is_u8(self.chain);
    }
}

impl UpdateClient {
    pub(crate) fn lemma_typed(&self)
        ensures { IsTrue (are_typed (message_fields (Message.UpdateClient self.now))) }
    {
        self.client.lemma_has_form();
        lemma_is_u8(self.header.chain);
        lemma_is_u64(self.header.height);
        lemma_is_u64(self.header.time);
        lemma_is_root(&self.header.root);
    }
}
