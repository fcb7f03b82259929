//! What the messages that send packets promise by their types.

ghost use Rattle.std.specs.Prelude.{IsTrue};
ghost use Rattle.ibc_wire.specs.Fields.{are_typed};
ghost use Rattle.ibc_wire.specs.Messages.{message_fields};
ghost use Rattle.std.specs.List.{flat_map};
ghost use Rattle.ibc_wire.specs.Spelling.{token_fields};

use super::{lemma_is_text, lemma_is_u64, lemma_is_u128};
use crate::{Message, SendNote, Token, Transfer, TransferMany};

impl Transfer {
    pub(crate) fn lemma_typed(&self)
        ensures { IsTrue (are_typed (message_fields (Message.Transfer self.now))) }
    {
        self.channel.lemma_has_form();
        self.user.lemma_has_form();
        self.denom.lemma_has_form();
        lemma_is_u128(self.amount);
        self.receiver.lemma_has_form();
        self.memo.lemma_has_form();
        lemma_is_u64(self.timeout_height);
        lemma_is_u64(self.timeout_time);
    }
}

impl TransferMany {
    pub(crate) fn lemma_typed(&self)
        ensures { IsTrue (are_typed (message_fields (Message.TransferMany self.now))) }
    {
        self.channel.lemma_has_form();
        self.user.lemma_has_form();
        lemma_typed_tokens(self.tokens.as_slice());
        self.receiver.lemma_has_form();
        self.memo.lemma_has_form();
        lemma_is_u64(self.timeout_height);
        lemma_is_u64(self.timeout_time);
    }
}

impl SendNote {
    pub(crate) fn lemma_typed(&self)
        ensures { IsTrue (are_typed (message_fields (Message.SendNote self.now))) }
    {
        self.channel.lemma_has_form();
        lemma_is_text(&self.payload);
        lemma_is_u64(self.timeout_height);
        lemma_is_u64(self.timeout_time);
    }
}

fn lemma_typed_tokens(tokens: &[Token])
    ensures { IsTrue (are_typed (flat_map token_fields tokens.now)) }
{
    for token in tokens {
        token.denom.lemma_has_form();
        lemma_is_u128(token.amount);
    }
}
