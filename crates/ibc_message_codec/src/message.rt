//! How messages are spelled: a tag, and the fields behind it.

ghost use Rattle.std.specs.Prelude.{◌≡◌, ◌⊎◌, None, Err, IfOk, IfErr};
ghost use Rattle.ibc_wire.specs.Fields.{Spells, HasOneValue};
ghost use Rattle.ibc_wire.specs.Messages.{message_fields};
ghost use Rattle.ibc_wire.specs.Fronts.{Gives, Writes, value_if_whole};
ghost use Rattle.ibc_message_codec.specs.MessageFront.{message_behind, message_at_front, kind_at_front};
ghost use Rattle.ibc_message_codec.specs.WrittenParts.{IsBadOutsideForm, IsWrittenInForm, IsBadUnspelt, IsReadIfSpelt};

use crate::payload::{Payload, write_tagged};
use ibc_ids::Refusal;
use ibc_wire::{
    AckPacket, ChanCloseConfirm, ChanCloseInit, ChanOpenAck, ChanOpenConfirm, ChanOpenInit,
    ChanOpenTry, ConnOpenAck, ConnOpenConfirm, ConnOpenInit, ConnOpenTry, CreateClient, Message,
    MessageKind, RecvPacket, SendNote, Timeout, TimeoutOnClose, Transfer, TransferMany,
    UpdateClient,
};
use std::alloc::Global;

/// The message of the kind whose fields stand at the front, and what stands behind them.
fn read_behind(alloc: Global, kind: MessageKind, bytes: &[u8]) -> Result<(Message, &[u8]), Refusal>
    ensures { Gives (λ x. (x.0, x.1.now)) result (message_behind kind bytes.now) }
{
    macro_rules! read {
        ($kind:ident) => {
            match $kind::read(alloc, bytes) {
                Ok((message, rest)) => Ok((Message::$kind(message), rest)),
                Err(refusal) => Err(refusal),
            }
        };
    }
    match kind {
        MessageKind::CreateClient => read!(CreateClient),
        MessageKind::UpdateClient => read!(UpdateClient),
        MessageKind::ConnOpenInit => read!(ConnOpenInit),
        MessageKind::ConnOpenTry => read!(ConnOpenTry),
        MessageKind::ConnOpenAck => read!(ConnOpenAck),
        MessageKind::ConnOpenConfirm => read!(ConnOpenConfirm),
        MessageKind::ChanOpenInit => read!(ChanOpenInit),
        MessageKind::ChanOpenTry => read!(ChanOpenTry),
        MessageKind::ChanOpenAck => read!(ChanOpenAck),
        MessageKind::ChanOpenConfirm => read!(ChanOpenConfirm),
        MessageKind::ChanCloseInit => read!(ChanCloseInit),
        MessageKind::ChanCloseConfirm => read!(ChanCloseConfirm),
        MessageKind::Transfer => read!(Transfer),
        MessageKind::SendNote => read!(SendNote),
        MessageKind::RecvPacket => read!(RecvPacket),
        MessageKind::AckPacket => read!(AckPacket),
        MessageKind::Timeout => read!(Timeout),
        MessageKind::TimeoutOnClose => read!(TimeoutOnClose),
        MessageKind::TransferMany => read!(TransferMany),
    }
}

/// The message at the front of the bytes, and what stands behind it.
#[tactic(auto, unfolding(crate::specs::MessageFront::message_at_front))]
fn read_message(alloc: Global, bytes: &[u8]) -> Result<(Message, &[u8]), Refusal>
    ensures message { Gives (λ x. (x.0, x.1.now)) result (message_at_front bytes.now) }
    ensures unknown { kind_at_front bytes.now ≡ None → result ≡ Err Refusal.BadMessage }
{
    let [tag, rest @ ..] = bytes else {
        return Err(Refusal::BadMessage);
    };
    match MessageKind::of_tag(*tag) {
        Some(kind) => read_behind(alloc, kind, rest),
        None => Err(Refusal::BadMessage),
    }
}

/// Writes the message behind the bytes.
fn write_message(out: &mut Vec<u8>, message: &Message) -> Result<(), Refusal>
    ensures { Writes (message_fields message.now) out.old.items result out.new.items }
{
    match message {
        Message::CreateClient(message) => write_tagged(out, 1, message),
        Message::UpdateClient(message) => write_tagged(out, 2, message),
        Message::ConnOpenInit(message) => write_tagged(out, 3, message),
        Message::ConnOpenTry(message) => write_tagged(out, 4, message),
        Message::ConnOpenAck(message) => write_tagged(out, 5, message),
        Message::ConnOpenConfirm(message) => write_tagged(out, 6, message),
        Message::ChanOpenInit(message) => write_tagged(out, 7, message),
        Message::ChanOpenTry(message) => write_tagged(out, 8, message),
        Message::ChanOpenAck(message) => write_tagged(out, 9, message),
        Message::ChanOpenConfirm(message) => write_tagged(out, 10, message),
        Message::ChanCloseInit(message) => write_tagged(out, 11, message),
        Message::ChanCloseConfirm(message) => write_tagged(out, 12, message),
        Message::Transfer(message) => write_tagged(out, 13, message),
        Message::SendNote(message) => write_tagged(out, 14, message),
        Message::RecvPacket(message) => write_tagged(out, 15, message),
        Message::AckPacket(message) => write_tagged(out, 16, message),
        Message::Timeout(message) => write_tagged(out, 17, message),
        Message::TimeoutOnClose(message) => write_tagged(out, 18, message),
        Message::TransferMany(message) => write_tagged(out, 19, message),
    }
}

/// The message at the front of the bytes, behind which nothing stands.
fn read_all(alloc: Global, bytes: &[u8]) -> Result<Message, Refusal>
    ensures message { Gives (λ x. x) result (value_if_whole (message_at_front bytes.now)) }
    ensures unknown { kind_at_front bytes.now ≡ None → result ≡ Err Refusal.BadMessage }
{
    match read_message(alloc, bytes)? {
        (message, []) => Ok(message),
        (message, [_, ..]) => {
            // by a call: the drop of each kind of messages, written out here, would take minutes to prove
            drop(message);
            Err(Refusal::BadMessage)
        }
    }
}

/// The bytes that spell a message. Refused: `BadMessage` exactly for a message outside its form; `NoMemory`.
pub fn encode(alloc: Global, message: &Message) -> Result<Vec<u8>, Refusal>
    ensures ok { IfOk result (λ bytes. Spells (message_fields message.now) bytes.items) }
    ensures bad { IsBadOutsideForm result message.now }
    ensures memory { IsWrittenInForm result message.now }
    ensures errors { IfErr result (λ e. (e ≡ Refusal.BadMessage) ⊎ (e ≡ Refusal.NoMemory)) }
{
    let mut bytes = Vec::new(alloc);
    write_message(&mut bytes, message)?;
    Ok(bytes)
}

/// The message that the bytes spell, all of them. Refused: `BadMessage` only where they spell none, and always where no kind of
/// message has their first byte for its tag, or there is no byte; `NoMemory` where a growth is refused before anything else is
/// found to be wrong.
pub fn decode(alloc: Global, bytes: &[u8]) -> Result<Message, Refusal>
    ensures ok { IfOk result (λ message. Spells (message_fields message) bytes.now) }
    ensures bad { IsBadUnspelt result bytes.now }
    ensures memory { IsReadIfSpelt result bytes.now }
    ensures unknown { kind_at_front bytes.now ≡ None → result ≡ Err Refusal.BadMessage }
    ensures errors { IfErr result (λ e. (e ≡ Refusal.BadMessage) ⊎ (e ≡ Refusal.NoMemory)) }
{
    read_all(alloc, bytes)
}

/// No text spells two messages.
pub fn lemma_a_text_spells_one_message()
    ensures { HasOneValue message_fields }
{}
