//! Messages as their bytes.

ghost use Rattle.std.specs.Prelude.{◌≡◌, ◌⊎◌, None, Err, IfOk, IfErr, IsErrOf};
ghost use Rattle.ibc_ids.specs.declared.refusal.Refusal.TheVariants.{NoMemory};
ghost use Rattle.ibc_wire.specs.Fields.{Spells};
ghost use Rattle.ibc_wire.specs.Messages.{message_fields};
ghost use Rattle.ibc_message_codec.specs.MessageFront.{kind_at_front};
ghost use Rattle.ibc_calls.specs.declared.answer.Refused.TheVariants.{Core, NoMessage};
ghost use Rattle.ibc_calls.specs.CarriedProofs.{carried_proof, first_in, height_in, proof_in, second_in};
ghost use Rattle.ibc_calls.specs.SpelledMessages.{SpellNoMessage, SpellsTag, SpellsProof, PointsTo};

use crate::Refused;
use ibc_ids::{Bytes, Refusal};
use ibc_message_codec::decode;
use ibc_wire::Message;
use std::alloc::Global;

/// The message that the bytes spell. Refused as by `decode`: `NoMessage` only where they spell none, and always where they begin
/// with the tag of no message; `Core(NoMemory)`.
pub(crate) fn message_of(alloc: Global, bytes: &[u8]) -> Result<Message, Refused>
    ensures ok { IfOk result (λ message. Spells (message_fields message) bytes.now) }
    ensures none { IsErrOf result NoMessage → SpellNoMessage bytes.now }
    ensures unknown { kind_at_front bytes.now ≡ None → result ≡ Err NoMessage }
    ensures err { IfErr result (λ why. (why ≡ NoMessage) ⊎ (why ≡ Core NoMemory)) }
{
    match decode(alloc, bytes) {
        Ok(message) => Ok(message),
        Err(Refusal::BadMessage) => Err(Refused::NoMessage),
        Err(_) => Err(Refused::Core(Refusal::NoMemory)),
    }
}

/// The tag, 1 to 19, of the message that the bytes spell. Refused: `NoMessage` only where they spell none, and always where they
/// begin with the tag of no message; `Core(NoMemory)`.
pub fn tag_of(alloc: Global, bytes: &[u8]) -> Result<u8, Refused>
    ensures ok { IfOk result (λ tag. SpellsTag bytes.now tag) }
    ensures none { IsErrOf result NoMessage → SpellNoMessage bytes.now }
    ensures unknown { kind_at_front bytes.now ≡ None → result ≡ Err NoMessage }
    ensures err { IfErr result (λ why. (why ≡ NoMessage) ⊎ (why ≡ Core NoMemory)) }
{
    let message = message_of(alloc, bytes)?;
    let tag = message.kind().tag();
    drop(message);
    Ok(tag)
}

/// A proof that a message carries, and the height of the other chain at which it is.
#[derive(Drop, Debug, PartialEq, Eq)]
pub struct Carried {
    pub height: u64,
    pub proof: Bytes,
}

/// The proof at an index, 0 or 1, of those that the message carries which the bytes spell, or none where it carries none there.
/// ConnOpenTry and ConnOpenAck carry that of the end and that of the client, TimeoutOnClose that of the packet and that of the
/// closed channel; each other message that needs the other chain's word carries one. Refused: as by `tag_of`.
pub fn carried_proof(alloc: Global, bytes: &[u8], index: u64) -> Result<Option<Carried>, Refused>
    ensures ok { IfOk result (λ found. SpellsProof index bytes.now found) }
    ensures none { IsErrOf result NoMessage → SpellNoMessage bytes.now }
    ensures unknown { kind_at_front bytes.now ≡ None → result ≡ Err NoMessage }
    ensures err { IfErr result (λ why. (why ≡ NoMessage) ⊎ (why ≡ Core NoMemory)) }
{
    let message = message_of(alloc, bytes)?;
    let found = copied(alloc, &message, index);
    drop(message);
    found
}

// A copy of the proof at an index, and its height.
fn copied(alloc: Global, message: &Message, index: u64) -> Result<Option<Carried>, Refused>
    ensures ok { IfOk result (λ found. found ≡ carried_proof index message.now) }
    ensures err { IfErr result (λ why. why ≡ Core NoMemory) }
{
    let Some(proof) = proof_in(message, index) else {
        return Ok(None);
    };
    match Bytes::copy_of(alloc, proof) {
        Ok(proof) => Ok(Some(Carried {
            height: height_in(message),
            proof,
        })),
        Err(_) => Err(Refused::Core(Refusal::NoMemory)),
    }
}

// The proof at an index.
fn proof_in(message: &Message, index: u64) -> Option<&[u8]>
    ensures { PointsTo (proof_in index message.now) result }
{
    if index == 0 {
        first_in(message)
    } else if index == 1 {
        second_in(message)
    } else {
        None
    }
}

// The height at which the proofs are, 0 where there is none.
fn height_in(message: &Message) -> u64
    ensures { result ≡ height_in message.now }
{
    match message {
        Message::ConnOpenTry(message) => message.height,
        Message::ConnOpenAck(message) => message.height,
        Message::ConnOpenConfirm(message) => message.height,
        Message::ChanOpenTry(message) => message.height,
        Message::ChanOpenAck(message) => message.height,
        Message::ChanOpenConfirm(message) => message.height,
        Message::ChanCloseConfirm(message) => message.height,
        Message::RecvPacket(message) => message.height,
        Message::AckPacket(message) => message.height,
        Message::Timeout(message) => message.height,
        Message::TimeoutOnClose(message) => message.height,
        _ => 0,
    }
}

// The one proof, or the first of two.
fn first_in(message: &Message) -> Option<&[u8]>
    ensures { PointsTo (first_in message.now) result }
{
    let proof = match message {
        Message::ConnOpenTry(message) => &message.proof_end,
        Message::ConnOpenAck(message) => &message.proof_end,
        Message::ConnOpenConfirm(message) => &message.proof,
        Message::ChanOpenTry(message) => &message.proof,
        Message::ChanOpenAck(message) => &message.proof,
        Message::ChanOpenConfirm(message) => &message.proof,
        Message::ChanCloseConfirm(message) => &message.proof,
        Message::RecvPacket(message) => &message.proof,
        Message::AckPacket(message) => &message.proof,
        Message::Timeout(message) => &message.proof,
        Message::TimeoutOnClose(message) => &message.proof,
        _ => return None,
    };
    Some(proof.as_slice())
}

// The proof of the client, or of the closed channel.
fn second_in(message: &Message) -> Option<&[u8]>
    ensures { PointsTo (second_in message.now) result }
{
    let proof = match message {
        Message::ConnOpenTry(message) => &message.proof_client,
        Message::ConnOpenAck(message) => &message.proof_client,
        Message::TimeoutOnClose(message) => &message.proof_close,
        _ => return None,
    };
    Some(proof.as_slice())
}
