//! The packets that messages sent.

ghost use Rattle.std.specs.Prelude.{◌≡◌, Some, IfOk, IsOkUnless};
ghost use Rattle.ibc_ids.specs.declared.refusal.Refusal.TheVariants.{NoMemory};
ghost use Rattle.ibc_wire.specs.declared.messages.Message.TheVariants as message;
ghost use Rattle.ibc_ledger.specs.SentNames.{commitment_by, commitment_in, packet_to, IsPacketOfEvent};

use ibc_ids::{ChannelId, PortId, Refusal, Version};
use ibc_machine::Event;
use ibc_records::Commitment;
use ibc_token_data::TokenData;
use ibc_wire::{ChannelEnd, Message, Packet, Transfer, TransferMany};
use std::alloc::{AllocError, Global};

/// The packet that an event sent from an end under a sequence to the peer of this name (ICS 4, "sendPacket"), or none where
/// it is of a kind that sends none. `NoMemory` where a growth is refused.
pub fn packet_in(
    alloc: Global,
    event: &Event,
    port: &PortId,
    channel: &ChannelId,
    sequence: u64,
    end: &ChannelEnd,
    peer: &ChannelId,
) -> Result<Option<Packet>, Refusal>
    ensures ok { IsPacketOfEvent event.now port.now channel.now sequence end.now peer.now result }
    ensures err { IsOkUnless result NoMemory }
{
    let Some(commitment) = commitment_in(alloc, event)? else {
        return Ok(None);
    };
    Ok(Some(packet_to(port, channel, sequence, end, peer, commitment)?))
}

// What was committed of the packet that an event sent, or none where it sends none.
fn commitment_in(alloc: Global, event: &Event) -> Result<Option<Commitment>, Refusal>
    ensures ok { IfOk result (λ commitment. commitment ≡ commitment_in event.now) }
    ensures err { IsOkUnless result NoMemory }
{
    match event {
        Event::Message { message, .. } => commitment_by(alloc, message),
        Event::Block { .. } => Ok(None),
    }
}

// What is committed of the packet that a message sends, or none.
fn commitment_by(alloc: Global, message: &Message) -> Result<Option<Commitment>, Refusal>
    ensures ok { IfOk result (λ commitment. commitment ≡ commitment_by message.now) }
    ensures err { IsOkUnless result NoMemory }
{
    match message {
        Message::SendNote(note) => Ok(Some(Commitment {
            payload: note.payload.clone()?,
            timeout_height: note.timeout_height,
            timeout_time: note.timeout_time,
        })),
        Message::Transfer(sent) => Ok(Some(transfer_by(alloc, sent)?)),
        Message::TransferMany(sent) => Ok(Some(transfer_many_by(alloc, sent)?)),
        _ => Ok(None),
    }
}

// What is committed of the packet of a transfer of one token.
fn transfer_by(alloc: Global, sent: &Transfer) -> Result<Commitment, Refusal>
    ensures ok { IfOk result (λ made. Some made ≡ commitment_by (message.Transfer sent.now)) }
    ensures err { IsOkUnless result NoMemory }
{
    let version = Version::parse(alloc, "ics20-1")?;
    let told = TokenData::of_transfer(alloc, sent)?;
    Ok(Commitment {
        payload: told.write(alloc, &version)?,
        timeout_height: sent.timeout_height,
        timeout_time: sent.timeout_time,
    })
}

// What is committed of the packet of a transfer of several tokens.
fn transfer_many_by(alloc: Global, sent: &TransferMany) -> Result<Commitment, Refusal>
    ensures ok { IfOk result (λ made. Some made ≡ commitment_by (message.TransferMany sent.now)) }
    ensures err { IsOkUnless result NoMemory }
{
    let version = Version::parse(alloc, "ics20-own-2")?;
    let told = TokenData::of_transfer_many(alloc, sent)?;
    Ok(Commitment {
        payload: told.write(alloc, &version)?,
        timeout_height: sent.timeout_height,
        timeout_time: sent.timeout_time,
    })
}

// The packet that was committed to so, from an end under a sequence to the peer of this name. Error: memory ran out.
fn packet_to(
    port: &PortId,
    channel: &ChannelId,
    sequence: u64,
    end: &ChannelEnd,
    peer: &ChannelId,
    commitment: Commitment,
) -> Result<Packet, AllocError>
    ensures { IfOk result (λ p. p ≡ packet_to port.now channel.now sequence end.now peer.now commitment) }
{
    Ok(Packet {
        sequence,
        timeout_height: commitment.timeout_height,
        timeout_time: commitment.timeout_time,
        source_port: port.clone()?,
        source_channel: channel.clone()?,
        destination_port: end.peer_port.clone()?,
        destination_channel: peer.clone()?,
        payload: commitment.payload,
    })
}
