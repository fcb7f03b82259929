//! The tokens of packets.

use crate::ends::end_of;
use crate::facts::brought_by;
use ibc_ids::Refusal;
use ibc_ledger::Ledger;
use ibc_machine::{Entry, Event};
use ibc_token_data::TokenData;
use ibc_wire::{Message, Packet};
use std::alloc::Global;

/// The tokens that the packet of an entry has, none where it has no data of tokens. Refused: `NoMemory`.
pub fn tokens_of(
    alloc: Global,
    ledger: &Ledger,
    entry: &Entry,
) -> Result<Option<TokenData>, Refusal> {
    let Event::Message { message, .. } = &entry.event else {
        return Ok(None);
    };
    match message {
        Message::Transfer(message) => Ok(Some(TokenData::of_transfer(alloc, message)?)),
        Message::TransferMany(message) => Ok(Some(TokenData::of_transfer_many(alloc, message)?)),
        _ => match brought_by(entry) {
            Some(packet) => tokens_in(alloc, ledger, message, packet),
            None => Ok(None),
        },
    }
}

// The tokens of a packet that a message brings.
fn tokens_in(
    alloc: Global,
    ledger: &Ledger,
    message: &Message,
    packet: &Packet,
) -> Result<Option<TokenData>, Refusal> {
    let (port, channel) = match message {
        Message::RecvPacket(_) => (&packet.destination_port, &packet.destination_channel),
        _ => (&packet.source_port, &packet.source_channel),
    };
    if port.as_str() != "transfer" {
        return Ok(None);
    }
    match end_of(alloc, ledger, port, channel)? {
        Some(end) => {
            let read = TokenData::read(alloc, &end.version, packet.payload.as_slice());
            drop(end);
            read
        }
        None => Ok(None),
    }
}
