//! Events as they are spelled, so that a list of them can be asked of more than one world.

use ibc_ids::Refusal;
use ibc_machine::{Event, Reply};
use ibc_message_codec::{decode, encode};
use ibc_wire::{Message, Packet};
use std::alloc::Global;

/// An event, with its message as it is spelled.
#[derive(PartialEq, Eq, Drop)]
pub enum SpelledEvent {
    Message { chain: u8, bytes: Vec<u8> },
    Block { chain: u8, next_time: u64 },
}

impl SpelledEvent {
    /// How an event is spelled. Refused: `NoMemory`, and `BadMessage` where its message has no spelling.
    pub fn of(alloc: Global, event: &Event) -> Result<SpelledEvent, Refusal> {
        match event {
            Event::Message { chain, message } => Ok(SpelledEvent::Message {
                chain: *chain,
                bytes: encode(alloc, message)?,
            }),
            Event::Block { chain, next_time } => Ok(SpelledEvent::Block {
                chain: *chain,
                next_time: *next_time,
            }),
        }
    }

    /// The event. Refused: `NoMemory`, and `BadMessage` where the bytes spell no message.
    pub fn event(&self, alloc: Global) -> Result<Event, Refusal> {
        match self {
            SpelledEvent::Message { chain, bytes } => Ok(Event::Message {
                chain: *chain,
                message: decode(alloc, bytes.as_slice())?,
            }),
            SpelledEvent::Block { chain, next_time } => Ok(Event::Block {
                chain: *chain,
                next_time: *next_time,
            }),
        }
    }
}

/// Whether events are spelled so. Refused: `NoMemory`, and `BadMessage` where a message has no spelling.
pub fn are_spelled(
    alloc: Global,
    events: &[Event],
    list: &[SpelledEvent],
) -> Result<bool, Refusal> {
    if events.len() != list.len() {
        return Ok(false);
    }
    for (event, spelled) in events.iter().zip(list) {
        if !is_spelled(alloc, event, spelled)? {
            return Ok(false);
        }
    }
    Ok(true)
}

// Whether an event is spelled so.
fn is_spelled(alloc: Global, event: &Event, spelled: &SpelledEvent) -> Result<bool, Refusal> {
    let own = SpelledEvent::of(alloc, event)?;
    let is_same = own == *spelled;
    drop(own);
    Ok(is_same)
}

/// Whether two events are spelled the same. Refused: `NoMemory`, and `BadMessage` where a message has no spelling.
pub fn are_spelled_alike(alloc: Global, one: &Event, other: &Event) -> Result<bool, Refusal> {
    let spelled = SpelledEvent::of(alloc, one)?;
    let is_same = is_spelled(alloc, other, &spelled);
    drop(spelled);
    is_same
}

/// Whether a reply tells that there was no memory.
pub fn is_no_memory(reply: &Reply) -> bool {
    matches!(reply, Reply::No(Refusal::NoMemory))
}

/// The events of a list but for those that were answered `NoMemory`. Refused: `NoMemory`.
pub fn answered(
    alloc: Global,
    list: &[SpelledEvent],
    replies: &[Reply],
) -> Result<Vec<Event>, Refusal> {
    let mut events = Vec::with_capacity(alloc, list.len())?;
    match push_answered(alloc, &mut events, list, replies) {
        Ok(()) => Ok(events),
        Err(refusal) => {
            drop(events);
            Err(refusal)
        }
    }
}

// Adds those events to others.
fn push_answered(
    alloc: Global,
    events: &mut Vec<Event>,
    list: &[SpelledEvent],
    replies: &[Reply],
) -> Result<(), Refusal> {
    for (spelled, reply) in list.iter().zip(replies) {
        if !is_no_memory(reply) {
            events.push(spelled.event(alloc)?)?;
        }
    }
    Ok(())
}

// The packet that a message carries, if it does.
fn packet_of(message: &Message) -> Option<&Packet> {
    match message {
        Message::RecvPacket(message) => Some(&message.packet),
        Message::AckPacket(message) => Some(&message.packet),
        Message::Timeout(message) => Some(&message.packet),
        Message::TimeoutOnClose(message) => Some(&message.packet),
        _ => None,
    }
}

// Whether a packet is spelled so that the same is read back. Refused: `NoMemory`.
fn packet_comes_back(alloc: Global, packet: &Packet) -> Result<bool, Refusal> {
    let bytes = ibc_wire::encode(alloc, packet)?;
    let back: Result<Packet, Refusal> = ibc_wire::decode(alloc, bytes.as_slice());
    drop(bytes);
    let back = back?;
    let is_same = back == *packet;
    drop(back);
    Ok(is_same)
}

// Whether the message that bytes spell is spelled by these bytes, and so is the packet that it carries. Refused: `NoMemory`.
fn bytes_come_back(alloc: Global, bytes: &[u8]) -> Result<bool, Refusal> {
    let message = decode(alloc, bytes)?;
    let again = encode(alloc, &message);
    let is_packet = match packet_of(&message) {
        Some(packet) => packet_comes_back(alloc, packet),
        None => Ok(true),
    };
    drop(message);
    Ok(is_packet? && again?.as_slice() == bytes)
}

/// How many messages of a list are read back from their bytes as they were; none where one isn't. Refused: `NoMemory`.
pub fn read_back(alloc: Global, list: &[SpelledEvent]) -> Result<Option<usize>, Refusal> {
    let mut count = 0usize;
    for spelled in list {
        if let SpelledEvent::Message { bytes, .. } = spelled {
            if !bytes_come_back(alloc, bytes.as_slice())? {
                return Ok(None);
            }
            count = count.saturating_add(1);
        }
    }
    Ok(Some(count))
}
