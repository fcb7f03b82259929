//! Packets by their own bytes, and those that messages carry.

ghost use Rattle.std.specs.Prelude.{◌≡◌, ◌⊎◌, Some, IfOk, IfErr, IsErrOf};
ghost use Rattle.ibc_ids.specs.declared.refusal.Refusal.TheVariants.{BadMessage, NoMemory};
ghost use Rattle.ibc_wire.specs.Fields.{Spells};
ghost use Rattle.ibc_wire.specs.Spelling.{packet_fields};
ghost use Rattle.ibc_calls.specs.Handles.{Finds};
ghost use Rattle.ibc_calls.specs.PacketReads.{FindsCarriedAck, FindsCarriedPacket, FindsPart, IsCopied, IsPacketText, TellsPacket, ack_in, numbers_of, packet_in, part_of};
ghost use Rattle.ibc_calls.specs.declared.answer.Refused.TheVariants.{Core};
ghost use Rattle.ibc_calls.specs.SpelledMessages.{SpellNoPacket, PointsTo};

use crate::Refused;
use crate::handles::give;
use crate::messages::message_of;
use ibc_ids::{Bytes, Refusal};
use ibc_wire::{Message, Packet, decode, encode};
use std::alloc::Global;

/// The numbers of a packet (ICS 4, "Packet"). A timeout of 0 is none.
#[repr(C)]
#[derive(Clone, Copy, Debug, PartialEq, Eq, Drop)]
pub struct PacketNumbers {
    pub sequence: u64,
    pub timeout_height: u64,
    pub timeout_time: u64,
}

/// Writes the bytes of the packet that the message carries which the bytes spell: of RecvPacket, AckPacket, Timeout and
/// TimeoutOnClose. Refused: `NoMessage` exactly where they spell none; `NothingThere` where it carries none; `TooShort`;
/// `Core(NoMemory)`.
#[tactic(auto, unfolding(crate::specs::Handles::Finds))]
pub fn message_packet(
    alloc: Global,
    message: &[u8],
    packet: &mut [u8],
    size: &mut usize,
) -> Result<(), Refused>
    ensures { Finds (FindsCarriedPacket message.now) packet.old packet.new size.old size.new result }
{
    give(carried_packet(alloc, message), packet, size)
}

#[tactic(auto, unfolding(crate::specs::PacketReads::FindsCarriedPacket))]
fn carried_packet(alloc: Global, bytes: &[u8]) -> Result<Bytes, Refused>
    ensures { FindsCarriedPacket bytes.now result }
{
    match message_of(alloc, bytes) {
        Ok(message) => {
            let found = packet_text_in(alloc, &message);
            drop(message);
            found
        }
        Err(refused) => Err(refused),
    }
}

fn packet_text_in(alloc: Global, message: &Message) -> Result<Bytes, Refused>
    ensures { IsPacketText (packet_in message.now) result }
{
    match packet_in(message) {
        Some(packet) => packet_text(alloc, packet),
        None => Err(Refused::NothingThere),
    }
}

// The packet of a message that brings one.
fn packet_in(message: &Message) -> Option<&Packet>
    ensures { PointsTo (packet_in message.now) result }
{
    match message {
        Message::RecvPacket(message) => Some(&message.packet),
        Message::AckPacket(message) => Some(&message.packet),
        Message::Timeout(message) => Some(&message.packet),
        Message::TimeoutOnClose(message) => Some(&message.packet),
        _ => None,
    }
}

/// The bytes that spell a packet.
pub(crate) fn packet_text(alloc: Global, packet: &Packet) -> Result<Bytes, Refused>
    ensures { IsPacketText (Some packet.now) result }
{
    match encode(alloc, packet) {
        Ok(bytes) => Ok(Bytes::from_vec(bytes)),
        Err(refusal) => Err(Refused::Core(refusal)),
    }
}

/// Writes the acknowledgement that the message carries which the bytes spell: of AckPacket. Refused: `NoMessage` exactly where they
/// spell none; `NothingThere` where it carries none; `TooShort`; `Core(NoMemory)`.
#[tactic(auto, unfolding(crate::specs::Handles::Finds))]
pub fn message_ack(
    alloc: Global,
    message: &[u8],
    ack: &mut [u8],
    size: &mut usize,
) -> Result<(), Refused>
    ensures { Finds (FindsCarriedAck message.now) ack.old ack.new size.old size.new result }
{
    give(carried_ack(alloc, message), ack, size)
}

#[tactic(auto, unfolding(crate::specs::PacketReads::FindsCarriedAck))]
fn carried_ack(alloc: Global, bytes: &[u8]) -> Result<Bytes, Refused>
    ensures { FindsCarriedAck bytes.now result }
{
    match message_of(alloc, bytes) {
        Ok(message) => {
            let found = ack_text_in(alloc, &message);
            drop(message);
            found
        }
        Err(refused) => Err(refused),
    }
}

fn ack_text_in(alloc: Global, message: &Message) -> Result<Bytes, Refused>
    ensures { IsCopied (ack_in message.now) result }
{
    match message {
        Message::AckPacket(message) => copy_of(alloc, message.ack.as_slice()),
        _ => Err(Refused::NothingThere),
    }
}

/// A copy of a text.
pub(crate) fn copy_of(alloc: Global, text: &[u8]) -> Result<Bytes, Refused>
    ensures { IsCopied (Some text.now) result }
{
    match Bytes::copy_of(alloc, text) {
        Ok(copy) => Ok(copy),
        Err(_) => Err(Refused::Core(Refusal::NoMemory)),
    }
}

/// Tells the sequence and the timeouts of the packet that the bytes spell (ICS 4, "Packet"). Refused: `Core(BadMessage)` exactly
/// where they spell none; `Core(NoMemory)`. Then nothing is told.
#[tactic(auto, unfolding(crate::specs::PacketReads::TellsPacket))]
pub fn packet_numbers(
    alloc: Global,
    packet: &[u8],
    numbers: &mut PacketNumbers,
) -> Result<(), Refused>
    ensures { TellsPacket packet.now numbers.old numbers.new result }
{
    match packet_of(alloc, packet) {
        Ok(packet) => {
            *numbers = numbers_of(&packet);
            drop(packet);
            Ok(())
        }
        Err(refused) => Err(refused),
    }
}

fn numbers_of(packet: &Packet) -> PacketNumbers
    ensures { result ≡ numbers_of packet.now }
{
    PacketNumbers {
        sequence: packet.sequence,
        timeout_height: packet.timeout_height,
        timeout_time: packet.timeout_time,
    }
}

// The packet that the bytes spell.
fn packet_of(alloc: Global, bytes: &[u8]) -> Result<Packet, Refused>
    ensures ok { IfOk result (λ packet. Spells (packet_fields packet) bytes.now) }
    ensures none { IsErrOf result (Core BadMessage) → SpellNoPacket bytes.now }
    ensures err { IfErr result (λ why. (why ≡ Core BadMessage) ⊎ (why ≡ Core NoMemory)) }
{
    match decode(alloc, bytes) {
        Ok(packet) => Ok(packet),
        Err(refusal) => Err(Refused::Core(refusal)),
    }
}

/// Writes a part of the packet that the bytes spell (ICS 4, "Packet"): 1 and 2 the port and the channel that it left, 3 and 4 those
/// that it goes to, 5 its data. Refused: `Core(BadMessage)` exactly where they spell none; `NothingThere` for another number;
/// `TooShort`; `Core(NoMemory)`.
#[tactic(auto, unfolding(crate::specs::Handles::Finds))]
pub fn packet_part(
    alloc: Global,
    packet: &[u8],
    part: u64,
    text: &mut [u8],
    size: &mut usize,
) -> Result<(), Refused>
    ensures { Finds (FindsPart part packet.now) text.old text.new size.old size.new result }
{
    give(part_found(alloc, packet, part), text, size)
}

#[tactic(auto, unfolding(crate::specs::PacketReads::FindsPart))]
fn part_found(alloc: Global, bytes: &[u8], part: u64) -> Result<Bytes, Refused>
    ensures { FindsPart part bytes.now result }
{
    match packet_of(alloc, bytes) {
        Ok(packet) => {
            let found = part_in(alloc, &packet, part);
            drop(packet);
            found
        }
        Err(refused) => Err(refused),
    }
}

fn part_in(alloc: Global, packet: &Packet, part: u64) -> Result<Bytes, Refused>
    ensures { IsCopied (part_of part packet.now) result }
{
    if part == 1 {
        copy_of(alloc, packet.source_port.as_str().as_bytes())
    } else if part == 2 {
        copy_of(alloc, packet.source_channel.as_str().as_bytes())
    } else if part == 3 {
        copy_of(alloc, packet.destination_port.as_str().as_bytes())
    } else if part == 4 {
        copy_of(alloc, packet.destination_channel.as_str().as_bytes())
    } else if part == 5 {
        copy_of(alloc, packet.payload.as_slice())
    } else {
        Err(Refused::NothingThere)
    }
}
