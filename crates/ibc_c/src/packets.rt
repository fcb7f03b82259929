//! Packets by their own bytes, and those that messages carry and ledgers sent.

ghost use Rattle.std.specs.Prelude.{◌≡◌};
ghost use Rattle.ibc_calls.specs.CallAnswers.{Numbered};
ghost use Rattle.ibc_calls.specs.PacketReads.{FindsAck, FindsCarriedAck, FindsPart, FindsSent, TellsPacket};
ghost use Rattle.ibc_c.specs.Codes.{NumbersFound};
ghost use Rattle.ibc_c.specs.NumberedCalls.{NumbersCarriedPacket};

use ibc_calls::{PacketNumbers, number};
use ibc_handle::Handle;
use std::alloc::Global;

/// Writes the bytes of the packet that a message carries. As `message_packet`.
#[unsafe(no_mangle)]
pub extern "C" fn ibcw_message_packet(
    alloc: Global,
    message: &[u8],
    packet: &mut [u8],
    size: &mut usize,
) -> u32
    ensures { NumbersCarriedPacket message.now packet.old packet.new size.old size.new result }
{
    number(ibc_calls::message_packet(alloc, message, packet, size))
}

/// Writes the acknowledgement that a message carries. As `message_ack`.
#[unsafe(no_mangle)]
pub extern "C" fn ibcw_message_ack(
    alloc: Global,
    message: &[u8],
    ack: &mut [u8],
    size: &mut usize,
) -> u32
    ensures { NumbersFound (FindsCarriedAck message.now) ack.old ack.new size.old size.new result }
{
    number(ibc_calls::message_ack(alloc, message, ack, size))
}

/// Tells the sequence and the timeouts of a packet. As `packet_numbers`.
#[unsafe(no_mangle)]
pub extern "C" fn ibcw_packet_numbers(
    alloc: Global,
    packet: &[u8],
    numbers: &mut PacketNumbers,
) -> u32
    ensures { Numbered (TellsPacket packet.now numbers.old numbers.new) result }
{
    number(ibc_calls::packet_numbers(alloc, packet, numbers))
}

/// Writes a part of a packet. As `packet_part`.
#[unsafe(no_mangle)]
pub extern "C" fn ibcw_packet_part(
    alloc: Global,
    packet: &[u8],
    part: u64,
    text: &mut [u8],
    size: &mut usize,
) -> u32
    ensures { NumbersFound (FindsPart part packet.now) text.old text.new size.old size.new result }
{
    number(ibc_calls::packet_part(alloc, packet, part, text, size))
}

/// Writes the bytes of the packet that a ledger sent from an end under a sequence. As `sent_packet`.
#[unsafe(no_mangle)]
pub extern "C" fn ibcw_packet(
    alloc: Global,
    ledger: &mut Handle,
    port: &[u8],
    channel: &[u8],
    sequence: u64,
    packet: &mut [u8],
    size: &mut usize,
) -> u32
    ensures kept { ledger.new.value ≡ ledger.old.value }
    ensures found { NumbersFound (FindsSent port.now channel.now sequence ledger.old.value) packet.old packet.new size.old size.new result }
{
    number(ibc_calls::sent_packet(alloc, ledger, port, channel, sequence, packet, size))
}

/// Writes the acknowledgement that a ledger wrote at an end for a sequence. As `written_ack`.
#[unsafe(no_mangle)]
pub extern "C" fn ibcw_ack(
    alloc: Global,
    ledger: &mut Handle,
    port: &[u8],
    channel: &[u8],
    sequence: u64,
    ack: &mut [u8],
    size: &mut usize,
) -> u32
    ensures kept { ledger.new.value ≡ ledger.old.value }
    ensures found { NumbersFound (FindsAck port.now channel.now sequence ledger.old.value) ack.old ack.new size.old size.new result }
{
    number(ibc_calls::written_ack(alloc, ledger, port, channel, sequence, ack, size))
}
