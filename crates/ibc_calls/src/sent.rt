//! The packets that ledgers sent, and the acknowledgements that they wrote.

ghost use Rattle.std.specs.Prelude.{◌≡◌, Some, IfOk, IfErr};
ghost use Rattle.ibc_calls.specs.Handles.{Finds};
ghost use Rattle.ibc_calls.specs.PacketReads.{AreEnd, FindsAck, FindsSent, IsAckText, IsSentText, AreEndNames};
ghost use Rattle.ibc_calls.specs.CallAnswers.{IsNameRefused};

use crate::Refused;
use crate::handles::give;
use crate::packets::packet_text;
use ibc_handle::{Handle, HandleValue};
use ibc_ids::{Bytes, ChannelId, PortId};
use ibc_ledger::Ledger;
use std::alloc::Global;

/// Writes the bytes of the packet that a ledger sent from an end of a channel under a sequence, whether its commitment stands or not
/// (ICS 4, "sendPacket"). Refused: `Empty`; `OtherKind`; `Core(BadName)` exactly where the port or the channel is no name of its
/// kind; `NothingThere` where no such packet was sent; `TooShort`; `Core(NoMemory)`.
#[tactic(auto, unfolding(crate::specs::Handles::Finds))]
pub fn sent_packet(
    alloc: Global,
    ledger: &mut Handle,
    port: &[u8],
    channel: &[u8],
    sequence: u64,
    packet: &mut [u8],
    size: &mut usize,
) -> Result<(), Refused>
    ensures kept { ledger.new.value ≡ ledger.old.value }
    ensures found { Finds (FindsSent port.now channel.now sequence ledger.old.value) packet.old packet.new size.old size.new result }
{
    give(
        sent_in(alloc, ledger, port, channel, sequence),
        packet,
        size,
    )
}

#[tactic(auto, unfolding(crate::specs::PacketReads::FindsSent))]
fn sent_in(
    alloc: Global,
    ledger: &mut Handle,
    port: &[u8],
    channel: &[u8],
    sequence: u64,
) -> Result<Bytes, Refused>
    ensures kept { ledger.new.value ≡ ledger.old.value }
    ensures found { FindsSent port.now channel.now sequence ledger.old.value result }
{
    match ledger.take(alloc) {
        None => Err(Refused::Empty),
        Some(held) => {
            let found = sent_at(alloc, &held, port, channel, sequence);
            ledger.set(alloc, held);
            found
        }
    }
}

#[tactic(auto, unfolding(crate::specs::PacketReads::FindsSent))]
fn sent_at(
    alloc: Global,
    held: &HandleValue,
    port: &[u8],
    channel: &[u8],
    sequence: u64,
) -> Result<Bytes, Refused>
    ensures { FindsSent port.now channel.now sequence (Some held.now) result }
{
    match held {
        HandleValue::Ledger(member) => sent_by(alloc, &member.ledger, port, channel, sequence),
        _ => Err(Refused::OtherKind),
    }
}

fn sent_by(
    alloc: Global,
    ledger: &Ledger,
    port: &[u8],
    channel: &[u8],
    sequence: u64,
) -> Result<Bytes, Refused>
    ensures { IsSentText port.now channel.now sequence ledger.now.ledger result }
{
    let (port, channel) = end_of(alloc, port, channel)?;
    match ledger.packet(&port, &channel, sequence) {
        Ok(Some(packet)) => {
            let found = packet_text(alloc, &packet);
            drop(packet);
            found
        }
        Ok(None) => Err(Refused::NothingThere),
        Err(refusal) => Err(Refused::Core(refusal)),
    }
}

// The port and the channel of these names.
fn end_of(alloc: Global, port: &[u8], channel: &[u8]) -> Result<(PortId, ChannelId), Refused>
    ensures ok { IfOk result (λ names. AreEndNames port.now channel.now names) }
    ensures err { IfErr result (λ refused. IsNameRefused (AreEnd port.now channel.now) refused) }
{
    let port = PortId::from_bytes(alloc, port)?;
    let channel = ChannelId::from_bytes(alloc, channel)?;
    Ok((port, channel))
}

/// Writes the acknowledgement that a ledger wrote at an end of a channel for a sequence (ICS 4, "writeAcknowledgement"). Refused:
/// `Empty`; `OtherKind`; `Core(BadName)` exactly where the port or the channel is no name of its kind; `NothingThere` where none
/// was written; `TooShort`; `Core(NoMemory)`.
#[tactic(auto, unfolding(crate::specs::Handles::Finds))]
pub fn written_ack(
    alloc: Global,
    ledger: &mut Handle,
    port: &[u8],
    channel: &[u8],
    sequence: u64,
    ack: &mut [u8],
    size: &mut usize,
) -> Result<(), Refused>
    ensures kept { ledger.new.value ≡ ledger.old.value }
    ensures found { Finds (FindsAck port.now channel.now sequence ledger.old.value) ack.old ack.new size.old size.new result }
{
    give(ack_in(alloc, ledger, port, channel, sequence), ack, size)
}

#[tactic(auto, unfolding(crate::specs::PacketReads::FindsAck))]
fn ack_in(
    alloc: Global,
    ledger: &mut Handle,
    port: &[u8],
    channel: &[u8],
    sequence: u64,
) -> Result<Bytes, Refused>
    ensures kept { ledger.new.value ≡ ledger.old.value }
    ensures found { FindsAck port.now channel.now sequence ledger.old.value result }
{
    match ledger.take(alloc) {
        None => Err(Refused::Empty),
        Some(held) => {
            let found = ack_at(alloc, &held, port, channel, sequence);
            ledger.set(alloc, held);
            found
        }
    }
}

#[tactic(auto, unfolding(crate::specs::PacketReads::FindsAck))]
fn ack_at(
    alloc: Global,
    held: &HandleValue,
    port: &[u8],
    channel: &[u8],
    sequence: u64,
) -> Result<Bytes, Refused>
    ensures { FindsAck port.now channel.now sequence (Some held.now) result }
{
    match held {
        HandleValue::Ledger(member) => ack_by(alloc, &member.ledger, port, channel, sequence),
        _ => Err(Refused::OtherKind),
    }
}

fn ack_by(
    alloc: Global,
    ledger: &Ledger,
    port: &[u8],
    channel: &[u8],
    sequence: u64,
) -> Result<Bytes, Refused>
    ensures { IsAckText port.now channel.now sequence ledger.now.ledger result }
{
    let (port, channel) = end_of(alloc, port, channel)?;
    match ledger.ack(&port, &channel, sequence) {
        Ok(Some(ack)) => Ok(ack),
        Ok(None) => Err(Refused::NothingThere),
        Err(refusal) => Err(Refused::Core(refusal)),
    }
}
