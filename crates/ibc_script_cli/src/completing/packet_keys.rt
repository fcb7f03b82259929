//! The keys of what the two chains keep of a packet (ICS 24, "Path-space").

ghost use Rattle.std.specs.Prelude.{◌≡◌, IfOk};
ghost use Rattle.ibc_machine.specs.ics04.Proving.{ack_key, commitment_key, destination_key, next_recv_key, receipt_key};

use ibc_ids::Key;
use ibc_wire::Packet;
use std::alloc::AllocError;

/// Where the sender keeps the commitment of a packet.
pub fn commitment_key(packet: &Packet) -> Result<Key, AllocError>
    ensures { IfOk result (λ key. key ≡ commitment_key packet.now) }
{
    Ok(Key::Commitment(
        packet.source_port.clone()?,
        packet.source_channel.clone()?,
        packet.sequence,
    ))
}

/// Where the receiver keeps the acknowledgement of a packet.
pub fn ack_key(packet: &Packet) -> Result<Key, AllocError>
    ensures { IfOk result (λ key. key ≡ ack_key packet.now) }
{
    Ok(Key::Acknowledgement(
        packet.destination_port.clone()?,
        packet.destination_channel.clone()?,
        packet.sequence,
    ))
}

/// Where the receiver keeps the receipt of a packet, on an unordered channel.
pub fn receipt_key(packet: &Packet) -> Result<Key, AllocError>
    ensures { IfOk result (λ key. key ≡ receipt_key packet.now) }
{
    Ok(Key::Receipt(
        packet.destination_port.clone()?,
        packet.destination_channel.clone()?,
        packet.sequence,
    ))
}

/// Where the receiver keeps the sequence that it receives next, on an ordered channel.
pub fn next_recv_key(packet: &Packet) -> Result<Key, AllocError>
    ensures { IfOk result (λ key. key ≡ next_recv_key packet.now) }
{
    Ok(Key::NextSequenceRecv(
        packet.destination_port.clone()?,
        packet.destination_channel.clone()?,
    ))
}

/// Where the receiver keeps its end of the channel.
pub fn destination_key(packet: &Packet) -> Result<Key, AllocError>
    ensures { IfOk result (λ key. key ≡ destination_key packet.now) }
{
    Ok(Key::ChannelEnd(
        packet.destination_port.clone()?,
        packet.destination_channel.clone()?,
    ))
}
