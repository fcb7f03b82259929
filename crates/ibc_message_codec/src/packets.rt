//! How the messages of packets, their acknowledgements and timeouts are spelled behind their tag.

ghost use Rattle.ibc_message_codec.specs.PacketFronts.{recv_packet_fields, ack_packet_fields, timeout_fields, timeout_on_close_fields, recv_packet_at_front, ack_packet_at_front, timeout_at_front, timeout_on_close_at_front};
ghost use Rattle.ibc_message_codec.specs.WrittenParts.{WritesProvenAck, WritesProvenAbsence, WritesProvenClose};

use crate::behind::{n8_behind, str_behind};
use crate::parts::{write_proof, write_proofs};
use crate::payload::Payload;
use ibc_ids::{Bytes, Refusal};
use ibc_wire::fields::{write_n8, write_str};
use ibc_wire::{AckPacket, Packet, RecvPacket, Timeout, TimeoutOnClose, Wire};
use std::alloc::Global;

impl Payload for RecvPacket {
    ghost fields = { recv_packet_fields };

    ghost front = { recv_packet_at_front };

    #[tactic(auto, unfolding(crate::specs::PacketFronts::recv_packet_at_front))]
    fn read(alloc: Global, bytes: &[u8]) -> Result<(RecvPacket, &[u8]), Refusal> {
        let (fields, rest) = Packet::read(alloc, bytes)?;
        let (fields, rest) = n8_behind(fields, rest)?;
        let (fields, rest) = str_behind(alloc, fields, rest)?;
        let ((packet, height), proof) = fields;
        Ok((
            RecvPacket {
                packet,
                height,
                proof,
            },
            rest,
        ))
    }

    fn write(&self, out: &mut Vec<u8>) -> Result<(), Refusal> {
        self.packet.write(out)?;
        write_proof(out, self.height, &self.proof)
    }
}

impl Payload for AckPacket {
    ghost fields = { ack_packet_fields };

    ghost front = { ack_packet_at_front };

    #[tactic(auto, unfolding(crate::specs::PacketFronts::ack_packet_at_front))]
    fn read(alloc: Global, bytes: &[u8]) -> Result<(AckPacket, &[u8]), Refusal> {
        let (fields, rest) = Packet::read(alloc, bytes)?;
        let (fields, rest) = str_behind(alloc, fields, rest)?;
        let (fields, rest) = n8_behind(fields, rest)?;
        let (fields, rest) = str_behind(alloc, fields, rest)?;
        let (((packet, ack), height), proof) = fields;
        Ok((
            AckPacket {
                packet,
                ack,
                height,
                proof,
            },
            rest,
        ))
    }

    fn write(&self, out: &mut Vec<u8>) -> Result<(), Refusal> {
        self.packet.write(out)?;
        write_proven_ack(out, &self.ack, self.height, &self.proof)
    }
}

impl Payload for Timeout {
    ghost fields = { timeout_fields };

    ghost front = { timeout_at_front };

    #[tactic(auto, unfolding(crate::specs::PacketFronts::timeout_at_front))]
    fn read(alloc: Global, bytes: &[u8]) -> Result<(Timeout, &[u8]), Refusal> {
        let (fields, rest) = Packet::read(alloc, bytes)?;
        let (fields, rest) = n8_behind(fields, rest)?;
        let (fields, rest) = n8_behind(fields, rest)?;
        let (fields, rest) = str_behind(alloc, fields, rest)?;
        let (((packet, next_recv), height), proof) = fields;
        Ok((
            Timeout {
                packet,
                next_recv,
                height,
                proof,
            },
            rest,
        ))
    }

    fn write(&self, out: &mut Vec<u8>) -> Result<(), Refusal> {
        self.packet.write(out)?;
        write_proven_absence(out, self.next_recv, self.height, &self.proof)
    }
}

impl Payload for TimeoutOnClose {
    ghost fields = { timeout_on_close_fields };

    ghost front = { timeout_on_close_at_front };

    #[tactic(auto, unfolding(crate::specs::PacketFronts::timeout_on_close_at_front))]
    fn read(alloc: Global, bytes: &[u8]) -> Result<(TimeoutOnClose, &[u8]), Refusal> {
        let (fields, rest) = Packet::read(alloc, bytes)?;
        let (fields, rest) = n8_behind(fields, rest)?;
        let (fields, rest) = n8_behind(fields, rest)?;
        let (fields, rest) = str_behind(alloc, fields, rest)?;
        let (fields, rest) = str_behind(alloc, fields, rest)?;
        let ((((packet, next_recv), height), proof), proof_close) = fields;
        Ok((
            TimeoutOnClose {
                packet,
                next_recv,
                height,
                proof,
                proof_close,
            },
            rest,
        ))
    }

    fn write(&self, out: &mut Vec<u8>) -> Result<(), Refusal> {
        self.packet.write(out)?;
        write_proven_close(
            out,
            self.next_recv,
            self.height,
            &self.proof,
            &self.proof_close,
        )
    }
}

// Writes an acknowledgement, and what proves it.
fn write_proven_ack(
    out: &mut Vec<u8>,
    ack: &Bytes,
    height: u64,
    proof: &Bytes,
) -> Result<(), Refusal>
    ensures { WritesProvenAck ack.now height proof.now out.old result out.new }
{
    write_str(out, ack, u16::MAX)?;
    write_proof(out, height, proof)
}

// Writes the sequence that the peer receives next, and what proves that it hasn't received a packet.
fn write_proven_absence(
    out: &mut Vec<u8>,
    next_recv: u64,
    height: u64,
    proof: &Bytes,
) -> Result<(), Refusal>
    ensures { WritesProvenAbsence next_recv height proof.now out.old result out.new }
{
    write_n8(out, next_recv)?;
    write_proof(out, height, proof)
}

// Writes the sequence that the peer receives next, and what proves that it hasn't received a packet and is closed.
fn write_proven_close(
    out: &mut Vec<u8>,
    next_recv: u64,
    height: u64,
    proof: &Bytes,
    proof_close: &Bytes,
) -> Result<(), Refusal>
    ensures { WritesProvenClose next_recv height proof.now proof_close.now out.old result out.new }
{
    write_n8(out, next_recv)?;
    write_proofs(out, height, proof, proof_close)
}
