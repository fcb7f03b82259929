//! Messages for packets.

ghost use Rattle.std.specs.Prelude.{◌≡◌, Some, IfOk, IsOkUnless};
ghost use Rattle.ibc_wire.specs.declared.records.Order.TheVariants.{Unordered, Ordered};
ghost use Rattle.ibc_script_cli.specs.Completing.{number_in, acknowledged_message, closed_message, IsNextRecv, IsUnreceived, MakesRecv, MakesAck, MakesTimeout, MakesTimeoutOnClose, MakesPacketAction, MakesPacketMessage};
ghost use Rattle.ibc_script_cli.specs.Completers.{IsAckOf, IsAckProof, IsCommitmentProof, IsEndProof, IsMissed, IsSentPacket, MakesIfSent, findings};

use super::packet_keys::{ack_key, commitment_key, destination_key, next_recv_key, receipt_key};
use super::{Completer, encoding_of};
use crate::Chains;
use ibc_ids::Bytes;
use ibc_merkle::{Presence, Proof};
use ibc_script::{Fault, PacketDraft, ProofSource, SentPacket};
use ibc_wire::{AckPacket, Message, Order, Packet, RecvPacket, Timeout, TimeoutOnClose};
use std::alloc::Global;

/// What a message does with a packet that was sent (ICS 4, "Packet flow & handling").
#[derive(Clone, Copy)]
pub enum PacketAction {
    /// It is received.
    Recv,
    /// Its acknowledgement is told to the sender.
    Ack,
    /// The sender is told that it came too late.
    Timeout,
    /// The sender is told that it wasn't received, and that the peer's end is closed.
    TimeoutOnClose,
}

/// What shows that a packet wasn't received: the sequence that is received next, 0 where the channel is unordered, and
/// the encoding of the proof.
#[derive(Drop)]
pub struct Unreceived {
    pub next_recv: u64,
    pub proof: Bytes,
}

/// The number that 8 bytes are, `None` where they are not 8.
fn number_in(bytes: &[u8]) -> Option<u64>
    ensures { result ≡ number_in bytes.now }
{
    if bytes.len() != 8 {
        return None;
    }
    Some(u64::from_be_bytes([
        bytes[0], bytes[1], bytes[2], bytes[3], bytes[4], bytes[5], bytes[6], bytes[7],
    ]))
}

/// What a proof shows of the sequence that is received next, `None` where it shows none.
fn next_recv_of(alloc: Global, proof: &Proof) -> Result<Option<Unreceived>, Fault>
    ensures is { IfOk result (IsNextRecv (Some proof.now)) }
    ensures err { IsOkUnless result Fault.NoMemory }
{
    let Proof::Present(Presence { value, .. }) = proof else {
        return Ok(None);
    };
    let encoded = encoding_of(alloc, proof)?;
    match (number_in(value.as_slice()), encoded) {
        (Some(next_recv), Some(proof)) => Ok(Some(Unreceived { next_recv, proof })),
        _ => Ok(None),
    }
}

/// What shows how a packet was acknowledged: the acknowledgement that was written, and the proof of its digest.
#[derive(Drop)]
struct Acknowledged {
    ack: Option<Bytes>,
    proof: Option<Bytes>,
}

/// What shows that a packet won't be received any more: that it wasn't, and the proof of the peer's end.
#[derive(Drop)]
struct Closed {
    unreceived: Option<Unreceived>,
    proof: Option<Bytes>,
}

// The message of an acknowledgement, `None` where what shows it isn't there.
fn ack_message(packet: Packet, height: u64, shown: Acknowledged) -> Option<Message>
    ensures { result ≡ acknowledged_message packet height shown.ack shown.proof }
{
    match shown.ack.zip(shown.proof) {
        Some((ack, proof)) => Some(Message::AckPacket(AckPacket {
            packet,
            ack,
            height,
            proof,
        })),
        None => {
            drop(packet);
            None
        }
    }
}

// The message of a timeout on a closed channel, `None` where what shows it isn't there.
fn timeout_on_close_message(packet: Packet, height: u64, shown: Closed) -> Option<Message>
    ensures { result ≡ closed_message packet height shown.unreceived shown.proof }
{
    match shown.unreceived.zip(shown.proof) {
        Some((unreceived, proof_close)) => Some(Message::TimeoutOnClose(TimeoutOnClose {
            packet,
            next_recv: unreceived.next_recv,
            height,
            proof: unreceived.proof,
            proof_close,
        })),
        None => {
            drop(packet);
            None
        }
    }
}

impl<C: Chains + Drop> Completer<'_, C> {
    /// The packet that a step names, `None` where it wasn't sent.
    fn sent_packet(&self, sent: SentPacket) -> Result<Option<Packet>, Fault>
        ensures found { IfOk result (IsSentPacket C.known self.now sent) }
        ensures err { IsOkUnless result Fault.NoMemory }
    {
        let found = self
            .chains
            .packet(sent.chain, &sent.port, &sent.channel, sent.sequence);
        drop(sent);
        found.map_err(Fault::no_memory)
    }

    /// The acknowledgement of a packet that a chain wrote, `None` where it wrote none.
    fn written_ack(&self, chain: u8, packet: &Packet) -> Result<Option<Bytes>, Fault>
        ensures found { IfOk result (IsAckOf C.known self.now chain packet.now) }
        ensures err { IsOkUnless result Fault.NoMemory }
    {
        self.chains
            .ack(
                chain,
                &packet.destination_port,
                &packet.destination_channel,
                packet.sequence,
            )
            .map_err(Fault::no_memory)
    }

    /// What shows on an ordered channel that a packet wasn't received.
    fn ordered_unreceived(
        &self,
        packet: &Packet,
        from: ProofSource,
    ) -> Result<Option<Unreceived>, Fault>
        ensures is { IfOk result (IsUnreceived (findings C.known self.now) from packet.now Ordered) }
        ensures err { IsOkUnless result Fault.NoMemory }
    {
        match self.found(from, next_recv_key(packet)?)? {
            Some(proof) => {
                let shown = next_recv_of(self.alloc, &proof);
                drop(proof);
                shown
            }
            None => Ok(None),
        }
    }

    /// What shows on an unordered channel that a packet wasn't received.
    fn unordered_unreceived(
        &self,
        packet: &Packet,
        from: ProofSource,
    ) -> Result<Option<Unreceived>, Fault>
        ensures is { IfOk result (IsUnreceived (findings C.known self.now) from packet.now Unordered) }
        ensures err { IsOkUnless result Fault.NoMemory }
    {
        match self.proof(from, receipt_key(packet)?)? {
            Some(proof) => Ok(Some(Unreceived {
                next_recv: 0,
                proof,
            })),
            None => Ok(None),
        }
    }

    /// What shows that a packet wasn't received, by the order of the own end, `None` where there is none.
    fn unreceived(
        &self,
        on: u8,
        packet: &Packet,
        from: ProofSource,
    ) -> Result<Option<Unreceived>, Fault>
        ensures is { IfOk result (IsMissed C.known self.now on from packet.now) }
        ensures err { IsOkUnless result Fault.NoMemory }
    {
        let own = self.own_end(on, &packet.source_port, &packet.source_channel)?;
        match own.map(|own| own.order) {
            Some(Order::Ordered) => self.ordered_unreceived(packet, from),
            Some(Order::Unordered) => self.unordered_unreceived(packet, from),
            None => Ok(None),
        }
    }

    // The proof that a packet was committed.
    fn commitment_proof(&self, packet: &Packet, from: ProofSource) -> Result<Option<Bytes>, Fault>
        ensures is { IfOk result (IsCommitmentProof C.known self.now from packet.now) }
        ensures err { IsOkUnless result Fault.NoMemory }
    {
        self.proof(from, commitment_key(packet)?)
    }

    // The proof of what a packet's destination has of its acknowledgement.
    fn ack_proof(&self, packet: &Packet, from: ProofSource) -> Result<Option<Bytes>, Fault>
        ensures is { IfOk result (IsAckProof C.known self.now from packet.now) }
        ensures err { IsOkUnless result Fault.NoMemory }
    {
        self.proof(from, ack_key(packet)?)
    }

    // The proof of the end of a packet's destination.
    fn close_proof(&self, packet: &Packet, from: ProofSource) -> Result<Option<Bytes>, Fault>
        ensures is { IfOk result (IsEndProof C.known self.now from packet.now) }
        ensures err { IsOkUnless result Fault.NoMemory }
    {
        self.proof(from, destination_key(packet)?)
    }

    // What shows how a packet was acknowledged.
    fn acknowledged(&self, packet: &Packet, from: ProofSource) -> Result<Acknowledged, Fault>
        ensures ack { IfOk result (λ shown. IsAckOf C.known self.now from.chain packet.now shown.ack) }
        ensures proof { IfOk result (λ shown. IsAckProof C.known self.now from packet.now shown.proof) }
        ensures err { IsOkUnless result Fault.NoMemory }
    {
        let ack = self.written_ack(from.chain, packet)?;
        match self.ack_proof(packet, from) {
            Ok(proof) => Ok(Acknowledged { ack, proof }),
            Err(fault) => {
                drop(ack);
                Err(fault)
            }
        }
    }

    // What shows that a packet won't be received any more.
    fn closed(&self, on: u8, packet: &Packet, from: ProofSource) -> Result<Closed, Fault>
        ensures unreceived { IfOk result (λ s. IsMissed C.known self.now on from packet.now s.unreceived) }
        ensures proof { IfOk result (λ shown. IsEndProof C.known self.now from packet.now shown.proof) }
        ensures err { IsOkUnless result Fault.NoMemory }
    {
        let unreceived = self.unreceived(on, packet, from)?;
        match self.close_proof(packet, from) {
            Ok(proof) => Ok(Closed { unreceived, proof }),
            Err(fault) => {
                drop(unreceived);
                Err(fault)
            }
        }
    }

    fn recv_packet(&self, packet: Packet, from: ProofSource) -> Result<Option<Message>, Fault>
        ensures made { IfOk result (MakesRecv (findings C.known self.now) from packet) }
        ensures err { IsOkUnless result Fault.NoMemory }
    {
        match self.commitment_proof(&packet, from) {
            Ok(Some(proof)) => Ok(Some(Message::RecvPacket(RecvPacket {
                packet,
                height: from.height,
                proof,
            }))),
            Ok(None) => {
                drop(packet);
                Ok(None)
            }
            Err(fault) => {
                drop(packet);
                Err(fault)
            }
        }
    }

    fn ack_packet(&self, packet: Packet, from: ProofSource) -> Result<Option<Message>, Fault>
        ensures made { IfOk result (MakesAck (findings C.known self.now) from packet) }
        ensures err { IsOkUnless result Fault.NoMemory }
    {
        match self.acknowledged(&packet, from) {
            Ok(shown) => Ok(ack_message(packet, from.height, shown)),
            Err(fault) => {
                drop(packet);
                Err(fault)
            }
        }
    }

    fn timeout(&self, on: u8, packet: Packet, from: ProofSource) -> Result<Option<Message>, Fault>
        ensures made { IfOk result (MakesTimeout (findings C.known self.now) on from packet) }
        ensures err { IsOkUnless result Fault.NoMemory }
    {
        match self.unreceived(on, &packet, from) {
            Ok(Some(shown)) => Ok(Some(Message::Timeout(Timeout {
                packet,
                next_recv: shown.next_recv,
                height: from.height,
                proof: shown.proof,
            }))),
            Ok(None) => {
                drop(packet);
                Ok(None)
            }
            Err(fault) => {
                drop(packet);
                Err(fault)
            }
        }
    }

    fn timeout_on_close(
        &self,
        on: u8,
        packet: Packet,
        from: ProofSource,
    ) -> Result<Option<Message>, Fault>
        ensures made { IfOk result (MakesTimeoutOnClose (findings C.known self.now) on from packet) }
        ensures err { IsOkUnless result Fault.NoMemory }
    {
        match self.closed(on, &packet, from) {
            Ok(shown) => Ok(timeout_on_close_message(packet, from.height, shown)),
            Err(fault) => {
                drop(packet);
                Err(fault)
            }
        }
    }

    // The message that handles a packet with proofs of a height.
    fn handled(
        &self,
        on: u8,
        handling: PacketAction,
        packet: Packet,
        from: ProofSource,
    ) -> Result<Option<Message>, Fault>
        ensures made { IfOk result (MakesPacketAction (findings C.known self.now) on handling from packet) }
        ensures err { IsOkUnless result Fault.NoMemory }
    {
        match handling {
            PacketAction::Recv => self.recv_packet(packet, from),
            PacketAction::Ack => self.ack_packet(packet, from),
            PacketAction::Timeout => self.timeout(on, packet, from),
            PacketAction::TimeoutOnClose => self.timeout_on_close(on, packet, from),
        }
    }

    // The message that handles the packet that a step names, `None` where it wasn't sent.
    fn handled_if_sent(
        &self,
        on: u8,
        handling: PacketAction,
        sent: SentPacket,
        from: ProofSource,
    ) -> Result<Option<Message>, Fault>
        ensures made { IfOk result (MakesIfSent C.known self.now sent on handling from) }
        ensures err { IsOkUnless result Fault.NoMemory }
    {
        match self.sent_packet(sent)? {
            Some(packet) => self.handled(on, handling, packet, from),
            None => Ok(None),
        }
    }

    /// The message for packets that a step of a chain sends, `None` where something that it needs isn't there.
    /// Fault: `NoMemory`.
    pub fn packet_message(&self, on: u8, draft: PacketDraft) -> Result<Option<Message>, Fault>
        ensures made { IfOk result (MakesPacketMessage (findings C.known self.now) on draft) }
        ensures err { IsOkUnless result Fault.NoMemory }
    {
        match draft {
            PacketDraft::Transfer(message) => Ok(Some(Message::Transfer(message))),
            PacketDraft::TransferMany(message) => Ok(Some(Message::TransferMany(message))),
            PacketDraft::SendNote(message) => Ok(Some(Message::SendNote(message))),
            PacketDraft::Recv { packet, height } => {
                let from = ProofSource {
                    chain: packet.chain,
                    height,
                };
                self.handled_if_sent(on, PacketAction::Recv, packet, from)
            }
            PacketDraft::Ack { packet, from } => {
                self.handled_if_sent(on, PacketAction::Ack, packet, from)
            }
            PacketDraft::Timeout { packet, from } => {
                self.handled_if_sent(on, PacketAction::Timeout, packet, from)
            }
            PacketDraft::TimeoutOnClose { packet, from } => {
                self.handled_if_sent(on, PacketAction::TimeoutOnClose, packet, from)
            }
        }
    }
}
