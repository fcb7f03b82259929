//! The messages about packets, with their proofs.

ghost use Rattle.std.specs.Prelude.{◌≡◌, ◌<◌, Some, IfOk, IsOkUnless};
ghost use Rattle.ibc_ids.specs.declared.refusal.Refusal.TheVariants.{NoMemory};
ghost use Rattle.ibc_machine.specs.ics18.Relay.{proof_at, next_recv};
ghost use Rattle.ibc_relayer.specs.EndPackets.{IsClosedProof, closed_proof, packet_between};
ghost use Rattle.ibc_relayer.specs.PlannedEnds.{receive_message_for, ack_message_for, timeout_message_for, IsRecvMessage, IsAckMessage, IsTimeoutMessage, IsTimeoutOnCloseMessage, proof_of_commitment, proof_of_ack, proof_of_unreceived};

use crate::due::{has_received, is_timed_out, is_to_receive};
use crate::ends::Ends;
use ibc_ids::{Bytes, ChannelId, Key, PortId, Refusal};
use ibc_records::Commitment;
use ibc_wire::{AckPacket, ChannelState, Message, Packet, RecvPacket, Timeout, TimeoutOnClose};
use std::alloc::Global;

impl Ends<'_> {
    /// The message that has a packet received that the peer sent, if it is due (ICS 4, "recvPacket"). `NoMemory`.
    pub fn receive(
        &self,
        alloc: Global,
        sequence: u64,
        commitment: &Commitment,
    ) -> Result<Option<Message>, Refusal>
        requires height { 0 < self.now.a.now.height }
        requires peer { self.now.mine.now.end.peer_channel ≡ Some self.now.peer.now }
        ensures ok { IfOk result (λ made. made ≡ receive_message_for self.now sequence commitment.now) }
        ensures err { IsOkUnless result NoMemory }
    {
        if !is_to_receive(self.b, self.mine, sequence, commitment) {
            return Ok(None);
        }
        Ok(Some(self.recv_message(alloc, sequence, commitment)?))
    }

    /// The message that tells the end of a packet's acknowledgement, if the peer wrote one (ICS 4, "acknowledgePacket").
    /// `NoMemory`.
    pub fn acknowledge(
        &self,
        alloc: Global,
        sequence: u64,
        commitment: &Commitment,
    ) -> Result<Option<Message>, Refusal>
        requires height { 0 < self.now.a.now.height }
        requires peer { self.now.mine.now.end.peer_channel ≡ Some self.now.peer.now }
        ensures ok { IfOk result (λ made. made ≡ ack_message_for self.now sequence commitment.now) }
        ensures err { IsOkUnless result NoMemory }
    {
        match self.theirs.ack(sequence) {
            Some(ack) => Ok(Some(self.ack_message(alloc, sequence, commitment, ack)?)),
            None => Ok(None),
        }
    }

    /// The message that ends a packet that won't be received any more, if it is so: it is too late for it, or the peer is
    /// CLOSED (ICS 4, "timeoutPacket" and "timeoutOnClose"). The proof of the peer's end is made once and then kept. `NoMemory`.
    pub fn time_out(
        &self,
        alloc: Global,
        sequence: u64,
        commitment: &Commitment,
        closed: &mut Option<Bytes>,
    ) -> Result<Option<Message>, Refusal>
        requires height { 0 < self.now.a.now.height }
        requires peer { self.now.mine.now.end.peer_channel ≡ Some self.now.peer.now }
        requires closed { IsClosedProof self.now.a.now self.now.mine.now closed.old }
        ensures closed { IsClosedProof self.now.a.now self.now.mine.now closed.new }
        ensures ok { IfOk result (λ made. made ≡ timeout_message_for self.now sequence commitment.now) }
        ensures err { IsOkUnless result NoMemory }
    {
        if has_received(self.theirs, sequence) {
            return Ok(None);
        }
        if is_timed_out(commitment, self.height(), self.a.time()) {
            return Ok(Some(self.timeout(alloc, sequence, commitment)?));
        }
        if self.theirs.end().state == ChannelState::Closed {
            let message = self.timeout_on_close(alloc, sequence, commitment, closed)?;
            return Ok(Some(message));
        }
        Ok(None)
    }

    // The message that has a packet received.
    fn recv_message(
        &self,
        alloc: Global,
        sequence: u64,
        commitment: &Commitment,
    ) -> Result<Message, Refusal>
        requires height { 0 < self.now.a.now.height }
        requires peer { self.now.mine.now.end.peer_channel ≡ Some self.now.peer.now }
        ensures ok { IfOk result (λ made. IsRecvMessage self.now sequence commitment.now made) }
        ensures err { IsOkUnless result NoMemory }
    {
        let proof = self.committed(alloc, sequence)?;
        let port = self.peer_port();
        let packet = packet(
            port,
            self.peer,
            self.port,
            self.channel,
            sequence,
            commitment,
        )?;
        Ok(Message::RecvPacket(RecvPacket {
            packet,
            height: self.height(),
            proof,
        }))
    }

    // The message that tells of a packet's acknowledgement.
    fn ack_message(
        &self,
        alloc: Global,
        sequence: u64,
        commitment: &Commitment,
        ack: &Bytes,
    ) -> Result<Message, Refusal>
        requires height { 0 < self.now.a.now.height }
        requires peer { self.now.mine.now.end.peer_channel ≡ Some self.now.peer.now }
        ensures ok { IfOk result (λ made. IsAckMessage self.now sequence commitment.now ack.now made) }
        ensures err { IsOkUnless result NoMemory }
    {
        let proof = self.acknowledged(alloc, sequence)?;
        let ack = ack.clone()?;
        let port = self.peer_port();
        let packet = packet(
            self.port,
            self.channel,
            port,
            self.peer,
            sequence,
            commitment,
        )?;
        Ok(Message::AckPacket(AckPacket {
            packet,
            ack,
            height: self.height(),
            proof,
        }))
    }

    // The message that ends a packet for which it is too late.
    fn timeout(
        &self,
        alloc: Global,
        sequence: u64,
        commitment: &Commitment,
    ) -> Result<Message, Refusal>
        requires height { 0 < self.now.a.now.height }
        requires peer { self.now.mine.now.end.peer_channel ≡ Some self.now.peer.now }
        ensures ok { IfOk result (λ made. IsTimeoutMessage self.now sequence commitment.now made) }
        ensures err { IsOkUnless result NoMemory }
    {
        let proof = self.unreceived(alloc, sequence)?;
        let port = self.peer_port();
        let packet = packet(
            self.port,
            self.channel,
            port,
            self.peer,
            sequence,
            commitment,
        )?;
        Ok(Message::Timeout(Timeout {
            packet,
            next_recv: self.next_recv(),
            height: self.height(),
            proof,
        }))
    }

    // The message that ends a packet whose peer is CLOSED.
    fn timeout_on_close(
        &self,
        alloc: Global,
        sequence: u64,
        commitment: &Commitment,
        closed: &mut Option<Bytes>,
    ) -> Result<Message, Refusal>
        requires height { 0 < self.now.a.now.height }
        requires peer { self.now.mine.now.end.peer_channel ≡ Some self.now.peer.now }
        requires closed { IsClosedProof self.now.a.now self.now.mine.now closed.old }
        ensures closed { IsClosedProof self.now.a.now self.now.mine.now closed.new }
        ensures ok { IfOk result (λ made. IsTimeoutOnCloseMessage self.now sequence commitment.now made) }
        ensures err { IsOkUnless result NoMemory }
    {
        let proof = self.unreceived(alloc, sequence)?;
        let proof_close = self.closed(alloc, closed)?;
        let port = self.peer_port();
        let packet = packet(
            self.port,
            self.channel,
            port,
            self.peer,
            sequence,
            commitment,
        )?;
        Ok(Message::TimeoutOnClose(TimeoutOnClose {
            packet,
            next_recv: self.next_recv(),
            height: self.height(),
            proof,
            proof_close,
        }))
    }

    // The proof that the peer has committed to a packet.
    fn committed(&self, alloc: Global, sequence: u64) -> Result<Bytes, Refusal>
        requires height { 0 < self.now.a.now.height }
        requires peer { self.now.mine.now.end.peer_channel ≡ Some self.now.peer.now }
        ensures ok { IfOk result (λ proof. proof ≡ proof_of_commitment self.now sequence) }
        ensures err { IsOkUnless result NoMemory }
    {
        let port = self.peer_port().clone()?;
        let channel = self.peer.clone()?;
        self.proof(alloc, Key::Commitment(port, channel, sequence))
    }

    // The proof of the peer's acknowledgement of a packet.
    fn acknowledged(&self, alloc: Global, sequence: u64) -> Result<Bytes, Refusal>
        requires height { 0 < self.now.a.now.height }
        requires peer { self.now.mine.now.end.peer_channel ≡ Some self.now.peer.now }
        ensures ok { IfOk result (λ proof. proof ≡ proof_of_ack self.now sequence) }
        ensures err { IsOkUnless result NoMemory }
    {
        let port = self.peer_port().clone()?;
        let channel = self.peer.clone()?;
        self.proof(alloc, Key::Acknowledgement(port, channel, sequence))
    }

    // The proof of the peer's end. Where one is kept it is copied, and a new one is kept where memory is there for a copy.
    fn closed(&self, alloc: Global, kept: &mut Option<Bytes>) -> Result<Bytes, Refusal>
        requires height { 0 < self.now.a.now.height }
        requires peer { self.now.mine.now.end.peer_channel ≡ Some self.now.peer.now }
        requires kept { IsClosedProof self.now.a.now self.now.mine.now kept.old }
        ensures kept { IsClosedProof self.now.a.now self.now.mine.now kept.new }
        ensures ok { IfOk result (λ proof. proof ≡ closed_proof self.now.a.now self.now.mine.now) }
        ensures err { IsOkUnless result NoMemory }
    {
        if let Some(proof) = kept {
            return Ok(proof.clone()?);
        }
        let proof = self.new_closed(alloc)?;
        *kept = proof.clone().ok();
        Ok(proof)
    }

    // A new proof of the peer's end.
    fn new_closed(&self, alloc: Global) -> Result<Bytes, Refusal>
        requires height { 0 < self.now.a.now.height }
        requires peer { self.now.mine.now.end.peer_channel ≡ Some self.now.peer.now }
        ensures ok { IfOk result (λ proof. proof ≡ closed_proof self.now.a.now self.now.mine.now) }
        ensures err { IsOkUnless result NoMemory }
    {
        let port = self.peer_port().clone()?;
        let channel = self.peer.clone()?;
        self.proof(alloc, Key::ChannelEnd(port, channel))
    }

    // The proof that shows whether the peer has received a sequence.
    fn unreceived(&self, alloc: Global, sequence: u64) -> Result<Bytes, Refusal>
        requires height { 0 < self.now.a.now.height }
        requires peer { self.now.mine.now.end.peer_channel ≡ Some self.now.peer.now }
        ensures ok { IfOk result (λ proof. proof ≡ proof_of_unreceived self.now sequence) }
        ensures err { IsOkUnless result NoMemory }
    {
        let port = self.peer_port().clone()?;
        let channel = self.peer.clone()?;
        let key = if self.mine.is_ordered() {
            Key::NextSequenceRecv(port, channel)
        } else {
            Key::Receipt(port, channel, sequence)
        };
        self.proof(alloc, key)
    }

    // The proof of what the peer's chain has at a key.
    fn proof(&self, alloc: Global, key: Key) -> Result<Bytes, Refusal>
        requires { 0 < self.now.a.now.height }
        ensures ok { IfOk result (λ proof. proof ≡ proof_at self.now.a.now key) }
        ensures err { IsOkUnless result NoMemory }
    {
        let proof = self.a.prove(alloc, &key);
        drop(key);
        proof
    }

    // The height from which the peer's chain proves.
    fn height(&self) -> u64
        ensures { result ≡ self.now.a.now.height }
    {
        self.a.height()
    }

    // The sequence that an ordered peer receives next.
    fn next_recv(&self) -> u64
        ensures { result ≡ next_recv self.now.mine.now self.now.theirs.now }
    {
        if self.mine.is_ordered() {
            self.theirs.next_recv()
        } else {
            0
        }
    }
}

// The packet of a sequence from an end to another.
fn packet(
    source_port: &PortId,
    source_channel: &ChannelId,
    destination_port: &PortId,
    destination_channel: &ChannelId,
    sequence: u64,
    commitment: &Commitment,
) -> Result<Packet, Refusal>
    ensures ok { IfOk result (λ p. p ≡ packet_between (source_port.now, source_channel.now) (destination_port.now, destination_channel.now) sequence commitment.now) }
    ensures err { IsOkUnless result NoMemory }
{
    Ok(Packet {
        sequence,
        timeout_height: commitment.timeout_height,
        timeout_time: commitment.timeout_time,
        source_port: source_port.clone()?,
        source_channel: source_channel.clone()?,
        destination_port: destination_port.clone()?,
        destination_channel: destination_channel.clone()?,
        payload: commitment.payload.clone()?,
    })
}
