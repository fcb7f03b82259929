//! What messages of packets claim of the peer.

ghost use Rattle.std.specs.Prelude.{◌≡◌, IfOk, IsOkUnless};
ghost use Rattle.ibc_ids.specs.declared.refusal.Refusal.TheVariants.{NoMemory};
ghost use Rattle.ibc_machine.specs.ics04.Packets.{not_received};
ghost use Rattle.ibc_machine.specs.chain.Records.{commitment_of};
ghost use Rattle.ibc_machine.specs.ics24.Values.{value_bytes, CommitmentIs};
ghost use Rattle.ibc_records.specs.ProofVerdicts.{IsShown};
ghost use Rattle.ibc_records.specs.OwnEnds.{KnowsHeight, IsConnectionAt};
ghost use Rattle.ibc_records.specs.PacketClaims.{IsSentShown, IsAckShown, IsClosedShown};

use crate::{
    Channel, Commitment, Records, ack_value, check_absent_with, check_claim_with,
    check_present_with, claim_peer, commitment_value,
};
use ibc_ics23_proof::NodeMemory;
use ibc_ids::{Bytes, ClientId, Key, Refusal};
use ibc_merkle::Proof;
use ibc_wire::{AckPacket, ChannelState, ConnectionEnd, Packet, RecvPacket, TimeoutOnClose};
use std::alloc::Global;

/// The peer committed to the packet, or else `BadProof`; `NoMemory`.
pub fn check_sent(
    alloc: Global,
    records: &Records,
    memory: &mut NodeMemory,
    client: &ClientId,
    message: &RecvPacket,
    proof: &Proof,
) -> Result<(), Refusal>
    requires { KnowsHeight records.now client.now message.now.height }
    ensures { IsSentShown records.now client.now message.now proof.now result }
{
    let packet = &message.packet;
    let value = sent_value(alloc, packet)?;
    let key = Key::Commitment(
        packet.source_port.clone()?,
        packet.source_channel.clone()?,
        packet.sequence,
    );
    let value = value.as_slice();
    check_present_with(
        alloc,
        records,
        memory,
        client,
        message.height,
        &key,
        value,
        proof,
    )
}

// The bytes that are committed of a packet.
fn sent_value(alloc: Global, packet: &Packet) -> Result<Bytes, Refusal>
    ensures ok { IfOk result (λ bytes. bytes ≡ value_bytes (CommitmentIs (commitment_of packet.now))) }
    ensures err { IsOkUnless result NoMemory }
{
    let commitment = Commitment {
        payload: packet.payload.clone()?,
        timeout_height: packet.timeout_height,
        timeout_time: packet.timeout_time,
    };
    commitment_value(alloc, &commitment)
}

/// The peer acknowledged the packet so, or else `BadProof`; `NoMemory`.
pub fn check_acknowledged(
    alloc: Global,
    records: &Records,
    memory: &mut NodeMemory,
    client: &ClientId,
    message: &AckPacket,
    proof: &Proof,
) -> Result<(), Refusal>
    requires { KnowsHeight records.now client.now message.now.height }
    ensures { IsAckShown records.now client.now message.now proof.now result }
{
    let packet = &message.packet;
    let value = ack_value(alloc, message.ack.as_slice())?;
    let key = Key::Acknowledgement(
        packet.destination_port.clone()?,
        packet.destination_channel.clone()?,
        packet.sequence,
    );
    let value = value.as_slice();
    check_present_with(
        alloc,
        records,
        memory,
        client,
        message.height,
        &key,
        value,
        proof,
    )
}

/// The peer hasn't received the packet, or else `BadProof`; `NoMemory`. A peer whose end is ordered receives the sequence
/// `next_recv` next; otherwise it has no receipt of the packet.
pub fn check_not_received(
    alloc: Global,
    records: &Records,
    memory: &mut NodeMemory,
    client: &ClientId,
    height: u64,
    mine: &Channel,
    packet: &Packet,
    next_recv: u64,
    proof: &Proof,
) -> Result<(), Refusal>
    requires { KnowsHeight records.now client.now height }
    ensures { IsShown records.now client.now height (not_received mine.now packet.now next_recv) proof.now result }
{
    let port = packet.destination_port.clone()?;
    let channel = packet.destination_channel.clone()?;
    if mine.is_ordered() {
        let key = Key::NextSequenceRecv(port, channel);
        let value = next_recv.to_be_bytes();
        check_present_with(alloc, records, memory, client, height, &key, &value, proof)
    } else {
        let key = Key::Receipt(port, channel, packet.sequence);
        check_absent_with(alloc, records, memory, client, height, &key, proof)
    }
}

/// The peer's end of the packet's channel is closed, or else `BadProof`; `NoMemory`.
pub fn check_closed(
    alloc: Global,
    records: &Records,
    memory: &mut NodeMemory,
    connection: &ConnectionEnd,
    mine: &Channel,
    message: &TimeoutOnClose,
    proof: &Proof,
) -> Result<(), Refusal>
    requires there { IsConnectionAt records.now mine.now.end.connection connection.now }
    requires known { KnowsHeight records.now connection.now.client message.now.height }
    ensures { IsClosedShown records.now mine.now message.now proof.now result }
{
    let packet = &message.packet;
    let end = mine.end();
    let peer = packet.destination_channel.as_str();
    let port = &packet.source_port;
    let channel = packet.source_channel.as_str();
    let state = ChannelState::Closed;
    let claim = claim_peer(alloc, end, connection, peer, port, channel, state)?;
    check_claim_with(
        records,
        memory,
        &connection.client,
        message.height,
        &claim,
        proof,
    )
}
