//! Receiving packets.

ghost use Rattle.std.specs.Prelude.{◌≡◌, true, Some, IfOk};
ghost use Rattle.ibc_wire.specs.Reading.{proof_of};
ghost use Rattle.ibc_machine.specs.ics04.Packets as plain;
ghost use Rattle.ibc_machine.specs.ics04.Packets.{recv_checked};
ghost use Rattle.ibc_records.specs.OwnEnds.{IsDestinationEnd, IsAwaited};
ghost use Rattle.ibc_records.specs.PacketHandlers.{HandlesRecv, IsReceivable};
ghost use Rattle.ibc_records.specs.ProofVerdicts.{IsJudgedEnd};

use crate::claims::check_sent;
use crate::ends::{find_channel, has_peer, is_open, is_repeat, known_over, waits_before};
use crate::forms::{has_form, proof_in_form};
use crate::times::is_late;
use crate::{App, Channel, Records};
use ibc_ics23_proof::NodeMemory;
use ibc_ids::{Bytes, Refusal};
use ibc_merkle::Proof;
use ibc_wire::{Packet, RecvPacket};
use std::alloc::Global;

/// Receives a packet that the peer sent, hands it to the application of its port, and writes the acknowledgement, which it
/// answers twice (ICS 4, "recvPacket"). Refused, by the first check that fails: `BadMessage` where the packet hasn't the
/// form of packets, or the proof can't be read; `UnknownChannel`; `WrongState` where the end isn't in `Open`; `WrongPeer`
/// where its peer isn't the packet's source; `TimeoutPassed` where a timeout is reached in the working block;
/// `AlreadyReceived` where a receipt stands, or an ordered end has gone past the sequence; `OutOfOrder` where an ordered end receives another sequence next; `NoConsensus` where the
/// connection's client doesn't know the height; `BadProof` where the proof doesn't show the packet's commitment. `NoMemory`
/// where a growth is refused. A refusal leaves the records and the application.
pub fn recv<A: App>(
    alloc: Global,
    records: &mut Records,
    app: &mut A,
    message: &RecvPacket,
) -> Result<(Bytes, Bytes), Refusal>
    ensures answer { HandlesRecv A.receives message.now records.old app.old result records.new app.new }
    ensures copy { IfOk result (λ acks. acks.1 ≡ acks.0) }
{
    let mut memory = records.take_memory();
    let answer = recv_with(alloc, records, &mut memory, app, message);
    records.keep_memory(memory);
    answer
}

// The same with the hashes of nodes that the records remember.
fn recv_with<A: App>(
    alloc: Global,
    records: &mut Records,
    memory: &mut NodeMemory,
    app: &mut A,
    message: &RecvPacket,
) -> Result<(Bytes, Bytes), Refusal>
    ensures answer { HandlesRecv A.receives message.now records.old app.old result records.new app.new }
    ensures copy { IfOk result (λ acks. acks.1 ≡ acks.0) }
{
    let form = has_form(&message.packet);
    let proof = proof_in_form(alloc, form, message.proof.as_slice())?;
    let judged = judge_recv(alloc, records, memory, message, &proof);
    drop(proof);
    judged?;
    records.receive(app, &message.packet)
}

// The checks, in their order, and the end that receives.
fn judge_recv<'a>(
    alloc: Global,
    records: &'a Records,
    memory: &mut NodeMemory,
    message: &RecvPacket,
    proof: &Proof,
) -> Result<&'a Channel, Refusal>
    requires form { plain.has_form message.now.packet ≡ true }
    requires reads { proof_of message.now.proof ≡ Some proof.now }
    ensures judged { IsJudgedEnd (recv_checked message.now) records.now result }
    ensures there { IfOk result (λ mine. IsDestinationEnd records.now message.now.packet mine.now) }
    ensures next { IfOk result (λ mine. IsAwaited mine.now message.now.packet.sequence) }
{
    let packet = &message.packet;
    let mine = find_channel(
        records,
        &packet.destination_port,
        &packet.destination_channel,
    )?;
    check_receivable(records, mine, packet)?;
    let connection = known_over(records, mine, message.height)?;
    check_sent(alloc, records, memory, &connection.client, message, proof)?;
    Ok(mine)
}

// The end may receive the packet in the working block.
#[tactic(auto, unfolding(ibc_machine::specs::chain::Checks::and_then))]
fn check_receivable(records: &Records, mine: &Channel, packet: &Packet) -> Result<(), Refusal>
    ensures checked { IsReceivable records.now mine.now packet.now result }
    ensures next { IfOk result (λ _. IsAwaited mine.now packet.now.sequence) }
{
    if !is_open(mine) {
        return Err(Refusal::WrongState);
    }
    if !has_peer(mine, &packet.source_port, &packet.source_channel) {
        return Err(Refusal::WrongPeer);
    }
    if is_late(records, packet) {
        return Err(Refusal::TimeoutPassed);
    }
    if is_repeat(mine, packet.sequence) {
        return Err(Refusal::AlreadyReceived);
    }
    if waits_before(mine, packet.sequence) {
        return Err(Refusal::OutOfOrder);
    }
    Ok(())
}
