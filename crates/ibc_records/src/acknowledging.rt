//! Taking acknowledgements.

ghost use Rattle.std.specs.Prelude.{◌≡◌, ◌&&◌, ◌-◌, ◌^◌, ◌<◌, true, Some, IfOk};
ghost use Rattle.ibc_wire.specs.Reading.{proof_of};
ghost use Rattle.ibc_machine.specs.ics04.Packets as plain;
ghost use Rattle.ibc_machine.specs.ics04.Packets.{may_acknowledge, ack_checked};
ghost use Rattle.ibc_records.specs.OwnEnds.{IsSourceEnd, IsNextAck};
ghost use Rattle.ibc_records.specs.PacketHandlers.{HandlesAck};
ghost use Rattle.ibc_records.specs.ProofVerdicts.{IsJudgedEnd};

use crate::claims::check_acknowledged;
use crate::ends::{find_channel, has_peer, is_committed, is_open, known_over};
use crate::forms::{has_form, has_size, proof_in_form};
use crate::{App, Channel, Records};
use ibc_ics23_proof::NodeMemory;
use ibc_ids::Refusal;
use ibc_merkle::Proof;
use ibc_wire::{AckPacket, Packet};
use std::alloc::Global;

/// Tells the application of a port how the peer acknowledged a packet that was sent from there, and removes the packet's
/// commitment (ICS 4, "acknowledgePacket"). Refused, by the first check that fails: `BadMessage` where the packet or the
/// acknowledgement hasn't its form, or the proof can't be read; `UnknownChannel`; `WrongState` where the end isn't in
/// `Open`; `WrongPeer` where its peer isn't the packet's destination; `NoCommitment` where the packet's own commitment
/// doesn't stand; `OutOfOrder` where an ordered end takes another acknowledgement next; `NoConsensus` where the connection's
/// client doesn't know the height; `BadProof` where the proof doesn't show the acknowledgement; as the application refuses,
/// `Poor`. `NoMemory` where a growth is refused. A refusal leaves the records and the application.
pub fn acknowledge<A: App>(
    alloc: Global,
    records: &mut Records,
    app: &mut A,
    message: &AckPacket,
) -> Result<(), Refusal>
    ensures { HandlesAck A.is_acknowledged message.now records.old app.old result records.new app.new }
{
    let mut memory = records.take_memory();
    let answer = acknowledge_with(alloc, records, &mut memory, app, message);
    records.keep_memory(memory);
    answer
}

// The same with the hashes of nodes that the records remember.
fn acknowledge_with<A: App>(
    alloc: Global,
    records: &mut Records,
    memory: &mut NodeMemory,
    app: &mut A,
    message: &AckPacket,
) -> Result<(), Refusal>
    ensures { HandlesAck A.is_acknowledged message.now records.old app.old result records.new app.new }
{
    let form = is_in_form(message);
    let proof = proof_in_form(alloc, form, message.proof.as_slice())?;
    let judged = judge_ack(alloc, records, memory, message, &proof);
    drop(proof);
    judged?;
    records.acknowledge(app, &message.packet, message.ack.as_slice())
}

// Whether the packet and the acknowledgement have their forms.
fn is_in_form(message: &AckPacket) -> bool
    ensures form { result ≡ (plain.has_form message.now.packet && plain.has_size message.now.ack) }
    ensures last { result ≡ true → message.now.packet.sequence < 2 ^ 64 - 1 }
{
    has_form(&message.packet) && has_size(message.ack.as_slice())
}

// The checks, in their order, and the end that sent the packet.
fn judge_ack<'a>(
    alloc: Global,
    records: &'a Records,
    memory: &mut NodeMemory,
    message: &AckPacket,
    proof: &Proof,
) -> Result<&'a Channel, Refusal>
    requires form { (plain.has_form message.now.packet && plain.has_size message.now.ack) ≡ true }
    requires reads { proof_of message.now.proof ≡ Some proof.now }
    ensures judged { IsJudgedEnd (ack_checked message.now) records.now result }
    ensures there { IfOk result (λ mine. IsSourceEnd records.now message.now.packet mine.now) }
    ensures next { IfOk result (λ mine. IsNextAck mine.now message.now.packet.sequence) }
{
    let packet = &message.packet;
    let mine = find_channel(records, &packet.source_port, &packet.source_channel)?;
    check_acknowledgeable(mine, packet)?;
    let connection = known_over(records, mine, message.height)?;
    check_acknowledged(alloc, records, memory, &connection.client, message, proof)?;
    Ok(mine)
}

// The end may take the packet's acknowledgement.
#[tactic(auto, unfolding(ibc_machine::specs::chain::Checks::and_then))]
fn check_acknowledgeable(mine: &Channel, packet: &Packet) -> Result<(), Refusal>
    ensures checked { result ≡ may_acknowledge mine.now packet.now }
    ensures next { IfOk result (λ _. IsNextAck mine.now packet.now.sequence) }
{
    if !is_open(mine) {
        return Err(Refusal::WrongState);
    }
    if !has_peer(mine, &packet.destination_port, &packet.destination_channel) {
        return Err(Refusal::WrongPeer);
    }
    if !is_committed(mine, packet) {
        return Err(Refusal::NoCommitment);
    }
    if mine.is_ordered() && packet.sequence != mine.next_ack() {
        return Err(Refusal::OutOfOrder);
    }
    Ok(())
}
