//! Timeouts.

ghost use Rattle.std.specs.Prelude.{◌≡◌, true, Some, IfOk};
ghost use Rattle.ibc_ids.specs.declared.refusal.Refusal.TheVariants.{NotTimedOut};
ghost use Rattle.ibc_wire.specs.Reading.{proof_of};
ghost use Rattle.ibc_machine.specs.chain.Checks.{require};
ghost use Rattle.ibc_machine.specs.ics04.Packets as plain;
ghost use Rattle.ibc_machine.specs.ics04.Packets.{timeout_checked, waits_for};
ghost use Rattle.ibc_records.specs.ProofVerdicts.{IsEvident, IsJudgedEnd};
ghost use Rattle.ibc_records.specs.TimeoutChecks.{require_timed_out};
ghost use Rattle.ibc_records.specs.OwnEnds.{IsSourceEnd, KnowsHeight};
ghost use Rattle.ibc_records.specs.PacketHandlers.{HandlesTimeout};

use crate::claims::check_not_received;
use crate::ends::{check_pending, find_channel, known_over};
use crate::forms::{has_form, proof_in_form};
use crate::times::is_timed_out;
use crate::{App, Channel, Records, known_time};
use ibc_ics23_proof::NodeMemory;
use ibc_ids::{ClientId, Refusal};
use ibc_merkle::Proof;
use ibc_wire::{Packet, Timeout};
use std::alloc::Global;

/// Tells the application of a port that the peer hasn't received a packet that was sent from there in time, and removes
/// the packet's commitment; an ordered channel is closed (ICS 4, "timeoutPacket"). Refused, by the first check that fails:
/// `BadMessage` where the packet hasn't the form of packets, or the proof can't be read; `UnknownChannel`; `WrongState`
/// where the end is neither in `Open` nor in `Closed`; `WrongPeer` where its peer isn't the packet's destination;
/// `NoCommitment` where the packet's own commitment doesn't stand; `NoConsensus` where the connection's client doesn't know
/// the height; `NotTimedOut` where no timeout is reached there, or an ordered peer is past the packet; `BadProof` where the
/// proof doesn't show that the peer hasn't received it; as the application refuses, `Poor`. `NoMemory` where a growth is
/// refused. A refusal leaves the records and the application.
pub fn timeout<A: App>(
    alloc: Global,
    records: &mut Records,
    app: &mut A,
    message: &Timeout,
) -> Result<(), Refusal>
    ensures { HandlesTimeout A.times_out message.now records.old app.old result records.new app.new }
{
    let mut memory = records.take_memory();
    let answer = timeout_with(alloc, records, &mut memory, app, message);
    records.keep_memory(memory);
    answer
}

// The same with the hashes of nodes that the records remember.
fn timeout_with<A: App>(
    alloc: Global,
    records: &mut Records,
    memory: &mut NodeMemory,
    app: &mut A,
    message: &Timeout,
) -> Result<(), Refusal>
    ensures { HandlesTimeout A.times_out message.now records.old app.old result records.new app.new }
{
    let form = has_form(&message.packet);
    let proof = proof_in_form(alloc, form, message.proof.as_slice())?;
    let judged = judge_timeout(alloc, records, memory, message, &proof);
    drop(proof);
    judged?;
    records.time_out(app, &message.packet)
}

// The checks, in their order, and the end that sent the packet.
fn judge_timeout<'a>(
    alloc: Global,
    records: &'a Records,
    memory: &mut NodeMemory,
    message: &Timeout,
    proof: &Proof,
) -> Result<&'a Channel, Refusal>
    requires form { plain.has_form message.now.packet ≡ true }
    requires reads { proof_of message.now.proof ≡ Some proof.now }
    ensures judged { IsJudgedEnd (timeout_checked message.now) records.now result }
    ensures there { IfOk result (λ mine. IsSourceEnd records.now message.now.packet mine.now) }
{
    let packet = &message.packet;
    let height = message.height;
    let next_recv = message.next_recv;
    let mine = find_channel(records, &packet.source_port, &packet.source_channel)?;
    check_pending(mine, packet)?;
    let connection = known_over(records, mine, height)?;
    let client = &connection.client;
    check_timed_out(records, client, height, packet)?;
    check_waiting(mine, next_recv, packet.sequence)?;
    check_not_received(
        alloc, records, memory, client, height, mine, packet, next_recv, proof,
    )?;
    Ok(mine)
}

// A timeout of the packet is reached at the height, which the client knows, or else `NotTimedOut`.
fn check_timed_out(
    records: &Records,
    client: &ClientId,
    height: u64,
    packet: &Packet,
) -> Result<(), Refusal>
    requires { KnowsHeight records.now client.now height }
    ensures { IsEvident records.now (require_timed_out client.now height packet.now) result }
{
    match known_time(records, client, height) {
        Some(time) if is_timed_out(packet, height, time) => Ok(()),
        _ => Err(Refusal::NotTimedOut),
    }
}

/// An ordered peer that receives `next_recv` next waits for the sequence or an earlier one, or else `NotTimedOut`.
pub fn check_waiting(mine: &Channel, next_recv: u64, sequence: u64) -> Result<(), Refusal>
    ensures { result ≡ require (waits_for mine.now next_recv sequence) NotTimedOut }
{
    if mine.is_ordered() && sequence < next_recv {
        Err(Refusal::NotTimedOut)
    } else {
        Ok(())
    }
}
