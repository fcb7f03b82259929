//! Timeouts of packets to an end that is closed.

ghost use Rattle.std.specs.Prelude.{◌≡◌, true, Some, IfOk};
ghost use Rattle.ibc_wire.specs.Reading.{proof_of};
ghost use Rattle.ibc_machine.specs.ics04.Packets as plain;
ghost use Rattle.ibc_machine.specs.ics04.Packets.{timeout_on_close_checked};
ghost use Rattle.ibc_records.specs.OwnEnds.{IsSourceEnd};
ghost use Rattle.ibc_records.specs.PacketHandlers.{HandlesOnClose};
ghost use Rattle.ibc_records.specs.ProofVerdicts.{IsJudgedEnd};

use crate::claims::{check_closed, check_not_received};
use crate::ends::{check_pending, find_channel, known_over};
use crate::forms::{has_form, proof_in_form};
use crate::timing_out::check_waiting;
use crate::{App, Channel, Records, read_proof};
use ibc_ics23_proof::NodeMemory;
use ibc_ids::Refusal;
use ibc_merkle::Proof;
use ibc_wire::TimeoutOnClose;
use std::alloc::Global;

/// Tells the application of a port that the peer hasn't received a packet that was sent from there, and that the peer's end
/// is closed, and removes the packet's commitment; an ordered channel is closed (ICS 4, "timeoutOnClose"). Refused, by the
/// first check that fails: `BadMessage` where the packet hasn't the form of packets, or a proof can't be read;
/// `UnknownChannel`; `WrongState` where the end is neither in `Open` nor in `Closed`; `WrongPeer` where its peer isn't the
/// packet's destination; `NoCommitment` where the packet's own commitment doesn't stand; `NoConsensus` where the
/// connection's client doesn't know the height; `NotTimedOut` where an ordered peer is past the packet; `BadProof` where the
/// first proof doesn't show that the peer hasn't received it, or the second that the peer's end is closed; as the application
/// refuses, `Poor`. `NoMemory` where a growth is refused. A refusal leaves the records and the application.
pub fn timeout_on_close<A: App>(
    alloc: Global,
    records: &mut Records,
    app: &mut A,
    message: &TimeoutOnClose,
) -> Result<(), Refusal>
    ensures { HandlesOnClose A.times_out message.now records.old app.old result records.new app.new }
{
    let mut memory = records.take_memory();
    let answer = timeout_on_close_with(alloc, records, &mut memory, app, message);
    records.keep_memory(memory);
    answer
}

// The same with the hashes of nodes that the records remember.
fn timeout_on_close_with<A: App>(
    alloc: Global,
    records: &mut Records,
    memory: &mut NodeMemory,
    app: &mut A,
    message: &TimeoutOnClose,
) -> Result<(), Refusal>
    ensures { HandlesOnClose A.times_out message.now records.old app.old result records.new app.new }
{
    judge(alloc, records, memory, message)?;
    records.time_out(app, &message.packet)
}

// The checks, in their order, and the end that sent the packet.
fn judge<'a>(
    alloc: Global,
    records: &'a Records,
    memory: &mut NodeMemory,
    message: &TimeoutOnClose,
) -> Result<&'a Channel, Refusal>
    ensures judged { IsJudgedEnd (timeout_on_close_checked message.now) records.now result }
    ensures there { IfOk result (λ mine. IsSourceEnd records.now message.now.packet mine.now) }
{
    let form = has_form(&message.packet);
    let proof = proof_in_form(alloc, form, message.proof.as_slice())?;
    let proof_close = match read_proof(alloc, message.proof_close.as_slice()) {
        Ok(proof_close) => proof_close,
        Err(refusal) => {
            drop(proof);
            return Err(refusal);
        }
    };
    let judged = judge_closed(alloc, records, memory, message, &proof, &proof_close);
    drop(proof);
    drop(proof_close);
    judged
}

// The checks behind the form.
fn judge_closed<'a>(
    alloc: Global,
    records: &'a Records,
    memory: &mut NodeMemory,
    message: &TimeoutOnClose,
    proof: &Proof,
    proof_close: &Proof,
) -> Result<&'a Channel, Refusal>
    requires form { plain.has_form message.now.packet ≡ true }
    requires reads { proof_of message.now.proof ≡ Some proof.now }
    requires reads_close { proof_of message.now.proof_close ≡ Some proof_close.now }
    ensures judged { IsJudgedEnd (timeout_on_close_checked message.now) records.now result }
    ensures there { IfOk result (λ mine. IsSourceEnd records.now message.now.packet mine.now) }
{
    let packet = &message.packet;
    let height = message.height;
    let next_recv = message.next_recv;
    let mine = find_channel(records, &packet.source_port, &packet.source_channel)?;
    check_pending(mine, packet)?;
    let connection = known_over(records, mine, height)?;
    let client = &connection.client;
    check_waiting(mine, next_recv, packet.sequence)?;
    check_not_received(
        alloc, records, memory, client, height, mine, packet, next_recv, proof,
    )?;
    check_closed(
        alloc,
        records,
        memory,
        connection,
        mine,
        message,
        proof_close,
    )?;
    Ok(mine)
}
