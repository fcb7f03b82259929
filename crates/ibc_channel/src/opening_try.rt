//! Answering a channel that the peer began.

ghost use Rattle.std.specs.Prelude.{◌≡◌, ◌-◌, ◌^◌, ◌<◌, Some, IfOk};
ghost use Rattle.ibc_ids.specs.Paths.{nth_channel};
ghost use Rattle.ibc_wire.specs.Reading.{proof_of};
ghost use Rattle.ibc_channel.specs.ChannelHandshake.{IsChannelInitShown};
ghost use Rattle.ibc_records.specs.OwnEnds.{IsConnectionAt, KnowsHeight};
ghost use Rattle.ibc_channel.specs.ChannelHandlers.{HandlesChanOpenTry, JudgesChanOpenTry};

use crate::checks::{check_connection, check_number, check_open};
use crate::ends::{add_channel, new_end};
use ibc_ics23_proof::NodeMemory;
use ibc_ids::{ChannelId, Refusal};
use ibc_merkle::Proof;
use ibc_records::{App, Records, check_claim_with, claim_peer, known_connection, read_proof};
use ibc_wire::{ChanOpenTry, ChannelEnd, ChannelState, ConnectionEnd};
use std::alloc::Global;

/// Answers a channel that the peer began, for the application of the message's port (ICS 4, "chanOpenTry"); `app` is none
/// where the port has none. Refused, by the first check that fails: `BadMessage` where the proof can't be read;
/// `UnknownPort` where the port has no application; `UnknownConnection`; `WrongState` where the connection isn't open; as
/// the application refuses the order or the version, `WrongOrder` or `WrongVersion`; `NumberFull` where the number of the
/// next channel is 2^64 - 1; `NoConsensus` where the connection's client doesn't know the height; `BadProof` where the
/// proof doesn't show the peer's end. `NoMemory` where a growth is refused. A refusal leaves the records.
pub fn open_try<A: App>(
    alloc: Global,
    records: &mut Records,
    app: Option<&A>,
    message: &ChanOpenTry,
) -> Result<ChannelId, Refusal>
    ensures answer { HandlesChanOpenTry app.entry A.opens message.now records.old result records.new }
    ensures named { IfOk result (λ id. id ≡ nth_channel records.old.next_channel) }
{
    let mut memory = records.take_memory();
    let answer = open_try_with(alloc, records, &mut memory, app, message);
    records.keep_memory(memory);
    answer
}

// The same with the hashes of nodes that the records remember.
fn open_try_with<A: App>(
    alloc: Global,
    records: &mut Records,
    memory: &mut NodeMemory,
    app: Option<&A>,
    message: &ChanOpenTry,
) -> Result<ChannelId, Refusal>
    ensures answer { HandlesChanOpenTry app.entry A.opens message.now records.old result records.new }
    ensures named { IfOk result (λ id. id ≡ nth_channel records.old.next_channel) }
{
    let proof = read_proof(alloc, message.proof.as_slice())?;
    let judged = judge_try(alloc, records, memory, app, message, &proof);
    drop(proof);
    add_channel(alloc, records, &message.port, judged?)
}

// The checks, in their order, and the end as it will stand.
fn judge_try<A: App>(
    alloc: Global,
    records: &Records,
    memory: &mut NodeMemory,
    app: Option<&A>,
    message: &ChanOpenTry,
    proof: &Proof,
) -> Result<ChannelEnd, Refusal>
    requires { proof_of message.now.proof ≡ Some proof.now }
    ensures judged { JudgesChanOpenTry app.entry A.opens message.now records.now result }
    ensures free { IfOk result (λ _. records.now.next_channel < 2 ^ 64 - 1) }
{
    let Some(app) = app else {
        return Err(Refusal::UnknownPort);
    };
    check_connection(records, &message.connection)?;
    check_open(records, &message.connection)?;
    app.on_open(message.order, &message.version)?;
    check_number(records)?;
    let connection = known_connection(records, &message.connection, message.height)?;
    let mine = new_end(
        ChannelState::TryOpen,
        message.order,
        &message.peer_port,
        Some(message.peer_channel.clone()?),
        &message.connection,
        &message.version,
    )?;
    match check_begun(alloc, records, memory, message, &mine, connection, proof) {
        Ok(()) => Ok(mine),
        Err(refusal) => Err(refusal),
    }
}

// The peer began the channel, or else `BadProof`; `NoMemory`.
fn check_begun(
    alloc: Global,
    records: &Records,
    memory: &mut NodeMemory,
    message: &ChanOpenTry,
    mine: &ChannelEnd,
    connection: &ConnectionEnd,
    proof: &Proof,
) -> Result<(), Refusal>
    requires there { IsConnectionAt records.now mine.now.connection connection.now }
    requires known { KnowsHeight records.now connection.now.client message.now.height }
    ensures { IsChannelInitShown records.now mine.now message.now proof.now result }
{
    let peer = message.peer_channel.as_str();
    let port = &message.port;
    let claim = claim_peer(alloc, mine, connection, peer, port, "", ChannelState::Init)?;
    check_claim_with(
        records,
        memory,
        &connection.client,
        message.height,
        &claim,
        proof,
    )
}
