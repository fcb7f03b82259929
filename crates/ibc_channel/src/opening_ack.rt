//! Opening a channel that the peer answered.

ghost use Rattle.std.specs.Prelude.{◌≡◌, Some, IfOk};
ghost use Rattle.ibc_wire.specs.Reading.{proof_of};
ghost use Rattle.ibc_records.specs.OwnEnds.{IsConnectionAt, KnowsHeight};
ghost use Rattle.ibc_channel.specs.ChannelHandlers.{HandlesChanOpenAck, JudgesChanOpenAck};
ghost use Rattle.ibc_channel.specs.ChannelHandshake.{HasEndAt, IsChannelTryShown};

use crate::checks::{check_open, check_state};
use crate::ends::{find_end, new_end, set_end};
use ibc_ics23_proof::NodeMemory;
use ibc_ids::Refusal;
use ibc_merkle::Proof;
use ibc_records::{Records, check_claim_with, claim_peer, known_connection, read_proof};
use ibc_wire::{ChanOpenAck, ChannelEnd, ChannelState, ConnectionEnd};
use std::alloc::Global;

/// Opens a channel that the peer answered (ICS 4, "chanOpenAck"). Refused, by the first check that fails: `BadMessage`
/// where the proof can't be read; `UnknownChannel`; `WrongState` where the end isn't in `Init`, or its connection isn't
/// open; `NoConsensus` where the connection's client doesn't know the height; `BadProof` where the proof doesn't show the
/// peer's end. `NoMemory` where a growth is refused. A refusal leaves the records.
pub fn open_ack(alloc: Global, records: &mut Records, message: &ChanOpenAck) -> Result<(), Refusal>
    ensures { HandlesChanOpenAck message.now records.old result records.new }
{
    let mut memory = records.take_memory();
    let answer = open_ack_with(alloc, records, &mut memory, message);
    records.keep_memory(memory);
    answer
}

// The same with the hashes of nodes that the records remember.
fn open_ack_with(
    alloc: Global,
    records: &mut Records,
    memory: &mut NodeMemory,
    message: &ChanOpenAck,
) -> Result<(), Refusal>
    ensures { HandlesChanOpenAck message.now records.old result records.new }
{
    let proof = read_proof(alloc, message.proof.as_slice())?;
    let judged = judge_ack(alloc, records, memory, message, &proof);
    drop(proof);
    set_end(records, &message.port, &message.channel, judged?)
}

// The checks, in their order, and the end as it will stand.
fn judge_ack(
    alloc: Global,
    records: &Records,
    memory: &mut NodeMemory,
    message: &ChanOpenAck,
    proof: &Proof,
) -> Result<ChannelEnd, Refusal>
    requires { proof_of message.now.proof ≡ Some proof.now }
    ensures judged { JudgesChanOpenAck message.now records.now result }
    ensures there { IfOk result (λ _. HasEndAt records.now message.now.port message.now.channel) }
{
    let mine = find_end(records, &message.port, &message.channel)?;
    check_state(mine, ChannelState::Init)?;
    check_open(records, &mine.connection)?;
    let connection = known_connection(records, &mine.connection, message.height)?;
    check_answered(alloc, records, memory, message, mine, connection, proof)?;
    new_end(
        ChannelState::Open,
        mine.order,
        &mine.peer_port,
        Some(message.peer_channel.clone()?),
        &mine.connection,
        &mine.version,
    )
}

// The peer answered the channel, or else `BadProof`; `NoMemory`.
fn check_answered(
    alloc: Global,
    records: &Records,
    memory: &mut NodeMemory,
    message: &ChanOpenAck,
    mine: &ChannelEnd,
    connection: &ConnectionEnd,
    proof: &Proof,
) -> Result<(), Refusal>
    requires there { IsConnectionAt records.now mine.now.connection connection.now }
    requires known { KnowsHeight records.now connection.now.client message.now.height }
    ensures { IsChannelTryShown records.now mine.now message.now proof.now result }
{
    let peer = message.peer_channel.as_str();
    let port = &message.port;
    let channel = message.channel.as_str();
    let state = ChannelState::TryOpen;
    let claim = claim_peer(alloc, mine, connection, peer, port, channel, state)?;
    check_claim_with(
        records,
        memory,
        &connection.client,
        message.height,
        &claim,
        proof,
    )
}
