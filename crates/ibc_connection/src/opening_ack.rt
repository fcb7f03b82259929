//! Opening a connection that the peer answered.

ghost use Rattle.std.specs.Prelude.{IfOk};
ghost use Rattle.ibc_connection.specs.ConnectionHandshake.{AreProofs, IsConnectionTryShown};
ghost use Rattle.ibc_records.specs.OwnEnds.{IsConnectionAt, KnowsHeight};
ghost use Rattle.ibc_connection.specs.ConnectionHandlers.{HandlesConnOpenAck, JudgesConnOpenAck, PassesConnOpenAck, IsAckAllowed};

use crate::checks::{is_in_state, names_host};
use crate::claims::{Proofs, check_client_state, check_connection, read_proofs};
use ibc_ics23_proof::NodeMemory;
use ibc_ids::Refusal;
use ibc_merkle::Proof;
use ibc_records::{Records, knows};
use ibc_wire::{ConnOpenAck, ConnectionEnd, ConnectionState};
use std::alloc::Global;

/// Opens a connection that the peer answered (ICS 3, "connOpenAck"), on the chain numbered `chain`. Refused, by the first
/// check that fails: `BadMessage` where a proof can't be read; `UnknownConnection`; `WrongState` where the end isn't in
/// `Init`; `WrongSelfClient` where the claimed client of the peer doesn't track this chain, or knows a height that isn't
/// committed here; `NoConsensus` where the end's client doesn't know the height; `BadProof` where a proof doesn't show the
/// peer's end, or the claimed client. `NoMemory` where a growth is refused. A refusal leaves the records.
pub fn open_ack(
    alloc: Global,
    records: &mut Records,
    chain: u8,
    message: &ConnOpenAck,
) -> Result<(), Refusal>
    ensures { HandlesConnOpenAck chain message.now records.old result records.new }
{
    let mut memory = records.take_memory();
    let answer = open_ack_with(alloc, records, &mut memory, chain, message);
    records.keep_memory(memory);
    answer
}

// The same with the hashes of nodes that the records remember.
fn open_ack_with(
    alloc: Global,
    records: &mut Records,
    memory: &mut NodeMemory,
    chain: u8,
    message: &ConnOpenAck,
) -> Result<(), Refusal>
    ensures { HandlesConnOpenAck chain message.now records.old result records.new }
{
    let proofs = read_proofs(alloc, &message.proof_end, &message.proof_client)?;
    let judged = judge_ack(alloc, records, memory, chain, message, &proofs);
    drop(proofs);
    records.set_connection(message.connection.clone()?, judged?)
}

// The end as it will stand, where all checks pass.
fn judge_ack(
    alloc: Global,
    records: &Records,
    memory: &mut NodeMemory,
    chain: u8,
    message: &ConnOpenAck,
    proofs: &Proofs,
) -> Result<ConnectionEnd, Refusal>
    requires { AreProofs message.now.proof_end message.now.proof_client proofs.now }
    ensures { JudgesConnOpenAck chain message.now records.now result }
{
    let Some(mine) = records.connection(&message.connection) else {
        return Err(Refusal::UnknownConnection);
    };
    check_ack(alloc, records, memory, chain, message, mine, proofs)?;
    Ok(ConnectionEnd {
        state: ConnectionState::Open,
        client: mine.client.clone()?,
        peer_client: mine.peer_client.clone()?,
        peer_connection: Some(message.peer_connection.clone()?),
    })
}

// The checks of the end that was found, in their order.
fn check_ack(
    alloc: Global,
    records: &Records,
    memory: &mut NodeMemory,
    chain: u8,
    message: &ConnOpenAck,
    mine: &ConnectionEnd,
    proofs: &Proofs,
) -> Result<(), Refusal>
    requires read { AreProofs message.now.proof_end message.now.proof_client proofs.now }
    requires found { IsConnectionAt records.now message.now.connection mine.now }
    ensures { PassesConnOpenAck chain message.now mine.now records.now result }
{
    may_ack(records, chain, message, mine)?;
    check_answered(alloc, records, memory, message, mine, &proofs.end)?;
    check_client_state(
        alloc,
        records,
        memory,
        &mine.client,
        message.height,
        &mine.peer_client,
        message.claim,
        &proofs.client,
    )
}

// The checks that need no proof, in their order.
#[tactic(auto, unfolding(ibc_machine::specs::chain::Checks::and_then))]
fn may_ack(
    records: &Records,
    chain: u8,
    message: &ConnOpenAck,
    mine: &ConnectionEnd,
) -> Result<(), Refusal>
    ensures checked { IsAckAllowed chain message.now mine.now records.now result }
    ensures known { IfOk result (λ _. KnowsHeight records.now mine.now.client message.now.height) }
{
    if !is_in_state(mine, ConnectionState::Init) {
        return Err(Refusal::WrongState);
    }
    if !names_host(records, chain, message.claim) {
        return Err(Refusal::WrongSelfClient);
    }
    if !knows(records, &mine.client, message.height) {
        return Err(Refusal::NoConsensus);
    }
    Ok(())
}

// The peer answered the connection, or else `BadProof`; `NoMemory`.
fn check_answered(
    alloc: Global,
    records: &Records,
    memory: &mut NodeMemory,
    message: &ConnOpenAck,
    mine: &ConnectionEnd,
    proof: &Proof,
) -> Result<(), Refusal>
    requires { KnowsHeight records.now mine.now.client message.now.height }
    ensures { IsConnectionTryShown records.now mine.now message.now proof.now result }
{
    let theirs = ConnectionEnd {
        state: ConnectionState::TryOpen,
        client: mine.peer_client.clone()?,
        peer_client: mine.client.clone()?,
        peer_connection: Some(message.connection.clone()?),
    };
    let client = &mine.client;
    let height = message.height;
    check_connection(
        alloc,
        records,
        memory,
        client,
        height,
        &message.peer_connection,
        &theirs,
        proof,
    )
}
