//! Answering a connection that the peer began.

ghost use Rattle.std.specs.Prelude.{◌≡◌, ◌-◌, ◌^◌, ◌<◌, IfOk};
ghost use Rattle.ibc_ids.specs.Paths.{nth_connection};
ghost use Rattle.ibc_connection.specs.ConnectionHandshake.{AreProofs, IsConnectionInitShown};
ghost use Rattle.ibc_records.specs.OwnEnds.{KnowsHeight};
ghost use Rattle.ibc_connection.specs.ConnectionHandlers.{HandlesConnOpenTry, JudgesConnOpenTry, IsTryAllowed};

use crate::checks::{add_connection, check_number, names_host};
use crate::claims::{Proofs, check_client_state, check_connection, read_proofs};
use ibc_ics23_proof::NodeMemory;
use ibc_ids::{ConnectionId, Refusal};
use ibc_merkle::Proof;
use ibc_records::{Records, check_client, check_known};
use ibc_wire::{ConnOpenTry, ConnectionEnd, ConnectionState};
use std::alloc::Global;

/// Answers a connection that the peer began (ICS 3, "connOpenTry"), on the chain numbered `chain`. Refused, by the first
/// check that fails: `BadMessage` where a proof can't be read; `UnknownClient`; `WrongSelfClient` where the claimed client
/// of the peer doesn't track this chain, or knows a height that isn't committed here; `NumberFull` where the number of the
/// next connection is 2^64 - 1; `NoConsensus` where the client doesn't know the height; `BadProof` where a proof doesn't show
/// the peer's end, or the claimed client. `NoMemory` where a growth is refused. A refusal leaves the records.
pub fn open_try(
    alloc: Global,
    records: &mut Records,
    chain: u8,
    message: &ConnOpenTry,
) -> Result<ConnectionId, Refusal>
    ensures answer { HandlesConnOpenTry chain message.now records.old result records.new }
    ensures named { IfOk result (λ id. id ≡ nth_connection records.old.next_connection) }
{
    let mut memory = records.take_memory();
    let answer = open_try_with(alloc, records, &mut memory, chain, message);
    records.keep_memory(memory);
    answer
}

// The same with the hashes of nodes that the records remember.
fn open_try_with(
    alloc: Global,
    records: &mut Records,
    memory: &mut NodeMemory,
    chain: u8,
    message: &ConnOpenTry,
) -> Result<ConnectionId, Refusal>
    ensures answer { HandlesConnOpenTry chain message.now records.old result records.new }
    ensures named { IfOk result (λ id. id ≡ nth_connection records.old.next_connection) }
{
    let proofs = read_proofs(alloc, &message.proof_end, &message.proof_client)?;
    let checked = check_try(alloc, records, memory, chain, message, &proofs);
    drop(proofs);
    checked?;
    let mine = ConnectionEnd {
        state: ConnectionState::TryOpen,
        client: message.client.clone()?,
        peer_client: message.peer_client.clone()?,
        peer_connection: Some(message.peer_connection.clone()?),
    };
    add_connection(alloc, records, mine)
}

// The checks, in their order, once the proofs are read.
fn check_try(
    alloc: Global,
    records: &Records,
    memory: &mut NodeMemory,
    chain: u8,
    message: &ConnOpenTry,
    proofs: &Proofs,
) -> Result<(), Refusal>
    requires { AreProofs message.now.proof_end message.now.proof_client proofs.now }
    ensures judged { JudgesConnOpenTry chain message.now records.now result }
    ensures free { IfOk result (λ _. records.now.next_connection < 2 ^ 64 - 1) }
{
    may_try(records, chain, message)?;
    check_begun(alloc, records, memory, message, &proofs.end)?;
    check_client_state(
        alloc,
        records,
        memory,
        &message.client,
        message.height,
        &message.peer_client,
        message.claim,
        &proofs.client,
    )
}

// The checks that need no proof, in their order.
fn may_try(records: &Records, chain: u8, message: &ConnOpenTry) -> Result<(), Refusal>
    ensures checked { IsTryAllowed chain message.now records.now result }
    ensures free { IfOk result (λ _. records.now.next_connection < 2 ^ 64 - 1) }
    ensures known { IfOk result (λ _. KnowsHeight records.now message.now.client message.now.height) }
{
    check_client(records, &message.client)?;
    if !names_host(records, chain, message.claim) {
        return Err(Refusal::WrongSelfClient);
    }
    check_number(records)?;
    check_known(records, &message.client, message.height)?;
    Ok(())
}

// The peer began the connection, or else `BadProof`; `NoMemory`.
fn check_begun(
    alloc: Global,
    records: &Records,
    memory: &mut NodeMemory,
    message: &ConnOpenTry,
    proof: &Proof,
) -> Result<(), Refusal>
    requires { KnowsHeight records.now message.now.client message.now.height }
    ensures { IsConnectionInitShown records.now message.now proof.now result }
{
    let theirs = ConnectionEnd {
        state: ConnectionState::Init,
        client: message.peer_client.clone()?,
        peer_client: message.client.clone()?,
        peer_connection: None,
    };
    let client = &message.client;
    let height = message.height;
    check_connection(
        alloc,
        records,
        memory,
        client,
        height,
        &message.peer_connection,
        &theirs,
        proof,
    )
}
