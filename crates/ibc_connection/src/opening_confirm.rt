//! Opening a connection that the peer opened.

ghost use Rattle.std.specs.Prelude.{◌≡◌, Some};
ghost use Rattle.ibc_wire.specs.Reading.{proof_of};
ghost use Rattle.ibc_records.specs.OwnEnds.{KnowsHeight};
ghost use Rattle.ibc_connection.specs.ConnectionHandlers.{HandlesConnOpenConfirm, JudgesConnOpenConfirm};
ghost use Rattle.ibc_connection.specs.ConnectionHandshake.{IsConnectionOpenShown};

use crate::checks::check_state;
use crate::claims::check_connection;
use ibc_ics23_proof::NodeMemory;
use ibc_ids::{ConnectionId, Refusal};
use ibc_merkle::Proof;
use ibc_records::{Records, check_known, read_proof};
use ibc_wire::{ConnOpenConfirm, ConnectionEnd, ConnectionState};
use std::alloc::Global;

/// Opens a connection that the peer opened (ICS 3, "connOpenConfirm"). Refused, by the first check that fails: `BadMessage`
/// where the proof can't be read; `UnknownConnection`; `WrongState` where the end isn't in `TryOpen`; `NoConsensus` where
/// the end's client doesn't know the height; `BadProof` where the proof doesn't show the peer's end. `NoMemory` where a
/// growth is refused. A refusal leaves the records.
pub fn open_confirm(
    alloc: Global,
    records: &mut Records,
    message: &ConnOpenConfirm,
) -> Result<(), Refusal>
    ensures { HandlesConnOpenConfirm message.now records.old result records.new }
{
    let mut memory = records.take_memory();
    let answer = open_confirm_with(alloc, records, &mut memory, message);
    records.keep_memory(memory);
    answer
}

// The same with the hashes of nodes that the records remember.
fn open_confirm_with(
    alloc: Global,
    records: &mut Records,
    memory: &mut NodeMemory,
    message: &ConnOpenConfirm,
) -> Result<(), Refusal>
    ensures { HandlesConnOpenConfirm message.now records.old result records.new }
{
    let proof = read_proof(alloc, message.proof.as_slice())?;
    let judged = judge_confirm(alloc, records, memory, message, &proof);
    drop(proof);
    records.set_connection(message.connection.clone()?, judged?)
}

// The checks in their order, and the end as it will stand.
fn judge_confirm(
    alloc: Global,
    records: &Records,
    memory: &mut NodeMemory,
    message: &ConnOpenConfirm,
    proof: &Proof,
) -> Result<ConnectionEnd, Refusal>
    requires { proof_of message.now.proof ≡ Some proof.now }
    ensures { JudgesConnOpenConfirm message.now records.now result }
{
    let Some(mine) = records.connection(&message.connection) else {
        return Err(Refusal::UnknownConnection);
    };
    check_state(mine, ConnectionState::TryOpen)?;
    let Some(peer) = &mine.peer_connection else {
        return Err(Refusal::WrongState);
    };
    check_known(records, &mine.client, message.height)?;
    check_opened(alloc, records, memory, message, mine, peer, proof)?;
    Ok(ConnectionEnd {
        state: ConnectionState::Open,
        client: mine.client.clone()?,
        peer_client: mine.peer_client.clone()?,
        peer_connection: Some(peer.clone()?),
    })
}

// The peer opened the connection, or else `BadProof`; `NoMemory`.
fn check_opened(
    alloc: Global,
    records: &Records,
    memory: &mut NodeMemory,
    message: &ConnOpenConfirm,
    mine: &ConnectionEnd,
    peer: &ConnectionId,
    proof: &Proof,
) -> Result<(), Refusal>
    requires { KnowsHeight records.now mine.now.client message.now.height }
    ensures { IsConnectionOpenShown records.now mine.now peer.now message.now proof.now result }
{
    let theirs = ConnectionEnd {
        state: ConnectionState::Open,
        client: mine.peer_client.clone()?,
        peer_client: mine.client.clone()?,
        peer_connection: Some(message.connection.clone()?),
    };
    let client = &mine.client;
    let height = message.height;
    check_connection(alloc, records, memory, client, height, peer, &theirs, proof)
}
