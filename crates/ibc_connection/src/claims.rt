//! What messages claim of the peer, and the proofs that they bring.

ghost use Rattle.std.specs.Prelude.{◌≡◌, ◌⊎◌, false, IfOk, IfErr, IsErrOf};
ghost use Rattle.ibc_machine.specs.ics03.Connections.{has_connection, has_client};
ghost use Rattle.ibc_records.specs.ProofVerdicts.{IsShown};
ghost use Rattle.ibc_connection.specs.ConnectionHandshake.{AreProofs, are_readable};
ghost use Rattle.ibc_records.specs.OwnEnds.{KnowsHeight};

use ibc_ics23_proof::NodeMemory;
use ibc_ids::{Bytes, ClientId, ConnectionId, Key, Refusal};
use ibc_merkle::Proof;
use ibc_records::{Records, check_present_with, client_value, connection_value, read_proof};
use ibc_wire::{ClientState, ConnectionEnd};
use std::alloc::Global;

/// The two proofs of a message: of the peer's end, and of the peer's client.
#[derive(Drop)]
pub struct Proofs {
    pub end: Proof,
    pub client: Proof,
}

/// The two proofs of a message. Refused: `BadMessage` exactly where one can't be read; `NoMemory`.
pub fn read_proofs(alloc: Global, end: &Bytes, client: &Bytes) -> Result<Proofs, Refusal>
    ensures ok { IfOk result (λ proofs. AreProofs end.now client.now proofs) }
    ensures bad { IsErrOf result Refusal.BadMessage → are_readable end.now client.now ≡ false }
    ensures err { IfErr result (λ e. (e ≡ Refusal.BadMessage) ⊎ (e ≡ Refusal.NoMemory)) }
{
    Ok(Proofs {
        end: read_proof(alloc, end.as_slice())?,
        client: read_proof(alloc, client.as_slice())?,
    })
}

/// The client's chain had this end under this identifier at a height that the client knows, or else `BadProof`; `NoMemory`.
pub fn check_connection(
    alloc: Global,
    records: &Records,
    memory: &mut NodeMemory,
    client: &ClientId,
    height: u64,
    id: &ConnectionId,
    end: &ConnectionEnd,
    proof: &Proof,
) -> Result<(), Refusal>
    requires { KnowsHeight records.now client.now height }
    ensures { IsShown records.now client.now height (has_connection id.now end.now) proof.now result }
{
    let value = connection_value(alloc, end)?;
    let key = Key::Connection(id.clone()?);
    check_present_with(
        alloc,
        records,
        memory,
        client,
        height,
        &key,
        value.as_slice(),
        proof,
    )
}

/// The client's chain had a client of this state under this identifier at a height that the client knows, or else
/// `BadProof`; `NoMemory`.
pub fn check_client_state(
    alloc: Global,
    records: &Records,
    memory: &mut NodeMemory,
    client: &ClientId,
    height: u64,
    id: &ClientId,
    state: ClientState,
    proof: &Proof,
) -> Result<(), Refusal>
    requires { KnowsHeight records.now client.now height }
    ensures { IsShown records.now client.now height (has_client id.now state) proof.now result }
{
    let value = client_value(alloc, state)?;
    let key = Key::ClientState(id.clone()?);
    check_present_with(
        alloc,
        records,
        memory,
        client,
        height,
        &key,
        value.as_slice(),
        proof,
    )
}
