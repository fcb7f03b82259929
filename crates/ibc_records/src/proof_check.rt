//! What a client shows of the chain that it tracks.

ghost use Rattle.std.specs.Prelude.{◌≡◌, option_map};
ghost use Rattle.ibc_ids.specs.Paths.{path};
ghost use Rattle.ibc_ids.specs.declared.refusal.Refusal.TheVariants.{BadProof};
ghost use Rattle.ibc_machine.specs.chain.Checks.{require};
ghost use Rattle.ibc_machine.specs.chain.Records as plain;
ghost use Rattle.ibc_records.specs.RecordsModel.{core_of, consensus_in};
ghost use Rattle.ibc_records.specs.Claims.{IsKnown, ShowsPresent, ShowsAtPath, ShowsAbsent};

use crate::{ConsensusState, Records};
use ibc_ics23_proof::{
    NodeMemory, verify_absent, verify_absent_with, verify_present, verify_present_with,
};
use ibc_ids::{ClientId, Key, Refusal};
use ibc_merkle::Proof;
use std::alloc::Global;

/// Checks that the chain that a client tracks had a value under a key at a height (ICS 2, "verifyMembership"). Refused,
/// by the first check that fails: `UnknownClient`; `NoConsensus` where the client doesn't know the height; `BadProof`;
/// and `NoMemory` where a growth is refused.
pub fn check_present(
    alloc: Global,
    records: &Records,
    client: &ClientId,
    height: u64,
    key: &Key,
    value: &[u8],
    proof: &Proof,
) -> Result<(), Refusal>
    ensures { ShowsPresent records.now client.now height key.now value.now proof.now result }
{
    let path = key.path(alloc)?;
    check_path(records, client, height, path.as_str(), value, proof)
}

/// Checks that the chain that a client tracks had a value at a path at a height (ICS 2, "verifyMembership"). Refused as
/// by `check_present`, and never for want of memory.
pub fn check_path(
    records: &Records,
    client: &ClientId,
    height: u64,
    path: &str,
    value: &[u8],
    proof: &Proof,
) -> Result<(), Refusal>
    ensures { ShowsAtPath records.now client.now height path.now value.now proof.now result }
{
    let known = known_at(records, client, height)?;
    accept(verify_present(proof, &known.root, path.as_bytes(), value))
}

/// Checks that the chain that a client tracks had nothing under a key at a height (ICS 2, "verifyNonMembership").
/// Refused as by `check_present`.
pub fn check_absent(
    alloc: Global,
    records: &Records,
    client: &ClientId,
    height: u64,
    key: &Key,
    proof: &Proof,
) -> Result<(), Refusal>
    ensures { ShowsAbsent records.now client.now height key.now proof.now result }
{
    let known = known_at(records, client, height)?;
    let path = key.path(alloc)?;
    accept(verify_absent(proof, &known.root, path.as_bytes()))
}

/// Checks as `check_present`, with a memory of the hashes of nodes.
pub fn check_present_with(
    alloc: Global,
    records: &Records,
    memory: &mut NodeMemory,
    client: &ClientId,
    height: u64,
    key: &Key,
    value: &[u8],
    proof: &Proof,
) -> Result<(), Refusal>
    ensures { ShowsPresent records.now client.now height key.now value.now proof.now result }
{
    let path = key.path(alloc)?;
    check_path_with(records, memory, client, height, path.as_str(), value, proof)
}

/// Checks as `check_path`, with a memory of the hashes of nodes.
pub fn check_path_with(
    records: &Records,
    memory: &mut NodeMemory,
    client: &ClientId,
    height: u64,
    path: &str,
    value: &[u8],
    proof: &Proof,
) -> Result<(), Refusal>
    ensures { ShowsAtPath records.now client.now height path.now value.now proof.now result }
{
    let known = known_at(records, client, height)?;
    accept(verify_present_with(memory, proof, &known.root, path.as_bytes(), value))
}

/// Checks as `check_absent`, with a memory of the hashes of nodes.
pub fn check_absent_with(
    alloc: Global,
    records: &Records,
    memory: &mut NodeMemory,
    client: &ClientId,
    height: u64,
    key: &Key,
    proof: &Proof,
) -> Result<(), Refusal>
    ensures { ShowsAbsent records.now client.now height key.now proof.now result }
{
    let known = known_at(records, client, height)?;
    let path = key.path(alloc)?;
    accept(verify_absent_with(memory, proof, &known.root, path.as_bytes()))
}

/// Whether a client knows a height (ICS 2, "Consensus state").
pub fn knows(records: &Records, client: &ClientId, height: u64) -> bool
    ensures { result ≡ plain.is_known_height (core_of records.now) client.now height }
{
    match records.client(client) {
        Some(found) => found.consensus_state(height).is_some(),
        None => false,
    }
}

/// The time of a height that a client knows, or none (ICS 2, "Consensus state").
pub fn known_time(records: &Records, client: &ClientId, height: u64) -> Option<u64>
    ensures { result ≡ option_map (λ known. known.time) (consensus_in records.now client.now height) }
{
    let known = records.client(client)?.consensus_state(height)?;
    Some(known.time)
}

// What a client knows of a height.
fn known_at(records: &Records, client: &ClientId, height: u64) -> Result<ConsensusState, Refusal>
    ensures { IsKnown records.now client.now height result }
{
    match records.client(client) {
        Some(found) => match found.consensus_state(height) {
            Some(known) => Ok(known),
            None => Err(Refusal::NoConsensus),
        },
        None => Err(Refusal::UnknownClient),
    }
}

// A proof that isn't accepted is refused.
fn accept(accepted: bool) -> Result<(), Refusal>
    ensures { result ≡ require accepted BadProof }
{
    if accepted {
        Ok(())
    } else {
        Err(Refusal::BadProof)
    }
}
