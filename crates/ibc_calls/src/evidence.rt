//! What proofs and messages carry, with no ledger.
ghost use Rattle.ibc_calls.specs.ProofReads.{FindsKey, FindsShown, TellsProof, proof_output};
ghost use Rattle.ibc_calls.specs.Handles.{Finds};

use crate::handles::{give, write_out};
use crate::{Refused, carried_proof, key_of, value_of};
use ibc_ids::Bytes;
use std::alloc::Global;

/// Writes the key, as its path, of which the proof speaks that the bytes spell (ICS 23, "CommitmentProof"). Refused:
/// `Core(BadMessage)` exactly where they spell none; `TooShort`; `Core(NoMemory)`.
#[tactic(auto, unfolding(crate::specs::Handles::Finds))]
pub fn proof_key(
    alloc: Global,
    proof: &[u8],
    key: &mut [u8],
    size: &mut usize,
) -> Result<(), Refused>
    ensures { Finds (FindsKey proof.now) key.old key.new size.old size.new result }
{
    give(key_found(alloc, proof), key, size)
}

fn key_found(alloc: Global, proof: &[u8]) -> Result<Bytes, Refused>
    ensures { FindsKey proof.now result }
{
    match key_of(alloc, proof) {
        Ok(key) => Ok(key),
        Err(refusal) => Err(Refused::Core(refusal)),
    }
}

/// Writes the value that the proof shows its key to have which the bytes spell (ICS 23, "ExistenceProof"). Refused:
/// `Core(BadMessage)` exactly where they spell none; `NothingThere` where it shows that the key isn't there; `TooShort`;
/// `Core(NoMemory)`.
#[tactic(auto, unfolding(crate::specs::Handles::Finds))]
pub fn proof_value(
    alloc: Global,
    proof: &[u8],
    value: &mut [u8],
    size: &mut usize,
) -> Result<(), Refused>
    ensures { Finds (FindsShown proof.now) value.old value.new size.old size.new result }
{
    give(value_found(alloc, proof), value, size)
}

fn value_found(alloc: Global, proof: &[u8]) -> Result<Bytes, Refused>
    ensures { FindsShown proof.now result }
{
    match value_of(alloc, proof) {
        Ok(Some(value)) => Ok(value),
        Ok(None) => Err(Refused::NothingThere),
        Err(refusal) => Err(Refused::Core(refusal)),
    }
}

/// Writes the proof at an index, 0 or 1, of those that the message carries which the bytes spell, and tells the height of the
/// other chain at which it is; which proofs they are `carried_proof` says. Refused: `NoMessage` exactly
/// where they spell no message; `NothingThere` where it carries no such proof; `Core(NoMemory)`: then nothing is told.
/// `TooShort`: then the numbers alone are told.
#[tactic(auto, unfolding(crate::specs::ProofReads::TellsProof))]
pub fn message_proof(
    alloc: Global,
    message: &[u8],
    index: u64,
    height: &mut u64,
    proof: &mut [u8],
    size: &mut usize,
) -> Result<(), Refused>
    ensures { TellsProof index message.now (proof_output height.old proof.old size.old) (proof_output height.new proof.new size.new) result }
{
    match carried_proof(alloc, message, index) {
        Ok(Some(found)) => {
            *height = found.height;
            write_out(found.proof.as_slice(), proof, size)
        }
        Ok(None) => Err(Refused::NothingThere),
        Err(refused) => Err(refused),
    }
}
