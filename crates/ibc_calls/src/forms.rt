//! Proofs in the form of ICS 23, there and back.

ghost use Rattle.ibc_calls.specs.Handles.{Finds};
ghost use Rattle.ibc_calls.specs.ProofForms.{FindsForm, FindsProofOf};

use crate::Refused;
use crate::handles::give;
use ibc_ics23_form::{form_of, spelled_of_form};
use ibc_ids::Bytes;
use ibc_records::read_proof;
use std::alloc::Global;

/// Writes the canonical bytes of a `cosmos.ics23.v1.CommitmentProof` of the proof that the bytes spell. Refused:
/// `Core(BadMessage)` exactly where they spell none; `TooShort`; `Core(NoMemory)`.
#[tactic(auto, unfolding(crate::specs::Handles::Finds))]
pub fn proof_to_ics23(
    alloc: Global,
    proof: &[u8],
    form: &mut [u8],
    size: &mut usize,
) -> Result<(), Refused>
    ensures { Finds (FindsForm proof.now) form.old form.new size.old size.new result }
{
    give(form_found(alloc, proof), form, size)
}

fn form_found(alloc: Global, bytes: &[u8]) -> Result<Bytes, Refused>
    ensures { FindsForm bytes.now result }
{
    match read_proof(alloc, bytes) {
        Ok(proof) => {
            let found = form_of(alloc, &proof);
            drop(proof);
            match found {
                Ok(form) => Ok(form),
                Err(refusal) => Err(Refused::Core(refusal)),
            }
        }
        Err(refusal) => Err(Refused::Core(refusal)),
    }
}

/// Writes the bytes of the one proof whose form these bytes are, as a `cosmos.ics23.v1.CommitmentProof` in canonical protobuf. Refused:
/// `Core(BadMessage)` exactly where they are the form of no proof that bytes spell; `TooShort`; `Core(NoMemory)`.
#[tactic(auto, unfolding(crate::specs::Handles::Finds))]
pub fn proof_of_ics23(
    alloc: Global,
    form: &[u8],
    proof: &mut [u8],
    size: &mut usize,
) -> Result<(), Refused>
    ensures { Finds (FindsProofOf form.now) proof.old proof.new size.old size.new result }
{
    give(proof_found(alloc, form), proof, size)
}

fn proof_found(alloc: Global, form: &[u8]) -> Result<Bytes, Refused>
    ensures { FindsProofOf form.now result }
{
    match spelled_of_form(alloc, form) {
        Ok(bytes) => Ok(bytes),
        Err(refusal) => Err(Refused::Core(refusal)),
    }
}
