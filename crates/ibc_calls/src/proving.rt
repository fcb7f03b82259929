//! What ledgers prove of the heights that they committed.

ghost use Rattle.std.specs.Prelude.{◌≡◌, ◌⊎◌, Err, IsTrue, Ok, Some};
ghost use Rattle.ibc_ids.specs.Paths.{is_key};
ghost use Rattle.ibc_ids.specs.declared.refusal.Refusal.TheVariants.{NoMemory};
ghost use Rattle.ibc_wire.specs.Fields.{have_form};
ghost use Rattle.ibc_wire.specs.Spelling.{proof_bytes, proof_fields};
ghost use Rattle.ibc_calls.specs.Handles.{Finds};
ghost use Rattle.ibc_calls.specs.ViewProofs.{FindsProved, IsProofOf, IsProvedAt};
ghost use Rattle.ibc_calls.specs.declared.answer.Refused.TheVariants.{Core};

use crate::Refused;
use crate::handles::give;
use crate::views::key_of;
use ibc_handle::{Handle, HandleValue};
use ibc_ids::{Bytes, Key};
use ibc_ledger::Ledger;
use ibc_merkle::Proof;
use ibc_wire::encode;
use std::alloc::Global;

/// Writes the bytes of the proof of what a committed height of a ledger has at the path of a key (ICS 23, "CommitmentProof"):
/// of its presence where it is there, and of its absence where not. Refused, by the first check that fails: `Empty`; `OtherKind`;
/// `Core(BadName)` exactly where no key has the path; `Core(NoConsensus)` exactly where the height isn't among the last ones that
/// were committed, as many as the window of the genesis says; `TooShort`. `Core(NoMemory)`.
#[tactic(auto, unfolding(crate::specs::Handles::Finds))]
pub fn prove(
    alloc: Global,
    ledger: &mut Handle,
    height: u64,
    path: &[u8],
    proof: &mut [u8],
    size: &mut usize,
) -> Result<(), Refused>
    ensures kept { ledger.new.value ≡ ledger.old.value }
    ensures found { Finds (FindsProved height path.now ledger.old.value) proof.old proof.new size.old size.new result }
{
    give(proved_in(alloc, ledger, height, path), proof, size)
}

#[tactic(auto, unfolding(crate::specs::ViewProofs::FindsProved))]
fn proved_in(alloc: Global, ledger: &mut Handle, height: u64, path: &[u8]) -> Result<Bytes, Refused>
    ensures kept { ledger.new.value ≡ ledger.old.value }
    ensures found { FindsProved height path.now ledger.old.value result }
{
    match ledger.take(alloc) {
        None => Err(Refused::Empty),
        Some(held) => {
            let found = proved_at(alloc, &held, height, path);
            ledger.set(alloc, held);
            found
        }
    }
}

#[tactic(auto, unfolding(crate::specs::ViewProofs::FindsProved))]
fn proved_at(alloc: Global, held: &HandleValue, height: u64, path: &[u8]) -> Result<Bytes, Refused>
    ensures { FindsProved height path.now (Some held.now) result }
{
    match held {
        HandleValue::Ledger(member) => proved_by(alloc, &member.ledger, height, path),
        _ => Err(Refused::OtherKind),
    }
}

fn proved_by(alloc: Global, ledger: &Ledger, height: u64, path: &[u8]) -> Result<Bytes, Refused>
    ensures { IsProvedAt height path.now ledger.now.ledger result }
{
    match key_of(alloc, path) {
        Ok(key) => proved_of(alloc, ledger, height, &key),
        Err(refusal) => Err(Refused::Core(refusal)),
    }
}

fn proved_of(alloc: Global, ledger: &Ledger, height: u64, key: &Key) -> Result<Bytes, Refused>
    requires { IsTrue (is_key key.now) }
    ensures { IsProofOf height key.now ledger.now.ledger result }
{
    ledger.lemma_is_its_history();
    match ledger.query_proof(height, key) {
        Ok(proof) => bytes_of(alloc, proof),
        Err(refusal) => Err(Refused::Core(refusal)),
    }
}

// The bytes that spell a proof.
fn bytes_of(alloc: Global, proof: Proof) -> Result<Bytes, Refused>
    requires { IsTrue (have_form (proof_fields proof)) }
    ensures { (result ≡ Ok (proof_bytes proof)) ⊎ (result ≡ Err (Core NoMemory)) }
{
    let spelled = encode(alloc, &proof);
    drop(proof);
    match spelled {
        Ok(bytes) => Ok(Bytes::from_vec(bytes)),
        Err(refusal) => Err(Refused::Core(refusal)),
    }
}
