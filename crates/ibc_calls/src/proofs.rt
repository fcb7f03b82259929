//! Proofs as their bytes.

ghost use Rattle.std.specs.Prelude.{◌≡◌, ◌≢◌, ◌⊎◌, Err, IfOk, IfErr, length};
ghost use Rattle.ibc_ids.specs.declared.refusal.Refusal.TheVariants.{BadMessage, NoMemory};
ghost use Rattle.ibc_wire.specs.Reading.{proof_of};
ghost use Rattle.ibc_calls.specs.JudgedProofs.{key_in, shown_key, kind_in, shown_kind, test_passed, value_in, shown_value, judged_present, judged_absent};

use ibc_ics23_proof::{verify_absent, verify_present};
use ibc_ids::{Bytes, Refusal, Root};
use ibc_merkle::Proof;
use ibc_records::read_proof;
use std::alloc::Global;

/// What a proof shows.
#[derive(Clone, Copy, Debug, PartialEq, Eq, Drop)]
pub enum ProofKind {
    /// That a key has a value.
    Present,
    /// That a key isn't there.
    Absent,
}

/// The bytes spell a proof that shows that the key has the value under the root (ICS 23, "VerifyMembership"). Refused, by
/// the first check that fails: `BadMessage` where the root hasn't 32 bytes or the bytes spell no proof; `BadProof` where the
/// proof doesn't show it; and `NoMemory` where a growth is refused.
pub fn show_present(
    alloc: Global,
    root: &[u8],
    key: &[u8],
    value: &[u8],
    proof: &[u8],
) -> Result<(), Refusal>
    ensures { (result ≡ Err NoMemory) ⊎ (result ≡ judged_present root.now key.now value.now proof.now) }
{
    let root = read_root(root)?;
    let proof = read_proof(alloc, proof)?;
    let is_shown = verify_present(&proof, &root, key, value);
    drop(proof);
    require_shown(is_shown)
}

/// The bytes spell a proof that shows that the key isn't there under the root (ICS 23, "VerifyNonMembership"). Refused as by
/// `show_present`.
pub fn show_absent(alloc: Global, root: &[u8], key: &[u8], proof: &[u8]) -> Result<(), Refusal>
    ensures { (result ≡ Err NoMemory) ⊎ (result ≡ judged_absent root.now key.now proof.now) }
{
    let root = read_root(root)?;
    let proof = read_proof(alloc, proof)?;
    let is_shown = verify_absent(&proof, &root, key);
    drop(proof);
    require_shown(is_shown)
}

/// What the proof shows that the bytes spell. Refused: `BadMessage` exactly where they spell none; `NoMemory`.
pub fn kind_of(alloc: Global, proof: &[u8]) -> Result<ProofKind, Refusal>
    ensures { (result ≡ Err NoMemory) ⊎ (result ≡ kind_in (proof_of proof.now)) }
{
    let proof = read_proof(alloc, proof)?;
    let kind = kind_told(&proof);
    drop(proof);
    Ok(kind)
}

// What the proof shows.
fn kind_told(proof: &Proof) -> ProofKind
    ensures { result ≡ shown_kind proof.now }
{
    match proof {
        Proof::Present(_) => ProofKind::Present,
        Proof::Absent(_) => ProofKind::Absent,
    }
}

/// The key of which the proof speaks that the bytes spell. Refused as by `kind_of`.
pub fn key_of(alloc: Global, proof: &[u8]) -> Result<Bytes, Refusal>
    ensures { (result ≡ Err NoMemory) ⊎ (result ≡ key_in (proof_of proof.now)) }
{
    Ok(key_told(read_proof(alloc, proof)?))
}

// The key of which the proof speaks.
fn key_told(proof: Proof) -> Bytes
    ensures { result ≡ shown_key proof }
{
    match proof {
        Proof::Present(shown) => shown.key,
        Proof::Absent(shown) => shown.key,
    }
}

/// The value that the proof shows its key to have which the bytes spell, or none where it shows that the key isn't there. Refused
/// as by `kind_of`.
pub fn value_of(alloc: Global, proof: &[u8]) -> Result<Option<Bytes>, Refusal>
    ensures { (result ≡ Err NoMemory) ⊎ (result ≡ value_in (proof_of proof.now)) }
{
    Ok(value_told(read_proof(alloc, proof)?))
}

// The value that the proof shows its key to have, or none where it shows that the key isn't there.
fn value_told(proof: Proof) -> Option<Bytes>
    ensures { result ≡ shown_value proof }
{
    match proof {
        Proof::Present(shown) => Some(shown.value),
        Proof::Absent(_) => None,
    }
}

// The root of 32 bytes, or else `BadMessage`.
fn read_root(bytes: &[u8]) -> Result<Root, Refusal>
    ensures ok { IfOk result (λ root. (root ≡ bytes.now) × (length bytes.now ≡ 32)) }
    ensures err { IfErr result (λ refusal. (refusal ≡ BadMessage) × (length bytes.now ≢ 32)) }
{
    match <[u8; 32]>::try_from(bytes) {
        Ok(root) => Ok(Root::from_bytes(root)),
        Err(_) => Err(Refusal::BadMessage),
    }
}

// What is asked for is shown, or else `BadProof`.
fn require_shown(is_shown: bool) -> Result<(), Refusal>
    ensures { result ≡ test_passed is_shown }
{
    if is_shown {
        Ok(())
    } else {
        Err(Refusal::BadProof)
    }
}
