//! The writing of proofs (ICS 23, "CreateMembershipProof" and "CreateNonMembershipProof").

ghost use Rattle.std.specs.Prelude.{◌≡◌, ◌<◌, ◌≤◌, Some, length, IsTrue, IsSome, IsNone, IfOk, IsOkUnless};
ghost use Rattle.std.specs.FinMap.{is_sorted};
ghost use Rattle.ibc_ids.specs.Texts.{text_cmp};
ghost use Rattle.ibc_ids.specs.Maps.{at};
ghost use Rattle.ibc_ids.specs.declared.refusal.Refusal.TheVariants.{NoMemory};
ghost use Rattle.ibc_merkle.specs.NodeDigests.{digests_of};
ghost use Rattle.ibc_merkle.specs.PlacedProofs.{AddsPathTo, own_proof, left_proof};
ghost use Rattle.ibc_merkle.specs.Written.{written_proof};

use crate::affix::Affix;
use crate::entry::KeyValue;
use crate::proof::{Absence, Operation, Operations, Presence, Proof};
use crate::search::place;
use crate::tree::{digests_of, split_of};
use ibc_ids::{Bytes, Refusal};
use std::alloc::{AllocError, Global};

/// The proof of what pairs have at a key: of its presence where it is among them, and of its absence where not. The
/// keys strictly rise in byte order. `NoMemory` where a growth is refused. All pairs are hashed.
pub fn prove(alloc: Global, entries: &[KeyValue], key: &[u8]) -> Result<Proof, Refusal>
    requires { IsTrue (is_sorted text_cmp entries.now) }
    ensures ok { IfOk result (λ proof. proof ≡ written_proof entries.now key.now) }
    ensures err { IsOkUnless result NoMemory }
{
    let digests = digests_of(alloc, entries)?;
    Ok(prove_by(alloc, entries, digests.as_slice(), key)?)
}

// The proof of what pairs have at a key, by the digests of their tree.
fn prove_by(
    alloc: Global,
    entries: &[KeyValue],
    digests: &[[u8; 32]],
    key: &[u8],
) -> Result<Proof, AllocError>
    requires sorted { IsTrue (is_sorted text_cmp entries.now) }
    requires digests { digests.now ≡ digests_of entries.now }
    ensures { IfOk result (λ proof. proof ≡ written_proof entries.now key.now) }
{
    match place(entries, key) {
        Ok(index) => Ok(Proof::Present(presence_at(alloc, entries, digests, index)?)),
        Err(index) => Ok(Proof::Absent(absence_at(alloc, entries, digests, index, key)?)),
    }
}

/// The proof that a key has its value (ICS 23, "CreateMembershipProof"). The keys strictly rise in byte order, and it
/// is among them. `NoMemory` where a growth is refused.
pub fn prove_present(alloc: Global, entries: &[KeyValue], key: &[u8]) -> Result<Proof, Refusal>
    requires sorted { IsTrue (is_sorted text_cmp entries.now) }
    requires there { IsSome (at text_cmp key.now entries.now) }
    ensures ok { IfOk result (λ proof. proof ≡ written_proof entries.now key.now) }
    ensures err { IsOkUnless result NoMemory }
{
    prove(alloc, entries, key)
}

/// The proof that a key isn't there (ICS 23, "CreateNonMembershipProof"). The keys strictly rise in byte order, and it
/// is not among them. `NoMemory` where a growth is refused.
pub fn prove_absent(alloc: Global, entries: &[KeyValue], key: &[u8]) -> Result<Proof, Refusal>
    requires sorted { IsTrue (is_sorted text_cmp entries.now) }
    requires missing { IsNone (at text_cmp key.now entries.now) }
    ensures ok { IfOk result (λ proof. proof ≡ written_proof entries.now key.now) }
    ensures err { IsOkUnless result NoMemory }
{
    prove(alloc, entries, key)
}

// The proof that the key at the index has its value.
fn presence_at(
    alloc: Global,
    entries: &[KeyValue],
    digests: &[[u8; 32]],
    index: usize,
) -> Result<Presence, AllocError>
    requires sorted { IsTrue (is_sorted text_cmp entries.now) }
    requires digests { digests.now ≡ digests_of entries.now }
    requires there { index < length entries.now }
    ensures { IfOk result (λ presence. own_proof entries.now index ≡ Some presence) }
{
    let entry = &entries[index];
    let mut operations = Vec::new(alloc);
    add_operations(&mut operations, entries, digests, index)?;
    Ok(Presence {
        key: Bytes::copy_of(alloc, entry.key())?,
        value: Bytes::copy_of(alloc, entry.value())?,
        leaf_prefix: Affix::short([0u8].as_slice()),
        operations: Operations::from_vec(operations),
    })
}

// Adds the operations from the leaf at the index up to the root.
fn add_operations(
    operations: &mut Vec<Operation>,
    entries: &[KeyValue],
    digests: &[[u8; 32]],
    index: usize,
) -> Result<(), AllocError>
    requires sorted { IsTrue (is_sorted text_cmp entries.now) }
    requires digests { digests.now ≡ digests_of entries.now }
    requires there { index < length entries.now }
    ensures { IfOk result (λ _. AddsPathTo entries.now index operations.old.items operations.new.items) }
{
    if entries.len() == 1 {
        return Ok(());
    }
    let split = split_of(entries.len());
    let (left, right) = entries.split_at(split);
    let (left_digests, rest) = digests.split_at(2 * split - 1);
    let right_digests = &rest[..rest.len() - 1];
    if index < split {
        add_operations(operations, left, left_digests, index)?;
        operations.push(Operation::on_left_child(&right_digests[right_digests.len() - 1]))?;
    } else {
        add_operations(operations, right, right_digests, index - split)?;
        operations.push(Operation::on_right_child(&left_digests[left_digests.len() - 1]))?;
    }
    Ok(())
}

// The proof that a key isn't there, which would stand at the index.
fn absence_at(
    alloc: Global,
    entries: &[KeyValue],
    digests: &[[u8; 32]],
    index: usize,
    key: &[u8],
) -> Result<Absence, AllocError>
    requires sorted { IsTrue (is_sorted text_cmp entries.now) }
    requires digests { digests.now ≡ digests_of entries.now }
    requires within { index ≤ length entries.now }
    ensures key { IfOk result (λ absence. absence.key ≡ key.now) }
    ensures left { IfOk result (λ absence. absence.left ≡ left_proof entries.now index) }
    ensures right { IfOk result (λ absence. absence.right ≡ own_proof entries.now index) }
{
    Ok(Absence {
        key: Bytes::copy_of(alloc, key)?,
        left: left_neighbour(alloc, entries, digests, index)?,
        right: right_neighbour(alloc, entries, digests, index)?,
    })
}

// The proof of the pair before the index, if there is one.
fn left_neighbour(
    alloc: Global,
    entries: &[KeyValue],
    digests: &[[u8; 32]],
    index: usize,
) -> Result<Option<Presence>, AllocError>
    requires sorted { IsTrue (is_sorted text_cmp entries.now) }
    requires digests { digests.now ≡ digests_of entries.now }
    requires within { index ≤ length entries.now }
    ensures { IfOk result (λ presence. presence ≡ left_proof entries.now index) }
{
    match index.checked_sub(1) {
        Some(before) => Ok(Some(presence_at(alloc, entries, digests, before)?)),
        None => Ok(None),
    }
}

// The proof of the pair at the index, if there is one.
fn right_neighbour(
    alloc: Global,
    entries: &[KeyValue],
    digests: &[[u8; 32]],
    index: usize,
) -> Result<Option<Presence>, AllocError>
    requires sorted { IsTrue (is_sorted text_cmp entries.now) }
    requires digests { digests.now ≡ digests_of entries.now }
    ensures { IfOk result (λ presence. presence ≡ own_proof entries.now index) }
{
    if index < entries.len() {
        Ok(Some(presence_at(alloc, entries, digests, index)?))
    } else {
        Ok(None)
    }
}
