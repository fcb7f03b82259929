//! The writing of proofs from the nodes of a tree (ICS 23, "CreateMembershipProof" and "CreateNonMembershipProof").

ghost use Rattle.std.specs.Prelude.{◌≡◌, ◌<◌, ◌≤◌, Some, IsTrue, IfOk};
ghost use Rattle.std.specs.FinMap.{is_sorted};
ghost use Rattle.ibc_ids.specs.Texts.{text_cmp};
ghost use Rattle.ibc_merkle.specs.PlacedProofs.{own_proof, left_proof};
ghost use Rattle.ibc_merkle.specs.Written.{written_proof};
ghost use Rattle.ibc_forest.specs.Heights.{pairs_of, IsTreeOver};

use crate::descent::{entry_at, operations_from};
use crate::nodes::Nodes;
use crate::place::place_in;
use ibc_ids::Bytes;
use ibc_merkle::{Absence, Affix, Operations, Presence, Proof};
use std::alloc::{AllocError, Global};

// The proof of what a tree has at a key: of its presence where it is among the pairs, and of its absence where not. The
// keys strictly rise in byte order. Nothing is hashed.
pub(crate) fn prove_in(
    alloc: Global,
    nodes: &Nodes,
    root: usize,
    count: usize,
    key: &[u8],
) -> Result<Proof, AllocError>
    requires over { IsTreeOver nodes.now root count }
    requires sorted { IsTrue (is_sorted text_cmp (pairs_of nodes.now root)) }
    ensures { IfOk result (λ proof. proof ≡ written_proof (pairs_of nodes.now root) key.now) }
{
    match place_in(nodes, root, count, key) {
        Ok(index) => Ok(Proof::Present(presence_at(alloc, nodes, root, count, index)?)),
        Err(index) => Ok(Proof::Absent(absence_at(alloc, nodes, root, count, index, key)?)),
    }
}

// The proof that the key at the index has its value.
fn presence_at(
    alloc: Global,
    nodes: &Nodes,
    root: usize,
    count: usize,
    index: usize,
) -> Result<Presence, AllocError>
    requires over { IsTreeOver nodes.now root count }
    requires sorted { IsTrue (is_sorted text_cmp (pairs_of nodes.now root)) }
    requires there { index < count }
    ensures { IfOk result (λ presence. own_proof (pairs_of nodes.now root) index ≡ Some presence) }
{
    let entry = entry_at(nodes, root, count, index);
    let operations = operations_from(alloc, nodes, root, count, index, 0)?;
    Ok(Presence {
        key: Bytes::copy_of(alloc, entry.key())?,
        value: Bytes::copy_of(alloc, entry.value())?,
        leaf_prefix: Affix::short([0u8].as_slice()),
        operations: Operations::from_vec(operations),
    })
}

// The proof that a key isn't there, which would stand at the index.
fn absence_at(
    alloc: Global,
    nodes: &Nodes,
    root: usize,
    count: usize,
    index: usize,
    key: &[u8],
) -> Result<Absence, AllocError>
    requires over { IsTreeOver nodes.now root count }
    requires sorted { IsTrue (is_sorted text_cmp (pairs_of nodes.now root)) }
    requires within { index ≤ count }
    ensures key { IfOk result (λ absence. absence.key ≡ key.now) }
    ensures left { IfOk result (λ absence. absence.left ≡ left_proof (pairs_of nodes.now root) index) }
    ensures right { IfOk result (λ absence. absence.right ≡ own_proof (pairs_of nodes.now root) index) }
{
    Ok(Absence {
        key: Bytes::copy_of(alloc, key)?,
        left: left_neighbour(alloc, nodes, root, count, index)?,
        right: right_neighbour(alloc, nodes, root, count, index)?,
    })
}

// The proof of the pair before the index, if there is one.
fn left_neighbour(
    alloc: Global,
    nodes: &Nodes,
    root: usize,
    count: usize,
    index: usize,
) -> Result<Option<Presence>, AllocError>
    requires over { IsTreeOver nodes.now root count }
    requires sorted { IsTrue (is_sorted text_cmp (pairs_of nodes.now root)) }
    requires within { index ≤ count }
    ensures { IfOk result (λ presence. presence ≡ left_proof (pairs_of nodes.now root) index) }
{
    match index.checked_sub(1) {
        Some(before) => Ok(Some(presence_at(alloc, nodes, root, count, before)?)),
        None => Ok(None),
    }
}

// The proof of the pair at the index, if there is one.
fn right_neighbour(
    alloc: Global,
    nodes: &Nodes,
    root: usize,
    count: usize,
    index: usize,
) -> Result<Option<Presence>, AllocError>
    requires over { IsTreeOver nodes.now root count }
    requires sorted { IsTrue (is_sorted text_cmp (pairs_of nodes.now root)) }
    ensures { IfOk result (λ presence. presence ≡ own_proof (pairs_of nodes.now root) index) }
{
    if index < count {
        Ok(Some(presence_at(alloc, nodes, root, count, index)?))
    } else {
        Ok(None)
    }
}
