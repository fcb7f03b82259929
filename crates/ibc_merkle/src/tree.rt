//! The tree over pairs, its root and its digests (RFC 6962, section 2.1).

ghost use Rattle.std.specs.Prelude.{◌≡◌, ◌<◌, ◌∷◌, ◌++◌, [], length, IfOk, OnOk};
ghost use Rattle.ibc_merkle.specs.Hash.{hash, leaf_text, leaf_mark};
ghost use Rattle.ibc_merkle.specs.Tree.{largest_power_below, tree_root};
ghost use Rattle.ibc_merkle.specs.NodeDigests.{digests_of};

use crate::entry::KeyValue;
use crate::hashing::{inner_digest, leaf_digest, value_digest};
use ibc_ids::Root;
use std::alloc::{AllocError, Global};

/// The root of the tree over pairs, of which there is one at least (ICS 23, "CommitmentRoot"). It is meant for pairs
/// whose keys strictly rise in byte order, since only these have proofs. It takes no memory.
pub fn root(entries: &[KeyValue]) -> Root
    requires { 0 < length entries.now }
    ensures { result ≡ tree_root entries.now }
{
    Root::from_bytes(tree_root_of(entries))
}

// The hash of a pair's leaf.
fn leaf_hash(entry: &KeyValue) -> [u8; 32]
    ensures { result ≡ hash (leaf_text leaf_mark entry.now.0 entry.now.1) }
{
    leaf_digest(entry.key(), &value_digest(entry.value()))
}

/// The largest power of two below a number of leaves, of which there are two at least: how many of them stand on the
/// left (RFC 6962, section 2.1).
pub fn split_of(leaves: usize) -> usize
    requires { 1 < leaves }
    ensures power { result ≡ largest_power_below leaves }
    ensures some { 0 < result }
    ensures below { result < leaves }
{
    let mut split = 1;
    while split < leaves - split {
        split *= 2;
    }
    split
}

// The root of the tree over the pairs.
pub(crate) fn tree_root_of(entries: &[KeyValue]) -> [u8; 32]
    requires { 0 < length entries.now }
    ensures { result ≡ tree_root entries.now }
{
    if entries.len() == 1 {
        return leaf_hash(&entries[0]);
    }
    let (left, right) = entries.split_at(split_of(entries.len()));
    inner_digest(&tree_root_of(left), &tree_root_of(right))
}

// The digests of the tree over the pairs.
pub(crate) fn digests_of(alloc: Global, entries: &[KeyValue]) -> Result<Vec<[u8; 32]>, AllocError>
    ensures { IfOk result (λ digests. digests.items ≡ digests_of entries.now) }
{
    if entries.is_empty() {
        return Ok(Vec::new(alloc));
    }
    let mut digests = Vec::with_capacity(alloc, entries.len().saturating_mul(2))?;
    add_digests(&mut digests, entries)?;
    Ok(digests)
}

// Adds the digests of the tree over the pairs. The last of them, which is the root, is answered.
fn add_digests(digests: &mut Vec<[u8; 32]>, entries: &[KeyValue]) -> Result<[u8; 32], AllocError>
    requires { 0 < length entries.now }
    ensures root { IfOk result (λ digest. digest ≡ tree_root entries.now) }
    ensures added { OnOk result (digests.new.items ≡ digests.old.items ++ digests_of entries.now) }
{
    if entries.len() == 1 {
        return add_digest(digests, leaf_hash(&entries[0]));
    }
    let (left, right) = entries.split_at(split_of(entries.len()));
    let left = add_digests(digests, left)?;
    let right = add_digests(digests, right)?;
    add_digest(digests, inner_digest(&left, &right))
}

// Adds a digest, and answers it.
fn add_digest(digests: &mut Vec<[u8; 32]>, digest: [u8; 32]) -> Result<[u8; 32], AllocError>
    ensures same { IfOk result (λ added. added ≡ digest) }
    ensures added { OnOk result (digests.new.items ≡ digests.old.items ++ digest ∷ []) }
{
    digests.push(digest)?;
    Ok(digest)
}
