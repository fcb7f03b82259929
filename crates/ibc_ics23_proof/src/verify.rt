//! The two tests.

ghost use Rattle.std.specs.Prelude.{◌≡◌, Some};
ghost use Rattle.ibc_merkle.specs.Hash.{leaf_mark};
ghost use Rattle.ibc_merkle.specs.Proofs as proofs;

use crate::memory::NodeMemory;
use crate::operations::{Anew, NodeHasher, are_adjacent, are_inner, are_left, are_right, climb};
use crate::texts::{is_same, stands_below};
use ibc_ids::Root;
use ibc_merkle::{Absence, Presence, Proof, Steps, hash_leaf, hash_value};

/// Whether the proof shows that the key has the value under the root (ICS 23, "VerifyMembership"). It takes no memory,
/// and hashes each node of a path once.
pub fn verify_present(proof: &Proof, root: &Root, key: &[u8], value: &[u8]) -> bool
    ensures { result ≡ proofs.accepts_present proof.now root.now key.now value.now }
{
    is_present(&mut Anew, proof, root, key, value)
}

/// Whether the proof shows that the key has the value under the root, as `verify_present` answers. Nodes whose hashes
/// the memory has aren't hashed again.
pub fn verify_present_with(
    memory: &mut NodeMemory,
    proof: &Proof,
    root: &Root,
    key: &[u8],
    value: &[u8],
) -> bool
    ensures { result ≡ proofs.accepts_present proof.now root.now key.now value.now }
{
    memory.ask();
    is_present(memory, proof, root, key, value)
}

/// Whether the proof shows that the key isn't there under the root (ICS 23, "VerifyNonMembership"). It takes no memory,
/// and hashes each node of a path once.
pub fn verify_absent(proof: &Proof, root: &Root, key: &[u8]) -> bool
    ensures { result ≡ proofs.accepts_absent proof.now root.now key.now }
{
    is_absent(&mut Anew, proof, root, key)
}

/// Whether the proof shows that the key isn't there under the root, as `verify_absent` answers. Nodes whose hashes the
/// memory has aren't hashed again.
pub fn verify_absent_with(memory: &mut NodeMemory, proof: &Proof, root: &Root, key: &[u8]) -> bool
    ensures { result ≡ proofs.accepts_absent proof.now root.now key.now }
{
    memory.ask();
    is_absent(memory, proof, root, key)
}

// Whether the proof shows that the key has the value.
fn is_present<H: NodeHasher>(
    hasher: &mut H,
    proof: &Proof,
    root: &Root,
    key: &[u8],
    value: &[u8],
) -> bool
    ensures { result ≡ proofs.accepts_present proof.now root.now key.now value.now }
{
    match proof {
        Proof::Present(presence) => {
            is_same(presence.key.as_slice(), key)
                && is_same(presence.value.as_slice(), value)
                && is_presence(hasher, root, presence)
        }
        Proof::Absent(_) => false,
    }
}

// Whether the proof shows that the key isn't there.
fn is_absent<H: NodeHasher>(hasher: &mut H, proof: &Proof, root: &Root, key: &[u8]) -> bool
    ensures { result ≡ proofs.accepts_absent proof.now root.now key.now }
{
    match proof {
        Proof::Absent(absence) => {
            is_same(absence.key.as_slice(), key) && is_surrounded(hasher, root, key, absence)
        }
        Proof::Present(_) => false,
    }
}

// Whether no key stands between the two neighbours, of which one may be missing at either end.
#[tactic(auto, using(crate::proofs::PathTurns::only_left_turns, crate::proofs::PathTurns::only_right_turns))]
fn is_surrounded<H: NodeHasher>(hasher: &mut H, root: &Root, key: &[u8], absence: &Absence) -> bool
    ensures { result ≡ proofs.are_neighbours_around root.now key.now absence.now.left absence.now.right }
{
    match (&absence.left, &absence.right) {
        (Some(left), Some(right)) => is_between(hasher, root, key, left, right),
        (None, Some(right)) => {
            is_presence(hasher, root, right)
                && stands_below(key, right.key.as_slice())
                && are_left(right.operations.as_slice())
        }
        (Some(left), None) => {
            is_presence(hasher, root, left)
                && stands_below(left.key.as_slice(), key)
                && are_right(left.operations.as_slice())
        }
        (None, None) => false,
    }
}

// Whether the key stands between two neighbours.
fn is_between<H: NodeHasher>(
    hasher: &mut H,
    root: &Root,
    key: &[u8],
    left: &Presence,
    right: &Presence,
) -> bool
    ensures { result ≡ proofs.are_neighbours_around root.now key.now (Some left.now) (Some right.now) }
{
    is_presence(hasher, root, left)
        && is_presence(hasher, root, right)
        && stands_below(left.key.as_slice(), key)
        && stands_below(key, right.key.as_slice())
        && are_adjacent(left.operations.as_slice(), right.operations.as_slice())
}

// Whether the proof shows that its own key has its own value under the root.
fn is_presence<H: NodeHasher>(hasher: &mut H, root: &Root, presence: &Presence) -> bool
    ensures { result ≡ proofs.is_presence root.now presence.now }
{
    if !is_same(presence.leaf_prefix.as_slice(), [0u8].as_slice()) {
        return false;
    }
    are_inner(presence.operations.as_slice())
        && is_same(
            presence_root(hasher, presence).as_slice(),
            root.bytes().as_slice(),
        )
}

// The root that a proof leads to, from the leaf of its own key and value.
fn presence_root<H: NodeHasher>(hasher: &mut H, presence: &Presence) -> [u8; 32]
    requires { presence.now.leaf_prefix ≡ leaf_mark }
    ensures { result ≡ proofs.presence_root presence.now }
{
    let mut steps = Steps::new();
    let value_hash = hash_value(presence.value.as_slice(), &mut steps);
    let leaf = hash_leaf(presence.key.as_slice(), &value_hash, &mut steps);
    climb(hasher, leaf, presence.operations.as_slice())
}
