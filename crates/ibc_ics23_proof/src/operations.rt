//! The operations from a leaf up to the root (ICS 23, "InnerOp").

ghost use Rattle.std.specs.Prelude.{◌≡◌, ◌&&◌, ◌∷◌, ◌++◌, length, not, map, reverse, IfSome};
ghost use Rattle.std.specs.List.{list_all};
ghost use Rattle.ibc_merkle.specs.Hash.{hash};
ghost use Rattle.ibc_merkle.specs.Proofs as proofs;

use crate::texts::is_same;
use ibc_merkle::Operation;
use sha2::{Digest, Sha256};

/// The bytes of an inner node's text: a mark and two hashes.
pub const NODE_LEN: usize = 65;

// Whether the operation is on a left child: the mark of an inner node, and the hash of its sibling behind.
fn goes_left(operation: &Operation) -> bool
    ensures { result ≡ proofs.goes_left operation.now }
{
    is_same(operation.prefix.as_slice(), [1u8].as_slice())
        && operation.suffix.as_slice().len() == 32
}

// Whether the operation is on a right child: the mark of an inner node, and the hash of its sibling before.
fn goes_right(operation: &Operation) -> bool
    ensures { result ≡ proofs.goes_right operation.now }
{
    let prefix = operation.prefix.as_slice();
    prefix.len() == 33
        && is_same(&prefix[..1], [1u8].as_slice())
        && is_same(operation.suffix.as_slice(), [].as_slice())
}

// Whether the operation hashes an inner node.
fn is_inner(operation: &Operation) -> bool
    ensures { result ≡ proofs.is_inner operation.now }
{
    goes_left(operation) || goes_right(operation)
}

/// Whether each operation hashes an inner node.
pub fn are_inner(operations: &[Operation]) -> bool
    ensures { result ≡ list_all proofs.is_inner operations.now }
{
    operations.iter().all(|operation| is_inner(operation))
}

/// What works out the hashes of a path's nodes.
pub trait NodeHasher {
    /// The hash of the operation's text over its child's hash.
    fn parent(&mut self, operation: &Operation, child: &[u8; 32]) -> [u8; 32]
        ensures { result ≡ hash (proofs.operation_text operation.now child.now) };
}

/// Hashes each node anew.
#[derive(Drop)]
pub struct Anew;

impl NodeHasher for Anew {
    fn parent(&mut self, operation: &Operation, child: &[u8; 32]) -> [u8; 32] {
        hash_operation(operation, child)
    }
}

/// The text of the operation over its child's hash, where both stand in it as in an inner node's; none otherwise.
#[tactic(auto, using(crate::proofs::NodeTexts::empty, crate::proofs::NodeTexts::one_byte))]
pub fn node_text(operation: &Operation, child: &[u8; 32]) -> Option<[u8; NODE_LEN]>
    ensures { IfSome result (λ text. text ≡ proofs.operation_text operation.now child.now) }
{
    let prefix = operation.prefix.as_slice();
    let suffix = operation.suffix.as_slice();
    match (prefix.len(), suffix.len()) {
        (1, 32) => Some(text_on_left(prefix[0], child, suffix)),
        (33, 0) => Some(text_on_right(prefix, child)),
        _ => None,
    }
}

// The text over a left child's hash: a byte before it, and a hash behind.
fn text_on_left(mark: u8, child: &[u8; 32], sibling: &[u8]) -> [u8; NODE_LEN]
    requires { length sibling.now ≡ 32 }
    ensures { result ≡ mark ∷ child.now ++ sibling.now }
{
    let mut text = [mark; NODE_LEN];
    text[1..33].copy_from_slice(child.as_slice());
    text[33..].copy_from_slice(sibling);
    text
}

// The text over a right child's hash: a byte and a hash before it.
fn text_on_right(prefix: &[u8], child: &[u8; 32]) -> [u8; NODE_LEN]
    requires { length prefix.now ≡ 33 }
    ensures { result ≡ prefix.now ++ child.now }
{
    let mut text = [0; NODE_LEN];
    text[..33].copy_from_slice(prefix);
    text[33..].copy_from_slice(child.as_slice());
    text
}

/// The hash of the operation's text over its child's hash.
pub fn hash_operation(operation: &Operation, child: &[u8; 32]) -> [u8; 32]
    ensures { result ≡ hash (proofs.operation_text operation.now child.now) }
{
    match node_text(operation, child) {
        Some(text) => Sha256::digest(text.as_slice()),
        None => hash_parts(operation, child),
    }
}

/// The hash of the operation's text, of any size, over its child's hash.
pub fn hash_parts(operation: &Operation, child: &[u8; 32]) -> [u8; 32]
    ensures { result ≡ hash (proofs.operation_text operation.now child.now) }
{
    let mut hasher = Sha256::new();
    hasher.update(operation.prefix.as_slice());
    hasher.update(child.as_slice());
    hasher.update(operation.suffix.as_slice());
    hasher.finalize()
}

/// The hash that the operations lead to from a leaf's hash.
pub fn climb<H: NodeHasher>(hasher: &mut H, leaf: [u8; 32], operations: &[Operation]) -> [u8; 32]
    ensures { result ≡ proofs.climb leaf operations.now }
{
    let mut child = leaf;
    for operation in operations {
        child = hasher.parent(operation, &child);
    }
    child
}

/// Whether each operation is on a left child, so that they lead to the first leaf.
pub fn are_left(operations: &[Operation]) -> bool
    ensures { result ≡ list_all proofs.goes_left operations.now }
{
    operations.iter().all(|operation| goes_left(operation))
}

/// Whether no operation is on a left child, so that they lead to the last leaf.
pub fn are_right(operations: &[Operation]) -> bool
    ensures { result ≡ list_all (λ operation. not (proofs.goes_left operation)) operations.now }
{
    operations.iter().all(|operation| !goes_left(operation))
}

// Whether two paths that part here lead to neighbours: the first to the left and then to the right only, the second to
// the right and then to the left only.
fn lead_to_neighbours(first_goes_left: bool, first: &[Operation], second: &[Operation]) -> bool
    ensures { result ≡ (first_goes_left && (list_all (λ operation. not (proofs.goes_left operation)) first.now && list_all proofs.goes_left second.now)) }
{
    first_goes_left && are_right(first) && are_left(second)
}

/// Whether the operations lead to two neighbours: read from the root down, they part once, to the left and to the right.
pub fn are_adjacent(left: &[Operation], right: &[Operation]) -> bool
    ensures { result ≡ proofs.are_adjacent (reverse (map proofs.goes_left left.now)) (reverse (map proofs.goes_left right.now)) }
{
    let mut lefts = left.len();
    let mut rights = right.len();
    while lefts > 0 && rights > 0 {
        lefts -= 1;
        rights -= 1;
        let left_turn = goes_left(&left[lefts]);
        if left_turn != goes_left(&right[rights]) {
            return lead_to_neighbours(left_turn, &left[..lefts], &right[..rights]);
        }
    }
    false
}
