//! The hashes of a tree (ICS 23, "LeafOp" and "InnerOp"; RFC 6962, section 2.1).

ghost use Rattle.std.specs.Prelude.{◌≡◌, ◌∷◌, ◌++◌, length};
ghost use Rattle.ibc_ids.specs.Texts.{Text};
ghost use Rattle.ibc_merkle.specs.Hash.{hash, varint, leaf_mark, inner_text, one_more};
ghost use Rattle.sha2.specs.Hashers.{Holds256};

use crate::steps::Steps;
use sha2::{Digest, Sha256};

/// The hash of a leaf's value. One text is hashed.
pub fn hash_value(value: &[u8], steps: &mut Steps) -> [u8; 32]
    ensures digest { result ≡ hash value.now }
    ensures steps { steps.new ≡ one_more steps.old }
{
    steps.add();
    value_digest(value)
}

/// The hash of a leaf, of its key and its value's hash. One text is hashed.
pub fn hash_leaf(key: &[u8], value_hash: &[u8; 32], steps: &mut Steps) -> [u8; 32]
    ensures digest { result ≡ hash (leaf_mark ++ varint (length key.now) ++ key.now ++ 0x20 ∷ value_hash.now) }
    ensures steps { steps.new ≡ one_more steps.old }
{
    steps.add();
    leaf_digest(key, value_hash)
}

/// The hash of an inner node, of its children's hashes. One text is hashed.
pub fn hash_inner(left: &[u8; 32], right: &[u8; 32], steps: &mut Steps) -> [u8; 32]
    ensures digest { result ≡ hash (inner_text left.now right.now) }
    ensures steps { steps.new ≡ one_more steps.old }
{
    steps.add();
    inner_digest(left, right)
}

// The hash of a leaf's value.
pub(crate) fn value_digest(value: &[u8]) -> [u8; 32]
    ensures { result ≡ hash value.now }
{
    Sha256::digest(value)
}

// The hash of a leaf, of its key and its value's hash.
pub(crate) fn leaf_digest(key: &[u8], value_hash: &[u8; 32]) -> [u8; 32]
    ensures { result ≡ hash (leaf_mark ++ varint (length key.now) ++ key.now ++ 0x20 ∷ value_hash.now) }
{
    let mut hasher = Sha256::new();
    hasher.update([0u8].as_slice());
    update_varint(&mut hasher, key.len());
    hasher.update(key);
    hasher.update([32u8].as_slice());
    hasher.update(value_hash.as_slice());
    hasher.finalize()
}

// The hash of an inner node, of its children's hashes.
pub(crate) fn inner_digest(left: &[u8; 32], right: &[u8; 32]) -> [u8; 32]
    ensures { result ≡ hash (inner_text left.now right.now) }
{
    let mut hasher = Sha256::new();
    hasher.update([1u8].as_slice());
    hasher.update(left.as_slice());
    hasher.update(right.as_slice());
    hasher.finalize()
}

// Adds a length as unsigned LEB128 to what the hasher holds.
fn update_varint(hasher: &mut Sha256, n: usize)
    ensures { (held : Text) → Holds256 hasher.old held → Holds256 hasher.new (held ++ varint n) }
{
    if n < 128 {
        hasher.update([n as u8].as_slice());
    } else {
        hasher.update([(128 + n % 128) as u8].as_slice());
        update_varint(hasher, n / 128);
    }
}
