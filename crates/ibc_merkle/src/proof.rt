//! What a proof holds (ICS 23, "Proofs").

ghost use Rattle.std.specs.Prelude.{◌≡◌};
ghost use Rattle.ibc_merkle.specs.Written.{left_child, right_child};

use crate::affix::Affix;
use ibc_ids::{Bytes, ListOf};

/// One inner operation (ICS 23, "InnerOp"): it hashes the prefix, the child's hash and the suffix.
#[derive(Drop, Debug, PartialEq, Eq)]
pub struct Operation {
    pub prefix: Affix,
    pub suffix: Affix,
}

impl Operation {
    /// The operation on a left child beside this sibling: the mark of an inner node before the child's hash, and the
    /// sibling behind it.
    pub fn on_left_child(sibling: &[u8; 32]) -> Operation
        ensures { result ≡ left_child sibling.now }
    {
        Operation {
            prefix: Affix::short([1u8].as_slice()),
            suffix: Affix::short(sibling.as_slice()),
        }
    }

    /// The operation on a right child beside this sibling: the mark of an inner node and the sibling before the child's
    /// hash, and nothing behind it.
    pub fn on_right_child(sibling: &[u8; 32]) -> Operation
        ensures { result ≡ right_child sibling.now }
    {
        let mut prefix = [1; 33];
        prefix[1..].copy_from_slice(sibling.as_slice());
        Operation {
            prefix: Affix::short(prefix.as_slice()),
            suffix: Affix::short([].as_slice()),
        }
    }
}

/// The operations from a leaf up to the root.
pub type Operations = ListOf<Operation>;

/// That a key has a value (ICS 23, "ExistenceProof").
#[derive(Drop, Debug, PartialEq, Eq)]
pub struct Presence {
    pub key: Bytes,
    pub value: Bytes,
    pub leaf_prefix: Affix,
    pub operations: Operations,
}

/// That a key isn't there (ICS 23, "NonExistenceProof"): its neighbours are, and nothing stands between them. A
/// neighbour is missing before the first key and behind the last.
#[derive(Drop, Debug, PartialEq, Eq)]
pub struct Absence {
    pub key: Bytes,
    pub left: Option<Presence>,
    pub right: Option<Presence>,
}

/// A proof that a key has a value, or that it isn't there (ICS 23, "CommitmentProof").
#[derive(Drop, Debug, PartialEq, Eq)]
pub enum Proof {
    /// The key has the value.
    Present(Presence),
    /// The key isn't there.
    Absent(Absence),
}
