//! The tree of a committed height.

ghost use Rattle.std.specs.Prelude.{◌≡◌, ◌<◌, length, IfOk, IsOkUnless};
ghost use Rattle.ibc_ids.specs.declared.refusal.Refusal.TheVariants.{NoMemory};
ghost use Rattle.ibc_merkle.specs.Tree.{tree_root};
ghost use Rattle.ibc_merkle.specs.Written.{written_proof};

use ibc_forest::SharedTree;
use ibc_ids::{Refusal, Root};
use ibc_merkle::Proof;
use std::alloc::Global;
use std::marker::Model;

/// The tree over the pairs of a committed height (ICS 23, "CommitmentState"). It is a value of its own: it stays as it is
/// while its store goes on, and outlives it. Contracts see the pairs.
#[derive(Drop, Debug)]
pub struct CommittedTree {
    shared: SharedTree,
}

impl Model for CommittedTree {
    ghost use Rattle.ibc_merkle.specs.Tree.{Pairs};

    ghost Value = { Pairs };

    ghost view = { λ tree. tree.shared };
}

impl CommittedTree {
    // This tree.
    pub(crate) fn new(shared: SharedTree) -> CommittedTree
        ensures { result ≡ shared }
    {
        CommittedTree { shared }
    }

    /// The root of the tree, which has a pair (ICS 23, "CommitmentRoot"). Nothing is hashed for it.
    pub fn root(&self) -> Root
        requires { 0 < length self.now }
        ensures { result ≡ tree_root self.now }
    {
        self.shared.root()
    }

    /// The proof of what the pairs have at a key: of its presence where it is among them, and of its absence where not
    /// (ICS 23, "CommitmentProof"). Nothing is hashed for it. `NoMemory` where a growth is refused.
    pub fn prove(&self, alloc: Global, key: &[u8]) -> Result<Proof, Refusal>
        ensures ok { IfOk result (λ proof. proof ≡ written_proof self.now key.now) }
        ensures err { IsOkUnless result NoMemory }
    {
        self.shared.prove(alloc, key)
    }
}
