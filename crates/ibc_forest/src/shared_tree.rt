//! The tree of one height, as a value of its own.

ghost use Rattle.std.specs.Prelude.{◌≡◌, IsTrue, IfOk, IsOkUnless};
ghost use Rattle.std.specs.FinMap.{is_sorted};
ghost use Rattle.ibc_ids.specs.Texts.{text_cmp};
ghost use Rattle.ibc_ids.specs.declared.refusal.Refusal.TheVariants.{NoMemory};
ghost use Rattle.ibc_merkle.specs.Tree.{tree_root};
ghost use Rattle.ibc_merkle.specs.Written.{written_proof};
ghost use Rattle.ibc_forest.specs.Heights.{pairs_of, IsTreeOver};

use crate::nodes::Nodes;
use crate::proving::prove_in;
use ibc_ids::{Refusal, Root};
use ibc_merkle::Proof;
use std::alloc::Global;
use std::marker::Model;

/// The tree over the pairs of a height, which has one at least. It stays as it is while its forest goes on, and outlives
/// it. Contracts see the pairs.
#[derive(Drop, Debug)]
pub struct SharedTree {
    nodes: Nodes,
    root: usize,
    count: usize,
}

impl Model for SharedTree {
    ghost use Rattle.std.specs.Prelude.{IsTrue};
    ghost use Rattle.std.specs.FinMap.{is_sorted};
    ghost use Rattle.ibc_ids.specs.Texts.{text_cmp};
    ghost use Rattle.ibc_merkle.specs.Tree.{Pairs};
    ghost use Rattle.ibc_forest.specs.Heights.{pairs_of, IsTreeOver};

    ghost Value = { Pairs };

    ghost view = { λ tree. pairs_of tree.nodes tree.root };

    ghost invariant = { λ tree. IsTreeOver tree.nodes tree.root tree.count × IsTrue (is_sorted text_cmp (pairs_of tree.nodes tree.root)) };
}

impl SharedTree {
    // The tree of a node.
    pub(crate) fn new(nodes: Nodes, root: usize, count: usize) -> SharedTree
        requires over { IsTreeOver nodes root count }
        requires sorted { IsTrue (is_sorted text_cmp (pairs_of nodes root)) }
        ensures { result ≡ pairs_of nodes root }
    {
        SharedTree { nodes, root, count }
    }

    /// The root of the tree (ICS 23, "CommitmentRoot"). Nothing is hashed for it.
    pub fn root(&self) -> Root
        ensures { result ≡ tree_root self.now }
    {
        Root::from_bytes(self.nodes.digest(self.root))
    }

    /// The proof of what the pairs have at a key: of its presence where it is among them, and of its absence where not
    /// (ICS 23, "CommitmentProof"). Nothing is hashed for it. `NoMemory` where a growth is refused.
    pub fn prove(&self, alloc: Global, key: &[u8]) -> Result<Proof, Refusal>
        ensures ok { IfOk result (λ proof. proof ≡ written_proof self.now key.now) }
        ensures err { IsOkUnless result NoMemory }
    {
        Ok(prove_in(alloc, &self.nodes, self.root, self.count, key)?)
    }
}
