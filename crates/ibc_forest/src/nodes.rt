//! Nodes as the trees that they are.

ghost use Rattle.std.specs.Prelude.{◌≡◌, ◌<◌, ◌∷◌, ◌++◌, [], length, OnOk, OnErr, IfOk};
ghost use Rattle.ibc_merkle.specs.Tree.{root};
ghost use Rattle.ibc_forest.specs.Levels.{leaf_of, tree_at};
ghost use Rattle.ibc_forest.specs.Nodes.{tree_of_node, ChildrenStand, IsRight, first_pair};

use crate::node::{ArenaNode, Below};
use crate::shared_entry::SharedEntry;
use crate::shelf::Shelf;
use std::alloc::{AllocError, Global};
use std::marker::Model;

/// Nodes that only come, and never change. Contracts see the tree of each, by its number.
#[derive(Drop, Debug)]
pub struct Nodes {
    shelf: Shelf,
}

impl Model for Nodes {
    ghost use Rattle.std.specs.Prelude.{List, []};
    ghost use Rattle.ibc_merkle.specs.Tree.{Tree};
    ghost use Rattle.ibc_forest.specs.Codes.{trees_code};

    ghost Value = { List Tree };

    ghost coded = { trees_code };

    ghost use Rattle.ibc_forest.specs.Nodes.{trees_of, AreRight};

    ghost view = { λ nodes. trees_of nodes.shelf };

    ghost invariant = { λ nodes. AreRight [] nodes.shelf };
}

impl Nodes {
    /// No node.
    pub fn new(alloc: Global) -> Nodes
        ensures { result ≡ [] }
    {
        Nodes {
            shelf: Shelf::new(alloc),
        }
    }

    /// The digest of a node.
    pub fn digest(&self, number: usize) -> [u8; 32]
        requires { number < length self.now }
        ensures { result ≡ root (tree_at self.now number) }
    {
        self.shelf.node(number).digest
    }

    /// What stands below a node.
    pub fn below(&self, number: usize) -> &Below
        requires { number < length self.now }
        ensures built { tree_at self.now number ≡ tree_of_node self.now result.now }
        ensures stand { ChildrenStand self.now result.now }
    {
        &self.shelf.node(number).below
    }

    /// The number of the first leaf below a node.
    pub fn first(&self, number: usize) -> usize
        requires { number < length self.now }
        ensures there { result < length self.now }
        ensures leaf { tree_at self.now result ≡ leaf_of (first_pair (tree_at self.now number)) }
    {
        self.shelf.node(number).first
    }

    /// The pair of the first leaf below a node. No other node is read than these two.
    pub fn first_entry(&self, number: usize) -> &SharedEntry
        requires { number < length self.now }
        ensures { result.now ≡ first_pair (tree_at self.now number) }
    {
        match self.below(self.first(number)) {
            Below::Record(entry) => entry,
            Below::Children(_, _) => unreachable!(),
        }
    }

    /// Adds a node with its digest.
    pub fn add(&mut self, node: ArenaNode) -> Result<(), AllocError>
        requires { IsRight self.old node }
        ensures ok { OnOk result (self.new ≡ self.old ++ tree_of_node self.old node.below ∷ []) }
        ensures err { OnErr result (self.new ≡ self.old) }
    {
        self.shelf.push(node)?;
        Ok(())
    }

    /// How many nodes more come without a request for memory.
    pub fn room(&self) -> usize {
        self.shelf.room()
    }

    /// The same nodes once more: all but the last few are shared.
    pub fn snapshot(&self) -> Result<Nodes, AllocError>
        ensures { IfOk result (λ copy. copy ≡ self.now) }
    {
        Ok(Nodes {
            shelf: self.shelf.snapshot()?,
        })
    }
}
