//! Nodes in chunks that snapshots share.

ghost use Rattle.std.specs.Prelude.{◌≡◌, ◌<◌, ◌≤◌, ◌∷◌, ◌++◌, [], length, slice_index_or, OnOk, OnErr, IfOk};
ghost use Rattle.ibc_forest.specs.Shelves.{concatenated, AreFull};

use crate::chunks::{Chunks, SIZE};
use crate::node::ArenaNode;
use std::alloc::{AllocError, Global};
use std::marker::Model;
use std::mem;

/// Nodes that only come. Full chunks don't change any more, and are shared. Contracts see the list of all nodes.
#[derive(Drop, Debug)]
pub struct Shelf {
    full: Chunks,
    begun: Vec<ArenaNode>,
}

impl Model for Shelf {
    ghost use Rattle.std.specs.Prelude.{◌≤◌, ◌++◌, List, length};
    ghost use Rattle.ibc_forest.specs.declared.node.ArenaNode.{ArenaNode};
    ghost use Rattle.ibc_forest.specs.Shelves.{concatenated, AreFull};

    ghost Value = { List ArenaNode };

    ghost view = { λ shelf. concatenated shelf.full ++ shelf.begun.items };

    ghost invariant = { λ shelf. AreFull shelf.full × (length shelf.begun.items ≤ 128) };
}

impl Shelf {
    /// A shelf with no node.
    pub fn new(alloc: Global) -> Shelf
        ensures { result ≡ [] }
    {
        Shelf {
            full: Chunks::new(alloc),
            begun: Vec::new(alloc),
        }
    }

    /// The node of a number.
    pub fn node(&self, number: usize) -> &ArenaNode
        requires { number < length self.now }
        ensures { result.now ≡ slice_index_or self.now number result.now }
    {
        match self.full.chunk(number / SIZE) {
            Some(chunk) => &chunk[number % SIZE],
            None => &self.begun[number % SIZE],
        }
    }

    /// Adds a node.
    pub fn push(&mut self, node: ArenaNode) -> Result<(), AllocError>
        ensures ok { OnOk result (self.new ≡ self.old ++ node ∷ []) }
        ensures err { OnErr result (self.new ≡ self.old) }
    {
        close(&mut self.full, &mut self.begun)?;
        self.begun.push(node)?;
        Ok(())
    }

    /// How many nodes more the open chunk has memory for.
    pub fn room(&self) -> usize {
        self.begun
            .capacity()
            .min(SIZE)
            .saturating_sub(self.begun.len())
    }

    /// A copy of the shelf: full chunks are shared, the open one is copied.
    pub fn snapshot(&self) -> Result<Shelf, AllocError>
        ensures { IfOk result (λ copy. copy ≡ self.now) }
    {
        let full = self.full.snapshot()?;
        let begun = self.begun.clone()?;
        Ok(Shelf { full, begun })
    }
}

// Puts the open chunk among the full ones, once it is full.
fn close(full: &mut Chunks, begun: &mut Vec<ArenaNode>) -> Result<(), AllocError>
    requires full { AreFull full.old }
    requires most { length begun.old.items ≤ 128 }
    ensures same { concatenated full.new ++ begun.new.items ≡ concatenated full.old ++ begun.old.items }
    ensures full { AreFull full.new }
    ensures most { length begun.new.items ≤ 128 }
    ensures room { OnOk result (length begun.new.items < 128) }
{
    if begun.len() < SIZE {
        return Ok(());
    }
    let alloc = *begun.allocator();
    let chunk = mem::replace(begun, Vec::new(alloc));
    match full.push(chunk) {
        Ok(()) => Ok(()),
        Err(chunk) => {
            *begun = chunk;
            Err(AllocError)
        }
    }
}
