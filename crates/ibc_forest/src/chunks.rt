//! Full chunks of nodes, in groups that snapshots share.

ghost use Rattle.std.specs.Prelude.{◌≡◌, ◌∷◌, ◌++◌, [], option_map, slice_get, OnOk, OnErr, IfOk, IfErr};

use crate::node::ArenaNode;
use std::alloc::{AllocError, Global};
use std::marker::Model;
use std::mem;
use std::sync::Arc;

/// How many nodes a chunk has, and how many chunks a group.
pub(crate) const SIZE: usize = 128;

/// Chunks of nodes that only come. Full groups of them don't change any more, and are shared, and so is each chunk. Contracts
/// see the nodes of each chunk.
#[derive(Drop, Debug)]
pub struct Chunks {
    groups: Vec<Arc<Vec<Arc<Vec<ArenaNode>>>>>,
    begun: Vec<Arc<Vec<ArenaNode>>>,
}

impl Model for Chunks {
    ghost use Rattle.std.specs.Prelude.{◌++◌, List};
    ghost use Rattle.ibc_forest.specs.declared.node.ArenaNode.{ArenaNode};
    ghost use Rattle.ibc_forest.specs.Shelves.{chunk_items, groups_items, concatenated, AreFull};

    ghost Value = { List (List ArenaNode) };

    ghost view = { λ chunks. concatenated (groups_items chunks.groups.items) ++ chunk_items chunks.begun.items };

    ghost invariant = { λ chunks. AreFull (groups_items chunks.groups.items) };
}

impl Chunks {
    /// No chunk.
    pub fn new(alloc: Global) -> Chunks
        ensures { result ≡ [] }
    {
        Chunks {
            groups: Vec::new(alloc),
            begun: Vec::new(alloc),
        }
    }

    /// The nodes of a chunk, if there are so many.
    pub fn chunk(&self, index: usize) -> Option<&[ArenaNode]>
        ensures { option_map (λ chunk. chunk.now) result ≡ slice_get self.now index }
    {
        let group = index / SIZE;
        if group < self.groups.len() {
            return Some(self.groups[group][index % SIZE].as_slice());
        }
        let place = index - SIZE * self.groups.len();
        if place < self.begun.len() {
            return Some(self.begun[place].as_slice());
        }
        None
    }

    /// Adds a chunk, which is moved in. Where memory is refused, it is handed back.
    pub fn push(&mut self, chunk: Vec<ArenaNode>) -> Result<(), Vec<ArenaNode>>
        ensures ok { OnOk result (self.new ≡ self.old ++ chunk.items ∷ []) }
        ensures err { OnErr result (self.new ≡ self.old) }
        ensures back { IfErr result (λ back. back.items ≡ chunk.items) }
    {
        let Ok(()) = self.close() else {
            return Err(chunk);
        };
        let Ok(()) = self.begun.reserve(1) else {
            return Err(chunk);
        };
        let alloc = *self.begun.allocator();
        match Arc::new(alloc, chunk) {
            Ok(chunk) => {
                self.begun.push_reserved(chunk);
                Ok(())
            }
            Err(failed) => Err(failed.value),
        }
    }

    // Puts the open group among the full ones, once it is full.
    fn close(&mut self) -> Result<(), AllocError>
        ensures { self.new ≡ self.old }
    {
        if self.begun.len() != SIZE {
            return Ok(());
        }
        let alloc = *self.begun.allocator();
        self.groups.reserve(1)?;
        let begun = mem::replace(&mut self.begun, Vec::new(alloc));
        match Arc::new(alloc, begun) {
            Ok(group) => {
                self.groups.push_reserved(group);
                Ok(())
            }
            Err(failed) => {
                self.begun = failed.value;
                Err(AllocError)
            }
        }
    }

    /// A copy of the chunks: all of them are shared, and full groups too.
    pub fn snapshot(&self) -> Result<Chunks, AllocError>
        ensures { IfOk result (λ copy. copy ≡ self.now) }
    {
        let groups = self.groups.clone()?;
        let begun = self.begun.clone()?;
        Ok(Chunks { groups, begun })
    }
}
