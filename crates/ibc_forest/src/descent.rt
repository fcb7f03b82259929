//! Proofs, read off a tree from its root down.

ghost use Rattle.std.specs.Prelude.{◌≡◌, ◌+◌, ◌^◌, ◌<◌, ◌≤◌, vec_len, vec_capacity, slice_index_or, IsTrue, IfOk};
ghost use Rattle.std.specs.FinMap.{is_sorted};
ghost use Rattle.ibc_ids.specs.Texts.{text_cmp};
ghost use Rattle.ibc_merkle.specs.PlacedProofs.{IsPathTo};
ghost use Rattle.ibc_forest.specs.Heights.{pairs_of, IsTreeOver};

use crate::node::Below;
use crate::nodes::Nodes;
use crate::shared_entry::SharedEntry;
use ibc_merkle::{Operation, split_of};
use std::alloc::{AllocError, Global};

/// The pair at a place below a node.
pub fn entry_at(nodes: &Nodes, node: usize, count: usize, index: usize) -> &SharedEntry
    requires over { IsTreeOver nodes.now node count }
    requires there { index < count }
    ensures { result.now ≡ slice_index_or (pairs_of nodes.now node) index result.now }
{
    match nodes.below(node) {
        Below::Record(entry) => entry,
        Below::Children(left, right) => {
            let split = split_of(count);
            if index < split {
                entry_at(nodes, *left, split, index)
            } else {
                entry_at(nodes, *right, count - split, index - split)
            }
        }
    }
}

/// The operations from the leaf at a place up to a node, in a vector with room for so many more. Nothing is hashed, and
/// memory is asked for once.
pub fn operations_from(
    alloc: Global,
    nodes: &Nodes,
    node: usize,
    count: usize,
    index: usize,
    above: usize,
) -> Result<Vec<Operation>, AllocError>
    requires over { IsTreeOver nodes.now node count }
    requires sorted { IsTrue (is_sorted text_cmp (pairs_of nodes.now node)) }
    requires there { index < count }
    requires few { above + count < 2 ^ 64 }
    ensures operations { IfOk result (λ path. IsPathTo (pairs_of nodes.now node) index path.items) }
    ensures room { IfOk result (λ operations. vec_len operations + above ≤ vec_capacity operations) }
{
    match nodes.below(node) {
        Below::Record(_) => Vec::with_capacity(alloc, above),
        Below::Children(left, right) => {
            let split = split_of(count);
            if index < split {
                let mut operations = operations_from(alloc, nodes, *left, split, index, above + 1)?;
                operations.push_reserved(Operation::on_left_child(&nodes.digest(*right)));
                Ok(operations)
            } else {
                let mut operations = operations_from(
                    alloc,
                    nodes,
                    *right,
                    count - split,
                    index - split,
                    above + 1,
                )?;
                operations.push_reserved(Operation::on_right_child(&nodes.digest(*left)));
                Ok(operations)
            }
        }
    }
}
