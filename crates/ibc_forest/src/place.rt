//! The place of a key in a tree.

ghost use Rattle.std.specs.Prelude.{◌≡◌, ◌<◌, ◌≤◌, length, IsTrue, IfOk, IfErr};
ghost use Rattle.std.specs.FinMap.{is_sorted};
ghost use Rattle.ibc_ids.specs.Texts.{text_cmp};
ghost use Rattle.ibc_merkle.specs.PairPlaces.{key_at};
ghost use Rattle.ibc_forest.specs.Heights.{pairs_of, IsTreeOver};
ghost use Rattle.ibc_ids.specs.Maps.{IsKeyAt, IsGapFor};

use crate::node::Below;
use crate::nodes::Nodes;
use ibc_merkle::split_of;
use std::cmp::Ordering;

// How the first key below a node stands to a key.
#[tactic(auto, using(crate::proofs::Descents::first_key))]
fn compare_first(nodes: &Nodes, node: usize, key: &[u8]) -> Ordering
    requires { node < length nodes.now }
    ensures { result ≡ text_cmp (key_at (pairs_of nodes.now node) 0) key.now }
{
    nodes.first_entry(node).key().cmp(key)
}

// The place of a key in a tree whose keys strictly rise in byte order: `Ok` with its index, or `Err` with the index where
// it would stand. At each inner node the first key of its right child decides.
pub(crate) fn place_in(nodes: &Nodes, root: usize, count: usize, key: &[u8]) -> Result<usize, usize>
    requires over { IsTreeOver nodes.now root count }
    requires sorted { IsTrue (is_sorted text_cmp (pairs_of nodes.now root)) }
    ensures found { IfOk result (λ index. index < count) }
    ensures here { IfOk result (IsKeyAt text_cmp key.now (pairs_of nodes.now root)) }
    ensures within { IfErr result (λ index. index ≤ count) }
    ensures gap { IfErr result (IsGapFor text_cmp key.now (pairs_of nodes.now root)) }
{
    match nodes.below(root) {
        Below::Record(_) => match compare_first(nodes, root, key) {
            Ordering::Less => Err(1),
            Ordering::Equal => Ok(0),
            Ordering::Greater => Err(0),
        },
        Below::Children(left, right) => {
            let split = split_of(count);
            match compare_first(nodes, *right, key) {
                Ordering::Less => match place_in(nodes, *right, count - split, key) {
                    Ok(index) => Ok(split + index),
                    Err(index) => Err(split + index),
                },
                Ordering::Equal => Ok(split),
                Ordering::Greater => place_in(nodes, *left, split, key),
            }
        }
    }
}
