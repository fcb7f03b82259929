//! A chain's provable records: a map from paths to values, its committed heights, their roots and proofs.
#![tactic(auto)]

mod in_order;
mod path_map;
mod rows;
mod spare;
mod store;
mod touched;
mod tree;

pub use store::Store;
pub use tree::CommittedTree;
