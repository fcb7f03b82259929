//! Trees that share their nodes.
#![tactic(auto)]

mod arena;
mod ascent;
mod chunks;
mod descent;
mod forest;
mod gap;
mod joining;
mod laws;
mod leaves;
mod moving;
mod next_rows;
mod node;
mod nodes;
mod place;
mod proving;
mod replacement;
mod replacing;
mod rows;
mod shared_entry;
mod shared_tree;
mod shelf;
mod waiting;
mod working;

pub use forest::Forest;
pub use gap::Gap;
pub use laws::{lemma_removal_adds_none, lemma_set_adds_one_at_most, lemma_unchanged_is_none};
pub use shared_entry::{SharedEntry, SpareEntry};
pub use shared_tree::SharedTree;
