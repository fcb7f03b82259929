//! Trees over a chain's provable records, and proofs of presence and absence (ICS 23).
#![tactic(auto)]

mod affix;
mod entry;
mod hashing;
mod laws;
mod proof;
mod search;
mod steps;
mod tree;
mod writing;

pub use affix::Affix;
pub use entry::KeyValue;
pub use hashing::{hash_inner, hash_leaf, hash_value};
pub use laws::{lemma_accepted_is_written, lemma_written_is_accepted};
pub use proof::{Absence, Operation, Operations, Presence, Proof};
pub use search::place;
pub use steps::Steps;
pub use tree::{root, split_of};
pub use writing::{prove, prove_absent, prove_present};
