//! Entries of histories as bytes: what a journal keeps of them, and what a replay is given back.
#![tactic(auto)]

mod answer;
mod numbers;
mod stored;

pub use answer::EntryAnswer;
pub use stored::{EntryBytes, lemma_bytes_are_of_one_entry, restore, store};
