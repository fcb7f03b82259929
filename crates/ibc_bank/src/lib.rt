//! The bank of a chain: what users and the escrow accounts of channels hold, and what is burnt in flight (ICS 20).
#![tactic(auto)]

mod amounts;
mod bank;
mod books;
mod changes;
mod holder;
mod moves;
mod place;
mod sorted_starts;

pub use bank::Bank;
pub use moves::{Move, Source};
pub use sorted_starts::heap_sorted;
