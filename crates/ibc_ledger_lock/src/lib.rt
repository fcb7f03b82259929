//! Ledgers that threads share: each under a lock, with receipts of what was asked and readings of what was seen, and a board of
//! views that is read without a lock.
#![tactic(auto)]

mod board;
mod book;
mod chain;
mod gate;
mod locked_ledger;
mod posted_view;
mod reading;
mod receipt;
mod world;

pub use board::Board;
pub use book::UnusedBook;
pub use chain::Chain;
pub use gate::Gate;
pub use posted_view::PostedView;
pub use reading::{LedgerReading, lemma_had_then, lemma_has_shown};
pub use receipt::{Receipt, lemma_are_in_history};
pub use world::WorldBrand;
