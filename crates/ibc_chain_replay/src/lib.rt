//! A chain's ledger that is made again of the entries that were stored of it, beside the heights that the other chains published: what
//! an auditor does who has no more than these.
#![tactic(auto)]

mod answers;
mod published;
mod publishing;
mod replaying;

pub use replaying::{ChainDifference, replay_chain};
