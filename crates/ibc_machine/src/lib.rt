//! What ledgers are asked and answer; in `specs/` the machine that says what the answers mean.
#![tactic(auto)]

mod entry;
mod event;
mod genesis;
mod reply;
mod totals;

pub use entry::{Entry, Reading};
pub use event::Event;
pub use genesis::{ChainStart, Genesis};
pub use reply::{Effect, Reply};
pub use totals::Totals;
