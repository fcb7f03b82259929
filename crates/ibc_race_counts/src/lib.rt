//! Races whose relayers are counted: what each of them sent, and how much of it was accepted and refused.
#![tactic(auto)]

mod counting;
mod log;
mod racing;
mod relaying;
mod telling;

pub use counting::{ReceiptCounts, counts_of};
pub use log::RelayerLog;
pub use racing::{CountedRace, count_race};
pub use relaying::{NotingGate, relay_all_noting, relay_noting};
pub use telling::{CountsForm, tell_race};
