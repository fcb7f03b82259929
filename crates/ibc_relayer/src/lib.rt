//! What a relayer plans from views of two chains (ICS 18, "Relayer algorithm"), and relayers between two chains that threads share: one that takes
//! turns, and several at the same time.
#![tactic(auto)]

mod due;
mod ends;
mod messages;
mod planning;
mod senders;
mod turns;
mod workers;

pub use planning::plan;
pub use turns::{plans, relay};
pub use workers::relay_all;
