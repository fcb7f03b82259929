//! What a program that is not Rattle's holds of this library: one value, of one of several kinds, behind a pointer.
#![tactic(auto)]

pub mod handle;
pub mod handle_value;
mod ledgers;
mod loose;

pub use handle::Handle;
pub use handle_value::{HandleValue, WorldLedger};
pub use ledgers::{NotJoined, WorldLedgers};
pub use loose::BoxParts;
