//! Whether a proof of presence or absence is accepted under a root (ICS 23, "Verify").
#![tactic(auto)]

mod memory;
mod operations;
mod texts;
mod verify;

pub use memory::NodeMemory;
pub use verify::{verify_absent, verify_absent_with, verify_present, verify_present_with};
