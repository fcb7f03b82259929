//! The application of port `note`: texts that go from chain to chain in order, and their message.
#![tactic(auto)]

mod list;
mod notes;
mod sending;

pub use notes::{Notes, is_note_port};
pub use sending::send_note;
