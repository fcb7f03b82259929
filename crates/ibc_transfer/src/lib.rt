//! The application of port `transfer`: tokens that go from chain to chain, and their messages (ICS 20).
#![tactic(auto)]

mod acks;
mod arriving;
mod leaving;
mod names;
mod outgoing;
mod returning;
mod sending;
mod transfers;
mod under_way;

pub use names::{came_over, is_transfer_port, transfer_port};
pub use sending::{send_transfer, send_transfer_many};
pub use transfers::Transfers;
pub use under_way::in_flight;
