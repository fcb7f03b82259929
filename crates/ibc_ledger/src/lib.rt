//! A chain that sees the others through published roots and proofs alone.
//! What it proves as it stands at its last committed height: `View`.
//! The packets that messages sent, and where in its history they stand: `SentPackets`.
#![tactic(auto)]

mod applications;
mod blocks;
mod channels;
mod clients;
mod connections;
mod entry;
mod genesis;
mod host_state;
mod ledger;
mod messages;
mod outcome;
mod packets;
mod places;
mod reads;
mod sent;
mod sorted_holdings;
mod view;
mod views;

pub use entry::StampedEntry;
pub use genesis::is_allowed;
pub use ledger::Ledger;
pub use places::{Sender, SentPackets};
pub use sent::packet_in;
pub use view::View;
