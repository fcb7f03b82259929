//! What a chain does with the messages of connections (ICS 3).
#![tactic(auto)]

mod checks;
mod claims;
mod opening_ack;
mod opening_confirm;
mod opening_init;
mod opening_try;

pub use opening_ack::open_ack;
pub use opening_confirm::open_confirm;
pub use opening_init::open_init;
pub use opening_try::open_try;
