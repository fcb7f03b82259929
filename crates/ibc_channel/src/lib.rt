//! What a chain does with the messages of channels (ICS 4, "Channel lifecycle management").
#![tactic(auto)]

mod checks;
mod closing_confirm;
mod closing_init;
mod ends;
mod following;
mod opening_ack;
mod opening_confirm;
mod opening_init;
mod opening_try;

pub use closing_confirm::close_confirm;
pub use closing_init::close_init;
pub use opening_ack::open_ack;
pub use opening_confirm::open_confirm;
pub use opening_init::open_init;
pub use opening_try::open_try;
