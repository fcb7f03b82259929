//! Scripts, and how they are read from JSON.
#![tactic(auto)]

mod amount;
mod application;
mod chain_name;
mod draft;
mod event_kind;
mod fault;
mod members;
mod payload;
mod reading;
mod script;

pub use application::Application;
pub use chain_name::{ChainName, ChainNameKind};
pub use draft::{
    ChannelDraft, ChannelTry, ClientDraft, ConnectionDraft, Draft, PacketDraft, ProofSource,
    SentPacket,
};
pub use event_kind::EventKind;
pub use fault::Fault;
pub use reading::read_script;
pub use script::{MOST_BYTES, MOST_CHAINS, MOST_STEPS, Script, Step};
