//! The names, keys, roots and refusals that all ledgers share (ICS 24).
#![tactic(auto)]

mod account;
mod bytes;
mod denom;
mod forms;
mod identifiers;
mod key;
mod kinds;
mod list;
mod name;
mod name_text;
mod path;
mod publication;
mod refusal;
mod written;

pub use account::Account;
pub use bytes::Bytes;
pub use identifiers::{nth_channel, nth_client, nth_connection};
pub use key::{
    Key, channel_path, client_path, connection_path, lemma_different_keys_have_different_paths,
    sequence_path,
};
pub use kinds::{
    ChannelId, ChannelKind, ClientId, ClientKind, ConnectionId, ConnectionKind, Denom, DenomKind,
    Memo, MemoKind, NameKind, PortId, PortKind, Receiver, ReceiverKind, UserKind, UserName,
    Version, VersionKind,
};
pub use list::ListOf;
pub use name::Name;
pub use publication::{Publication, Root};
pub use refusal::Refusal;
