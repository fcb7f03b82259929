//! Who has a balance.
use crate::{ChannelId, UserName};

/// Who has a balance: a user, or the escrow account of a channel of port `transfer` (ICS 20).
#[derive(Clone, Drop, Debug, PartialEq, Eq)]
pub enum Account {
    /// A user.
    User(UserName),
    /// The escrow account of a channel. It is printed `escrow/transfer/` and the channel's identifier.
    Escrow(ChannelId),
}
