//! Moves of tokens.
use ibc_ids::{ChannelId, Denom, UserName};

/// Out of what tokens are refunded.
#[derive(Clone, Drop, Debug, PartialEq, Eq)]
pub enum Source {
    /// Out of the escrow of a channel.
    Escrow(ChannelId),
    /// They were burnt in flight, and are minted again.
    Burnt,
}

/// One move of tokens in a bank (ICS 20).
#[derive(Drop, Debug, PartialEq, Eq)]
pub enum Move {
    /// From a user to the escrow of a channel.
    Escrow {
        user: UserName,
        channel: ChannelId,
        denom: Denom,
        amount: u128,
    },
    /// From the escrow of a channel to a user.
    Release {
        channel: ChannelId,
        user: UserName,
        denom: Denom,
        amount: u128,
    },
    /// A user's tokens are burnt, and may still be refunded.
    Burn {
        user: UserName,
        denom: Denom,
        amount: u128,
    },
    /// New tokens for a user.
    Mint {
        user: UserName,
        denom: Denom,
        amount: u128,
    },
    /// Back to a user.
    Refund {
        user: UserName,
        source: Source,
        denom: Denom,
        amount: u128,
    },
    /// What was burnt isn't refunded any more: the amount, or all of it where it is less.
    Settle {
        denom: Denom,
        amount: u128,
    },
}
