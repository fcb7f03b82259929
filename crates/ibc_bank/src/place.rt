//! Where tokens are.

ghost use Rattle.std.specs.Prelude.{◌≡◌};

use crate::holder::AccountRef;
use ibc_ids::{ChannelId, UserName};

/// Where tokens are, come from or go to.
#[derive(Clone, Copy, Debug)]
pub(crate) enum Place<'a> {
    /// An account.
    Account(AccountRef<'a>),
    /// Burnt in flight: they may still be refunded.
    Burnt,
    /// Outside the chain: new tokens come from there, and burnt ones go there once no refund can come.
    Outside,
}

impl<'a> Place<'a> {
    /// A user's account.
    pub(crate) fn user(name: &'a UserName) -> Place<'a>
        ensures { result ≡ Place.Account (AccountRef.User name.entry) }
    {
        Place::Account(AccountRef::User(name))
    }

    /// The escrow account of a channel.
    pub(crate) fn escrow(channel: &'a ChannelId) -> Place<'a>
        ensures { result ≡ Place.Account (AccountRef.Escrow channel.entry) }
    {
        Place::Account(AccountRef::Escrow(channel))
    }
}
