//! Which tokens and parties the data of a packet may have.

ghost use Rattle.std.specs.Prelude.{◌≡◌, ◌&&◌};
ghost use Rattle.ibc_wire.specs.Tokens.{is_rising, is_short};
ghost use Rattle.ibc_machine.specs.ics20.TokenData.{has_several, is_token};
ghost use Rattle.ibc_token_data.specs.Cutting.{are_parties};

use ibc_ids::{DenomKind, MemoKind, NameKind, ReceiverKind, UserKind, Version};
use ibc_wire::{Token, is_listed};

/// Whether packets of the version have several tokens.
pub(crate) fn has_several(version: &Version) -> bool
    ensures { result ≡ has_several version.now }
{
    version.as_str() == "ics20-own-2"
}

/// Whether there are 1 to 8 tokens, whose denominations rise strictly in byte order.
pub fn are_few_and_rising(tokens: &[Token]) -> bool
    ensures { result ≡ (is_short tokens.now && is_rising tokens.now) }
{
    is_listed(tokens)
}

/// Whether a packet may have so much of the denomination with these bytes.
pub(crate) fn is_token(amount: u128, denom: &[u8]) -> bool
    ensures { result ≡ is_token (record { denom = denom.now; amount = amount }) }
{
    1 <= amount && DenomKind::has_form(denom)
}

/// Whether these are a memo, a receiver and a user's name.
pub(crate) fn are_parties(memo: &[u8], receiver: &[u8], sender: &[u8]) -> bool
    ensures { result ≡ are_parties memo.now receiver.now sender.now }
{
    MemoKind::has_form(memo) && ReceiverKind::has_form(receiver) && UserKind::has_form(sender)
}
