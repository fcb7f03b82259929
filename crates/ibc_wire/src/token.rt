//! Tokens.

ghost use Rattle.std.specs.Prelude.{◌≡◌};
ghost use Rattle.ibc_wire.specs.Tokens.{is_rising, is_listed};

use ibc_ids::{Denom, ListOf};

/// An amount of a denomination (ICS 20).
#[derive(Clone, Drop, Debug, PartialEq, Eq)]
pub struct Token {
    pub denom: Denom,
    pub amount: u128,
}

/// The tokens of a transfer of several.
pub type Tokens = ListOf<Token>;

/// The most tokens of one message or packet.
const MOST_TOKENS: usize = 8;

/// Whether the denominations rise strictly in byte order.
pub fn is_rising(tokens: &[Token]) -> bool
    ensures { result ≡ is_rising tokens.now }
{
    match tokens {
        [] => true,
        [token, rest @ ..] => match rest {
            [] => true,
            [next, ..] => token.denom.cmp(&next.denom).is_lt() && is_rising(rest),
        },
    }
}

/// Whether one message or packet may have these tokens: 1 to 8, whose denominations rise strictly in byte order.
pub fn is_listed(tokens: &[Token]) -> bool
    ensures { result ≡ is_listed tokens.now }
{
    1 <= tokens.len() && tokens.len() <= MOST_TOKENS && is_rising(tokens)
}
