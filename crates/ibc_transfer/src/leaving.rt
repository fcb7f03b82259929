//! The moves of tokens that are sent.

ghost use Rattle.std.specs.Prelude.{◌≡◌, IfOk, map, IsOkUnless};
ghost use Rattle.ibc_ids.specs.declared.refusal.Refusal.TheVariants.{NoMemory};
ghost use Rattle.ibc_transfer.specs.BankTransfers.{send_move};

use crate::names::came_over;
use ibc_bank::Move;
use ibc_ids::{ChannelId, Refusal, UserName};
use ibc_wire::Token;
use std::alloc::Global;

/// The moves of tokens that a user sends over a channel (ICS 20, "sendFungibleTokens"). Refused: `NoMemory`.
pub(crate) fn send_moves(
    alloc: Global,
    channel: &ChannelId,
    user: &UserName,
    tokens: &[Token],
) -> Result<Vec<Move>, Refusal>
    ensures ok { IfOk result (λ moves. moves.items ≡ map (send_move channel.now user.now) tokens.now) }
    ensures err { IsOkUnless result NoMemory }
{
    let mut moves = Vec::with_capacity(alloc, tokens.len())?;
    for token in tokens {
        moves.push(send_move(alloc, channel, user, token)?)?;
    }
    Ok(moves)
}

// The move of a token that a user sends over a channel: into its escrow, or burnt where it came over it. Refused:
// `NoMemory`.
fn send_move(
    alloc: Global,
    channel: &ChannelId,
    user: &UserName,
    token: &Token,
) -> Result<Move, Refusal>
    ensures ok { IfOk result (λ step. step ≡ send_move channel.now user.now token.now) }
    ensures err { IsOkUnless result NoMemory }
{
    if came_over(alloc, channel, &token.denom)? {
        Ok(Move::Burn {
            user: user.clone()?,
            denom: token.denom.clone()?,
            amount: token.amount,
        })
    } else {
        Ok(Move::Escrow {
            user: user.clone()?,
            channel: channel.clone()?,
            denom: token.denom.clone()?,
            amount: token.amount,
        })
    }
}
