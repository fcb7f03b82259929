//! The moves of a packet's tokens once the packet is settled.

ghost use Rattle.std.specs.Prelude.{◌≡◌, IfOk, map, IsOkUnless};
ghost use Rattle.ibc_ids.specs.declared.refusal.Refusal.TheVariants.{NoMemory};
ghost use Rattle.ibc_bank.specs.declared.moves.Move.TheVariants as move;
ghost use Rattle.ibc_transfer.specs.BankCallbacks.{refund_move};
ghost use Rattle.ibc_transfer.specs.TokenRefunds.{refund_moves, settle_moves, settlement_moves, moves_after_ack};

use crate::acks::is_success;
use crate::names::came_over;
use ibc_bank::{Move, Source};
use ibc_ids::{ChannelId, Refusal, UserName, Version};
use ibc_token_data::TokenData;
use ibc_wire::{Packet, Token};
use std::alloc::Global;

/// The moves of a packet's tokens back to their sender, where the packet won't be received or wasn't a success; none where it
/// has no tokens (ICS 20, "refundTokens"). Refused: `NoMemory`.
pub(crate) fn refunds(
    alloc: Global,
    version: &Version,
    packet: &Packet,
) -> Result<Vec<Move>, Refusal>
    ensures ok { IfOk result (λ moves. moves.items ≡ refund_moves version.now packet.now) }
    ensures err { IsOkUnless result NoMemory }
{
    match TokenData::read(alloc, version, packet.payload.as_slice())? {
        Some(data) => refund_moves(
            alloc,
            &packet.source_channel,
            &data.sender,
            data.tokens.as_slice(),
        ),
        None => Ok(Vec::new(alloc)),
    }
}

/// The moves of a packet's tokens once it is acknowledged (ICS 20, "onAcknowledgePacket"): after a success what was burnt
/// of them is settled, and else they go back to their sender. Refused: `NoMemory`.
pub(crate) fn acknowledged(
    alloc: Global,
    version: &Version,
    packet: &Packet,
    ack: &[u8],
) -> Result<Vec<Move>, Refusal>
    ensures ok { IfOk result (λ moves. moves.items ≡ moves_after_ack version.now packet.now ack.now) }
    ensures err { IsOkUnless result NoMemory }
{
    if is_success(ack) {
        settlements(alloc, version, packet)
    } else {
        refunds(alloc, version, packet)
    }
}

// The moves that settle what was burnt of a packet's tokens, which their receiver has; none where it has no tokens.
// Refused: `NoMemory`.
fn settlements(alloc: Global, version: &Version, packet: &Packet) -> Result<Vec<Move>, Refusal>
    ensures ok { IfOk result (λ moves. moves.items ≡ settlement_moves version.now packet.now) }
    ensures err { IsOkUnless result NoMemory }
{
    match TokenData::read(alloc, version, packet.payload.as_slice())? {
        Some(data) => settle_moves(alloc, &packet.source_channel, data.tokens.as_slice()),
        None => Ok(Vec::new(alloc)),
    }
}

// The moves of tokens back to the user that sent them over a channel. Refused: `NoMemory`.
fn refund_moves(
    alloc: Global,
    channel: &ChannelId,
    user: &UserName,
    tokens: &[Token],
) -> Result<Vec<Move>, Refusal>
    ensures ok { IfOk result (λ made. made.items ≡ map (refund_move channel.now user.now) tokens.now) }
    ensures err { IsOkUnless result NoMemory }
{
    let mut moves = Vec::with_capacity(alloc, tokens.len())?;
    for token in tokens {
        moves.push(refund_move(alloc, channel, user, token)?)?;
    }
    Ok(moves)
}

// The move of a token back to the user that sent it over a channel: minted again where it was burnt, or else out of the
// escrow. Refused: `NoMemory`.
fn refund_move(
    alloc: Global,
    channel: &ChannelId,
    user: &UserName,
    token: &Token,
) -> Result<Move, Refusal>
    ensures ok { IfOk result (λ step. step ≡ refund_move channel.now user.now token.now) }
    ensures err { IsOkUnless result NoMemory }
{
    let source = if came_over(alloc, channel, &token.denom)? {
        Source::Burnt
    } else {
        Source::Escrow(channel.clone()?)
    };
    Ok(Move::Refund {
        user: user.clone()?,
        source,
        denom: token.denom.clone()?,
        amount: token.amount,
    })
}

// The settling of those tokens that went back over the channel. Refused: `NoMemory`.
fn settle_moves(alloc: Global, channel: &ChannelId, tokens: &[Token]) -> Result<Vec<Move>, Refusal>
    ensures ok { IfOk result (λ moves. moves.items ≡ settle_moves channel.now tokens.now) }
    ensures err { IsOkUnless result NoMemory }
{
    let mut moves = Vec::with_capacity(alloc, tokens.len())?;
    for token in tokens {
        if came_over(alloc, channel, &token.denom)? {
            moves.push(settle_move(token)?)?;
        }
    }
    Ok(moves)
}

// The settling of a token. Refused: `NoMemory`.
fn settle_move(token: &Token) -> Result<Move, Refusal>
    ensures ok { IfOk result (λ step. step ≡ move.Settle token.now.denom token.now.amount) }
    ensures err { IsOkUnless result NoMemory }
{
    Ok(Move::Settle {
        denom: token.denom.clone()?,
        amount: token.amount,
    })
}
