//! The moves that bring the tokens of a packet that came.

ghost use Rattle.std.specs.Prelude.{◌≡◌, IfOk, Some, IsOkUnless};
ghost use Rattle.ibc_ids.specs.declared.refusal.Refusal.TheVariants.{NoMemory};
ghost use Rattle.ibc_transfer.specs.TokenArrival.{mint_move, receive_move, arrival_moves, IsUserNamed};
ghost use Rattle.ibc_transfer.specs.AbstractMoves.{abstract_arrival, BringsTokens};

use crate::acks::Failure;
use ibc_bank::Move;
use ibc_ids::{Receiver, Refusal, UserName, Version};
use ibc_token_data::TokenData;
use ibc_wire::{Packet, Token};
use std::alloc::Global;

/// The moves of a packet's tokens to their receiver, or why they aren't taken (ICS 20, "onRecvPacket"). Refused:
/// `NoMemory`.
pub(crate) fn read_arrival(
    alloc: Global,
    version: &Version,
    packet: &Packet,
) -> Result<Result<Vec<Move>, Failure>, Refusal>
    ensures ok { IfOk result (λ moves. abstract_arrival moves ≡ arrival_moves version.now packet.now) }
    ensures err { IsOkUnless result NoMemory }
{
    let Some(data) = TokenData::read(alloc, version, packet.payload.as_slice())? else {
        return Ok(Err(Failure::BadData));
    };
    let Some(user) = user_named(alloc, &data.receiver)? else {
        return Ok(Err(Failure::BadReceiver));
    };
    let moves = receive_moves(alloc, packet, &user, data.tokens.as_slice())?;
    Ok(moves.ok_or(Failure::OverLimit))
}

// The user with the receiver's name, or none where it is no user's. Refused: `NoMemory`.
fn user_named(alloc: Global, receiver: &Receiver) -> Result<Option<UserName>, Refusal>
    ensures ok { IfOk result (λ user. IsUserNamed receiver.now user) }
    ensures err { IsOkUnless result NoMemory }
{
    match UserName::parse(alloc, receiver.as_str()) {
        Ok(user) => Ok(Some(user)),
        Err(Refusal::BadName) => Ok(None),
        Err(refusal) => Err(refusal),
    }
}

// The moves of tokens that came to a user, or none where one can't be named here. Refused: `NoMemory`.
fn receive_moves(
    alloc: Global,
    packet: &Packet,
    user: &UserName,
    tokens: &[Token],
) -> Result<Option<Vec<Move>>, Refusal>
    ensures ok { IfOk result (λ moves. BringsTokens packet.now user.now tokens.now moves) }
    ensures err { IsOkUnless result NoMemory }
{
    let mut moves = Vec::with_capacity(alloc, tokens.len())?;
    for token in tokens {
        let Some(step) = receive_move(alloc, packet, user, token)? else {
            return Ok(None);
        };
        moves.push(step)?;
    }
    Ok(Some(moves))
}

// The move of a token that came to a user: home out of the escrow where it came from here, or else minted with one hop
// more; none where that would be too long. Refused: `NoMemory`.
fn receive_move(
    alloc: Global,
    packet: &Packet,
    user: &UserName,
    token: &Token,
) -> Result<Option<Move>, Refusal>
    ensures ok { IfOk result (λ step. step ≡ receive_move packet.now user.now token.now) }
    ensures err { IsOkUnless result NoMemory }
{
    let home = token
        .denom
        .strip(alloc, &packet.source_port, &packet.source_channel)?;
    match home {
        Some(denom) => Ok(Some(Move::Release {
            channel: packet.destination_channel.clone()?,
            user: user.clone()?,
            denom,
            amount: token.amount,
        })),
        None => mint_move(alloc, packet, user, token),
    }
}

// The minting of a token with the hop of the packet's destination before it; none where that would be too long. Refused:
// `NoMemory`.
fn mint_move(
    alloc: Global,
    packet: &Packet,
    user: &UserName,
    token: &Token,
) -> Result<Option<Move>, Refusal>
    ensures ok { IfOk result (λ step. step ≡ mint_move packet.now user.now token.now) }
    ensures err { IsOkUnless result NoMemory }
{
    let hopped = token.denom.hop(alloc, &packet.destination_port, &packet.destination_channel);
    match hopped {
        Ok(denom) => Ok(Some(Move::Mint {
            user: user.clone()?,
            denom,
            amount: token.amount,
        })),
        Err(Refusal::TooLarge) => Ok(None),
        Err(refusal) => Err(refusal),
    }
}
