//! The identifiers that a chain gives (ICS 24), by a number that it counts up.

ghost use Rattle.std.specs.Prelude.{◌≡◌, IfOk, IsOkUnless};
ghost use Rattle.ibc_ids.specs.Paths.{nth_client, nth_connection, nth_channel};
ghost use Rattle.ibc_ids.specs.declared.refusal.Refusal.TheVariants.{NoMemory};

use crate::written::{MOST_DIGITS, written};
use crate::{ChannelId, ClientId, ConnectionId, Name, Refusal};
use std::alloc::Global;

/// The identifier of a chain's client with this number, counted from 0. Refused: `NoMemory`.
#[tactic(auto, using(crate::proofs::Numbered::nth_client_is_one))]
pub fn nth_client(alloc: Global, number: u64) -> Result<ClientId, Refusal>
    ensures ok { IfOk result (λ id. id ≡ nth_client number) }
    ensures memory { IsOkUnless result NoMemory }
{
    let room = "inprocess-".len() + MOST_DIGITS;
    Name::from_text(written(alloc, room, format_args!("inprocess-{number}"))?)
}

/// The identifier of a chain's connection with this number, counted from 0. Refused: `NoMemory`.
#[tactic(auto, using(crate::proofs::Numbered::nth_connection_is_one))]
pub fn nth_connection(alloc: Global, number: u64) -> Result<ConnectionId, Refusal>
    ensures ok { IfOk result (λ id. id ≡ nth_connection number) }
    ensures memory { IsOkUnless result NoMemory }
{
    let room = "connection-".len() + MOST_DIGITS;
    Name::from_text(written(alloc, room, format_args!("connection-{number}"))?)
}

/// The identifier of a chain's channel with this number, counted from 0. Refused: `NoMemory`.
#[tactic(auto, using(crate::proofs::Numbered::nth_channel_is_one))]
pub fn nth_channel(alloc: Global, number: u64) -> Result<ChannelId, Refusal>
    ensures ok { IfOk result (λ id. id ≡ nth_channel number) }
    ensures memory { IsOkUnless result NoMemory }
{
    let room = "channel-".len() + MOST_DIGITS;
    Name::from_text(written(alloc, room, format_args!("channel-{number}"))?)
}
