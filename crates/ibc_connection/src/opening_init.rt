//! Beginning a connection.

ghost use Rattle.std.specs.Prelude.{◌≡◌, IfOk};
ghost use Rattle.ibc_ids.specs.Paths.{nth_connection};
ghost use Rattle.ibc_connection.specs.ConnectionHandlers.{HandlesConnOpenInit};

use crate::checks::{add_connection, check_number};
use ibc_ids::{ConnectionId, Refusal};
use ibc_records::{Records, check_client};
use ibc_wire::{ConnOpenInit, ConnectionEnd, ConnectionState};
use std::alloc::Global;

/// Begins a connection (ICS 3, "connOpenInit"). Refused, by the first check that fails: `UnknownClient`; `NumberFull`
/// where the number of the next connection is 2^64 - 1. `NoMemory` where a growth is refused. A refusal leaves the records.
pub fn open_init(
    alloc: Global,
    records: &mut Records,
    message: &ConnOpenInit,
) -> Result<ConnectionId, Refusal>
    ensures answer { HandlesConnOpenInit message.now records.old result records.new }
    ensures named { IfOk result (λ id. id ≡ nth_connection records.old.next_connection) }
{
    check_client(records, &message.client)?;
    check_number(records)?;
    let end = ConnectionEnd {
        state: ConnectionState::Init,
        client: message.client.clone()?,
        peer_client: message.peer_client.clone()?,
        peer_connection: None,
    };
    add_connection(alloc, records, end)
}
