//! Checks that several of the messages make.

ghost use Rattle.std.specs.Prelude.{◌≡◌, ◌-◌, ◌^◌, ◌<◌, IfOk};
ghost use Rattle.ibc_ids.specs.declared.refusal.Refusal.TheVariants.{WrongState};
ghost use Rattle.ibc_machine.specs.chain.Checks.{require};
ghost use Rattle.ibc_machine.specs.ics24.Evidence.{require_number};
ghost use Rattle.ibc_machine.specs.ics24.Values.{same_channel_state};
ghost use Rattle.ibc_records.specs.RecordsModel.{core_of};
ghost use Rattle.ibc_channel.specs.ChannelHandshake.{require_connection, require_open};

use ibc_ids::{ConnectionId, Refusal};
use ibc_records::Records;
use ibc_wire::{ChannelEnd, ChannelState, ConnectionState};

/// There is such a connection, or else `UnknownConnection`.
pub fn check_connection(records: &Records, connection: &ConnectionId) -> Result<(), Refusal>
    ensures { result ≡ require_connection (core_of records.now) connection.now }
{
    match records.connection(connection) {
        Some(_) => Ok(()),
        None => Err(Refusal::UnknownConnection),
    }
}

/// The connection is there and open, or else `WrongState`.
pub fn check_open(records: &Records, connection: &ConnectionId) -> Result<(), Refusal>
    ensures { result ≡ require_open (core_of records.now) connection.now }
{
    match records.connection(connection) {
        Some(end) if end.state == ConnectionState::Open => Ok(()),
        _ => Err(Refusal::WrongState),
    }
}

/// The number of the next channel isn't the last, or else `NumberFull`.
pub fn check_number(records: &Records) -> Result<(), Refusal>
    ensures checked { result ≡ require_number records.now.next_channel }
    ensures free { IfOk result (λ _. records.now.next_channel < 2 ^ 64 - 1) }
{
    ibc_records::check_number(records.next_channel())
}

/// The end is in this state, or else `WrongState`.
pub fn check_state(end: &ChannelEnd, state: ChannelState) -> Result<(), Refusal>
    ensures { result ≡ require (same_channel_state end.now.state state) WrongState }
{
    if end.state == state {
        Ok(())
    } else {
        Err(Refusal::WrongState)
    }
}
