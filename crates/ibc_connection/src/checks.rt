//! Checks that several of the messages make, and the connection that a new one adds.

ghost use Rattle.std.specs.Prelude.{◌≡◌, ◌-◌, ◌^◌, ◌<◌, IfOk, OnErr, IsOkUnless};
ghost use Rattle.ibc_ids.specs.declared.refusal.Refusal.TheVariants.{NoMemory, WrongState};
ghost use Rattle.ibc_machine.specs.chain.Checks.{require};
ghost use Rattle.ibc_machine.specs.ics24.Evidence.{require_number};
ghost use Rattle.ibc_machine.specs.ics24.Values.{same_connection_state};
ghost use Rattle.ibc_records.specs.RecordsModel.{IsUnchanged};
ghost use Rattle.ibc_connection.specs.ConnectionHandshake.{is_self_client, AddsNextConnection};

use ibc_ids::{ConnectionId, Refusal, nth_connection};
use ibc_records::Records;
use ibc_wire::{ClientState, ConnectionEnd, ConnectionState};
use std::alloc::Global;

/// Whether a claimed client of the peer tracks this chain, and knows no height that isn't committed here (ICS 3,
/// "validateSelfClient").
pub fn names_host(records: &Records, chain: u8, claim: ClientState) -> bool
    ensures { result ≡ is_self_client records.now chain claim }
{
    claim.chain == chain && claim.latest <= records.height()
}

/// The number of the next connection isn't the last, or else `NumberFull`.
pub fn check_number(records: &Records) -> Result<(), Refusal>
    ensures checked { result ≡ require_number records.now.next_connection }
    ensures free { IfOk result (λ _. records.now.next_connection < 2 ^ 64 - 1) }
{
    ibc_records::check_number(records.next_connection())
}

/// Whether the connection is in this state.
pub fn is_in_state(end: &ConnectionEnd, state: ConnectionState) -> bool
    ensures { result ≡ same_connection_state end.now.state state }
{
    end.state == state
}

/// The connection is in this state, or else `WrongState`.
pub fn check_state(end: &ConnectionEnd, state: ConnectionState) -> Result<(), Refusal>
    ensures { result ≡ require (same_connection_state end.now.state state) WrongState }
{
    if is_in_state(end, state) {
        Ok(())
    } else {
        Err(Refusal::WrongState)
    }
}

/// Adds an end under the next identifier. `NoMemory` where a growth is refused; the records are then as before.
pub fn add_connection(
    alloc: Global,
    records: &mut Records,
    end: ConnectionEnd,
) -> Result<ConnectionId, Refusal>
    requires { records.old.next_connection < 2 ^ 64 - 1 }
    ensures ok { IfOk result (λ id. AddsNextConnection end records.old id records.new) }
    ensures err { IsOkUnless result NoMemory }
    ensures unchanged { OnErr result (IsUnchanged records.old records.new) }
{
    let id = nth_connection(alloc, records.next_connection())?;
    records.add_connection(id.clone()?, end)?;
    Ok(id)
}
