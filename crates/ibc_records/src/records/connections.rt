//! The connections of a chain.

ghost use Rattle.std.specs.Prelude.{◌≡◌, ◌-◌, ◌^◌, ◌<◌, OnOk, OnErr, option_copied, IsOkUnless};
ghost use Rattle.ibc_ids.specs.Texts.{text_cmp};
ghost use Rattle.ibc_ids.specs.Maps.{at};
ghost use Rattle.ibc_ids.specs.declared.refusal.Refusal.TheVariants.{NoMemory};
ghost use Rattle.ibc_records.specs.RecordsModel.{AddsConnection, SetsConnection, IsUnchanged};

use crate::Records;
use crate::maps::insert;
use crate::values::{connection_value, counter, set_reserved};
use ibc_ids::{ConnectionId, Key, Refusal, connection_path};
use ibc_wire::ConnectionEnd;

impl Records {
    /// An end of a connection by its identifier, or none.
    pub fn connection(&self, id: &ConnectionId) -> Option<&ConnectionEnd>
        ensures { option_copied result ≡ at text_cmp id.now self.now.connections }
    {
        self.connections.get(id)
    }

    /// The number of the next connection.
    pub fn next_connection(&self) -> u64
        ensures { result ≡ self.now.next_connection }
    {
        self.next_connection
    }

    /// Adds an end of a connection under an identifier, and counts the next one (ICS 3, "connOpenInit" and
    /// "connOpenTry"). `NoMemory` where a growth is refused; the records are then as before.
    pub fn add_connection(&mut self, id: ConnectionId, end: ConnectionEnd) -> Result<(), Refusal>
        requires { self.old.next_connection < 2 ^ 64 - 1 }
        ensures ok { OnOk result (AddsConnection self.old id end self.new) }
        ensures err { IsOkUnless result NoMemory }
        ensures unchanged { OnErr result (IsUnchanged self.old self.new) }
    {
        let path = connection_path(self.alloc, &id)?;
        let value = connection_value(self.alloc, &end)?;
        let next = self.next_connection + 1;
        let (number_path, number) = counter(self.alloc, &Key::NextConnectionSequence, next)?;
        self.store.reserve(2)?;
        insert(&mut self.connections, id, end)?;
        self.next_connection = next;
        set_reserved(&mut self.store, path, value);
        set_reserved(&mut self.store, number_path, number);
        Ok(())
    }

    /// Sets the end of a connection (ICS 3, "connOpenAck" and "connOpenConfirm"). `NoMemory` where a growth is
    /// refused; the records are then as before.
    pub fn set_connection(&mut self, id: ConnectionId, end: ConnectionEnd) -> Result<(), Refusal>
        ensures ok { OnOk result (SetsConnection self.old id end self.new) }
        ensures err { IsOkUnless result NoMemory }
        ensures unchanged { OnErr result (IsUnchanged self.old self.new) }
    {
        let path = connection_path(self.alloc, &id)?;
        let value = connection_value(self.alloc, &end)?;
        self.store.reserve(1)?;
        insert(&mut self.connections, id, end)?;
        set_reserved(&mut self.store, path, value);
        Ok(())
    }
}
