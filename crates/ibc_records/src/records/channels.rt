//! The channels of a chain.

ghost use Rattle.std.specs.Prelude.{◌≡◌, ◌&&◌, IsTrue, string_bytes, ◌-◌, ◌^◌, ◌<◌, IsNone, IsSome, IfOk, OnOk, OnErr, option_copied, IsOkUnless};
ghost use Rattle.ibc_ids.specs.Texts.{pair_cmp};
ghost use Rattle.ibc_ids.specs.Maps.{at};
ghost use Rattle.ibc_ids.specs.Names.{is_port, is_channel};
ghost use Rattle.ibc_ids.specs.Paths.{path, nth_channel};
ghost use Rattle.ibc_ids.specs.declared.refusal.Refusal.TheVariants.{NoMemory, UnknownChannel};
ghost use Rattle.ibc_machine.specs.ics24.Values.{value_bytes, ChannelIs};
ghost use Rattle.ibc_records.specs.RecordsModel.{AddsChannel, SetsChannelEnd, IsUnchanged};
ghost use Rattle.ibc_records.specs.ChannelSteps.{HasNewEnd};
ghost use Rattle.ibc_records.specs.Entries.{end_path_of};

use crate::Records;
use crate::channel::Channel;
use crate::channel_entries::{reserve_entries, set_entries};
use crate::maps::{Channels, contains, insert, put, take};
use crate::values::{channel_value, set_reserved};
use ibc_ids::{Bytes, ChannelId, PortId, Refusal, channel_path};
use ibc_path_store::Store;
use ibc_wire::ChannelEnd;
use std::alloc::Global;

impl Records {
    /// A channel by its port and its identifier, or none. Refused: `NoMemory`.
    pub fn channel(&self, port: &PortId, id: &ChannelId) -> Result<Option<&Channel>, Refusal>
        ensures ok { IfOk result (λ c. option_copied c ≡ at pair_cmp (port.now, id.now) self.now.channels) }
        ensures err { IsOkUnless result NoMemory }
    {
        let name = (port.clone()?, id.clone()?);
        Ok(self.channels.get(&name))
    }

    /// The number of the next channel.
    pub fn next_channel(&self) -> u64
        ensures { result ≡ self.now.next_channel }
    {
        self.next_channel
    }

    /// Adds a channel with this end under a port and the next identifier, its three counters at 1 and without packets, and
    /// counts the next one (ICS 4, "chanOpenInit" and "chanOpenTry"). `NoMemory` where a growth is refused; the records
    /// are then as before.
    pub fn add_channel(
        &mut self,
        port: PortId,
        id: ChannelId,
        end: ChannelEnd,
    ) -> Result<(), Refusal>
        requires room { self.old.next_channel < 2 ^ 64 - 1 }
        requires next { id ≡ nth_channel self.old.next_channel }
        ensures ok { OnOk result (AddsChannel self.old port id end self.new) }
        ensures err { IsOkUnless result NoMemory }
        ensures unchanged { OnErr result (IsUnchanged self.old self.new) }
    {
        let next = self.next_channel + 1;
        let entries = match reserve_entries(self.alloc, &mut self.store, &port, &id, &end, next) {
            Ok(entries) => entries,
            Err(refusal) => {
                drop(end);
                return Err(refusal);
            }
        };
        let channel = Channel::new(self.alloc, end);
        insert(&mut self.channels, (port, id), channel)?;
        self.next_channel = next;
        set_entries(&mut self.store, entries);
        Ok(())
    }

    /// Sets the end of a channel, and leaves its counters (ICS 4, "chanOpenAck", "chanOpenConfirm", "chanCloseInit" and
    /// "chanCloseConfirm"). `UnknownChannel` exactly where there is no such channel; `NoMemory` where a growth is
    /// refused. A refusal leaves the records.
    pub fn set_channel_end(
        &mut self,
        port: PortId,
        id: ChannelId,
        end: ChannelEnd,
    ) -> Result<(), Refusal>
        ensures ok { OnOk result (SetsChannelEnd self.old port id end self.new) }
        ensures unknown { IsNone (at pair_cmp (port, id) self.old.channels) → result ≡ Err UnknownChannel }
        ensures known { IsSome (at pair_cmp (port, id) self.old.channels) → IsOkUnless result NoMemory }
        ensures unchanged { OnErr result (IsUnchanged self.old self.new) }
    {
        let name = (port, id);
        if !contains(&self.channels, &name) {
            drop(end);
            return Err(Refusal::UnknownChannel);
        }
        let (path, value) = match reserve_end(self.alloc, &mut self.store, &name, &end) {
            Ok(entry) => entry,
            Err(refusal) => {
                drop(end);
                return Err(refusal);
            }
        };
        set_end(&mut self.channels, name, end)?;
        set_reserved(&mut self.store, path, value);
        Ok(())
    }
}

// Makes room for another end of a channel, and the path and the bytes that are set then.
fn reserve_end(
    alloc: Global,
    store: &mut Store,
    name: &(PortId, ChannelId),
    end: &ChannelEnd,
) -> Result<(String, Bytes), Refusal>
    ensures path { IfOk result (λ entry. string_bytes entry.0 ≡ end_path_of name.now) }
    ensures value { IfOk result (λ entry. entry.1 ≡ value_bytes (ChannelIs end.now)) }
    ensures named { OnOk result (IsTrue (is_port name.now.0 && is_channel name.now.1)) }
    ensures room { OnOk result (0 < store.new.room) }
    ensures same { store.new ≡ record store.old { room = store.new.room } }
    ensures err { IsOkUnless result NoMemory }
{
    let path = channel_path(alloc, "channelEnds", &name.0, &name.1)?;
    let value = channel_value(alloc, end)?;
    store.reserve(1)?;
    Ok((path, value))
}

// A channel that is there has this end.
fn set_end(
    channels: &mut Channels,
    name: (PortId, ChannelId),
    end: ChannelEnd,
) -> Result<(), Refusal>
    requires { IsSome (at pair_cmp name channels.old.pairs) }
    ensures ok { OnOk result (HasNewEnd name end channels.old channels.new) }
    ensures err { IsOkUnless result NoMemory }
    ensures unchanged { OnErr result (channels.new.pairs ≡ channels.old.pairs) }
{
    let mut channel = take(channels, &name)?;
    channel.set_end(end);
    put(channels, name, channel);
    Ok(())
}
