//! What stands at the paths of a new channel.

ghost use Rattle.std.specs.Prelude.{◌≡◌, ◌+◌, ◌&&◌, ◌≤◌, ◌∷◌, [], IsTrue, IfOk, OnOk, string_bytes, IsOkUnless};
ghost use Rattle.ibc_ids.specs.Names.{is_port, is_channel};
ghost use Rattle.ibc_ids.specs.declared.refusal.Refusal.TheVariants.{NoMemory};
ghost use Rattle.ibc_records.specs.Entries.{new_entries, SetsPaths};

use crate::packet_values::channel_counter;
use crate::values::{channel_value, counter, set_reserved};
use ibc_ids::{Bytes, ChannelId, Key, PortId, Refusal, channel_path};
use ibc_path_store::Store;
use ibc_wire::ChannelEnd;
use std::alloc::Global;
use std::marker::Model;

/// The end of a new channel, its three counters, and the number of the next channel, each a path with the bytes that stand
/// there.
#[derive(Drop)]
pub struct ChannelEntries {
    end: (String, Bytes),
    next_send: (String, Bytes),
    next_recv: (String, Bytes),
    next_ack: (String, Bytes),
    next_channel: (String, Bytes),
}

impl Model for ChannelEntries {
    ghost use Rattle.std.specs.Prelude.{◌∷◌, [], string_bytes};
    ghost use Rattle.ibc_merkle.specs.Tree.{Pairs};

    ghost Value = { Pairs };

    ghost view = { λ entries.
        (string_bytes entries.end.0, entries.end.1)
        ∷ (string_bytes entries.next_send.0, entries.next_send.1)
        ∷ (string_bytes entries.next_recv.0, entries.next_recv.1)
        ∷ (string_bytes entries.next_ack.0, entries.next_ack.1)
        ∷ (string_bytes entries.next_channel.0, entries.next_channel.1)
        ∷ [] };
}

impl ChannelEntries {
    /// The entries of a channel with this end, whose counters are 1; the next one has the given number. Refused: `NoMemory`.
    pub fn new(
        alloc: Global,
        port: &PortId,
        id: &ChannelId,
        end: &ChannelEnd,
        next: u64,
    ) -> Result<ChannelEntries, Refusal>
        ensures ok { IfOk result (λ entries. entries ≡ new_entries port.now id.now end.now next) }
        ensures named { IsTrue (is_port port.now && is_channel id.now) }
        ensures err { IsOkUnless result NoMemory }
    {
        let path = channel_path(alloc, "channelEnds", port, id)?;
        Ok(ChannelEntries {
            end: (path, channel_value(alloc, end)?),
            next_send: channel_counter(alloc, "nextSequenceSend", port, id, 1)?,
            next_recv: channel_counter(alloc, "nextSequenceRecv", port, id, 1)?,
            next_ack: channel_counter(alloc, "nextSequenceAck", port, id, 1)?,
            next_channel: counter(alloc, &Key::NextChannelSequence, next)?,
        })
    }
}

/// Makes room for a new channel, and the entries that are set then. Refused: `NoMemory`.
pub fn reserve_entries(
    alloc: Global,
    store: &mut Store,
    port: &PortId,
    id: &ChannelId,
    end: &ChannelEnd,
    next: u64,
) -> Result<ChannelEntries, Refusal>
    ensures ok { IfOk result (λ entries. entries ≡ new_entries port.now id.now end.now next) }
    ensures room { OnOk result (5 ≤ store.new.room) }
    ensures same { store.new ≡ record store.old { room = store.new.room } }
    ensures named { OnOk result (IsTrue (is_port port.now && is_channel id.now)) }
    ensures err { IsOkUnless result NoMemory }
{
    store.reserve(5)?;
    ChannelEntries::new(alloc, port, id, end, next)
}

/// Sets the paths of a new channel, for which there is room.
pub fn set_entries(store: &mut Store, entries: ChannelEntries)
    requires { 5 ≤ store.old.room }
    ensures set { SetsPaths store.old entries store.new }
    ensures room { store.old.room ≤ store.new.room + 5 }
{
    let ChannelEntries {
        end,
        next_send,
        next_recv,
        next_ack,
        next_channel,
    } = entries;
    set_reserved(store, end.0, end.1);
    set_reserved(store, next_send.0, next_send.1);
    set_reserved(store, next_recv.0, next_recv.1);
    set_reserved(store, next_ack.0, next_ack.1);
    set_reserved(store, next_channel.0, next_channel.1);
}
