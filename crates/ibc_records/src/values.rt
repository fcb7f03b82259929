//! Paths and values as they stand in the store.

ghost use Rattle.std.specs.Prelude.{◌≡◌, ◌<◌, ◌≤◌, ◌+◌, ◌++◌, IfOk, OnOk, string_bytes, IsOkUnless};
ghost use Rattle.ibc_ids.specs.Paths.{path};
ghost use Rattle.ibc_ids.specs.declared.refusal.Refusal.TheVariants.{NoMemory};
ghost use Rattle.ibc_wire.specs.Spelling.{connection_end_bytes, channel_end_bytes};
ghost use Rattle.ibc_path_store.specs.StoreChanges.{SetsPath};
ghost use Rattle.ibc_machine.specs.ics24.Values.{value_bytes, NumberIs, ClientIs, ConnectionIs, ChannelIs};

use ibc_ids::{Bytes, Key, Refusal};
use ibc_path_store::Store;
use ibc_wire::fields::{write_name, write_peer, write_text};
use ibc_wire::{
    ChannelEnd, ChannelState, ClientState, ConnectionEnd, ConnectionState, Wire, encode,
};
use std::alloc::Global;

/// Sets the value of a path, for which there is room.
pub fn set_reserved(store: &mut Store, path: String, value: Bytes)
    requires { 0 < store.old.room }
    ensures set { SetsPath path value store.old store.new }
    ensures room { store.old.room ≤ store.new.room + 1 }
{
    let _ = store.set(path, value);
}

/// The path of a key, and the bytes of a number that stands there.
pub fn counter(alloc: Global, key: &Key, n: u64) -> Result<(String, Bytes), Refusal>
    ensures path { IfOk result (λ entry. string_bytes entry.0 ≡ path key.now) }
    ensures number { IfOk result (λ entry. entry.1 ≡ value_bytes (NumberIs n)) }
    ensures err { IsOkUnless result NoMemory }
{
    let path = key.path(alloc)?;
    Ok((path, Bytes::copy_of(alloc, &n.to_be_bytes())?))
}

/// The bytes of a client's state.
pub fn client_value(alloc: Global, state: ClientState) -> Result<Bytes, Refusal>
    ensures ok { IfOk result (λ bytes. bytes ≡ value_bytes (ClientIs state)) }
    ensures err { IsOkUnless result NoMemory }
{
    Ok(Bytes::from_vec(encode(alloc, &state)?))
}

/// The bytes of an end of a connection (ICS 3, "ConnectionEnd"): its fields in order.
pub fn connection_value(alloc: Global, end: &ConnectionEnd) -> Result<Bytes, Refusal>
    ensures ok { IfOk result (λ bytes. bytes ≡ value_bytes (ConnectionIs end.now)) }
    ensures err { IsOkUnless result NoMemory }
{
    let mut bytes = Vec::new(alloc);
    match write_connection(&mut bytes, end) {
        Ok(()) => Ok(Bytes::from_vec(bytes)),
        // What is written has its form, so only a growth is refused.
        Err(_) => Err(Refusal::NoMemory),
    }
}

// Writes the fields of an end. A peer's name that the end's state doesn't allow has no spelling, and is left out.
fn write_connection(bytes: &mut Vec<u8>, end: &ConnectionEnd) -> Result<(), Refusal>
    ensures { OnOk result (bytes.new.items ≡ bytes.old.items ++ connection_end_bytes end.now) }
{
    end.state.write(bytes)?;
    write_name(bytes, &end.client)?;
    write_name(bytes, &end.peer_client)?;
    let is_init = end.state == ConnectionState::Init;
    if is_init == end.peer_connection.is_none() {
        write_peer(bytes, is_init, &end.peer_connection)?;
    }
    write_text(bytes, b"1", u16::MAX)
}

/// The bytes of an end of a channel (ICS 4, "ChannelEnd"): its fields in order.
pub fn channel_value(alloc: Global, end: &ChannelEnd) -> Result<Bytes, Refusal>
    ensures ok { IfOk result (λ bytes. bytes ≡ value_bytes (ChannelIs end.now)) }
    ensures err { IsOkUnless result NoMemory }
{
    let mut bytes = Vec::new(alloc);
    match write_channel(&mut bytes, end) {
        Ok(()) => Ok(Bytes::from_vec(bytes)),
        // What is written has its form, so only a growth is refused.
        Err(_) => Err(Refusal::NoMemory),
    }
}

// Writes the fields of an end. A peer's name that the end's state doesn't allow has no spelling, and is left out.
fn write_channel(bytes: &mut Vec<u8>, end: &ChannelEnd) -> Result<(), Refusal>
    ensures { OnOk result (bytes.new.items ≡ bytes.old.items ++ channel_end_bytes end.now) }
{
    end.state.write(bytes)?;
    end.order.write(bytes)?;
    write_name(bytes, &end.peer_port)?;
    let is_init = end.state == ChannelState::Init;
    if is_init == end.peer_channel.is_none() {
        write_peer(bytes, is_init, &end.peer_channel)?;
    }
    write_name(bytes, &end.connection)?;
    write_name(bytes, &end.version)
}
