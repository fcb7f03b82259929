//! The maps of a chain's records, whose copies share what is the same in both.

ghost use Rattle.std.specs.Prelude.{◌≡◌, ◌<◌, [], Some, is_some, IsSome, IsTrue, IfOk, OnOk, OnErr};
ghost use Rattle.std.specs.FinMap.{is_sorted};
ghost use Rattle.ibc_ids.specs.Maps.{at, with, without};

use crate::channel::Channel;
use crate::client::Client;
use ibc_ids::{ChannelId, ClientId, ConnectionId, PortId};
use ibc_maps::SharedMap;
use ibc_wire::ConnectionEnd;
use std::alloc::{AllocError, Global};
use std::cmp::Ord;

/// Clients by their identifiers.
pub type Clients = SharedMap<ClientId, Client>;

/// Ends of connections by their identifiers.
pub type Connections = SharedMap<ConnectionId, ConnectionEnd>;

/// Ends of channels with what stands at them, by port and identifier.
pub type Channels = SharedMap<(PortId, ChannelId), Channel>;

/// No client.
pub(crate) fn no_clients(alloc: Global) -> Clients
    ensures { result.pairs ≡ [] }
{
    SharedMap::new(alloc)
}

/// No connection.
pub(crate) fn no_connections(alloc: Global) -> Connections
    ensures { result.pairs ≡ [] }
{
    SharedMap::new(alloc)
}

/// No channel.
pub(crate) fn no_channels(alloc: Global) -> Channels
    ensures { result.pairs ≡ [] }
{
    SharedMap::new(alloc)
}

/// Sets the value of a key. A refusal leaves the pairs.
pub(crate) fn insert<K: Ord + Clone + Drop, V: Clone + Drop>(
    map: &mut SharedMap<K, V>,
    key: K,
    value: V,
) -> Result<(), AllocError>
    ensures ok { OnOk result (map.new.pairs ≡ with K.cmp key value map.old.pairs) }
    ensures err { OnErr result (map.new.pairs ≡ map.old.pairs) }
{
    map.reserve(1)?;
    map.set(key, value)
}

/// Whether a key is there.
pub(crate) fn contains<K: Ord + Clone + Drop, V: Clone + Drop>(
    map: &SharedMap<K, V>,
    key: &K,
) -> bool
    ensures { result ≡ is_some (at K.cmp key.now map.now.pairs) }
{
    map.get(key).is_some()
}

/// Takes the value of a key that is there out, with room to put it back. Refused only where a growth is; the pairs then
/// stay.
pub(crate) fn take<K: Ord + Clone + Drop, V: Clone + Drop>(
    map: &mut SharedMap<K, V>,
    key: &K,
) -> Result<V, AllocError>
    requires { IsSome (at K.cmp key.now map.old.pairs) }
    ensures value { IfOk result (λ value. at K.cmp key.now map.old.pairs ≡ Some value) }
    ensures ok { OnOk result (map.new.pairs ≡ without K.cmp key.now map.old.pairs) }
    ensures room { OnOk result (0 < map.new.room) }
    ensures sorted { IsTrue (is_sorted K.cmp map.old.pairs) }
    ensures err { OnErr result (map.new.pairs ≡ map.old.pairs) }
{
    map.lemma_in_order();
    match map.take(key)? {
        Some(value) => Ok(value),
        None => unreachable!(),
    }
}

/// Sets the value of a key for which there is room.
pub(crate) fn put<K: Ord + Clone + Drop, V: Clone + Drop>(
    map: &mut SharedMap<K, V>,
    key: K,
    value: V,
)
    requires { 0 < map.old.room }
    ensures { map.new.pairs ≡ with K.cmp key value map.old.pairs }
{
    let _ = map.set(key, value);
}
