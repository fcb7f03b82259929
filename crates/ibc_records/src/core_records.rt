//! What a chain proves, in plain, as a value of its own.

ghost use Rattle.std.specs.Prelude.{◌≡◌, map};
ghost use Rattle.ibc_machine.specs.chain.Genesis.{empty_core};
ghost use Rattle.ibc_records.specs.RecordsModel.{abstract_client_entry, IsCoreOf};

use crate::NextNumbers;
use crate::maps::{Channels, Clients, Connections, no_channels, no_clients, no_connections};
use std::alloc::{AllocError, Global};
use std::marker::Model;

/// What a chain proves to others, in plain (ICS 24, "Provable store"): its clients, connections and channels, and the
/// numbers of the next ones. Contracts see the core of the chain.
#[derive(Drop, Debug)]
pub struct CoreRecords {
    clients: Clients,
    connections: Connections,
    channels: Channels,
    next: NextNumbers,
}

impl Model for CoreRecords {
    ghost use Rattle.std.specs.Prelude.{map};
    ghost use Rattle.ibc_machine.specs.chain.Records.{Core};
    ghost use Rattle.ibc_records.specs.RecordsModel.{abstract_client_entry};

    ghost Value = { Core };

    ghost view = { λ plain. record {
      clients = map abstract_client_entry plain.clients.pairs;
      connections = plain.connections.pairs;
      channels = plain.channels.pairs;
      next_client = plain.next.client;
      next_connection = plain.next.connection;
      next_channel = plain.next.channel;
    } };
}

impl CoreRecords {
    // What a chain proves in the beginning: no client, connection and channel, and the three counters at 0.
    pub(crate) fn new(alloc: Global) -> CoreRecords
        ensures { result ≡ empty_core }
    {
        CoreRecords {
            clients: no_clients(alloc),
            connections: no_connections(alloc),
            channels: no_channels(alloc),
            next: NextNumbers {
                client: 0,
                connection: 0,
                channel: 0,
            },
        }
    }

    // A copy of these clients, connections and channels.
    pub(crate) fn copy_of(
        clients: &Clients,
        connections: &Connections,
        channels: &Channels,
        next: NextNumbers,
    ) -> Result<CoreRecords, AllocError>
        ensures { IsCoreOf next clients.now.pairs connections.now.pairs channels.now.pairs result }
    {
        Ok(CoreRecords {
            clients: clients.copy()?,
            connections: connections.copy()?,
            channels: channels.copy()?,
            next,
        })
    }

    /// The clients, with what they know, by their identifiers.
    pub fn clients(&self) -> &Clients
        ensures { map abstract_client_entry result.now.pairs ≡ self.now.clients }
    {
        &self.clients
    }

    /// The ends of connections, by their identifiers.
    pub fn connections(&self) -> &Connections
        ensures { result.now.pairs ≡ self.now.connections }
    {
        &self.connections
    }

    /// The ends of channels with what stands at them, by port and identifier.
    pub fn channels(&self) -> &Channels
        ensures { result.now.pairs ≡ self.now.channels }
    {
        &self.channels
    }
}
