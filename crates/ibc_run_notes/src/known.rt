//! What the replies of a run have told of its clients, connections and ends of channels.

ghost use Rattle.std.specs.Prelude.{◌≡◌};
ghost use Rattle.ibc_run_notes.specs.KnownEnds.{has_several_at};

use ibc_ids::{ClientId, ConnectionId, Version};
use ibc_machine::{Effect, Entry, Event, Reply};
use ibc_wire::Message;
use std::alloc::{AllocError, Global};

/// The version of channels that take several tokens in a packet.
const SEVERAL_TOKENS: &str = "ics20-own-2";

/// A client, and the chain that it tracks.
#[derive(Drop)]
pub struct KnownClient {
    pub chain: u8,
    pub client: ClientId,
    pub of: u8,
}

/// An end of a connection, and the place of its client.
#[derive(Drop)]
pub struct KnownConnection {
    pub chain: u8,
    pub connection: ConnectionId,
    pub client: Option<usize>,
}

/// An end of a channel: the place of its connection, and whether a packet may have several tokens.
#[derive(Clone, Copy)]
pub struct KnownEnd {
    pub connection: Option<usize>,
    pub takes_several: bool,
}

/// What is known, each in the order in which it came.
#[derive(Drop)]
pub struct Known {
    clients: Vec<KnownClient>,
    connections: Vec<KnownConnection>,
    ends: Vec<KnownEnd>,
}

impl Known {
    /// Nothing is known yet.
    pub fn new(alloc: Global) -> Known {
        Known {
            clients: Vec::new(alloc),
            connections: Vec::new(alloc),
            ends: Vec::new(alloc),
        }
    }

    /// Notes what an entry of a chain has made. Error: no memory.
    pub fn look(&mut self, chain: u8, entry: &Entry) -> Result<(), AllocError> {
        let (Event::Message { message, .. }, Reply::Ok(effect)) = (&entry.event, &entry.reply)
        else {
            return Ok(());
        };
        match (message, effect) {
            (Message::CreateClient(message), Effect::Client(client)) => {
                self.note_client(chain, client, message.chain)
            }
            (Message::ConnOpenInit(message), Effect::Connection(connection)) => {
                self.note_connection(chain, connection, &message.client)
            }
            (Message::ConnOpenTry(message), Effect::Connection(connection)) => {
                self.note_connection(chain, connection, &message.client)
            }
            (Message::ChanOpenInit(message), Effect::Channel(_)) => {
                self.note_end(chain, &message.connection, &message.version)
            }
            (Message::ChanOpenTry(message), Effect::Channel(_)) => {
                self.note_end(chain, &message.connection, &message.version)
            }
            _ => Ok(()),
        }
    }

    fn note_client(&mut self, chain: u8, client: &ClientId, of: u8) -> Result<(), AllocError> {
        let client = client.clone()?;
        self.clients.push(KnownClient { chain, client, of })?;
        Ok(())
    }

    fn note_connection(
        &mut self,
        chain: u8,
        connection: &ConnectionId,
        client: &ClientId,
    ) -> Result<(), AllocError> {
        let client = place_of_client(self.clients.as_slice(), chain, client);
        let connection = connection.clone()?;
        self.connections.push(KnownConnection {
            chain,
            connection,
            client,
        })?;
        Ok(())
    }

    fn note_end(
        &mut self,
        chain: u8,
        connection: &ConnectionId,
        version: &Version,
    ) -> Result<(), AllocError> {
        let connection = place_of_connection(self.connections.as_slice(), chain, connection);
        let takes_several = version.as_str() == SEVERAL_TOKENS;
        self.ends.push(KnownEnd {
            connection,
            takes_several,
        })?;
        Ok(())
    }

    /// The connection of an end of a channel.
    pub fn connection_of(&self, end: usize) -> Option<&KnownConnection> {
        let connection = self.ends.get(end)?.connection;
        match connection {
            Some(place) => self.connections.get(place),
            None => None,
        }
    }

    /// Whether a packet from an end of a channel may have several tokens.
    pub fn takes_several(&self, end: usize) -> bool
        ensures { result ≡ has_several_at self.now.ends.items end }
    {
        has_several_at(self.ends.as_slice(), end)
    }

    /// The client of an end of a channel.
    pub fn client_of(&self, end: usize) -> Option<&KnownClient> {
        let client = self.connection_of(end)?.client;
        match client {
            Some(place) => self.clients.get(place),
            None => None,
        }
    }

    /// The chain that the client of an end of a channel tracks.
    pub fn tracked_by(&self, end: usize) -> Option<u8> {
        match self.client_of(end) {
            Some(client) => Some(client.of),
            None => None,
        }
    }
}

// Whether a packet from the end at a place may have several tokens.
fn has_several_at(ends: &[KnownEnd], end: usize) -> bool
    ensures { result ≡ has_several_at ends.now end }
{
    match ends.get(end) {
        Some(known) => known.takes_several,
        None => false,
    }
}

// The place of a chain's client.
fn place_of_client(clients: &[KnownClient], chain: u8, client: &ClientId) -> Option<usize> {
    for place in 0..clients.len() {
        let known = &clients[place];
        if known.chain == chain && known.client == *client {
            return Some(place);
        }
    }
    None
}

// The place of a chain's end of a connection.
fn place_of_connection(
    connections: &[KnownConnection],
    chain: u8,
    connection: &ConnectionId,
) -> Option<usize> {
    for place in 0..connections.len() {
        let known = &connections[place];
        if known.chain == chain && known.connection == *connection {
            return Some(place);
        }
    }
    None
}
