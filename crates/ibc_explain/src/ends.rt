//! What a ledger has now, as explanations need it.

use ibc_ids::{ChannelId, ClientId, ConnectionId, Key, PortId, Refusal, Version};
use ibc_ledger::Ledger;
use ibc_wire::{ChannelEnd, ClientState, ConnectionEnd, Wire, decode};
use std::alloc::Global;

/// Which chain is behind an end of a channel, and the version that both speak.
#[derive(Drop)]
pub struct EndTold {
    pub peer: Option<u8>,
    pub version: Version,
}

/// A client, with what it knows.
#[derive(Drop)]
pub struct ClientTold {
    pub client: ClientId,
    pub state: Option<ClientState>,
}

/// What a ledger says of an end of a channel, none where it has no such end. An end keeps its connection, that its client,
/// and that its chain, so this is so since the end was there. Refused: `NoMemory`.
pub fn end_of(
    alloc: Global,
    ledger: &Ledger,
    port: &PortId,
    channel: &ChannelId,
) -> Result<Option<EndTold>, Refusal> {
    let Some(end) = channel_of(alloc, ledger, port, channel)? else {
        return Ok(None);
    };
    let ChannelEnd {
        connection,
        version,
        ..
    } = end;
    match client_over(alloc, ledger, connection) {
        Ok(client) => {
            let peer = client
                .and_then(|client| client.state)
                .map(|state| state.chain);
            Ok(Some(EndTold { peer, version }))
        }
        Err(refusal) => {
            drop(version);
            Err(refusal)
        }
    }
}

/// An end of a channel, none where there is none. Refused: `NoMemory`.
pub fn channel_of(
    alloc: Global,
    ledger: &Ledger,
    port: &PortId,
    channel: &ChannelId,
) -> Result<Option<ChannelEnd>, Refusal> {
    let key = Key::ChannelEnd(port.clone()?, channel.clone()?);
    record_at(alloc, ledger, key)
}

/// An end of a connection, none where there is none. Refused: `NoMemory`.
pub fn connection_of(
    alloc: Global,
    ledger: &Ledger,
    connection: &ConnectionId,
) -> Result<Option<ConnectionEnd>, Refusal> {
    let key = Key::Connection(connection.clone()?);
    record_at(alloc, ledger, key)
}

/// The client of a connection, none where there is no such connection. Refused: `NoMemory`.
pub fn client_over(
    alloc: Global,
    ledger: &Ledger,
    connection: ConnectionId,
) -> Result<Option<ClientTold>, Refusal> {
    let found: Option<ConnectionEnd> = record_at(alloc, ledger, Key::Connection(connection))?;
    let Some(end) = found else {
        return Ok(None);
    };
    let ConnectionEnd { client, .. } = end;
    match client_of(alloc, ledger, &client) {
        Ok(state) => Ok(Some(ClientTold { client, state })),
        Err(refusal) => {
            drop(client);
            Err(refusal)
        }
    }
}

/// What a client knows, none where there is no such client. Refused: `NoMemory`.
pub fn client_of(
    alloc: Global,
    ledger: &Ledger,
    client: &ClientId,
) -> Result<Option<ClientState>, Refusal> {
    let key = Key::ClientState(client.clone()?);
    record_at(alloc, ledger, key)
}

/// The number that a ledger has at a key, none where there is none. Refused: `NoMemory`.
pub fn number_at(ledger: &Ledger, key: Key) -> Result<Option<u64>, Refusal> {
    let found = ledger.query(&key);
    drop(key);
    match found? {
        Some(bytes) => {
            let number = number_in(bytes.as_slice());
            drop(bytes);
            Ok(number)
        }
        None => Ok(None),
    }
}

// The number that 8 bytes are.
fn number_in(bytes: &[u8]) -> Option<u64> {
    match bytes {
        [a, b, c, d, e, f, g, h] => Some(u64::from_be_bytes([*a, *b, *c, *d, *e, *f, *g, *h])),
        _ => None,
    }
}

// The record that a ledger has at a key.
fn record_at<T: Wire + Drop>(
    alloc: Global,
    ledger: &Ledger,
    key: Key,
) -> Result<Option<T>, Refusal> {
    let found = ledger.query(&key);
    drop(key);
    match found? {
        Some(bytes) => {
            let record = decode(alloc, bytes.as_slice());
            drop(bytes);
            Ok(Some(record?))
        }
        None => Ok(None),
    }
}
