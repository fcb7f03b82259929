//! What a step looked for that isn't there, in words.

use ibc_ids::{ChannelId, Key, PortId};
use std::alloc::{AllocError, Global};

/// Something that isn't there: the chain that was asked, and the words behind its name.
#[derive(Drop)]
pub struct Absent {
    pub chain: u8,
    pub words: String,
}

/// That a chain has nothing at a key.
pub fn key_words(alloc: Global, key: &Key) -> Result<String, AllocError> {
    match key {
        Key::ClientState(client) => {
            let client = client.as_str();
            format!(in alloc; "has no client {client}")
        }
        Key::Connection(connection) => {
            let connection = connection.as_str();
            format!(in alloc; "has no connection {connection}")
        }
        Key::ChannelEnd(port, channel) => {
            let (port, channel) = (port.as_str(), channel.as_str());
            format!(in alloc; "has no channel {port}/{channel}")
        }
        _ => String::from_str(alloc, "has no such record"),
    }
}

/// That a height of a chain has no record that a message needs, where it needs one at such a key.
pub fn value_words(alloc: Global, height: u64, key: &Key) -> Result<Option<String>, AllocError> {
    match key {
        Key::ClientState(client) => {
            let client = client.as_str();
            let words = format!(in alloc; "had no client {client} at height {height}")?;
            Ok(Some(words))
        }
        Key::NextSequenceRecv(port, channel) => {
            let (port, channel) = (port.as_str(), channel.as_str());
            let words = format!(in alloc;
                "had no ordered channel {port}/{channel} at height {height}"
            )?;
            Ok(Some(words))
        }
        _ => Ok(None),
    }
}

/// That a chain sent no such packet.
pub fn packet_words(
    alloc: Global,
    port: &PortId,
    channel: &ChannelId,
    sequence: u64,
) -> Result<String, AllocError> {
    let (port, channel) = (port.as_str(), channel.as_str());
    format!(in alloc; "sent no packet {sequence} over {port}/{channel}")
}

/// That a chain wrote no such acknowledgement.
pub fn ack_words(
    alloc: Global,
    port: &PortId,
    channel: &ChannelId,
    sequence: u64,
) -> Result<String, AllocError> {
    let (port, channel) = (port.as_str(), channel.as_str());
    format!(in alloc; "wrote no acknowledgement of packet {sequence} at {port}/{channel}")
}

/// That a chain doesn't keep a height.
pub fn height_words(alloc: Global, height: u64) -> Result<String, AllocError> {
    format!(in alloc; "keeps no height {height}")
}
