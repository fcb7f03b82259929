//! What a chain answers.
use ibc_ids::{Bytes, ChannelId, ClientId, ConnectionId, Refusal, Root};

/// What an accepted event gives.
#[derive(Clone, Drop, Debug, PartialEq, Eq)]
pub enum Effect {
    /// Nothing to tell.
    None,
    /// The identifier of a new client.
    Client(ClientId),
    /// The identifier of a new connection.
    Connection(ConnectionId),
    /// The identifier of a new channel.
    Channel(ChannelId),
    /// The sequence of the packet that was sent.
    Sent(u64),
    /// The acknowledgement that was written for the received packet, 1 to 1,024 bytes.
    Ack(Bytes),
    /// The height that was committed, from 1, and its root.
    Block(u64, Root),
}

/// The reply to an event. After a refusal the state is as before.
#[derive(Clone, Drop, Debug, PartialEq, Eq)]
pub enum Reply {
    Ok(Effect),
    No(Refusal),
}
