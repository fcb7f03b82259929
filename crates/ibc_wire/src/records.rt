//! The records of clients, connections and channels.
use ibc_ids::{ChannelId, ClientId, ConnectionId, PortId, Version};

/// A client: the chain that it tracks by its number, and the latest height that it knows, 0 before the first
/// (ICS 2, "ClientState").
#[derive(Clone, Copy, Debug, PartialEq, Eq, Drop)]
pub struct ClientState {
    pub chain: u8,
    pub latest: u64,
}

/// How far a connection's handshake is (ICS 3, "ConnectionState").
#[derive(Clone, Copy, Debug, PartialEq, Eq, Drop)]
pub enum ConnectionState {
    Init,
    TryOpen,
    Open,
}

/// One end of a connection (ICS 3, "ConnectionEnd"). The peer's connection is named in every state but `Init`.
#[derive(Clone, Drop, Debug, PartialEq, Eq)]
pub struct ConnectionEnd {
    pub state: ConnectionState,
    pub client: ClientId,
    pub peer_client: ClientId,
    pub peer_connection: Option<ConnectionId>,
}

/// How far a channel's handshakes are (ICS 4, "ChannelState").
#[derive(Clone, Copy, Debug, PartialEq, Eq, Drop)]
pub enum ChannelState {
    Init,
    TryOpen,
    Open,
    Closed,
}

/// Whether packets are received in the order in which they were sent (ICS 4, "ChannelOrder").
#[derive(Clone, Copy, Debug, PartialEq, Eq, Drop)]
pub enum Order {
    Unordered,
    Ordered,
}

/// One end of a channel (ICS 4, "ChannelEnd"). The peer's channel is named in every state but `Init`.
#[derive(Clone, Drop, Debug, PartialEq, Eq)]
pub struct ChannelEnd {
    pub state: ChannelState,
    pub order: Order,
    pub peer_port: PortId,
    pub peer_channel: Option<ChannelId>,
    pub connection: ConnectionId,
    pub version: Version,
}
