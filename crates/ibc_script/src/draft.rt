//! Messages as the steps of a script name them.

ghost use Rattle.std.specs.Prelude.{◌≡◌};
ghost use Rattle.ibc_script.specs.EventKinds.{client_draft_kind, connection_draft_kind, channel_draft_kind, packet_draft_kind, draft_kind};

use ibc_ids::{ChannelId, ClientId, ConnectionId, PortId, Version};
use ibc_wire::{ChanCloseInit, ChanOpenInit, MessageKind, Order, SendNote, Transfer, TransferMany};

/// The height of a chain from which the proofs of a message are taken.
#[derive(Clone, Copy, Debug, PartialEq, Eq, Drop)]
pub struct ProofSource {
    pub chain: u8,
    pub height: u64,
}

/// A message for clients (ICS 2).
#[derive(Drop)]
pub enum ClientDraft {
    /// A client is made of a chain.
    Create { of: u8 },
    /// A client is told of a height of the chain that it tracks.
    Update { client: ClientId, height: u64 },
}

/// A message for connections (ICS 3).
#[derive(Drop)]
pub enum ConnectionDraft {
    /// A connection is begun.
    OpenInit {
        client: ClientId,
        peer_client: ClientId,
    },
    /// A connection that the peer began is answered.
    OpenTry {
        client: ClientId,
        peer_client: ClientId,
        peer_connection: ConnectionId,
        from: ProofSource,
    },
    /// A connection that the peer answered is opened.
    OpenAck {
        connection: ConnectionId,
        peer_connection: ConnectionId,
        from: ProofSource,
    },
    /// A connection that the peer opened is opened.
    OpenConfirm {
        connection: ConnectionId,
        from: ProofSource,
    },
}

/// The answer to a channel that the peer began, without its proof.
#[derive(Drop)]
pub struct ChannelTry {
    pub port: PortId,
    pub order: Order,
    pub connection: ConnectionId,
    pub peer_port: PortId,
    pub peer_channel: ChannelId,
    pub version: Version,
    pub from: ProofSource,
}

/// A message for channels (ICS 4).
#[derive(Drop)]
pub enum ChannelDraft {
    /// A channel is begun.
    OpenInit(ChanOpenInit),
    /// A channel that the peer began is answered.
    OpenTry(ChannelTry),
    /// A channel that the peer answered is opened.
    OpenAck {
        port: PortId,
        channel: ChannelId,
        peer_channel: ChannelId,
        from: ProofSource,
    },
    /// A channel that the peer opened is opened.
    OpenConfirm {
        port: PortId,
        channel: ChannelId,
        from: ProofSource,
    },
    /// A channel is closed.
    CloseInit(ChanCloseInit),
    /// A channel that the peer closed is closed.
    CloseConfirm {
        port: PortId,
        channel: ChannelId,
        from: ProofSource,
    },
}

/// A packet, by the chain, the port and the channel that it was sent from, and its sequence there (ICS 4, "Packet").
/// There may be no such packet.
#[derive(Drop)]
pub struct SentPacket {
    pub chain: u8,
    pub port: PortId,
    pub channel: ChannelId,
    pub sequence: u64,
}

/// A message for packets (ICS 4, "Packet flow & handling").
#[derive(Drop)]
pub enum PacketDraft {
    /// Tokens of one denomination are sent (ICS 20).
    Transfer(Transfer),
    /// Tokens of several denominations are sent in one packet (ICS 20).
    TransferMany(TransferMany),
    /// A note is sent.
    SendNote(SendNote),
    /// A packet is received. Its proof is of this height of the chain that sent it.
    Recv {
        packet: SentPacket,
        height: u64,
    },
    /// The sender is told how its packet was acknowledged.
    Ack {
        packet: SentPacket,
        from: ProofSource,
    },
    /// The sender is told that its packet wasn't received in time.
    Timeout {
        packet: SentPacket,
        from: ProofSource,
    },
    /// The sender is told that its packet wasn't received, and that the peer's end is closed.
    TimeoutOnClose {
        packet: SentPacket,
        from: ProofSource,
    },
}

/// A message as a step of a script names it. Its other fields come from what the chains answer when the step is run.
#[derive(Drop)]
pub enum Draft {
    Client(ClientDraft),
    Connection(ConnectionDraft),
    Channel(ChannelDraft),
    Packet(PacketDraft),
}

impl ClientDraft {
    fn kind(&self) -> MessageKind
        ensures { result ≡ client_draft_kind self.now }
    {
        match self {
            ClientDraft::Create { .. } => MessageKind::CreateClient,
            ClientDraft::Update { .. } => MessageKind::UpdateClient,
        }
    }
}

impl ConnectionDraft {
    fn kind(&self) -> MessageKind
        ensures { result ≡ connection_draft_kind self.now }
    {
        match self {
            ConnectionDraft::OpenInit { .. } => MessageKind::ConnOpenInit,
            ConnectionDraft::OpenTry { .. } => MessageKind::ConnOpenTry,
            ConnectionDraft::OpenAck { .. } => MessageKind::ConnOpenAck,
            ConnectionDraft::OpenConfirm { .. } => MessageKind::ConnOpenConfirm,
        }
    }
}

impl ChannelDraft {
    fn kind(&self) -> MessageKind
        ensures { result ≡ channel_draft_kind self.now }
    {
        match self {
            ChannelDraft::OpenInit(_) => MessageKind::ChanOpenInit,
            ChannelDraft::OpenTry(_) => MessageKind::ChanOpenTry,
            ChannelDraft::OpenAck { .. } => MessageKind::ChanOpenAck,
            ChannelDraft::OpenConfirm { .. } => MessageKind::ChanOpenConfirm,
            ChannelDraft::CloseInit(_) => MessageKind::ChanCloseInit,
            ChannelDraft::CloseConfirm { .. } => MessageKind::ChanCloseConfirm,
        }
    }
}

impl PacketDraft {
    fn kind(&self) -> MessageKind
        ensures { result ≡ packet_draft_kind self.now }
    {
        match self {
            PacketDraft::Transfer(_) => MessageKind::Transfer,
            PacketDraft::TransferMany(_) => MessageKind::TransferMany,
            PacketDraft::SendNote(_) => MessageKind::SendNote,
            PacketDraft::Recv { .. } => MessageKind::RecvPacket,
            PacketDraft::Ack { .. } => MessageKind::AckPacket,
            PacketDraft::Timeout { .. } => MessageKind::Timeout,
            PacketDraft::TimeoutOnClose { .. } => MessageKind::TimeoutOnClose,
        }
    }
}

impl Draft {
    /// The kind of the message.
    pub fn kind(&self) -> MessageKind
        ensures { result ≡ draft_kind self.now }
    {
        match self {
            Draft::Client(draft) => draft.kind(),
            Draft::Connection(draft) => draft.kind(),
            Draft::Channel(draft) => draft.kind(),
            Draft::Packet(draft) => draft.kind(),
        }
    }
}
