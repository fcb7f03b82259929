//! The messages that a chain is sent. A proof field holds the encoding of a proof, or any other bytes.

ghost use Rattle.std.specs.Prelude.{◌≡◌, IsTrue};
ghost use Rattle.ibc_wire.specs.Fields.{are_typed};
ghost use Rattle.ibc_wire.specs.Messages.{message_fields};
ghost use Rattle.ibc_wire.specs.Kinds.{kind_of, kind_of_tag, name_of, tag_of};

use crate::{ClientState, Header, Order, Packet, Tokens};
use ibc_ids::{
    Bytes, ChannelId, ClientId, ConnectionId, Denom, Memo, PortId, Receiver, UserName, Version,
};
use std::fmt;

/// Makes a client of another chain, by its number (ICS 2, "createClient").
#[derive(Drop)]
pub struct CreateClient {
    pub chain: u8,
}

/// Tells a client of a height of the chain that it tracks (ICS 2, "updateClient").
#[derive(Drop)]
pub struct UpdateClient {
    pub client: ClientId,
    pub header: Header,
}

/// Begins a connection (ICS 3, "ConnOpenInit").
#[derive(Drop)]
pub struct ConnOpenInit {
    pub client: ClientId,
    pub peer_client: ClientId,
}

/// Answers a connection that the peer began (ICS 3, "ConnOpenTry"). The claim is the state of the peer's client.
#[derive(Drop)]
pub struct ConnOpenTry {
    pub client: ClientId,
    pub peer_client: ClientId,
    pub peer_connection: ConnectionId,
    pub claim: ClientState,
    pub height: u64,
    pub proof_end: Bytes,
    pub proof_client: Bytes,
}

/// Opens a connection that the peer answered (ICS 3, "ConnOpenAck").
#[derive(Drop)]
pub struct ConnOpenAck {
    pub connection: ConnectionId,
    pub peer_connection: ConnectionId,
    pub claim: ClientState,
    pub height: u64,
    pub proof_end: Bytes,
    pub proof_client: Bytes,
}

/// Opens a connection that the peer opened (ICS 3, "ConnOpenConfirm").
#[derive(Drop)]
pub struct ConnOpenConfirm {
    pub connection: ConnectionId,
    pub height: u64,
    pub proof: Bytes,
}

/// Begins a channel (ICS 4, "chanOpenInit").
#[derive(Drop)]
pub struct ChanOpenInit {
    pub port: PortId,
    pub order: Order,
    pub connection: ConnectionId,
    pub peer_port: PortId,
    pub version: Version,
}

/// Answers a channel that the peer began (ICS 4, "chanOpenTry").
#[derive(Drop)]
pub struct ChanOpenTry {
    pub port: PortId,
    pub order: Order,
    pub connection: ConnectionId,
    pub peer_port: PortId,
    pub peer_channel: ChannelId,
    pub version: Version,
    pub height: u64,
    pub proof: Bytes,
}

/// Opens a channel that the peer answered (ICS 4, "chanOpenAck").
#[derive(Drop)]
pub struct ChanOpenAck {
    pub port: PortId,
    pub channel: ChannelId,
    pub peer_channel: ChannelId,
    pub height: u64,
    pub proof: Bytes,
}

/// Opens a channel that the peer opened (ICS 4, "chanOpenConfirm").
#[derive(Drop)]
pub struct ChanOpenConfirm {
    pub port: PortId,
    pub channel: ChannelId,
    pub height: u64,
    pub proof: Bytes,
}

/// Closes a channel (ICS 4, "chanCloseInit").
#[derive(Drop)]
pub struct ChanCloseInit {
    pub port: PortId,
    pub channel: ChannelId,
}

/// Closes a channel that the peer closed (ICS 4, "chanCloseConfirm").
#[derive(Drop)]
pub struct ChanCloseConfirm {
    pub port: PortId,
    pub channel: ChannelId,
    pub height: u64,
    pub proof: Bytes,
}

/// Sends tokens of one denomination (ICS 20, "sendFungibleTokens").
#[derive(Drop)]
pub struct Transfer {
    pub channel: ChannelId,
    pub user: UserName,
    pub denom: Denom,
    pub amount: u128,
    pub receiver: Receiver,
    pub memo: Memo,
    pub timeout_height: u64,
    pub timeout_time: u64,
}

/// Sends several tokens in one packet (ICS 20): 1 to 8, whose denominations rise strictly in byte order.
#[derive(Drop)]
pub struct TransferMany {
    pub channel: ChannelId,
    pub user: UserName,
    pub tokens: Tokens,
    pub receiver: Receiver,
    pub memo: Memo,
    pub timeout_height: u64,
    pub timeout_time: u64,
}

/// Sends a note, 1 to 1,024 bytes, over a channel of port `note`.
#[derive(Drop)]
pub struct SendNote {
    pub channel: ChannelId,
    pub payload: Bytes,
    pub timeout_height: u64,
    pub timeout_time: u64,
}

/// Receives a packet that the peer sent (ICS 4, "recvPacket").
#[derive(Drop)]
pub struct RecvPacket {
    pub packet: Packet,
    pub height: u64,
    pub proof: Bytes,
}

/// Tells the sender how the peer acknowledged its packet (ICS 4, "acknowledgePacket").
#[derive(Drop)]
pub struct AckPacket {
    pub packet: Packet,
    pub ack: Bytes,
    pub height: u64,
    pub proof: Bytes,
}

/// Tells the sender that the peer hasn't received its packet in time (ICS 4, "timeoutPacket"). On an ordered
/// channel `next_recv` is the sequence that the peer receives next; on an unordered one it is ignored.
#[derive(Drop)]
pub struct Timeout {
    pub packet: Packet,
    pub next_recv: u64,
    pub height: u64,
    pub proof: Bytes,
}

/// Tells the sender that the peer hasn't received its packet, and that the peer's end is closed (ICS 4,
/// "timeoutOnClose").
#[derive(Drop)]
pub struct TimeoutOnClose {
    pub packet: Packet,
    pub next_recv: u64,
    pub height: u64,
    pub proof: Bytes,
    pub proof_close: Bytes,
}

/// A message. Each of its refusals has a number and leaves the state as before.
#[derive(Drop)]
pub enum Message {
    CreateClient(CreateClient),
    UpdateClient(UpdateClient),
    ConnOpenInit(ConnOpenInit),
    ConnOpenTry(ConnOpenTry),
    ConnOpenAck(ConnOpenAck),
    ConnOpenConfirm(ConnOpenConfirm),
    ChanOpenInit(ChanOpenInit),
    ChanOpenTry(ChanOpenTry),
    ChanOpenAck(ChanOpenAck),
    ChanOpenConfirm(ChanOpenConfirm),
    ChanCloseInit(ChanCloseInit),
    ChanCloseConfirm(ChanCloseConfirm),
    Transfer(Transfer),
    SendNote(SendNote),
    RecvPacket(RecvPacket),
    AckPacket(AckPacket),
    Timeout(Timeout),
    TimeoutOnClose(TimeoutOnClose),
    TransferMany(TransferMany),
}

/// The name of its kind: what a message carries is read from its fields.
impl fmt::Debug for Message {
    fn fmt<W: fmt::Write>(&self, f: &mut fmt::Formatter<W>) -> fmt::Result {
        f.write_str(self.kind().name())
    }
}

/// The kinds of messages, by their tags.
#[derive(Clone, Copy, Debug, PartialEq, Eq)]
pub enum MessageKind {
    CreateClient = 1,
    UpdateClient = 2,
    ConnOpenInit = 3,
    ConnOpenTry = 4,
    ConnOpenAck = 5,
    ConnOpenConfirm = 6,
    ChanOpenInit = 7,
    ChanOpenTry = 8,
    ChanOpenAck = 9,
    ChanOpenConfirm = 10,
    ChanCloseInit = 11,
    ChanCloseConfirm = 12,
    Transfer = 13,
    SendNote = 14,
    RecvPacket = 15,
    AckPacket = 16,
    Timeout = 17,
    TimeoutOnClose = 18,
    TransferMany = 19,
}

impl MessageKind {
    /// The tag with which a message of the kind is spelled, 1 to 19.
    pub fn tag(self) -> u8
        ensures { result ≡ tag_of self }
    {
        self as u8
    }

    /// The kind of a tag, or none where the tag isn't one of 1 to 19.
    pub fn of_tag(tag: u8) -> Option<MessageKind>
        ensures { result ≡ kind_of_tag tag }
    {
        match tag {
            1 => Some(MessageKind::CreateClient),
            2 => Some(MessageKind::UpdateClient),
            3 => Some(MessageKind::ConnOpenInit),
            4 => Some(MessageKind::ConnOpenTry),
            5 => Some(MessageKind::ConnOpenAck),
            6 => Some(MessageKind::ConnOpenConfirm),
            7 => Some(MessageKind::ChanOpenInit),
            8 => Some(MessageKind::ChanOpenTry),
            9 => Some(MessageKind::ChanOpenAck),
            10 => Some(MessageKind::ChanOpenConfirm),
            11 => Some(MessageKind::ChanCloseInit),
            12 => Some(MessageKind::ChanCloseConfirm),
            13 => Some(MessageKind::Transfer),
            14 => Some(MessageKind::SendNote),
            15 => Some(MessageKind::RecvPacket),
            16 => Some(MessageKind::AckPacket),
            17 => Some(MessageKind::Timeout),
            18 => Some(MessageKind::TimeoutOnClose),
            19 => Some(MessageKind::TransferMany),
            _ => None,
        }
    }

    /// The name by which a printed line calls the kind, as `UpdateClient`.
    pub fn name(self) -> &'static str
        ensures { result.now ≡ name_of self }
    {
        match self {
            MessageKind::CreateClient => "CreateClient",
            MessageKind::UpdateClient => "UpdateClient",
            MessageKind::ConnOpenInit => "ConnOpenInit",
            MessageKind::ConnOpenTry => "ConnOpenTry",
            MessageKind::ConnOpenAck => "ConnOpenAck",
            MessageKind::ConnOpenConfirm => "ConnOpenConfirm",
            MessageKind::ChanOpenInit => "ChanOpenInit",
            MessageKind::ChanOpenTry => "ChanOpenTry",
            MessageKind::ChanOpenAck => "ChanOpenAck",
            MessageKind::ChanOpenConfirm => "ChanOpenConfirm",
            MessageKind::ChanCloseInit => "ChanCloseInit",
            MessageKind::ChanCloseConfirm => "ChanCloseConfirm",
            MessageKind::Transfer => "Transfer",
            MessageKind::SendNote => "SendNote",
            MessageKind::RecvPacket => "RecvPacket",
            MessageKind::AckPacket => "AckPacket",
            MessageKind::Timeout => "Timeout",
            MessageKind::TimeoutOnClose => "TimeoutOnClose",
            MessageKind::TransferMany => "TransferMany",
        }
    }
}

impl Message {
    /// The kind of the message.
    pub fn kind(&self) -> MessageKind
        ensures { result ≡ kind_of self.now }
    {
        match self {
            Message::CreateClient(_) => MessageKind::CreateClient,
            Message::UpdateClient(_) => MessageKind::UpdateClient,
            Message::ConnOpenInit(_) => MessageKind::ConnOpenInit,
            Message::ConnOpenTry(_) => MessageKind::ConnOpenTry,
            Message::ConnOpenAck(_) => MessageKind::ConnOpenAck,
            Message::ConnOpenConfirm(_) => MessageKind::ConnOpenConfirm,
            Message::ChanOpenInit(_) => MessageKind::ChanOpenInit,
            Message::ChanOpenTry(_) => MessageKind::ChanOpenTry,
            Message::ChanOpenAck(_) => MessageKind::ChanOpenAck,
            Message::ChanOpenConfirm(_) => MessageKind::ChanOpenConfirm,
            Message::ChanCloseInit(_) => MessageKind::ChanCloseInit,
            Message::ChanCloseConfirm(_) => MessageKind::ChanCloseConfirm,
            Message::Transfer(_) => MessageKind::Transfer,
            Message::SendNote(_) => MessageKind::SendNote,
            Message::RecvPacket(_) => MessageKind::RecvPacket,
            Message::AckPacket(_) => MessageKind::AckPacket,
            Message::Timeout(_) => MessageKind::Timeout,
            Message::TimeoutOnClose(_) => MessageKind::TimeoutOnClose,
            Message::TransferMany(_) => MessageKind::TransferMany,
        }
    }

    /// The message is what its type promises: names have their form, numbers their range, and texts are of bytes.
    pub fn lemma_typed(&self)
        ensures { IsTrue (are_typed (message_fields self.now)) }
    {
        match self {
            Message::CreateClient(message) => message.lemma_typed(),
            Message::UpdateClient(message) => message.lemma_typed(),
            Message::ConnOpenInit(message) => message.lemma_typed(),
            Message::ConnOpenTry(message) => message.lemma_typed(),
            Message::ConnOpenAck(message) => message.lemma_typed(),
            Message::ConnOpenConfirm(message) => message.lemma_typed(),
            Message::ChanOpenInit(message) => message.lemma_typed(),
            Message::ChanOpenTry(message) => message.lemma_typed(),
            Message::ChanOpenAck(message) => message.lemma_typed(),
            Message::ChanOpenConfirm(message) => message.lemma_typed(),
            Message::ChanCloseInit(message) => message.lemma_typed(),
            Message::ChanCloseConfirm(message) => message.lemma_typed(),
            Message::Transfer(message) => message.lemma_typed(),
            Message::SendNote(message) => message.lemma_typed(),
            Message::RecvPacket(message) => message.lemma_typed(),
            Message::AckPacket(message) => message.lemma_typed(),
            Message::Timeout(message) => message.lemma_typed(),
            Message::TimeoutOnClose(message) => message.lemma_typed(),
            Message::TransferMany(message) => message.lemma_typed(),
        }
    }
}
