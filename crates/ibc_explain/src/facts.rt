//! What an entry is about.

ghost use Rattle.std.specs.Prelude.{◌≡◌, option_map};
ghost use Rattle.ibc_explain.specs.Clients.{created_client, ended_height, entry_client, entry_height, entry_tracked, known_chain, message_client, message_height, message_tracked};
ghost use Rattle.ibc_explain.specs.Explanations.{packet_name, packet_told};
ghost use Rattle.ibc_explain.specs.Packets.{entry_packet, message_packet, name_of_packet, sent_by};

use ibc_ids::{ChannelId, ClientId, ConnectionId, Refusal};
use ibc_machine::{Effect, Entry, Event, Reply};
use ibc_wire::{Message, Packet};

/// The name of a packet on the chain that sent it: the port and the channel that it was sent from, and its sequence there.
#[derive(Clone, Copy, Debug, PartialEq, Eq)]
pub struct PacketName<'e> {
    pub port: &'e str,
    pub channel: &'e str,
    pub sequence: u64,
}

/// What an entry is about: a packet; a client and the chain that it tracks; a height; of a handshake also the connection and the
/// end of a channel that it is for.
#[derive(Clone, Copy, Debug)]
pub struct Facts<'e> {
    pub packet: Option<PacketName<'e>>,
    pub client: Option<&'e ClientId>,
    pub tracked: Option<u8>,
    pub height: Option<u64>,
    pub connection: Option<&'e ConnectionId>,
    pub end: Option<(&'e str, &'e ChannelId)>,
}

/// What an entry is about.
pub fn facts_of(entry: &Entry) -> Facts<'_>
    ensures packet { packet_told result ≡ entry_packet entry.now }
    ensures client { option_map (λ client. client.now) result.client ≡ entry_client entry.now }
    ensures tracked { result.tracked ≡ entry_tracked entry.now }
    ensures height { result.height ≡ entry_height entry.now }
{
    Facts {
        packet: packet_of(entry),
        client: client_of(entry),
        tracked: tracked_by(entry),
        height: height_of(entry),
        connection: connection_of(entry),
        end: end_of(entry),
    }
}

/// The packet that an entry is about.
pub fn packet_of(entry: &Entry) -> Option<PacketName<'_>>
    ensures { option_map packet_name result ≡ entry_packet entry.now }
{
    match &entry.event {
        Event::Message { message, .. } => packet_of_message(message, &entry.reply),
        Event::Block { .. } => None,
    }
}

fn packet_of_message<'e>(message: &'e Message, reply: &Reply) -> Option<PacketName<'e>>
    ensures { option_map packet_name result ≡ message_packet message.now reply.now }
{
    match message {
        Message::Transfer(message) => sent_by("transfer", &message.channel, reply),
        Message::TransferMany(message) => sent_by("transfer", &message.channel, reply),
        Message::SendNote(message) => sent_by("note", &message.channel, reply),
        Message::RecvPacket(message) => Some(name_of(&message.packet)),
        Message::AckPacket(message) => Some(name_of(&message.packet)),
        Message::Timeout(message) => Some(name_of(&message.packet)),
        Message::TimeoutOnClose(message) => Some(name_of(&message.packet)),
        _ => None,
    }
}

fn sent_by<'e>(port: &'static str, channel: &'e ChannelId, reply: &Reply) -> Option<PacketName<'e>>
    ensures { option_map packet_name result ≡ sent_by port.now channel.now reply.now }
{
    match reply {
        Reply::Ok(Effect::Sent(sequence)) => Some(PacketName {
            port,
            channel: channel.as_str(),
            sequence: *sequence,
        }),
        _ => None,
    }
}

fn name_of(packet: &Packet) -> PacketName<'_>
    ensures { (result.port.now, result.channel.now, result.sequence) ≡ name_of_packet packet.now }
{
    PacketName {
        port: packet.source_port.as_str(),
        channel: packet.source_channel.as_str(),
        sequence: packet.sequence,
    }
}

/// The packet that a message brings, or whose end it tells.
pub fn brought_by(entry: &Entry) -> Option<&Packet> {
    let Event::Message { message, .. } = &entry.event else {
        return None;
    };
    match message {
        Message::RecvPacket(message) => Some(&message.packet),
        Message::AckPacket(message) => Some(&message.packet),
        Message::Timeout(message) => Some(&message.packet),
        Message::TimeoutOnClose(message) => Some(&message.packet),
        _ => None,
    }
}

// The client that an entry makes, updates or connects.
fn client_of(entry: &Entry) -> Option<&ClientId>
    ensures { option_map (λ client. client.now) result ≡ entry_client entry.now }
{
    match &entry.event {
        Event::Message { message, .. } => client_told(message, &entry.reply),
        Event::Block { .. } => None,
    }
}

fn client_told<'e>(message: &'e Message, reply: &'e Reply) -> Option<&'e ClientId>
    ensures { option_map (λ client. client.now) result ≡ message_client message.now reply.now }
{
    match message {
        Message::CreateClient(_) => created_by(reply),
        Message::UpdateClient(message) => Some(&message.client),
        Message::ConnOpenInit(message) => Some(&message.client),
        Message::ConnOpenTry(message) => Some(&message.client),
        _ => None,
    }
}

fn created_by(reply: &Reply) -> Option<&ClientId>
    ensures { option_map (λ client. client.now) result ≡ created_client reply.now }
{
    match reply {
        Reply::Ok(Effect::Client(client)) => Some(client),
        _ => None,
    }
}

/// The client that a message names as the chain's own.
pub fn client_in(message: &Message) -> Option<&ClientId> {
    match message {
        Message::UpdateClient(message) => Some(&message.client),
        Message::ConnOpenInit(message) => Some(&message.client),
        Message::ConnOpenTry(message) => Some(&message.client),
        _ => None,
    }
}

/// The connection that a message names as the chain's own.
pub fn connection_in(message: &Message) -> Option<&ConnectionId> {
    match message {
        Message::ConnOpenAck(message) => Some(&message.connection),
        Message::ConnOpenConfirm(message) => Some(&message.connection),
        Message::ChanOpenInit(message) => Some(&message.connection),
        Message::ChanOpenTry(message) => Some(&message.connection),
        _ => None,
    }
}

/// The end of a channel that a message names as the chain's own: the port and the channel.
pub fn channel_in(message: &Message) -> Option<(&str, &ChannelId)> {
    match message {
        Message::ChanOpenAck(message) => Some((message.port.as_str(), &message.channel)),
        Message::ChanOpenConfirm(message) => Some((message.port.as_str(), &message.channel)),
        Message::ChanCloseInit(message) => Some((message.port.as_str(), &message.channel)),
        Message::ChanCloseConfirm(message) => Some((message.port.as_str(), &message.channel)),
        Message::Transfer(message) => Some(("transfer", &message.channel)),
        Message::TransferMany(message) => Some(("transfer", &message.channel)),
        Message::SendNote(message) => Some(("note", &message.channel)),
        Message::RecvPacket(message) => Some(destination_of(&message.packet)),
        Message::AckPacket(message) => Some(source_of(&message.packet)),
        Message::Timeout(message) => Some(source_of(&message.packet)),
        Message::TimeoutOnClose(message) => Some(source_of(&message.packet)),
        _ => None,
    }
}

fn destination_of(packet: &Packet) -> (&str, &ChannelId) {
    (
        packet.destination_port.as_str(),
        &packet.destination_channel,
    )
}

fn source_of(packet: &Packet) -> (&str, &ChannelId) {
    (packet.source_port.as_str(), &packet.source_channel)
}

// The connection of a handshake.
fn connection_of(entry: &Entry) -> Option<&ConnectionId> {
    match &entry.event {
        Event::Message { message, .. } => connection_in(message),
        Event::Block { .. } => None,
    }
}

// The end of a channel of a handshake.
fn end_of(entry: &Entry) -> Option<(&str, &ChannelId)> {
    match &entry.event {
        Event::Message {
            message: message @ (Message::ChanOpenAck(_)
            | Message::ChanOpenConfirm(_)
            | Message::ChanCloseInit(_)
            | Message::ChanCloseConfirm(_)),
            ..
        } => channel_in(message),
        _ => None,
    }
}

// The chain that the client of an entry tracks, as the message says; none where there is no such client.
fn tracked_by(entry: &Entry) -> Option<u8>
    ensures { result ≡ entry_tracked entry.now }
{
    match &entry.event {
        Event::Message { message, .. } => tracked_in(message, &entry.reply),
        Event::Block { .. } => None,
    }
}

fn tracked_in(message: &Message, reply: &Reply) -> Option<u8>
    ensures { result ≡ message_tracked message.now reply.now }
{
    match message {
        Message::CreateClient(message) => Some(message.chain),
        Message::UpdateClient(message) => known_chain(message.header.chain, reply),
        _ => None,
    }
}

fn known_chain(chain: u8, reply: &Reply) -> Option<u8>
    ensures { result ≡ known_chain chain reply.now }
{
    match reply {
        Reply::No(Refusal::UnknownClient) => None,
        _ => Some(chain),
    }
}

// The height that a message tells, or from which it proves; or that a block has committed.
fn height_of(entry: &Entry) -> Option<u64>
    ensures { result ≡ entry_height entry.now }
{
    match &entry.event {
        Event::Message { message, .. } => height_in(message),
        Event::Block { .. } => ended_height(&entry.reply),
    }
}

fn ended_height(reply: &Reply) -> Option<u64>
    ensures { result ≡ ended_height reply.now }
{
    match reply {
        Reply::Ok(Effect::Block(height, _)) => Some(*height),
        _ => None,
    }
}

/// The height of the peer that a message is about.
pub fn height_in(message: &Message) -> Option<u64>
    ensures { result ≡ message_height message.now }
{
    match message {
        Message::UpdateClient(message) => Some(message.header.height),
        Message::ConnOpenTry(message) => Some(message.height),
        Message::ConnOpenAck(message) => Some(message.height),
        Message::ConnOpenConfirm(message) => Some(message.height),
        Message::ChanOpenTry(message) => Some(message.height),
        Message::ChanOpenAck(message) => Some(message.height),
        Message::ChanOpenConfirm(message) => Some(message.height),
        Message::ChanCloseConfirm(message) => Some(message.height),
        Message::RecvPacket(message) => Some(message.height),
        Message::AckPacket(message) => Some(message.height),
        Message::Timeout(message) => Some(message.height),
        Message::TimeoutOnClose(message) => Some(message.height),
        _ => None,
    }
}
