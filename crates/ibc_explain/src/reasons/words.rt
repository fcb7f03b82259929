//! Words of reasons.

use ibc_ids::{Account, UserName};
use ibc_wire::{ChannelState, ConnectionState, Message, Order, Packet};
use std::alloc::AllocError;

/// Whether an account is a user's.
pub fn is_users(account: &Account, user: &UserName) -> bool {
    match account {
        Account::User(name) => *name == *user,
        _ => false,
    }
}

/// The timeouts of a message that sends a packet.
pub fn sent_timeouts(message: &Message) -> Option<(u64, u64)> {
    match message {
        Message::Transfer(message) => Some((message.timeout_height, message.timeout_time)),
        Message::TransferMany(message) => Some((message.timeout_height, message.timeout_time)),
        Message::SendNote(message) => Some((message.timeout_height, message.timeout_time)),
        _ => None,
    }
}

/// Those timeouts that aren't 0.
pub fn write_timeouts(out: &mut String, height: u64, time: u64) -> Result<(), AllocError> {
    match (height, time) {
        (height, 0) => write!(out, "timeout height {height}"),
        (0, time) => write!(out, "timeout time {time}"),
        (height, time) => write!(out, "timeout height {height}, time {time}"),
    }
}

/// What a client knows.
pub fn write_latest(out: &mut String, client: &str, latest: Option<u64>) -> Result<(), AllocError> {
    match latest {
        Some(latest) => write!(out, "; client {client} knows {latest} as the latest"),
        None => Ok(()),
    }
}

/// The end that a packet goes to.
pub fn write_destination(out: &mut String, packet: &Packet) -> Result<(), AllocError> {
    let port = packet.destination_port.as_str();
    let channel = packet.destination_channel.as_str();
    write!(out, "the packet names {port}/{channel} as the peer")
}

/// What an end of a channel is asked to be.
pub fn write_asked(
    out: &mut String,
    port: &str,
    order: Order,
    version: &str,
) -> Result<(), AllocError> {
    let order = match order {
        Order::Unordered => "UNORDERED",
        Order::Ordered => "ORDERED",
    };
    write!(out, "port {port}, {order}, version {version}")
}

/// The state of an end of a channel (ICS 4, "ChannelState").
pub fn channel_state_name(state: ChannelState) -> &'static str {
    match state {
        ChannelState::Init => "INIT",
        ChannelState::TryOpen => "TRYOPEN",
        ChannelState::Open => "OPEN",
        ChannelState::Closed => "CLOSED",
    }
}

/// The state of an end of a connection (ICS 3, "ConnectionState").
pub fn connection_state_name(state: ConnectionState) -> &'static str {
    match state {
        ConnectionState::Init => "INIT",
        ConnectionState::TryOpen => "TRYOPEN",
        ConnectionState::Open => "OPEN",
    }
}
