//! What refusals have compared.

mod words;

use crate::ends::{channel_of, client_of, client_over, connection_of, number_at};
use crate::facts::{channel_in, client_in, connection_in, height_in};
use ibc_ids::{ChannelId, ConnectionId, Denom, Key, PortId, Refusal, UserName};
use ibc_ledger::Ledger;
use ibc_machine::{Entry, Event, Reply};
use ibc_wire::{ChannelEnd, ChannelState, Message, UpdateClient};
use std::alloc::Global;
use words::{
    channel_state_name, connection_state_name, is_users, sent_timeouts, write_asked,
    write_destination, write_latest, write_timeouts,
};

/// Writes what the refusal of an entry has compared, nothing where its name says all. The ledger is as before the entry.
/// Refused: `NoMemory`.
pub fn write_sides(
    alloc: Global,
    out: &mut String,
    ledger: &Ledger,
    entry: &Entry,
) -> Result<(), Refusal> {
    let Reply::No(refusal) = &entry.reply else {
        return Ok(());
    };
    match &entry.event {
        Event::Message { message, .. } => {
            let reasons = Reasons {
                alloc,
                ledger,
                entry,
                message,
            };
            reasons.write(out, *refusal)
        }
        Event::Block { next_time, .. } => write_block(out, ledger, *next_time, *refusal),
    }
}

// What was compared of the time of a block, or how many heights are published.
fn write_block(
    out: &mut String,
    ledger: &Ledger,
    next_time: u64,
    refusal: Refusal,
) -> Result<(), Refusal> {
    let view = ledger.view()?;
    let (height, time) = (view.height(), view.working_time());
    drop(view);
    match refusal {
        Refusal::TimeBack => write!(out, "time {next_time}, working time {time}")?,
        Refusal::TableFull => write!(out, "{height} heights are published")?,
        _ => {}
    }
    Ok(())
}

/// Why a message was refused by a ledger.
#[derive(Clone, Copy)]
struct Reasons<'e> {
    alloc: Global,
    ledger: &'e Ledger,
    entry: &'e Entry,
    message: &'e Message,
}

impl Reasons<'_> {
    fn write(&self, out: &mut String, refusal: Refusal) -> Result<(), Refusal> {
        match refusal {
            Refusal::UnknownClient
            | Refusal::UnknownConnection
            | Refusal::UnknownChannel
            | Refusal::UnknownPort => self.write_unknown(out, refusal),
            Refusal::NotPublished | Refusal::Pruned | Refusal::WrongHeader => {
                self.write_published(out)
            }
            Refusal::WrongState => self.write_state(out),
            Refusal::WrongPeer => self.write_peer(out),
            Refusal::NoConsensus => self.write_known(out),
            Refusal::WrongOrder | Refusal::WrongVersion => self.write_form(out),
            Refusal::TimeoutPassed | Refusal::NotTimedOut => self.write_timeout(out),
            Refusal::OutOfOrder => self.write_order(out),
            Refusal::Poor => self.write_balance(out),
            _ => Ok(()),
        }
    }

    // What the ledger doesn't have.
    fn write_unknown(&self, out: &mut String, refusal: Refusal) -> Result<(), Refusal> {
        match (refusal, self.message) {
            (Refusal::UnknownPort, Message::ChanOpenInit(message)) => {
                let port = message.port.as_str();
                write!(out, "no application on port {port}")?;
            }
            (Refusal::UnknownPort, Message::ChanOpenTry(message)) => {
                let port = message.port.as_str();
                write!(out, "no application on port {port}")?;
            }
            (Refusal::UnknownClient, message) => {
                if let Some(client) = client_in(message) {
                    let client = client.as_str();
                    write!(out, "no client {client}")?;
                }
            }
            (Refusal::UnknownConnection, message) => {
                if let Some(connection) = connection_in(message) {
                    let connection = connection.as_str();
                    write!(out, "no connection {connection}")?;
                }
            }
            (_, message) => {
                if let Some((port, channel)) = channel_in(message) {
                    let channel = channel.as_str();
                    write!(out, "no channel {port}/{channel}")?;
                }
            }
        }
        Ok(())
    }

    // The height that an update tells, and how many are published, where the chain looked.
    fn write_published(&self, out: &mut String) -> Result<(), Refusal> {
        let Message::UpdateClient(UpdateClient { header, .. }) = self.message else {
            return Ok(());
        };
        let height = header.height;
        match self.entry.reading {
            Some(reading) => {
                let published = reading.published;
                write!(out, "height {height}, published up to {published}")?;
            }
            None => write!(out, "height {height}")?,
        }
        Ok(())
    }

    // The state of the end that the message is for.
    fn write_state(&self, out: &mut String) -> Result<(), Refusal> {
        if let Some((port, channel)) = channel_in(self.message) {
            if let Some(state) = self.channel_state(port, channel)? {
                let channel = channel.as_str();
                let state = channel_state_name(state);
                write!(out, "channel {port}/{channel} is {state}")?;
            }
        } else if let Some(connection) = connection_in(self.message) {
            if let Some(end) = connection_of(self.alloc, self.ledger, connection)? {
                let connection = connection.as_str();
                let state = connection_state_name(end.state);
                drop(end);
                write!(out, "connection {connection} is {state}")?;
            }
        }
        Ok(())
    }

    fn channel_state(
        &self,
        port: &str,
        channel: &ChannelId,
    ) -> Result<Option<ChannelState>, Refusal> {
        let port = PortId::parse(self.alloc, port)?;
        let end = channel_of(self.alloc, self.ledger, &port, channel);
        drop(port);
        Ok(end?.map(|end| end.state))
    }

    // The peer of the end that a packet is for, and the end that it names.
    fn write_peer(&self, out: &mut String) -> Result<(), Refusal> {
        match self.message {
            Message::RecvPacket(message) => {
                let port = message.packet.source_port.as_str();
                let channel = message.packet.source_channel.as_str();
                write!(out, "the packet names {port}/{channel} as the peer")?;
            }
            Message::AckPacket(message) => write_destination(out, &message.packet)?,
            Message::Timeout(message) => write_destination(out, &message.packet)?,
            Message::TimeoutOnClose(message) => write_destination(out, &message.packet)?,
            _ => {}
        }
        Ok(())
    }

    // The height that a proof is of, and the latest that the client knows.
    fn write_known(&self, out: &mut String) -> Result<(), Refusal> {
        let Some(height) = height_in(self.message) else {
            return Ok(());
        };
        write!(out, "height {height}")?;
        match self.message {
            Message::ConnOpenTry(message) => {
                let state = client_of(self.alloc, self.ledger, &message.client)?;
                write_latest(
                    out,
                    message.client.as_str(),
                    state.map(|state| state.latest),
                )?;
            }
            message => self.write_latest_over(out, message)?,
        }
        Ok(())
    }

    // The latest height that the client of the message's end knows.
    fn write_latest_over(&self, out: &mut String, message: &Message) -> Result<(), Refusal> {
        let Some(connection) = self.connection_for(message)? else {
            return Ok(());
        };
        if let Some(told) = client_over(self.alloc, self.ledger, connection)? {
            let latest = told.state.map(|state| state.latest);
            let written = write_latest(out, told.client.as_str(), latest);
            drop(told);
            written?;
        }
        Ok(())
    }

    // The connection of the message's end.
    fn connection_for(&self, message: &Message) -> Result<Option<ConnectionId>, Refusal> {
        if let Some(connection) = connection_in(message) {
            return Ok(Some(connection.clone()?));
        }
        let Some((port, channel)) = channel_in(message) else {
            return Ok(None);
        };
        let port = PortId::parse(self.alloc, port)?;
        let end = channel_of(self.alloc, self.ledger, &port, channel);
        drop(port);
        match end? {
            Some(end) => {
                let ChannelEnd { connection, .. } = end;
                Ok(Some(connection))
            }
            None => Ok(None),
        }
    }

    // The order or the version that an end is asked with.
    fn write_form(&self, out: &mut String) -> Result<(), Refusal> {
        match self.message {
            Message::ChanOpenInit(message) => {
                write_asked(
                    out,
                    message.port.as_str(),
                    message.order,
                    message.version.as_str(),
                )?;
            }
            Message::ChanOpenTry(message) => {
                write_asked(
                    out,
                    message.port.as_str(),
                    message.order,
                    message.version.as_str(),
                )?;
            }
            message => {
                if let Some((port, channel)) = channel_in(message) {
                    self.write_version(out, port, channel)?;
                }
            }
        }
        Ok(())
    }

    // The version of an end.
    fn write_version(
        &self,
        out: &mut String,
        port: &str,
        channel: &ChannelId,
    ) -> Result<(), Refusal> {
        let port = PortId::parse(self.alloc, port)?;
        let end = channel_of(self.alloc, self.ledger, &port, channel);
        drop(port);
        if let Some(end) = end? {
            let channel = channel.as_str();
            let version = end.version.as_str();
            let written = write!(out, "{channel} has version {version}");
            drop(end);
            written?;
        }
        Ok(())
    }

    // The timeouts of a packet, and the height or the time that they were compared with.
    fn write_timeout(&self, out: &mut String) -> Result<(), Refusal> {
        match self.message {
            Message::RecvPacket(message) => {
                let view = self.ledger.view()?;
                let (height, time) = (view.height().saturating_add(1), view.working_time());
                drop(view);
                write_timeouts(
                    out,
                    message.packet.timeout_height,
                    message.packet.timeout_time,
                )?;
                write!(out, "; working height {height}, time {time}")?;
            }
            Message::Timeout(message) => {
                let height = message.height;
                write_timeouts(
                    out,
                    message.packet.timeout_height,
                    message.packet.timeout_time,
                )?;
                write!(out, "; proved height {height}")?;
            }
            message => {
                if let Some((height, time)) = sent_timeouts(message) {
                    write_timeouts(out, height, time)?;
                    self.write_latest_over(out, message)?;
                }
            }
        }
        Ok(())
    }

    // The sequence that an ordered end takes next.
    fn write_order(&self, out: &mut String) -> Result<(), Refusal> {
        let (sequence, key) = match self.message {
            Message::RecvPacket(message) => {
                let packet = &message.packet;
                let port = packet.destination_port.clone()?;
                let channel = packet.destination_channel.clone()?;
                (packet.sequence, Key::NextSequenceRecv(port, channel))
            }
            Message::AckPacket(message) => {
                let packet = &message.packet;
                let port = packet.source_port.clone()?;
                let channel = packet.source_channel.clone()?;
                (packet.sequence, Key::NextSequenceAck(port, channel))
            }
            _ => return Ok(()),
        };
        write!(out, "sequence {sequence}")?;
        if let Some(next) = number_at(self.ledger, key)? {
            write!(out, ", and {next} is next")?;
        }
        Ok(())
    }

    // What a sender holds, and what was asked.
    fn write_balance(&self, out: &mut String) -> Result<(), Refusal> {
        match self.message {
            Message::Transfer(message) => {
                let asked = message.amount;
                self.write_held(out, &message.user, &message.denom)?;
                write!(out, ", {asked} asked")?;
            }
            Message::TransferMany(message) => {
                for (index, token) in message.tokens.as_slice().iter().enumerate() {
                    let asked = token.amount;
                    if index > 0 {
                        out.push_str("; ")?;
                    }
                    self.write_held(out, &message.user, &token.denom)?;
                    write!(out, ", {asked} asked")?;
                }
            }
            _ => {}
        }
        Ok(())
    }

    fn write_held(&self, out: &mut String, user: &UserName, denom: &Denom) -> Result<(), Refusal> {
        let mut held = 0u128;
        let list = self.ledger.balances()?;
        for (account, of, amount) in list.as_slice() {
            if is_users(account, user) && *of == *denom {
                held = *amount;
            }
        }
        drop(list);
        let user = user.as_str();
        let denom = denom.as_str();
        write!(out, "{user} has {held} {denom}")?;
        Ok(())
    }
}
