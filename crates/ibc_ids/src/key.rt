//! The keys of the records that a chain proves to others.
ghost use Rattle.std.specs.Prelude.{◌≡◌, ◌&&◌, ◌<◌, ◌^◌, string_bytes, IfOk, IsTrue, IsOkUnless};
ghost use Rattle.ibc_ids.specs.Names.{is_client, is_connection, is_port, is_channel};
ghost use Rattle.ibc_ids.specs.Paths.{path, DifferentPaths, IsChannelPath, IsSequencePath};
ghost use Rattle.ibc_ids.specs.declared.key.Key.TheVariants as key;
ghost use Rattle.ibc_ids.specs.declared.refusal.Refusal.TheVariants.{NoMemory};

use crate::written::{MOST_DIGITS, written};
use crate::{ChannelId, ClientId, ConnectionId, PortId, Refusal};
use std::alloc::Global;

/// A key, one variant a path (ICS 24, "Path-space"). Sequences count from 1.
#[derive(Drop, PartialEq, Eq)]
pub enum Key {
    /// The state of a client.
    ClientState(ClientId),
    /// An end of a connection.
    Connection(ConnectionId),
    /// An end of a channel.
    ChannelEnd(PortId, ChannelId),
    /// The sequence that an end of a channel sends next.
    NextSequenceSend(PortId, ChannelId),
    /// The sequence that an ordered end receives next.
    NextSequenceRecv(PortId, ChannelId),
    /// The sequence whose acknowledgement an ordered end takes next.
    NextSequenceAck(PortId, ChannelId),
    /// The commitment of a packet that was sent.
    Commitment(PortId, ChannelId, u64),
    /// The receipt of a packet on an unordered channel.
    Receipt(PortId, ChannelId, u64),
    /// The acknowledgement of a packet that was received.
    Acknowledgement(PortId, ChannelId, u64),
    /// The number of the next client.
    NextClientSequence,
    /// The number of the next connection.
    NextConnectionSequence,
    /// The number of the next channel.
    NextChannelSequence,
}

impl Key {
    /// The key's path (ICS 24, "Path-space"). Refused: `NoMemory`.
    pub fn path(&self, alloc: Global) -> Result<String, Refusal>
        ensures ok { IfOk result (λ text. string_bytes text ≡ path self.now) }
        ensures memory { IsOkUnless result NoMemory }
    {
        match self {
            Key::ClientState(id) => client_path(alloc, id),
            Key::Connection(id) => connection_path(alloc, id),
            Key::ChannelEnd(port, channel) => channel_path(alloc, "channelEnds", port, channel),
            Key::NextSequenceSend(port, channel) => {
                channel_path(alloc, "nextSequenceSend", port, channel)
            }
            Key::NextSequenceRecv(port, channel) => {
                channel_path(alloc, "nextSequenceRecv", port, channel)
            }
            Key::NextSequenceAck(port, channel) => {
                channel_path(alloc, "nextSequenceAck", port, channel)
            }
            Key::Commitment(port, channel, n) => {
                sequence_path(alloc, "commitments", port, channel, *n)
            }
            Key::Receipt(port, channel, n) => sequence_path(alloc, "receipts", port, channel, *n),
            Key::Acknowledgement(port, channel, n) => {
                sequence_path(alloc, "acks", port, channel, *n)
            }
            Key::NextClientSequence => Ok(String::from_str(alloc, "nextClientSequence")?),
            Key::NextConnectionSequence => Ok(String::from_str(alloc, "nextConnectionSequence")?),
            Key::NextChannelSequence => Ok(String::from_str(alloc, "nextChannelSequence")?),
        }
    }
}

/// The path of a client's state (ICS 24, "Path-space"), `clients/{id}/clientState`. Refused: `NoMemory`.
pub fn client_path(alloc: Global, id: &ClientId) -> Result<String, Refusal>
    ensures ok { IfOk result (λ text. string_bytes text ≡ path (key.ClientState id.now)) }
    ensures named { IsTrue (is_client id.now) }
    ensures memory { IsOkUnless result NoMemory }
{
    let id = id.as_str();
    let room = id.len() + "clients//clientState".len();
    Ok(written(alloc, room, format_args!("clients/{id}/clientState"))?)
}

/// The path of an end of a connection (ICS 24, "Path-space"), `connections/{id}`. Refused: `NoMemory`.
pub fn connection_path(alloc: Global, id: &ConnectionId) -> Result<String, Refusal>
    ensures ok { IfOk result (λ text. string_bytes text ≡ path (key.Connection id.now)) }
    ensures named { IsTrue (is_connection id.now) }
    ensures memory { IsOkUnless result NoMemory }
{
    let id = id.as_str();
    let room = id.len() + "connections/".len();
    Ok(written(alloc, room, format_args!("connections/{id}"))?)
}

/// The path of a channel's one record of a kind (ICS 24, "Path-space"), `{kind}/ports/{port}/channels/{channel}`. The
/// kinds are `channelEnds`, `nextSequenceSend`, `nextSequenceRecv` and `nextSequenceAck`. Refused: `NoMemory`.
pub fn channel_path(
    alloc: Global,
    kind: &str,
    port: &PortId,
    channel: &ChannelId,
) -> Result<String, Refusal>
    ensures ok { IfOk result (λ text. IsChannelPath kind.now port.now channel.now text) }
    ensures named { IsTrue (is_port port.now && is_channel channel.now) }
    ensures memory { IsOkUnless result NoMemory }
{
    let port = port.as_str();
    let channel = channel.as_str();
    let room = kind.len() + port.len() + channel.len() + "/ports//channels/".len();
    Ok(written(
        alloc,
        room,
        format_args!("{kind}/ports/{port}/channels/{channel}"),
    )?)
}

/// The path of a packet's record of a kind (ICS 24, "Path-space"), by its end of the channel and its sequence,
/// `{kind}/ports/{port}/channels/{channel}/sequences/{sequence}`. The kinds are `commitments`, `receipts` and `acks`.
/// Refused: `NoMemory`.
pub fn sequence_path(
    alloc: Global,
    kind: &str,
    port: &PortId,
    channel: &ChannelId,
    sequence: u64,
) -> Result<String, Refusal>
    ensures ok { IfOk result (λ text. IsSequencePath kind.now port.now channel.now sequence text) }
    ensures named { IsTrue (is_port port.now && is_channel channel.now) }
    ensures fits { sequence < 2 ^ 64 }
    ensures memory { IsOkUnless result NoMemory }
{
    let port = port.as_str();
    let channel = channel.as_str();
    let room = kind.len() + port.len() + channel.len() + "/ports//channels//sequences/".len();
    Ok(written(
        alloc,
        room + MOST_DIGITS,
        format_args!("{kind}/ports/{port}/channels/{channel}/sequences/{sequence}"),
    )?)
}

/// Different keys have different paths (ICS 24, "Path-space").
#[tactic(auto, using(crate::proofs::Paths::different_paths))]
pub fn lemma_different_keys_have_different_paths()
    ensures { DifferentPaths }
{}
