//! Packets.
use ibc_ids::{Bytes, ChannelId, PortId};

/// A packet (ICS 4, "Packet"). Sequences count from 1; a timeout of 0 is none.
#[derive(Clone, Drop, Debug, PartialEq, Eq)]
pub struct Packet {
    pub sequence: u64,
    pub timeout_height: u64,
    pub timeout_time: u64,
    pub source_port: PortId,
    pub source_channel: ChannelId,
    pub destination_port: PortId,
    pub destination_channel: ChannelId,
    pub payload: Bytes,
}
