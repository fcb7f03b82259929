//! Two chains that have lived: each has sent many packets over many channels. They go on with few changes a block: blocks with no
//! change, blocks with a packet that is received, and acknowledgements that come in any order.

use crate::lanes::{LaneEnd, Traffic, open_lane, send};
use crate::network::Network;
use crate::random::Random;
use crate::run_error::RunError;
use ibc_ids::ClientId;
use ibc_script::{Application, ClientDraft, Draft, PacketDraft, ProofSource, SentPacket};

// How many channels there are.
const LANES: u32 = 24;

// How many packets were sent for each day that follows.
const SENT_A_DAY: u64 = 20;

// In so many blocks they were sent.
const BLOCKS: u64 = 6;

// After so many days the acknowledgements are told.
const DAYS_TO_ACKNOWLEDGE: u64 = 16;

const TRAFFIC: Traffic = Traffic {
    users: 100,
    late: 0,
};

/// A packet, by the place of the end that sent it and its sequence there.
#[derive(Clone, Copy)]
struct Parcel {
    place: usize,
    sequence: u64,
}

/// The channels, what was sent, and what was received and has yet to be acknowledged.
#[derive(Drop)]
struct Lived {
    ends: Vec<LaneEnd>,
    sent: Vec<Parcel>,
    received: Vec<Parcel>,
}

/// Opens the channels, sends, and lives on for so many days.
pub fn drive(network: &mut Network, size: u64, random: &mut Random) -> Result<(), RunError> {
    let alloc = network.alloc;
    let mut lived = Lived {
        ends: Vec::new(alloc),
        sent: Vec::new(alloc),
        received: Vec::new(alloc),
    };
    let driven = lived.drive(network, size, random);
    drop(lived);
    driven
}

impl Lived {
    fn drive(
        &mut self,
        network: &mut Network,
        size: u64,
        random: &mut Random,
    ) -> Result<(), RunError> {
        for _lane in 0..LANES {
            open_lane(network, &mut self.ends, 0, 1, Application::Transfer)?;
        }
        self.grow(network, random, size.saturating_mul(SENT_A_DAY))?;
        random.shuffle(self.sent.as_mut_slice());
        for day in 0..size {
            self.live(network, random, day)?;
        }
        Ok(())
    }

    // Sends so many packets, over one end after another, in a few blocks.
    fn grow(
        &mut self,
        network: &mut Network,
        random: &mut Random,
        count: u64,
    ) -> Result<(), RunError> {
        let in_block = count.checked_div(BLOCKS).unwrap_or(0);
        for number in 0..count {
            self.send_one(network, random, number)?;
            if number.checked_rem(in_block) == Some(0) {
                end_blocks(network);
            }
        }
        end_blocks(network);
        Ok(())
    }

    // Sends a packet over the end whose turn it is.
    fn send_one(
        &mut self,
        network: &mut Network,
        random: &mut Random,
        number: u64,
    ) -> Result<(), RunError> {
        let ends = self.ends.len() as u64;
        let place = usize::try_from(number.checked_rem(ends).unwrap_or(0)).unwrap_or(0);
        let before = number.checked_div(ends).unwrap_or(0);
        if let Some(end) = self.ends.get(place) {
            send(network, random, end, TRAFFIC)?;
        }
        let parcel = Parcel {
            place,
            sequence: before.saturating_add(1),
        };
        Ok(self.sent.push(parcel)?)
    }

    // A day: an empty block of each chain, a packet that is received, and now and then acknowledgements.
    fn live(
        &mut self,
        network: &mut Network,
        random: &mut Random,
        day: u64,
    ) -> Result<(), RunError> {
        end_blocks(network);
        self.receive_next(network)?;
        if day.checked_rem(DAYS_TO_ACKNOWLEDGE) == Some(DAYS_TO_ACKNOWLEDGE - 1) {
            self.acknowledge(network, random)?;
        }
        Ok(())
    }

    // The next packet that was sent is received, and waits for its acknowledgement.
    fn receive_next(&mut self, network: &mut Network) -> Result<(), RunError> {
        let Some(parcel) = self.sent.pop() else {
            return Ok(());
        };
        receive(network, self.ends.as_slice(), parcel)?;
        Ok(self.received.push(parcel)?)
    }

    // Tells the senders of all acknowledgements that wait, in random order.
    fn acknowledge(&mut self, network: &mut Network, random: &mut Random) -> Result<(), RunError> {
        end_blocks(network);
        update_all(network, self.ends.as_slice())?;
        random.shuffle(self.received.as_mut_slice());
        for parcel in &self.received {
            acknowledge(network, self.ends.as_slice(), *parcel)?;
        }
        self.received.clear();
        Ok(())
    }
}

// Ends the blocks of both chains.
fn end_blocks(network: &mut Network) {
    network.end_block(0);
    network.end_block(1);
}

// The end at the other side of the channel whose end stands at a place: both stand side by side.
fn peer_of(ends: &[LaneEnd], place: usize) -> Result<&LaneEnd, RunError> {
    ends.get(place ^ 1)
        .ok_or(RunError::Unexpected("an end has no peer"))
}

// The end at a place.
fn end_of(ends: &[LaneEnd], place: usize) -> Result<&LaneEnd, RunError> {
    ends.get(place)
        .ok_or(RunError::Unexpected("there is no such end"))
}

// The packet that an end sent.
fn packet_of(network: &Network, end: &LaneEnd, sequence: u64) -> Result<SentPacket, RunError> {
    let (port, channel) = end.port_and_channel(network.alloc)?;
    Ok(SentPacket {
        chain: end.chain,
        port,
        channel,
        sequence,
    })
}

// Tells a client of a chain of the last height of the chain that it tracks.
fn update(network: &mut Network, on: u8, client: &ClientId, of: u8) -> Result<(), RunError> {
    let draft = ClientDraft::Update {
        client: client.clone()?,
        height: network.height(of),
    };
    network.submit(on, Draft::Client(draft))
}

// Tells the clients of all ends.
fn update_all(network: &mut Network, ends: &[LaneEnd]) -> Result<(), RunError> {
    for end in ends {
        update(network, end.chain, &end.client, end.peer)?;
    }
    Ok(())
}

// A packet is received at the last height of its sender.
fn receive(network: &mut Network, ends: &[LaneEnd], parcel: Parcel) -> Result<(), RunError> {
    let end = end_of(ends, parcel.place)?;
    let peer = peer_of(ends, parcel.place)?;
    update(network, peer.chain, &peer.client, end.chain)?;
    let draft = PacketDraft::Recv {
        packet: packet_of(network, end, parcel.sequence)?,
        height: network.height(end.chain),
    };
    network.submit(end.peer, Draft::Packet(draft))
}

// The sender of a packet is told of its acknowledgement at the last height of its receiver.
fn acknowledge(network: &mut Network, ends: &[LaneEnd], parcel: Parcel) -> Result<(), RunError> {
    let end = end_of(ends, parcel.place)?;
    let draft = PacketDraft::Ack {
        packet: packet_of(network, end, parcel.sequence)?,
        from: ProofSource {
            chain: end.peer,
            height: network.height(end.peer),
        },
    };
    network.submit(end.chain, Draft::Packet(draft))
}
