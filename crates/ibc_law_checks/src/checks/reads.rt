//! What the ledgers of a world say of the ends that are noted.

ghost use Rattle.std.specs.Prelude.{◌≡◌, IfOk};
ghost use Rattle.ibc_law_checks.specs.Peers.{ack_at, is_same_ack, is_written, named_place, packet_at, peer_of, peer_on, sender_of};

use crate::ends::place_of_end;
use crate::{EndNotes, LawChecks};
use ibc_ids::{Bytes, ChannelId, PortId, Refusal};
use ibc_ledger::Ledger;
use ibc_wire::{ChannelEnd, Packet};
use ibc_world_core::World;

// The place of the end that an end of a ledger names as its peer.
fn named_place(ends: &[EndNotes], ledger: &Ledger, end: &ChannelEnd) -> Option<usize>
    ensures { result ≡ named_place ends.now ledger.now.ledger end.now }
{
    let Some(tracked) = ledger.tracked_over(&end.connection) else {
        return None;
    };
    let Some(peer) = &end.peer_channel else {
        return None;
    };
    place_of_end(ends, tracked, end.peer_port.as_str(), peer)
}

// The place of the peer of an end of a ledger. Refused: `NoMemory`.
fn peer_on(
    ends: &[EndNotes],
    ledger: &Ledger,
    port: &PortId,
    channel: &ChannelId,
) -> Result<Option<usize>, Refusal>
    ensures { IfOk result (λ place. place ≡ peer_on ends.now port.now channel.now ledger.now.ledger) }
{
    match ledger.channel(port, channel)? {
        Some(mine) => Ok(named_place(ends, ledger, mine.end())),
        None => Ok(None),
    }
}

// Whether an acknowledgement is the one that was written.
fn is_same_ack(ack: &[u8], written: Option<Bytes>) -> bool
    ensures { result ≡ is_same_ack ack.now written }
{
    match written {
        Some(other) => {
            let is_same = other.as_slice() == ack;
            drop(other);
            is_same
        }
        None => false,
    }
}

impl LawChecks {
    /// The place of an end's peer, as the end names it; none where it names none that is noted. Refused: `NoMemory`.
    pub fn peer_of(&self, world: &World, own: usize) -> Result<Option<usize>, Refusal>
        ensures { IfOk result (λ place. place ≡ peer_of world.now self.now.ends.items own) }
    {
        let Some(end) = self.ends.get(own) else {
            return Ok(None);
        };
        match world.ledger(end.chain) {
            Some(ledger) => peer_on(self.ends.as_slice(), ledger, &end.port, &end.channel),
            None => Ok(None),
        }
    }

    /// The place of the end from which a packet came that a chain has received, or none. Refused: `NoMemory`.
    pub(super) fn sender_of(
        &self,
        world: &World,
        chain: u8,
        packet: &Packet,
    ) -> Result<Option<usize>, Refusal>
        ensures { IfOk result (λ place. place ≡ sender_of world.now self.now.ends.items chain packet.now) }
    {
        let port = packet.destination_port.as_str();
        let channel = &packet.destination_channel;
        match place_of_end(self.ends.as_slice(), chain, port, channel) {
            Some(own) => self.peer_of(world, own),
            None => Ok(None),
        }
    }

    /// The packet that the end at a place sent under a sequence, or none. Refused: `NoMemory`.
    pub(super) fn packet_at(
        &self,
        world: &World,
        place: usize,
        sequence: u64,
    ) -> Result<Option<Packet>, Refusal>
        ensures { IfOk result (λ packet. packet ≡ packet_at world.now self.now.ends.items place sequence) }
    {
        let Some(end) = self.ends.get(place) else {
            return Ok(None);
        };
        match world.ledger(end.chain) {
            Some(ledger) => ledger.packet(&end.port, &end.channel, sequence),
            None => Ok(None),
        }
    }

    // The acknowledgement that the end at a place wrote for a sequence, or none. Refused: `NoMemory`.
    fn ack_at(&self, world: &World, place: usize, sequence: u64) -> Result<Option<Bytes>, Refusal>
        ensures { IfOk result (λ ack. ack ≡ ack_at world.now self.now.ends.items place sequence) }
    {
        let Some(end) = self.ends.get(place) else {
            return Ok(None);
        };
        match world.ledger(end.chain) {
            Some(ledger) => ledger.ack(&end.port, &end.channel, sequence),
            None => Ok(None),
        }
    }

    /// Whether the peer of an end wrote this acknowledgement for a sequence. Refused: `NoMemory`.
    pub(super) fn is_written(
        &self,
        world: &World,
        own: usize,
        sequence: u64,
        ack: &[u8],
    ) -> Result<bool, Refusal>
        ensures { IfOk result (λ w. w ≡ is_written world.now self.now.ends.items own sequence ack.now) }
    {
        match self.peer_of(world, own)? {
            Some(peer) => Ok(is_same_ack(ack, self.ack_at(world, peer, sequence)?)),
            None => Ok(false),
        }
    }
}
