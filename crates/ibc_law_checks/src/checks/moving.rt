//! Which packet an entry moves, and over which lane.

ghost use Rattle.std.specs.Prelude.{◌≡◌, IfOk, Some, None};
ghost use Rattle.ibc_law_checks.specs.Arrivals.{arrives_in_time};
ghost use Rattle.ibc_law_checks.specs.Movements.{received_from, sent_at, timed_out_on};
ghost use Rattle.ibc_law_checks.specs.Looks.{GivesMovement, GivesSent, GivesSentOver, GivesReceived, GivesAcknowledged, GivesAcknowledgedAt, place_of_source};

use crate::ends::place_of_end;
use crate::{BrokenLaw, LawChecks, Movement, PacketLaw, Passing, is_in_time};
use ibc_ids::{ChannelId, Refusal};
use ibc_machine::Effect;
use ibc_wire::{Message, Packet};
use ibc_world_core::World;
use std::alloc::AllocError;

// A law of packets is broken, and nothing moved.
fn breaks(law: PacketLaw) -> Movement
    ensures { result ≡ Movement.Breaks (BrokenLaw.OfPackets law) None }
{
    Movement::Breaks {
        law: BrokenLaw::OfPackets(law),
        end: None,
    }
}

// A packet goes so over a lane. Error: no memory.
fn passes(lane: usize, passing: Passing, packet: &Packet) -> Result<Movement, AllocError>
    ensures { IfOk result (λ moved. moved ≡ Movement.Passes lane passing packet.now) }
{
    let packet = packet.clone()?;
    Ok(Movement::Passes {
        lane,
        passing,
        packet,
    })
}

// What a packet moves that came from this end.
fn received_from(packet: &Packet, sender: Option<usize>) -> Result<Movement, AllocError>
    ensures { IfOk result (λ moved. moved ≡ received_from packet.now sender) }
{
    match sender {
        Some(lane) => passes(lane, Passing::Received, packet),
        None => Ok(breaks(PacketLaw::ReceivedWasSent)),
    }
}

impl LawChecks {
    /// What an accepted message moves. Refused: `NoMemory`.
    pub(super) fn moved_by(
        &self,
        world: &World,
        chain: u8,
        message: &Message,
        effect: &Effect,
    ) -> Result<Movement, Refusal>
        ensures { GivesMovement world.now self.now chain message.now effect.now result }
    {
        match message {
            Message::Transfer(message) => {
                self.sent_with(world, chain, "transfer", &message.channel, effect)
            }
            Message::TransferMany(message) => {
                self.sent_with(world, chain, "transfer", &message.channel, effect)
            }
            Message::SendNote(message) => {
                self.sent_with(world, chain, "note", &message.channel, effect)
            }
            Message::RecvPacket(message) => self.received_on(world, chain, &message.packet),
            Message::AckPacket(message) => {
                self.acknowledged_on(world, chain, &message.packet, message.ack.as_slice())
            }
            Message::Timeout(message) => self.timed_out_on(chain, &message.packet),
            Message::TimeoutOnClose(message) => self.timed_out_on(chain, &message.packet),
            _ => Ok(Movement::Nothing),
        }
    }

    // What a message moves that sends over a channel.
    fn sent_with(
        &self,
        world: &World,
        chain: u8,
        port: &str,
        channel: &ChannelId,
        effect: &Effect,
    ) -> Result<Movement, Refusal>
        ensures { GivesSent world.now self.now chain port.now channel.now effect.now result }
    {
        match effect {
            Effect::Sent(sequence) => self.sent_over(world, chain, port, channel, *sequence),
            _ => Ok(Movement::Nothing),
        }
    }

    // What the packet of a sequence moves that was sent over a channel.
    fn sent_over(
        &self,
        world: &World,
        chain: u8,
        port: &str,
        channel: &ChannelId,
        sequence: u64,
    ) -> Result<Movement, Refusal>
        ensures { GivesSentOver world.now self.now chain port.now channel.now sequence result }
    {
        match place_of_end(self.ends.as_slice(), chain, port, channel) {
            Some(lane) => self.sent_at(world, lane, sequence),
            None => Ok(breaks(PacketLaw::SentInTurn)),
        }
    }

    // What the packet of a sequence moves that the end at a place sent.
    fn sent_at(&self, world: &World, lane: usize, sequence: u64) -> Result<Movement, Refusal>
        ensures { IfOk result (λ moved. moved ≡ sent_at world.now self.now.ends.items sequence lane) }
    {
        match self.packet_at(world, lane, sequence)? {
            Some(packet) => Ok(Movement::Passes {
                lane,
                passing: Passing::Sent,
                packet,
            }),
            None => Ok(Movement::Breaks {
                law: BrokenLaw::OfPackets(PacketLaw::SentInTurn),
                end: Some(lane),
            }),
        }
    }

    // What a packet moves that a chain has received.
    fn received_on(&self, world: &World, chain: u8, packet: &Packet) -> Result<Movement, Refusal>
        ensures { GivesReceived world.now self.now chain packet.now result }
    {
        if !self.is_in_time(chain, packet) {
            return Ok(Movement::Breaks {
                law: BrokenLaw::ReceivedInTime,
                end: None,
            });
        }
        let sender = self.sender_of(world, chain, packet)?;
        Ok(received_from(packet, sender)?)
    }

    // What a packet moves that a chain sent, and that was acknowledged so.
    fn acknowledged_on(
        &self,
        world: &World,
        chain: u8,
        packet: &Packet,
        ack: &[u8],
    ) -> Result<Movement, Refusal>
        ensures { GivesAcknowledged world.now self.now chain packet.now ack.now result }
    {
        match self.source_of(chain, packet) {
            Some(lane) => self.acknowledged_at(world, lane, packet, ack),
            None => Ok(breaks(PacketLaw::SettledWasSent)),
        }
    }

    // What a packet moves that was acknowledged so at the end at a place.
    fn acknowledged_at(
        &self,
        world: &World,
        lane: usize,
        packet: &Packet,
        ack: &[u8],
    ) -> Result<Movement, Refusal>
        ensures { GivesAcknowledgedAt world.now self.now packet.now ack.now lane result }
    {
        if self.is_written(world, lane, packet.sequence, ack)? {
            Ok(passes(lane, Passing::Acknowledged, packet)?)
        } else {
            Ok(Movement::Breaks {
                law: BrokenLaw::TakenAsWritten,
                end: Some(lane),
            })
        }
    }

    // What a packet moves that a chain sent, and that timed out.
    fn timed_out_on(&self, chain: u8, packet: &Packet) -> Result<Movement, Refusal>
        ensures { IfOk result (λ moved. moved ≡ timed_out_on self.now.ends.items chain packet.now) }
    {
        match self.source_of(chain, packet) {
            Some(lane) => Ok(passes(lane, Passing::TimedOut, packet)?),
            None => Ok(breaks(PacketLaw::SettledWasSent)),
        }
    }

    // The place of the end that is a packet's source on a chain, or none.
    fn source_of(&self, chain: u8, packet: &Packet) -> Option<usize>
        ensures { result ≡ place_of_source self.now chain packet.now }
    {
        let port = packet.source_port.as_str();
        place_of_end(self.ends.as_slice(), chain, port, &packet.source_channel)
    }

    // Whether a packet that a chain has received is in time.
    fn is_in_time(&self, chain: u8, packet: &Packet) -> bool
        ensures { result ≡ arrives_in_time self.now.clocks.items chain packet.now }
    {
        match self.clocks.get(usize::from(chain)) {
            Some(clock) => is_in_time(packet, clock.height.saturating_add(1), clock.time),
            None => true,
        }
    }
}
