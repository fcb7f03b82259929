//! What happened to the packets that go one way over a channel.

ghost use Rattle.std.specs.Prelude.{◌≡◌, IfOk, OnErr, length};
ghost use Rattle.ibc_law_checks.specs.PacketTests.{has_sequence, stands_at};
ghost use Rattle.ibc_law_checks.specs.Lanes.{IsToldOfLane, BecomesUnless};

use crate::same_packet::is_same;
use crate::{PacketLaw, Passing};
use ibc_wire::Packet;
use std::alloc::{AllocError, Global};
use std::marker::Model;

/// What an end sent, what its peer received, and what the end saw acknowledged and timed out. The laws of packets hold of it:
/// what would break one is not taken.
#[derive(Drop)]
pub struct Lane {
    ordered: bool,
    sent: Vec<Packet>,
    received: Vec<Packet>,
    acknowledged: Vec<Packet>,
    timed_out: Vec<Packet>,
}

impl Model for Lane {
    ghost use Rattle.ibc_law_checks.specs.Lanes.{IsLawfulLane, LaneState};

    ghost Value = { LaneState };

    ghost view = { λ lane. record {
      ordered = lane.ordered;
      sent = lane.sent.items;
      received = lane.received.items;
      acknowledged = lane.acknowledged.items;
      timed_out = lane.timed_out.items;
    } };

    ghost invariant = { λ lane. IsLawfulLane (record {
      ordered = lane.ordered;
      sent = lane.sent.items;
      received = lane.received.items;
      acknowledged = lane.acknowledged.items;
      timed_out = lane.timed_out.items;
    }) };
}

// Whether a packet has this sequence.
fn has_sequence(packets: &[Packet], sequence: u64) -> bool
    ensures { result ≡ has_sequence packets.now sequence }
{
    match packets {
        [] => false,
        [first, rest @ ..] => first.sequence == sequence || has_sequence(rest, sequence),
    }
}

// Whether a packet stands at a place.
fn stands_at(packets: &[Packet], place: usize, packet: &Packet) -> bool
    ensures { result ≡ stands_at packets.now place packet.now }
{
    match packets.get(place) {
        Some(other) => is_same(other, packet),
        None => false,
    }
}

impl Lane {
    ghost use Rattle.ibc_law_checks.specs.MovedLanes.{IsPassed};
    ghost use Rattle.ibc_law_checks.specs.Lanes.{IsLawfulLane, broken_by_acknowledging, broken_by_receiving, broken_by_sending, broken_by_timing_out, is_next, is_settled, new_lane, was_sent, with_acknowledged, with_received, with_sent, with_timed_out};

    /// The lane of a channel over which nothing has gone.
    pub fn new(alloc: Global, ordered: bool) -> Lane
        ensures { result ≡ new_lane ordered }
    {
        Lane {
            ordered,
            sent: Vec::new(alloc),
            received: Vec::new(alloc),
            acknowledged: Vec::new(alloc),
            timed_out: Vec::new(alloc),
        }
    }

    /// The laws of packets hold of a lane.
    pub fn lemma_is_lawful(&self)
        ensures { IsLawfulLane self.now }
    {
        let _ordered = self.ordered;
    }

    /// The packets that were sent.
    pub fn sent(&self) -> &[Packet]
        ensures { result.now ≡ self.now.sent }
    {
        self.sent.as_slice()
    }

    /// How many packets were received.
    pub fn received_count(&self) -> usize
        ensures { result ≡ length self.now.received }
    {
        self.received.len()
    }

    /// How many packets were acknowledged.
    pub fn acknowledged_count(&self) -> usize
        ensures { result ≡ length self.now.acknowledged }
    {
        self.acknowledged.len()
    }

    // Whether the packet was sent, equal in every field.
    fn was_sent(&self, packet: &Packet) -> bool
        ensures { result ≡ was_sent self.now packet.now }
    {
        let place = packet.sequence.saturating_sub(1) as usize;
        stands_at(self.sent.as_slice(), place, packet)
    }

    // Whether the packet of a sequence was acknowledged or timed out.
    fn is_settled(&self, sequence: u64) -> bool
        ensures { result ≡ is_settled self.now sequence }
    {
        has_sequence(self.acknowledged.as_slice(), sequence)
            || has_sequence(self.timed_out.as_slice(), sequence)
    }

    // Whether the packet is the next one behind so many, where that matters.
    fn is_next(&self, behind: usize, packet: &Packet) -> bool
        ensures { result ≡ is_next self.now behind packet.now }
    {
        !self.ordered || stands_at(self.sent.as_slice(), behind, packet)
    }

    // The law that a packet would break that is sent next.
    fn first_broken_by_sending(&self, packet: &Packet) -> Option<PacketLaw>
        ensures { result ≡ broken_by_sending self.now packet.now }
    {
        if packet.sequence != 0 && packet.sequence - 1 == self.sent.len() as u64 {
            None
        } else {
            Some(PacketLaw::SentInTurn)
        }
    }

    // The first law that a packet would break that is received next.
    fn first_broken_by_receiving(&self, packet: &Packet) -> Option<PacketLaw>
        ensures { result ≡ broken_by_receiving self.now packet.now }
    {
        if !self.was_sent(packet) {
            Some(PacketLaw::ReceivedWasSent)
        } else if has_sequence(self.received.as_slice(), packet.sequence) {
            Some(PacketLaw::ReceivedOnce)
        } else if has_sequence(self.timed_out.as_slice(), packet.sequence) {
            Some(PacketLaw::NotBoth)
        } else if self.is_next(self.received.len(), packet) {
            None
        } else {
            Some(PacketLaw::ReceivedInOrder)
        }
    }

    // The first law that a packet would break that is acknowledged next.
    fn first_broken_by_acknowledging(&self, packet: &Packet) -> Option<PacketLaw>
        ensures { result ≡ broken_by_acknowledging self.now packet.now }
    {
        if !self.was_sent(packet) {
            Some(PacketLaw::SettledWasSent)
        } else if self.is_settled(packet.sequence) {
            Some(PacketLaw::SettledOnce)
        } else if !has_sequence(self.received.as_slice(), packet.sequence) {
            Some(PacketLaw::AcknowledgedReceived)
        } else if self.is_next(self.acknowledged.len(), packet) {
            None
        } else {
            Some(PacketLaw::AcknowledgedInOrder)
        }
    }

    // The first law that a packet would break that times out next.
    fn first_broken_by_timing_out(&self, packet: &Packet) -> Option<PacketLaw>
        ensures { result ≡ broken_by_timing_out self.now packet.now }
    {
        if !self.was_sent(packet) {
            Some(PacketLaw::SettledWasSent)
        } else if self.is_settled(packet.sequence) {
            Some(PacketLaw::SettledOnce)
        } else if has_sequence(self.received.as_slice(), packet.sequence) {
            Some(PacketLaw::NotBoth)
        } else {
            None
        }
    }

    // A law that doesn't hold where the packet is sent next; none where each does.
    fn broken_by_sending(&self, packet: &Packet) -> Option<PacketLaw>
        ensures { IsToldOfLane (with_sent self.now packet.now) result }
    {
        self.lemma_is_lawful();
        self.first_broken_by_sending(packet)
    }

    // A law that doesn't hold where the packet is received next; none where each does.
    fn broken_by_receiving(&self, packet: &Packet) -> Option<PacketLaw>
        ensures { IsToldOfLane (with_received self.now packet.now) result }
    {
        self.lemma_is_lawful();
        self.first_broken_by_receiving(packet)
    }

    // A law that doesn't hold where the packet is acknowledged next; none where each does.
    fn broken_by_acknowledging(&self, packet: &Packet) -> Option<PacketLaw>
        ensures { IsToldOfLane (with_acknowledged self.now packet.now) result }
    {
        self.lemma_is_lawful();
        self.first_broken_by_acknowledging(packet)
    }

    // A law that doesn't hold where the packet is timed out next; none where each does.
    fn broken_by_timing_out(&self, packet: &Packet) -> Option<PacketLaw>
        ensures { IsToldOfLane (with_timed_out self.now packet.now) result }
    {
        self.lemma_is_lawful();
        self.first_broken_by_timing_out(packet)
    }

    /// Notes a packet that passes so, or tells a law that this breaks; then nothing is noted. Error: no memory.
    pub fn pass(
        &mut self,
        passing: Passing,
        packet: &Packet,
    ) -> Result<Option<PacketLaw>, AllocError>
        ensures ok { IfOk result (λ told. IsPassed passing packet.now self.old told self.new) }
        ensures err { OnErr result (self.new ≡ self.old) }
    {
        match passing {
            Passing::Sent => self.send(packet),
            Passing::Received => self.receive(packet),
            Passing::Acknowledged => self.acknowledge(packet),
            Passing::TimedOut => self.time_out(packet),
        }
    }

    /// Notes a packet that was sent, or tells a law that this breaks; then nothing is noted. Error: no memory.
    pub fn send(&mut self, packet: &Packet) -> Result<Option<PacketLaw>, AllocError>
        ensures ok { BecomesUnless self.old (with_sent self.old packet.now) result self.new }
        ensures err { OnErr result (self.new ≡ self.old) }
    {
        match self.broken_by_sending(packet) {
            Some(law) => Ok(Some(law)),
            None => {
                let copy = packet.clone()?;
                self.sent.push(copy)?;
                Ok(None)
            }
        }
    }

    /// Notes a packet that was received, or tells a law that this breaks; then nothing is noted. Error: no memory.
    pub fn receive(&mut self, packet: &Packet) -> Result<Option<PacketLaw>, AllocError>
        ensures ok { BecomesUnless self.old (with_received self.old packet.now) result self.new }
        ensures err { OnErr result (self.new ≡ self.old) }
    {
        match self.broken_by_receiving(packet) {
            Some(law) => Ok(Some(law)),
            None => {
                let copy = packet.clone()?;
                self.received.push(copy)?;
                Ok(None)
            }
        }
    }

    /// Notes a packet that was acknowledged, or tells a law that this breaks; then nothing is noted. Error: no memory.
    pub fn acknowledge(&mut self, packet: &Packet) -> Result<Option<PacketLaw>, AllocError>
        ensures ok { BecomesUnless self.old (with_acknowledged self.old packet.now) result self.new }
        ensures err { OnErr result (self.new ≡ self.old) }
    {
        match self.broken_by_acknowledging(packet) {
            Some(law) => Ok(Some(law)),
            None => {
                let copy = packet.clone()?;
                self.acknowledged.push(copy)?;
                Ok(None)
            }
        }
    }

    /// Notes a packet that timed out, or tells a law that this breaks; then nothing is noted. Error: no memory.
    pub fn time_out(&mut self, packet: &Packet) -> Result<Option<PacketLaw>, AllocError>
        ensures ok { BecomesUnless self.old (with_timed_out self.old packet.now) result self.new }
        ensures err { OnErr result (self.new ≡ self.old) }
    {
        match self.broken_by_timing_out(packet) {
            Some(law) => Ok(Some(law)),
            None => {
                let copy = packet.clone()?;
                self.timed_out.push(copy)?;
                Ok(None)
            }
        }
    }
}
