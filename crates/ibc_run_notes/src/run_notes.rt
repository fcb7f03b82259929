//! What is noted of a run, event by event.

ghost use Rattle.std.specs.Prelude.{◌≡◌, IfOk, IsSome, None, OnOk};
ghost use Rattle.std.specs.Option.{option_or};
ghost use Rattle.ibc_run_notes.specs.Findings.{KeepsToldOf, KeepsTokensTold};

use crate::counts::AnswerCounts;
use crate::flights::{Flight, Flights};
use crate::known::Known;
use ibc_ids::{ChannelId, Refusal};
use ibc_law_checks::{
    Finding, LawChecks, acknowledged_by, place_of_end, received_by, timed_out_by,
};
use ibc_ledger::StampedEntry;
use ibc_machine::{Effect, Entry, Event, Genesis, Reply};
use ibc_wire::{Message, Packet};
use ibc_world_core::World;
use std::alloc::{AllocError, Global};

/// What is noted of a run: what of the laws has to be known, what was made, which packets aren't settled, how often each answer
/// came, and the first law that was seen broken.
#[derive(Drop)]
pub struct RunNotes {
    pub checks: LawChecks,
    pub known: Known,
    pub flights: Flights,
    pub counts: AnswerCounts,
    pub finding: Option<Finding>,
}

/// The timeouts of a packet.
#[derive(Clone, Copy)]
struct Timeouts {
    height: u64,
    time: u64,
}

impl Timeouts {
    fn of(height: u64, time: u64) -> Timeouts {
        Timeouts { height, time }
    }
}

// The last entry of a history.
fn last_in(history: &[StampedEntry]) -> Option<&Entry> {
    match history {
        [.., last] => Some(&last.entry),
        [] => None,
    }
}

impl RunNotes {
    /// What is noted of a run that has just begun with this genesis. Error: no memory.
    pub fn new(alloc: Global, genesis: &Genesis) -> Result<RunNotes, AllocError>
        ensures { IfOk result (λ notes. notes.finding ≡ None) }
    {
        let checks = LawChecks::new(alloc, genesis)?;
        let counts = AnswerCounts::new(alloc)?;
        Ok(RunNotes {
            checks,
            known: Known::new(alloc),
            flights: Flights::new(alloc),
            counts,
            finding: None,
        })
    }

    /// Notes what a chain has answered, and looks at the entry that came with it. What was found before stays. Refused: `NoMemory`.
    pub fn note(&mut self, world: &World, chain: u8, tag: u8, reply: &Reply) -> Result<(), Refusal>
        ensures { OnOk result (IsSome self.old.finding → self.new.finding ≡ self.old.finding) }
    {
        self.counts.add(tag, reply);
        match reply {
            Reply::No(Refusal::NoMemory) => Err(Refusal::NoMemory),
            Reply::No(Refusal::UnknownChain) => Ok(()),
            _ => self.look(world, chain),
        }
    }

    // Looks at the last entry of a chain.
    fn look(&mut self, world: &World, chain: u8) -> Result<(), Refusal>
        ensures { OnOk result (IsSome self.old.finding → self.new.finding ≡ self.old.finding) }
    {
        let Some(ledger) = world.ledger(chain) else {
            return Ok(());
        };
        match last_in(ledger.history()) {
            Some(entry) => self.look_at(world, chain, entry),
            None => Ok(()),
        }
    }

    // Looks at an entry of a chain, which has just come.
    fn look_at(&mut self, world: &World, chain: u8, entry: &Entry) -> Result<(), Refusal>
        ensures told { OnOk result (KeepsToldOf world.now entry.now self.old self.new.finding) }
        ensures first { OnOk result (IsSome self.old.finding → self.new.finding ≡ self.old.finding) }
    {
        let found = self.checks.look(world, chain, entry)?;
        self.keep(found);
        self.note_entry(world, chain, entry)
    }

    // Notes what an entry has made, and the packet that it sent or moved.
    fn note_entry(&mut self, world: &World, chain: u8, entry: &Entry) -> Result<(), Refusal>
        ensures { self.new.finding ≡ self.old.finding }
    {
        self.known.look(chain, entry)?;
        match (&entry.event, &entry.reply) {
            (Event::Message { message, .. }, Reply::Ok(Effect::Sent(sequence))) => {
                self.note_sent(chain, message, *sequence)
            }
            (Event::Message { message, .. }, Reply::Ok(_)) => {
                self.note_moved(world, chain, message)
            }
            _ => Ok(()),
        }
    }

    // Keeps what was found, where it is the first.
    fn keep(&mut self, found: Option<Finding>)
        ensures { self.new.finding ≡ option_or self.old.finding found }
    {
        match self.finding {
            Some(_) => drop(found),
            None => self.finding = found,
        }
    }

    /// Looks at all that can be looked at now. What was found before stays. Refused: `NoMemory`.
    pub fn look_at_all(&mut self, world: &World) -> Result<(), Refusal>
        ensures { OnOk result (KeepsTokensTold world.now self.old self.new.finding) }
    {
        let found = self.checks.look_at_all(world)?;
        self.keep(found);
        Ok(())
    }

    // Notes the packet that a message sent.
    fn note_sent(&mut self, chain: u8, message: &Message, sequence: u64) -> Result<(), Refusal>
        ensures { self.new.finding ≡ self.old.finding }
    {
        match message {
            Message::Transfer(message) => {
                let timeouts = Timeouts::of(message.timeout_height, message.timeout_time);
                self.depart(chain, "transfer", &message.channel, sequence, timeouts)
            }
            Message::TransferMany(message) => {
                let timeouts = Timeouts::of(message.timeout_height, message.timeout_time);
                self.depart(chain, "transfer", &message.channel, sequence, timeouts)
            }
            Message::SendNote(message) => {
                let timeouts = Timeouts::of(message.timeout_height, message.timeout_time);
                self.depart(chain, "note", &message.channel, sequence, timeouts)
            }
            _ => Ok(()),
        }
    }

    // Notes a packet that an end of a chain sent.
    fn depart(
        &mut self,
        chain: u8,
        port: &str,
        channel: &ChannelId,
        sequence: u64,
        timeouts: Timeouts,
    ) -> Result<(), Refusal>
        ensures { self.new.finding ≡ self.old.finding }
    {
        let Some(end) = place_of_end(self.checks.ends.as_slice(), chain, port, channel) else {
            return Ok(());
        };
        let Some(to) = self.known.tracked_by(end) else {
            return Ok(());
        };
        self.flights.depart(Flight {
            end,
            to,
            sequence,
            timeout_height: timeouts.height,
            timeout_time: timeouts.time,
        })?;
        Ok(())
    }

    // Notes the packet that a message moved.
    fn note_moved(&mut self, world: &World, chain: u8, message: &Message) -> Result<(), Refusal>
        ensures { self.new.finding ≡ self.old.finding }
    {
        if let Some(packet) = received_by(message) {
            return self.note_received(world, chain, packet);
        }
        if let Some(packet) = acknowledged_by(message) {
            self.note_settled(chain, packet);
            return Ok(());
        }
        if let Some(packet) = timed_out_by(message) {
            self.note_settled(chain, packet);
            return Ok(());
        }
        Ok(())
    }

    // Notes a packet that a chain received.
    fn note_received(&mut self, world: &World, chain: u8, packet: &Packet) -> Result<(), Refusal>
        ensures { self.new.finding ≡ self.old.finding }
    {
        let port = packet.destination_port.as_str();
        let channel = &packet.destination_channel;
        let Some(own) = place_of_end(self.checks.ends.as_slice(), chain, port, channel) else {
            return Ok(());
        };
        let Some(peer) = self.checks.peer_of(world, own)? else {
            return Ok(());
        };
        self.flights.arrive(peer, packet.sequence)?;
        Ok(())
    }

    // Notes a packet of a chain that is settled.
    fn note_settled(&mut self, chain: u8, packet: &Packet)
        ensures { self.new.finding ≡ self.old.finding }
    {
        let port = packet.source_port.as_str();
        let channel = &packet.source_channel;
        let Some(end) = place_of_end(self.checks.ends.as_slice(), chain, port, channel) else {
            return;
        };
        self.flights.settle(end, packet.sequence);
    }
}
