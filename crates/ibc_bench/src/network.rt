//! The chains of a run, and what is noted of all that they answer.

use crate::log::{StoredEntry, StoredEvent};
use crate::names::FIRST_TIME;
use crate::run_error::RunError;
use crate::tally::Tally;
use ibc_ids::{Bytes, ChannelId, Key, PortId, Refusal};
use ibc_ledger::{Ledger, View};
use ibc_machine::{Effect, Event, Genesis, Reading, Reply};
use ibc_merkle::Proof;
use ibc_relayer::plans;
use ibc_script::{Application, Draft, Step};
use ibc_script_cli::{Chains, CommittedBlock, Runner};
use ibc_wire::{Message, Packet};
use ibc_world_core::World;
use std::alloc::Global;
use std::io;

/// What is noted of a chain: its blocks, the time of its working block, and how many channels were opened to it.
#[derive(Drop)]
struct ChainNotes {
    blocks: Vec<CommittedBlock>,
    time: u64,
    channels: u64,
}

/// The chains of a run, and what is noted of all that they answer.
#[derive(Drop)]
pub struct Network {
    pub alloc: Global,
    pub world: World,
    pub tally: Tally,
    /// The entries of the run, where they are kept.
    pub stored: Option<Vec<StoredEntry>>,
    chains: Vec<ChainNotes>,
    error: Option<RunError>,
}

// What is noted of so many chains in the beginning.
fn first_notes(alloc: Global, chains: usize) -> Result<Vec<ChainNotes>, RunError> {
    let mut notes = Vec::with_capacity(alloc, chains)?;
    for _chain in 0..chains {
        notes.push(ChainNotes {
            blocks: Vec::new(alloc),
            time: FIRST_TIME,
            channels: 0,
        })?;
    }
    Ok(notes)
}

// Whether the reply tells that no memory was there.
fn is_no_memory(reply: &Reply) -> bool {
    matches!(reply, Reply::No(Refusal::NoMemory))
}

// The number of an event's chain.
fn chain_of(event: &Event) -> u8 {
    match event {
        Event::Message { chain, .. } => *chain,
        Event::Block { chain, .. } => *chain,
    }
}

// The time of the next block, where the event ends one.
fn next_time_of(event: &Event) -> u64 {
    match event {
        Event::Message { .. } => 0,
        Event::Block { next_time, .. } => *next_time,
    }
}

impl ChainNotes {
    // Notes what the chain answered.
    fn note(&mut self, reply: &Reply, next_time: u64) -> Result<(), RunError> {
        match reply {
            Reply::Ok(Effect::Block(_, root)) => {
                let block = CommittedBlock {
                    root: *root,
                    time: self.time,
                };
                self.time = next_time;
                self.blocks.push(block)?;
            }
            Reply::Ok(Effect::Channel(_)) => self.channels = self.channels.saturating_add(1),
            _ => (),
        }
        Ok(())
    }
}

impl Network {
    /// The chains of a genesis in the beginning. Where `keeps` is true, the entries of the run are kept.
    pub fn new(alloc: Global, genesis: &Genesis, keeps: bool) -> Result<Network, RunError> {
        let chains = first_notes(alloc, genesis.chains.len())?;
        match World::new(alloc, genesis) {
            Ok(world) => Ok(Network {
                alloc,
                world,
                tally: Tally::new(),
                stored: if keeps { Some(Vec::new(alloc)) } else { None },
                chains,
                error: None,
            }),
            Err(refusal) => {
                drop(chains);
                Err(RunError::Refused(refusal))
            }
        }
    }

    /// The first error that a call of the run met so far, if any.
    pub fn check(&self) -> Result<(), RunError> {
        match self.error {
            Some(error) => Err(error),
            None => Ok(()),
        }
    }

    /// An error is kept, where it is the first one.
    pub fn fail(&mut self, error: RunError) {
        if self.error.is_none() {
            self.error = Some(error);
        }
    }

    // Keeps an error, where there is one.
    fn keep(&mut self, answer: Result<(), RunError>) {
        if let Err(error) = answer {
            self.fail(error);
        }
    }

    // Keeps a refusal as an error.
    fn expect_accepted(&mut self, reply: &Reply) {
        if let Reply::No(refusal) = reply {
            self.fail(RunError::Refused(*refusal));
        }
    }

    // The event as it is stored, where the entries are kept.
    fn stored_event(&self, event: &Event) -> Result<Option<StoredEvent>, RunError> {
        match &self.stored {
            Some(_) => Ok(Some(StoredEvent::of(self.alloc, event)?)),
            None => Ok(None),
        }
    }

    // What was read for the last entry of a chain.
    fn last_reading(&self, chain: u8) -> Option<Reading> {
        match self.world.ledger(chain)?.history() {
            [.., last] => last.entry.reading,
            [] => None,
        }
    }

    // Keeps an entry of the run.
    fn store(&mut self, event: StoredEvent, chain: u8, reply: &Reply) -> Result<(), RunError> {
        let reading = self.last_reading(chain);
        let Ok(reply) = reply.clone() else {
            drop(event);
            return Err(RunError::NoMemory);
        };
        let entry = StoredEntry {
            event,
            reply,
            reading,
        };
        match &mut self.stored {
            Some(stored) => Ok(stored.push(entry)?),
            None => {
                drop(entry);
                Ok(())
            }
        }
    }

    // Notes what a chain answered to an event.
    fn note(&mut self, chain: u8, next_time: u64, reply: &Reply) {
        self.tally.reply(reply);
        if is_no_memory(reply) {
            self.fail(RunError::NoMemory);
        }
        let noted = match self.chains.get_mut(usize::from(chain)) {
            Some(notes) => notes.note(reply, next_time),
            None => Ok(()),
        };
        self.keep(noted);
    }

    /// Puts an event to its chain, and notes the answer.
    pub fn put(&mut self, event: Event) -> Reply {
        let chain = chain_of(&event);
        let next_time = next_time_of(&event);
        let spelled = self.stored_event(&event);
        let reply = self.world.step(event);
        self.note(chain, next_time, &reply);
        let stored = match spelled {
            Ok(Some(event)) => self.store(event, chain, &reply),
            Ok(None) => Ok(()),
            Err(error) => Err(error),
        };
        self.keep(stored);
        reply
    }

    /// Sends a chain a message that it has to accept.
    pub fn send(&mut self, chain: u8, message: Message) {
        let reply = self.put(Event::Message { chain, message });
        self.expect_accepted(&reply);
        drop(reply);
    }

    /// Ends the working block of a chain. The next one begins some seconds later.
    pub fn end_block(&mut self, chain: u8) {
        let time = match self.chains.get(usize::from(chain)) {
            Some(notes) => notes.time.saturating_add(6),
            None => 0,
        };
        drop(self.put(Event::Block {
            chain,
            next_time: time,
        }));
    }

    /// The last height that a chain committed.
    pub fn height(&self, chain: u8) -> u64 {
        match self.chains.get(usize::from(chain)) {
            Some(notes) => notes.blocks.len() as u64,
            None => 0,
        }
    }

    /// How many channels a chain has.
    pub fn channels(&self, chain: u8) -> u64 {
        match self.chains.get(usize::from(chain)) {
            Some(notes) => notes.channels,
            None => 0,
        }
    }

    /// Opens a channel between two chains, over a new connection of new clients.
    pub fn open(
        &mut self,
        first: u8,
        second: u8,
        application: Application,
    ) -> Result<(), RunError> {
        let step = Step::Open {
            first,
            second,
            application,
        };
        Runner::new(self.alloc, &[]).act(self, step, &mut io::sink())?;
        Ok(())
    }

    /// Sends a chain the message that a draft is of, as the chains stand.
    pub fn submit(&mut self, on: u8, draft: Draft) -> Result<(), RunError> {
        let step = Step::Message { on, draft };
        Runner::new(self.alloc, &[]).act(self, step, &mut io::sink())?;
        Ok(())
    }

    /// Adds to the tally what each chain holds at the end, and tells the first error of a run.
    pub fn finish(&mut self) -> Result<(), RunError> {
        for chain in 0..8 {
            if let Some(ledger) = self.world.ledger(chain) {
                add_holdings(ledger, &mut self.tally)?;
            }
        }
        self.check()
    }

    /// The world, and what is noted of its answers and entries.
    pub fn into_parts(self) -> (World, Tally, Option<Vec<StoredEntry>>) {
        let Network {
            world,
            tally,
            stored,
            chains,
            ..
        } = self;
        drop(chains);
        (world, tally, stored)
    }
}

// Adds what a chain holds to a tally.
fn add_holdings(ledger: &Ledger, tally: &mut Tally) -> Result<(), RunError> {
    let balances = ledger.balances()?;
    tally.balances(balances.as_slice());
    drop(balances);
    let notes = ledger.all_notes()?;
    tally.notes(notes.as_slice());
    drop(notes);
    Ok(())
}

impl Chains for Network {
    // What steps ask for has to be accepted.
    fn ask(&mut self, event: Event) -> Result<Reply, Refusal> {
        let reply = self.put(event);
        self.expect_accepted(&reply);
        Ok(reply)
    }

    fn value(&self, chain: u8, key: &Key) -> Result<Option<Bytes>, Refusal> {
        match self.world.ledger(chain) {
            Some(ledger) => ledger.query(key),
            None => Ok(None),
        }
    }

    fn packet(
        &self,
        chain: u8,
        port: &PortId,
        channel: &ChannelId,
        sequence: u64,
    ) -> Result<Option<Packet>, Refusal> {
        match self.world.ledger(chain) {
            Some(ledger) => ledger.packet(port, channel, sequence),
            None => Ok(None),
        }
    }

    fn ack(
        &self,
        chain: u8,
        port: &PortId,
        channel: &ChannelId,
        sequence: u64,
    ) -> Result<Option<Bytes>, Refusal> {
        match self.world.ledger(chain) {
            Some(ledger) => ledger.ack(port, channel, sequence),
            None => Ok(None),
        }
    }

    fn proof(&self, chain: u8, height: u64, key: &Key) -> Result<Option<Proof>, Refusal> {
        let Some(ledger) = self.world.ledger(chain) else {
            return Ok(None);
        };
        match ledger.query_proof(height, key) {
            Ok(proof) => Ok(Some(proof)),
            Err(Refusal::NoConsensus) => Ok(None),
            Err(refusal) => Err(refusal),
        }
    }

    fn block(&self, chain: u8, height: u64) -> Option<CommittedBlock> {
        let notes = self.chains.get(usize::from(chain))?;
        let place = usize::try_from(height.checked_sub(1)?).ok()?;
        notes.blocks.get(place).copied()
    }

    fn working_time(&self, chain: u8) -> Result<u64, Refusal> {
        match self.chains.get(usize::from(chain)) {
            Some(notes) => Ok(notes.time),
            None => Ok(0),
        }
    }

    fn plans(&self, first: u8, second: u8) -> Result<(Vec<Message>, Vec<Message>), Refusal> {
        match (self.world.ledger(first), self.world.ledger(second)) {
            (Some(first), Some(second)) => plans_between(self.alloc, first, second),
            _ => Ok((Vec::new(self.alloc), Vec::new(self.alloc))),
        }
    }
}

// What relayers plan between two ledgers, as both stand at their last blocks.
fn plans_between(
    alloc: Global,
    first: &Ledger,
    second: &Ledger,
) -> Result<(Vec<Message>, Vec<Message>), Refusal> {
    let first = first.view()?;
    let planned = plans_from(alloc, &first, second);
    drop(first);
    planned
}

// What they plan between a view and a ledger, as it stands at its last block.
fn plans_from(
    alloc: Global,
    first: &View,
    second: &Ledger,
) -> Result<(Vec<Message>, Vec<Message>), Refusal> {
    let second = second.view()?;
    let planned = plans(alloc, first, &second);
    drop(second);
    planned
}
