//! Chains that note what they refuse, and what isn't there when somebody looks.

ghost use Rattle.std.specs.Prelude.{◌≡◌};
ghost use Rattle.ibc_script_worlds.specs.WorldChains.{world_chains};

use crate::absent::{Absent, ack_words, height_words, key_words, packet_words, value_words};
use crate::refused::refused_entry;
use crate::running::RefusedEntry;
use ibc_ids::{Account, Bytes, ChannelId, Denom, Key, PortId, Refusal};
use ibc_machine::{Event, Reply, Totals};
use ibc_merkle::Proof;
use ibc_script_cli::{Chains, CommittedBlock, Holdings};
use ibc_script_worlds::ScriptWorld;
use ibc_wire::{Message, Packet};
use ibc_world_core::World;
use std::alloc::Global;
use std::cell::Cell;
use std::marker::Model;

/// Chains of a world. What they refuse is noted, and the first thing that isn't there of those that were looked for. Contracts
/// see the world.
#[derive(Drop)]
pub struct Watched {
    alloc: Global,
    chains: ScriptWorld,
    refusals: Vec<RefusedEntry>,
    absent: Cell<Option<Absent>>,
}

impl Model for Watched {
    ghost use Rattle.ibc_refinement.specs.World.{WorldState};

    ghost Value = { WorldState };

    ghost view = { λ watched. watched.chains };
}

impl Watched {
    /// The chains of a world, of which nothing is noted yet.
    pub fn new(alloc: Global, chains: ScriptWorld) -> Watched
        ensures { result ≡ chains }
    {
        Watched {
            alloc,
            chains,
            refusals: Vec::new(alloc),
            absent: Cell::new(None),
        }
    }

    /// The world of the chains, and what they refused.
    pub fn into_parts(self) -> (World, Vec<RefusedEntry>)
        ensures { result.0 ≡ self }
    {
        let Watched {
            chains,
            refusals,
            absent,
            ..
        } = self;
        drop(absent);
        (chains.into_world(), refusals)
    }

    /// The first thing that wasn't there of those that were looked for since the last call.
    pub fn take_absent(&self) -> Option<Absent> {
        self.absent.replace(None)
    }

    // Notes that something isn't there on a chain, unless something is noted.
    fn note(&self, chain: u8, words: String) {
        let found = match self.absent.replace(None) {
            Some(before) => {
                drop(words);
                before
            }
            None => Absent { chain, words },
        };
        self.absent.set(Some(found));
    }
}

// The chain of an event.
fn chain_of(event: &Event) -> u8 {
    match event {
        Event::Message { chain, .. } => *chain,
        Event::Block { chain, .. } => *chain,
    }
}

// What a chain refused, where a reply is a refusal that stands in its history.
fn refused_by(
    alloc: Global,
    world: &World,
    chain: u8,
    reply: &Reply,
) -> Result<Option<RefusedEntry>, Refusal> {
    if is_kept_refusal(reply) {
        let refused = refused_entry(alloc, world, chain)?;
        Ok(Some(refused))
    } else {
        Ok(None)
    }
}

// Notes a refusal, where there is one.
fn note_refusal(
    refusals: &mut Vec<RefusedEntry>,
    refused: Option<RefusedEntry>,
) -> Result<(), Refusal> {
    match refused {
        Some(refused) => {
            refusals.push(refused)?;
            Ok(())
        }
        None => Ok(()),
    }
}

// Whether a reply is a refusal that stands in a history.
fn is_kept_refusal(reply: &Reply) -> bool {
    match reply {
        Reply::No(Refusal::NoMemory | Refusal::UnknownChain) => false,
        Reply::No(_) => true,
        Reply::Ok(_) => false,
    }
}

impl Chains for Watched {
    ghost known = { world_chains };

    fn ask(&mut self, event: Event) -> Result<Reply, Refusal> {
        let chain = chain_of(&event);
        let reply = self.chains.ask(event)?;
        let refused = refused_by(self.alloc, self.chains.world(), chain, &reply)?;
        note_refusal(&mut self.refusals, refused)?;
        Ok(reply)
    }

    fn value(&self, chain: u8, key: &Key) -> Result<Option<Bytes>, Refusal> {
        let found = self.chains.value(chain, key)?;
        if found.is_none() {
            self.note(chain, key_words(self.alloc, key)?);
        }
        Ok(found)
    }

    fn packet(
        &self,
        chain: u8,
        port: &PortId,
        channel: &ChannelId,
        sequence: u64,
    ) -> Result<Option<Packet>, Refusal> {
        let found = self.chains.packet(chain, port, channel, sequence)?;
        if found.is_none() {
            self.note(chain, packet_words(self.alloc, port, channel, sequence)?);
        }
        Ok(found)
    }

    fn ack(
        &self,
        chain: u8,
        port: &PortId,
        channel: &ChannelId,
        sequence: u64,
    ) -> Result<Option<Bytes>, Refusal> {
        let found = self.chains.ack(chain, port, channel, sequence)?;
        if found.is_none() {
            self.note(chain, ack_words(self.alloc, port, channel, sequence)?);
        }
        Ok(found)
    }

    fn proof(&self, chain: u8, height: u64, key: &Key) -> Result<Option<Proof>, Refusal> {
        let found = self.chains.proof(chain, height, key)?;
        match &found {
            None => self.note(chain, height_words(self.alloc, height)?),
            Some(Proof::Absent(_)) => {
                if let Some(words) = value_words(self.alloc, height, key)? {
                    self.note(chain, words);
                }
            }
            Some(Proof::Present(_)) => {}
        }
        Ok(found)
    }

    fn block(&self, chain: u8, height: u64) -> Option<CommittedBlock> {
        self.chains.block(chain, height)
    }

    fn working_time(&self, chain: u8) -> Result<u64, Refusal> {
        self.chains.working_time(chain)
    }

    fn plans(&self, first: u8, second: u8) -> Result<(Vec<Message>, Vec<Message>), Refusal> {
        self.chains.plans(first, second)
    }
}

impl Holdings for Watched {
    fn totals(&self, chain: u8, channel: &ChannelId, denom: &Denom) -> Result<Totals, Refusal> {
        self.chains.totals(chain, channel, denom)
    }

    fn balances(&self, chain: u8) -> Result<Vec<(Account, Denom, u128)>, Refusal> {
        self.chains.balances(chain)
    }

    fn notes(&self, chain: u8) -> Result<Vec<(ChannelId, Vec<Bytes>)>, Refusal> {
        self.chains.notes(chain)
    }
}
