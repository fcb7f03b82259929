//! Worlds, as the steps of a script see them.

ghost use Rattle.std.specs.Prelude.{◌≡◌, IfOk};
ghost use Rattle.ibc_machine.specs.ledger.Ledgers.{state_of};
ghost use Rattle.ibc_machine.specs.promises.Worlds.{AreLedgersOf};
ghost use Rattle.ibc_world_core.specs.EveryWorld.{IsLawfulUnlessClash};
ghost use Rattle.ibc_script_worlds.specs.WorldChains.{ArePlansOf, AreStartsOf, IsNewWorld, block_in, proof_in, world_chains};

use crate::blocks::ChainStarts;
use crate::relaying::plans_between;
use ibc_ids::{Account, Bytes, ChannelId, Denom, Key, PortId, Refusal};
use ibc_ledger::Ledger;
use ibc_machine::{Event, Genesis, Reply, Totals};
use ibc_merkle::Proof;
use ibc_script_cli::{Chains, CommittedBlock, Holdings, Worlds};
use ibc_wire::{Message, Packet};
use ibc_world_core::{World, lemma_what_every_world_keeps};
use std::alloc::Global;
use std::marker::Model;

/// Makes the world of each genesis.
#[derive(Drop)]
pub struct WorldFactory {
    alloc: Global,
}

impl WorldFactory {
    /// What makes worlds, with their memory from here.
    pub fn new(alloc: Global) -> WorldFactory {
        WorldFactory { alloc }
    }
}

/// A world, as the steps of a script see it. Contracts see the world.
#[derive(Drop)]
pub struct ScriptWorld {
    alloc: Global,
    starts: ChainStarts,
    world: World,
}

impl Model for ScriptWorld {
    ghost use Rattle.ibc_machine.specs.promises.Worlds.{AreLedgersOf};
    ghost use Rattle.ibc_refinement.specs.World.{WorldState};
    ghost use Rattle.ibc_script_worlds.specs.WorldChains.{AreStartsOf};

    ghost Value = { WorldState };

    ghost view = { λ chains. chains.world };

    ghost invariant = { λ chains. AreStartsOf chains.world.genesis chains.starts × AreLedgersOf chains.world.genesis chains.world.ledgers };
}

// A world with what its genesis says of the chains' beginnings.
fn script_world(alloc: Global, starts: ChainStarts, world: World) -> ScriptWorld
    requires starts { AreStartsOf world.genesis starts }
    requires ledgers { AreLedgersOf world.genesis world.ledgers }
    ensures { result ≡ world }
{
    ScriptWorld {
        alloc,
        starts,
        world,
    }
}

impl ScriptWorld {
    /// The world, whose ledgers have the chains' histories.
    pub fn world(&self) -> &World
        ensures { result.now ≡ self.now }
    {
        &self.world
    }

    /// The world alone.
    pub fn into_world(self) -> World
        ensures { result ≡ self }
    {
        self.world
    }
}

impl Worlds for WorldFactory {
    type Chains = ScriptWorld;

    ghost begins = { IsNewWorld };

    ghost keeps = { IsLawfulUnlessClash };

    fn begin(&self, genesis: &Genesis) -> Result<ScriptWorld, Refusal> {
        let world = World::new(self.alloc, genesis)?;
        match ChainStarts::of(self.alloc, genesis) {
            Ok(starts) => Ok(script_world(self.alloc, starts, world)),
            Err(error) => {
                drop(world);
                Err(Refusal::from(error))
            }
        }
    }

    fn lemma_keeps(&self, chains: &ScriptWorld) {
        lemma_what_every_world_keeps(&chains.world);
    }
}

impl Chains for ScriptWorld {
    ghost known = { world_chains };

    fn ask(&mut self, event: Event) -> Result<Reply, Refusal> {
        Ok(self.world.step(event))
    }

    fn value(&self, chain: u8, key: &Key) -> Result<Option<Bytes>, Refusal> {
        match self.world.ledger(chain) {
            Some(ledger) => ledger.query(key),
            None => Ok(None),
        }
    }

    fn packet(
        &self,
        chain: u8,
        port: &PortId,
        channel: &ChannelId,
        sequence: u64,
    ) -> Result<Option<Packet>, Refusal> {
        match self.world.ledger(chain) {
            Some(ledger) => ledger.packet(port, channel, sequence),
            None => Ok(None),
        }
    }

    fn ack(
        &self,
        chain: u8,
        port: &PortId,
        channel: &ChannelId,
        sequence: u64,
    ) -> Result<Option<Bytes>, Refusal> {
        match self.world.ledger(chain) {
            Some(ledger) => ledger.ack(port, channel, sequence),
            None => Ok(None),
        }
    }

    fn proof(&self, chain: u8, height: u64, key: &Key) -> Result<Option<Proof>, Refusal> {
        match self.world.ledger(chain) {
            Some(ledger) => ledger_proof(ledger, height, key),
            None => Ok(None),
        }
    }

    fn block(&self, chain: u8, height: u64) -> Option<CommittedBlock> {
        match self.world.ledger(chain) {
            Some(ledger) => ledger_block(&self.starts, ledger, height),
            None => None,
        }
    }

    fn working_time(&self, chain: u8) -> Result<u64, Refusal> {
        match self.world.ledger(chain) {
            Some(ledger) => ledger_time(ledger),
            None => Ok(0),
        }
    }

    fn plans(&self, first: u8, second: u8) -> Result<(Vec<Message>, Vec<Message>), Refusal> {
        let first = self.world.ledger(first);
        let second = self.world.ledger(second);
        plans_if_there(self.alloc, first, second)
    }
}

impl Holdings for ScriptWorld {
    fn totals(&self, chain: u8, channel: &ChannelId, denom: &Denom) -> Result<Totals, Refusal> {
        self.world.totals(chain, channel, denom)
    }

    fn balances(&self, chain: u8) -> Result<Vec<(Account, Denom, u128)>, Refusal> {
        match self.world.ledger(chain) {
            Some(ledger) => ledger.balances(),
            None => Ok(Vec::new(self.alloc)),
        }
    }

    fn notes(&self, chain: u8) -> Result<Vec<(ChannelId, Vec<Bytes>)>, Refusal> {
        match self.world.ledger(chain) {
            Some(ledger) => ledger.all_notes(),
            None => Ok(Vec::new(self.alloc)),
        }
    }
}

// What a ledger committed at a height, where it keeps it.
fn ledger_block(starts: &ChainStarts, ledger: &Ledger, height: u64) -> Option<CommittedBlock>
    requires { AreStartsOf ledger.now.ledger.genesis starts.now }
    ensures { result ≡ block_in height ledger.now.ledger }
{
    ledger.lemma_is_its_history();
    starts.block(ledger.chain(), ledger.history(), height)
}

// The proof of what a height of a ledger has at a key, none where the ledger doesn't keep it.
fn ledger_proof(ledger: &Ledger, height: u64, key: &Key) -> Result<Option<Proof>, Refusal>
    ensures { IfOk result (λ found. found ≡ proof_in height key.now ledger.now.ledger) }
{
    match ledger.query_proof(height, key) {
        Ok(proof) => Ok(Some(proof)),
        Err(Refusal::NoConsensus) => Ok(None),
        Err(refusal) => Err(refusal),
    }
}

// The time of a ledger's working block.
fn ledger_time(ledger: &Ledger) -> Result<u64, Refusal>
    ensures { IfOk result (λ time. time ≡ (state_of ledger.now.ledger).chain.time) }
{
    let view = ledger.view()?;
    Ok(view.working_time())
}

// What relayers plan between two ledgers, nothing where one isn't there.
fn plans_if_there(
    alloc: Global,
    first: Option<&Ledger>,
    second: Option<&Ledger>,
) -> Result<(Vec<Message>, Vec<Message>), Refusal>
    ensures { IfOk result (ArePlansOf first.entry second.entry) }
{
    match (first, second) {
        (Some(first), Some(second)) => plans_between(alloc, first, second),
        (Some(_), None) | (None, _) => Ok((Vec::new(alloc), Vec::new(alloc))),
    }
}
