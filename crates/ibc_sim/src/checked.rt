//! The chains of a world, each event of which is looked at.

ghost use Rattle.std.specs.Prelude.{◌≡◌};
ghost use Rattle.ibc_script_worlds.specs.WorldChains.{world_chains};

use ibc_ids::{Bytes, ChannelId, Key, PortId, Refusal};
use ibc_machine::{Event, Reply};
use ibc_merkle::Proof;
use ibc_random_scripts::RunSoFar;
use ibc_run_notes::{RunNotes, chain_of, tag_of};
use ibc_script_cli::{Chains, CommittedBlock};
use ibc_script_worlds::ScriptWorld;
use ibc_wire::{Message, Packet};
use std::marker::Model;

/// The chains of a world, and what is noted of their run. Contracts see the world.
#[derive(Drop)]
pub struct Checked {
    pub chains: ScriptWorld,
    pub notes: RunNotes,
}

impl Model for Checked {
    ghost use Rattle.ibc_refinement.specs.World.{WorldState};

    ghost Value = { WorldState };

    ghost view = { λ checked. checked.chains };
}

impl Checked {
    /// The chains of a world, with what is noted of their run so far.
    pub fn new(chains: ScriptWorld, notes: RunNotes) -> Checked
        ensures { result ≡ chains }
    {
        Checked { chains, notes }
    }

    /// The world and the notes, by which the next steps are made.
    pub fn so_far(&self) -> RunSoFar<'_>
        ensures { result.world.now ≡ self.now }
    {
        RunSoFar {
            world: self.chains.world(),
            notes: &self.notes,
        }
    }
}

impl Chains for Checked {
    ghost known = { world_chains };

    fn ask(&mut self, event: Event) -> Result<Reply, Refusal> {
        let chain = chain_of(&event);
        let tag = tag_of(&event);
        let reply = self.chains.ask(event)?;
        self.notes.note(self.chains.world(), chain, tag, &reply)?;
        Ok(reply)
    }

    fn value(&self, chain: u8, key: &Key) -> Result<Option<Bytes>, Refusal> {
        self.chains.value(chain, key)
    }

    fn packet(
        &self,
        chain: u8,
        port: &PortId,
        channel: &ChannelId,
        sequence: u64,
    ) -> Result<Option<Packet>, Refusal> {
        self.chains.packet(chain, port, channel, sequence)
    }

    fn ack(
        &self,
        chain: u8,
        port: &PortId,
        channel: &ChannelId,
        sequence: u64,
    ) -> Result<Option<Bytes>, Refusal> {
        self.chains.ack(chain, port, channel, sequence)
    }

    fn proof(&self, chain: u8, height: u64, key: &Key) -> Result<Option<Proof>, Refusal> {
        self.chains.proof(chain, height, key)
    }

    fn block(&self, chain: u8, height: u64) -> Option<CommittedBlock> {
        self.chains.block(chain, height)
    }

    fn working_time(&self, chain: u8) -> Result<u64, Refusal> {
        self.chains.working_time(chain)
    }

    fn plans(&self, first: u8, second: u8) -> Result<(Vec<Message>, Vec<Message>), Refusal> {
        self.chains.plans(first, second)
    }
}
