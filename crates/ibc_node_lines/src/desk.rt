//! A node, as the steps of a script see it.

ghost use Rattle.std.specs.Prelude.{◌≡◌, ◌++◌, ◌∷◌, [], is_some, slice_get, IfOk, IsTrue, OnOk};
ghost use Rattle.sqlite.specs.Held.{state};
ghost use Rattle.ibc_machine.specs.ledger.Ledgers.{chain_of, state_of};
ghost use Rattle.ibc_script_worlds.specs.WorldChains.{ArePlansOf, ledger_behind, proof_in};
ghost use Rattle.ibc_node.specs.Nodes.{node_world};
ghost use Rattle.ibc_node_lines.specs.Desks.{desk_chains, RunsStep};
ghost use Rattle.ibc_node_lines.specs.Servers.{TellsJust, TellsTaken};

use ibc_ids::{Account, Bytes, ChannelId, Denom, Key, PortId, Refusal};
use ibc_ledger::Ledger;
use ibc_machine::{Event, Reply, Totals};
use ibc_merkle::Proof;
use ibc_node::{KeptAnswer, Node, NodeFault};
use ibc_script::{ChainName, Step};
use ibc_script_cli::{Chains, CommittedBlock, Holdings, Runner};
use ibc_script_worlds::{ChainStarts, plans_between};
use ibc_wire::{Message, Packet};
use sqlite::Alter;
use std::alloc::Global;
use std::io;

/// A node, as the steps of a script see it: what each event came to is told, beside the number of its chain.
pub struct Desk<S: Alter> {
    pub(crate) alloc: Global,
    pub(crate) node: Node<S>,
    starts: ChainStarts,
    log_place: u32,
    pub(crate) told: Vec<(u8, KeptAnswer)>,
    fault: Option<NodeFault>,
}

impl<S: Alter + Drop> Drop for Desk<S> {
    fn drop(self) {
        let Desk {
            alloc: _,
            node: _,
            starts: _,
            log_place: _,
            told: _,
            fault: _,
        } = self;
    }
}

// The number of an event's chain.
fn chain_of(event: &Event) -> u8
    ensures { result ≡ chain_of event.now }
{
    match event {
        Event::Message { chain, .. } => *chain,
        Event::Block { chain, .. } => *chain,
    }
}

impl<S: Alter + Drop> Desk<S> {
    /// The desk of a node whose chains begin so.
    pub fn new(alloc: Global, node: Node<S>, starts: ChainStarts) -> Desk<S>
        ensures { result.node ≡ node }
    {
        Desk {
            alloc,
            node,
            starts,
            log_place: 0,
            told: Vec::new(alloc),
            fault: None,
        }
    }

    /// Its node.
    pub fn into_node(self) -> Node<S>
        ensures { result ≡ self.node }
    {
        let Desk {
            alloc: _,
            node,
            starts,
            log_place: _,
            told,
            fault: _,
        } = self;
        drop(starts);
        drop(told);
        node
    }

    /// Whether there is a chain of this number.
    pub fn has_chain(&self, chain: u8) -> bool
        ensures { result ≡ is_some (slice_get (node_world self.now.node).ledgers chain) }
    {
        self.ledger(chain).is_some()
    }

    /// Asks the node for an event, and tells what came of it.
    pub fn take(&mut self, log_place: u32, event: Event) -> Result<Vec<(u8, KeptAnswer)>, NodeFault>
        ensures tells { IfOk result (TellsJust (state S.Store) self.old.node self.new.node) }
        ensures asked { TellsTaken log_place self.old.node event self.new.node result }
    {
        let chain = chain_of(&event);
        let kept = self.node.take(log_place, event)?;
        let mut told = Vec::new(self.alloc);
        told.push((chain, kept))?;
        Ok(told)
    }

    /// Takes a step that asks the chains for events, and tells what came of each.
    pub fn act(
        &mut self,
        names: &[ChainName],
        log_place: u32,
        step: Step,
    ) -> Result<Vec<(u8, KeptAnswer)>, NodeFault>
        ensures tells { IfOk result (TellsJust (state S.Store) self.old.node self.new.node) }
        ensures ran { IfOk result (λ told. RunsStep (state S.Store) names.now log_place step self.old.node told.items self.new.node) }
    {
        if names.len() > 8 {
            drop(step);
            return Err(NodeFault::BadGenesis);
        }
        self.log_place = log_place;
        self.told.clear();
        let ran = Runner::new(self.alloc, names).act(self, step, &mut io::sink());
        self.taken(ran.is_ok())
    }

    // What was told meanwhile, or why nothing more can be told.
    fn taken(&mut self, has_run: bool) -> Result<Vec<(u8, KeptAnswer)>, NodeFault>
        ensures run { OnOk result (IsTrue has_run) }
        ensures told { IfOk result (λ told. told.items ≡ self.old.told.items) }
        ensures node { self.new.node ≡ self.old.node }
    {
        let mut told = Vec::new(self.alloc);
        told.append(&mut self.told)?;
        if let Some(fault) = self.fault.take() {
            drop(told);
            return Err(fault);
        }
        if !has_run {
            drop(told);
            return Err(NodeFault::NoMemory);
        }
        Ok(told)
    }

    // Tells what came of an event, and answers with its reply.
    fn tell(&mut self, chain: u8, kept: KeptAnswer) -> Result<Reply, Refusal>
        ensures node { self.new.node ≡ self.old.node }
        ensures told { OnOk result (self.new.told.items ≡ self.old.told.items ++ (chain, kept) ∷ []) }
        ensures log_place { self.new.log_place ≡ self.old.log_place }
    {
        let reply = kept.reply.clone()?;
        match self.told.push((chain, kept)) {
            Ok(()) => Ok(reply),
            Err(error) => {
                drop(error);
                drop(reply);
                Err(Refusal::NoMemory)
            }
        }
    }

    // The ledger of a chain, where there is one.
    fn ledger(&self, chain: u8) -> Option<&Ledger>
        ensures { ledger_behind result ≡ slice_get (node_world self.now.node).ledgers chain }
    {
        self.node.world().ledger(chain)
    }
}

impl<S: Alter + Drop> Chains for Desk<S> {
    ghost known = { desk_chains (state S.Store) };

    fn ask(&mut self, event: Event) -> Result<Reply, Refusal> {
        let chain = chain_of(&event);
        match self.node.take(self.log_place, event) {
            Ok(kept) => self.tell(chain, kept),
            Err(fault) => {
                self.fault = Some(fault);
                Err(Refusal::NoMemory)
            }
        }
    }

    fn value(&self, chain: u8, key: &Key) -> Result<Option<Bytes>, Refusal> {
        match self.ledger(chain) {
            Some(ledger) => ledger.query(key),
            None => Ok(None),
        }
    }

    fn packet(
        &self,
        chain: u8,
        port: &PortId,
        channel: &ChannelId,
        sequence: u64,
    ) -> Result<Option<Packet>, Refusal> {
        match self.ledger(chain) {
            Some(ledger) => ledger.packet(port, channel, sequence),
            None => Ok(None),
        }
    }

    fn ack(
        &self,
        chain: u8,
        port: &PortId,
        channel: &ChannelId,
        sequence: u64,
    ) -> Result<Option<Bytes>, Refusal> {
        match self.ledger(chain) {
            Some(ledger) => ledger.ack(port, channel, sequence),
            None => Ok(None),
        }
    }

    fn proof(&self, chain: u8, height: u64, key: &Key) -> Result<Option<Proof>, Refusal> {
        match self.ledger(chain) {
            Some(ledger) => ledger_proof(ledger, height, key),
            None => Ok(None),
        }
    }

    fn block(&self, chain: u8, height: u64) -> Option<CommittedBlock> {
        let ledger = self.ledger(chain)?;
        self.starts.block(chain, ledger.history(), height)
    }

    fn working_time(&self, chain: u8) -> Result<u64, Refusal> {
        match self.ledger(chain) {
            Some(ledger) => ledger_time(ledger),
            None => Ok(0),
        }
    }

    fn plans(&self, first: u8, second: u8) -> Result<(Vec<Message>, Vec<Message>), Refusal> {
        let first = self.ledger(first);
        let second = self.ledger(second);
        plans_if_there(self.alloc, first, second)
    }
}

impl<S: Alter + Drop> Holdings for Desk<S> {
    fn totals(&self, chain: u8, channel: &ChannelId, denom: &Denom) -> Result<Totals, Refusal> {
        self.node.world().totals(chain, channel, denom)
    }

    fn balances(&self, chain: u8) -> Result<Vec<(Account, Denom, u128)>, Refusal> {
        match self.ledger(chain) {
            Some(ledger) => ledger.balances(),
            None => Ok(Vec::new(self.alloc)),
        }
    }

    fn notes(&self, chain: u8) -> Result<Vec<(ChannelId, Vec<Bytes>)>, Refusal> {
        match self.ledger(chain) {
            Some(ledger) => ledger.all_notes(),
            None => Ok(Vec::new(self.alloc)),
        }
    }
}

// The proof of what a height of a ledger has at a key, none where the ledger doesn't keep it.
fn ledger_proof(ledger: &Ledger, height: u64, key: &Key) -> Result<Option<Proof>, Refusal>
    ensures { IfOk result (λ found. found ≡ proof_in height key.now ledger.now.ledger) }
{
    match ledger.query_proof(height, key) {
        Ok(proof) => Ok(Some(proof)),
        Err(Refusal::NoConsensus) => Ok(None),
        Err(refusal) => Err(refusal),
    }
}

// The time of a ledger's working block.
fn ledger_time(ledger: &Ledger) -> Result<u64, Refusal>
    ensures { IfOk result (λ time. time ≡ (state_of ledger.now.ledger).chain.time) }
{
    let view = ledger.view()?;
    Ok(view.working_time())
}

// What relayers plan between two ledgers, nothing where one isn't there.
fn plans_if_there(
    alloc: Global,
    first: Option<&Ledger>,
    second: Option<&Ledger>,
) -> Result<(Vec<Message>, Vec<Message>), Refusal>
    ensures { IfOk result (ArePlansOf first.entry second.entry) }
{
    match (first, second) {
        (Some(first), Some(second)) => plans_between(alloc, first, second),
        (Some(_), None) | (None, _) => Ok((Vec::new(alloc), Vec::new(alloc))),
    }
}
