//! A world: one ledger for each chain of a genesis.

ghost use Rattle.std.specs.Prelude.{◌≡◌, ◌⊎◌, ◌↔◌, ◌<◌, ◌∷◌, [], true, false, length, option_map, slice_get, IfOk, IfErr, OnErr, IsTrue, IsOkUnless};
ghost use Rattle.ibc_ids.specs.declared.refusal.Refusal.TheVariants.{NoMemory, BadMessage};
ghost use Rattle.ibc_machine.specs.declared.reply.Reply.TheVariants as reply_of;
ghost use Rattle.ibc_machine.specs.chain.Genesis.{genesis_state, is_allowed};
ghost use Rattle.ibc_machine.specs.ledger.Ledgers.{chain_of};
ghost use Rattle.ibc_root_table.specs.Passes.{AreDealt};
ghost use Rattle.ibc_ledger.specs.LedgerModel.{shape_of};
ghost use Rattle.ibc_ledger.specs.HistoryGrowth.{AddsOrNot};
ghost use Rattle.ibc_refinement.specs.World.{AreNew, HasItsPast};
ghost use Rattle.ibc_refinement.specs.Steps.{IsStep, GoesOnBy};
ghost use Rattle.ibc_world_core.specs.WorldModel.{ledgers_alone, AreBegun, AreNumbered, IsPutTo, SameTables, AreBegunTogether};
ghost use Rattle.ibc_world_core.specs.WorldAudits.{AreOfOneWorld};

use crate::meeting::meet_all;
use ibc_ids::Refusal;
use ibc_ledger::{Ledger, is_allowed};
use ibc_machine::{Event, Genesis, Reply};
use ibc_root_table::{Pass, RootTable};
use std::alloc::Global;
use std::marker::Model;
use std::snapshot::Snapshot;
use std::sync::Arc;

/// The events of a run that was refused, and why.
#[derive(Drop)]
pub struct NotRun {
    pub refusal: Refusal,
    pub events: Vec<Event>,
}

/// The ledgers of a genesis, in the order of their numbers, and the order of their entries as the numbers of the chains.
#[derive(Drop)]
pub struct World {
    pub(crate) alloc: Global,
    genesis: Snapshot<Genesis>,
    pub(crate) ledgers: Vec<Ledger>,
    order: Vec<u8>,
}

impl Model for World {
    ghost use Rattle.ibc_refinement.specs.World.{WorldState};
    ghost use Rattle.ibc_world_core.specs.WorldFields.{state_of, IsSoundWorld};

    ghost Value = { WorldState };

    ghost view = { state_of };

    ghost invariant = { IsSoundWorld };
}

impl World {
    /// The world of a genesis in the beginning. Refused: `BadMessage` exactly where the genesis isn't allowed; `NoMemory`.
    pub fn new(alloc: Global, genesis: &Genesis) -> Result<World, Refusal>
        ensures genesis { IfOk result (λ world. world.genesis ≡ genesis_state genesis.now) }
        ensures ledgers { IfOk result (λ world. AreNew (genesis_state genesis.now) world.ledgers) }
        ensures order { IfOk result (λ world. world.order ≡ []) }
        ensures bad { (result ≡ Err BadMessage) ↔ (is_allowed (genesis_state genesis.now) ≡ false) }
        ensures err { IfErr result (λ refusal. (refusal ≡ BadMessage) ⊎ (refusal ≡ NoMemory)) }
    {
        if !is_allowed(genesis) {
            return Err(Refusal::BadMessage);
        }
        match ledgers_of(alloc, genesis) {
            Ok(ledgers) => Ok(World {
                alloc,
                genesis: Snapshot::of(genesis),
                ledgers,
                order: Vec::new(alloc),
            }),
            Err(_) => Err(Refusal::NoMemory),
        }
    }

    /// Asks the chain of an event for it, and answers with its reply. Where a growth was refused the reply is `NoMemory`, and
    /// where there is no chain of the event's number it is `UnknownChain`: then no entry was added. Else the event with its
    /// reply is the last of the entries that the world keeps, and all before it stand as they stood.
    pub fn step(&mut self, event: Event) -> Reply
        ensures step { IsStep self.old event result self.new }
        ensures runs { GoesOnBy self.old (event ∷ []) (result ∷ []) self.new }
        ensures past { HasItsPast self.new }
    {
        let reply = put(self.ledgers.as_mut_slice(), &mut self.order, event);
        meet_all(self.ledgers.as_mut_slice());
        reply
    }

    /// Asks the chains for the events, one after another as `step` does, and answers with a reply for each. Refused: `NoMemory`,
    /// where there is no room for the replies. Then nothing was done, and the events are handed back.
    pub fn run(&mut self, events: Vec<Event>) -> Result<Vec<Reply>, NotRun>
        ensures runs { IfOk result (λ replies. GoesOnBy self.old events.items replies.items self.new) }
        ensures past { HasItsPast self.new }
        ensures err { IfErr result (λ not_run. not_run.refusal ≡ NoMemory) }
        ensures handed_back { IfErr result (λ not_run. not_run.events.items ≡ events.items) }
        ensures unchanged { OnErr result (self.new ≡ self.old) }
    {
        let Ok(mut replies) = Vec::with_capacity(self.alloc, events.len()) else {
            return Err(NotRun {
                refusal: Refusal::NoMemory,
                events,
            });
        };
        for event in events {
            replies.push_reserved(self.step(event));
        }
        Ok(replies)
    }

    /// A world has its past: the entries that it keeps are a run since genesis to the states of its ledgers.
    pub fn lemma_has_past(&self)
        ensures { HasItsPast self.now }
    {
        let _ = &self.ledgers;
    }

    /// The ledgers, in the order of their numbers. They can be driven apart, and gathered by `audit`.
    pub fn into_ledgers(self) -> Vec<Ledger>
        ensures ledgers { ledgers_alone result.items ≡ self.ledgers }
        ensures world { AreOfOneWorld result.items }
    {
        self.ledgers
    }

    /// The ledger of a chain, or none.
    pub fn ledger(&self, chain: u8) -> Option<&Ledger>
        ensures { option_map (λ ledger. ledger.now.ledger) result ≡ slice_get self.now.ledgers chain }
    {
        self.ledgers.get(usize::from(chain))
    }
}

// Puts an event to the ledger of its chain, where there is one, and keeps the order.
fn put(ledgers: &mut [Ledger], order: &mut Vec<u8>, event: Event) -> Reply
    requires { AreNumbered ledgers.old }
    ensures put { IsPutTo ledgers.old order.old.items event result ledgers.new order.new.items }
    ensures tables { SameTables ledgers.old ledgers.new }
{
    let chain = chain_of(&event);
    if usize::from(chain) >= ledgers.len() {
        drop(event);
        return Reply::No(Refusal::UnknownChain);
    }
    let Ok(()) = order.reserve(1) else {
        drop(event);
        return Reply::No(Refusal::NoMemory);
    };
    let reply = ask(&mut ledgers[usize::from(chain)], event);
    if adds_an_entry(&reply) {
        order.push_reserved(chain);
    }
    reply
}

// Whether a ledger that answered so has one entry more.
fn adds_an_entry(reply: &Reply) -> bool
    ensures { (result ≡ true) ↔ (reply.now ≡ reply_of.No NoMemory → ⊥) }
{
    match reply {
        Reply::No(Refusal::NoMemory) => false,
        _ => true,
    }
}

// The number of an event's chain.
fn chain_of(event: &Event) -> u8
    ensures { result ≡ chain_of event.now }
{
    match event {
        Event::Message { chain, .. } => *chain,
        Event::Block { chain, .. } => *chain,
    }
}

// Asks a ledger for an event of its chain.
fn ask(ledger: &mut Ledger, event: Event) -> Reply
    requires { chain_of event ≡ ledger.old.ledger.chain }
    ensures table { ledger.new.table ≡ ledger.old.table }
    ensures adds { AddsOrNot ledger.old.ledger event result ledger.new.ledger }
{
    match event {
        Event::Message { message, .. } => ledger.apply(message),
        Event::Block { next_time, .. } => ledger.end_block(next_time),
    }
}

// The table of a genesis, and the ledgers of its chains.
fn ledgers_of(alloc: Global, genesis: &Genesis) -> Result<Vec<Ledger>, Refusal>
    requires { IsTrue (is_allowed (genesis_state genesis.now)) }
    ensures ok { IfOk result (λ all. AreBegunTogether (genesis_state genesis.now) all.items) }
    ensures err { IsOkUnless result NoMemory }
{
    let chains = genesis.chains.len() as u8;
    let (table, passes) = RootTable::new(alloc, chains, 0, genesis.window, genesis.capacity)?;
    let table = Arc::new(alloc, table)?;
    begin(alloc, genesis, &table, passes)
}

// The ledgers of a genesis at a table.
fn begin(
    alloc: Global,
    genesis: &Genesis,
    table: &Arc<RootTable, Global>,
    passes: Vec<Pass>,
) -> Result<Vec<Ledger>, Refusal>
    requires allowed { IsTrue (is_allowed (genesis_state genesis.now)) }
    requires table { table.now.value.shape ≡ shape_of (genesis_state genesis.now) }
    requires passes { AreDealt (length genesis.now.chains.items) 0 table.now.value passes.items }
    ensures ok { IfOk result (λ all. AreBegun (genesis_state genesis.now) table.now.value all.items) }
    ensures err { IsOkUnless result NoMemory }
{
    let mut ledgers = Vec::with_capacity(alloc, passes.len())?;
    for pass in passes {
        let chain = ledgers.len() as u8;
        let table = Arc::try_clone(table)?;
        ledgers.push(Ledger::new(alloc, genesis, chain, table, pass)?)?;
    }
    Ok(ledgers)
}
