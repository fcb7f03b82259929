//! Stored entries are put to a world again, and each answer is compared with the stored one.

ghost use Rattle.std.specs.Prelude.{◌≡◌, ◌≢◌, ◌↔◌, ◌+◌, ◌<◌, ◌^◌, [], ◌∷◌, Err, false, length, map, IfOk, IfErr, OnOk, IsTrue};
ghost use Rattle.ibc_machine.specs.chain.Genesis.{genesis_state, is_allowed};
ghost use Rattle.ibc_machine.specs.ledger.Ledgers.{chain_of};
ghost use Rattle.ibc_refinement.specs.World.{WorldState};
ghost use Rattle.ibc_refinement.specs.Steps.{is_answered};
ghost use Rattle.ibc_world_core.specs.EveryWorld.{IsLawfulUnlessClash};
ghost use Rattle.ibc_replay.specs.declared.replaying.Difference.TheVariants.{NoGenesis, At};
ghost use Rattle.ibc_replay.specs.Replays.{GoesOnAsStored, IsReplay, StopsBy, StopsAt, IsDifference, HasLastReading, IsLastReading};

use ibc_ids::Refusal;
use ibc_ledger::StampedEntry;
use ibc_machine::{Entry, Event, Genesis, Reading, Reply};
use ibc_world_core::{World, lemma_what_every_world_keeps};
use std::alloc::Global;

/// What a world answered to an event: the reply, and what was read where the event was an update of a client that looked.
#[derive(Debug, PartialEq, Eq, Drop)]
pub struct Answered {
    pub reply: Reply,
    pub reading: Option<Reading>,
}

/// Why no world is made again of stored entries. Places are counted from 0.
#[derive(Debug, PartialEq, Eq, Drop)]
pub enum Difference {
    /// No world begins so.
    NoGenesis,
    /// The entries before this place are as they are due. At it another answer is due than the stored one.
    At {
        place: usize,
        due: Answered,
        stored: Answered,
    },
    /// The entries before this place are as they are due. At it stands an event for a chain that the genesis doesn't have, and of
    /// such an event no world keeps an entry.
    UnknownChain {
        place: usize,
        stored: Answered,
    },
    /// A growth was refused.
    NoMemory,
}

/// The world of a genesis that kept just these entries, in their order. It is made by asking for their events again, and each
/// reply and reading is compared with the stored one. An entry whose reply is `NoMemory` is never as it is due, since a world
/// keeps no such entry. Error: the first place where another answer is due, or where no entry is; `NoGenesis` exactly where
/// the genesis isn't allowed; `NoMemory`.
pub fn replay(alloc: Global, genesis: &Genesis, entries: Vec<Entry>) -> Result<World, Difference>
    ensures replayed { IfOk result (λ world. IsReplay (genesis_state genesis.now) entries.items world) }
    ensures different { IfErr result (λ e. IsDifference (genesis_state genesis.now) entries.items e) }
    ensures genesis { (result ≡ Err NoGenesis) ↔ (is_allowed (genesis_state genesis.now) ≡ false) }
{
    match World::new(alloc, genesis) {
        Ok(world) => replay_from(world, entries),
        Err(Refusal::BadMessage) => {
            drop(entries);
            Err(Difference::NoGenesis)
        }
        Err(_) => {
            drop(entries);
            Err(Difference::NoMemory)
        }
    }
}

/// Goes on as stored entries say, of which the first has this place: a history can be replayed in pieces. Error: as of
/// `replay`. Where another answer is due, the world keeps the entry that is.
pub fn replay_on(world: &mut World, first: usize, entries: Vec<Entry>) -> Result<(), Difference>
    requires { first + length entries.items < 2 ^ 64 }
    ensures replayed { OnOk result (GoesOnAsStored world.old entries.items world.new) }
    ensures different { IfErr result (λ why. StopsBy world.old first entries.items why world.new) }
{
    let mut place = first;
    for stored in entries {
        step_as_stored(world, place, stored)?;
        place += 1;
    }
    Ok(())
}

// The world that goes on as the entries say.
fn replay_from(world: World, entries: Vec<Entry>) -> Result<World, Difference>
    ensures replayed { IfOk result (λ after. GoesOnAsStored world entries.items after) }
    ensures lawful { IfOk result IsLawfulUnlessClash }
    ensures different { IfErr result (λ e. (w : WorldState) × StopsBy world 0 entries.items e w) }
{
    let mut world = world;
    match replay_on(&mut world, 0, entries) {
        Ok(()) => {
            lemma_what_every_world_keeps(&world);
            Ok(world)
        }
        Err(why) => {
            drop(world);
            Err(why)
        }
    }
}

// Puts the event of an entry to the world, and compares the answer.
fn step_as_stored(world: &mut World, place: usize, stored: Entry) -> Result<(), Difference>
    ensures replayed { OnOk result (GoesOnAsStored world.old (stored ∷ []) world.new) }
    ensures different { IfErr result (λ why. StopsAt world.old place stored why world.new) }
{
    let Entry {
        event,
        reply,
        reading,
    } = stored;
    let stored = Answered { reply, reading };
    let chain = chain_of(&event);
    if !has_chain(world, chain) {
        drop(event);
        return Err(Difference::UnknownChain { place, stored });
    }
    let reply = world.step(event);
    if !is_answered(&reply) {
        drop(reply);
        drop(stored);
        return Err(Difference::NoMemory);
    }
    let reading = last_reading(world, chain);
    compare(place, Answered { reply, reading }, stored)
}

// Whether what is due is what is stored.
fn compare(place: usize, due: Answered, stored: Answered) -> Result<(), Difference>
    ensures same { OnOk result (due ≡ stored) }
    ensures other { IfErr result (λ why. (why ≡ At place due stored) × (due ≢ stored)) }
{
    if is_same(&due, &stored) {
        Ok(())
    } else {
        Err(Difference::At { place, due, stored })
    }
}

fn is_same(due: &Answered, stored: &Answered) -> bool
    ensures { IsTrue result ↔ (due.now ≡ stored.now) }
{
    is_same_reply(&due.reply, &stored.reply) && is_same_reading(due.reading, stored.reading)
}

fn is_same_reply(due: &Reply, stored: &Reply) -> bool
    ensures { IsTrue result ↔ (due.now ≡ stored.now) }
{
    due == stored
}

fn is_same_reading(due: Option<Reading>, stored: Option<Reading>) -> bool
    ensures { IsTrue result ↔ (due ≡ stored) }
{
    due == stored
}

// The number of an event's chain.
fn chain_of(event: &Event) -> u8
    ensures { result ≡ chain_of event.now }
{
    match event {
        Event::Message { chain, .. } => *chain,
        Event::Block { chain, .. } => *chain,
    }
}

// Whether a world has a chain of this number.
fn has_chain(world: &World, chain: u8) -> bool
    ensures { IsTrue result ↔ (chain < length world.now.ledgers) }
{
    world.ledger(chain).is_some()
}

// Whether memory didn't run out.
fn is_answered(reply: &Reply) -> bool
    ensures { result ≡ is_answered reply.now }
{
    !matches!(reply, Reply::No(Refusal::NoMemory))
}

// What was read for the last entry of a chain.
fn last_reading(world: &World, chain: u8) -> Option<Reading>
    ensures { HasLastReading world.now chain result }
{
    match world.ledger(chain) {
        Some(ledger) => last_in(ledger.history()),
        None => None,
    }
}

// What was read for the last entry of a history.
fn last_in(history: &[StampedEntry]) -> Option<Reading>
    ensures { IsLastReading (map (λ e. e.entry) history.now) result }
{
    match history {
        [.., last] => last.entry.reading,
        [] => None,
    }
}
