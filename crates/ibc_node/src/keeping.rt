//! A world is asked for an event, and what its journal keeps of that is made.

ghost use Rattle.std.specs.Prelude.{◌≡◌, ◌↔◌, ◌⊎◌, ◌<◌, ◌≤◌, length, map, option_map, Ok, IfErr, IfOk, IsErrOf, IsOkAnd, IsTrue, OnOk};
ghost use Rattle.ibc_ids.specs.declared.refusal.Refusal.TheVariants.{BadMessage, NoMemory};
ghost use Rattle.ibc_wire.specs.Fields.{have_form};
ghost use Rattle.ibc_wire.specs.Messages.{message_fields};
ghost use Rattle.ibc_entry_codec.specs.Stored.{event_fields};
ghost use Rattle.ibc_machine.specs.ledger.Ledgers.{chain_of};
ghost use Rattle.ibc_refinement.specs.Steps.{is_answered};
ghost use Rattle.ibc_journal.specs.Entries.{item};
ghost use Rattle.ibc_journal.specs.Digests.{digest_after};
ghost use Rattle.ibc_node.specs.Kept.{bytes_in, HasSpelling, IsAsked, IsNotAsked, IsBy, IsLastEntry, StoresLast, KeepsLast};

use crate::NodeFault;
use ibc_entry_codec::{EntryBytes, store};
use ibc_ids::Refusal;
use ibc_journal::{JournalEntry, entry_behind};
use ibc_ledger::StampedEntry;
use ibc_machine::{Entry, Event, Reply};
use ibc_message_codec::encode;
use ibc_wire::Message;
use ibc_world_core::World;
use std::alloc::Global;

/// What came of an event.
#[derive(Debug, Drop)]
pub(crate) enum Asked {
    /// The world has kept an entry: what it answered, and what the journal keeps of it.
    Kept { reply: Reply, entry: JournalEntry },
    /// It has kept none, for want of a chain or of memory, or since no bytes spell the event.
    NotKept(Refusal),
}

/// Asks a world for an event, and makes the entry for its journal, behind one with this digest. A world that has no such chain isn't asked,
/// and none for what no bytes spell.
pub(crate) fn ask(
    alloc: Global,
    world: &mut World,
    before: &[u8; 32],
    log_place: u32,
    event: Event,
) -> Result<Asked, NodeFault>
    ensures asked { IfOk result (λ asked. IsAsked world.old before.now event asked world.new) }
    ensures by { IfOk result (IsBy log_place) }
    ensures faults { IfErr result (λ fault. fault ≡ NodeFault.NoMemory) }
    ensures unknown { length world.old.ledgers ≤ chain_of event → result ≡ Ok (Asked.NotKept Refusal.UnknownChain) }
    ensures unspelt { ¬ HasSpelling event → IsOkAnd result (λ a. IsNotAsked world.old a world.new) }
{
    let chain = chain_of(&event);
    if !has_chain(world, chain) {
        drop(event);
        return Ok(Asked::NotKept(Refusal::UnknownChain));
    }
    match spell(alloc, &event) {
        Ok(()) => ask_chain(alloc, world, before, log_place, event),
        Err(refusal) => {
            drop(event);
            Ok(Asked::NotKept(refusal))
        }
    }
}

// Asks a world that has the chain of the event, and makes the entry.
fn ask_chain(
    alloc: Global,
    world: &mut World,
    before: &[u8; 32],
    log_place: u32,
    event: Event,
) -> Result<Asked, NodeFault>
    requires { chain_of event < length world.old.ledgers }
    ensures asked { IfOk result (λ asked. IsAsked world.old before.now event asked world.new) }
    ensures by { IfOk result (IsBy log_place) }
    ensures faults { IfErr result (λ fault. fault ≡ NodeFault.NoMemory) }
{
    let chain = chain_of(&event);
    let reply = world.step(event);
    if !is_answered(&reply) {
        drop(reply);
        return Ok(Asked::NotKept(Refusal::NoMemory));
    }
    match keep_last(alloc, world, chain, before, log_place) {
        Ok(entry) => Ok(Asked::Kept { reply, entry }),
        Err(fault) => {
            drop(reply);
            Err(fault)
        }
    }
}

/// The number of an event's chain.
pub(crate) fn chain_of(event: &Event) -> u8
    ensures { result ≡ chain_of event.now }
{
    match event {
        Event::Message { chain, .. } => *chain,
        Event::Block { chain, .. } => *chain,
    }
}

// Whether a world has a chain of this number.
fn has_chain(world: &World, chain: u8) -> bool
    ensures { IsTrue result ↔ (chain < length world.now.ledgers) }
{
    world.ledger(chain).is_some()
}

// Whether an event can be kept. Refused: `BadMessage` where no bytes spell it; `NoMemory`.
#[tactic(auto, using(crate::proofs::KeptEntries::time_form))]
fn spell(alloc: Global, event: &Event) -> Result<(), Refusal>
    ensures ok { OnOk result (HasSpelling event.now) }
    ensures bad { IsErrOf result BadMessage → ¬ IsTrue (have_form (event_fields event.now)) }
    ensures errors { IfErr result (λ e. (e ≡ BadMessage) ⊎ (e ≡ NoMemory)) }
{
    match event {
        Event::Message { message, .. } => spell_message(alloc, message),
        Event::Block { next_time, .. } => {
            let _time = *next_time;
            Ok(())
        }
    }
}

// Whether bytes spell a message. Refused: `BadMessage` where none do; `NoMemory`.
fn spell_message(alloc: Global, message: &Message) -> Result<(), Refusal>
    ensures ok { OnOk result (IsTrue (have_form (message_fields message.now))) }
    ensures bad { IsErrOf result BadMessage → ¬ IsTrue (have_form (message_fields message.now)) }
    ensures errors { IfErr result (λ e. (e ≡ BadMessage) ⊎ (e ≡ NoMemory)) }
{
    let bytes = encode(alloc, message)?;
    drop(bytes);
    Ok(())
}

// Whether memory didn't run out.
fn is_answered(reply: &Reply) -> bool
    ensures { result ≡ is_answered reply.now }
{
    !matches!(reply, Reply::No(Refusal::NoMemory))
}

// What the journal keeps of the last entry of a chain, behind an entry with this digest.
fn keep_last(
    alloc: Global,
    world: &World,
    chain: u8,
    before: &[u8; 32],
    log_place: u32,
) -> Result<JournalEntry, NodeFault>
    ensures kept { IfOk result (λ entry. KeepsLast world.now chain before.now (item entry)) }
    ensures by { IfOk result (λ entry. (item entry).log_place ≡ log_place) }
    ensures faults { IfErr result (λ fault. fault ≡ NodeFault.NoMemory) }
{
    let stored = store_last(alloc, world, chain)?;
    let entry = behind(alloc, before, log_place, &stored);
    drop(stored);
    entry
}

// What is kept of the last entry of a chain.
fn store_last(alloc: Global, world: &World, chain: u8) -> Result<EntryBytes, NodeFault>
    ensures stored { IfOk result (StoresLast world.now chain) }
    ensures faults { IfErr result (λ fault. fault ≡ NodeFault.NoMemory) }
{
    let Some(ledger) = world.ledger(chain) else {
        return Err(NodeFault::NoMemory);
    };
    let Some(entry) = last_in(ledger.history()) else {
        return Err(NodeFault::NoMemory);
    };
    match store(alloc, entry) {
        Ok(stored) => Ok(stored),
        Err(_) => Err(NodeFault::NoMemory),
    }
}

// The last entry of a history.
fn last_in(history: &[StampedEntry]) -> Option<&Entry>
    ensures { IsLastEntry (map (λ e. e.entry) history.now) (option_map (λ entry. entry.now) result) }
{
    match history {
        [.., last] => Some(&last.entry),
        [] => None,
    }
}

// The entry of what is kept, behind one with this digest.
fn behind(
    alloc: Global,
    before: &[u8; 32],
    log_place: u32,
    stored: &EntryBytes,
) -> Result<JournalEntry, NodeFault>
    ensures bytes { IfOk result (λ entry. bytes_in (item entry) ≡ stored.now) }
    ensures due { IfOk result (λ entry. (item entry).digest ≡ digest_after before.now (item entry)) }
    ensures by { IfOk result (λ entry. (item entry).log_place ≡ log_place) }
    ensures faults { IfErr result (λ fault. fault ≡ NodeFault.NoMemory) }
{
    let event = Vec::from_slice(alloc, stored.event.as_slice())?;
    let answer = Vec::from_slice(alloc, stored.answer.as_slice())?;
    let chain = u32::from(stored.chain);
    let kind = u32::from(stored.kind);
    Ok(entry_behind(alloc, before, chain, kind, log_place, event, answer)?)
}
