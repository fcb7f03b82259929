//! Stored entries of one chain are put to its ledger again, which reads what the other chains published.

ghost use Rattle.std.specs.Prelude.{◌≡◌, ◌≢◌, ◌↔◌, ◌<◌, [], Err, false, length, IfOk, IfErr, IfSome, OnOk, IsTrue, IsOkUnless};
ghost use Rattle.ibc_ids.specs.declared.refusal.Refusal.TheVariants.{NoMemory};
ghost use Rattle.ibc_machine.specs.chain.Genesis.{genesis_state, is_allowed};
ghost use Rattle.ibc_machine.specs.ledger.Ledgers.{chain_of};
ghost use Rattle.ibc_root_table.specs.Passes.{AreDealt};
ghost use Rattle.ibc_ledger.specs.LedgerModel.{shape_of};
ghost use Rattle.ibc_ledger.specs.HistoryGrowth.{AddsOrNot};
ghost use Rattle.ibc_chain_replay.specs.declared.replaying.ChainDifference.TheVariants.{NoGenesis, At};
ghost use Rattle.ibc_replay.specs.Replays.{entry_of};
ghost use Rattle.ibc_chain_replay.specs.ChainReplays.{IsUnasked};
ghost use Rattle.ibc_chain_replay.specs.StoredLedgers.{IsReplayOf, DiffersAs, HasHistoryAs, LedgerDiffersBy, AddsStored, StopsAs};

use crate::answers::{chain_of, header_in, is_answered, is_same, last_in};
use crate::published::{heights_of, is_enough, is_published_reading};
use crate::publishing::{Publisher, publish_up_to, publishers_of};
use ibc_ids::{Refusal, Root};
use ibc_ledger::{Ledger, is_allowed};
use ibc_machine::{Entry, Event, Genesis, Reading, Reply};
use ibc_replay::Answered;
use ibc_root_table::{Pass, RootTable};
use ibc_wire::Header;
use std::alloc::Global;
use std::sync::Arc;

/// Why no ledger is made again of the entries that were stored of one chain. Places are counted from 0.
#[derive(Debug, PartialEq, Eq, Drop)]
pub enum ChainDifference {
    /// No world begins so.
    NoGenesis,
    /// The entries before this place are as they are due. At it another answer is due than the stored one.
    At {
        place: usize,
        due: Answered,
        stored: Answered,
    },
    /// The entries before this place are as they are due. At it more heights were read than the header's chain published.
    NotPublished {
        place: usize,
        stored: Answered,
    },
    /// The entries before this place are as they are due. At it stands an event for another chain.
    OtherChain {
        place: usize,
        stored: Answered,
    },
    /// A growth was refused.
    NoMemory,
}

/// The ledger of a chain of a genesis whose history is just these entries, in their order, where the chains published these
/// heights: of each chain, by its number, the root and the time of each height from 1 on. Those of the ledger's own chain aren't
/// looked at. The ledger is made by asking for the events again, and each reply and reading is compared with the stored one.
/// At an update it reads as many heights as the entry says, or as many as were read before where these are more. Error: the first
/// place where another answer is due, where more was read than was published, or where the event is for another chain;
/// `NoGenesis` exactly where the genesis isn't allowed; `NoMemory`.
///
/// Chains that threads share may read a row as gone just before it is. Such a reading is told as a difference of readings.
pub fn replay_chain(
    alloc: Global,
    genesis: &Genesis,
    chain: u8,
    published: &[Vec<(Root, u64)>],
    entries: Vec<Entry>,
) -> Result<Ledger, ChainDifference>
    requires { chain < length genesis.now.chains.items }
    ensures replayed { IfOk result (λ l. IsReplayOf genesis.now chain published.now entries.items l) }
    ensures different { IfErr result (λ e. DiffersAs genesis.now chain published.now entries.items e) }
    ensures genesis { (result ≡ Err NoGenesis) ↔ (is_allowed (genesis_state genesis.now) ≡ false) }
{
    if !is_allowed(genesis) {
        drop(entries);
        return Err(ChainDifference::NoGenesis);
    }
    match begin(alloc, genesis, chain) {
        Ok(begun) => {
            let (ledger, publishers) = begun;
            replay_from(ledger, publishers, published, entries)
        }
        Err(_) => {
            drop(entries);
            Err(ChainDifference::NoMemory)
        }
    }
}

// The ledger of a chain in the beginning, and what publishes for the other chains.
fn begin(alloc: Global, genesis: &Genesis, chain: u8) -> Result<(Ledger, Vec<Publisher>), Refusal>
    requires allowed { IsTrue (is_allowed (genesis_state genesis.now)) }
    requires chain { chain < length genesis.now.chains.items }
    ensures ok { IfOk result (λ begun. IsUnasked (genesis_state genesis.now) chain begun.0.ledger) }
    ensures err { IsOkUnless result NoMemory }
{
    let chains = genesis.chains.len() as u8;
    let (table, passes) = RootTable::new(alloc, chains, 0, genesis.window, genesis.capacity)?;
    let table = Arc::new(alloc, table)?;
    begin_at(alloc, genesis, chain, table, passes)
}

// The same, with a table and its passes.
fn begin_at(
    alloc: Global,
    genesis: &Genesis,
    chain: u8,
    table: Arc<RootTable, Global>,
    passes: Vec<Pass>,
) -> Result<(Ledger, Vec<Publisher>), Refusal>
    requires allowed { IsTrue (is_allowed (genesis_state genesis.now)) }
    requires chain { chain < length genesis.now.chains.items }
    requires table { table.value.shape ≡ shape_of (genesis_state genesis.now) }
    requires passes { AreDealt (length genesis.now.chains.items) 0 table.value passes.items }
    ensures ok { IfOk result (λ begun. IsUnasked (genesis_state genesis.now) chain begun.0.ledger) }
    ensures err { IsOkUnless result NoMemory }
{
    let mut others = passes;
    let pass = others.remove(usize::from(chain));
    let publishers = publishers_of(alloc, &table, others)?;
    let ledger = Ledger::new(alloc, genesis, chain, table, pass)?;
    Ok((ledger, publishers))
}

// The ledger that goes on as the entries say.
fn replay_from(
    ledger: Ledger,
    publishers: Vec<Publisher>,
    published: &[Vec<(Root, u64)>],
    entries: Vec<Entry>,
) -> Result<Ledger, ChainDifference>
    requires { ledger.ledger.history ≡ [] }
    ensures replayed { IfOk result (λ after. HasHistoryAs ledger published.now entries.items after) }
    ensures different { IfErr result (LedgerDiffersBy ledger published.now entries.items) }
{
    let mut ledger = ledger;
    let mut publishers = publishers;
    ledger.lemma_is_its_history();
    match replay_entries(&mut ledger, publishers.as_mut_slice(), published, entries) {
        Ok(()) => {
            drop(publishers);
            Ok(ledger)
        }
        Err(why) => {
            drop(publishers);
            drop(ledger);
            Err(why)
        }
    }
}

// Goes on as the entries say.
fn replay_entries(
    ledger: &mut Ledger,
    publishers: &mut [Publisher],
    published: &[Vec<(Root, u64)>],
    entries: Vec<Entry>,
) -> Result<(), ChainDifference>
    requires { HasHistoryAs ledger.old published.now [] ledger.old }
    ensures replayed { OnOk result (HasHistoryAs ledger.old published.now entries.items ledger.new) }
    ensures different { IfErr result (LedgerDiffersBy ledger.old published.now entries.items) }
{
    let mut place = 0;
    for stored in entries {
        step_as_stored(ledger, publishers, published, place, stored)?;
        place += 1;
    }
    Ok(())
}

// Puts the event of an entry to the ledger, and compares the answer.
fn step_as_stored(
    ledger: &mut Ledger,
    publishers: &mut [Publisher],
    published: &[Vec<(Root, u64)>],
    place: usize,
    stored: Entry,
) -> Result<(), ChainDifference>
    ensures replayed { OnOk result (AddsStored published.now ledger.old stored ledger.new) }
    ensures different { IfErr result (λ e. StopsAs published.now ledger.old place stored e ledger.new) }
{
    let Entry {
        event,
        reply,
        reading,
    } = stored;
    let stored = Answered { reply, reading };
    let own = ledger.chain();
    let asked = chain_of(&event);
    if asked != own {
        drop(event);
        return Err(ChainDifference::OtherChain { place, stored });
    }
    let header = header_in(&event);
    if !is_enough(published, header, reading) {
        drop(event);
        return Err(ChainDifference::NotPublished { place, stored });
    }
    let brought = header_in(&event);
    publish_as_read(publishers, own, published, brought, reading);
    match answer(ledger, published, event) {
        Some(due) => compare(place, due, stored),
        None => {
            drop(stored);
            Err(ChainDifference::NoMemory)
        }
    }
}

// Has the header's chain publish as many heights as were read.
fn publish_as_read(
    publishers: &mut [Publisher],
    own: u8,
    published: &[Vec<(Root, u64)>],
    header: Option<Header>,
    reading: Option<Reading>,
) {
    let (Some(header), Some(reading)) = (header, reading) else {
        return;
    };
    let heights = heights_of(published, header.chain);
    publish_up_to(publishers, own, header.chain, heights, reading.published);
}

// What is due at an event of the ledger's chain, or none where a growth is refused. That the ledger read what nobody published,
// which it never does, is told as want of memory.
fn answer(ledger: &mut Ledger, published: &[Vec<(Root, u64)>], event: Event) -> Option<Answered>
    requires { chain_of event ≡ ledger.old.ledger.chain }
    ensures { IfSome result (λ d. AddsStored published.now ledger.old (entry_of event d) ledger.new) }
{
    let header = header_in(&event);
    let reply = ask(ledger, event);
    if !is_answered(&reply) {
        drop(reply);
        return None;
    }
    ledger.lemma_is_its_history();
    let reading = last_in(ledger.history());
    if !is_published_reading(published, header, &reply, reading) {
        drop(reply);
        return None;
    }
    Some(Answered { reply, reading })
}

// Whether what is due is what is stored.
fn compare(place: usize, due: Answered, stored: Answered) -> Result<(), ChainDifference>
    ensures same { OnOk result (due ≡ stored) }
    ensures other { IfErr result (λ why. (why ≡ At place due stored) × (due ≢ stored)) }
{
    if is_same(&due, &stored) {
        drop(due);
        drop(stored);
        Ok(())
    } else {
        Err(ChainDifference::At { place, due, stored })
    }
}

// Asks a ledger for an event of its chain.
fn ask(ledger: &mut Ledger, event: Event) -> Reply
    requires { chain_of event ≡ ledger.old.ledger.chain }
    ensures { AddsOrNot ledger.old.ledger event result ledger.new.ledger }
{
    match event {
        Event::Message { message, .. } => ledger.apply(message),
        Event::Block { next_time, .. } => ledger.end_block(next_time),
    }
}
