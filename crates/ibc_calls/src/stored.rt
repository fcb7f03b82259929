//! What a journal keeps of the entries of ledgers, and lists of such entries.

ghost use Rattle.std.specs.Prelude.{◌≡◌, ◌⊎◌, ◌<◌, ◌^◌, IfOk, IfErr, IsErrOf, Some};
ghost use Rattle.ibc_ids.specs.declared.refusal.Refusal.TheVariants.{BadMessage, NoMemory};
ghost use Rattle.ibc_machine.specs.declared.entry.Entry.{Entry as AnEntry};
ghost use Rattle.ibc_entry_codec.specs.Stored.{HasForm, StoresEntry};
ghost use Rattle.ibc_calls.specs.declared.answer.Refused.TheVariants.{Core};
ghost use Rattle.ibc_calls.specs.StoredEntries.{AddsEntry, AreWritten, EntriesGoOn, EntryAdded, FindsEntry, IsRestored, IsStored, MakesEntries, TellsStored, WritesStoredBytes, WritesStoredEntry, both_answers};

use crate::Refused;
use crate::handles::{put_new, write_out};
use crate::packets::copy_of;
use ibc_entry_codec::{EntryBytes, restore, store};
use ibc_handle::{Handle, HandleValue};
use ibc_ids::Refusal;
use ibc_machine::Entry;
use std::alloc::Global;

/// What a journal keeps of an entry beside its bytes: the number of its chain, and its kind, 0 for the end of a block and 1 for a message.
#[repr(C)]
#[derive(Clone, Copy, Debug, PartialEq, Eq, Drop)]
pub struct EntryNumbers {
    pub chain: u32,
    pub kind: u32,
}

/// Tells what a journal keeps of an entry of a ledger's history, which are numbered from 0, and writes the bytes of its event and those of
/// its answer, each to a place of its own. Refused: `Empty`; `OtherKind`; `NothingThere` where there is no such entry;
/// `Core(BadMessage)` where the entry has no spelling; `Core(NoMemory)`: then nothing is told. `TooShort` where a place is too short: then the
/// numbers and both sizes are told, and the other place is written where it has room.
#[tactic(auto, unfolding(crate::specs::StoredEntries::TellsStored))]
pub fn history_stored(
    alloc: Global,
    ledger: &mut Handle,
    index: u64,
    numbers: &mut EntryNumbers,
    event: &mut [u8],
    event_size: &mut usize,
    answer: &mut [u8],
    answer_size: &mut usize,
) -> Result<(), Refused>
    ensures kept { ledger.new.value ≡ ledger.old.value }
    ensures told { TellsStored index ledger.old.value (record { numbers = numbers.old; event = event.old; event_size = event_size.old; answer = answer.old; answer_size = answer_size.old }) (record { numbers = numbers.new; event = event.new; event_size = event_size.new; answer = answer.new; answer_size = answer_size.new }) result }
{
    match ledger.take(alloc) {
        None => Err(Refused::Empty),
        Some(held) => {
            let told = stored_at(
                alloc,
                &held,
                index,
                numbers,
                event,
                event_size,
                answer,
                answer_size,
            );
            ledger.set(alloc, held);
            told
        }
    }
}

#[tactic(auto, unfolding(crate::specs::StoredEntries::TellsStored))]
fn stored_at(
    alloc: Global,
    held: &HandleValue,
    index: u64,
    numbers: &mut EntryNumbers,
    event: &mut [u8],
    event_size: &mut usize,
    answer: &mut [u8],
    answer_size: &mut usize,
) -> Result<(), Refused>
    ensures { TellsStored index (Some held.now) (record { numbers = numbers.old; event = event.old; event_size = event_size.old; answer = answer.old; answer_size = answer_size.old }) (record { numbers = numbers.new; event = event.new; event_size = event_size.new; answer = answer.new; answer_size = answer_size.new }) result }
{
    match held {
        HandleValue::Ledger(member) => match member.ledger.history().get(index as usize) {
            Some(stamped) => tell_stored(
                alloc,
                &stamped.entry,
                numbers,
                event,
                event_size,
                answer,
                answer_size,
            ),
            None => Err(Refused::NothingThere),
        },
        _ => Err(Refused::OtherKind),
    }
}

fn tell_stored(
    alloc: Global,
    entry: &Entry,
    numbers: &mut EntryNumbers,
    event: &mut [u8],
    event_size: &mut usize,
    answer: &mut [u8],
    answer_size: &mut usize,
) -> Result<(), Refused>
    ensures { WritesStoredEntry entry.now (record { numbers = numbers.old; event = event.old; event_size = event_size.old; answer = answer.old; answer_size = answer_size.old }) (record { numbers = numbers.new; event = event.new; event_size = event_size.new; answer = answer.new; answer_size = answer_size.new }) result }
{
    let found = stored_of(alloc, entry);
    write_found(found, numbers, event, event_size, answer, answer_size)
}

fn stored_of(alloc: Global, entry: &Entry) -> Result<EntryBytes, Refused>
    ensures { IsStored entry.now result }
{
    match kept_bytes(alloc, entry) {
        Ok(stored) => Ok(stored),
        Err(refused) => Err(refused),
    }
}

// What a journal keeps of the entry.
fn kept_bytes(alloc: Global, entry: &Entry) -> Result<EntryBytes, Refused>
    ensures ok { IfOk result (StoresEntry entry.now) }
    ensures none { IsErrOf result (Core BadMessage) → ¬ HasForm entry.now }
    ensures err { IfErr result (λ why. (why ≡ Core BadMessage) ⊎ (why ≡ Core NoMemory)) }
{
    match store(alloc, entry) {
        Ok(stored) => Ok(stored),
        Err(Refusal::BadMessage) => Err(Refused::Core(Refusal::BadMessage)),
        Err(_) => Err(Refused::Core(Refusal::NoMemory)),
    }
}

// Writes what is kept, where that was found.
fn write_found(
    found: Result<EntryBytes, Refused>,
    numbers: &mut EntryNumbers,
    event: &mut [u8],
    event_size: &mut usize,
    answer: &mut [u8],
    answer_size: &mut usize,
) -> Result<(), Refused>
    ensures { WritesStoredBytes found (record { numbers = numbers.old; event = event.old; event_size = event_size.old; answer = answer.old; answer_size = answer_size.old }) (record { numbers = numbers.new; event = event.new; event_size = event_size.new; answer = answer.new; answer_size = answer_size.new }) result }
{
    match found {
        Ok(stored) => {
            let told = write_stored(&stored, numbers, event, event_size, answer, answer_size);
            drop(stored);
            told
        }
        Err(refused) => Err(refused),
    }
}

fn write_stored(
    stored: &EntryBytes,
    numbers: &mut EntryNumbers,
    event: &mut [u8],
    event_size: &mut usize,
    answer: &mut [u8],
    answer_size: &mut usize,
) -> Result<(), Refused>
    ensures { AreWritten stored.now (record { numbers = numbers.old; event = event.old; event_size = event_size.old; answer = answer.old; answer_size = answer_size.old }) (record { numbers = numbers.new; event = event.new; event_size = event_size.new; answer = answer.new; answer_size = answer_size.new }) result }
{
    *numbers = EntryNumbers {
        chain: u32::from(stored.chain),
        kind: u32::from(stored.kind),
    };
    let first = write_out(stored.event.as_slice(), event, event_size);
    let second = write_out(stored.answer.as_slice(), answer, answer_size);
    both_answers(first, second)
}

// The first refusal of two answers.
fn both_answers(first: Result<(), Refused>, second: Result<(), Refused>) -> Result<(), Refused>
    ensures { result ≡ both_answers first second }
{
    match first {
        Ok(()) => second,
        Err(refused) => Err(refused),
    }
}

/// Makes a list with no entries in a handle that holds nothing. Refused: `Full`; `Core(NoMemory)`.
#[tactic(auto, unfolding(crate::specs::StoredEntries::MakesEntries))]
pub fn make_entries(alloc: Global, entries: &mut Handle) -> Result<(), Refused>
    ensures { MakesEntries entries.old.value entries.new.value result }
{
    if !entries.is_empty(alloc) {
        return Err(Refused::Full);
    }
    put_new(alloc, entries, HandleValue::Entries(Vec::new(alloc)))
}

/// Adds the entry of which a journal keeps this to a list, behind the others. Refused: `Empty`; `OtherKind`; `Core(BadMessage)` exactly
/// where this is kept of no entry; `Core(NoMemory)`. Then the list is as it was.
#[tactic(auto, unfolding(crate::specs::StoredEntries::EntryAdded))]
pub fn add_entry(
    alloc: Global,
    entries: &mut Handle,
    chain: u32,
    kind: u32,
    event: &[u8],
    answer: &[u8],
) -> Result<(), Refused>
    ensures { EntryAdded (record { chain = chain; kind = kind; event = event.now; answer = answer.now }) entries.old.value entries.new.value result }
{
    match entries.take(alloc) {
        None => Err(Refused::Empty),
        Some(held) => {
            let mut held = held;
            let added = add_entry_to(alloc, &mut held, chain, kind, event, answer);
            entries.set(alloc, held);
            added
        }
    }
}

fn add_entry_to(
    alloc: Global,
    held: &mut HandleValue,
    chain: u32,
    kind: u32,
    event: &[u8],
    answer: &[u8],
) -> Result<(), Refused>
    ensures { EntriesGoOn (AddsEntry (record { chain = chain; kind = kind; event = event.now; answer = answer.now })) held.old (Some held.new) result }
{
    match held {
        HandleValue::Entries(list) => entry_added(alloc, list, chain, kind, event, answer),
        _ => Err(Refused::OtherKind),
    }
}

#[tactic(auto, unfolding(crate::specs::StoredEntries::AddsEntry))]
fn entry_added(
    alloc: Global,
    list: &mut Vec<Entry>,
    chain: u32,
    kind: u32,
    event: &[u8],
    answer: &[u8],
) -> Result<(), Refused>
    ensures { AddsEntry (record { chain = chain; kind = kind; event = event.now; answer = answer.now }) list.old.items list.new.items result }
{
    let Ok(()) = list.reserve(1) else {
        return Err(Refused::Core(Refusal::NoMemory));
    };
    match entry_of(alloc, chain, kind, event, answer) {
        Ok(entry) => {
            list.push_reserved(entry);
            Ok(())
        }
        Err(refused) => Err(refused),
    }
}

// The entry of which this is kept. Refused: `Core(BadMessage)` exactly where it is kept of none; `Core(NoMemory)`.
fn entry_of(
    alloc: Global,
    chain: u32,
    kind: u32,
    event: &[u8],
    answer: &[u8],
) -> Result<Entry, Refused>
    ensures { FindsEntry (record { chain = chain; kind = kind; event = event.now; answer = answer.now }) result }
{
    let chain = byte_of(chain)?;
    let kind = byte_of(kind)?;
    let event = copy_of(alloc, event)?;
    let answer = copy_of(alloc, answer)?;
    read_back(
        alloc,
        EntryBytes {
            chain,
            kind,
            event,
            answer,
        },
    )
}

// The byte that a number is.
fn byte_of(number: u32) -> Result<u8, Refused>
    ensures ok { IfOk result (λ byte. (byte ≡ number) × (number < 2 ^ 8)) }
    ensures err { IfErr result (λ refused. (refused ≡ Core BadMessage) × ¬ (number < 2 ^ 8)) }
{
    if number < 256 {
        Ok(number as u8)
    } else {
        Err(Refused::Core(Refusal::BadMessage))
    }
}

fn read_back(alloc: Global, stored: EntryBytes) -> Result<Entry, Refused>
    ensures { IsRestored stored result }
{
    match restored(alloc, stored) {
        Ok(entry) => Ok(entry),
        Err(refused) => Err(refused),
    }
}

// The entry of which these bytes are kept.
fn restored(alloc: Global, stored: EntryBytes) -> Result<Entry, Refused>
    ensures ok { IfOk result (λ entry. StoresEntry entry stored) }
    ensures none { IsErrOf result (Core BadMessage) → (entry : AnEntry) → ¬ StoresEntry entry stored }
    ensures err { IfErr result (λ why. (why ≡ Core BadMessage) ⊎ (why ≡ Core NoMemory)) }
{
    let found = restore(alloc, &stored);
    drop(stored);
    match found {
        Ok(entry) => Ok(entry),
        Err(Refusal::BadMessage) => Err(Refused::Core(Refusal::BadMessage)),
        Err(_) => Err(Refused::Core(Refusal::NoMemory)),
    }
}
