//! What a journal keeps of a world, and the world that is made again of it.

ghost use Rattle.std.specs.Prelude.{◌≡◌, []};
ghost use Rattle.ibc_journal.specs.Digests.{first_digest};
ghost use Rattle.ibc_calls.specs.CallAnswers.{Numbered};
ghost use Rattle.ibc_calls.specs.Handles.{Finds, IsWritten};
ghost use Rattle.ibc_calls.specs.JournalDigests.{FindsDigest};
ghost use Rattle.ibc_calls.specs.ReplayedLedgers.{MakesReplayed};
ghost use Rattle.ibc_calls.specs.StoredEntries.{EntryAdded, MakesEntries, TellsStored};

use ibc_calls::{EntryNumbers, number};
use ibc_handle::Handle;
use std::alloc::Global;

/// Tells what a journal keeps of an entry of a ledger's history. As `history_stored`.
#[unsafe(no_mangle)]
pub extern "C" fn ibcw_stored(
    alloc: Global,
    ledger: &mut Handle,
    index: u64,
    numbers: &mut EntryNumbers,
    event: &mut [u8],
    event_size: &mut usize,
    answer: &mut [u8],
    answer_size: &mut usize,
) -> u32
    ensures kept { ledger.new.value ≡ ledger.old.value }
    ensures told { Numbered (TellsStored index ledger.old.value (record { numbers = numbers.old; event = event.old; event_size = event_size.old; answer = answer.old; answer_size = answer_size.old }) (record { numbers = numbers.new; event = event.new; event_size = event_size.new; answer = answer.new; answer_size = answer_size.new })) result }
{
    number(ibc_calls::history_stored(
        alloc,
        ledger,
        index,
        numbers,
        event,
        event_size,
        answer,
        answer_size,
    ))
}

/// Makes a list with no entries in an empty handle. As `make_entries`.
#[unsafe(no_mangle)]
pub extern "C" fn ibcw_make_entries(alloc: Global, entries: &mut Handle) -> u32
    ensures { Numbered (MakesEntries entries.old.value entries.new.value) result }
{
    number(ibc_calls::make_entries(alloc, entries))
}

/// Adds the entry of which a journal keeps this to a list. As `add_entry`.
#[unsafe(no_mangle)]
pub extern "C" fn ibcw_add_entry(
    alloc: Global,
    entries: &mut Handle,
    chain: u32,
    kind: u32,
    event: &[u8],
    answer: &[u8],
) -> u32
    ensures { Numbered (EntryAdded (record { chain = chain; kind = kind; event = event.now; answer = answer.now }) entries.old.value entries.new.value) result }
{
    number(ibc_calls::add_entry(alloc, entries, chain, kind, event, answer))
}

/// Makes all ledgers of a genesis in an empty handle, as they stand behind entries, under the number of their world. As `make_replayed`.
#[unsafe(no_mangle)]
pub extern "C" fn ibcw_make_numbered_replayed(
    alloc: Global,
    genesis: &mut Handle,
    world: u64,
    entries: &mut Handle,
    ledgers: &mut Handle,
    place: &mut u64,
    due: &mut [u8],
    size: &mut usize,
) -> u32
    ensures kept { genesis.new.value ≡ genesis.old.value }
    ensures made { Numbered (MakesReplayed genesis.old.value world entries.old.value entries.new.value ledgers.old.value ledgers.new.value (record { place = place.old; bytes = due.old; size = size.old }) (record { place = place.new; bytes = due.new; size = size.new })) result }
{
    number(ibc_calls::make_replayed(alloc, genesis, world, entries, ledgers, place, due, size))
}

/// Writes the digest of a journal's beginning. As `first_digest`.
#[unsafe(no_mangle)]
pub extern "C" fn ibcw_first_digest(genesis: &[u8], digest: &mut [u8], size: &mut usize) -> u32
    ensures { Numbered (IsWritten (first_digest genesis.now) digest.old digest.new size.new) result }
{
    number(ibc_calls::first_digest(genesis, digest, size))
}

/// Writes the digest of an entry of a journal behind one with this digest. As `next_digest`.
#[unsafe(no_mangle)]
pub extern "C" fn ibcw_next_digest(
    alloc: Global,
    before: &[u8],
    chain: u32,
    kind: u32,
    log_place: u32,
    event: &[u8],
    answer: &[u8],
    digest: &mut [u8],
    size: &mut usize,
) -> u32
    ensures { Numbered (Finds (FindsDigest before.now (record { chain = chain; kind = kind; log_place = log_place; event = event.now; answer = answer.now; digest = [] })) digest.old digest.new size.old size.new) result }
{
    number(ibc_calls::next_digest(
        alloc, before, chain, kind, log_place, event, answer, digest, size,
    ))
}
