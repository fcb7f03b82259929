//! The entries of a journal are read back, and each is put to the world again.

ghost use Rattle.std.specs.Prelude.{◌≡◌, ◌+◌, ◌≤◌, ◌++◌, ◌∷◌, [], false, List, IfErr, IfOk, IsTrue, OnOk};
ghost use Rattle.sqlite.specs.Held.{state};
ghost use Rattle.ibc_replay.specs.Replays.{GoesOnAsStored, StopsAt};
ghost use Rattle.ibc_entry_codec.specs.Stored.{StoresEntry};
ghost use Rattle.ibc_journal.specs.Tables.{JournalItem};
ghost use Rattle.ibc_journal.specs.Entries.{item};
ghost use Rattle.ibc_journal.specs.Digests.{HasReadTo};
ghost use Rattle.ibc_journal.specs.Crashes.{LeavesNothing};
ghost use Rattle.ibc_node.specs.Kept.{bytes_in, IsKeptAs, ReplaysOne};
ghost use Rattle.ibc_node.specs.Marks.{marks_by};
ghost use Rattle.ibc_node.specs.Faults.{fault_at, IsOfBytes, IsOfEntry, IfFault};
ghost use Rattle.ibc_node.specs.Audits.{IfDiffers, IsUnreadBy, StopsAtItem};
ghost use Rattle.ibc_journal.specs.Changes.{CrashLeaves};
ghost use Rattle.ibc_journal.specs.Reads.{LeavesTheSame};
ghost use Rattle.ibc_node.specs.ReadBack.{DiffersAsKept, DiffersNext, EndsWhereNone, LeavesWhereDiffers, MarksAll, MarksNext, ReadFails, ReadNextFails, ReadsAll, ReadsOn, ReplaysEach, ReplaysNext, RestsOnJournal, RestsWhereDiffers};

use crate::NodeFault;
use crate::unread::Unread;
use ibc_entry_codec::{EntryBytes, restore};
use ibc_ids::Bytes;
use ibc_journal::{Cursor, JournalEntry, JournalFault, end_at, next};
use ibc_machine::Entry;
use ibc_replay::{Difference, replay_on};
use ibc_world_core::World;
use sqlite::{Alter, Connection, Error};
use std::alloc::Global;

// How many places a journal can have.
const PLACES: u64 = 1 << 32;

/// An entry of a journal whose event came by a place of a log.
#[derive(Clone, Copy, Debug, PartialEq, Eq, Drop)]
pub(crate) struct LogMark {
    pub log_place: u32,
    pub place: u32,
}

/// A world as far as its journal is read, and which entries came by a log.
#[derive(Drop)]
pub(crate) struct Past {
    pub world: World,
    pub end: Cursor,
    pub marks: Vec<LogMark>,
}

impl Past {
    // None of a journal that began so is read.
    fn new(alloc: Global, genesis: &[u8], world: World) -> Past
        ensures world { result.world ≡ world }
        ensures start { (items : List JournalItem) → HasReadTo genesis.now items result.end }
        ensures unmarked { result.marks.items ≡ [] }
    {
        Past {
            world,
            end: Cursor::new(genesis),
            marks: Vec::new(alloc),
        }
    }
}

/// The world that goes on as all entries of a journal say which began so. Each is put to it as soon as it is read. Error: the first place
/// whose entry isn't the one that was put there, spells no event and answer, or has another answer than is due; a place that has none,
/// where there are some behind it.
pub(crate) fn read_all<S: Alter>(
    alloc: Global,
    conn: &mut Connection<S>,
    genesis: &[u8],
    world: World,
) -> Result<Past, Unread>
    ensures replayed { ReplaysEach (state S.Store) conn.old conn.new genesis.now world result }
    ensures read { ReadsAll (state S.Store) conn.old conn.new genesis.now result }
    ensures marked { MarksAll (state S.Store) conn.old conn.new genesis.now result }
    ensures differs { DiffersAsKept (state S.Store) conn.old conn.new genesis.now world result }
    ensures faults { ReadFails (state S.Store) conn.old conn.new genesis.now result }
    ensures rest { RestsOnJournal (state S.Store) conn.old conn.new genesis.now result }
    ensures left { RestsWhereDiffers (state S.Store) conn.old conn.new genesis.now result }
    ensures crash { CrashLeaves (state S.Store) conn.old conn.new LeavesNothing }
{
    let mut past = Past::new(alloc, genesis, world);
    'reading: for _turn in 0..PLACES {
        if !read_next(alloc, conn, &mut past)? {
            return Ok(past);
        }
    }
    Err(Unread::Fault(NodeFault::Journal(JournalFault::Full)))
}

// Reads one entry more, if there is another, and has the world go on.
fn read_next<S: Alter>(
    alloc: Global,
    conn: &mut Connection<S>,
    past: &mut Past,
) -> Result<bool, Unread>
    ensures replayed { ReplaysNext (state S.Store) conn.old conn.new past.old past.new result }
    ensures read { ReadsOn (state S.Store) conn.old conn.new past.old past.new result }
    ensures marked { MarksNext (state S.Store) conn.old conn.new past.old past.new result }
    ensures more { IfOk result (λ more. IsTrue more → past.new.end.place ≡ past.old.end.place + 1) }
    ensures end { EndsWhereNone (state S.Store) conn.old conn.new past.old past.new result }
    ensures differs { DiffersNext (state S.Store) conn.old conn.new past.old result }
    ensures faults { ReadNextFails (state S.Store) conn.old conn.new past.old result }
    ensures same { LeavesTheSame (state S.Store) conn.old conn.new result }
    ensures left { LeavesWhereDiffers (state S.Store) conn.old conn.new result }
    ensures crash { CrashLeaves (state S.Store) conn.old conn.new LeavesNothing }
{
    let place = past.end.place;
    match next(conn, &mut past.end) {
        Ok(Some(kept)) => {
            mark(&mut past.marks, kept.log_place, place)?;
            replay_entry(alloc, &mut past.world, place, kept)?;
            Ok(true)
        }
        Ok(None) => {
            end_at(conn, &past.end)?;
            Ok(false)
        }
        Err(fault) => Err(Unread::Fault(fault_at(place, fault))),
    }
}

// Puts the event to the world whose entry is kept at a place, and compares the answer.
fn replay_entry(
    alloc: Global,
    world: &mut World,
    place: u32,
    kept: JournalEntry,
) -> Result<(), Unread>
    ensures replayed { OnOk result (ReplaysOne world.old (item kept) world.new) }
    ensures differs { IfErr result (IfDiffers (StopsAtItem world.old place (item kept) world.new)) }
    ensures faults { IfErr result (IfFault (IsOfEntry place (item kept))) }
{
    let entry = entry_of(alloc, place, kept)?;
    replay_alone(alloc, world, place, entry)
}

// Puts the event of an entry to the world, and compares the answer.
fn replay_alone(alloc: Global, world: &mut World, place: u32, entry: Entry) -> Result<(), Unread>
    ensures replayed { OnOk result (GoesOnAsStored world.old (entry ∷ []) world.new) }
    ensures differs { IfErr result (IfDiffers (λ why. StopsAt world.old place entry why world.new)) }
    ensures faults { IfErr result (IfFault (λ fault. fault ≡ NodeFault.NoMemory)) }
{
    let mut entries = Vec::new(alloc);
    entries.push(entry)?;
    match replay_on(world, place as usize, entries) {
        Ok(()) => Ok(()),
        Err(why) => Err(unread_by(why)),
    }
}

// Why a journal isn't read on whose entry a world doesn't take.
fn unread_by(why: Difference) -> Unread
    ensures { IsUnreadBy why result }
{
    match why {
        Difference::NoGenesis => Unread::Fault(NodeFault::BadGenesis),
        Difference::NoMemory => Unread::Fault(NodeFault::NoMemory),
        Difference::At { place, due, stored } => {
            Unread::Differs(Difference::At { place, due, stored })
        }
        Difference::UnknownChain { place, stored } => {
            Unread::Differs(Difference::UnknownChain { place, stored })
        }
    }
}

// Why the entry at a place can't be read: one of its numbers is out of range, or the journal says why.
fn fault_at(place: u32, fault: JournalFault) -> NodeFault
    ensures { result ≡ fault_at place fault }
{
    match fault {
        JournalFault::Sqlite(Error::IntegralValueOutOfRange(_)) => NodeFault::NoEntry(place),
        fault => NodeFault::Journal(fault),
    }
}

/// Marks an entry, where its event came by a log.
pub(crate) fn mark(marks: &mut Vec<LogMark>, log_place: u32, place: u32) -> Result<(), NodeFault>
    ensures marked { OnOk result (marks.new.items ≡ marks.old.items ++ marks_by log_place place) }
    ensures faults { IfErr result (λ fault. fault ≡ NodeFault.NoMemory) }
{
    if log_place == 0 {
        return Ok(());
    }
    marks.push(LogMark { log_place, place })?;
    Ok(())
}

/// The entry that is kept at a place.
pub(crate) fn entry_of(alloc: Global, place: u32, kept: JournalEntry) -> Result<Entry, NodeFault>
    ensures entry { IfOk result (λ entry. IsKeptAs entry (item kept)) }
    ensures faults { IfErr result (IsOfEntry place (item kept)) }
{
    let stored = bytes_of(place, kept)?;
    let entry = restored(alloc, place, &stored);
    drop(stored);
    entry
}

// The entry of which this is kept at a place.
fn restored(alloc: Global, place: u32, stored: &EntryBytes) -> Result<Entry, NodeFault>
    ensures entry { IfOk result (λ entry. StoresEntry entry stored.now) }
    ensures faults { IfErr result (IsOfBytes place stored.now) }
{
    match restore(alloc, stored) {
        Ok(entry) => Ok(entry),
        Err(refusal) => Err(NodeFault::of_refusal(refusal, NodeFault::NoEntry(place))),
    }
}

// The byte that a number of an entry is.
fn byte_of(place: u32, number: u32) -> Result<u8, NodeFault>
    ensures byte { IfOk result (λ byte. byte ≡ number) }
    ensures faults { IfErr result (λ fault. (fault ≡ NodeFault.NoEntry place) × (256 ≤ number)) }
{
    match u8::try_from(number) {
        Ok(byte) => Ok(byte),
        Err(_) => Err(NodeFault::NoEntry(place)),
    }
}

// What is kept of an entry.
fn bytes_of(place: u32, kept: JournalEntry) -> Result<EntryBytes, NodeFault>
    ensures stored { IfOk result (λ stored. stored ≡ bytes_in (item kept)) }
    ensures faults { IfErr result (IsOfEntry place (item kept)) }
{
    let chain = byte_of(place, kept.chain)?;
    let kind = byte_of(place, kept.kind)?;
    let JournalEntry {
        chain: _,
        kind: _,
        log_place: _,
        event,
        answer,
        digest: _,
    } = kept;
    Ok(EntryBytes {
        chain,
        kind,
        event: Bytes::from_vec(event),
        answer: Bytes::from_vec(answer),
    })
}
