//! A journal is read from its first entry on, and each digest is compared with the one that is due.

ghost use Rattle.std.specs.Prelude.{◌≡◌, ◌+◌, None, List, Ok, IfOk, IfErr, IfSome, OnOk, OnErr};
ghost use Rattle.sqlite.specs.Held.{state};
ghost use Rattle.ibc_journal.specs.Tables.{JournalItem};
ghost use Rattle.ibc_journal.specs.Entries.{item};
ghost use Rattle.ibc_journal.specs.Shown.{shown_row};
ghost use Rattle.ibc_journal.specs.Digests.{HasReadTo};
ghost use Rattle.ibc_journal.specs.Faults.{IsOfReading, IsOfEnding};
ghost use Rattle.ibc_journal.specs.Changes.{CrashLeaves};
ghost use Rattle.ibc_journal.specs.Crashes.{LeavesNothing};
ghost use Rattle.ibc_journal.specs.Reads.{AuditsDamage, AuditsFull, AuditsNoGap, AuditsWhole, EndsBefore, FindsAt, FindsEndAt, FindsNoMore, FindsNoneEarly, IsNotPassed, LeavesTheSame, PassesOver, ReadsNext, ShowsFirstEntry, TellsDamage, TellsFull, TellsNoEarly, TellsNoGapAt};

use crate::digests::{digest_after, first_digest};
use crate::{JournalEntry, JournalFault};
use sqlite::{Alter, Connection, Error, Row, params};

// The place of the first entry.
const FIRST: u32 = 0;

// How many places a reader can name, and so no journal has more entries.
const PLACES: u64 = 1 << 32;

/// How far a reader of a journal has come: how many entries it has read, and the digest of the last of them.
#[derive(Clone, Copy, Debug, PartialEq, Eq)]
pub struct Cursor {
    pub place: u32,
    pub last: [u8; 32],
}

impl Cursor {
    /// A reader before the first entry of a journal that began so.
    pub fn new(genesis: &[u8]) -> Cursor
        ensures { (items : List JournalItem) → HasReadTo genesis.now items result }
    {
        Cursor {
            place: 0,
            last: first_digest(genesis),
        }
    }
}

/// The next entry, or none where there is no other. Error: `Damaged` where the entry isn't the one that was put there. The reader then
/// stays where it is.
pub fn next<S: Alter>(
    conn: &mut Connection<S>,
    cursor: &mut Cursor,
) -> Result<Option<JournalEntry>, JournalFault>
    ensures entry { ReadsNext (state S.Store) conn.old conn.new cursor.old cursor.new result }
    ensures more { IfOk result (λ found. IfSome found (λ _. cursor.new.place ≡ cursor.old.place + 1)) }
    ensures end { result ≡ Ok None → cursor.new ≡ cursor.old }
    ensures damaged { TellsDamage (state S.Store) conn.old conn.new cursor.old result }
    ensures full { TellsFull (state S.Store) conn.old conn.new result }
    ensures faults { IfErr result (IsOfReading cursor.old.place) }
    ensures stays { OnErr result (cursor.new ≡ cursor.old) }
    ensures same { LeavesTheSame (state S.Store) conn.old conn.new result }
    ensures crash { CrashLeaves (state S.Store) conn.old conn.new LeavesNothing }
{
    match entry_at(conn, cursor.place) {
        Ok(Some(entry)) => match pass(cursor, &entry) {
            Ok(()) => Ok(Some(entry)),
            Err(fault) => {
                drop(entry);
                Err(fault)
            }
        },
        Ok(None) => Ok(None),
        Err(error) => Err(JournalFault::Sqlite(error)),
    }
}

/// Reads all of a journal that began so. Answers how far it goes. Error: `Damaged` with the first place whose entry isn't the one that
/// was put there; `Gap`, where entries are missing, and so never of a journal; `Full`, where there are 2^32 entries or more.
pub fn audit<S: Alter>(conn: &mut Connection<S>, genesis: &[u8]) -> Result<Cursor, JournalFault>
    ensures whole { AuditsWhole (state S.Store) conn.old conn.new genesis.now result }
    ensures damaged { AuditsDamage (state S.Store) conn.old conn.new genesis.now result }
    ensures gap { AuditsNoGap (state S.Store) conn.old conn.new genesis.now result }
    ensures full { AuditsFull (state S.Store) conn.old conn.new genesis.now result }
    ensures crash { CrashLeaves (state S.Store) conn.old conn.new LeavesNothing }
{
    let mut cursor = Cursor::new(genesis);
    'reading: for _turn in 0..PLACES {
        match next(conn, &mut cursor)? {
            Some(entry) => drop(entry),
            None => {
                end_at(conn, &cursor)?;
                return Ok(cursor);
            }
        }
    }
    Err(JournalFault::Full)
}

/// Whether the journal ends where its reader has come to. Error: `Gap` where it doesn't; `Early` where there is an entry before place 0.
pub fn end_at<S: Alter>(conn: &mut Connection<S>, cursor: &Cursor) -> Result<(), JournalFault>
    ensures end { TellsNoGapAt (state S.Store) conn.old conn.new cursor.now.place result }
    ensures early { TellsNoEarly (state S.Store) conn.old conn.new result }
    ensures ended { EndsBefore (state S.Store) conn.old conn.new cursor.now.place result }
    ensures faults { IfErr result (IsOfEnding cursor.now.place) }
    ensures same { LeavesTheSame (state S.Store) conn.old conn.new result }
    ensures crash { CrashLeaves (state S.Store) conn.old conn.new LeavesNothing }
{
    if !is_end(conn, cursor.place)? {
        return Err(JournalFault::Gap(cursor.place));
    }
    if has_early(conn)? {
        return Err(JournalFault::Early);
    }
    Ok(())
}

// Whether there is an entry before the first place.
fn has_early<S: Alter>(conn: &mut Connection<S>) -> Result<bool, Error>
    ensures none { FindsNoneEarly (state S.Store) conn.old conn.new result }
    ensures same { LeavesTheSame (state S.Store) conn.old conn.new result }
    ensures crash { CrashLeaves (state S.Store) conn.old conn.new LeavesNothing }
{
    let rows = conn.query_all("SELECT place FROM entries WHERE place < ?1", params![FIRST])?;
    let is_empty = rows.as_slice().is_empty();
    drop(rows);
    Ok(!is_empty)
}

// Whether there is no entry at a place or behind it.
fn is_end<S: Alter>(conn: &mut Connection<S>, from: u32) -> Result<bool, Error>
    ensures end { FindsEndAt (state S.Store) conn.old conn.new from result }
    ensures ended { FindsNoMore (state S.Store) conn.old conn.new from result }
    ensures same { LeavesTheSame (state S.Store) conn.old conn.new result }
    ensures crash { CrashLeaves (state S.Store) conn.old conn.new LeavesNothing }
{
    let rows = conn.query_all("SELECT place FROM entries WHERE place >= ?1", params![from])?;
    let is = rows.as_slice().is_empty();
    drop(rows);
    Ok(is)
}

// Passes over an entry that has the digest that is due.
fn pass(cursor: &mut Cursor, entry: &JournalEntry) -> Result<(), JournalFault>
    ensures passed { OnOk result (PassesOver cursor.old (item entry.now) cursor.new) }
    ensures refused { IfErr result (IsNotPassed cursor.old (item entry.now)) }
    ensures faults { IfErr result (IsOfReading cursor.old.place) }
    ensures stays { OnErr result (cursor.new ≡ cursor.old) }
{
    let due = digest_after(&cursor.last, entry);
    if entry.digest.as_slice() != due.as_slice() {
        return Err(JournalFault::Damaged(cursor.place));
    }
    let Some(place) = cursor.place.checked_add(1) else {
        return Err(JournalFault::Full);
    };
    cursor.place = place;
    cursor.last = due;
    Ok(())
}

/// The entry at a place, if there is one. Its digest isn't looked at.
pub fn entry_at<S: Alter>(
    conn: &mut Connection<S>,
    place: u32,
) -> Result<Option<JournalEntry>, Error>
    ensures found { FindsAt (state S.Store) conn.old conn.new place result }
    ensures same { LeavesTheSame (state S.Store) conn.old conn.new result }
    ensures crash { CrashLeaves (state S.Store) conn.old conn.new LeavesNothing }
{
    let rows = conn.query_all(
        "SELECT chain, kind, log_place, event, answer, digest FROM entries WHERE place = ?1",
        params![place],
    )?;
    let found = first_of(rows.as_slice());
    drop(rows);
    found
}

// The entry that the first row shows, if there is one.
fn first_of(rows: &[Row]) -> Result<Option<JournalEntry>, Error>
    ensures { ShowsFirstEntry rows.now result }
{
    match rows {
        [] => Ok(None),
        [row, ..] => Ok(Some(entry_of(row)?)),
    }
}

// The entry that a row shows.
fn entry_of(row: &Row) -> Result<JournalEntry, Error>
    ensures { (it : JournalItem) → row.now ≡ shown_row it → IfOk result (λ entry. item entry ≡ it) }
{
    Ok(JournalEntry {
        chain: row.get(0)?,
        kind: row.get(1)?,
        log_place: row.get(2)?,
        event: row.get(3)?,
        answer: row.get(4)?,
        digest: row.get(5)?,
    })
}
