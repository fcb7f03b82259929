//! Entries are put behind those of a journal, all of them or none.

ghost use Rattle.std.specs.Prelude.{◌+◌, ◌<◌, ◌^◌, length};
ghost use Rattle.sqlite.specs.State.{Survives};
ghost use Rattle.sqlite.specs.Held.{state};
ghost use Rattle.ibc_journal.specs.Crashes.{LeavesOutside};
ghost use Rattle.ibc_journal.specs.Changes.{BeginsTransaction, CommitsBehind, CommitsNone, CommitsNoneBehind, CommitsNoneInside, CrashLeaves, EndsOpen, EndsOutside, EndsTransaction, InsertsBehind, InsertsOne, LastsBehind, LeavesAdded, LeavesSeen, SeesCommitted};

use crate::JournalEntry;
use sqlite::{Alter, Connection, Error, params};

/// Puts entries behind those of a journal, of which there are `first`. After an error the connection is of no use: it is dropped,
/// and the file opened again.
pub fn append<S: Alter>(
    conn: &mut Connection<S>,
    first: u32,
    entries: &[JournalEntry],
) -> Result<(), Error>
    requires room { first + length entries.now < 2 ^ 32 }
    // What is committed is the entries that were there, and these behind them.
    ensures committed { CommitsBehind (state S.Store) conn.old conn.new first entries.now result }
    // The connection sees what is committed.
    ensures seen { SeesCommitted (state S.Store) conn.new result }
    ensures outside { EndsOutside (state S.Store) conn.new result }
    ensures is_open { EndsOpen (state S.Store) conn.new result }
    // After an error nothing of it is committed, as far as the connection is still open.
    ensures none { CommitsNoneBehind (state S.Store) conn.old conn.new first result }
    // Once it has told that they are committed, a crash leaves all of them, and nothing less.
    ensures lasts { LastsBehind (state S.Store) conn.old conn.new first entries.now result }
    // A crash at any moment of the call leaves what it could leave before the call, or all of it.
    ensures crash { CrashLeaves (state S.Store) conn.old conn.new (LeavesAdded first entries.now) }
{
    start(conn)?;
    insert_each(conn, first, entries)?;
    commit(conn)?;
    Ok(())
}

// Begins a transaction.
pub(crate) fn start<S: Alter>(conn: &mut Connection<S>) -> Result<usize, Error>
    ensures begun { BeginsTransaction (state S.Store) conn.old conn.new result }
    ensures none { CommitsNone (state S.Store) conn.old conn.new result }
    ensures crash { Survives (state S.Store conn.old) (state S.Store conn.new) (λ _. ⊥) }
{
    conn.execute("BEGIN", &[])
}

// Commits what the transaction saw.
pub(crate) fn commit<S: Alter>(conn: &mut Connection<S>) -> Result<usize, Error>
    ensures committed { EndsTransaction (state S.Store) conn.old conn.new result }
    ensures none { CommitsNone (state S.Store) conn.old conn.new result }
    ensures crash { CrashLeaves (state S.Store) conn.old conn.new LeavesSeen }
{
    conn.execute("COMMIT", &[])
}

// Puts entries behind those of a journal, inside a transaction.
fn insert_each<S: Alter>(
    conn: &mut Connection<S>,
    first: u32,
    entries: &[JournalEntry],
) -> Result<(), Error>
    requires room { first + length entries.now < 2 ^ 32 }
    ensures put { InsertsBehind (state S.Store) conn.old conn.new first entries.now result }
    ensures none { CommitsNoneInside (state S.Store) conn.old conn.new first result }
    ensures crash { CrashLeaves (state S.Store) conn.old conn.new (λ s. LeavesOutside s first) }
{
    let mut place = first;
    for added in entries {
        insert(conn, place, added)?;
        place += 1;
    }
    Ok(())
}

// Puts an entry behind those of a journal, inside a transaction.
fn insert<S: Alter>(
    conn: &mut Connection<S>,
    place: u32,
    entry: &JournalEntry,
) -> Result<usize, Error>
    ensures put { InsertsOne (state S.Store) conn.old conn.new place entry.now result }
    ensures none { CommitsNone (state S.Store) conn.old conn.new result }
    ensures crash { CrashLeaves (state S.Store) conn.old conn.new (λ s. LeavesOutside s place) }
{
    conn.execute(
        "INSERT INTO entries(place, chain, kind, log_place, event, answer, digest) VALUES (?1, ?2, ?3, ?4, ?5, ?6, ?7)",
        params![
            place,
            entry.chain,
            entry.kind,
            entry.log_place,
            &entry.event,
            &entry.answer,
            &entry.digest
        ],
    )
}
