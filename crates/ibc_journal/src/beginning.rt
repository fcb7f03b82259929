//! A file with no table becomes a journal with no entries.

ghost use Rattle.sqlite.specs.Held.{state};
ghost use Rattle.ibc_journal.specs.Tables.{no_schema, meta_schema, journal_schema};
ghost use Rattle.ibc_journal.specs.Crashes.{LeavesBegun};
ghost use Rattle.ibc_journal.specs.Changes.{CommitsBeginning, CommitsNone, CommitsNoneOfEmpty, CommitsNoneOfEmptyInside, CrashLeaves, EndsOpen, EndsOutside, FillsEmpty, LastsAsBegun, LeavesOutsideOf, MakesEntryTable, MakesMetaTable, PutsBeginning, SeesCommitted};

use crate::adding::{commit, start};
use crate::digests::FORMAT;
use sqlite::{Alter, Connection, Error, params};

/// Makes the tables of a journal that begins so, in one transaction. The genesis is kept as it is given. After an error the connection is
/// of no use: it is dropped, and the file opened again.
pub fn begin<S: Alter>(conn: &mut Connection<S>, genesis: &[u8]) -> Result<(), Error>
    ensures committed { CommitsBeginning (state S.Store) conn.old conn.new genesis.now result }
    // The connection sees what is committed.
    ensures seen { SeesCommitted (state S.Store) conn.new result }
    ensures outside { EndsOutside (state S.Store) conn.new result }
    ensures is_open { EndsOpen (state S.Store) conn.new result }
    // Once it has told that it is committed, a crash leaves all of it.
    ensures lasts { LastsAsBegun (state S.Store) conn.old conn.new genesis.now result }
    // After an error nothing of it is committed, as far as the connection is still open.
    ensures none { CommitsNoneOfEmpty (state S.Store) conn.old conn.new result }
    // A crash at any moment of the call leaves what it could leave before the call, or all of it.
    ensures crash { CrashLeaves (state S.Store) conn.old conn.new (λ s. LeavesBegun s genesis.now) }
{
    start(conn)?;
    fill(conn, genesis)?;
    commit(conn)?;
    Ok(())
}

// Makes the tables and puts the beginning in, inside a transaction.
fn fill<S: Alter>(conn: &mut Connection<S>, genesis: &[u8]) -> Result<(), Error>
    ensures made { FillsEmpty (state S.Store) conn.old conn.new genesis.now result }
    ensures none { CommitsNoneOfEmptyInside (state S.Store) conn.old conn.new result }
    ensures crash { CrashLeaves (state S.Store) conn.old conn.new (LeavesOutsideOf no_schema) }
{
    make_meta(conn)?;
    make_entries(conn)?;
    put_beginning(conn, genesis)?;
    Ok(())
}

// Makes the first table.
fn make_meta<S: Alter>(conn: &mut Connection<S>) -> Result<usize, Error>
    ensures made { MakesMetaTable (state S.Store) conn.old conn.new result }
    ensures none { CommitsNone (state S.Store) conn.old conn.new result }
    ensures crash { CrashLeaves (state S.Store) conn.old conn.new (LeavesOutsideOf no_schema) }
{
    conn.execute(
        "CREATE TABLE meta(format INTEGER PRIMARY KEY, genesis BLOB NOT NULL) STRICT",
        &[],
    )
}

// Makes the second table.
fn make_entries<S: Alter>(conn: &mut Connection<S>) -> Result<usize, Error>
    ensures made { MakesEntryTable (state S.Store) conn.old conn.new result }
    ensures none { CommitsNone (state S.Store) conn.old conn.new result }
    ensures crash { CrashLeaves (state S.Store) conn.old conn.new (LeavesOutsideOf meta_schema) }
{
    conn.execute(
        "CREATE TABLE entries(place INTEGER PRIMARY KEY, chain INTEGER NOT NULL, kind INTEGER NOT NULL, log_place INTEGER NOT NULL, event BLOB NOT NULL, answer BLOB NOT NULL, digest BLOB NOT NULL) STRICT",
        &[],
    )
}

// Puts in how the journal began.
fn put_beginning<S: Alter>(conn: &mut Connection<S>, genesis: &[u8]) -> Result<usize, Error>
    ensures put { PutsBeginning (state S.Store) conn.old conn.new genesis.now result }
    ensures none { CommitsNone (state S.Store) conn.old conn.new result }
    ensures crash { CrashLeaves (state S.Store) conn.old conn.new (LeavesOutsideOf journal_schema) }
{
    conn.execute(
        "INSERT INTO meta(format, genesis) VALUES (?1, ?2)",
        params![FORMAT, genesis],
    )
}
