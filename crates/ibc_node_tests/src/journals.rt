//! Journals in files: read back, with changed and missing rows, and files that are none.

ghost use Rattle.std.specs.Prelude.{◌<◌};

use ibc_journal::{
    Beginning, Cursor, JournalEntry, JournalFault, Looks, append, audit, begin, beginning_of,
    entry_behind, first_digest, look, next,
};
use sqlite::{Alter, Connection, Error};
use std::alloc::Global;
use std::fs;
use std::test::Fail;

const GENESIS: &[u8] = b"{\"capacity\":64,\"chains\":[]}";

// An entry behind one with this digest.
fn entry(alloc: Global, before: &[u8; 32], byte: u8) -> Result<JournalEntry, Error> {
    let event = Vec::from_slice(alloc, [byte; 5].as_slice())?;
    let answer = Vec::from_slice(alloc, [byte ^ 255; 5].as_slice())?;
    Ok(entry_behind(alloc, before, 1, 0, u32::from(byte), event, answer)?)
}

// The digest of an entry.
fn digest_of(entry: &JournalEntry) -> Result<[u8; 32], Error> {
    <[u8; 32]>::try_from(entry.digest.as_slice()).map_err(|_| Error::InvalidQuery)
}

// Entries behind one another, of which the first has this digest before it.
fn entries(alloc: Global, before: [u8; 32], bytes: &[u8]) -> Result<Vec<JournalEntry>, Error> {
    let mut entries = Vec::new(alloc);
    let mut before = before;
    for byte in bytes {
        let entry = entry(alloc, &before, *byte)?;
        before = digest_of(&entry)?;
        entries.push(entry)?;
    }
    Ok(entries)
}

// Puts few entries behind few.
fn put<S: Alter>(
    conn: &mut Connection<S>,
    first: u32,
    entries: &[JournalEntry],
) -> Result<(), Error>
    requires { first < 100 }
{
    if entries.len() > 100 {
        return Err(Error::InvalidQuery);
    }
    append(conn, first, entries)
}

// A journal with five entries, put in by two calls.
fn fill<S: Alter>(alloc: Global, conn: &mut Connection<S>) -> Result<(), Error> {
    begin(conn, GENESIS)?;
    let first = entries(alloc, first_digest(GENESIS), &[10, 20])?;
    put(conn, 0, first.as_slice())?;
    let before = match first.as_slice() {
        [.., last] => digest_of(last)?,
        [] => first_digest(GENESIS),
    };
    let others = entries(alloc, before, &[30, 40, 50])?;
    put(conn, 2, others.as_slice())
}

// Makes the file of a journal with five entries, or of what a text of SQL makes of it.
fn make(rt: &HostRuntime, path: &str, change: &str) -> Result<(), Error> {
    let mut conn = Connection::open(rt, path)?;
    fill(rt.alloc(), &mut conn)?;
    conn.execute_batch(change)?;
    conn.close()
}

// Makes a file by SQL.
fn make_by(rt: &HostRuntime, path: &str, text: &str) -> Result<(), Error> {
    let mut conn = Connection::open(rt, path)?;
    conn.execute_batch(text)?;
    conn.close()
}

// How far a journal goes.
fn place_of(answer: Result<Cursor, JournalFault>) -> Result<u32, JournalFault> {
    Ok(answer?.place)
}

// What an audit of a file says.
fn judge(rt: &HostRuntime, path: &str) -> Result<u32, JournalFault> {
    let mut conn = Connection::open(rt, path)?;
    place_of(audit(&mut conn, GENESIS))
}

// What a file looks like.
fn looks(rt: &HostRuntime, path: &str) -> Result<Looks, Error> {
    let mut conn = Connection::open(rt, path)?;
    look(rt.alloc(), &mut conn)
}

// How the journal of a file began.
fn began(rt: &HostRuntime, path: &str) -> Result<Beginning, JournalFault> {
    let mut conn = Connection::open(rt, path)?;
    beginning_of(&mut conn)
}

// SHA-256 of 00000001 and the genesis, by another program.
const FIRST: [u8; 32] = [
    0x49, 0xae, 0x9d, 0x45, 0x34, 0xeb, 0xc5, 0xd1, 0x74, 0x83, 0xb1, 0x30, 0xcb, 0xb6, 0xbf, 0xb7,
    0x37, 0x7c, 0xfe, 0x36, 0x8d, 0xc8, 0x01, 0x5b, 0xe4, 0xff, 0x36, 0x74, 0xf6, 0x8e, 0xce, 0xbf,
];

// SHA-256 of it and of 00000001, 00000000, 0000000a, 0000000000000005, 0a0a0a0a0a and f5f5f5f5f5, by another program.
const SECOND: [u8; 32] = [
    0x31, 0x9f, 0xfe, 0x0a, 0x03, 0x3b, 0x3a, 0xeb, 0x21, 0x47, 0x77, 0x7c, 0xcc, 0xc7, 0xfa, 0xd0,
    0xed, 0xe3, 0x5e, 0x8b, 0x70, 0xfc, 0x90, 0xcf, 0xc0, 0x3f, 0xcd, 0x82, 0xea, 0xba, 0x30, 0x76,
];

#[test]
fn digests_are_those_of_another_program(rt: HostRuntime) -> Result<(), Fail> {
    let alloc = rt.alloc();
    assert!(rt; first_digest(GENESIS) == FIRST);
    let entry = entry(alloc, &FIRST, 10)?;
    assert_eq!(rt; entry.digest.as_slice(), SECOND.as_slice());
    drop(entry);
    Ok(())
}

// An empty folder.
fn folder(rt: &HostRuntime, name: &str) -> Result<(), Fail> {
    let _ = fs::remove_dir_all(rt, name);
    fs::create_dir(rt, name)?;
    Ok(())
}

// The first bytes of the events of a journal, one for each entry.
fn first_bytes<S: Alter>(alloc: Global, conn: &mut Connection<S>) -> Result<Vec<u8>, Error> {
    let mut cursor = Cursor::new(GENESIS);
    let mut bytes = Vec::new(alloc);
    for _turn in 0..100 {
        let Ok(Some(entry)) = next(conn, &mut cursor) else {
            return Ok(bytes);
        };
        let first = entry.event.as_slice().first().copied().unwrap_or(0);
        drop(entry);
        bytes.push(first)?;
    }
    Ok(bytes)
}

// The first bytes of the events of the journal of a file.
fn read_back(rt: &HostRuntime, path: &str) -> Result<Vec<u8>, Error> {
    let mut conn = Connection::open(rt, path)?;
    first_bytes(rt.alloc(), &mut conn)
}

#[test]
fn a_journal_is_read_back(rt: HostRuntime) -> Result<(), Fail> {
    folder(&rt, "journal_read_back")?;
    let path = "journal_read_back/a.db";
    make(&rt, path, "")?;
    assert_eq!(rt; looks(&rt, path)?, Looks::Journal);
    let beginning = began(&rt, path)?;
    assert_eq!(rt; beginning.format, 1);
    assert_eq!(rt; beginning.genesis.as_slice(), GENESIS);
    drop(beginning);
    assert_eq!(rt; judge(&rt, path).ok(), Some(5));
    let bytes = read_back(&rt, path)?;
    assert_eq!(rt; bytes.as_slice(), [10u8, 20, 30, 40, 50].as_slice());
    drop(bytes);
    fs::remove_dir_all(&rt, "journal_read_back")?;
    Ok(())
}

// What an audit says of a journal after a change by SQL. Each change has a new file.
fn judge_changed(
    rt: &HostRuntime,
    path: &str,
    change: &str,
) -> Result<Option<JournalFault>, Error> {
    make(rt, path, change)?;
    Ok(judge(rt, path).err())
}

#[test]
fn a_changed_row_is_found_at_its_place(rt: HostRuntime) -> Result<(), Fail> {
    folder(&rt, "journal_changed")?;
    for (path, change) in [
        (
            "journal_changed/a.db",
            "UPDATE entries SET event = x'1e1e1e1e1f' WHERE place = 2",
        ),
        (
            "journal_changed/b.db",
            "UPDATE entries SET answer = x'e1e1e1e1e0' WHERE place = 2",
        ),
        (
            "journal_changed/c.db",
            "UPDATE entries SET chain = 0 WHERE place = 2",
        ),
        (
            "journal_changed/d.db",
            "UPDATE entries SET kind = 1 WHERE place = 2",
        ),
        (
            "journal_changed/g.db",
            "UPDATE entries SET log_place = 31 WHERE place = 2",
        ),
        (
            "journal_changed/e.db",
            "UPDATE entries SET digest = x'' WHERE place = 2",
        ),
        (
            "journal_changed/f.db",
            "UPDATE entries SET event = x'1414141414', answer = x'ebebebebeb' WHERE place = 2",
        ),
    ] {
        let fault = judge_changed(&rt, path, change)?;
        assert_eq!(rt; fault, Some(JournalFault::Damaged(2)), "{change}");
    }
    fs::remove_dir_all(&rt, "journal_changed")?;
    Ok(())
}

#[test]
fn a_missing_row_is_found(rt: HostRuntime) -> Result<(), Fail> {
    folder(&rt, "journal_missing")?;
    let path = "journal_missing/a.db";
    let fault = judge_changed(&rt, path, "DELETE FROM entries WHERE place = 2")?;
    assert_eq!(rt; fault, Some(JournalFault::Gap(2)));
    let path = "journal_missing/b.db";
    let fault = judge_changed(&rt, path, "DELETE FROM entries WHERE place = 0")?;
    assert_eq!(rt; fault, Some(JournalFault::Gap(0)));
    let path = "journal_missing/c.db";
    let fault = judge_changed(&rt, path, "DELETE FROM entries WHERE place = 4")?;
    assert_eq!(rt; fault, None);
    fs::remove_dir_all(&rt, "journal_missing")?;
    Ok(())
}

// Puts an entry where there is one.
fn put_again<S: Alter>(alloc: Global, conn: &mut Connection<S>) -> Result<(), Error> {
    let all = entries(alloc, first_digest(GENESIS), &[60, 70])?;
    put(conn, 4, all.as_slice())
}

// Opens a journal and puts an entry where there is one.
fn put_twice(rt: &HostRuntime, path: &str) -> Result<(), Error> {
    let mut conn = Connection::open(rt, path)?;
    put_again(rt.alloc(), &mut conn)
}

#[test]
fn of_a_refused_call_nothing_is_left(rt: HostRuntime) -> Result<(), Fail> {
    folder(&rt, "journal_refused")?;
    let path = "journal_refused/a.db";
    make(&rt, path, "")?;
    assert!(rt; put_twice(&rt, path).is_err());
    assert_eq!(rt; judge(&rt, path).ok(), Some(5));
    fs::remove_dir_all(&rt, "journal_refused")?;
    Ok(())
}

#[test]
fn other_files_are_told_apart(rt: HostRuntime) -> Result<(), Fail> {
    folder(&rt, "journal_other")?;
    assert_eq!(rt; looks(&rt, "journal_other/new.db")?, Looks::Empty);
    make_by(
        &rt,
        "journal_other/t.db",
        "CREATE TABLE t (a INTEGER) STRICT",
    )?;
    assert_eq!(rt; looks(&rt, "journal_other/t.db")?, Looks::Other);
    make_by(
        &rt,
        "journal_other/two.db",
        "CREATE TABLE meta(format INTEGER PRIMARY KEY, genesis BLOB) STRICT; INSERT INTO meta VALUES (2, x'')",
    )?;
    assert_eq!(rt; looks(&rt, "journal_other/two.db")?, Looks::OfFormat(2));
    make(
        &rt,
        "journal_other/view.db",
        "CREATE VIEW v AS SELECT place FROM entries",
    )?;
    assert_eq!(rt; looks(&rt, "journal_other/view.db")?, Looks::Other);
    fs::remove_dir_all(&rt, "journal_other")?;
    Ok(())
}

// The place at which bytes stand in a file.
fn find(text: &[u8], wanted: &[u8]) -> Option<usize> {
    for at in 0..text.len() {
        if text[at..].starts_with(wanted) {
            return Some(at);
        }
    }
    None
}

#[test]
fn a_changed_byte_of_the_file_is_found(rt: HostRuntime) -> Result<(), Fail> {
    folder(&rt, "journal_byte")?;
    let path = "journal_byte/a.db";
    make(&rt, path, "")?;
    let mut text = fs::read(&rt, path)?;
    let at = find(text.as_slice(), [40u8; 5].as_slice()).expect(&rt, "an event");
    assert!(rt; at < text.len());
    text[at] = 41;
    fs::write(&rt, path, text.as_slice())?;
    drop(text);
    assert_eq!(rt; judge(&rt, path).err(), Some(JournalFault::Damaged(3)));
    fs::remove_dir_all(&rt, "journal_byte")?;
    Ok(())
}
