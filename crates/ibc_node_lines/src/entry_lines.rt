//! Entries as lines, and an audit of them.

ghost use Rattle.std.specs.Prelude.{OnOk};
ghost use Rattle.ibc_node_lines.specs.Audited.{TellsSomeLawful};

use crate::LineFault;
use crate::auditing::tell_audit;
use crate::request::bytes_of;
use ibc_journal::{Cursor, JournalEntry, JournalFault, append, begin, digest_after, entry_behind};
use ibc_node::{NodeFault, audit_journal};
use serde_json::Value;
use sqlite::{Alter, Connection, MemStore};
use std::alloc::Global;
use std::io::{BufRead, BufReader, Read, Write};

// So many entries share a commit.
const TOGETHER: usize = 100;

/// Audits entries that are lines, from this genesis on, and tells what is found, as `tell_audit` does. Each line is an object with a chain, a
/// kind, an event and an answer, as a question for kept entries is answered. Fault: `NoEntry` with the first place whose line spells none;
/// what an audit of a journal with these entries finds. It ends well only where that is a lawful run, and is told.
pub fn audit_lines<R: Read + Drop, W: Write>(
    alloc: Global,
    genesis: &[u8],
    input: BufReader<R>,
    output: &mut W,
) -> Result<(), NodeFault>
    ensures { OnOk result (TellsSomeLawful (W.contents output.old) (W.contents output.new)) }
{
    let conn = journal_of(alloc, genesis, input)?;
    let mut conn = conn;
    let found = audit_journal(alloc, &mut conn, Some(genesis))?;
    drop(conn);
    let told = tell_audit(alloc, &found, output);
    drop(found);
    told
}

// The journal in memory that began so and has the entries of lines.
fn journal_of<R: Read + Drop>(
    alloc: Global,
    genesis: &[u8],
    input: BufReader<R>,
) -> Result<Connection<MemStore>, NodeFault> {
    let mut conn = Connection::open_in_memory(alloc)?;
    begin(&mut conn, genesis)?;
    fill(alloc, &mut conn, Cursor::new(genesis), input)?;
    Ok(conn)
}

// Puts in the entries of lines, in their order.
fn fill<S: Alter, R: Read + Drop>(
    alloc: Global,
    conn: &mut Connection<S>,
    end: Cursor,
    input: BufReader<R>,
) -> Result<(), NodeFault> {
    let mut input = input;
    let mut end = end;
    for _ in 0..u64::MAX {
        let first = end.place;
        let entries = read_some(alloc, &mut end, &mut input)?;
        if entries.as_slice().is_empty() {
            drop(entries);
            return Ok(());
        }
        let written = put(conn, first, entries.as_slice());
        drop(entries);
        written?;
    }
    Ok(())
}

// Puts in entries behind so many.
fn put<S: Alter>(
    conn: &mut Connection<S>,
    first: u32,
    entries: &[JournalEntry],
) -> Result<(), NodeFault> {
    let Ok(count) = u32::try_from(entries.len()) else {
        return Err(NodeFault::Journal(JournalFault::Full));
    };
    let Some(_end) = first.checked_add(count) else {
        return Err(NodeFault::Journal(JournalFault::Full));
    };
    Ok(append(conn, first, entries)?)
}

// The entries of the next lines.
fn read_some<R: Read>(
    alloc: Global,
    end: &mut Cursor,
    input: &mut BufReader<R>,
) -> Result<Vec<JournalEntry>, NodeFault> {
    let mut entries = Vec::new(alloc);
    for _ in 0..TOGETHER {
        match next_line(alloc, input)? {
            Some(line) => {
                let entry = entry_of(alloc, end, line.as_slice());
                drop(line);
                entries.push(entry?)?;
            }
            None => return Ok(entries),
        }
    }
    Ok(entries)
}

// The next line, or none.
fn next_line<R: Read>(
    alloc: Global,
    input: &mut BufReader<R>,
) -> Result<Option<Vec<u8>>, NodeFault> {
    let mut line = Vec::new(alloc);
    match input.read_until(b'\n', &mut line) {
        Ok(0) => Ok(None),
        Ok(_) => Ok(Some(line)),
        Err(error) => Err(NodeFault::of_input(&error)),
    }
}

// The entry of a line, behind those that were read.
fn entry_of(alloc: Global, end: &mut Cursor, line: &[u8]) -> Result<JournalEntry, NodeFault> {
    let here = end.place;
    let Some(place) = here.checked_add(1) else {
        return Err(NodeFault::Journal(JournalFault::Full));
    };
    let entry = match read_entry(alloc, &end.last, line) {
        Ok(entry) => entry,
        Err(LineFault::NoMemory) => return Err(NodeFault::NoMemory),
        Err(_) => return Err(NodeFault::NoEntry(here)),
    };
    let last = digest_after(&end.last, &entry);
    *end = Cursor { place, last };
    Ok(entry)
}

// The entry of a line, behind one with this digest.
fn read_entry(alloc: Global, before: &[u8; 32], line: &[u8]) -> Result<JournalEntry, LineFault> {
    let Ok(text) = str::from_utf8(line) else {
        return Err(LineFault::NotText);
    };
    match Value::from_str(alloc, text) {
        Ok(value) => {
            let entry = entry_in(alloc, before, &value);
            drop(value);
            entry
        }
        Err(error) if error.is_memory() => Err(LineFault::NoMemory),
        Err(_) => Err(LineFault::NotJson),
    }
}

// The entry that an object is, behind one with this digest.
fn entry_in(alloc: Global, before: &[u8; 32], value: &Value) -> Result<JournalEntry, LineFault> {
    let chain = number(value, "chain")?;
    let kind = number(value, "kind")?;
    let event = bytes(alloc, value, "event")?;
    match bytes(alloc, value, "answer") {
        Ok(answer) => match entry_behind(alloc, before, chain, kind, 0, event, answer) {
            Ok(entry) => Ok(entry),
            Err(_) => Err(LineFault::NoMemory),
        },
        Err(fault) => {
            drop(event);
            Err(fault)
        }
    }
}

// The number of a member.
fn number(value: &Value, member: &str) -> Result<u32, LineFault> {
    let number = value
        .get(member)
        .and_then(Value::as_u64)
        .ok_or(LineFault::NoPlace)?;
    u32::try_from(number).map_err(|_| LineFault::NoPlace)
}

// The bytes that a member spells in hex.
fn bytes(alloc: Global, value: &Value, member: &str) -> Result<Vec<u8>, LineFault> {
    let text = value
        .get(member)
        .and_then(Value::as_str)
        .ok_or(LineFault::NoHex)?;
    bytes_of(alloc, text)
}
