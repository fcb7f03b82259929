//! Worlds that go on where their journals end, and files that are none of theirs.

use ibc_ids::Refusal;
use ibc_journal::{JournalEntry, JournalFault, append, begin, entry_behind, first_digest};
use ibc_machine::{Effect, Event, Reply};
use ibc_node::{JournalAudit, KeptAnswer, Node, NodeFault, audit_journal, open_node};
use ibc_replay::{Answered, Difference};
use ibc_wire::{CreateClient, Message};
use sqlite::{Alter, Connection, Error};
use std::alloc::Global;
use std::fs;
use std::test::Fail;

const GENESIS: &[u8] =
    b"{\"capacity\":64,\"chains\":[{\"name\":\"a\",\"time\":100,\"balances\":[[\"alice\",\"atom\",\"1000\"]]},{\"name\":\"b\",\"time\":100,\"balances\":[]}],\"steps\":[]}";

const OTHER: &[u8] =
    b"{\"capacity\":64,\"chains\":[{\"name\":\"a\",\"time\":101,\"balances\":[]},{\"name\":\"b\",\"time\":100,\"balances\":[]}],\"steps\":[]}";

// An empty folder.
fn folder(rt: &HostRuntime, name: &str) -> Result<(), Fail> {
    let _ = fs::remove_dir_all(rt, name);
    fs::create_dir(rt, name)?;
    Ok(())
}

fn fault_of(error: Error) -> NodeFault {
    NodeFault::from(error)
}

// A client of a chain is made on a chain.
fn create(chain: u8, of: u8) -> Event {
    Event::Message {
        chain,
        message: Message::CreateClient(CreateClient { chain: of }),
    }
}

fn block(chain: u8, next_time: u64) -> Event {
    Event::Block { chain, next_time }
}

// What a node answers, and where: the number of a refusal, or 0.
fn number_of(kept: Result<KeptAnswer, NodeFault>) -> Result<(Option<u32>, u8), NodeFault> {
    let KeptAnswer { place, reply } = kept?;
    let number = match &reply {
        Reply::Ok(_) => 0,
        Reply::No(refusal) => refusal.number(),
    };
    drop(reply);
    Ok((place, number))
}

// Asks a node for events, three of which it keeps, and puts these in.
fn ask_some<S: Alter>(node: &mut Node<S>) -> Result<[(Option<u32>, u8); 4], NodeFault> {
    let one = number_of(node.take(0, create(0, 1)))?;
    let two = number_of(node.take(7, block(1, 105)))?;
    let none = number_of(node.take(8, block(5, 105)))?;
    let three = number_of(node.take(9, block(1, 99)))?;
    node.settle()?;
    Ok([one, two, none, three])
}

// The node of a file, which goes on and is let go: what it answered.
fn run(rt: &HostRuntime, path: &str) -> Result<[(Option<u32>, u8); 4], NodeFault> {
    let conn = Connection::open(rt, path).map_err(fault_of)?;
    let mut node = open_node(rt.alloc(), conn, Some(GENESIS))?;
    ask_some(&mut node)
}

// How many entries the node of a file has, and its last place of a log.
fn entries(rt: &HostRuntime, path: &str, genesis: Option<&[u8]>) -> Result<(u32, u32), NodeFault> {
    let conn = Connection::open(rt, path).map_err(fault_of)?;
    let node = open_node(rt.alloc(), conn, genesis)?;
    Ok((node.entries(), node.log_place()))
}

#[test]
fn a_world_goes_on_where_it_was(rt: HostRuntime) -> Result<(), Fail> {
    folder(&rt, "node_goes_on")?;
    let path = "node_goes_on/a.db";
    let first = run(&rt, path)?;
    assert!(rt; first == [(Some(0), 0), (Some(1), 0), (None, 3), (Some(2), 27)]);
    assert_eq!(rt; entries(&rt, path, None)?, (3, 9));
    let second = run(&rt, path)?;
    assert!(rt; second == [(Some(3), 0), (Some(4), 0), (None, 3), (Some(5), 27)]);
    assert_eq!(rt; entries(&rt, path, Some(GENESIS))?, (6, 9));
    fs::remove_dir_all(&rt, "node_goes_on")?;
    Ok(())
}

// What came by a place of a log: the chain, the place and the number.
fn again(
    rt: &HostRuntime,
    path: &str,
    log_place: u32,
) -> Result<Option<(u8, Option<u32>, u8)>, NodeFault> {
    let conn = Connection::open(rt, path).map_err(fault_of)?;
    let mut node = open_node(rt.alloc(), conn, None)?;
    let mut told = node.again(log_place)?;
    let found = told.pop();
    drop(told);
    match found {
        Some((chain, kept)) => {
            let (place, number) = number_of(Ok(kept))?;
            Ok(Some((chain, place, number)))
        }
        None => Ok(None),
    }
}

#[test]
fn a_line_of_a_log_is_answered_again(rt: HostRuntime) -> Result<(), Fail> {
    folder(&rt, "node_again")?;
    let path = "node_again/a.db";
    let _ = run(&rt, path)?;
    assert_eq!(rt; again(&rt, path, 7)?, Some((1, Some(1), 0)));
    assert_eq!(rt; again(&rt, path, 9)?, Some((1, Some(2), 27)));
    assert_eq!(rt; again(&rt, path, 8)?, None);
    fs::remove_dir_all(&rt, "node_again")?;
    Ok(())
}

// An event of chain 0 with an answer, as a journal keeps them.
fn entry(alloc: Global, event: &[u8], answer: &[u8]) -> Result<JournalEntry, Error> {
    let event = Vec::from_slice(alloc, event)?;
    let answer = Vec::from_slice(alloc, answer)?;
    let before = first_digest(GENESIS);
    Ok(entry_behind(alloc, &before, 0, 1, 0, event, answer)?)
}

// Puts in an entry with the digest that is due.
fn put<S: Alter>(conn: &mut Connection<S>, entry: JournalEntry) -> Result<(), Error> {
    begin(conn, GENESIS)?;
    append(conn, 0, [entry].as_slice())
}

// Makes a journal with one entry whose digest is due, whatever it says.
fn make(rt: &HostRuntime, path: &str, event: &[u8], answer: &[u8]) -> Result<(), Error> {
    let mut conn = Connection::open(rt, path)?;
    let entry = entry(rt.alloc(), event, answer)?;
    put(&mut conn, entry)?;
    conn.close()
}

// What an audit of a file finds.
fn audited(rt: &HostRuntime, path: &str) -> Result<JournalAudit, NodeFault> {
    let mut conn = Connection::open(rt, path).map_err(fault_of)?;
    audit_journal(rt.alloc(), &mut conn, Some(GENESIS))
}

// Whether an answer is a new client of this name.
fn is_client(given: &Answered, name: &str) -> bool {
    match &given.reply {
        Reply::Ok(Effect::Client(id)) => id.as_str() == name,
        _ => false,
    }
}

// Whether an audit of a file finds at place 0 that these clients are due and kept.
fn finds_clients(
    rt: &HostRuntime,
    path: &str,
    due_name: &str,
    kept_name: &str,
) -> Result<bool, NodeFault> {
    let found = audited(rt, path)?;
    let finds = match &found {
        JournalAudit::Differs(
            Difference::At {
                place: 0,
                due,
                stored,
            },
        ) => is_client(due, due_name) && is_client(stored, kept_name),
        _ => false,
    };
    drop(found);
    Ok(finds)
}

// How many entries an audit of a file finds to be a lawful run.
fn lawful_entries(rt: &HostRuntime, path: &str) -> Result<Option<u32>, NodeFault> {
    match audited(rt, path)? {
        JournalAudit::Lawful { entries } => Ok(Some(entries)),
        JournalAudit::Differs(why) => {
            drop(why);
            Ok(None)
        }
    }
}

#[test]
fn an_audit_tells_both_answers(rt: HostRuntime) -> Result<(), Fail> {
    folder(&rt, "node_audit")?;
    let path = "node_audit/a.db";
    let _ = run(&rt, path)?;
    assert_eq!(rt; lawful_entries(&rt, path)?, Some(3));
    let path = "node_audit/b.db";
    make(&rt, path, &[1, 1], b"\x01\x02\x00\x0binprocess-1\x00")?;
    assert!(rt; finds_clients(&rt, path, "inprocess-0", "inprocess-1")?);
    assert_eq!(rt; lawful_entries(&rt, path)?, None);
    fs::remove_dir_all(&rt, "node_audit")?;
    Ok(())
}

#[test]
fn another_answer_is_found(rt: HostRuntime) -> Result<(), Fail> {
    folder(&rt, "node_answers")?;
    let path = "node_answers/a.db";
    make(&rt, path, &[1, 1], b"\x01\x02\x00\x0binprocess-0\x00")?;
    assert_eq!(rt; entries(&rt, path, None).ok(), Some((1, 0)));
    let path = "node_answers/b.db";
    make(&rt, path, &[1, 1], b"\x01\x02\x00\x0binprocess-1\x00")?;
    assert_eq!(rt;
        entries(&rt, path, None).err(),
        Some(NodeFault::OtherAnswer(0))
    );
    fs::remove_dir_all(&rt, "node_answers")?;
    Ok(())
}

#[test]
fn bytes_of_no_entry_are_found(rt: HostRuntime) -> Result<(), Fail> {
    folder(&rt, "node_no_entry")?;
    let path = "node_no_entry/a.db";
    make(&rt, path, &[1, 1], b"\x03")?;
    assert_eq!(rt; entries(&rt, path, None).err(), Some(NodeFault::NoEntry(0)));
    fs::remove_dir_all(&rt, "node_no_entry")?;
    Ok(())
}

// Changes a file by SQL.
fn change(rt: &HostRuntime, path: &str, text: &str) -> Result<(), Error> {
    let mut conn = Connection::open(rt, path)?;
    conn.execute_batch(text)?;
    conn.close()
}

#[test]
fn other_files_are_refused(rt: HostRuntime) -> Result<(), Fail> {
    folder(&rt, "node_other")?;
    let path = "node_other/new.db";
    assert_eq!(rt; entries(&rt, path, None).err(), Some(NodeFault::NoGenesis));
    assert_eq!(rt;
        entries(&rt, path, Some(b"{}")).err(),
        Some(NodeFault::BadGenesis)
    );
    assert_eq!(rt; entries(&rt, path, Some(GENESIS)).ok(), Some((0, 0)));
    assert_eq!(rt;
        entries(&rt, path, Some(OTHER)).err(),
        Some(NodeFault::OtherGenesis)
    );
    let path = "node_other/t.db";
    change(&rt, path, "CREATE TABLE t (a INTEGER) STRICT")?;
    assert_eq!(rt; entries(&rt, path, None).err(), Some(NodeFault::NoJournal));
    fs::remove_dir_all(&rt, "node_other")?;
    Ok(())
}

#[test]
fn a_damaged_entry_is_found(rt: HostRuntime) -> Result<(), Fail> {
    folder(&rt, "node_damaged")?;
    let path = "node_damaged/a.db";
    let _ = run(&rt, path)?;
    change(&rt, path, "UPDATE entries SET kind = 1 WHERE place = 1")?;
    let damaged = NodeFault::Journal(JournalFault::Damaged(1));
    assert_eq!(rt; entries(&rt, path, None).err(), Some(damaged));
    fs::remove_dir_all(&rt, "node_damaged")?;
    Ok(())
}

// How the node of a file doesn't open that was changed by SQL.
fn fault_after(rt: &HostRuntime, path: &str, text: &str) -> Result<Option<NodeFault>, Fail> {
    let _ = run(rt, path)?;
    change(rt, path, text)?;
    Ok(entries(rt, path, None).err())
}

#[test]
fn rows_that_no_reader_comes_to_are_found(rt: HostRuntime) -> Result<(), Fail> {
    folder(&rt, "node_rows")?;
    let early =
        "INSERT INTO entries SELECT -1, chain, kind, log_place, event, answer, digest FROM entries WHERE place = 0";
    assert_eq!(rt;
        fault_after(&rt, "node_rows/a.db", early)?,
        Some(NodeFault::Journal(JournalFault::Early))
    );
    let again = "INSERT INTO meta SELECT 2, genesis FROM meta";
    assert_eq!(rt;
        fault_after(&rt, "node_rows/b.db", again)?,
        Some(NodeFault::Journal(JournalFault::Beginnings))
    );
    fs::remove_dir_all(&rt, "node_rows")?;
    Ok(())
}

#[test]
fn faults_tell_why(rt: HostRuntime) -> Result<(), Fail> {
    let text = format!(in rt.alloc(); "{}", NodeFault::OtherAnswer(3))?;
    assert_eq!(rt; text.as_str(), "another answer is due at place 3");
    drop(text);
    let text = format!(in rt.alloc(); "{}", NodeFault::NoFile)?;
    assert_eq!(rt; text.as_str(), "there is no such file");
    drop(text);
    let memory = NodeFault::of_refusal(Refusal::NoMemory, NodeFault::BadGenesis);
    assert_eq!(rt; memory, NodeFault::NoMemory);
    let other = NodeFault::of_refusal(Refusal::BadMessage, NodeFault::BadGenesis);
    assert_eq!(rt; other, NodeFault::BadGenesis);
    Ok(())
}
