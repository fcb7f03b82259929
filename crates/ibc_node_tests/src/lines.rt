//! Lines and what comes of them, and what the words ask for.

use ibc_journal::begin;
use ibc_node::{Node, NodeFault, open_node};
use ibc_node_lines::{EntryFiles, Task, audit_lines, read_words, serve};
use sqlite::{Connection, Error, MemStore};
use std::alloc::Global;
use std::io::{BufReader, Cursor};
use std::process::Abort;
use std::test::Fail;

const GENESIS: &[u8] =
    b"{\"capacity\":64,\"chains\":[{\"name\":\"a\",\"time\":100,\"balances\":[[\"alice\",\"atom\",\"1000\"]]},{\"name\":\"b\",\"time\":100,\"balances\":[]}],\"steps\":[]}";

const LINES: &[u8] =
    b"{\"do\":\"CreateClient\",\"on\":\"a\",\"of\":\"b\"}\n{\"query\":\"entries\"}\nno\n{\"do\":\"CreateClient\",\"on\":\"b\",\"of\":\"b\"}\n";

const ANSWERS: &str =
    "{\"resumed\":{\"entries\":0,\"at\":0}}\n{\"chain\":0,\"place\":0,\"ok\":{\"client\":\"inprocess-0\"}}\n{\"entries\":1}\n{\"line\":3,\"mistake\":\"the line is no JSON\"}\n{\"chain\":1,\"place\":1,\"no\":4,\"why\":\"own chain\"}\n";

// A client is made on each chain: the second is refused, since it is of its own chain.
const ENTRIES: &[u8] =
    b"{\"chain\":0,\"kind\":1,\"event\":\"0101\",\"answer\":\"0102000b696e70726f636573732d3000\"}\n{\"chain\":1,\"kind\":1,\"event\":\"0101\",\"answer\":\"020400\"}\n";

// The identifier ends in 1, and 0 is due.
const OTHER_REPLY: &[u8] =
    b"{\"chain\":0,\"kind\":1,\"event\":\"0101\",\"answer\":\"0102000b696e70726f636573732d3100\"}\n";

const TWO_REPLIES: &str =
    "{\"place\":0,\"lawful\":false,\"due\":{\"ok\":{\"client\":\"inprocess-0\"}},\"kept\":{\"ok\":{\"client\":\"inprocess-1\"}}}\n";

// It is said that height 7 was published and its row there, where nothing was read.
const OTHER_READING: &[u8] =
    b"{\"chain\":1,\"kind\":1,\"event\":\"0101\",\"answer\":\"020401000000000000000702\"}\n";

const TWO_READINGS: &str =
    "{\"place\":0,\"lawful\":false,\"due\":{\"no\":4,\"why\":\"own chain\"},\"kept\":{\"no\":4,\"why\":\"own chain\",\"published\":7,\"row\":\"there\"}}\n";

// There are chains 0 and 1.
const THIRD_CHAIN: &[u8] = b"{\"chain\":2,\"kind\":1,\"event\":\"0101\",\"answer\":\"020300\"}\n";

const NONE_DUE: &str =
    "{\"place\":0,\"lawful\":false,\"due\":null,\"kept\":{\"no\":3,\"why\":\"unknown chain\"}}\n";

// A journal in memory, in a transaction or not.
fn journal(alloc: Global, is_busy: bool) -> Result<Connection<MemStore>, Error> {
    let mut conn = Connection::open_in_memory(alloc)?;
    begin(&mut conn, GENESIS)?;
    if is_busy {
        conn.execute("BEGIN", &[])?;
    }
    Ok(conn)
}

// The node of a journal in memory.
fn node(alloc: Global, is_busy: bool) -> Result<Node<MemStore>, NodeFault> {
    let conn = journal(alloc, is_busy).map_err(NodeFault::from)?;
    open_node(alloc, conn, Some(GENESIS))
}

// What a node writes, and how it ends.
fn answers(
    alloc: Global,
    is_busy: bool,
    batch: usize,
) -> Result<(Vec<u8>, Result<(), NodeFault>), NodeFault> {
    let node = node(alloc, is_busy)?;
    let input = BufReader::new(alloc, LINES).map_err(|_| NodeFault::NoMemory)?;
    let mut output = Vec::new(alloc);
    let ended = match serve(alloc, node, input, &mut output, batch) {
        Ok(node) => {
            drop(node);
            Ok(())
        }
        Err(fault) => Err(fault),
    };
    Ok((output, ended))
}

#[test]
fn lines_are_answered_in_their_order(rt: HostRuntime) -> Result<(), Fail> {
    for batch in [1, 2, 100] {
        let (output, ended) = answers(rt.alloc(), false, batch)?;
        assert!(rt; ended.is_ok());
        assert_eq!(rt; output.as_slice(), ANSWERS.as_bytes());
        drop(output);
    }
    Ok(())
}

#[test]
fn nothing_is_answered_that_is_not_put_in(rt: HostRuntime) -> Result<(), Fail> {
    let (output, ended) = answers(rt.alloc(), true, 1)?;
    assert!(rt; ended.is_err());
    assert_eq!(rt;
        output.as_slice(),
        b"{\"resumed\":{\"entries\":0,\"at\":0}}\n".as_slice()
    );
    drop(output);
    Ok(())
}

#[test]
fn it_ends_where_nothing_can_be_written(rt: HostRuntime) -> Result<(), Fail> {
    let alloc = rt.alloc();
    let node = node(alloc, false)?;
    let input = BufReader::new(alloc, LINES)?;
    let mut output = Cursor::new([0; 40]);
    let ended = serve(alloc, node, input, &mut output, 1);
    assert_eq!(rt; ended.err(), Some(NodeFault::CannotWrite));
    Ok(())
}

// What an audit of entries that are lines writes, and how it ends.
fn audited(alloc: Global, lines: &[u8]) -> Result<(Vec<u8>, Result<(), NodeFault>), NodeFault> {
    let input = BufReader::new(alloc, lines).map_err(|_| NodeFault::NoMemory)?;
    let mut output = Vec::new(alloc);
    let ended = audit_lines(alloc, GENESIS, input, &mut output);
    Ok((output, ended))
}

// What an audit of lines writes that finds no lawful run, at place 0.
fn check_unlawful(
    rt: &impl Abort,
    alloc: Global,
    lines: &[u8],
    told: &str,
    why: NodeFault,
) -> Result<(), NodeFault> {
    let (output, ended) = audited(alloc, lines)?;
    assert_eq!(rt; output.as_slice(), told.as_bytes());
    assert_eq!(rt; ended.err(), Some(why));
    drop(output);
    Ok(())
}

#[test]
fn entries_as_lines_are_audited(rt: HostRuntime) -> Result<(), Fail> {
    let alloc = rt.alloc();
    let (output, ended) = audited(alloc, ENTRIES)?;
    assert!(rt; ended.is_ok());
    assert_eq!(rt;
        output.as_slice(),
        b"{\"entries\":2,\"lawful\":true}\n".as_slice()
    );
    drop(output);
    let other = NodeFault::OtherAnswer(0);
    check_unlawful(&rt, alloc, OTHER_REPLY, TWO_REPLIES, other)?;
    check_unlawful(&rt, alloc, OTHER_READING, TWO_READINGS, other)?;
    check_unlawful(&rt, alloc, THIRD_CHAIN, NONE_DUE, other)?;
    check_unlawful(&rt, alloc, b"{}\n", "", NodeFault::NoEntry(0))?;
    Ok(())
}

// How an audit of entries that are lines ends where nothing can be written.
fn audited_unheard(alloc: Global, lines: &[u8]) -> Result<Option<NodeFault>, NodeFault> {
    let input = BufReader::new(alloc, lines).map_err(|_| NodeFault::NoMemory)?;
    let mut output = Cursor::new([0; 8]);
    let ended = audit_lines(alloc, GENESIS, input, &mut output);
    Ok(ended.err())
}

#[test]
fn an_audit_that_nobody_hears_names_the_place(rt: HostRuntime) -> Result<(), Fail> {
    let alloc = rt.alloc();
    let other = Some(NodeFault::OtherAnswer(0));
    assert_eq!(rt; audited_unheard(alloc, OTHER_REPLY)?, other);
    assert_eq!(rt; audited_unheard(alloc, OTHER_READING)?, other);
    assert_eq!(rt; audited_unheard(alloc, THIRD_CHAIN)?, other);
    assert_eq!(rt;
        audited_unheard(alloc, ENTRIES)?,
        Some(NodeFault::CannotWrite)
    );
    Ok(())
}

// How many lines share a commit, where words ask for a journal that is served.
fn batch_of(alloc: Global, words: &[&str]) -> Result<Option<usize>, Fail> {
    match read_words(alloc, words)? {
        Task::Serve(words) => Ok(Some(words.batch)),
        _ => Ok(None),
    }
}

#[test]
fn words_ask_for_a_journal(rt: HostRuntime) -> Result<(), Fail> {
    let alloc = rt.alloc();
    assert_eq!(rt; batch_of(alloc, &["a.db"])?, Some(1));
    assert_eq!(rt; batch_of(alloc, &["a.db", "--batch", "100"])?, Some(100));
    assert_eq!(rt; batch_of(alloc, &["--genesis", "g.json", "a.db"])?, Some(1));
    assert_eq!(rt; batch_of(alloc, &["a.db", "--batch", "0"])?, None);
    assert_eq!(rt; batch_of(alloc, &["a.db", "--batch", "100001"])?, None);
    assert_eq!(rt; batch_of(alloc, &["a.db", "b.db"])?, None);
    assert_eq!(rt; batch_of(alloc, &[])?, None);
    Ok(())
}

#[test]
fn words_ask_for_an_audit_of_lines(rt: HostRuntime) -> Result<(), Fail> {
    let alloc = rt.alloc();
    let files = EntryFiles {
        entries: "a.jsonl",
        genesis: "g.json",
    };
    assert_eq!(rt;
        read_words(
            alloc,
            &["a.jsonl", "--audit", "--lines", "--genesis", "g.json"]
        )?,
        Task::AuditLines(files)
    );
    assert_eq!(rt; read_words(alloc, &["a", "--audit", "--lines"])?, Task::Bad);
    assert_eq!(rt;
        read_words(alloc, &["a", "--lines", "--genesis", "g"])?,
        Task::Bad
    );
    Ok(())
}

#[test]
fn words_ask_for_help(rt: HostRuntime) -> Result<(), Fail> {
    let alloc = rt.alloc();
    assert_eq!(rt; read_words(alloc, &["--help"])?, Task::Help);
    assert_eq!(rt; read_words(alloc, &["--version"])?, Task::Version);
    assert_eq!(rt; read_words(alloc, &["--fly"])?, Task::Bad);
    Ok(())
}
