//! A world that lives: it answers lines, and its journal has each answer before it is told.
#![tactic(auto)]

use ibc_node::NodeFault;
use ibc_node_lines::{
    EntryFiles, Task, Words, audit_lines, help, read_words, run_audit, run_node, version,
};
use sqlite::Wary;
use std::alloc::Global;
use std::io::{BufReader, BufWriter};
use std::process::ExitCode;
use std::{env, fs, io};

// So many bytes of the input are looked at together.
const AT_HAND: usize = 65_536;

// A log of so many bytes has no page yet.
const EMPTY_LOG: u64 = 64;

// The length of a file, 0 where there is none.
fn length_of(rt: &HostRuntime, path: &str) -> u64 {
    match fs::metadata(rt, path) {
        Ok(found) => found.len(),
        Err(_) => 0,
    }
}

// Whether a log stands beside a file that is empty or gone. SQLite would take it for one that is done with, and begin it anew.
fn is_cut(rt: &HostRuntime, path: &str) -> Result<bool, NodeFault> {
    let alloc = rt.alloc();
    let log = format!(in alloc; "{path}-wal")?;
    let has_log = length_of(rt, log.as_str()) > EMPTY_LOG;
    drop(log);
    Ok(has_log && length_of(rt, path) == 0)
}

// The bytes of the genesis, where a file is named.
fn genesis_of(rt: &HostRuntime, path: Option<&str>) -> Result<Option<Vec<u8>>, NodeFault> {
    match path {
        Some(path) => Ok(Some(bytes_of(rt, path)?)),
        None => Ok(None),
    }
}

// The bytes of a file of the genesis.
fn bytes_of(rt: &HostRuntime, path: &str) -> Result<Vec<u8>, NodeFault> {
    match fs::read(rt, path) {
        Ok(bytes) => Ok(bytes),
        Err(error) => Err(NodeFault::of_genesis_file(&error)),
    }
}

// Opens the journal, and answers lines. That nobody reads the answers is an end like any other.
fn answer(rt: &HostRuntime, words: &Words<'_>, genesis: Option<&[u8]>) -> Result<(), NodeFault> {
    match answer_lines(rt, words, genesis) {
        Err(NodeFault::Unheard) => Ok(()),
        ended => ended,
    }
}

fn answer_lines(
    rt: &HostRuntime,
    words: &Words<'_>,
    genesis: Option<&[u8]>,
) -> Result<(), NodeFault> {
    let alloc = rt.alloc();
    let Ok(input) = BufReader::with_capacity(alloc, AT_HAND, rt.reader()) else {
        return Err(NodeFault::NoMemory);
    };
    let Ok(mut output) = BufWriter::new(alloc, io::writer(rt)) else {
        drop(input);
        return Err(NodeFault::NoMemory);
    };
    let path = words.journal;
    let node = run_node(rt, path, Wary, genesis, input, &mut output, words.batch)?;
    drop(node);
    Ok(())
}

// Tells what an audit finds of the journal. None is made.
fn audit(rt: &HostRuntime, words: &Words<'_>, genesis: Option<&[u8]>) -> Result<(), NodeFault> {
    if !fs::exists(rt, words.journal).unwrap_or(false) {
        return Err(NodeFault::NoFile);
    }
    if length_of(rt, words.journal) == 0 {
        return Err(NodeFault::NoJournal);
    }
    let conn = run_audit(rt, words.journal, Wary, genesis, &mut io::writer(rt))?;
    drop(conn);
    Ok(())
}

// Reads entries that are lines, and tells what an audit finds.
fn audit_entries(rt: &HostRuntime, files: EntryFiles<'_>) -> Result<(), NodeFault> {
    let genesis = bytes_of(rt, files.genesis)?;
    let told = audit_file(rt, files.entries, genesis.as_slice());
    drop(genesis);
    told
}

fn audit_file(rt: &HostRuntime, path: &str, genesis: &[u8]) -> Result<(), NodeFault> {
    let alloc = rt.alloc();
    let file = match fs::open(rt, path) {
        Ok(file) => file,
        Err(error) => return Err(NodeFault::of_entry_file(&error)),
    };
    let Ok(input) = BufReader::with_capacity(alloc, AT_HAND, file) else {
        return Err(NodeFault::NoMemory);
    };
    audit_lines(alloc, genesis, input, &mut io::writer(rt))
}

// Answers lines, or tells what an audit finds.
fn work(rt: &HostRuntime, words: Words<'_>) -> Result<(), NodeFault> {
    if is_cut(rt, words.journal)? {
        return Err(NodeFault::NoJournal);
    }
    let genesis = genesis_of(rt, words.genesis)?;
    let bytes = genesis.as_ref().map(|bytes| bytes.as_slice());
    if words.audits {
        audit(rt, &words, bytes)
    } else {
        answer(rt, &words, bytes)
    }
}

// Does what the words ask for. Answers the status.
fn run(rt: &HostRuntime, words: &[&str]) -> io::Result<u8> {
    match read_words(rt.alloc(), words)? {
        Task::Help => print!(rt; "{}", help())?,
        Task::Version => print!(rt; "{}", version())?,
        Task::Bad => {
            eprintln!(rt; "ibcnode: bad arguments; ibcnode --help tells them")?;
            return Ok(2);
        }
        Task::Serve(words) => return status_of(rt, words.journal, work(rt, words)),
        Task::AuditLines(files) => return status_of(rt, files.entries, audit_entries(rt, files)),
    }
    Ok(0)
}

// The status of work on a file that ended so. Why it ended is said.
fn status_of(rt: &HostRuntime, path: &str, ended: Result<(), NodeFault>) -> io::Result<u8> {
    match ended {
        Ok(()) => Ok(0),
        Err(fault) => {
            eprintln!(rt; "ibcnode: {path}: {fault}")?;
            Ok(1)
        }
    }
}

// The words after the program's name.
fn words_of(rt: &HostRuntime, alloc: Global) -> io::Result<Vec<String>> {
    let mut texts = Vec::new(alloc);
    for word in env::args(rt)?.skip(1) {
        texts.push(word)?;
    }
    Ok(texts)
}

fn main(rt: HostRuntime) -> io::Result<ExitCode> {
    let alloc = rt.alloc();
    let texts = words_of(&rt, alloc)?;
    let words: Vec<&str> = texts.iter().map(|word| word.as_str()).collect(alloc)?;
    let status = run(&rt, words.as_slice())?;
    Ok(ExitCode::from(status))
}
