//! The words of the program.

use clap::error::ErrorKind;
use clap::{Arg, ArgAction, ArgMatches, Command as Parser, Error};
use std::alloc::{AllocError, Global};

/// What the words ask for.
#[derive(Clone, Copy, Debug, PartialEq, Eq)]
pub enum Task<'a> {
    Help,
    Version,
    /// The words ask for nothing that the program does.
    Bad,
    Serve(Words<'a>),
    AuditLines(EntryFiles<'a>),
}

/// The file of the journal, the file of the genesis, how many lines share a commit, and whether the journal is only audited.
#[derive(Clone, Copy, Debug, PartialEq, Eq)]
pub struct Words<'a> {
    pub journal: &'a str,
    pub genesis: Option<&'a str>,
    pub batch: usize,
    pub audits: bool,
}

/// The file of entries that are lines, and the file of the genesis.
#[derive(Clone, Copy, Debug, PartialEq, Eq)]
pub struct EntryFiles<'a> {
    pub entries: &'a str,
    pub genesis: &'a str,
}

/// What `--help` writes.
pub fn help() -> &'static str {
    "\
ibcnode FILE.db [--genesis FILE.json] [--batch N]
ibcnode FILE.db --audit [--genesis FILE.json]
ibcnode FILE.jsonl --audit --lines --genesis FILE.json

Answers each line of its input with a line, after its entry is on the disk. Started again, it goes on where it was.

  FILE.db              the journal, with FILE.db-wal beside it. It is made where it isn't there
  --genesis FILE.json  how a new world begins: a script whose list of steps is empty.
                       The genesis of a journal that is there has to be the same
  --batch N            lines that have come together share a commit, at most N, 1 to 100000; without it 1
  --audit              reads no input: replays the journal, and tells whether it is a lawful run,
                       or which two answers differ first
  --lines              the file has an entry on each line, as {\"query\": \"kept\"} tells them: chain, kind, event, answer
  --help, --version

Lines, each a JSON object:
  {\"do\": .., \"on\": ..}                            a step, as scripts have it
  {\"chain\": 0, \"message\": \"HEX\"}                  a message by its bytes
  {\"chain\": 0, \"block\": TIME}                     the end of a block, with the time of the next one
  {\"query\": \"entries\"}                            how many entries there are
  {\"query\": \"kept\", \"from\": 0}                    entries from a place on, at most 100
  {\"query\": \"balances\", \"chain\": 0}               who holds how much
  {\"query\": \"value\", \"chain\": 0, \"path\": \"..\"}    what a chain has under a path of ICS 24
  {\"query\": \"root\", \"chain\": 0, \"height\": 1}      the root of a committed height
  {\"query\": \"proof\", \"chain\": 0, \"height\": 1, \"path\": \"..\"}
  {\"query\": \"totals\", \"chain\": 0, \"channel\": \"..\", \"denom\": \"..\"}
  {\"query\": \"plan\", \"from\": 0, \"to\": 1}           what a relayer would send
With \"at\": N, a step, a message or a block names its place in a log. A line whose place isn't above the
last one is answered from the journal, and done once.

It ends with 0 at the end of its input, or when nobody reads its output; with 1 where it can't go on, and
then says why; and with 2 for other words than these.
"
}

/// What `--version` writes.
pub fn version() -> &'static str {
    "ibcnode 0.1.0\n"
}

/// What the words after the program's name ask for.
pub fn read_words<'a>(alloc: Global, words: &'a [&'a str]) -> Result<Task<'a>, AllocError> {
    let parser = parser(alloc)?;
    match parser.try_get_matches_from(words) {
        Ok(found) => {
            let task = task_of(&found);
            drop(found);
            Ok(task)
        }
        Err(error) => task_of_error(error),
    }
}

fn parser<'a>(alloc: Global) -> Result<Parser<'a>, AllocError> {
    let journal = Arg::new(alloc, "journal")
        .required(true)
        .action(ArgAction::Set);
    let genesis = option(alloc, "genesis");
    let batch = option(alloc, "batch");
    let audit = Arg::new(alloc, "audit")
        .long("audit")
        .action(ArgAction::SetTrue);
    let lines = Arg::new(alloc, "lines")
        .long("lines")
        .action(ArgAction::SetTrue);
    let parser = Parser::new(alloc, "ibcnode")
        .version("0.1.0")
        .no_binary_name(true);
    let parser = parser.arg(journal)?.arg(genesis)?.arg(batch)?;
    parser.arg(audit)?.arg(lines)
}

// An argument with a value, by its name.
fn option<'a>(alloc: Global, name: &'a str) -> Arg<'a> {
    Arg::new(alloc, name).long(name).action(ArgAction::Set)
}

fn task_of<'a>(found: &ArgMatches<'a>) -> Task<'a> {
    let Some(journal) = found.get_str("journal") else {
        return Task::Bad;
    };
    let Some(batch) = batch_of(found.get_str("batch")) else {
        return Task::Bad;
    };
    let words = Words {
        journal,
        genesis: found.get_str("genesis"),
        batch,
        audits: found.get_flag("audit"),
    };
    if found.get_flag("lines") {
        lines_of(words)
    } else {
        Task::Serve(words)
    }
}

// The audit of entries that are lines, which has a genesis.
fn lines_of<'a>(words: Words<'a>) -> Task<'a> {
    match words.genesis {
        Some(genesis) if words.audits => Task::AuditLines(EntryFiles {
            entries: words.journal,
            genesis,
        }),
        _ => Task::Bad,
    }
}

fn task_of_error<'a>(error: Error) -> Result<Task<'a>, AllocError> {
    match error.kind() {
        ErrorKind::DisplayHelp => Ok(Task::Help),
        ErrorKind::DisplayVersion => Ok(Task::Version),
        ErrorKind::OutOfMemory => Err(AllocError),
        _ => Ok(Task::Bad),
    }
}

// How many lines a text says, 1 where there is none.
fn batch_of(text: Option<&str>) -> Option<usize> {
    let Some(text) = text else {
        return Some(1);
    };
    match text.parse::<usize>() {
        Ok(count) if 1 <= count && count <= 100_000 => Some(count),
        _ => None,
    }
}
