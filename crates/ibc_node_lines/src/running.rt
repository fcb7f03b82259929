//! A node and an audit from the files on, whatever these hold.

ghost use Rattle.std.specs.Prelude.{◌≡◌, List, ℕ, option_copied, IfOk, OnOk};
ghost use Rattle.sqlite.specs.State.{HasCleanDisk};
ghost use Rattle.sqlite.specs.WalFiles.{image_at};
ghost use Rattle.sqlite.specs.Files.{file_state};
ghost use Rattle.sqlite.specs.Held.{state};
ghost use Rattle.ibc_journal.specs.Tables.{journal_schema, JournalItem};
ghost use Rattle.ibc_journal.specs.Changes.{CrashLeaves};
ghost use Rattle.ibc_journal.specs.Crashes.{LeavesNothing};
ghost use Rattle.ibc_journal.specs.Restarts.{IsAtRest};
ghost use Rattle.ibc_node.specs.Nodes.{node_journal, HoldsWholeJournal};
ghost use Rattle.ibc_node_lines.specs.Runs.{HasServed, HasAudited};

use crate::auditing::tell_audit;
use crate::serving::serve;
use ibc_journal::open_journal;
use ibc_node::{Node, NodeFault, audit_journal, open_at};
use sqlite::{Alter, Connection, FileFrom, FileStore, Start};
use std::alloc::Global;
use std::io::{BufReader, Read, Write};

/// The node of the files at a path, from its start to the end of its input. `start` stands for what they hold. Where that is a journal,
/// the world is its replay, the first line says how many entries there were, what is told of events is of what the world keeps, and at the
/// end its journal has all of that.
pub fn run_node<S: Start, R: Read + Drop, W: Write>(
    rt: &HostRuntime,
    path: &str,
    start: S,
    genesis: Option<&[u8]>,
    input: BufReader<R>,
    output: &mut W,
    batch: usize,
) -> Result<Node<FileStore<FileFrom<S>>>, NodeFault>
    ensures { (text : List ℕ) (items : List JournalItem) → HoldsWholeJournal (image_at S.Start) text items
        → IfOk result (λ after. HasCleanDisk (node_journal file_state after)
        → HasServed file_state (option_copied genesis.entry) text items (W.contents output.old) after (W.contents output.new)) }
{
    match open_at(rt, path, start, genesis) {
        Ok(node) => serve(rt.alloc(), node, input, output, batch),
        Err(fault) => {
            drop(input);
            Err(fault)
        }
    }
}

/// Audits the journal of the files at a path, and tells what it finds, as `tell_audit` does. It ends well only where that is a lawful run.
pub fn run_audit<S: Start, W: Write>(
    rt: &HostRuntime,
    path: &str,
    start: S,
    genesis: Option<&[u8]>,
    output: &mut W,
) -> Result<Connection<FileStore<FileFrom<S>>>, NodeFault>
    ensures { (text : List ℕ) (items : List JournalItem) → HoldsWholeJournal (image_at S.Start) text items
        → IfOk result (λ conn. HasCleanDisk (file_state conn)
        → HasAudited (option_copied genesis.entry) text items (file_state conn) (W.contents output.old) (W.contents output.new)) }
{
    let conn = open_journal(rt, path, start)?;
    let mut conn = conn;
    audit_told(rt.alloc(), &mut conn, genesis, output)?;
    Ok(conn)
}

// Audits the journal of a connection, and tells what it finds.
fn audit_told<S: Alter, W: Write>(
    alloc: Global,
    conn: &mut Connection<S>,
    genesis: Option<&[u8]>,
    output: &mut W,
) -> Result<(), NodeFault>
    ensures audited { (text : List ℕ) (items : List JournalItem) → IsAtRest (state S.Store conn.old) text items
        → HasCleanDisk (state S.Store conn.new) → OnOk result (HasAudited (option_copied genesis.entry) text items (state S.Store conn.new) (W.contents output.old) (W.contents output.new)) }
    ensures which { OnOk result ((state S.Store conn.old).now.schema ≡ journal_schema) }
    ensures crash { CrashLeaves (state S.Store) conn.old conn.new LeavesNothing }
{
    let found = audit_journal(alloc, conn, genesis)?;
    let told = tell_audit(alloc, &found, output);
    drop(found);
    told
}
