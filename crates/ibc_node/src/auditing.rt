//! A journal is audited.

ghost use Rattle.std.specs.Prelude.{◌≡◌, Ok, Err, OnOk};
ghost use Rattle.sqlite.specs.Held.{state};
ghost use Rattle.ibc_journal.specs.Tables.{no_schema, journal_schema};
ghost use Rattle.ibc_journal.specs.Crashes.{LeavesNothing};
ghost use Rattle.ibc_journal.specs.Changes.{CrashLeaves};
ghost use Rattle.ibc_node.specs.Starts.{AuditFails, AuditsGiven, AuditsJournal, RestsOn};

use crate::NodeFault;
use crate::opening::{judge, replay_from};
use crate::unread::Unread;
use ibc_journal::{Beginning, Looks, beginning_of, look};
use ibc_replay::Difference;
use sqlite::{Alter, Connection};
use std::alloc::Global;

/// What an audit finds of a journal.
#[derive(Drop)]
pub enum JournalAudit {
    /// It has so many entries, and they are a lawful run.
    Lawful { entries: u32 },
    /// They aren't one. This tells the first place that differs, with the answer that is due there and the one that is kept.
    Differs(Difference),
}

/// Replays the journal of a connection, and compares each answer with the one that is due. Fault: `NoJournal` where the file has other
/// tables or none; `OtherFormat`; `OtherGenesis` where the journal began with another genesis than this; the first place that is damaged,
/// is missing or spells no event and answer; `NoMemory`.
pub fn audit_journal<S: Alter>(
    alloc: Global,
    conn: &mut Connection<S>,
    genesis: Option<&[u8]>,
) -> Result<JournalAudit, NodeFault>
    ensures audited { AuditsJournal (state S.Store) conn.old conn.new result }
    ensures faults { AuditFails (state S.Store) conn.old conn.new genesis.entry result }
    // Where a genesis is given, it is the journal's own.
    ensures asked { AuditsGiven (state S.Store) conn.old conn.new genesis.entry result }
    // The journal is what it was. A crash at any moment of the call leaves what it could leave before.
    ensures rest { RestsOn (state S.Store) conn.old conn.new result }
    ensures which { OnOk result ((state S.Store conn.old).now.schema ≡ journal_schema) }
    ensures empty { (state S.Store conn.old).now.schema ≡ no_schema → result ≡ Err NodeFault.NoJournal }
    ensures crash { CrashLeaves (state S.Store) conn.old conn.new LeavesNothing }
{
    let looks = look(alloc, conn)?;
    match looks {
        Looks::Journal => audit_entries(alloc, conn, genesis),
        Looks::OfFormat(format) => Err(NodeFault::OtherFormat(format)),
        Looks::Empty => Err(NodeFault::NoJournal),
        Looks::Other => Err(NodeFault::NoJournal),
    }
}

// Audits a journal whose tables are there.
fn audit_entries<S: Alter>(
    alloc: Global,
    conn: &mut Connection<S>,
    genesis: Option<&[u8]>,
) -> Result<JournalAudit, NodeFault>
    ensures audited { AuditsJournal (state S.Store) conn.old conn.new result }
    ensures faults { AuditFails (state S.Store) conn.old conn.new genesis.entry result }
    ensures asked { AuditsGiven (state S.Store) conn.old conn.new genesis.entry result }
    ensures rest { RestsOn (state S.Store) conn.old conn.new result }
    ensures crash { CrashLeaves (state S.Store) conn.old conn.new LeavesNothing }
{
    let began = beginning_of(conn)?;
    judge(&began, genesis)?;
    let Beginning { format: _, genesis } = began;
    match replay_from(alloc, conn, genesis.as_slice()) {
        Ok(past) => {
            let entries = past.end.place;
            drop(past);
            Ok(JournalAudit::Lawful { entries })
        }
        Err(Unread::Fault(fault)) => Err(fault),
        Err(Unread::Differs(why)) => Ok(JournalAudit::Differs(why)),
    }
}
