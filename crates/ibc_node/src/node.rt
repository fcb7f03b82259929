//! A world beside its journal.

ghost use Rattle.std.specs.Prelude.{◌≡◌, ◌≢◌, ◌+◌, ◌<◌, ◌≤◌, ◌^◌, ◌∷◌, [], None, length, IfErr, IfNone, IfOk, IfSome, OnOk};
ghost use Rattle.sqlite.specs.Held.{state};
ghost use Rattle.ibc_machine.specs.declared.reply.Reply.TheVariants.{No};
ghost use Rattle.ibc_machine.specs.ledger.Ledgers.{chain_of};
ghost use Rattle.ibc_journal.specs.Entries.{item};
ghost use Rattle.ibc_node.specs.Marks.{IsLastPlace, node_marks};
ghost use Rattle.ibc_node.specs.Faults.{IsOfRoom};
ghost use Rattle.ibc_node.specs.Nodes.{node_connection, node_world, node_end, node_genesis, node_waiting, IsToldOf, StaysBeside, TellsOn};
ghost use Rattle.ibc_node.specs.Turns.{FailsOfFile, FindsEntryAt, IsEndBehind, MarksAnswer, MarksWaiting, RefusesUnknown, RefusesUnspelt, SettleLeaves, SettlesAll, SettlesLasting, SettlesNone, TakesKept, TellsKept, WaitsBehind};

use crate::NodeFault;
use crate::keeping::{Asked, ask, chain_of};
use crate::reading::{LogMark, entry_of, mark};
use ibc_ids::Refusal;
use ibc_journal::{Cursor, JournalEntry, JournalFault, append, entry_at};
use ibc_machine::{Entry, Event, Reply};
use ibc_world_core::World;
use sqlite::{Alter, Connection};
use std::alloc::{AllocError, Global};

/// A world, and the journal of what it was asked and answered. Entries of the last answers may wait to be put in.
pub struct Node<S: Alter> {
    pub(crate) alloc: Global,
    pub(crate) conn: Connection<S>,
    pub(crate) genesis: Vec<u8>,
    pub(crate) world: World,
    pub(crate) end: Cursor,
    pub(crate) marks: Vec<LogMark>,
    pub(crate) waiting: Vec<JournalEntry>,
}

impl<S: Alter + Drop> Drop for Node<S> {
    fn drop(self) {
        let Node {
            alloc: _,
            conn: _,
            genesis: _,
            world: _,
            end: _,
            marks: _,
            waiting: _,
        } = self;
    }
}

/// What came of an event: the place of its entry, where one is kept, and the reply.
#[derive(Debug, Drop)]
pub struct KeptAnswer {
    pub place: Option<u32>,
    pub reply: Reply,
}

// An event of which no entry is kept.
fn not_kept(refusal: Refusal) -> KeptAnswer
    ensures place { result.place ≡ None }
    ensures reply { result.reply ≡ No refusal }
{
    KeptAnswer {
        place: None,
        reply: Reply::No(refusal),
    }
}

// An entry's own digest, or none where it isn't 32 bytes.
fn digest_of(entry: &JournalEntry) -> Option<[u8; 32]>
    ensures digest { IfSome result (λ digest. digest ≡ (item entry.now).digest) }
    ensures none { IfNone result (length (item entry.now).digest ≢ 32) }
{
    match <[u8; 32]>::try_from(entry.digest.as_slice()) {
        Ok(digest) => Some(digest),
        Err(_) => None,
    }
}

// How far a journal goes with one entry more, which has the digest that is due.
fn end_behind(end: &Cursor, entry: &JournalEntry) -> Option<Cursor>
    ensures after { IfSome result (IsEndBehind end.now (item entry.now)) }
    ensures none { length (item entry.now).digest ≡ 32 → IfNone result (2 ^ 32 ≤ end.now.place + 1) }
{
    let Some(place) = end.place.checked_add(1) else {
        return None;
    };
    match digest_of(entry) {
        Some(last) => Some(Cursor { place, last }),
        None => None,
    }
}

// The place of the first of the entries that wait, of which the last is before this one.
fn first_of(end: u32, waiting: &[JournalEntry]) -> Option<u32>
    ensures place { IfSome result (λ first. first + length waiting.now ≡ end) }
    ensures none { IfNone result (end < length waiting.now) }
{
    let count = waiting.len();
    if count > end as usize {
        return None;
    }
    Some(end - count as u32)
}

// The places of the entries whose events came by this place of a log.
fn places_by(alloc: Global, marks: &[LogMark], log_place: u32) -> Result<Vec<u32>, AllocError> {
    let first = marks.partition_point(|it| it.log_place < log_place);
    let mut places = Vec::new(alloc);
    for at in first..marks.len() {
        let Some(found) = marks.get(at).copied() else {
            return Ok(places);
        };
        if found.log_place != log_place {
            return Ok(places);
        }
        places.push(found.place)?;
    }
    Ok(places)
}

// The place of a log in the last of some marks, or 0 where there is none.
fn last_place(marks: &[LogMark]) -> u32
    ensures last { IsLastPlace marks.now result }
    ensures none { marks.now ≡ [] → result ≡ 0 }
{
    match marks {
        [.., last] => last.log_place,
        [] => 0,
    }
}

impl<S: Alter> Node<S> {
    /// How many entries there are, with those that wait.
    pub fn entries(&self) -> u32
        ensures { result ≡ (node_end self.now).place }
    {
        self.end.place
    }

    /// The last place of a log by which an event came of which an entry is kept, or 0.
    pub fn log_place(&self) -> u32
        ensures last { IsLastPlace (node_marks self.now) result }
        ensures none { node_marks self.now ≡ [] → result ≡ 0 }
    {
        last_place(self.marks.as_slice())
    }

    /// How many entries wait to be put in.
    pub fn waiting(&self) -> usize
        ensures { result ≡ length (node_waiting self.now) }
    {
        self.waiting.len()
    }

    /// How the world begins, as it was given.
    pub fn genesis(&self) -> &[u8]
        ensures { result.now ≡ node_genesis self.now }
    {
        self.genesis.as_slice()
    }

    /// The world.
    pub fn world(&self) -> &World
        ensures { result.now ≡ node_world self.now }
    {
        &self.world
    }

    /// Asks the world for an event, which came by this place of a log, or by none where that is 0. Its entry waits to be put in: the
    /// reply is told after `settle`. After an error the node is dropped.
    pub fn take(&mut self, log_place: u32, event: Event) -> Result<KeptAnswer, NodeFault>
        ensures taken { TakesKept log_place self.old event self.new result }
        ensures told { TellsKept self.old event self.new result }
        // A world that has no such chain isn't asked, and none for what no bytes spell.
        ensures unknown { RefusesUnknown self.old event result }
        ensures unspelt { RefusesUnspelt self.old event self.new result }
        ensures marked { IfOk result (MarksAnswer log_place self.old self.new) }
        ensures journal { node_connection self.new ≡ node_connection self.old }
        ensures genesis { node_genesis self.new ≡ node_genesis self.old }
        ensures keeps { OnOk result (StaysBeside (state S.Store) self.old self.new) }
        ensures faults { IfErr result (IsOfRoom (node_end self.old).place) }
    {
        let asked = ask(
            self.alloc,
            &mut self.world,
            &self.end.last,
            log_place,
            event,
        )?;
        match asked {
            Asked::NotKept(refusal) => Ok(not_kept(refusal)),
            Asked::Kept { reply, entry } => match self.wait_with(log_place, entry) {
                Ok(place) => Ok(KeptAnswer {
                    place: Some(place),
                    reply,
                }),
                Err(fault) => {
                    drop(reply);
                    Err(fault)
                }
            },
        }
    }

    // Has an entry wait. Answers its place.
    fn wait_with(&mut self, log_place: u32, entry: JournalEntry) -> Result<u32, NodeFault>
        ensures place { IfOk result (λ place. place ≡ self.old.end.place) }
        ensures waits { OnOk result (WaitsBehind self.old entry self.new) }
        ensures marked { OnOk result (MarksWaiting log_place self.old self.new) }
        ensures end { OnOk result (IsEndBehind self.old.end (item entry) self.new.end) }
        ensures world { self.new.world ≡ self.old.world }
        ensures journal { self.new.conn ≡ self.old.conn }
        ensures genesis { self.new.genesis.items ≡ self.old.genesis.items }
        ensures faults { length (item entry).digest ≡ 32 → IfErr result (IsOfRoom self.old.end.place) }
    {
        let here = self.end.place;
        let Some(after) = end_behind(&self.end, &entry) else {
            drop(entry);
            return Err(NodeFault::Journal(JournalFault::Full));
        };
        mark(&mut self.marks, log_place, here)?;
        self.waiting.push(entry)?;
        self.end = after;
        Ok(here)
    }

    /// Puts in the entries that wait, in one commit. After an error the node is dropped.
    pub fn settle(&mut self) -> Result<(), NodeFault>
        ensures committed { SettlesAll (state S.Store) self.old self.new result }
        // So a crash leaves all of them, and nothing less.
        ensures lasts { SettlesLasting (state S.Store) self.old self.new result }
        // After an error nothing of them is committed, as far as the connection is still open.
        ensures refused { SettlesNone (state S.Store) self.old self.new result }
        ensures faults { FailsOfFile self.old result }
        ensures none { OnOk result (node_waiting self.new ≡ []) }
        ensures world { node_world self.new ≡ node_world self.old }
        ensures end { node_end self.new ≡ node_end self.old }
        ensures marks { node_marks self.new ≡ node_marks self.old }
        ensures genesis { node_genesis self.new ≡ node_genesis self.old }
        ensures keeps { OnOk result (StaysBeside (state S.Store) self.old self.new) }
        // A crash at any moment of the call leaves what it could leave before the call, or all of what waited.
        ensures crash { SettleLeaves (state S.Store) self.old self.new }
    {
        let waiting = self.waiting.as_slice();
        let Some(first) = first_of(self.end.place, waiting) else {
            return Err(NodeFault::Journal(JournalFault::Full));
        };
        if waiting.is_empty() {
            return Ok(());
        }
        append(&mut self.conn, first, waiting)?;
        self.waiting.clear();
        Ok(())
    }

    /// What came of the events that came by this place of a log, each beside the number of its chain, as the journal has it. What waits is
    /// put in first, where there is such an event.
    pub fn again(&mut self, log_place: u32) -> Result<Vec<(u8, KeptAnswer)>, NodeFault>
        ensures { IfOk result (λ told. TellsOn (state S.Store) self.old [] self.new told.items) }
    {
        let places = places_by(self.alloc, self.marks.as_slice(), log_place)?;
        let mut told = Vec::new(self.alloc);
        for place in places.as_slice() {
            told.push(self.kept_at(*place)?)?;
        }
        Ok(told)
    }

    // What came of the event at a place, as the journal has it.
    fn kept_at(&mut self, place: u32) -> Result<(u8, KeptAnswer), NodeFault>
        ensures { IfOk result (λ told. TellsOn (state S.Store) self.old [] self.new (told ∷ [])) }
    {
        match self.entry_at(place)? {
            Some(entry) => kept_as(self.alloc, place, entry),
            None => Err(NodeFault::Journal(JournalFault::Gap(place))),
        }
    }

    /// The entry at a place, or none. What waits is put in first.
    pub fn entry_at(&mut self, place: u32) -> Result<Option<JournalEntry>, NodeFault>
        ensures found { FindsEntryAt (state S.Store) self.old self.new place result }
        ensures rest { SettlesAll (state S.Store) self.old self.new result }
        ensures none { OnOk result (node_waiting self.new ≡ []) }
        ensures world { node_world self.new ≡ node_world self.old }
        ensures end { node_end self.new ≡ node_end self.old }
        ensures marks { node_marks self.new ≡ node_marks self.old }
        ensures genesis { node_genesis self.new ≡ node_genesis self.old }
        ensures keeps { OnOk result (StaysBeside (state S.Store) self.old self.new) }
        ensures faults { FailsOfFile self.old result }
    {
        self.settle()?;
        Ok(entry_at(&mut self.conn, place)?)
    }
}

// What came of an event, as an entry has it.
fn kept_as(alloc: Global, place: u32, entry: JournalEntry) -> Result<(u8, KeptAnswer), NodeFault>
    ensures { IfOk result (IsToldOf place (item entry)) }
{
    let entry = entry_of(alloc, place, entry)?;
    let Entry {
        event,
        reply,
        reading: _,
    } = entry;
    let chain = chain_of(&event);
    drop(event);
    Ok((
        chain,
        KeptAnswer {
            place: Some(place),
            reply,
        },
    ))
}
