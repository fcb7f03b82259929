//! Lists of events that worlds are asked at once, also where one growth is refused meanwhile.

ghost use Rattle.std.specs.Prelude.{◌⊎◌, IfErr};
ghost use Rattle.ibc_script.specs.Faults.{IsScriptFault, IsRunFault};

use crate::equal::are_equal;
use crate::gathered::{List, list_of};
use crate::spelled::{
    SpelledEvent, answered, are_spelled, are_spelled_alike, is_no_memory, read_back,
};
use ibc_ids::Refusal;
use ibc_ledger::{Ledger, StampedEntry};
use ibc_machine::{Genesis, Reply};
use ibc_script::Fault;
use ibc_script_cli::{Race, RaceAudit, Races};
use ibc_world_core::{NotRun, World};
use std::alloc::Global;
use std::cell::Cell;

/// How many chains a script has.
const CHAINS: u8 = 2;

/// What is tried of the list of events that a script comes to.
#[derive(Clone, Copy)]
pub enum Trying {
    /// A world is asked the list at once.
    Run,
    /// Its messages are read back from their bytes.
    ReadBack,
}

/// What came of it.
#[derive(Clone, Copy, Debug, PartialEq, Eq)]
pub enum Came {
    /// The replies are those of the world that took the steps of the script.
    Answered,
    /// The list was handed back as it was, and the world was as before: asked again, it gave those replies.
    HandedBack,
    /// Events were answered `NoMemory`, and all else is as in a world that was asked the list without them.
    Refused,
    /// So many messages were read back as they were.
    ReadBack(usize),
    /// Nothing of these.
    Wrong,
}

/// Tries the list of events of a script, and keeps what came of it. Faults: `NoMemory`, where a growth was refused before the
/// list was asked or as its answers were judged; those that stop a run.
#[derive(Drop)]
pub struct Listing<'c> {
    pub alloc: Global,
    pub trying: Trying,
    pub came: &'c Cell<Came>,
}

impl Races for Listing<'_> {
    fn race(&self, _relayers: u8, race: Race) -> Result<RaceAudit, Fault> {
        let came = match self.trying {
            Trying::Run => try_run(self.alloc, race)?,
            Trying::ReadBack => try_read_back(self.alloc, race)?,
        };
        self.came.set(came);
        Ok(RaceAudit {
            balances: Vec::new(self.alloc),
            notes: Vec::new(self.alloc),
        })
    }
}

// Reads the messages of the list back.
fn try_read_back(alloc: Global, race: Race) -> Result<Came, Fault>
    ensures { IfErr result (λ fault. IsRunFault fault ⊎ IsScriptFault fault) }
{
    let list = list_of(alloc, race)?;
    let back = read_back(alloc, list.events.as_slice());
    drop(list);
    match back {
        Ok(Some(count)) => Ok(Came::ReadBack(count)),
        Ok(None) => Ok(Came::Wrong),
        Err(refusal) => Err(Fault::of_refusal(refusal)),
    }
}

// Two worlds of a genesis, of which the first is asked the list.
#[derive(Drop)]
struct Pair {
    first: World,
    second: World,
}

// Asks a world of the script's genesis the list, and another one of the same to judge it by.
fn try_run(alloc: Global, race: Race) -> Result<Came, Fault>
    ensures { IfErr result (λ fault. IsRunFault fault ⊎ IsScriptFault fault) }
{
    match pair_of(alloc, race.genesis()) {
        Ok(pair) => try_pair(alloc, pair, race),
        Err(refusal) => {
            drop(race);
            Err(Fault::of_refusal(refusal))
        }
    }
}

// Two worlds of a genesis.
fn pair_of(alloc: Global, genesis: &Genesis) -> Result<Pair, Refusal> {
    let first = World::new(alloc, genesis)?;
    match World::new(alloc, genesis) {
        Ok(second) => Ok(Pair { first, second }),
        Err(refusal) => {
            drop(first);
            Err(refusal)
        }
    }
}

// Asks the first of two worlds the list.
fn try_pair(alloc: Global, mut pair: Pair, race: Race) -> Result<Came, Fault>
    ensures { IfErr result (λ fault. IsRunFault fault ⊎ IsScriptFault fault) }
{
    let list = match list_of(alloc, race) {
        Ok(list) => list,
        Err(fault) => {
            drop(pair);
            return Err(fault);
        }
    };
    let came = pair.judge(alloc, &list);
    drop(list);
    drop(pair);
    came.map_err(Fault::of_refusal)
}

impl Pair {
    // Asks the first world the list, and judges what came of it. Refused: `NoMemory`, where it was refused before or behind.
    fn judge(&mut self, alloc: Global, list: &List) -> Result<Came, Refusal> {
        let events = answered(alloc, list.events.as_slice(), list.replies.as_slice())?;
        match self.first.run(events) {
            Ok(replies) => self.judge_replies(alloc, list, replies),
            Err(not_run) => self.judge_not_run(alloc, list, not_run),
        }
    }

    // Asks the second world the list without what was answered `NoMemory`, and looks whether all else is the same.
    fn judge_replies(
        &mut self,
        alloc: Global,
        list: &List,
        replies: Vec<Reply>,
    ) -> Result<Came, Refusal> {
        let are_all = replies == list.replies;
        let are_due = self.are_due(alloc, list.events.as_slice(), replies.as_slice());
        drop(replies);
        match (are_due?, are_all) {
            (true, true) => Ok(Came::Answered),
            (true, false) => Ok(Came::Refused),
            (false, _) => Ok(Came::Wrong),
        }
    }

    // Looks whether a list that wasn't run was handed back as it was and the world is as before, and asks it again.
    fn judge_not_run(
        &mut self,
        alloc: Global,
        list: &List,
        not_run: NotRun,
    ) -> Result<Came, Refusal> {
        let NotRun { refusal, events } = not_run;
        let are_back = are_spelled(alloc, events.as_slice(), list.events.as_slice());
        let is_as_before = are_same_worlds(alloc, &self.first, &self.second);
        let came = match self.first.run(events) {
            Ok(replies) => self.judge_replies(alloc, list, replies),
            Err(not_run) => {
                drop(not_run);
                Err(Refusal::NoMemory)
            }
        };
        if came? == Came::Answered && are_back? && is_as_before? && refusal == Refusal::NoMemory {
            Ok(Came::HandedBack)
        } else {
            Ok(Came::Wrong)
        }
    }

    // Whether the second world, asked the list without what was answered `NoMemory`, gives the other replies and ends as the
    // first one did.
    fn are_due(
        &mut self,
        alloc: Global,
        events: &[SpelledEvent],
        replies: &[Reply],
    ) -> Result<bool, Refusal> {
        let events = answered(alloc, events, replies)?;
        match self.second.run(events) {
            Ok(others) => {
                let are_others = are_ample_others(replies, others.as_slice());
                drop(others);
                Ok(are_others? && are_same_worlds(alloc, &self.first, &self.second)?)
            }
            Err(not_run) => {
                drop(not_run);
                Err(Refusal::NoMemory)
            }
        }
    }
}

// Whether these are the other replies, but for `NoMemory`, of which there is none among them. Refused: `NoMemory`, where one is.
fn are_ample_others(replies: &[Reply], others: &[Reply]) -> Result<bool, Refusal> {
    if others.iter().any(is_no_memory) {
        return Err(Refusal::NoMemory);
    }
    Ok(are_others(replies, others))
}

// Whether these are the other replies, but for `NoMemory`.
fn are_others(replies: &[Reply], others: &[Reply]) -> bool {
    let mut rest = others;
    for reply in replies {
        if !is_no_memory(reply) {
            let [first, behind @ ..] = rest else {
                return false;
            };
            if first != reply {
                return false;
            }
            rest = behind;
        }
    }
    rest.is_empty()
}

// Whether the chains of two worlds have the same histories, and with them the same heights and roots, and the same balances
// and notes. Refused: `NoMemory`.
fn are_same_worlds(alloc: Global, first: &World, second: &World) -> Result<bool, Refusal> {
    for chain in 0..CHAINS {
        let (Some(one), Some(other)) = (first.ledger(chain), second.ledger(chain)) else {
            return Ok(false);
        };
        if !are_same(alloc, one, other)? {
            return Ok(false);
        }
    }
    Ok(true)
}

// Whether two ledgers have the same history, balances and notes. Refused: `NoMemory`.
fn are_same(alloc: Global, one: &Ledger, other: &Ledger) -> Result<bool, Refusal> {
    Ok(
        have_same_entries(alloc, one.history(), other.history())?
            && have_same_balances(one, other)?
            && have_same_notes(one, other)?,
    )
}

// Whether entries have the same events, replies and readings. Refused: `NoMemory`.
fn have_same_entries(
    alloc: Global,
    entries: &[StampedEntry],
    others: &[StampedEntry],
) -> Result<bool, Refusal> {
    if entries.len() != others.len() {
        return Ok(false);
    }
    for (StampedEntry { entry, .. }, StampedEntry { entry: other, .. }) in entries
        .iter()
        .zip(others)
    {
        let is_same = entry.reply == other.reply && entry.reading == other.reading;
        if !is_same || !are_spelled_alike(alloc, &entry.event, &other.event)? {
            return Ok(false);
        }
    }
    Ok(true)
}

fn have_same_balances(one: &Ledger, other: &Ledger) -> Result<bool, Refusal> {
    are_equal(one.balances(), other.balances())
}

fn have_same_notes(one: &Ledger, other: &Ledger) -> Result<bool, Refusal> {
    are_equal(one.all_notes(), other.all_notes())
}
