//! What relayers did at the same time is done again, one event after another, and looked at.

ghost use Rattle.std.specs.Prelude.{◌≤◌};

use crate::checked::Checked;
use crate::merging::Merging;
use crate::racing::race;
use crate::running::{begin, finding_of};
use ibc_ids::Refusal;
use ibc_law_checks::{BrokenLaw, Finding};
use ibc_ledger::Ledger;
use ibc_machine::{Entry, Event};
use ibc_message_codec::{decode, encode};
use ibc_script::{Fault, Script, read_script};
use ibc_script_cli::Chains;
use std::alloc::Global;
use std::sync::Wait;
use std::thread::Threads;

/// What is found where a script is run with so many relayers at the same time: the ledgers that this leaves are looked at, and
/// what they did, one event after another. None where no law is broken. Faults: `BadScript`, `NoMemory`.
pub fn race_and_judge<R: Threads + Wait + Sync>(
    rt: &R,
    alloc: Global,
    relayers: u8,
    text: &[u8],
) -> Result<Option<Finding>, Fault>
    requires { 1 ≤ relayers × relayers ≤ 8 }
{
    let raced = race(rt, alloc, relayers, read_script(alloc, text)?)?;
    let judged = match read_script(alloc, text) {
        Ok(script) => {
            let judged = judge(alloc, &script, raced.as_slice());
            drop(script);
            judged
        }
        Err(fault) => Err(fault),
    };
    drop(raced);
    judged
}

/// What is found in what the ledgers of a script's chains did at the same time, and whether that was one run. Faults: `BadScript`,
/// `NoMemory`.
pub fn judge(alloc: Global, script: &Script, ledgers: &[Ledger]) -> Result<Option<Finding>, Fault> {
    let mut chains = begin(alloc, script)?;
    match is_one_run(alloc, script.genesis.window, &mut chains, ledgers) {
        Ok(true) => finding_of(chains),
        Ok(false) => {
            drop(chains);
            Ok(Some(Finding {
                law: BrokenLaw::OneRun,
                chain: 0,
                about: String::new(alloc),
            }))
        }
        Err(fault) => {
            drop(chains);
            Err(fault)
        }
    }
}

// Asks again for what ledgers did. The result is whether one run does the same, and leaves the same.
fn is_one_run(
    alloc: Global,
    window: u64,
    chains: &mut Checked,
    ledgers: &[Ledger],
) -> Result<bool, Fault> {
    if do_again(alloc, window, chains, ledgers)? {
        hold_the_same(chains, ledgers).map_err(Fault::no_memory)
    } else {
        Ok(false)
    }
}

// Asks again for the events of ledgers, in an order in which one run has them. The result is whether there is such an order, and
// each answer is the same.
fn do_again(
    alloc: Global,
    window: u64,
    chains: &mut Checked,
    ledgers: &[Ledger],
) -> Result<bool, Fault> {
    let mut merging = Merging::new(alloc, window, ledgers.len())?;
    for _entry in 0..entry_count(ledgers) {
        match take_again(alloc, chains, &mut merging, ledgers) {
            Ok(true) => {}
            otherwise => {
                drop(merging);
                return otherwise;
            }
        }
    }
    drop(merging);
    Ok(true)
}

// Asks again for the next event. The result is whether there is one, and the answer is the same.
fn take_again(
    alloc: Global,
    chains: &mut Checked,
    merging: &mut Merging,
    ledgers: &[Ledger],
) -> Result<bool, Fault> {
    let Some(place) = merging.next_place(ledgers) else {
        return Ok(false);
    };
    let Some(ledger) = ledgers.get(place) else {
        return Ok(false);
    };
    let Some(next) = ledger.history().get(merging.taken_of(place)) else {
        return Ok(false);
    };
    merging.note_taken(place, &next.entry);
    is_same_again(alloc, chains, &next.entry)
}

// Whether ledgers hold what chains hold that did the same.
fn hold_the_same(chains: &Checked, ledgers: &[Ledger]) -> Result<bool, Refusal> {
    for ledger in ledgers {
        let Some(other) = chains.chains.world().ledger(ledger.chain()) else {
            return Ok(false);
        };
        if !holds_the_same(ledger, other)? {
            return Ok(false);
        }
    }
    Ok(true)
}

// Whether two ledgers hold the same.
fn holds_the_same(ledger: &Ledger, other: &Ledger) -> Result<bool, Refusal> {
    let balances = ledger.balances()?;
    let is_same = match other.balances() {
        Ok(others) => {
            let is_same = balances == others;
            drop(others);
            Ok(is_same)
        }
        Err(refusal) => Err(refusal),
    };
    drop(balances);
    is_same
}

// How many entries ledgers have.
fn entry_count(ledgers: &[Ledger]) -> usize {
    let mut count: usize = 0;
    for ledger in ledgers {
        count = count.saturating_add(ledger.history().len());
    }
    count
}

// Asks again for the event of an entry. The result is whether the answer is the same. A message outside its form was refused.
fn is_same_again(alloc: Global, chains: &mut Checked, entry: &Entry) -> Result<bool, Fault> {
    let event = match copy_of(alloc, &entry.event) {
        Ok(event) => event,
        Err(Refusal::BadMessage) => return Ok(true),
        Err(_) => return Err(Fault::NoMemory),
    };
    let reply = chains.ask(event).map_err(Fault::no_memory)?;
    let is_same = reply == entry.reply;
    drop(reply);
    Ok(is_same)
}

// The same event. Refused: `BadMessage` for a message outside its form; `NoMemory`.
fn copy_of(alloc: Global, event: &Event) -> Result<Event, Refusal> {
    match event {
        Event::Message { chain, message } => {
            let bytes = encode(alloc, message)?;
            let copy = decode(alloc, bytes.as_slice());
            drop(bytes);
            Ok(Event::Message {
                chain: *chain,
                message: copy?,
            })
        }
        Event::Block { chain, next_time } => Ok(Event::Block {
            chain: *chain,
            next_time: *next_time,
        }),
    }
}
