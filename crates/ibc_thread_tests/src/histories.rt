//! What the histories of chains say.

use crate::asked::Answer;
use ibc_ids::{Name, Refusal};
use ibc_ledger::StampedEntry;
use ibc_ledger_lock::Gate;
use ibc_machine::{Effect, Entry, Event, Reply};
use ibc_script::{ChainName, EventKind};
use ibc_script_cli::{Line, line_text};
use ibc_wire::Message;
use std::alloc::Global;
use std::sync::Wait;

/// The lines of two chains' histories.
#[derive(Clone, Copy)]
pub struct HistoryLines {
    pub a: &'static str,
    pub b: &'static str,
}

// The kind of an event.
fn kind_of(event: &Event) -> EventKind {
    match event {
        Event::Message { message, .. } => EventKind::Message(message.kind()),
        Event::Block { .. } => EventKind::Block,
    }
}

// The line of an entry of a chain.
fn line_of(alloc: Global, chain: &ChainName, entry: &StampedEntry) -> Result<String, Refusal> {
    let line = Line::Reply {
        chain: chain.as_str(),
        kind: kind_of(&entry.entry.event),
        reply: &entry.entry.reply,
    };
    line_text(alloc, line)
}

// The lines of the entries of a chain.
fn lines_of(alloc: Global, chain: &str, entries: &[StampedEntry]) -> Result<String, Refusal> {
    let chain: ChainName = Name::parse(alloc, chain)?;
    let lines = all_lines(alloc, &chain, entries);
    drop(chain);
    lines
}

// The same of a chain with this name.
fn all_lines(
    alloc: Global,
    chain: &ChainName,
    entries: &[StampedEntry],
) -> Result<String, Refusal> {
    let mut lines = String::new(alloc);
    for entry in entries {
        push_line(alloc, &mut lines, chain, entry)?;
    }
    Ok(lines)
}

// Adds the line of an entry.
fn push_line(
    alloc: Global,
    lines: &mut String,
    chain: &ChainName,
    entry: &StampedEntry,
) -> Result<(), Refusal> {
    let line = line_of(alloc, chain, entry)?;
    let pushed = lines.push_str(line.as_str());
    drop(line);
    pushed?;
    Ok(lines.push('\n')?)
}

/// The lines of a chain's history from a place on, none past its end. Refused: `NoMemory`.
pub fn history_of<G: Gate, R: Wait>(
    alloc: Global,
    rt: &R,
    chain: &G,
    name: &str,
    place: usize,
) -> Result<String, Refusal> {
    chain.events_from(rt, place, |entries| lines_of(alloc, name, entries))
}

// Whether a chain's history says these lines, and nothing past its end.
fn says<G: Gate, R: Wait>(
    alloc: Global,
    rt: &R,
    chain: &G,
    name: &str,
    lines: &str,
) -> Result<bool, Refusal> {
    let end = lines.lines().count();
    Ok(
        says_from(alloc, rt, chain, (name, 0), lines)?
            && says_from(alloc, rt, chain, (name, end), "")?
            && says_from(alloc, rt, chain, (name, usize::MAX), "")?,
    )
}

/// Whether a chain's history says these lines from a place on, and none behind them. Refused: `NoMemory`.
pub fn says_from<G: Gate, R: Wait>(
    alloc: Global,
    rt: &R,
    chain: &G,
    (name, place): (&str, usize),
    lines: &str,
) -> Result<bool, Refusal> {
    let told = history_of(alloc, rt, chain, name, place)?;
    let is_told = told.as_str() == lines;
    drop(told);
    Ok(is_told)
}

// Whether what a chain answered is what its entries have, one after the other.
fn are_answered(entries: &[StampedEntry], chain: u8, answers: &[Answer]) -> bool {
    let mut rest = entries;
    for answer in answers {
        if answer.chain == chain {
            let [first, others @ ..] = rest else {
                return false;
            };
            if first.entry.reply != answer.reply {
                return false;
            }
            rest = others;
        }
    }
    rest.is_empty()
}

// Whether each answer of a chain is of an entry of its own.
fn has_each<G: Gate, R: Wait>(rt: &R, gate: &G, chain: u8, answers: &[Answer]) -> bool {
    gate.events_from(rt, 0, |entries| are_answered(entries, chain, answers))
}

/// Whether two chains' histories say these lines, and each answer is of an entry of its own. Refused: `NoMemory`.
pub fn are_told<G: Gate, R: Wait>(
    rt: &R,
    alloc: Global,
    gates: &[G],
    answers: &[Answer],
    told: HistoryLines,
) -> Result<bool, Refusal> {
    let [a, b] = gates else {
        return Ok(false);
    };
    let are_answered = has_each(rt, a, 0, answers) && has_each(rt, b, 1, answers);
    Ok(are_answered && says(alloc, rt, a, "a", told.a)? && says(alloc, rt, b, "b", told.b)?)
}

// Whether an entry is an accepted message.
fn is_accepted(entry: &Entry) -> bool {
    matches!(
        (&entry.event, &entry.reply),
        (Event::Message { .. }, Reply::Ok(_))
    )
}

// Whether an entry is a packet that was received with an acknowledgement.
fn is_received(entry: &Entry) -> bool {
    matches!(
        (&entry.event, &entry.reply),
        (
            Event::Message {
                message: Message::RecvPacket(_),
                ..
            },
            Reply::Ok(Effect::Ack(_)),
        )
    )
}

// How many of the entries are accepted messages.
fn accepted_of(entries: &[StampedEntry]) -> u64 {
    let mut count = 0u64;
    for stamped in entries {
        count = count.saturating_add(u64::from(is_accepted(&stamped.entry)));
    }
    count
}

// How many of the entries are packets that were received.
fn received_of(entries: &[StampedEntry]) -> u64 {
    let mut count = 0u64;
    for stamped in entries {
        count = count.saturating_add(u64::from(is_received(&stamped.entry)));
    }
    count
}

/// How many accepted messages a chain's history has.
pub fn accepted_in<R: Wait, G: Gate>(rt: &R, gate: &G) -> u64 {
    gate.events_from(rt, 0, |entries| accepted_of(entries))
}

/// How many packets a chain's history tells to have been received with an acknowledgement.
pub fn received_in<R: Wait, G: Gate>(rt: &R, gate: &G) -> u64 {
    gate.events_from(rt, 0, |entries| received_of(entries))
}
