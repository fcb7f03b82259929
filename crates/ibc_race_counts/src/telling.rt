//! What is printed of a race whose relayers are counted.

use crate::{CountedRace, ReceiptCounts};
use ibc_ids::Refusal;
use serde_json::{Map, Value, json};
use std::alloc::{AllocError, Global};

/// All refusals, by their numbers.
const REFUSALS: [Refusal; 31] = [
    Refusal::NoMemory,
    Refusal::BadName,
    Refusal::UnknownChain,
    Refusal::OwnChain,
    Refusal::UnknownClient,
    Refusal::NotPublished,
    Refusal::WrongHeader,
    Refusal::UnknownConnection,
    Refusal::WrongState,
    Refusal::WrongPeer,
    Refusal::NoConsensus,
    Refusal::BadProof,
    Refusal::WrongSelfClient,
    Refusal::UnknownPort,
    Refusal::UnknownChannel,
    Refusal::WrongOrder,
    Refusal::WrongVersion,
    Refusal::NoTimeout,
    Refusal::TimeoutPassed,
    Refusal::AlreadyReceived,
    Refusal::OutOfOrder,
    Refusal::NoCommitment,
    Refusal::NotTimedOut,
    Refusal::TooLarge,
    Refusal::Poor,
    Refusal::CloseRefused,
    Refusal::TimeBack,
    Refusal::TableFull,
    Refusal::NumberFull,
    Refusal::BadMessage,
    Refusal::Pruned,
];

/// How a race is told.
#[derive(Clone, Copy, Debug, PartialEq, Eq)]
pub enum CountsForm {
    /// As text, for people.
    Text,
    /// As an object of JSON a line.
    Json,
}

/// What each relayer sent, and how much of it was accepted and refused; the same of the script's own steps; and how the audit
/// ended.
pub fn tell_race(
    alloc: Global,
    race: &CountedRace,
    form: CountsForm,
) -> Result<String, AllocError> {
    let mut out = String::new(alloc);
    match form {
        CountsForm::Text => write_race(&mut out, race)?,
        CountsForm::Json => write_objects(alloc, &mut out, race)?,
    }
    Ok(out)
}

fn write_race(out: &mut String, race: &CountedRace) -> Result<(), AllocError> {
    for (index, counts) in race.relayers.iter().enumerate() {
        let relayer = index.saturating_add(1);
        let sent = counts.asked;
        write!(out, "relayer {relayer}: {sent} messages, ")?;
        write_counts(out, counts)?;
    }
    let asked = race.steps.asked;
    write!(out, "steps: {asked} events, ")?;
    write_counts(out, &race.steps)?;
    out.push_str("audit: all chains did one run together, and the laws hold\n")
}

// Writes how much was accepted, and how much was refused with each refusal.
fn write_counts(out: &mut String, counts: &ReceiptCounts) -> Result<(), AllocError> {
    let accepted = counts.accepted;
    let refused = counts.asked.saturating_sub(accepted);
    write!(out, "{accepted} accepted, {refused} refused")?;
    let mut between = ": ";
    for refusal in REFUSALS {
        let count = refused_so(counts, refusal);
        if count > 0 {
            write!(out, "{between}{refusal:?} {count}")?;
            between = ", ";
        }
    }
    out.push('\n')
}

// How much was refused with a refusal.
fn refused_so(counts: &ReceiptCounts, refusal: Refusal) -> u64 {
    counts
        .refused
        .get(usize::from(refusal.number()))
        .copied()
        .unwrap_or(0)
}

fn write_objects(alloc: Global, out: &mut String, race: &CountedRace) -> Result<(), AllocError> {
    for (index, counts) in race.relayers.iter().enumerate() {
        let relayer = index.saturating_add(1);
        let by = format!(in alloc; "relayer {relayer}")?;
        write_object(alloc, out, by.as_str(), counts)?;
    }
    write_object(alloc, out, "steps", &race.steps)?;
    out.push_str("{\"audit\":\"one run\",\"laws\":\"hold\"}\n")
}

// Writes an object with what was counted, and the line feed behind it.
fn write_object(
    alloc: Global,
    out: &mut String,
    by: &str,
    counts: &ReceiptCounts,
) -> Result<(), AllocError> {
    let mut object = Map::new(alloc);
    let by = json!(in alloc; by)?;
    add(alloc, &mut object, "by", by)?;
    let (asked, accepted) = (counts.asked, counts.accepted);
    let asked = json!(in alloc; asked)?;
    add(alloc, &mut object, "asked", asked)?;
    let accepted = json!(in alloc; accepted)?;
    add(alloc, &mut object, "accepted", accepted)?;
    let refused = refused_by_name(alloc, counts)?;
    add(alloc, &mut object, "refused", refused)?;
    let value = Value::Object(object);
    let text = value.to_string(alloc);
    drop(value);
    let text = text?;
    let written = out.push_str(text.as_str());
    drop(text);
    written?;
    out.push('\n')
}

// How much was refused, by the names of the refusals.
fn refused_by_name(alloc: Global, counts: &ReceiptCounts) -> Result<Value, AllocError> {
    let mut object = Map::new(alloc);
    for refusal in REFUSALS {
        let count = refused_so(counts, refusal);
        if count > 0 {
            let name = format!(in alloc; "{refusal:?}")?;
            let count = json!(in alloc; count)?;
            add(alloc, &mut object, name.as_str(), count)?;
        }
    }
    Ok(Value::Object(object))
}

// Adds a member.
fn add(
    alloc: Global,
    object: &mut Map<String, Value>,
    name: &str,
    value: Value,
) -> Result<(), AllocError> {
    let name = String::from_str(alloc, name)?;
    drop(object.insert(name, value)?);
    Ok(())
}
