//! Explanations as text.

use crate::explanation::Explanation;
use crate::meanings::meaning_of;
use crate::{ExplainedLine, PacketOutcome};
use ibc_ids::Refusal;
use ibc_machine::Reply;
use ibc_script::ChainName;
use ibc_token_data::TokenData;
use std::alloc::{AllocError, Global};

/// The column behind which explanations stand.
const COLUMN: usize = 40;

/// The name of a chain.
pub fn name_of(names: &[ChainName], chain: u8) -> &str {
    match names.get(usize::from(chain)) {
        Some(name) => name.as_str(),
        None => "?",
    }
}

/// What is told of a line, empty where nothing is.
pub fn explained_words(
    alloc: Global,
    names: &[ChainName],
    line: &ExplainedLine<'_>,
) -> Result<String, AllocError> {
    let mut words = String::new(alloc);
    write_words(&mut words, names, line)?;
    Ok(words)
}

/// Writes a line, and behind it what is told of it, where something is.
pub fn write_explained(
    alloc: Global,
    out: &mut String,
    names: &[ChainName],
    line: &ExplainedLine<'_>,
) -> Result<(), AllocError> {
    let words = explained_words(alloc, names, line)?;
    out.push_str(line.line.text)?;
    if !words.is_empty() {
        for _blank in line.line.text.len()..COLUMN {
            out.push(' ')?;
        }
        out.push_str("  ")?;
        out.push_str(words.as_str())?;
    }
    out.push('\n')
}

fn write_words(
    out: &mut String,
    names: &[ChainName],
    line: &ExplainedLine<'_>,
) -> Result<(), AllocError> {
    match &line.told {
        Some(told) => write_told(out, names, told, line.notes.sides),
        None if line.is_none() => write_lacking(out, names, line),
        None if line.notes.step.is_some() => write_look(out, line.line.text),
        None => Ok(()),
    }
}

// Writes what the numbers of a channel are, or why there are none, or why an event isn't kept.
fn write_look(out: &mut String, line: &str) -> Result<(), AllocError> {
    let refusals = [
        (" no 1", Refusal::NoMemory),
        (" no 9", Refusal::WrongState),
        (" no 15", Refusal::UnknownChannel),
        (" no 30", Refusal::BadMessage),
    ];
    for (end, refusal) in refusals {
        if line.ends_with(end) {
            return write_refusal(out, refusal, "");
        }
    }
    if line.contains(" totals ") {
        out.push_str("escrow, vouchers, under way, on the way back")?;
    }
    Ok(())
}

/// Writes what a step looked for that isn't there.
pub fn write_lacking(
    out: &mut String,
    names: &[ChainName],
    line: &ExplainedLine<'_>,
) -> Result<(), AllocError> {
    match line.notes.absent {
        Some(absent) => {
            out.push_str(name_of(names, absent.chain))?;
            out.push(' ')?;
            out.push_str(absent.words.as_str())
        }
        None if line.line.text.contains(" root ") => {
            out.push_str("the height isn't committed, or isn't kept any more")
        }
        None => out.push_str("the chain's own end doesn't name the peer's yet"),
    }
}

// Writes what is told of an entry, its parts between semicolons.
fn write_told(
    out: &mut String,
    names: &[ChainName],
    told: &Explanation<'_>,
    sides: &str,
) -> Result<(), AllocError> {
    if let Reply::No(refusal) = &told.entry.reply {
        write_refusal(out, *refusal, sides)?;
    }
    if told.facts.packet.is_some() {
        begin_part(out)?;
        write_packet(out, names, told)?;
    }
    if let Some(client) = told.facts.client {
        let client = client.as_str();
        begin_part(out)?;
        write!(out, "client {client}")?;
        write_tracked(out, names, told)?;
    }
    write_ends(out, told)?;
    if let Some(tokens) = &told.tokens {
        begin_part(out)?;
        write_tokens(out, tokens)?;
    }
    if let Some(outcome) = told.outcome {
        begin_part(out)?;
        write_outcome(out, told, outcome)?;
    }
    Ok(())
}

// Writes what stands between two parts.
fn begin_part(out: &mut String) -> Result<(), AllocError> {
    if out.is_empty() {
        Ok(())
    } else {
        out.push_str("; ")
    }
}

fn write_refusal(out: &mut String, refusal: Refusal, sides: &str) -> Result<(), AllocError> {
    let why = if sides.is_empty() {
        meaning_of(refusal)
    } else {
        sides
    };
    write!(out, "{refusal:?}: {why}")
}

// `packet [chain, port, channel, sequence]`, as a script names it.
fn write_packet(
    out: &mut String,
    names: &[ChainName],
    told: &Explanation<'_>,
) -> Result<(), AllocError> {
    let Some(packet) = told.facts.packet else {
        return Ok(());
    };
    let chain = match told.sender {
        Some(chain) => name_of(names, chain),
        None => "?",
    };
    let port = packet.port;
    let channel = packet.channel;
    let sequence = packet.sequence;
    write!(out, "packet [{chain}, {port}, {channel}, {sequence}]")
}

// The chain that a client tracks, and the height that it is told.
fn write_tracked(
    out: &mut String,
    names: &[ChainName],
    told: &Explanation<'_>,
) -> Result<(), AllocError> {
    if let Some(tracked) = told.facts.tracked {
        let chain = name_of(names, tracked);
        write!(out, " of {chain}")?;
    }
    match told.facts.height {
        Some(height) => write!(out, ", height {height}"),
        None => Ok(()),
    }
}

// The connection and the channel of a handshake.
fn write_ends(out: &mut String, told: &Explanation<'_>) -> Result<(), AllocError> {
    if let Some(connection) = told.facts.connection {
        let connection = connection.as_str();
        begin_part(out)?;
        write!(out, "connection {connection}")?;
    }
    if let Some((port, channel)) = told.facts.end {
        let channel = channel.as_str();
        begin_part(out)?;
        write!(out, "channel {port}/{channel}")?;
    }
    Ok(())
}

/// Writes the amounts of tokens, with commas between.
fn write_amounts(out: &mut String, tokens: &TokenData) -> Result<(), AllocError> {
    for (index, token) in tokens.tokens.iter().enumerate() {
        let amount = token.amount;
        let denom = token.denom.as_str();
        if index > 0 {
            out.push_str(", ")?;
        }
        write!(out, "{amount} {denom}")?;
    }
    Ok(())
}

fn write_tokens(out: &mut String, tokens: &TokenData) -> Result<(), AllocError> {
    write_amounts(out, tokens)?;
    let sender = tokens.sender.as_str();
    let receiver = tokens.receiver.as_str();
    write!(out, " from {sender} to {receiver}")
}

// What became of the packet: on the chain that received it, and on the one that sent it.
fn write_outcome(
    out: &mut String,
    told: &Explanation<'_>,
    outcome: PacketOutcome,
) -> Result<(), AllocError> {
    match outcome {
        PacketOutcome::Delivered if told.is_of_sender() => out.push_str("delivered"),
        PacketOutcome::Delivered => out.push_str("taken"),
        PacketOutcome::Refused => {
            let reason = told.reason.as_str();
            write_back(out, told)?;
            write!(out, ": {reason}")
        }
        PacketOutcome::TimedOut => {
            write_back(out, told)?;
            out.push_str(match told.kind().name() {
                "Timeout" => ": timed out",
                _ => ": the peer's end is closed",
            })
        }
    }
}

// What comes back to whom.
fn write_back(out: &mut String, told: &Explanation<'_>) -> Result<(), AllocError> {
    let Some(tokens) = &told.tokens else {
        return out.push_str("not taken");
    };
    if !told.is_of_sender() {
        return out.push_str("not taken");
    }
    out.push_str("refund ")?;
    write_amounts(out, tokens)?;
    let sender = tokens.sender.as_str();
    write!(out, " to {sender}")
}
