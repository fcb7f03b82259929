//! What stands beside the marks of a picture.

use ibc_explain::{Explanation, PacketOutcome};
use ibc_ids::Refusal;
use ibc_machine::Reply;
use ibc_token_data::TokenData;
use std::alloc::{AllocError, Global};

/// The amounts of a packet's tokens, or that it is a note.
pub fn write_load(out: &mut String, tokens: &Option<TokenData>) -> Result<(), AllocError> {
    let Some(tokens) = tokens else {
        return out.push_str("a note");
    };
    for (index, token) in tokens.tokens.iter().enumerate() {
        let amount = token.amount;
        let denom = token.denom.as_str();
        if index > 0 {
            out.push_str(", ")?;
        }
        write!(out, "{amount} {denom}")?;
    }
    Ok(())
}

/// What is said of an entry: what was refused and why, what became of a packet, or what was done.
pub fn words_of(alloc: Global, told: &Explanation<'_>) -> Result<String, AllocError> {
    let mut out = String::new(alloc);
    let kind = told.kind().name();
    if let Reply::No(refusal) = &told.entry.reply {
        write_refused(&mut out, kind, told, *refusal)?;
        return Ok(out);
    }
    let Some(packet) = told.facts.packet else {
        out.push_str(kind)?;
        return Ok(out);
    };
    let sequence = packet.sequence;
    match told.outcome {
        Some(outcome) => write_outcome(&mut out, told, sequence, outcome)?,
        None => {
            write!(out, "sends packet {sequence}: ")?;
            write_load(&mut out, &told.tokens)?;
        }
    }
    Ok(out)
}

fn write_refused(
    out: &mut String,
    kind: &str,
    told: &Explanation<'_>,
    refusal: Refusal,
) -> Result<(), AllocError> {
    let number = refusal.number();
    out.push_str(kind)?;
    if let Some(packet) = told.facts.packet {
        let sequence = packet.sequence;
        write!(out, " of packet {sequence}")?;
    }
    write!(out, " refused: {refusal:?} ({number})")
}

fn write_outcome(
    out: &mut String,
    told: &Explanation<'_>,
    sequence: u64,
    outcome: PacketOutcome,
) -> Result<(), AllocError> {
    let is_own = told.is_of_sender();
    match outcome {
        PacketOutcome::Delivered if is_own => write!(out, "packet {sequence} acknowledged"),
        PacketOutcome::Delivered => write!(out, "receives packet {sequence}"),
        PacketOutcome::Refused if is_own => {
            let reason = told.reason.as_str();
            write!(out, "packet {sequence} given back: {reason}")
        }
        PacketOutcome::Refused => {
            let reason = told.reason.as_str();
            write!(out, "receives packet {sequence}, error: {reason}")
        }
        PacketOutcome::TimedOut => {
            write!(out, "packet {sequence} timed out: ")?;
            write_load(out, &told.tokens)?;
            out.push_str(" given back")
        }
    }
}
