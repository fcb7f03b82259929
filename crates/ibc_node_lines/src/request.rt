//! What a line asks for.

ghost use Rattle.std.specs.Prelude.{◌≡◌, Ok, IfErr, IfOk};
ghost use Rattle.hex.specs.Hex.{decode_of};
ghost use Rattle.ibc_node_lines.specs.Requests.{hex_fault_of, IsHexFault};

use crate::{LineFault, SingleSteps};
use hex::{FromHexError, decode as decode_hex};
use ibc_ids::{ChannelId, Denom, Key, Refusal};
use ibc_machine::Event;
use ibc_message_codec::decode as decode_message;
use ibc_script::Step;
use serde_json::Value;
use std::alloc::Global;

/// What a line asks for.
#[derive(Drop)]
pub enum NodeRequest {
    /// Something is done, by this place of a log, or by none where that is 0.
    Do { log_place: u32, asked: NodeAction },
    /// Something is told.
    Tell(NodeQuestion),
}

/// What is done.
#[derive(Drop)]
pub enum NodeAction {
    /// `{"do": .., ..}`, as scripts have it.
    Step(Step),
    /// `{"chain": 0, "message": "HEX"}` or `{"chain": 0, "block": TIME}`.
    Event(Event),
}

/// What is told.
#[derive(Drop)]
pub enum NodeQuestion {
    /// `{"query": "entries"}`: how many entries there are.
    Entries,
    /// `{"query": "kept", "from": 0}`: the entries from a place on, at most 100.
    Kept {
        from: u32,
    },
    /// `{"query": "balances", "chain": 0}`: who holds how much of what.
    Balances {
        chain: u8,
    },
    /// `{"query": "value", "chain": 0, "path": ".."}`: what a chain has under a path as it stands.
    Standing {
        chain: u8,
        key: Key,
    },
    /// `{"query": "root", "chain": 0, "height": 1}`: the root of a committed height.
    Root {
        chain: u8,
        height: u64,
    },
    /// `{"query": "proof", "chain": 0, "height": 1, "path": ".."}`: the proof of what a committed height has under a path.
    Proof {
        chain: u8,
        height: u64,
        key: Key,
    },
    /// `{"query": "totals", "chain": 0, "channel": "..", "denom": ".."}`: what a channel has of a denomination.
    Totals {
        chain: u8,
        channel: ChannelId,
        denom: Denom,
    },
    /// `{"query": "plan", "from": 0, "to": 1}`: the messages that a relayer would send to a chain.
    Plan {
        from: u8,
        to: u8,
    },
}

/// What a line asks for, in JSON.
pub fn read_request(
    alloc: Global,
    steps: &SingleSteps,
    line: &[u8],
) -> Result<NodeRequest, LineFault> {
    let Ok(text) = str::from_utf8(line) else {
        return Err(LineFault::NotText);
    };
    match Value::from_str(alloc, text) {
        Ok(value) => {
            let request = request_of(alloc, steps, &value);
            drop(value);
            request
        }
        Err(error) if error.is_memory() => Err(LineFault::NoMemory),
        Err(_) => Err(LineFault::NotJson),
    }
}

fn request_of(alloc: Global, steps: &SingleSteps, value: &Value) -> Result<NodeRequest, LineFault> {
    let Some(members) = value.as_object() else {
        return Err(LineFault::NoObject);
    };
    if members.contains_key("query") {
        return Ok(NodeRequest::Tell(question_of(alloc, value)?));
    }
    let log_place = log_place_of(value)?;
    let asked = asked_of(alloc, steps, value)?;
    Ok(NodeRequest::Do { log_place, asked })
}

// The place of a log that a line names, or 0.
fn log_place_of(value: &Value) -> Result<u32, LineFault> {
    let Some(place) = value.get("at") else {
        return Ok(0);
    };
    match place.as_u64() {
        Some(place) if place > 0 => u32::try_from(place).map_err(|_| LineFault::NoLogPlace),
        _ => Err(LineFault::NoLogPlace),
    }
}

// What a line wants done.
fn asked_of(alloc: Global, steps: &SingleSteps, value: &Value) -> Result<NodeAction, LineFault> {
    let Some(members) = value.as_object() else {
        return Err(LineFault::NoObject);
    };
    if members.contains_key("do") {
        return Ok(NodeAction::Step(steps.read(value)?));
    }
    if members.contains_key("block") {
        only(value, &["at", "chain", "block"])?;
        return Ok(NodeAction::Event(block_of(value)?));
    }
    if members.contains_key("message") {
        only(value, &["at", "chain", "message"])?;
        return Ok(NodeAction::Event(message_of(alloc, value)?));
    }
    Err(LineFault::NoRequest)
}

// `Ok` where each member has one of the names.
fn only(value: &Value, names: &[&str]) -> Result<(), LineFault> {
    let Some(members) = value.as_object() else {
        return Err(LineFault::NoObject);
    };
    if members
        .keys()
        .all(|member| names.iter().any(|name| *name == member.as_str()))
    {
        Ok(())
    } else {
        Err(LineFault::UnknownMember)
    }
}

// The number of the chain that a member names.
fn chain_of(value: &Value, member: &str) -> Result<u8, LineFault> {
    let number = value
        .get(member)
        .and_then(Value::as_u64)
        .ok_or(LineFault::NoChain)?;
    u8::try_from(number).map_err(|_| LineFault::NoChain)
}

fn block_of(value: &Value) -> Result<Event, LineFault> {
    let chain = chain_of(value, "chain")?;
    let next_time = value
        .get("block")
        .and_then(Value::as_u64)
        .ok_or(LineFault::NoTime)?;
    Ok(Event::Block { chain, next_time })
}

fn message_of(alloc: Global, value: &Value) -> Result<Event, LineFault> {
    let chain = chain_of(value, "chain")?;
    let text = value
        .get("message")
        .and_then(Value::as_str)
        .ok_or(LineFault::NoHex)?;
    let bytes = bytes_of(alloc, text)?;
    let message = decode_message(alloc, bytes.as_slice());
    drop(bytes);
    match message {
        Ok(message) => Ok(Event::Message { chain, message }),
        Err(Refusal::NoMemory) => Err(LineFault::NoMemory),
        Err(_) => Err(LineFault::NoMessage),
    }
}

/// The bytes that a text spells in hex.
pub fn bytes_of(alloc: Global, text: &str) -> Result<Vec<u8>, LineFault>
    ensures ok { IfOk result (λ bytes. decode_of text.now ≡ Ok bytes.items) }
    ensures err { IfErr result (IsHexFault text.now) }
{
    match decode_hex(alloc, text.as_bytes()) {
        Ok(bytes) => Ok(bytes),
        Err(error) => Err(hex_fault(error)),
    }
}

fn hex_fault(error: FromHexError) -> LineFault
    ensures { result ≡ hex_fault_of error }
{
    match error {
        FromHexError::InvalidHexCharacter { .. } => LineFault::NoHex,
        FromHexError::OddLength => LineFault::NoHex,
        FromHexError::InvalidStringLength => LineFault::NoHex,
        FromHexError::OutOfMemory => LineFault::NoMemory,
    }
}

// What a line wants told.
fn question_of(alloc: Global, value: &Value) -> Result<NodeQuestion, LineFault> {
    match value.get("query").and_then(Value::as_str) {
        Some("entries") => {
            only(value, &["query"])?;
            Ok(NodeQuestion::Entries)
        }
        Some("kept") => kept_of(value),
        Some("balances") => {
            only(value, &["query", "chain"])?;
            let chain = chain_of(value, "chain")?;
            Ok(NodeQuestion::Balances { chain })
        }
        Some("value") => standing_of(alloc, value),
        Some("root") => root_of(value),
        Some("proof") => proof_of(alloc, value),
        Some("totals") => totals_of(alloc, value),
        Some("plan") => plan_of(value),
        _ => Err(LineFault::UnknownQuery),
    }
}

fn kept_of(value: &Value) -> Result<NodeQuestion, LineFault> {
    only(value, &["query", "from"])?;
    let from = value
        .get("from")
        .and_then(Value::as_u64)
        .ok_or(LineFault::NoPlace)?;
    match u32::try_from(from) {
        Ok(from) => Ok(NodeQuestion::Kept { from }),
        Err(_) => Err(LineFault::NoPlace),
    }
}

fn standing_of(alloc: Global, value: &Value) -> Result<NodeQuestion, LineFault> {
    only(value, &["query", "chain", "path"])?;
    let chain = chain_of(value, "chain")?;
    let key = key_of(alloc, value)?;
    Ok(NodeQuestion::Standing { chain, key })
}

fn root_of(value: &Value) -> Result<NodeQuestion, LineFault> {
    only(value, &["query", "chain", "height"])?;
    let chain = chain_of(value, "chain")?;
    let height = height_of(value)?;
    Ok(NodeQuestion::Root { chain, height })
}

fn proof_of(alloc: Global, value: &Value) -> Result<NodeQuestion, LineFault> {
    only(value, &["query", "chain", "height", "path"])?;
    let chain = chain_of(value, "chain")?;
    let height = height_of(value)?;
    let key = key_of(alloc, value)?;
    Ok(NodeQuestion::Proof { chain, height, key })
}

fn totals_of(alloc: Global, value: &Value) -> Result<NodeQuestion, LineFault> {
    only(value, &["query", "chain", "channel", "denom"])?;
    let chain = chain_of(value, "chain")?;
    let channel = channel_of(alloc, value)?;
    match denom_of(alloc, value) {
        Ok(denom) => Ok(NodeQuestion::Totals {
            chain,
            channel,
            denom,
        }),
        Err(fault) => {
            drop(channel);
            Err(fault)
        }
    }
}

fn plan_of(value: &Value) -> Result<NodeQuestion, LineFault> {
    only(value, &["query", "from", "to"])?;
    let from = chain_of(value, "from")?;
    let to = chain_of(value, "to")?;
    Ok(NodeQuestion::Plan { from, to })
}

fn height_of(value: &Value) -> Result<u64, LineFault> {
    value
        .get("height")
        .and_then(Value::as_u64)
        .ok_or(LineFault::NoHeight)
}

// The text of a member.
fn text_of<'v>(value: &'v Value, member: &str, otherwise: LineFault) -> Result<&'v str, LineFault> {
    value.get(member).and_then(Value::as_str).ok_or(otherwise)
}

fn key_of(alloc: Global, value: &Value) -> Result<Key, LineFault> {
    let path = text_of(value, "path", LineFault::NoPath)?;
    Key::parse(alloc, path).map_err(|refusal| fault_of(refusal, LineFault::NoPath))
}

fn channel_of(alloc: Global, value: &Value) -> Result<ChannelId, LineFault> {
    let name = text_of(value, "channel", LineFault::NoChannel)?;
    ChannelId::parse(alloc, name).map_err(|refusal| fault_of(refusal, LineFault::NoChannel))
}

fn denom_of(alloc: Global, value: &Value) -> Result<Denom, LineFault> {
    let name = text_of(value, "denom", LineFault::NoDenom)?;
    Denom::parse(alloc, name).map_err(|refusal| fault_of(refusal, LineFault::NoDenom))
}

// The fault of a text that has no such form, or for which there is no memory.
fn fault_of(refusal: Refusal, otherwise: LineFault) -> LineFault {
    match refusal {
        Refusal::NoMemory => LineFault::NoMemory,
        _ => otherwise,
    }
}
