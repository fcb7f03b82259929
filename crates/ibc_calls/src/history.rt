//! Histories: what a ledger was asked, and what it answered.

ghost use Rattle.std.specs.Prelude.{◌≡◌, Some};
ghost use Rattle.ibc_calls.specs.Handles.{IsWritten};
ghost use Rattle.ibc_calls.specs.History.{IsEventText, TellsEvent, TellsLength, TellsReply, event_code, published_in, reply_bytes, reply_code, reply_output, event_output, IsEventGiven, IsReplyWritten};
ghost use Rattle.ibc_calls.specs.Events.{IsReplyGiven};

use crate::Refused;
use crate::handles::write_out;
use crate::reads::spelling_of;
use ibc_handle::{Handle, HandleValue};
use ibc_ids::Bytes;
use ibc_ledger::StampedEntry;
use ibc_machine::{Effect, Entry, Event, Reading, Reply};
use std::alloc::Global;

/// What a reply tells in numbers. Its kind is 0 for a refusal, whose number is told; 1 where there is nothing to tell; 2, 3 and 4
/// where a client, a connection or a channel was made, whose name goes with it; 5 where a packet was sent, whose sequence is
/// told; 6 where an acknowledgement was written, which goes with it; 7 where a block was ended, whose height is told, and
/// whose root goes with it.
#[repr(C)]
#[derive(Clone, Copy, Debug, PartialEq, Eq, Drop)]
pub struct ReplyCode {
    pub kind: u64,
    pub number: u64,
}

/// What a ledger was asked, in numbers. Its kind is the tag of a message, 1 to 19; or 0 for the end of a block, and then the time
/// of the next one is told, which else is 0. Of an update of a client it is told how many heights the client's chain had published
/// when the ledger read that; else, and where nothing was read, that is 0.
#[repr(C)]
#[derive(Clone, Copy, Debug, PartialEq, Eq, Drop)]
pub struct EventCode {
    pub kind: u64,
    pub next_time: u64,
    pub published: u64,
}

/// Tells how many entries the history of a ledger has, how many messages a plan, how many holdings a list of balances, how many
/// channels a list of notes, how many chains an audit, or how many entries a journal's list. Refused: `Empty`; `OtherKind`.
#[tactic(auto, unfolding(crate::specs::History::TellsLength))]
pub fn length(alloc: Global, handle: &mut Handle, length: &mut u64) -> Result<(), Refused>
    ensures kept { handle.new.value ≡ handle.old.value }
    ensures told { TellsLength handle.old.value length.old length.new result }
{
    match handle.take(alloc) {
        None => Err(Refused::Empty),
        Some(held) => {
            let answer = length_of(&held, length);
            handle.set(alloc, held);
            answer
        }
    }
}

#[tactic(auto, unfolding(crate::specs::History::TellsLength))]
fn length_of(held: &HandleValue, length: &mut u64) -> Result<(), Refused>
    ensures { TellsLength (Some held.now) length.old length.new result }
{
    match held {
        HandleValue::Ledger(member) => {
            *length = member.ledger.history().len() as u64;
            Ok(())
        }
        HandleValue::Plan(messages) => {
            *length = messages.len() as u64;
            Ok(())
        }
        HandleValue::Balances(list) => {
            *length = list.len() as u64;
            Ok(())
        }
        HandleValue::Notes(list) => {
            *length = list.len() as u64;
            Ok(())
        }
        HandleValue::Audit(audit) => {
            *length = audit.balances.len() as u64;
            Ok(())
        }
        HandleValue::Entries(list) => {
            *length = list.len() as u64;
            Ok(())
        }
        _ => Err(Refused::OtherKind),
    }
}

/// Tells the reply of an entry of a ledger's history, which are numbered from 0, and writes the bytes that go with it. Refused:
/// `Empty`; `OtherKind`; `NothingThere` where there is no such entry: then nothing is told. `TooShort`: then the numbers alone
/// are told.
#[tactic(auto, unfolding(crate::specs::History::TellsReply))]
pub fn history_reply(
    alloc: Global,
    ledger: &mut Handle,
    index: u64,
    told: &mut ReplyCode,
    bytes: &mut [u8],
    size: &mut usize,
) -> Result<(), Refused>
    ensures kept { ledger.new.value ≡ ledger.old.value }
    ensures told { TellsReply index ledger.old.value (reply_output told.old bytes.old size.old) (reply_output told.new bytes.new size.new) result }
{
    match ledger.take(alloc) {
        None => Err(Refused::Empty),
        Some(held) => {
            let answer = reply_at(&held, index, told, bytes, size);
            ledger.set(alloc, held);
            answer
        }
    }
}

#[tactic(auto, unfolding(crate::specs::History::TellsReply))]
fn reply_at(
    held: &HandleValue,
    index: u64,
    told: &mut ReplyCode,
    bytes: &mut [u8],
    size: &mut usize,
) -> Result<(), Refused>
    ensures { TellsReply index (Some held.now) (reply_output told.old bytes.old size.old) (reply_output told.new bytes.new size.new) result }
{
    match held {
        HandleValue::Ledger(member) => match member.ledger.history().get(index as usize) {
            Some(entry) => tell(entry, told, bytes, size),
            None => Err(Refused::NothingThere),
        },
        _ => Err(Refused::OtherKind),
    }
}

fn tell(
    stamped: &StampedEntry,
    told: &mut ReplyCode,
    bytes: &mut [u8],
    size: &mut usize,
) -> Result<(), Refused>
    ensures told { told.new ≡ reply_code stamped.now.entry.reply }
    ensures bytes { IsReplyWritten stamped.now.entry bytes.old bytes.new size.new result }
{
    write_reply(&stamped.entry.reply, told, bytes, size)
}

fn write_reply(
    reply: &Reply,
    told: &mut ReplyCode,
    bytes: &mut [u8],
    size: &mut usize,
) -> Result<(), Refused>
    ensures told { told.new ≡ reply_code reply.now }
    ensures bytes { IsWritten (reply_bytes reply.now) bytes.old bytes.new size.new result }
{
    *told = told_of(reply);
    write_out(text_of(reply), bytes, size)
}

/// Tells a reply, and writes the bytes that go with it where there is room. Their number is told.
pub(crate) fn put_reply(reply: &Reply, told: &mut ReplyCode, bytes: &mut [u8], size: &mut usize)
    ensures { IsReplyGiven reply.now told.old told.new bytes.old bytes.new size.old size.new }
{
    let _ = write_reply(reply, told, bytes, size);
}

fn told_of(reply: &Reply) -> ReplyCode
    ensures { result ≡ reply_code reply.now }
{
    let (kind, number) = match reply {
        Reply::No(refusal) => (0, u64::from(refusal.number())),
        Reply::Ok(Effect::None) => (1, 0),
        Reply::Ok(Effect::Client(_)) => (2, 0),
        Reply::Ok(Effect::Connection(_)) => (3, 0),
        Reply::Ok(Effect::Channel(_)) => (4, 0),
        Reply::Ok(Effect::Sent(sequence)) => (5, *sequence),
        Reply::Ok(Effect::Ack(_)) => (6, 0),
        Reply::Ok(Effect::Block(height, _)) => (7, *height),
    };
    ReplyCode { kind, number }
}

fn text_of(reply: &Reply) -> &[u8]
    ensures { result.now ≡ reply_bytes reply.now }
{
    match reply {
        Reply::Ok(Effect::Client(name)) => name.as_str().as_bytes(),
        Reply::Ok(Effect::Connection(name)) => name.as_str().as_bytes(),
        Reply::Ok(Effect::Channel(name)) => name.as_str().as_bytes(),
        Reply::Ok(Effect::Ack(ack)) => ack.as_slice(),
        Reply::Ok(Effect::Block(_, root)) => root.bytes(),
        _ => &[],
    }
}

/// Tells what the ledger was asked by an entry of its history, which are numbered from 0: a message, and then the bytes are written
/// that spell it; or the end of a block. Refused: `Empty`; `OtherKind`; `NothingThere` where there is no such entry;
/// `Core(BadMessage)` where the message has no spelling, which no message has that was applied by its bytes; `Core(NoMemory)`: then
/// nothing is told. `TooShort`: then the numbers alone are told.
#[tactic(auto, unfolding(crate::specs::History::TellsEvent))]
pub fn history_event(
    alloc: Global,
    ledger: &mut Handle,
    index: u64,
    asked: &mut EventCode,
    bytes: &mut [u8],
    size: &mut usize,
) -> Result<(), Refused>
    ensures kept { ledger.new.value ≡ ledger.old.value }
    ensures told { TellsEvent index ledger.old.value (event_output asked.old bytes.old size.old) (event_output asked.new bytes.new size.new) result }
{
    match ledger.take(alloc) {
        None => Err(Refused::Empty),
        Some(held) => {
            let answer = event_at(alloc, &held, index, asked, bytes, size);
            ledger.set(alloc, held);
            answer
        }
    }
}

#[tactic(auto, unfolding(crate::specs::History::TellsEvent))]
fn event_at(
    alloc: Global,
    held: &HandleValue,
    index: u64,
    asked: &mut EventCode,
    bytes: &mut [u8],
    size: &mut usize,
) -> Result<(), Refused>
    ensures { TellsEvent index (Some held.now) (event_output asked.old bytes.old size.old) (event_output asked.new bytes.new size.new) result }
{
    match held {
        HandleValue::Ledger(member) => match member.ledger.history().get(index as usize) {
            Some(stamped) => tell_event(alloc, &stamped.entry, asked, bytes, size),
            None => Err(Refused::NothingThere),
        },
        _ => Err(Refused::OtherKind),
    }
}

fn tell_event(
    alloc: Global,
    entry: &Entry,
    asked: &mut EventCode,
    bytes: &mut [u8],
    size: &mut usize,
) -> Result<(), Refused>
    ensures { IsEventGiven entry.now asked.old asked.new bytes.old bytes.new size.old size.new result }
{
    match asked_text(alloc, &entry.event) {
        Ok(text) => {
            *asked = asked_of(entry);
            write_out(text.as_slice(), bytes, size)
        }
        Err(refused) => Err(refused),
    }
}

// The bytes that spell what was asked, none of the end of a block.
fn asked_text(alloc: Global, event: &Event) -> Result<Bytes, Refused>
    ensures { IsEventText event.now result }
{
    match event {
        Event::Message { message, .. } => spelling_of(alloc, message),
        Event::Block { .. } => Ok(Bytes::from_vec(Vec::new(alloc))),
    }
}

fn asked_of(entry: &Entry) -> EventCode
    ensures { result ≡ event_code entry.now }
{
    let (kind, next_time) = match &entry.event {
        Event::Message { message, .. } => (u64::from(message.kind().tag()), 0),
        Event::Block { next_time, .. } => (0, *next_time),
    };
    EventCode {
        kind,
        next_time,
        published: published_in(&entry.reading),
    }
}

fn published_in(reading: &Option<Reading>) -> u64
    ensures { result ≡ published_in reading.now }
{
    match reading {
        Some(reading) => reading.published,
        None => 0,
    }
}
