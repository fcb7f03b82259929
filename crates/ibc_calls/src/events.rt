//! Messages, and the ends of blocks.

ghost use Rattle.std.specs.Prelude.{◌≡◌, Some};
ghost use Rattle.ibc_calls.specs.CallAnswers.{answer_to};
ghost use Rattle.ibc_calls.specs.Events.{AppliesMessage, EndsBlock, IsApplied, IsBlockEnded, LedgerReplies, IsReplyGiven};
ghost use Rattle.ibc_calls.specs.History.{reply_output};

use crate::Refused;
use crate::answer::answer_to;
use crate::history::{ReplyCode, put_reply};
use crate::messages::message_of;
use ibc_handle::{Handle, HandleValue};
use ibc_ledger::Ledger;
use ibc_machine::Reply;
use std::alloc::Global;

/// Applies the message that the bytes spell to the working block of a ledger, which is asked for it as by `Ledger::apply`, and tells the
/// reply as `history_reply` does: it is the last of the history, where it isn't `NoMemory`. The bytes that go with it are written
/// where there is room, and their number is told. Refused: `Empty`; `OtherKind`; `NoMessage` exactly where the bytes spell
/// none; `Core(NoMemory)`; and where the reply is a refusal, `Core` of it. What is refused but by a reply changes and tells
/// nothing.
#[tactic(auto, unfolding(crate::specs::Events::AppliesMessage))]
pub fn apply(
    alloc: Global,
    ledger: &mut Handle,
    message: &[u8],
    told: &mut ReplyCode,
    bytes: &mut [u8],
    size: &mut usize,
) -> Result<(), Refused>
    ensures { AppliesMessage message.now ledger.old.value ledger.new.value (reply_output told.old bytes.old size.old) (reply_output told.new bytes.new size.new) result }
{
    match ledger.take(alloc) {
        None => Err(Refused::Empty),
        Some(held) => {
            let mut held = held;
            let answer = apply_to(alloc, &mut held, message, told, bytes, size);
            ledger.set(alloc, held);
            answer
        }
    }
}

fn apply_to(
    alloc: Global,
    held: &mut HandleValue,
    message: &[u8],
    told: &mut ReplyCode,
    bytes: &mut [u8],
    size: &mut usize,
) -> Result<(), Refused>
    ensures { LedgerReplies (IsApplied message.now) (Some held.old) (Some held.new) (reply_output told.old bytes.old size.old) (reply_output told.new bytes.new size.new) result }
{
    match held {
        HandleValue::Ledger(member) => {
            apply_at(alloc, &mut member.ledger, message, told, bytes, size)
        }
        _ => Err(Refused::OtherKind),
    }
}

#[tactic(auto, unfolding(crate::specs::Events::IsApplied, crate::specs::Events::IsAsked))]
fn apply_at(
    alloc: Global,
    ledger: &mut Ledger,
    message: &[u8],
    told: &mut ReplyCode,
    bytes: &mut [u8],
    size: &mut usize,
) -> Result<(), Refused>
    ensures { IsApplied message.now ledger.old ledger.new (reply_output told.old bytes.old size.old) (reply_output told.new bytes.new size.new) result }
{
    match message_of(alloc, message) {
        Ok(message) => tell_reply(ledger.apply(message), told, bytes, size),
        Err(refused) => Err(refused),
    }
}

// Tells a reply, and answers its number.
fn tell_reply(
    reply: Reply,
    told: &mut ReplyCode,
    bytes: &mut [u8],
    size: &mut usize,
) -> Result<(), Refused>
    ensures answer { result ≡ answer_to reply }
    ensures told { IsReplyGiven reply told.old told.new bytes.old bytes.new size.old size.new }
{
    put_reply(&reply, told, bytes, size);
    answer_to(reply)
}

/// Ends the working block of a ledger, as `Ledger::end_block` does; the next one has this time. The reply is told as by `apply`.
/// Refused: `Empty`; `OtherKind`; and `Core` of the reply: `TimeBack` where the time is below the working time, `TableFull`,
/// `NoMemory`.
#[tactic(auto, unfolding(crate::specs::Events::EndsBlock))]
pub fn end_block(
    alloc: Global,
    ledger: &mut Handle,
    next_time: u64,
    told: &mut ReplyCode,
    bytes: &mut [u8],
    size: &mut usize,
) -> Result<(), Refused>
    ensures { EndsBlock next_time ledger.old.value ledger.new.value (reply_output told.old bytes.old size.old) (reply_output told.new bytes.new size.new) result }
{
    match ledger.take(alloc) {
        None => Err(Refused::Empty),
        Some(held) => {
            let mut held = held;
            let answer = end_of(&mut held, next_time, told, bytes, size);
            ledger.set(alloc, held);
            answer
        }
    }
}

fn end_of(
    held: &mut HandleValue,
    next_time: u64,
    told: &mut ReplyCode,
    bytes: &mut [u8],
    size: &mut usize,
) -> Result<(), Refused>
    ensures { LedgerReplies (IsBlockEnded next_time) (Some held.old) (Some held.new) (reply_output told.old bytes.old size.old) (reply_output told.new bytes.new size.new) result }
{
    match held {
        HandleValue::Ledger(member) => end_at(&mut member.ledger, next_time, told, bytes, size),
        _ => Err(Refused::OtherKind),
    }
}

#[tactic(auto, unfolding(crate::specs::Events::IsBlockEnded, crate::specs::Events::IsAsked))]
fn end_at(
    ledger: &mut Ledger,
    next_time: u64,
    told: &mut ReplyCode,
    bytes: &mut [u8],
    size: &mut usize,
) -> Result<(), Refused>
    ensures { IsBlockEnded next_time ledger.old ledger.new (reply_output told.old bytes.old size.old) (reply_output told.new bytes.new size.new) result }
{
    tell_reply(ledger.end_block(next_time), told, bytes, size)
}
