//! What is read of ledgers and of plans.

ghost use Rattle.std.specs.Prelude.{◌≡◌, Some, IfOk, IfErr, IsTrue};
ghost use Rattle.ibc_ids.specs.Names.{is_denom};
ghost use Rattle.ibc_calls.specs.Handles.{Finds};
ghost use Rattle.ibc_calls.specs.Reads.{AreEscrow, FindsMessage, FindsValue, IsBalance, IsEscrow, IsSpelling, IsSupply, IsValueAt, TellsBalance, TellsEscrow, TellsSupply, amount_of, AreEscrowNames};
ghost use Rattle.ibc_calls.specs.CallAnswers.{IsNameRefused};

use crate::Refused;
use crate::genesis::names_of;
use crate::handles::give;
use crate::views::key_of;
use ibc_handle::{Handle, HandleValue};
use ibc_ids::{Account, Bytes, ChannelId, Denom};
use ibc_ledger::Ledger;
use ibc_message_codec::encode;
use ibc_wire::Message;
use std::alloc::Global;

/// An amount: `high` times 2^64 and `low`.
#[repr(C)]
#[derive(Clone, Copy, Debug, PartialEq, Eq, Drop)]
pub struct Amount {
    pub high: u64,
    pub low: u64,
}

/// Writes the value at the path of a key in the working block of a ledger (ICS 24). Refused: `Empty`; `OtherKind`;
/// `Core(BadName)` exactly where no key has the path; `NothingThere` where the key has no value; `TooShort`; `Core(NoMemory)`.
#[tactic(auto, unfolding(crate::specs::Handles::Finds))]
pub fn query(
    alloc: Global,
    ledger: &mut Handle,
    path: &[u8],
    value: &mut [u8],
    size: &mut usize,
) -> Result<(), Refused>
    ensures kept { ledger.new.value ≡ ledger.old.value }
    ensures found { Finds (FindsValue path.now ledger.old.value) value.old value.new size.old size.new result }
{
    give(value_in(alloc, ledger, path), value, size)
}

#[tactic(auto, unfolding(crate::specs::Reads::FindsValue))]
fn value_in(alloc: Global, ledger: &mut Handle, path: &[u8]) -> Result<Bytes, Refused>
    ensures kept { ledger.new.value ≡ ledger.old.value }
    ensures found { FindsValue path.now ledger.old.value result }
{
    match ledger.take(alloc) {
        None => Err(Refused::Empty),
        Some(held) => {
            let found = value_at(alloc, &held, path);
            ledger.set(alloc, held);
            found
        }
    }
}

#[tactic(auto, unfolding(crate::specs::Reads::FindsValue))]
fn value_at(alloc: Global, held: &HandleValue, path: &[u8]) -> Result<Bytes, Refused>
    ensures { FindsValue path.now (Some held.now) result }
{
    match held {
        HandleValue::Ledger(member) => value_of(alloc, &member.ledger, path),
        _ => Err(Refused::OtherKind),
    }
}

fn value_of(alloc: Global, ledger: &Ledger, path: &[u8]) -> Result<Bytes, Refused>
    ensures { IsValueAt path.now ledger.now.ledger result }
{
    match key_of(alloc, path) {
        Ok(key) => match ledger.query(&key) {
            Ok(Some(value)) => Ok(value),
            Ok(None) => Err(Refused::NothingThere),
            Err(refusal) => Err(Refused::Core(refusal)),
        },
        Err(refusal) => Err(Refused::Core(refusal)),
    }
}

/// Writes the bytes of a plan's message, which are numbered from 0. Refused: `Empty`; `OtherKind`; `NothingThere` where there is
/// no such message; `Core(BadMessage)` where a message has no spelling; `TooShort`; `Core(NoMemory)`.
#[tactic(auto, unfolding(crate::specs::Handles::Finds))]
pub fn plan_message(
    alloc: Global,
    plan: &mut Handle,
    index: u64,
    message: &mut [u8],
    size: &mut usize,
) -> Result<(), Refused>
    ensures kept { plan.new.value ≡ plan.old.value }
    ensures found { Finds (FindsMessage index plan.old.value) message.old message.new size.old size.new result }
{
    give(message_in(alloc, plan, index), message, size)
}

#[tactic(auto, unfolding(crate::specs::Reads::FindsMessage))]
fn message_in(alloc: Global, plan: &mut Handle, index: u64) -> Result<Bytes, Refused>
    ensures kept { plan.new.value ≡ plan.old.value }
    ensures found { FindsMessage index plan.old.value result }
{
    match plan.take(alloc) {
        None => Err(Refused::Empty),
        Some(held) => {
            let found = message_at(alloc, &held, index);
            plan.set(alloc, held);
            found
        }
    }
}

#[tactic(auto, unfolding(crate::specs::Reads::FindsMessage))]
fn message_at(alloc: Global, held: &HandleValue, index: u64) -> Result<Bytes, Refused>
    ensures { FindsMessage index (Some held.now) result }
{
    match held {
        HandleValue::Plan(messages) => match messages.get(index as usize) {
            Some(message) => spelling_of(alloc, message),
            None => Err(Refused::NothingThere),
        },
        _ => Err(Refused::OtherKind),
    }
}

/// The bytes that spell a message. Refused: `Core(BadMessage)` where it has no spelling; `Core(NoMemory)`.
pub(crate) fn spelling_of(alloc: Global, message: &Message) -> Result<Bytes, Refused>
    ensures { IsSpelling (Some message.now) result }
{
    match encode(alloc, message) {
        Ok(bytes) => Ok(Bytes::from_vec(bytes)),
        Err(refusal) => Err(Refused::Core(refusal)),
    }
}

/// Tells what a user holds of a denomination in the working block of a ledger. Refused: `Empty`; `OtherKind`; `Core(BadName)`
/// exactly where a name is none of its kind; `Core(NoMemory)`. Then nothing is told.
#[tactic(auto, unfolding(crate::specs::Reads::TellsBalance))]
pub fn balance(
    alloc: Global,
    ledger: &mut Handle,
    user: &[u8],
    denom: &[u8],
    amount: &mut Amount,
) -> Result<(), Refused>
    ensures kept { ledger.new.value ≡ ledger.old.value }
    ensures told { TellsBalance user.now denom.now ledger.old.value amount.old amount.new result }
{
    match ledger.take(alloc) {
        None => Err(Refused::Empty),
        Some(held) => {
            let answer = balance_at(alloc, &held, user, denom, amount);
            ledger.set(alloc, held);
            answer
        }
    }
}

#[tactic(auto, unfolding(crate::specs::Reads::TellsBalance))]
fn balance_at(
    alloc: Global,
    held: &HandleValue,
    user: &[u8],
    denom: &[u8],
    amount: &mut Amount,
) -> Result<(), Refused>
    ensures { TellsBalance user.now denom.now (Some held.now) amount.old amount.new result }
{
    match held {
        HandleValue::Ledger(member) => balance_of(alloc, &member.ledger, user, denom, amount),
        _ => Err(Refused::OtherKind),
    }
}

fn balance_of(
    alloc: Global,
    ledger: &Ledger,
    user: &[u8],
    denom: &[u8],
    amount: &mut Amount,
) -> Result<(), Refused>
    ensures { IsBalance user.now denom.now ledger.now.ledger amount.old amount.new result }
{
    let (user, denom) = names_of(alloc, user, denom)?;
    *amount = parts_of(ledger.balance(&Account::User(user), &denom));
    Ok(())
}

/// Tells what the escrow account of a channel holds of a denomination in the working block of a ledger (ICS 20, "escrow address").
/// Refused: `Empty`; `OtherKind`; `Core(BadName)` exactly where a name is none of its kind; `Core(NoMemory)`. Then nothing is told.
#[tactic(auto, unfolding(crate::specs::Reads::TellsEscrow))]
pub fn escrow(
    alloc: Global,
    ledger: &mut Handle,
    channel: &[u8],
    denom: &[u8],
    amount: &mut Amount,
) -> Result<(), Refused>
    ensures kept { ledger.new.value ≡ ledger.old.value }
    ensures told { TellsEscrow channel.now denom.now ledger.old.value amount.old amount.new result }
{
    match ledger.take(alloc) {
        None => Err(Refused::Empty),
        Some(held) => {
            let answer = escrow_at(alloc, &held, channel, denom, amount);
            ledger.set(alloc, held);
            answer
        }
    }
}

#[tactic(auto, unfolding(crate::specs::Reads::TellsEscrow))]
fn escrow_at(
    alloc: Global,
    held: &HandleValue,
    channel: &[u8],
    denom: &[u8],
    amount: &mut Amount,
) -> Result<(), Refused>
    ensures { TellsEscrow channel.now denom.now (Some held.now) amount.old amount.new result }
{
    match held {
        HandleValue::Ledger(member) => escrow_of(alloc, &member.ledger, channel, denom, amount),
        _ => Err(Refused::OtherKind),
    }
}

fn escrow_of(
    alloc: Global,
    ledger: &Ledger,
    channel: &[u8],
    denom: &[u8],
    amount: &mut Amount,
) -> Result<(), Refused>
    ensures { IsEscrow channel.now denom.now ledger.now.ledger amount.old amount.new result }
{
    let (channel, denom) = escrow_names(alloc, channel, denom)?;
    *amount = parts_of(ledger.balance(&Account::Escrow(channel), &denom));
    Ok(())
}

/// The channel and the denomination of these names. Refused: `Core(BadName)` exactly where one is none of its kind; `Core(NoMemory)`.
pub(crate) fn escrow_names(
    alloc: Global,
    channel: &[u8],
    denom: &[u8],
) -> Result<(ChannelId, Denom), Refused>
    ensures ok { IfOk result (λ names. AreEscrowNames channel.now denom.now names) }
    ensures err { IfErr result (λ refused. IsNameRefused (AreEscrow channel.now denom.now) refused) }
{
    let channel = ChannelId::from_bytes(alloc, channel)?;
    let denom = Denom::from_bytes(alloc, denom)?;
    Ok((channel, denom))
}

/// Tells how much of a denomination all accounts hold in the working block of a ledger, the escrow accounts among them (ICS 20).
/// Refused: `Empty`; `OtherKind`; `Core(BadName)` exactly where the name is none of a denomination; `Core(NoMemory)`. Then nothing
/// is told.
#[tactic(auto, unfolding(crate::specs::Reads::TellsSupply))]
pub fn supply(
    alloc: Global,
    ledger: &mut Handle,
    denom: &[u8],
    amount: &mut Amount,
) -> Result<(), Refused>
    ensures kept { ledger.new.value ≡ ledger.old.value }
    ensures told { TellsSupply denom.now ledger.old.value amount.old amount.new result }
{
    match ledger.take(alloc) {
        None => Err(Refused::Empty),
        Some(held) => {
            let answer = supply_at(alloc, &held, denom, amount);
            ledger.set(alloc, held);
            answer
        }
    }
}

#[tactic(auto, unfolding(crate::specs::Reads::TellsSupply))]
fn supply_at(
    alloc: Global,
    held: &HandleValue,
    denom: &[u8],
    amount: &mut Amount,
) -> Result<(), Refused>
    ensures { TellsSupply denom.now (Some held.now) amount.old amount.new result }
{
    match held {
        HandleValue::Ledger(member) => supply_of(alloc, &member.ledger, denom, amount),
        _ => Err(Refused::OtherKind),
    }
}

fn supply_of(
    alloc: Global,
    ledger: &Ledger,
    denom: &[u8],
    amount: &mut Amount,
) -> Result<(), Refused>
    ensures { IsSupply denom.now ledger.now.ledger amount.old amount.new result }
{
    let denom = denom_of(alloc, denom)?;
    *amount = parts_of(ledger.supply(&denom));
    Ok(())
}

// The denomination of this name.
fn denom_of(alloc: Global, denom: &[u8]) -> Result<Denom, Refused>
    ensures ok { IfOk result (λ name. (name ≡ denom.now) × IsTrue (is_denom denom.now)) }
    ensures err { IfErr result (λ refused. IsNameRefused (IsTrue (is_denom denom.now)) refused) }
{
    let denom = Denom::from_bytes(alloc, denom)?;
    Ok(denom)
}

pub(crate) fn parts_of(amount: u128) -> Amount
    ensures { amount_of result ≡ amount }
{
    Amount {
        high: (amount / (1 << 64)) as u64,
        low: (amount % (1 << 64)) as u64,
    }
}
