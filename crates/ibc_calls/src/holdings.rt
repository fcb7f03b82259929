//! What accounts hold, one after another.

ghost use Rattle.std.specs.Prelude.{◌≡◌, Ok, Err, None, Some, IfOk, IfErr};
ghost use Rattle.ibc_calls.specs.Handles.{Finds};
ghost use Rattle.ibc_calls.specs.Holdings.{AreBalancesOf, FindsHolding, IsHoldingText, MakesBalances, TellsHolding, TellsHoldingCount, holding_at, holding_text, holdings_at};

use crate::Refused;
use crate::handles::{give, put_new};
use crate::reads::{Amount, parts_of};
use ibc_handle::{Handle, HandleValue};
use ibc_ids::{Account, Bytes, Denom, Refusal};
use std::alloc::{AllocError, Global};

/// Makes the list of what accounts hold in the working block of a ledger, in a handle that holds nothing: the amounts above 0, in
/// the byte order of the accounts' texts and then of the denominations. Refused, by the first check that fails: `Full`;
/// `Empty` and `OtherKind` where the first handle holds no ledger; `Core(NoMemory)`.
#[tactic(auto, unfolding(crate::specs::Holdings::MakesBalances))]
pub fn make_balances(
    alloc: Global,
    ledger: &mut Handle,
    balances: &mut Handle,
) -> Result<(), Refused>
    ensures kept { ledger.new.value ≡ ledger.old.value }
    ensures made { MakesBalances ledger.old.value balances.old.value balances.new.value result }
{
    if !balances.is_empty(alloc) {
        return Err(Refused::Full);
    }
    match ledger.take(alloc) {
        None => Err(Refused::Empty),
        Some(held) => {
            let answer = balances_at(alloc, &held, balances);
            ledger.set(alloc, held);
            answer
        }
    }
}

fn balances_at(alloc: Global, held: &HandleValue, balances: &mut Handle) -> Result<(), Refused>
    requires { balances.old.value ≡ None }
    ensures { AreBalancesOf (Some held.now) balances.new.value result }
{
    match held {
        HandleValue::Ledger(member) => match member.ledger.balances() {
            Ok(list) => put_new(alloc, balances, HandleValue::Balances(list)),
            Err(refusal) => Err(Refused::Core(refusal)),
        },
        _ => Err(Refused::OtherKind),
    }
}

/// Writes who holds what: the account (a user, or `escrow/transfer/` and a channel), a blank, and the denomination. It is the holding
/// at an index, from 0 on, of a list of balances, for which the chain is not looked at; or of an audit, at an index of what a
/// chain's accounts hold. Refused: `Empty`; `OtherKind`; `Core(UnknownChain)` where the audit has no such chain; `NothingThere`
/// where there is no such holding; `TooShort`; `Core(NoMemory)`.
#[tactic(auto, unfolding(crate::specs::Handles::Finds))]
pub fn holding(
    alloc: Global,
    balances: &mut Handle,
    chain: u64,
    index: u64,
    text: &mut [u8],
    size: &mut usize,
) -> Result<(), Refused>
    ensures kept { balances.new.value ≡ balances.old.value }
    ensures found { Finds (FindsHolding chain index balances.old.value) text.old text.new size.old size.new result }
{
    give(text_in(alloc, balances, chain, index), text, size)
}

#[tactic(auto, unfolding(crate::specs::Holdings::FindsHolding, crate::specs::Holdings::holding_at, crate::specs::Holdings::holdings_at))]
fn text_in(alloc: Global, balances: &mut Handle, chain: u64, index: u64) -> Result<Bytes, Refused>
    ensures kept { balances.new.value ≡ balances.old.value }
    ensures found { FindsHolding chain index balances.old.value result }
{
    match balances.take(alloc) {
        None => Err(Refused::Empty),
        Some(held) => {
            let found = text_at(alloc, &held, chain, index);
            balances.set(alloc, held);
            found
        }
    }
}

fn text_at(alloc: Global, held: &HandleValue, chain: u64, index: u64) -> Result<Bytes, Refused>
    ensures { IsHoldingText (holding_at chain index (Some held.now)) result }
{
    match holding_in(held, chain, index) {
        Ok(holding) => match text_of(alloc, holding) {
            Ok(text) => Ok(Bytes::from_vec(text)),
            Err(_) => Err(Refused::Core(Refusal::NoMemory)),
        },
        Err(refused) => Err(refused),
    }
}

fn text_of(alloc: Global, holding: &(Account, Denom, u128)) -> Result<Vec<u8>, AllocError>
    ensures { IfOk result (λ text. text.items ≡ holding_text holding.now) }
{
    let mut text = Vec::new(alloc);
    match &holding.0 {
        Account::User(name) => text.extend_from_slice(name.as_str().as_bytes())?,
        Account::Escrow(channel) => {
            text.extend_from_slice(b"escrow/transfer/")?;
            text.extend_from_slice(channel.as_str().as_bytes())?;
        }
    }
    text.push(b' ')?;
    text.extend_from_slice(holding.1.as_str().as_bytes())?;
    Ok(text)
}

// The holding at an index of a list of balances; of an audit, at an index of a chain's.
#[tactic(auto, unfolding(crate::specs::Holdings::holding_at))]
fn holding_in(
    held: &HandleValue,
    chain: u64,
    index: u64,
) -> Result<&(Account, Denom, u128), Refused>
    ensures ok { IfOk result (λ holding. holding_at chain index (Some held.now) ≡ Ok holding.now) }
    ensures err { IfErr result (λ refused. holding_at chain index (Some held.now) ≡ Err refused) }
{
    match holdings_in(held, chain) {
        Ok(list) => match list.get(index as usize) {
            Some(holding) => Ok(holding),
            None => Err(Refused::NothingThere),
        },
        Err(refused) => Err(refused),
    }
}

// The holdings of a list of balances; of an audit, those of a chain.
#[tactic(auto, unfolding(crate::specs::Holdings::holdings_at))]
fn holdings_in(held: &HandleValue, chain: u64) -> Result<&[(Account, Denom, u128)], Refused>
    ensures ok { IfOk result (λ list. holdings_at chain (Some held.now) ≡ Ok list.now) }
    ensures err { IfErr result (λ refused. holdings_at chain (Some held.now) ≡ Err refused) }
{
    match held {
        HandleValue::Balances(list) => Ok(list.as_slice()),
        HandleValue::Audit(audit) => match audit.balances.get(chain as usize) {
            Some(list) => Ok(list.as_slice()),
            None => Err(Refused::Core(Refusal::UnknownChain)),
        },
        _ => Err(Refused::OtherKind),
    }
}

/// Tells how many holdings a list of balances has, for which the chain is not looked at; or of an audit, how many a chain's
/// accounts have. Refused: `Empty`; `OtherKind`; `Core(UnknownChain)` where the audit has no such chain. Then nothing is told.
#[tactic(auto, unfolding(crate::specs::Holdings::TellsHoldingCount, crate::specs::Holdings::holdings_at))]
pub fn holding_count(
    alloc: Global,
    balances: &mut Handle,
    chain: u64,
    count: &mut u64,
) -> Result<(), Refused>
    ensures kept { balances.new.value ≡ balances.old.value }
    ensures told { TellsHoldingCount chain balances.old.value count.old count.new result }
{
    match balances.take(alloc) {
        None => Err(Refused::Empty),
        Some(held) => {
            let answer = count_at(&held, chain, count);
            balances.set(alloc, held);
            answer
        }
    }
}

#[tactic(auto, unfolding(crate::specs::Holdings::TellsHoldingCount))]
fn count_at(held: &HandleValue, chain: u64, count: &mut u64) -> Result<(), Refused>
    ensures { TellsHoldingCount chain (Some held.now) count.old count.new result }
{
    match holdings_in(held, chain) {
        Ok(list) => {
            *count = list.len() as u64;
            Ok(())
        }
        Err(refused) => Err(refused),
    }
}

/// Tells how much is held at an index, as `holding` says. Refused: `Empty`; `OtherKind`; `Core(UnknownChain)`; `NothingThere`.
/// Then nothing is told.
#[tactic(auto, unfolding(crate::specs::Holdings::TellsHolding, crate::specs::Holdings::holding_at, crate::specs::Holdings::holdings_at))]
pub fn holding_amount(
    alloc: Global,
    balances: &mut Handle,
    chain: u64,
    index: u64,
    amount: &mut Amount,
) -> Result<(), Refused>
    ensures kept { balances.new.value ≡ balances.old.value }
    ensures told { TellsHolding chain index balances.old.value amount.old amount.new result }
{
    match balances.take(alloc) {
        None => Err(Refused::Empty),
        Some(held) => {
            let answer = amount_at(&held, chain, index, amount);
            balances.set(alloc, held);
            answer
        }
    }
}

#[tactic(auto, unfolding(crate::specs::Holdings::TellsHolding))]
fn amount_at(held: &HandleValue, chain: u64, index: u64, amount: &mut Amount) -> Result<(), Refused>
    ensures { TellsHolding chain index (Some held.now) amount.old amount.new result }
{
    match holding_in(held, chain, index) {
        Ok(holding) => {
            *amount = parts_of(holding.2);
            Ok(())
        }
        Err(refused) => Err(refused),
    }
}
