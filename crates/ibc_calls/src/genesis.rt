//! How a world begins, chain by chain.

ghost use Rattle.std.specs.Prelude.{◌≡◌, Some, IfOk, IfErr, OnOk, OnErr};
ghost use Rattle.ibc_machine.specs.chain.Genesis.{genesis_state};
ghost use Rattle.ibc_calls.specs.GenesisHandles.{AddsBalance, AddsChain, AreNames, BeginsGenesis, ChainAdded, GenesisGoesOn, AreUserAndDenom, IsBalanceAdded, AddsBalanceTo, AddsHolding};
ghost use Rattle.ibc_calls.specs.CallAnswers.{IsNameRefused};

use crate::Refused;
use crate::handles::put_new;
use ibc_handle::{Handle, HandleValue};
use ibc_ids::{Denom, Refusal, UserName};
use ibc_machine::{ChainStart, Genesis};
use std::alloc::{AllocError, Global};

/// Makes a genesis with no chains, of this capacity and window, in a handle that holds nothing. Refused: `Full`;
/// `Core(NoMemory)`.
#[tactic(auto, unfolding(crate::specs::GenesisHandles::BeginsGenesis))]
pub fn make_genesis(
    alloc: Global,
    genesis: &mut Handle,
    capacity: u64,
    window: u64,
) -> Result<(), Refused>
    ensures { BeginsGenesis capacity window genesis.old.value genesis.new.value result }
{
    if !genesis.is_empty(alloc) {
        return Err(Refused::Full);
    }
    let made = Genesis {
        capacity,
        window,
        chains: Vec::new(alloc),
    };
    put_new(alloc, genesis, HandleValue::Genesis(made))
}

/// Adds a chain to a genesis, behind the others, whose first block has this time. Refused: `Empty`; `OtherKind`;
/// `Core(NoMemory)`.
#[tactic(auto, unfolding(crate::specs::GenesisHandles::ChainAdded))]
pub fn add_chain(alloc: Global, genesis: &mut Handle, time: u64) -> Result<(), Refused>
    ensures { ChainAdded time genesis.old.value genesis.new.value result }
{
    match genesis.take(alloc) {
        None => Err(Refused::Empty),
        Some(held) => {
            let mut held = held;
            let answer = add_chain_to(alloc, &mut held, time);
            genesis.set(alloc, held);
            answer
        }
    }
}

fn add_chain_to(alloc: Global, held: &mut HandleValue, time: u64) -> Result<(), Refused>
    ensures { GenesisGoesOn (AddsChain time) held.old (Some held.new) result }
{
    match held {
        HandleValue::Genesis(genesis) => chain_added(alloc, genesis, time),
        _ => Err(Refused::OtherKind),
    }
}

#[tactic(auto, unfolding(crate::specs::GenesisHandles::AddsChain))]
fn chain_added(alloc: Global, genesis: &mut Genesis, time: u64) -> Result<(), Refused>
    ensures { AddsChain time (genesis_state genesis.old) (genesis_state genesis.new) result }
{
    let Ok(()) = genesis.chains.reserve(1) else {
        return Err(Refused::Core(Refusal::NoMemory));
    };
    genesis.chains.push_reserved(ChainStart {
        time,
        balances: Vec::new(alloc),
    });
    Ok(())
}

/// Lets a user hold so much of a denomination at the last chain of a genesis: `high` times 2^64 and `low`. Refused: `Empty`;
/// `OtherKind`; `Core(BadName)` exactly where a name is none of its kind; `NothingThere` where there is no chain; `Core(NoMemory)`.
#[tactic(auto, unfolding(crate::specs::GenesisHandles::BalanceAdded))]
pub fn add_balance(
    alloc: Global,
    genesis: &mut Handle,
    user: &[u8],
    denom: &[u8],
    high: u64,
    low: u64,
) -> Result<(), Refused>
    ensures { IsBalanceAdded user.now denom.now high low genesis.old.value genesis.new.value result }
{
    match genesis.take(alloc) {
        None => Err(Refused::Empty),
        Some(held) => {
            let mut held = held;
            let amount = u128::from(high) * (1 << 64) + u128::from(low);
            let answer = add_balance_to(alloc, &mut held, user, denom, amount);
            genesis.set(alloc, held);
            answer
        }
    }
}

fn add_balance_to(
    alloc: Global,
    held: &mut HandleValue,
    user: &[u8],
    denom: &[u8],
    amount: u128,
) -> Result<(), Refused>
    ensures { GenesisGoesOn (AddsBalance user.now denom.now amount) held.old (Some held.new) result }
{
    match held {
        HandleValue::Genesis(genesis) => balance_added(alloc, genesis, user, denom, amount),
        _ => Err(Refused::OtherKind),
    }
}

#[tactic(auto, unfolding(crate::specs::GenesisHandles::AddsBalance))]
fn balance_added(
    alloc: Global,
    genesis: &mut Genesis,
    user: &[u8],
    denom: &[u8],
    amount: u128,
) -> Result<(), Refused>
    ensures { AddsBalanceTo user.now denom.now amount genesis.old genesis.new result }
{
    let (user, denom) = names_of(alloc, user, denom)?;
    let Some(last) = genesis.chains.pop() else {
        return Err(Refused::NothingThere);
    };
    let mut last = last;
    let added = hold(&mut last, user, denom, amount);
    genesis.chains.push_reserved(last);
    match added {
        Ok(()) => Ok(()),
        Err(_) => Err(Refused::Core(Refusal::NoMemory)),
    }
}

/// The user and the denomination of these names. Refused: `Core(BadName)` exactly where one is no name of its kind;
/// `Core(NoMemory)`.
pub(crate) fn names_of(
    alloc: Global,
    user: &[u8],
    denom: &[u8],
) -> Result<(UserName, Denom), Refused>
    ensures ok { IfOk result (λ names. AreUserAndDenom user.now denom.now names) }
    ensures err { IfErr result (λ refused. IsNameRefused (AreNames user.now denom.now) refused) }
{
    let user = UserName::from_bytes(alloc, user)?;
    let denom = Denom::from_bytes(alloc, denom)?;
    Ok((user, denom))
}

// A user holds so much more at a chain. On an error nothing has changed.
fn hold(
    start: &mut ChainStart,
    user: UserName,
    denom: Denom,
    amount: u128,
) -> Result<(), AllocError>
    ensures ok { OnOk result (AddsHolding user denom amount start.old start.new) }
    ensures err { OnErr result (start.new.balances.items ≡ start.old.balances.items) }
    ensures time { start.new.time ≡ start.old.time }
{
    start.balances.push((user, denom, amount))?;
    Ok(())
}
