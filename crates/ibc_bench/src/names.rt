//! Names with numbers, and how worlds begin.

use crate::behind::made_behind;
use crate::run_error::RunError;
use ibc_ids::{Denom, Name, NameKind, UserName};
use ibc_machine::{ChainStart, Genesis};
use std::alloc::Global;

/// The denominations that each chain begins with.
pub const TOKENS: [&str; 5] = ["atom", "osmo", "juno", "stars", "akash"];

/// What each user holds of each of them in the beginning.
const HELD: u128 = 1_000_000_000;

/// The time of each chain's first block.
pub const FIRST_TIME: u64 = 1_000;

/// The name that is a stem and a number.
pub fn numbered<K: NameKind>(alloc: Global, stem: &str, number: u64) -> Result<Name<K>, RunError> {
    let text = format!(in alloc; "{stem}{number}")?;
    let name = Name::parse(alloc, text.as_str());
    drop(text);
    Ok(name?)
}

/// How a world begins: so many chains, on each of which so many users hold tokens of each kind.
pub fn genesis(alloc: Global, chains: u8, users: u64) -> Result<Genesis, RunError> {
    let mut starts = Vec::with_capacity(alloc, usize::from(chains))?;
    match push_starts(alloc, &mut starts, chains, users) {
        Ok(()) => Ok(Genesis {
            capacity: 200_000,
            window: 128,
            chains: starts,
        }),
        Err(error) => {
            drop(starts);
            Err(error)
        }
    }
}

// Adds how so many chains begin.
fn push_starts(
    alloc: Global,
    starts: &mut Vec<ChainStart>,
    chains: u8,
    users: u64,
) -> Result<(), RunError> {
    for _chain in 0..chains {
        starts.push(chain_start(alloc, users)?)?;
    }
    Ok(())
}

// How a chain begins.
fn chain_start(alloc: Global, users: u64) -> Result<ChainStart, RunError> {
    let mut balances = Vec::new(alloc);
    match endow_each(alloc, &mut balances, users) {
        Ok(()) => Ok(ChainStart {
            time: FIRST_TIME,
            balances,
        }),
        Err(error) => {
            drop(balances);
            Err(error)
        }
    }
}

// Gives so many users tokens of each kind.
fn endow_each(
    alloc: Global,
    balances: &mut Vec<(UserName, Denom, u128)>,
    users: u64,
) -> Result<(), RunError> {
    for user in 0..users {
        endow(alloc, balances, user)?;
    }
    Ok(())
}

// Gives a user tokens of each kind.
fn endow(
    alloc: Global,
    balances: &mut Vec<(UserName, Denom, u128)>,
    user: u64,
) -> Result<(), RunError> {
    for token in TOKENS {
        let denom: Denom = Name::parse(alloc, token)?;
        let (denom, user): (Denom, UserName) = made_behind(denom, numbered(alloc, "user", user))?;
        balances.push((user, denom, HELD))?;
    }
    Ok(())
}
