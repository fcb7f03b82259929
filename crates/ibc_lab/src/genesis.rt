//! What is wrong with a genesis that was read.

ghost use Rattle.std.specs.Prelude.{◌≡◌, ◌<◌, length, map};
ghost use Rattle.std.specs.List.{list_any};
ghost use Rattle.ibc_machine.specs.chain.Genesis.{chain_state, genesis_state, is_same_holding};
ghost use Rattle.ibc_lab.specs.Faults.{Gains};
ghost use Rattle.ibc_lab.specs.GenesisFaults.{are_small, chains_faults, genesis_faults, holdings_faults, too_much_faults, twice_faults, window_faults};

use crate::fault::note;
use crate::{FaultKind, Member, ScriptFault, ScriptPart, ScriptPlace};
use ibc_ids::{Denom, UserName};
use ibc_machine::{ChainStart, Genesis};
use std::alloc::AllocError;

/// Notes what is wrong with a genesis, each fault with its place in the script, beside what the forms of its values tell.
pub fn genesis_faults(genesis: &Genesis, found: &mut Vec<ScriptFault>) -> Result<(), AllocError>
    ensures { Gains result found.old found.new (genesis_faults (genesis_state genesis.now)) }
{
    window(genesis, found)?;
    chains(genesis.chains.as_slice(), found)
}

fn window(genesis: &Genesis, found: &mut Vec<ScriptFault>) -> Result<(), AllocError>
    ensures { Gains result found.old found.new (window_faults (genesis_state genesis.now)) }
{
    if genesis.window <= genesis.capacity {
        Ok(())
    } else {
        let place = ScriptPlace::of(ScriptPart::Script).member(Member::Window);
        note(found, place, FaultKind::AboveCapacity)
    }
}

fn chains(starts: &[ChainStart], found: &mut Vec<ScriptFault>) -> Result<(), AllocError>
    ensures { Gains result found.old found.new (chains_faults 0 (map chain_state starts.now)) }
{
    for (chain, start) in starts.iter().enumerate() {
        holdings(chain, start.balances.as_slice(), found)?;
    }
    Ok(())
}

// The balances of a chain.
fn holdings(
    chain: usize,
    all: &[(UserName, Denom, u128)],
    found: &mut Vec<ScriptFault>,
) -> Result<(), AllocError>
    ensures { Gains result found.old found.new (holdings_faults chain all.now 0 all.now) }
{
    for (index, holding) in all.iter().enumerate() {
        let place = ScriptPlace::of(ScriptPart::Chain(chain))
            .member(Member::Balances)
            .inside(index);
        held_twice(place, &all[..index], holding, found)?;
        too_much(place, all, index, &holding.1, found)?;
    }
    Ok(())
}

// A holding of a user and a denomination that one before it is of.
fn held_twice(
    place: ScriptPlace,
    before: &[(UserName, Denom, u128)],
    holding: &(UserName, Denom, u128),
    found: &mut Vec<ScriptFault>,
) -> Result<(), AllocError>
    ensures { Gains result found.old found.new (twice_faults place before.now holding.now) }
{
    if is_held(before, holding) {
        note(found, place, FaultKind::HeldTwice)
    } else {
        Ok(())
    }
}

fn is_held(before: &[(UserName, Denom, u128)], holding: &(UserName, Denom, u128)) -> bool
    ensures { result ≡ list_any (is_same_holding holding.now) before.now }
{
    for other in before {
        if is_same_holding(holding, other) {
            return true;
        }
    }
    false
}

#[tactic(auto, using(crate::proofs::Totals::same_holding))]
fn is_same_holding(one: &(UserName, Denom, u128), other: &(UserName, Denom, u128)) -> bool
    ensures { result ≡ is_same_holding one.now other.now }
{
    one.0 == other.0 && one.1 == other.1
}

// The first holding with which those of the denomination are too much.
fn too_much(
    place: ScriptPlace,
    all: &[(UserName, Denom, u128)],
    index: usize,
    denom: &Denom,
    found: &mut Vec<ScriptFault>,
) -> Result<(), AllocError>
    requires { index < length all.now }
    ensures { Gains result found.old found.new (too_much_faults place denom.now index all.now) }
{
    if !are_small(&all[..index + 1], denom) && are_small(&all[..index], denom) {
        note(found, place.inside(2), FaultKind::TooMuch)
    } else {
        Ok(())
    }
}

// Whether 128 bits hold the amounts of the denomination together.
fn are_small(holdings: &[(UserName, Denom, u128)], denom: &Denom) -> bool
    ensures { result ≡ are_small denom.now holdings.now }
{
    let mut total: u128 = 0;
    for holding in holdings {
        if holding.1 == *denom {
            let Some(more) = total.checked_add(holding.2) else {
                return false;
            };
            total = more;
        }
    }
    true
}
