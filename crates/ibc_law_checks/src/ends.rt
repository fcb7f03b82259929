//! What is noted of ends of channels and of chains.

ghost use Rattle.std.specs.Prelude.{◌≡◌};
ghost use Rattle.ibc_law_checks.specs.EndPlaces.{is_named, place_of_end};

use crate::HomeSupply;
use ibc_ids::{ChannelId, PortId};
use ibc_machine::{ChainStart, Genesis};
use std::alloc::{AllocError, Global};

/// An end of a channel.
#[derive(Drop)]
pub struct EndNotes {
    pub chain: u8,
    pub port: PortId,
    pub channel: ChannelId,
    pub ordered: bool,
}

/// The last height of a chain, 0 before the first, and the time of its working block.
#[derive(Clone, Copy, Debug, PartialEq, Eq, Drop)]
pub struct ChainClock {
    pub height: u64,
    pub time: u64,
}

// Whether an end is of this chain, port and name.
fn is_named(end: &EndNotes, chain: u8, port: &str, channel: &ChannelId) -> bool
    ensures { result ≡ is_named chain port.now channel.now end.now }
{
    end.chain == chain && end.channel == *channel && end.port.as_str() == port
}

/// The place of the first end of this chain, port and name among those that are noted, or none.
pub fn place_of_end(ends: &[EndNotes], chain: u8, port: &str, channel: &ChannelId) -> Option<usize>
    ensures { result ≡ place_of_end ends.now chain port.now channel.now }
{
    ends.iter()
        .position(|end| is_named(end, chain, port, channel))
}

/// The clocks of the chains of a genesis. Error: no memory.
pub(crate) fn first_clocks(
    alloc: Global,
    genesis: &Genesis,
) -> Result<Vec<ChainClock>, AllocError> {
    let mut clocks = Vec::with_capacity(alloc, genesis.chains.len())?;
    for start in &genesis.chains {
        clocks.push(ChainClock {
            height: 0,
            time: start.time,
        })?;
    }
    Ok(clocks)
}

/// What the genesis gave of each denomination to each chain. Error: no memory.
pub(crate) fn home_supplies(
    alloc: Global,
    genesis: &Genesis,
) -> Result<Vec<HomeSupply>, AllocError> {
    let mut supplies = Vec::new(alloc);
    let mut chain: u8 = 0;
    for start in &genesis.chains {
        add_supplies(&mut supplies, chain, start)?;
        chain = chain.saturating_add(1);
    }
    Ok(supplies)
}

// Adds what a chain begins with.
fn add_supplies(
    supplies: &mut Vec<HomeSupply>,
    chain: u8,
    start: &ChainStart,
) -> Result<(), AllocError> {
    for (_user, denom, amount) in &start.balances {
        match place_of_supply(supplies.as_slice(), chain, denom.as_str()) {
            Some(place) => add_to(supplies.as_mut_slice(), place, *amount),
            None => supplies.push(HomeSupply {
                chain,
                denom: denom.clone()?,
                amount: *amount,
            })?,
        }
    }
    Ok(())
}

// The place of a chain's supply of a denomination.
fn place_of_supply(supplies: &[HomeSupply], chain: u8, denom: &str) -> Option<usize> {
    for place in 0..supplies.len() {
        if supplies[place].chain == chain && supplies[place].denom.as_str() == denom {
            return Some(place);
        }
    }
    None
}

// Adds an amount to a supply.
fn add_to(supplies: &mut [HomeSupply], place: usize, amount: u128) {
    if let Some(supply) = supplies.get_mut(place) {
        supply.amount = supply.amount.saturating_add(amount);
    }
}
