//! The entries of a run are stored. A world is made again of them, step by step, and the ledgers of the first one are gathered and
//! audited.

use super::relay;
use crate::log::{StoredEntry, read_entries};
use crate::names::genesis;
use crate::network::Network;
use crate::random::Random;
use crate::run_error::RunError;
use crate::tally::Tally;
use ibc_ledger::Ledger;
use ibc_machine::Genesis;
use ibc_replay::replay;
use ibc_world_core::{World, lawful_audit};
use std::alloc::Global;

/// Runs so many bursts as the workload of packets does, and takes all of it again.
pub fn run(alloc: Global, size: u64, random: &mut Random) -> Result<Tally, RunError> {
    let genesis = genesis(alloc, 3, 40)?;
    let tally = run_twice(alloc, &genesis, size, random);
    drop(genesis);
    tally
}

// Runs the bursts on the chains of a genesis, and takes all of it again.
fn run_twice(
    alloc: Global,
    genesis: &Genesis,
    size: u64,
    random: &mut Random,
) -> Result<Tally, RunError> {
    let mut network = Network::new(alloc, genesis, true)?;
    let driven = relay::drive(&mut network, size, random);
    let finished = network.finish();
    let (world, tally, stored) = network.into_parts();
    let mut tally = tally;
    let audited = audit(alloc, world, &mut tally);
    let replayed = replay_stored(alloc, genesis, &stored, &mut tally);
    drop(stored);
    driven?;
    finished?;
    audited?;
    replayed?;
    Ok(tally)
}

// Audits the ledgers of a world, and adds what they hold.
fn audit(alloc: Global, world: World, tally: &mut Tally) -> Result<(), RunError> {
    let audit = lawful_audit(alloc, world.into_ledgers())?;
    for balances in &audit.balances {
        tally.balances(balances.as_slice());
    }
    for notes in &audit.notes {
        tally.notes(notes.as_slice());
    }
    drop(audit);
    Ok(())
}

// Makes a world again of what was stored, if anything was.
fn replay_stored(
    alloc: Global,
    genesis: &Genesis,
    stored: &Option<Vec<StoredEntry>>,
    tally: &mut Tally,
) -> Result<(), RunError> {
    match stored {
        Some(stored) => replay_all(alloc, genesis, stored.as_slice(), tally),
        None => Err(RunError::Unexpected("nothing was stored")),
    }
}

// Makes a world again of what was stored, and adds what its chains hold.
fn replay_all(
    alloc: Global,
    genesis: &Genesis,
    stored: &[StoredEntry],
    tally: &mut Tally,
) -> Result<(), RunError> {
    let entries = read_entries(alloc, stored)?;
    match replay(alloc, genesis, entries) {
        Ok(world) => {
            let added = add_all(&world, tally);
            drop(world);
            added
        }
        Err(difference) => {
            drop(difference);
            Err(RunError::Unexpected("what was replayed differs"))
        }
    }
}

// Adds what the chains of a world hold.
fn add_all(world: &World, tally: &mut Tally) -> Result<(), RunError> {
    for chain in 0..8 {
        if let Some(ledger) = world.ledger(chain) {
            add_balances(ledger, tally)?;
        }
    }
    Ok(())
}

// Adds what the accounts of a chain hold.
fn add_balances(ledger: &Ledger, tally: &mut Tally) -> Result<(), RunError> {
    let balances = ledger.balances()?;
    tally.balances(balances.as_slice());
    drop(balances);
    Ok(())
}
