//! Scripts whose chains threads share.

ghost use denote.Param.Send.{IsSync};
ghost use Rattle.std.specs.Prelude.{All};
ghost use Rattle.ibc_race.specs.SharedWorlds.{HasItsBook};

use crate::asked::{Answer, answers_of, take_steps};
use crate::histories::{HistoryLines, are_told};
use crate::looks::{received_thirty, take_steps_watched};
use crate::relayed::{eight_race, two_pairs_relay};
use crate::turns::{blocks_end, sent_again, there_and_back, two_turns};
use ibc_ids::Refusal;
use ibc_ledger::Ledger;
use ibc_ledger_lock::{Chain, Gate, Receipt, UnusedBook, WorldBrand};
use ibc_race::{audit_chains, begin, share};
use ibc_script::Fault;
use ibc_script_cli::{Race, RaceAudit, Races};
use ibc_script_races::Shared;
use ibc_script_worlds::ChainStarts;
use ibc_world_core::Audit;
use std::alloc::Global;
use std::cell::Cell;
use std::marker::Brand;
use std::sync::Wait;
use std::thread::Threads;

/// The calls by which the chains are asked for the steps of a script.
#[derive(Clone, Copy)]
pub enum Calls {
    /// The chains' own, whose receipts are kept.
    Own,
    /// Those of `Gate`.
    OfGates,
    /// Those of `Gate`, while two threads look at the first chain and relay to the second.
    Watched,
}

/// What the chains are to do once the steps are taken.
#[derive(Clone, Copy)]
pub enum Deed {
    /// Their histories say these lines, and the answers are of entries of their own.
    Tell(HistoryLines),
    /// The second received 30 packets.
    HaveThirty,
    /// Eight relayers race between them.
    Race,
    /// Blocks of both end while relayers work.
    EndBlocks,
    /// A relayer's turn relays a packet, and another its acknowledgement.
    Relay,
    /// A relayer of two turns relays both.
    TakeTurns,
    /// A relayer sends a packet twice.
    SendAgain,
    /// Two relayers relay between the first two, and two between the last two.
    RelayInPairs,
}

/// Has the steps of scripts taken on chains that threads share, and keeps whether these did what they must.
#[derive(Drop)]
pub struct Trial<'r, R: Threads + Wait + Sync> {
    pub rt: &'r R,
    pub alloc: Global,
    pub calls: Calls,
    pub deed: Deed,
    pub is_done: &'r Cell<bool>,
}

impl<R: Threads + Wait + Sync> Races for Trial<'_, R> {
    ghost may_race = { λ _. IsSync R.row };

    // Whatever stopped it, `NoMemory` is told.
    fn race(&self, _relayers: u8, race: Race) -> Result<RaceAudit, Fault> {
        match try_script(self, race) {
            Ok(audited) => Ok(audited),
            Err(_) => Err(Fault::NoMemory),
        }
    }
}

// Begins with the ledgers of a script's genesis.
fn try_script<R: Threads + Wait + Sync>(
    trial: &Trial<'_, R>,
    race: Race,
) -> Result<RaceAudit, Fault> {
    match begin(trial.alloc, race.genesis()) {
        Ok(ledgers) => try_on::<R, Brand>(trial, ledgers, race),
        Err(refusal) => {
            drop(race);
            Err(Fault::of_refusal(refusal))
        }
    }
}

// Takes the steps on chains of the ledgers of the world.
fn try_on<R: Threads + Wait + Sync, W: WorldBrand + Send + Sync>(
    trial: &Trial<'_, R>,
    ledgers: Vec<(Ledger, UnusedBook)>,
    race: Race,
) -> Result<RaceAudit, Fault>
    requires { All (HasItsBook W.table W.genesis W.book) ledgers.items }
{
    let chains = match share::<R, W>(trial.rt, trial.alloc, ledgers) {
        Ok(chains) => chains,
        Err(refusal) => {
            drop(race);
            return Err(Fault::of_refusal(refusal));
        }
    };
    match trial.calls {
        Calls::Own => try_own_calls(trial, chains, race),
        Calls::OfGates | Calls::Watched => try_gates(trial, chains, race),
    }
}

// Takes the steps by the chains' own calls.
fn try_own_calls<R: Threads + Wait + Sync, W: WorldBrand + Send + Sync>(
    trial: &Trial<'_, R>,
    chains: Vec<Chain<W>>,
    race: Race,
) -> Result<RaceAudit, Fault> {
    let (rt, alloc) = (trial.rt, trial.alloc);
    let starts = match ChainStarts::of(alloc, race.genesis()) {
        Ok(starts) => starts,
        Err(error) => {
            drop(chains);
            drop(race);
            return Err(Fault::from(error));
        }
    };
    let shared = race.run_on(Shared::new(rt, alloc, starts, chains))?;
    let (chains, receipts) = shared.into_parts();
    let done = is_done_by_receipts(trial, chains.as_slice(), receipts.as_slice());
    audited(trial, chains, receipts, done)
}

// Whether the chains do what they must, which the receipts tell the answers of.
fn is_done_by_receipts<R: Threads + Wait + Sync, W: WorldBrand + Send + Sync>(
    trial: &Trial<'_, R>,
    chains: &[Chain<W>],
    receipts: &[Receipt<W>],
) -> Result<bool, Refusal> {
    let answers = answers_of(trial.alloc, receipts)?;
    let done = is_done(trial, chains, answers.as_slice());
    drop(answers);
    done
}

// Takes the steps by the calls of `Gate`.
fn try_gates<R: Threads + Wait + Sync, W: WorldBrand + Send + Sync>(
    trial: &Trial<'_, R>,
    chains: Vec<Chain<W>>,
    race: Race,
) -> Result<RaceAudit, Fault> {
    match is_done_by_gates(trial, chains.as_slice(), race) {
        Ok(done) => audited(trial, chains, Vec::new(trial.alloc), Ok(done)),
        Err(fault) => {
            drop(chains);
            Err(fault)
        }
    }
}

// Whether the chains take the steps and do what they must.
fn is_done_by_gates<R: Threads + Wait + Sync, G: Gate>(
    trial: &Trial<'_, R>,
    gates: &[G],
    race: Race,
) -> Result<bool, Fault> {
    let (answers, saw) = match trial.calls {
        Calls::Watched => take_steps_watched(trial.rt, trial.alloc, gates, race)?,
        Calls::Own | Calls::OfGates => (take_steps(trial.rt, trial.alloc, gates, race)?, true),
    };
    let done = is_done(trial, gates, answers.as_slice());
    drop(answers);
    match done {
        Ok(done) => Ok(done && saw),
        Err(refusal) => Err(Fault::of_refusal(refusal)),
    }
}

// Whether the chains do what they must once they have given the answers. Refused: `NoMemory`.
fn is_done<R: Threads + Wait + Sync, G: Gate>(
    trial: &Trial<'_, R>,
    gates: &[G],
    answers: &[Answer],
) -> Result<bool, Refusal> {
    let (rt, alloc) = (trial.rt, trial.alloc);
    match trial.deed {
        Deed::Tell(told) => are_told(rt, alloc, gates, answers, told),
        Deed::HaveThirty => received_thirty(rt, alloc, gates),
        Deed::Race => eight_race(rt, alloc, gates),
        Deed::EndBlocks => blocks_end(rt, alloc, gates),
        Deed::Relay => there_and_back(rt, alloc, gates),
        Deed::TakeTurns => two_turns(rt, alloc, gates),
        Deed::SendAgain => sent_again(rt, alloc, gates),
        Deed::RelayInPairs => two_pairs_relay(rt, alloc, gates),
    }
}

// What the chains hold, if their ledgers pass the audit with the receipts; keeps whether they did what they must.
fn audited<R: Threads + Wait + Sync, W: WorldBrand>(
    trial: &Trial<'_, R>,
    chains: Vec<Chain<W>>,
    receipts: Vec<Receipt<W>>,
    done: Result<bool, Refusal>,
) -> Result<RaceAudit, Fault> {
    trial.is_done.set(done == Ok(true));
    let readings = Vec::new(trial.alloc);
    let audit = audit_chains(
        trial.alloc,
        chains,
        receipts.as_slice(),
        readings.as_slice(),
    );
    drop(readings);
    drop(receipts);
    match audit {
        Ok(Audit { balances, notes }) => Ok(RaceAudit { balances, notes }),
        Err(refusal) => Err(Fault::of_refusal(refusal)),
    }
}
