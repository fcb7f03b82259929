//! The ledgers of a world.

ghost use Rattle.std.specs.Prelude.{◌≡◌, None, Some};
ghost use Rattle.ibc_calls.specs.WorldHandles.{AreMadeOf, TakesFirstLedger, MakesLedgers, TakesFrom, TakesLedger, AreMadeOfGenesis};

use crate::Refused;
use crate::handles::put_new;
use ibc_handle::{Handle, HandleValue, WorldLedger, WorldLedgers};
use ibc_ids::Refusal;
use ibc_machine::Genesis;
use std::alloc::Global;

/// Makes all ledgers of a genesis in a handle that holds nothing, under a number by which the caller tells worlds apart. The
/// genesis stays. Refused, by the first check that fails: `Full` where the second handle holds something; `Empty` and
/// `OtherKind` where the first holds no genesis; `Core(BadMessage)` exactly where no world begins so; `Core(NoMemory)`.
#[tactic(auto, unfolding(crate::specs::WorldHandles::MakesLedgers))]
pub fn make_ledgers(
    alloc: Global,
    genesis: &mut Handle,
    number: u64,
    ledgers: &mut Handle,
) -> Result<(), Refused>
    ensures kept { genesis.new.value ≡ genesis.old.value }
    ensures made { MakesLedgers number genesis.old.value ledgers.old.value ledgers.new.value result }
{
    if !ledgers.is_empty(alloc) {
        return Err(Refused::Full);
    }
    match genesis.take(alloc) {
        None => Err(Refused::Empty),
        Some(held) => {
            let answer = make_at(alloc, &held, number, ledgers);
            genesis.set(alloc, held);
            answer
        }
    }
}

fn make_at(
    alloc: Global,
    held: &HandleValue,
    number: u64,
    ledgers: &mut Handle,
) -> Result<(), Refused>
    requires { ledgers.old.value ≡ None }
    ensures { AreMadeOf number (Some held.now) ledgers.new.value result }
{
    match held {
        HandleValue::Genesis(genesis) => begin(alloc, genesis, number, ledgers),
        _ => Err(Refused::OtherKind),
    }
}

fn begin(alloc: Global, genesis: &Genesis, number: u64, ledgers: &mut Handle) -> Result<(), Refused>
    requires { ledgers.old.value ≡ None }
    ensures { AreMadeOfGenesis number genesis.now ledgers.new.value result }
{
    match WorldLedgers::begin(alloc, genesis, number) {
        Ok(all) => put_new(alloc, ledgers, HandleValue::Ledgers(all)),
        Err(refusal) => Err(Refused::Core(refusal)),
    }
}

/// Moves the first of the ledgers to a handle that holds nothing. Refused, by the first check that fails: `Full` where the
/// second handle holds something; `Empty` and `OtherKind` where the first holds no ledgers; `Core(NoMemory)`; `NothingThere`
/// where all were taken. Then nothing has changed.
#[tactic(auto, unfolding(crate::specs::WorldHandles::TakesLedger))]
pub fn take_ledger(alloc: Global, ledgers: &mut Handle, ledger: &mut Handle) -> Result<(), Refused>
    ensures { TakesLedger ledgers.old.value ledgers.new.value ledger.old.value ledger.new.value result }
{
    if !ledger.is_empty(alloc) {
        return Err(Refused::Full);
    }
    match ledgers.take(alloc) {
        None => Err(Refused::Empty),
        Some(held) => {
            let mut held = held;
            let answer = take_at(alloc, &mut held, ledger);
            ledgers.set(alloc, held);
            answer
        }
    }
}

fn take_at(alloc: Global, held: &mut HandleValue, ledger: &mut Handle) -> Result<(), Refused>
    requires { ledger.old.value ≡ None }
    ensures { TakesFrom held.old held.new ledger.new.value result }
{
    match held {
        HandleValue::Ledgers(all) => take_first(alloc, all, ledger),
        _ => Err(Refused::OtherKind),
    }
}

// The place of the ledger is made first, and holds an empty plan until the ledger is there.
fn take_first(alloc: Global, all: &mut WorldLedgers, ledger: &mut Handle) -> Result<(), Refused>
    requires { ledger.old.value ≡ None }
    ensures { TakesFirstLedger all.old all.new ledger.new.value result }
{
    let Ok(()) = ledger.fill(alloc, HandleValue::Plan(Vec::new(alloc))) else {
        return Err(Refused::Core(Refusal::NoMemory));
    };
    let number = all.number();
    match all.take_first() {
        None => {
            ledger.free(alloc);
            Err(Refused::NothingThere)
        }
        Some(first) => {
            let held = HandleValue::Ledger(WorldLedger {
                number,
                ledger: first,
            });
            ledger.replace(alloc, held);
            Ok(())
        }
    }
}
