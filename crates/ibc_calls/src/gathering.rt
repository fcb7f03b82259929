//! Ledgers that were driven apart are gathered, and audited.

ghost use Rattle.std.specs.Prelude.{◌≡◌, None, Some};
ghost use Rattle.ibc_world_core.specs.WorldAudits.{is_whole};
ghost use Rattle.ibc_handle.specs.LedgersModel.{AreStill};
ghost use Rattle.ibc_calls.specs.Gathering.{AreApart, Audits, AuditsValue, MakesIfWhole, JoinsLedger, JoinsTo, answer_of_join};

use crate::Refused;
use crate::handles::put_new;
use ibc_handle::{Handle, HandleValue, NotJoined, WorldLedgers};
use ibc_ids::Refusal;
use std::alloc::Global;

/// Moves a ledger to others of its world. The caller gave different worlds different numbers. Refused: `Empty` and `OtherKind`
/// where the first handle holds no ledgers or the second no ledger; `OtherWorld` where their numbers differ; `Core(NoMemory)`.
/// Then nothing has changed.
#[tactic(auto, unfolding(crate::specs::Gathering::JoinsLedger, crate::specs::Gathering::AreApart))]
pub fn join_ledger(alloc: Global, ledgers: &mut Handle, ledger: &mut Handle) -> Result<(), Refused>
    requires { AreApart ledgers.old.value ledger.old.value }
    ensures { JoinsLedger ledgers.old.value ledgers.new.value ledger.old.value ledger.new.value result }
{
    match ledgers.take(alloc) {
        None => Err(Refused::Empty),
        Some(held) => {
            let mut held = held;
            let answer = join_at(alloc, &mut held, ledger);
            ledgers.set(alloc, held);
            answer
        }
    }
}

#[tactic(auto, unfolding(crate::specs::Gathering::AreApart))]
fn join_at(alloc: Global, held: &mut HandleValue, ledger: &mut Handle) -> Result<(), Refused>
    requires { AreApart (Some held.old) ledger.old.value }
    ensures { JoinsTo held.old held.new ledger.old.value ledger.new.value result }
{
    match held {
        HandleValue::Ledgers(all) => answer_of_join(ledger.join(alloc, all)),
        _ => Err(Refused::OtherKind),
    }
}

fn answer_of_join(joined: Result<(), NotJoined>) -> Result<(), Refused>
    ensures { result ≡ answer_of_join joined }
{
    match joined {
        Ok(()) => Ok(()),
        Err(NotJoined::Empty) => Err(Refused::Empty),
        Err(NotJoined::OtherKind) => Err(Refused::OtherKind),
        Err(NotJoined::OtherWorld) => Err(Refused::OtherWorld),
        Err(NotJoined::NoMemory) => Err(Refused::Core(Refusal::NoMemory)),
    }
}

/// Audits ledgers of one world that were driven by any threads and gathered in any order, and puts what they hold into a
/// handle that holds nothing. To be answered with 0 is to know that what they did together is a run of the machine, of which the
/// laws hold, where no two different texts that they hashed share a digest. Refused, by the first check that fails: `Full`;
/// `Empty` and `OtherKind` where the first handle holds no ledgers; `Core(BadMessage)` exactly where a chain of their genesis is
/// missing among them; `Core(NoMemory)`. The ledgers stay in their handle, whatever the answer, and have at most seen more.
#[tactic(auto, unfolding(crate::specs::Gathering::Audits))]
pub fn make_audit(alloc: Global, ledgers: &mut Handle, audit: &mut Handle) -> Result<(), Refused>
    ensures { Audits ledgers.old.value ledgers.new.value audit.old.value audit.new.value result }
{
    if !audit.is_empty(alloc) {
        return Err(Refused::Full);
    }
    match ledgers.take(alloc) {
        None => Err(Refused::Empty),
        Some(held) => {
            let mut held = held;
            let answer = audit_at(alloc, &mut held, audit);
            ledgers.set(alloc, held);
            answer
        }
    }
}

fn audit_at(alloc: Global, held: &mut HandleValue, audit: &mut Handle) -> Result<(), Refused>
    requires { audit.old.value ≡ None }
    ensures { AuditsValue held.old held.new audit.new.value result }
{
    match held {
        HandleValue::Ledgers(all) => audit_of(alloc, all, audit),
        _ => Err(Refused::OtherKind),
    }
}

fn audit_of(alloc: Global, all: &mut WorldLedgers, audit: &mut Handle) -> Result<(), Refused>
    requires { audit.old.value ≡ None }
    ensures stay { AreStill all.old all.new }
    ensures made { MakesIfWhole (is_whole all.old.ledgers) all.old audit.new.value result }
{
    match all.audit(alloc) {
        Ok(told) => put_new(alloc, audit, HandleValue::Audit(told)),
        Err(refusal) => Err(Refused::Core(refusal)),
    }
}
