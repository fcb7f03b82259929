//! Ledgers that were driven apart are gathered, and what they hold is told.

ghost use Rattle.std.specs.Prelude.{◌≡◌, ◌⊎◌, ◌↔◌, ◌≤◌, ◌+◌, Err, false, length, IfOk, IfErr};
ghost use Rattle.ibc_ids.specs.declared.refusal.Refusal.TheVariants.{BadMessage, NoMemory};
ghost use Rattle.ibc_machine.specs.promises.Worlds.{of_chain};
ghost use Rattle.ibc_world_core.specs.WorldModel.{ledgers_alone, AreLedgers, AreAllowed};
ghost use Rattle.ibc_world_core.specs.WorldAudits.{is_whole, AreOfOneWorld, HaveStayed, IsAudit, has_each_from};

use crate::holdings::{Audit, holdings_of};
use crate::meeting::meet_all;
use ibc_ids::Refusal;
use ibc_ledger::Ledger;
use std::alloc::Global;

/// What ledgers hold that were driven by any threads and are gathered in any order. They are of one table and one genesis. To
/// be answered is to know that what they did together is one run of the machine. Refused: `BadMessage` exactly where a
/// chain of their genesis is missing or twice, or there are none; `NoMemory`.
pub fn audit(alloc: Global, ledgers: Vec<Ledger>) -> Result<Audit, Refusal>
    requires { AreOfOneWorld ledgers.items }
    ensures audited { IfOk result (IsAudit ledgers.items) }
    ensures bad { (result ≡ Err BadMessage) ↔ (is_whole ledgers.items ≡ false) }
    ensures err { IfErr result (λ refusal. (refusal ≡ BadMessage) ⊎ (refusal ≡ NoMemory)) }
{
    let mut ledgers = ledgers;
    let answer = audit_in_place(alloc, ledgers.as_mut_slice());
    drop(ledgers);
    answer
}

/// What `audit` answers of ledgers that stay where they are, whatever the answer. They have at most seen more: they meet, so that
/// there is one list of all that they have published.
pub fn audit_in_place(alloc: Global, ledgers: &mut [Ledger]) -> Result<Audit, Refusal>
    requires { AreOfOneWorld ledgers.old }
    ensures stay { HaveStayed ledgers.old ledgers.new }
    ensures world { AreOfOneWorld ledgers.new }
    ensures audited { IfOk result (IsAudit ledgers.old) }
    ensures bad { (result ≡ Err BadMessage) ↔ (is_whole ledgers.old ≡ false) }
    ensures err { IfErr result (λ refusal. (refusal ≡ BadMessage) ⊎ (refusal ≡ NoMemory)) }
{
    if !is_whole(ledgers) {
        return Err(Refusal::BadMessage);
    }
    let audit = holdings_of(alloc, ledgers)?;
    lemma_know_all(ledgers);
    meet_all(ledgers);
    Ok(audit)
}

// Whether each chain of the genesis has a ledger there, and none has two.
fn is_whole(ledgers: &[Ledger]) -> bool
    ensures { result ≡ is_whole ledgers.now }
{
    match ledgers {
        [] => false,
        [first, ..] => has_each(ledgers, 0, first.chains()),
    }
}

// Whether each of so many chains from a number on has one ledger there.
fn has_each(ledgers: &[Ledger], from: u8, chains: u8) -> bool
    requires { from + chains ≤ 255 }
    ensures { result ≡ has_each_from ledgers.now from chains }
{
    chains == 0 || count_of(ledgers, from) == 1 && has_each(ledgers, from + 1, chains - 1)
}

// How many ledgers a chain has there.
fn count_of(ledgers: &[Ledger], chain: u8) -> usize
    ensures count { result ≡ length (of_chain chain (ledgers_alone ledgers.now)) }
    ensures few { result ≤ length ledgers.now }
{
    match ledgers {
        [] => 0,
        [first, rest @ ..] => usize::from(first.chain() == chain) + count_of(rest, chain),
    }
}

// Each of them is a ledger of an allowed genesis.
fn lemma_know_all(ledgers: &[Ledger])
    ensures are { AreLedgers ledgers.now }
    ensures allowed { AreAllowed ledgers.now }
{
    if let [first, rest @ ..] = ledgers {
        first.lemma_is_its_history();
        lemma_know_all(rest);
    }
}
