//! The audit of ledgers that were driven apart, and the laws of what they did.

ghost use Rattle.std.specs.Prelude.{◌≡◌, ◌⊎◌, ◌↔◌, Err, false, IfOk, IfErr};
ghost use Rattle.ibc_ids.specs.declared.refusal.Refusal.TheVariants.{BadMessage, NoMemory};
ghost use Rattle.ibc_world_core.specs.WorldAudits.{AreOfOneWorld, HaveStayed, IsAudit, is_whole};
ghost use Rattle.ibc_world_core.specs.EveryAudit.{AreLawful};

use crate::{Audit, audit, audit_in_place, lemma_the_laws_hold};
use ibc_ids::Refusal;
use ibc_ledger::Ledger;
use std::alloc::Global;

/// What `audit` answers. Where no two different texts that the chains hashed share a digest, what the ledgers did together is
/// a run of the machine since genesis, of which the laws hold. Refused as `audit` says.
pub fn lawful_audit(alloc: Global, ledgers: Vec<Ledger>) -> Result<Audit, Refusal>
    requires { AreOfOneWorld ledgers.items }
    ensures lawful { IfOk result (AreLawful ledgers.items) }
    ensures audited { IfOk result (IsAudit ledgers.items) }
    ensures bad { (result ≡ Err BadMessage) ↔ (is_whole ledgers.items ≡ false) }
    ensures err { IfErr result (λ refusal. (refusal ≡ BadMessage) ⊎ (refusal ≡ NoMemory)) }
{
    lemma_the_laws_hold();
    audit(alloc, ledgers)
}

/// What `lawful_audit` answers of ledgers that stay where they are, whatever the answer. They have at most seen more.
pub fn lawful_audit_in_place(alloc: Global, ledgers: &mut [Ledger]) -> Result<Audit, Refusal>
    requires { AreOfOneWorld ledgers.old }
    ensures stay { HaveStayed ledgers.old ledgers.new }
    ensures world { AreOfOneWorld ledgers.new }
    ensures lawful { IfOk result (AreLawful ledgers.old) }
    ensures audited { IfOk result (IsAudit ledgers.old) }
    ensures bad { (result ≡ Err BadMessage) ↔ (is_whole ledgers.old ≡ false) }
    ensures err { IfErr result (λ refusal. (refusal ≡ BadMessage) ⊎ (refusal ≡ NoMemory)) }
{
    lemma_the_laws_hold();
    audit_in_place(alloc, ledgers)
}
