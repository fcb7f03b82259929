//! What relayers plan between two ledgers.

ghost use Rattle.std.specs.Prelude.{◌≡◌, IfOk, IsOkUnless};
ghost use Rattle.ibc_ids.specs.declared.refusal.Refusal.TheVariants.{NoMemory};
ghost use Rattle.ibc_script_worlds.specs.Relaying.{plan_between};

use ibc_ids::Refusal;
use ibc_ledger::Ledger;
use ibc_relayer::plans;
use ibc_wire::Message;
use std::alloc::Global;

/// What relayers plan between two ledgers as both stand at their last blocks (ICS 18, "Relayer algorithm"): the messages for
/// the second, which prove from the first, and those for the first. `NoMemory` where a growth is refused.
pub fn plans_between(
    alloc: Global,
    first: &Ledger,
    second: &Ledger,
) -> Result<(Vec<Message>, Vec<Message>), Refusal>
    ensures second { IfOk result (λ plans. plans.0.items ≡ plan_between first.now second.now) }
    ensures first { IfOk result (λ plans. plans.1.items ≡ plan_between second.now first.now) }
    ensures err { IsOkUnless result NoMemory }
{
    let first = first.view()?;
    let second = second.view()?;
    plans(alloc, &first, &second)
}
