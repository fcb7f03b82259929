//! The chains of a script, and how they begin.

ghost use Rattle.std.specs.Prelude.{◌≡◌, ◌≤◌, ℕ, Some, false, true, length, slice_get, IfOk, IfErr, IsErrOf};
ghost use Rattle.serde_json.specs.View.{view};
ghost use Rattle.ibc_script.specs.Faults.{IsScriptFault, OnlyWhereNone};
ghost use Rattle.ibc_script.specs.ReadValues.{AreChainStartsOf, AreEachOf, AreNoChainStarts, AreNoHoldings, IsNoChainStart, IsStartOf};
ghost use Rattle.ibc_script.specs.ScriptValues.{AreDifferent, IsHolding};

use super::{item_amount, item_name, parse_name};
use crate::members::{has_only, item_list, list, number, text};
use crate::script::MOST_CHAINS;
use crate::{ChainName, Fault};
use ibc_ids::{Denom, UserName};
use ibc_machine::ChainStart;
use serde_json::Value;
use std::alloc::Global;

/// One balance: `[user, denomination, amount]`, all texts.
fn read_balance(alloc: Global, value: &Value) -> Result<(UserName, Denom, u128), Fault>
    ensures holding { IfOk result (λ holding. IsHolding holding (Some (view value.now))) }
    ensures faults { IfErr result IsScriptFault }
    ensures bad { OnlyWhereNone result (λ holding. IsHolding holding (Some (view value.now))) }
{
    let [user, denom, amount] = item_list(value)? else {
        return Err(Fault::BadScript);
    };
    let amount = item_amount(alloc, amount)?;
    Ok((item_name(alloc, user)?, item_name(alloc, denom)?, amount))
}

fn read_balances(alloc: Global, values: &[Value]) -> Result<Vec<(UserName, Denom, u128)>, Fault>
    ensures holdings { IfOk result (λ balances. AreEachOf IsHolding balances.items values.now) }
    ensures faults { IfErr result IsScriptFault }
    ensures bad { IsErrOf result Fault.BadScript → AreNoHoldings values.now }
{
    let mut balances = Vec::with_capacity(alloc, values.len())?;
    for value in values {
        balances.push(read_balance(alloc, value)?)?;
    }
    Ok(balances)
}

fn read_chain(alloc: Global, value: &Value) -> Result<(ChainName, ChainStart), Fault>
    ensures start { IfOk result (IsStartOf value.now) }
    ensures faults { IfErr result IsScriptFault }
    ensures bad { IsErrOf result Fault.BadScript → IsNoChainStart value.now }
{
    has_only(value, &["name", "time", "balances"])?;
    let time = number(value, "time")?;
    let balances = list(value, "balances")?;
    let name = parse_name(alloc, text(value, "name")?)?;
    let balances = read_balances(alloc, balances)?;
    Ok((name, ChainStart { time, balances }))
}

// Whether a name is one of these.
fn is_known(names: &[ChainName], name: &ChainName) -> bool
    ensures new { result ≡ false → (i : ℕ) → slice_get names.now i ≡ Some name.now → ⊥ }
    ensures known { result ≡ true → (i : ℕ) × (slice_get names.now i ≡ Some name.now) }
{
    names.contains(name)
}

/// The names of the chains and how they begin. Each name stands once.
pub fn read_chains(
    alloc: Global,
    values: &[Value],
) -> Result<(Vec<ChainName>, Vec<ChainStart>), Fault>
    ensures starts { IfOk result (AreChainStartsOf values.now) }
    ensures different { IfOk result (λ r. AreDifferent r.0.items) }
    ensures named { IfOk result (λ r. length r.0.items ≡ length r.1.items) }
    ensures few { IfOk result (λ r. length r.0.items ≤ 8) }
    ensures faults { IfErr result IsScriptFault }
    ensures bad { IsErrOf result Fault.BadScript → AreNoChainStarts values.now }
{
    if values.len() > MOST_CHAINS {
        return Err(Fault::BadScript);
    }
    let mut names: Vec<ChainName> = Vec::with_capacity(alloc, values.len())?;
    let mut starts = Vec::with_capacity(alloc, values.len())?;
    for value in values {
        let (name, start) = read_chain(alloc, value)?;
        if is_known(names.as_slice(), &name) {
            return Err(Fault::BadScript);
        }
        names.push(name)?;
        starts.push(start)?;
    }
    Ok((names, starts))
}
