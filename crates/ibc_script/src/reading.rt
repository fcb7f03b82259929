//! Scripts are read from JSON.

ghost use Rattle.std.specs.Prelude.{◌≡◌, ◌<◌, ◌^◌, None, Some, decimal, length, IfErr, IfOk, IsErrOf, IsTrue, IsUtf8};
ghost use Rattle.serde_json.specs.Read.{read};
ghost use Rattle.serde_json.specs.View.{view};
ghost use Rattle.ibc_script.specs.Faults.{IsScriptFault, OnlyWhereNone};
ghost use Rattle.ibc_script.specs.ReadValues.{IsNoScript, IsWindowIn};
ghost use Rattle.ibc_script.specs.ScriptValues.{IsAmount, IsName, IsNoScriptText, IsScript, IsScriptText, content_of};

mod chains;
mod channels;
mod clients;
mod connections;
mod packets;
mod step_reader;
mod steps;
mod transfers;

use crate::amount::amount_of;
use crate::members::{has_only, item_text, list, number, optional_number};
use crate::{Fault, MOST_BYTES, Script};
use chains::read_chains;
use ibc_ids::{Name, NameKind};
use ibc_machine::Genesis;
use serde_json::Value;
use std::alloc::Global;
use steps::read_steps;

/// The heights that a chain keeps where the script doesn't say how many, unless its capacity is smaller.
const USUAL_WINDOW: u64 = 4_096;

fn parsed(alloc: Global, bytes: &[u8]) -> Result<Value, Fault>
    ensures value { IfOk result (λ value. IsUtf8 bytes.now × (read bytes.now ≡ Some (view value))) }
    ensures faults { IfErr result IsScriptFault }
    ensures bad { IsErrOf result Fault.BadScript → IsUtf8 bytes.now → read bytes.now ≡ None }
{
    match Value::from_slice(alloc, bytes) {
        Ok(value) => Ok(value),
        Err(error) if error.is_memory() => Err(Fault::NoMemory),
        Err(_) => Err(Fault::BadScript),
    }
}

// The amount that a text writes.
fn read_amount(alloc: Global, text: &str) -> Result<u128, Fault>
    ensures amount { IfOk result (λ amount. text.now ≡ decimal amount) }
    ensures faults { IfErr result IsScriptFault }
    ensures fits { IfOk result (λ amount. amount < 2 ^ 128) }
    ensures bad { OnlyWhereNone result (λ amount. (text.now ≡ decimal amount) × (amount < 2 ^ 128)) }
{
    amount_of(alloc, text)?.ok_or(Fault::BadScript)
}

// The amount that an item of a list is, a text.
fn item_amount(alloc: Global, item: &Value) -> Result<u128, Fault>
    ensures amount { IfOk result (λ amount. IsAmount amount (Some (view item.now))) }
    ensures faults { IfErr result IsScriptFault }
    ensures bad { OnlyWhereNone result (λ amount. IsAmount amount (Some (view item.now))) }
{
    read_amount(alloc, item_text(item)?)
}

fn parse_name<K: NameKind>(alloc: Global, text: &str) -> Result<Name<K>, Fault>
    ensures name { IfOk result (λ name. name ≡ text.now) }
    ensures faults { IfErr result IsScriptFault }
    ensures form { IfOk result (λ _. IsTrue (K.form text.now)) }
    ensures bad { IsErrOf result Fault.BadScript → ¬ IsTrue (K.form text.now) }
{
    match Name::parse(alloc, text) {
        Ok(name) => Ok(name),
        Err(refusal) => Err(Fault::of_refusal(refusal)),
    }
}

// The name that an item of a list is, a text.
fn item_name<K: NameKind>(alloc: Global, item: &Value) -> Result<Name<K>, Fault>
    ensures name { IfOk result (λ name. IsName K.form name (Some (view item.now))) }
    ensures faults { IfErr result IsScriptFault }
    ensures bad { OnlyWhereNone result (λ name. IsName K.form name (Some (view item.now))) }
{
    parse_name(alloc, item_text(item)?)
}

/// The script that the bytes write in JSON. That a world begins with its genesis is judged by the world. Faults:
/// `BadScript` only where the bytes are too many or no JSON, or something is missing, unknown or out of its form;
/// `NoMemory`.
pub fn read_script(alloc: Global, bytes: &[u8]) -> Result<Script, Fault>
    ensures script { IfOk result (λ script. IsScriptText bytes.now (content_of script)) }
    ensures too_long { 1048576 < length bytes.now → IsErrOf result Fault.BadScript }
    ensures faults { IfErr result IsScriptFault }
    ensures bad { IsErrOf result Fault.BadScript → IsNoScriptText bytes.now }
{
    if bytes.len() > MOST_BYTES {
        return Err(Fault::BadScript);
    }
    let value = parsed(alloc, bytes)?;
    let script = read_members(alloc, &value);
    drop(value);
    script
}

// How many heights the chains of a script keep.
fn read_window(script: &Value, capacity: u64) -> Result<u64, Fault>
    ensures window { IfOk result (IsWindowIn script.now capacity) }
    ensures faults { IfErr result IsScriptFault }
    ensures bad { OnlyWhereNone result (IsWindowIn script.now capacity) }
{
    match optional_number(script, "window")? {
        Some(window) => Ok(window),
        None => Ok(capacity.min(USUAL_WINDOW)),
    }
}

// The script that a JSON object is.
fn read_members(alloc: Global, script: &Value) -> Result<Script, Fault>
    ensures script { IfOk result (λ read. IsScript (content_of read) (view script.now)) }
    ensures faults { IfErr result IsScriptFault }
    ensures bad { IsErrOf result Fault.BadScript → IsNoScript script.now }
{
    has_only(script, &["capacity", "window", "chains", "steps"])?;
    let capacity = number(script, "capacity")?;
    let window = read_window(script, capacity)?;
    let steps = list(script, "steps")?;
    let (names, chains) = read_chains(alloc, list(script, "chains")?)?;
    let steps = read_steps(alloc, names.as_slice(), steps)?;
    Ok(Script {
        genesis: Genesis {
            capacity,
            window,
            chains,
        },
        names,
        steps,
    })
}
