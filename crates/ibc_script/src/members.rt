//! The members of JSON objects in a script.

ghost use Rattle.std.specs.Prelude.{◌≡◌, IfErr, IfOk, IsErrOf, Some, ok_or};
ghost use Rattle.std.specs.List.{list_any};
ghost use Rattle.serde_json.specs.Find.{get};
ghost use Rattle.serde_json.specs.View.{view};
ghost use Rattle.ibc_script.specs.Faults.{IsScriptFault, OnlyWhereNone};
ghost use Rattle.std.specs.Str.{bytes_eq};
ghost use Rattle.ibc_script.specs.Scripts.{number_at};
ghost use Rattle.ibc_script.specs.ReadValues.{AreNamed, AreNoItems, AreValues, HasOnly};
ghost use Rattle.ibc_script.specs.ScriptValues.{IsNoText, IsNoTextIfThere, IsNumber, IsNumberIfThere, IsText, IsTextIfThere};

use crate::Fault;
use serde_json::{Map, Value};

/// `Ok` where each member of the object has one of the names. Fault: `BadScript`, also where it is no object.
pub fn has_only(object: &Value, names: &[&str]) -> Result<(), Fault>
    ensures only { IfOk result (λ _. HasOnly names.now object.now) }
    ensures faults { IfErr result IsScriptFault }
    ensures bad { IsErrOf result Fault.BadScript → ¬ HasOnly names.now object.now }
{
    match object.as_object() {
        Some(members) => are_among(members, names),
        None => Err(Fault::BadScript),
    }
}

// `Ok` where each of these members has one of the names. Fault: `BadScript`.
fn are_among(members: &Map<String, Value>, names: &[&str]) -> Result<(), Fault>
    ensures among { IfOk result (λ _. AreNamed names.now members.now.entries) }
    ensures faults { IfErr result IsScriptFault }
    ensures bad { IsErrOf result Fault.BadScript → ¬ AreNamed names.now members.now.entries }
{
    for member in members.keys() {
        if !is_one_of(names, member.as_str()) {
            return Err(Fault::BadScript);
        }
    }
    Ok(())
}

// Whether a name is one of these.
fn is_one_of(names: &[&str], member: &str) -> bool
    ensures { result ≡ list_any (λ name. bytes_eq member.now name.now) names.now }
{
    names.iter().any(|name| member == *name)
}

/// The member of this name, a number below 2^64. Fault: `BadScript`.
pub fn number(object: &Value, name: &str) -> Result<u64, Fault>
    ensures value { result ≡ ok_or (number_at name.now (view object.now)) Fault.BadScript }
    ensures number { IfOk result (λ number. IsNumber number (get name.now (view object.now))) }
    ensures faults { IfErr result IsScriptFault }
    ensures bad { OnlyWhereNone result (λ number. IsNumber number (get name.now (view object.now))) }
{
    object
        .get(name)
        .and_then(Value::as_u64)
        .ok_or(Fault::BadScript)
}

/// The member of this name, where it is there a number below 2^64. Fault: `BadScript`.
pub fn optional_number(object: &Value, name: &str) -> Result<Option<u64>, Fault>
    ensures number { IfOk result (λ n. IsNumberIfThere n (get name.now (view object.now))) }
    ensures faults { IfErr result IsScriptFault }
    ensures bad { OnlyWhereNone result (λ n. IsNumberIfThere n (get name.now (view object.now))) }
{
    if object.get(name).is_none() {
        return Ok(None);
    }
    Ok(Some(number(object, name)?))
}

/// The member of this name, a text. Fault: `BadScript`.
pub fn text<'v>(object: &'v Value, name: &str) -> Result<&'v str, Fault>
    ensures text { IfOk result (λ text. IsText text.now (get name.now (view object.now))) }
    ensures faults { IfErr result IsScriptFault }
    ensures bad { IsErrOf result Fault.BadScript → IsNoText (get name.now (view object.now)) }
{
    object
        .get(name)
        .and_then(Value::as_str)
        .ok_or(Fault::BadScript)
}

/// The member of this name, a text; the empty one where there is none. Fault: `BadScript`.
pub fn text_or_empty<'v>(object: &'v Value, name: &str) -> Result<&'v str, Fault>
    ensures text { IfOk result (λ text. IsTextIfThere text.now (get name.now (view object.now))) }
    ensures faults { IfErr result IsScriptFault }
    ensures bad { IsErrOf result Fault.BadScript → IsNoTextIfThere (get name.now (view object.now)) }
{
    if object.get(name).is_none() {
        return Ok("");
    }
    text(object, name)
}

/// The text that an item of a list is. Fault: `BadScript`.
pub fn item_text(item: &Value) -> Result<&str, Fault>
    ensures text { IfOk result (λ text. IsText text.now (Some (view item.now))) }
    ensures faults { IfErr result IsScriptFault }
    ensures bad { IsErrOf result Fault.BadScript → IsNoText (Some (view item.now)) }
{
    item.as_str().ok_or(Fault::BadScript)
}

/// The items of the member of this name, a list. Fault: `BadScript`.
pub fn list<'v>(object: &'v Value, name: &str) -> Result<&'v [Value], Fault>
    ensures items { IfOk result (λ items. AreValues items.now (get name.now (view object.now))) }
    ensures faults { IfErr result IsScriptFault }
    ensures bad { IsErrOf result Fault.BadScript → AreNoItems (get name.now (view object.now)) }
{
    match object.get(name) {
        Some(value) => item_list(value),
        None => Err(Fault::BadScript),
    }
}

/// The items that an item of a list has, a list. Fault: `BadScript`.
pub fn item_list(item: &Value) -> Result<&[Value], Fault>
    ensures items { IfOk result (λ items. AreValues items.now (Some (view item.now))) }
    ensures faults { IfErr result IsScriptFault }
    ensures bad { IsErrOf result Fault.BadScript → AreNoItems (Some (view item.now)) }
{
    match item.as_array() {
        Some(items) => Ok(items.as_slice()),
        None => Err(Fault::BadScript),
    }
}
