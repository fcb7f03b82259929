//! Whether a text is a script that can be run, and what is wrong where it isn't.

ghost use Rattle.std.specs.Prelude.{◌≡◌, ◌≤◌, ◌<◌, None, Some, length, IfOk, IsUtf8, OnOk};
ghost use Rattle.serde_json.specs.Read.{read};
ghost use Rattle.serde_json.specs.View.{view};
ghost use Rattle.ibc_script.specs.ScriptValues.{IsScript, content_of};
ghost use Rattle.ibc_lab.specs.Faults.{fault_at, script_faults};
ghost use Rattle.ibc_lab.specs.Places.{place_of};
ghost use Rattle.ibc_lab.specs.Verdicts.{IsVerdict, IsVerdictOf, at_least_one, content_faults, faults_with};

use crate::fault::note;
use crate::genesis::genesis_faults;
use crate::judge::script_faults;
use crate::{FaultKind, ScriptFault, ScriptPart, ScriptPlace};
use ibc_machine::Genesis;
use ibc_script::{Fault as Unread, MOST_BYTES, Script, read_script};
use serde_json::Value;
use std::alloc::{AllocError, Global};

/// What is said of a text.
#[derive(Drop)]
pub enum Verdict {
    /// It is this script, as `read_script` reads it, and a world begins with its genesis.
    Good(Script),
    /// It is no such script, and this is what is wrong.
    Bad(Vec<ScriptFault>),
}

/// Whether the text is a script with which nothing is wrong; its genesis is allowed then. Else the faults are told, one at
/// least.
pub fn check(alloc: Global, bytes: &[u8]) -> Result<Verdict, AllocError>
    ensures { IfOk result (IsVerdict bytes.now) }
{
    if bytes.len() > MOST_BYTES {
        too_long(alloc, bytes)
    } else {
        check_text(alloc, bytes)
    }
}

// What is said of a text that has too many bytes.
fn too_long(alloc: Global, _bytes: &[u8]) -> Result<Verdict, AllocError>
    requires { 1048576 < length _bytes.now }
    ensures { IfOk result (IsVerdict _bytes.now) }
{
    let faults = one_fault(alloc, FaultKind::TooLong)?;
    Ok(Verdict::Bad(faults))
}

// What is said of a text that isn't too long.
fn check_text(alloc: Global, bytes: &[u8]) -> Result<Verdict, AllocError>
    requires { length bytes.now ≤ 1048576 }
    ensures { IfOk result (IsVerdict bytes.now) }
{
    match Value::from_slice(alloc, bytes) {
        Ok(value) => check_json(alloc, bytes, value),
        Err(error) if error.is_memory() => Err(AllocError),
        Err(_) => no_json(alloc, bytes),
    }
}

// What is said of a text that is no JSON.
fn no_json(alloc: Global, _bytes: &[u8]) -> Result<Verdict, AllocError>
    requires { IsUtf8 _bytes.now → read _bytes.now ≡ None }
    ensures { IfOk result (IsVerdict _bytes.now) }
{
    let faults = one_fault(alloc, FaultKind::NoJson)?;
    Ok(Verdict::Bad(faults))
}

// What is said of a text that is this JSON value.
fn check_json(alloc: Global, bytes: &[u8], value: Value) -> Result<Verdict, AllocError>
    requires few { length bytes.now ≤ 1048576 }
    requires utf8 { IsUtf8 bytes.now }
    requires read { read bytes.now ≡ Some (view value) }
    ensures { IfOk result (IsVerdict bytes.now) }
{
    let verdict = check_value(alloc, bytes, &value);
    drop(value);
    verdict
}

// What is said of a value that a text is.
fn check_value(alloc: Global, bytes: &[u8], value: &Value) -> Result<Verdict, AllocError>
    requires { read bytes.now ≡ Some (view value.now) }
    ensures { IfOk result (IsVerdictOf (view value.now)) }
{
    match read_script(alloc, bytes) {
        Ok(script) => check_genesis(alloc, value, script),
        Err(Unread::NoMemory) => Err(AllocError),
        Err(_) => unread(alloc, value),
    }
}

// What is said of a value that wasn't read as a script.
fn unread(alloc: Global, value: &Value) -> Result<Verdict, AllocError>
    ensures { IfOk result (IsVerdictOf (view value.now)) }
{
    let faults = unread_faults(alloc, value)?;
    Ok(Verdict::Bad(faults))
}

// What is said of a script that was read.
fn check_genesis(alloc: Global, value: &Value, script: Script) -> Result<Verdict, AllocError>
    requires { IsScript (content_of script) (view value.now) }
    ensures { IfOk result (IsVerdictOf (view value.now)) }
{
    match content_faults(alloc, value, &script.genesis) {
        Ok(faults) => Ok(verdict_of(value, script, faults)),
        Err(error) => {
            drop(script);
            Err(error)
        }
    }
}

// What is said of a script in which this was found to be wrong.
fn verdict_of(_value: &Value, script: Script, faults: Vec<ScriptFault>) -> Verdict
    requires script { IsScript (content_of script) (view _value.now) }
    requires faults { faults.items ≡ content_faults (content_of script) (view _value.now) }
    ensures { IsVerdictOf (view _value.now) result }
{
    if faults.is_empty() {
        drop(faults);
        Verdict::Good(script)
    } else {
        drop(script);
        Verdict::Bad(faults)
    }
}

// What is wrong with a value that is no script.
fn unread_faults(alloc: Global, value: &Value) -> Result<Vec<ScriptFault>, AllocError>
    ensures { IfOk result (λ faults. faults.items ≡ at_least_one (script_faults (view value.now))) }
{
    let mut faults = script_faults(alloc, value)?;
    need_one(&mut faults)?;
    Ok(faults)
}

// What is wrong with a value that is a script with this genesis.
fn content_faults(
    alloc: Global,
    value: &Value,
    genesis: &Genesis,
) -> Result<Vec<ScriptFault>, AllocError>
    ensures { IfOk result (λ faults. faults.items ≡ faults_with value.now genesis.now) }
{
    let mut faults = script_faults(alloc, value)?;
    genesis_faults(genesis, &mut faults)?;
    Ok(faults)
}

// Where nothing was found, the fault is that the text is no script.
fn need_one(faults: &mut Vec<ScriptFault>) -> Result<(), AllocError>
    ensures { OnOk result (faults.new.items ≡ at_least_one faults.old.items) }
{
    if !faults.is_empty() {
        return Ok(());
    }
    note(
        faults,
        ScriptPlace::of(ScriptPart::Script),
        FaultKind::NoScript,
    )
}

// One fault, of the whole text.
fn one_fault(alloc: Global, wrong: FaultKind) -> Result<Vec<ScriptFault>, AllocError>
    ensures { IfOk result (λ faults. faults.items ≡ fault_at (place_of ScriptPart.Script) wrong) }
{
    let mut faults = Vec::new(alloc);
    note(&mut faults, ScriptPlace::of(ScriptPart::Script), wrong)?;
    Ok(faults)
}
