//! A step of a script, alone.

use crate::LineFault;
use ibc_script::{ChainName, Fault, Script, Step, read_script};
use serde_json::Value;
use std::alloc::{AllocError, Global};

/// Reads single steps of scripts whose chains have these names.
#[derive(Drop)]
pub struct SingleSteps {
    alloc: Global,
    // a script with no steps, up to where they would stand
    front: String,
}

impl SingleSteps {
    /// What reads the steps of chains with these names.
    pub fn new(alloc: Global, names: &[ChainName]) -> Result<SingleSteps, AllocError> {
        let mut front = String::from_str(alloc, "{\"capacity\":1,\"chains\":[")?;
        let mut is_first = true;
        for name in names {
            front.push_str(if is_first {
                "{\"name\":\""
            } else {
                ",{\"name\":\""
            })?;
            front.push_str(name.as_str())?;
            front.push_str("\",\"time\":0,\"balances\":[]}")?;
            is_first = false;
        }
        front.push_str("],\"steps\":[")?;
        Ok(SingleSteps { alloc, front })
    }

    /// The step that an object is, whatever place of a log it names.
    pub fn read(&self, object: &Value) -> Result<Step, LineFault> {
        let text = self.script_with(object)?;
        let script = read_script(self.alloc, text.as_bytes());
        drop(text);
        match script {
            Ok(script) => only_step(script),
            Err(Fault::NoMemory) => Err(LineFault::NoMemory),
            Err(_) => Err(LineFault::NoStep),
        }
    }

    // The script whose one step is the object.
    fn script_with(&self, object: &Value) -> Result<String, LineFault> {
        let Ok(mut text) = self.front.clone() else {
            return Err(LineFault::NoMemory);
        };
        match add_step(self.alloc, object, &mut text) {
            Ok(()) => Ok(text),
            Err(mistake) => {
                drop(text);
                Err(mistake)
            }
        }
    }
}

// The step of a script that has one.
fn only_step(script: Script) -> Result<Step, LineFault> {
    let Script {
        steps,
        names,
        genesis,
    } = script;
    drop(names);
    drop(genesis);
    let mut steps = steps;
    let step = steps.pop();
    let has_others = !steps.as_slice().is_empty();
    drop(steps);
    if has_others {
        drop(step);
        return Err(LineFault::NoStep);
    }
    step.ok_or(LineFault::NoStep)
}

// Adds an object without its place in a log, and the end of a script.
fn add_step(alloc: Global, object: &Value, text: &mut String) -> Result<(), LineFault> {
    let Some(members) = object.as_object() else {
        return Err(LineFault::NoObject);
    };
    push(text, "{\"do\":")?;
    add_value(alloc, object, "do", text)?;
    for member in members.keys() {
        let name = member.as_str();
        if name == "do" || name == "at" {
            continue;
        }
        if !is_word(name) {
            return Err(LineFault::UnknownMember);
        }
        push(text, ",\"")?;
        push(text, name)?;
        push(text, "\":")?;
        add_value(alloc, object, name, text)?;
    }
    push(text, "}]}")
}

// Adds the value of a member.
fn add_value(
    alloc: Global,
    object: &Value,
    name: &str,
    text: &mut String,
) -> Result<(), LineFault> {
    let Some(value) = object.get(name) else {
        return Err(LineFault::NoStep);
    };
    let Ok(value) = value.to_string(alloc) else {
        return Err(LineFault::NoMemory);
    };
    let added = push(text, value.as_str());
    drop(value);
    added
}

// Whether a name is of small letters and lines, as those of all members are.
fn is_word(name: &str) -> bool {
    name.as_bytes()
        .iter()
        .all(|byte| byte.is_ascii_lowercase() || *byte == b'_')
}

fn push(text: &mut String, more: &str) -> Result<(), LineFault> {
    match text.push_str(more) {
        Ok(()) => Ok(()),
        Err(_) => Err(LineFault::NoMemory),
    }
}
