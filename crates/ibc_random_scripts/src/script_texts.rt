//! Random scripts as texts.

ghost use Rattle.std.specs.Prelude.{◌≡◌, ◌++◌, IfOk, OnOk, if◌then◌else◌, false, map, string_bytes};
ghost use Rattle.ibc_random_scripts.specs.ScriptTexts.{before_step, is_kept_at, kept_steps, line_if, script_of, with_step};

use crate::draws::Draws;
use crate::names::{TOKENS, USERS, chain_name};
use std::alloc::{AllocError, Global};

/// How a random script begins.
#[derive(Clone, Copy)]
pub struct ScriptStart {
    pub chains: u8,
    pub window: u64,
    pub capacity: u64,
}

/// The beginning of a script, up to its steps. Error: no memory.
pub fn head(
    alloc: Global,
    beginning: ScriptStart,
    draws: &mut Draws,
) -> Result<String, AllocError> {
    let (capacity, window) = (beginning.capacity, beginning.window);
    let mut text = format!(in alloc; "{{\"capacity\":{capacity},\"window\":{window},")?;
    text.push_str("\"chains\":[\n")?;
    for chain in 0..beginning.chains {
        if chain != 0 {
            text.push_str(",\n")?;
        }
        add_chain(&mut text, chain, draws)?;
    }
    text.push_str("],\n\"steps\":[")?;
    Ok(text)
}

// Adds a chain with what its users hold.
fn add_chain(text: &mut String, chain: u8, draws: &mut Draws) -> Result<(), AllocError> {
    let name = chain_name(chain);
    let time = draws.below(1_000);
    write!(text, "{{\"name\":\"{name}\",\"time\":{time},\"balances\":[")?;
    let mut mark = "";
    for user in USERS {
        text.push_str(mark)?;
        add_balances(text, user, draws)?;
        mark = ",";
    }
    text.push_str("]}")
}

// Adds what a user holds of each token.
fn add_balances(text: &mut String, user: &str, draws: &mut Draws) -> Result<(), AllocError> {
    let mut mark = "";
    for token in TOKENS {
        text.push_str(mark)?;
        let amount = draws.below(900).saturating_add(100);
        write!(text, "[\"{user}\",\"{token}\",\"{amount}\"]")?;
        mark = ",";
    }
    Ok(())
}

/// The beginning of a script of so many chains that hold nothing, by which single steps are read. Error: no memory.
pub fn empty_head(alloc: Global, chains: u8) -> Result<String, AllocError> {
    let mut text = String::from_str(alloc, "{\"capacity\":1,\"chains\":[")?;
    let mut mark = "";
    for chain in 0..chains {
        text.push_str(mark)?;
        let name = chain_name(chain);
        write!(text, "{{\"name\":\"{name}\",\"time\":0,\"balances\":[]}}")?;
        mark = ",";
    }
    text.push_str("],\"steps\":[")?;
    Ok(text)
}

/// The script with this beginning and those of the steps that are kept. Error: no memory.
pub fn script_text(
    alloc: Global,
    head: &str,
    steps: &[String],
    kept: &[bool],
) -> Result<String, AllocError>
    ensures { IfOk result (λ text. string_bytes text ≡ script_of head.now (kept_steps kept.now (map string_bytes steps.now))) }
{
    let mut text = String::from_str(alloc, head)?;
    let mut is_first = true;
    for place in 0..steps.len() {
        let keeps = is_kept(kept, place);
        is_first = add_if(&mut text, is_first, keeps, steps[place].as_str())?;
    }
    text.push_str("]}\n")?;
    Ok(text)
}

// Whether the step at a place is kept.
fn is_kept(kept: &[bool], place: usize) -> bool
    ensures { result ≡ is_kept_at kept.now place }
{
    match kept.get(place) {
        Some(is_kept) => *is_kept,
        None => false,
    }
}

// Adds a step, if it is kept. The result is whether the next one is the first.
fn add_if(text: &mut String, is_first: bool, keeps: bool, step: &str) -> Result<bool, AllocError>
    ensures first { IfOk result (λ first. first ≡ (if keeps then false else is_first)) }
    ensures added { OnOk result (string_bytes text.new ≡ string_bytes text.old ++ line_if keeps is_first step.now) }
{
    if keeps {
        add_step(text, is_first, step)?;
        return Ok(false);
    }
    Ok(is_first)
}

// Adds a step in a line of its own, behind a comma unless it is the first.
fn add_step(text: &mut String, is_first: bool, step: &str) -> Result<(), AllocError>
    ensures { OnOk result (string_bytes text.new ≡ string_bytes text.old ++ with_step is_first step.now) }
{
    let between = before_step(is_first);
    text.push_str(between)?;
    text.push_str(step)
}

// What stands before a step.
fn before_step(is_first: bool) -> &'static str
    ensures { result.now ≡ before_step is_first }
{
    if is_first { "\n" } else { ",\n" }
}
