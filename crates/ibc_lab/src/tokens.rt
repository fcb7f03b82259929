//! Tokens whose denominations have to rise.

ghost use Rattle.std.specs.Prelude.{◌≡◌, map};
ghost use Rattle.serde_json.specs.View.{view};
ghost use Rattle.ibc_lab.specs.Faults.{Gains, is_greater, is_less, rise, rise_after, rising_faults};
ghost use Rattle.ibc_lab.specs.Values.{text_behind};

use crate::fault::note;
use crate::values::item_text;
use crate::{FaultKind, ScriptFault, ScriptPlace};
use serde_json::Value;
use std::alloc::AllocError;
use std::cmp::Ordering;

/// Notes tokens whose denominations don't rise.
pub fn rising(
    place: ScriptPlace,
    tokens: &[Value],
    found: &mut Vec<ScriptFault>,
) -> Result<(), AllocError>
    ensures { Gains result found.old found.new (rising_faults place (map view tokens.now)) }
{
    if rise(tokens) {
        Ok(())
    } else {
        note(found, place, FaultKind::NotRising)
    }
}

// Whether the denominations rise in byte order, from one token to the next.
fn rise(tokens: &[Value]) -> bool
    ensures { result ≡ rise (map view tokens.now) }
{
    match tokens.split_first() {
        Some((first, rest)) => rise_after(first, rest),
        None => true,
    }
}

fn rise_after(first: &Value, rest: &[Value]) -> bool
    ensures { result ≡ rise_after (view first.now) (map view rest.now) }
{
    let mut last = first;
    for token in rest {
        if !is_greater(item_text(last, 0), item_text(token, 0)) {
            return false;
        }
        last = token;
    }
    true
}

// Whether the second text is greater in byte order, where both are there.
fn is_greater(first: Option<&str>, second: Option<&str>) -> bool
    ensures { result ≡ is_greater (text_behind first.entry) (text_behind second.entry) }
{
    let Some(first) = first else {
        return true;
    };
    match second {
        Some(second) => is_less(first, second),
        None => true,
    }
}

fn is_less(first: &str, second: &str) -> bool
    ensures { result ≡ is_less first.now second.now }
{
    match first.cmp(second) {
        Ordering::Less => true,
        Ordering::Equal | Ordering::Greater => false,
    }
}
