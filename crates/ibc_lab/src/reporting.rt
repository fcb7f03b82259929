//! What is printed of a file's faults.

use crate::message::{TOO_LONG, Telling, write_place};
use crate::position::{offset_of, offset_of_name, spot_at};
use crate::syntax::reason_of;
use crate::{FaultKind, ScriptFault, Spot};
use ibc_script::MOST_BYTES;
use serde_json::{Error, Value};
use std::alloc::{AllocError, Global};

/// So many faults of a file are told, and of more how many they are.
pub const MOST_LINES: usize = 100;

/// The lines that tell the faults of a file: `FILE:LINE:COLUMN: PLACE: WHAT IS WRONG`.
pub fn report(
    alloc: Global,
    file: &str,
    text: &[u8],
    faults: &[ScriptFault],
) -> Result<String, AllocError> {
    let mut out = String::new(alloc);
    match Value::from_slice(alloc, text) {
        Ok(script) => {
            let telling = Telling {
                alloc,
                script: &script,
                text,
            };
            let written = write_faults(&telling, &mut out, file, faults);
            drop(script);
            written?;
        }
        Err(error) if error.is_memory() => return Err(AllocError),
        Err(_) if text.len() > MOST_BYTES => write_too_long(&mut out, file, text)?,
        Err(error) => write_no_json(&mut out, file, text, &error)?,
    }
    Ok(out)
}

fn write_faults(
    telling: &Telling<'_>,
    out: &mut String,
    file: &str,
    faults: &[ScriptFault],
) -> Result<(), AllocError> {
    for (index, fault) in faults.iter().enumerate() {
        if index == MOST_LINES {
            let more = faults.len() - index;
            return writeln!(out, "{file}: and {more} more");
        }
        write_fault(telling, out, file, fault)?;
    }
    Ok(())
}

fn write_fault(
    telling: &Telling<'_>,
    out: &mut String,
    file: &str,
    fault: &ScriptFault,
) -> Result<(), AllocError> {
    let offset = offset_of_fault(telling.alloc, telling.text, fault)?;
    write_front(out, file, spot_at(telling.text, offset))?;
    write_place(out, fault.place)?;
    out.push_str(": ")?;
    telling.wrong(out, fault.place, &fault.wrong)?;
    out.push('\n')
}

// A member that may not stand there is shown by its name, and all else by the value.
fn offset_of_fault(alloc: Global, text: &[u8], fault: &ScriptFault) -> Result<usize, AllocError> {
    if let FaultKind::Unknown(name) = &fault.wrong {
        if let Ok(name) = str::from_utf8(name.as_slice()) {
            return offset_of_name(alloc, text, fault.place.object, name);
        }
    }
    offset_of(alloc, text, fault.place)
}

fn write_front(out: &mut String, file: &str, spot: Spot) -> Result<(), AllocError> {
    let line = spot.line;
    let column = spot.column;
    write!(out, "{file}:{line}:{column}: ")
}

// A text that is too long to be looked at, and of which a part alone may be here.
fn write_too_long(out: &mut String, file: &str, text: &[u8]) -> Result<(), AllocError> {
    write_front(out, file, spot_at(text, 0))?;
    let reason = TOO_LONG;
    writeln!(out, "the script: {reason}")
}

// A text that is no JSON.
fn write_no_json(
    out: &mut String,
    file: &str,
    text: &[u8],
    error: &Error,
) -> Result<(), AllocError> {
    let offset = offset_of_error(text, error);
    write_front(out, file, spot_at(text, offset))?;
    let reason = reason_of(text, offset, error);
    writeln!(out, "the script: no JSON: {reason}")
}

// The reader tells the line, and counts bytes for the column.
fn offset_of_error(text: &[u8], error: &Error) -> usize {
    let mut line = 1usize;
    let mut start = 0usize;
    for (at, byte) in text.iter().enumerate() {
        if line == error.line() {
            break;
        }
        if *byte == b'\n' {
            line = line.saturating_add(1);
            start = at + 1;
        }
    }
    start
        .saturating_add(error.column().saturating_sub(1))
        .min(text.len())
}
