//! Where the places of a script stand in its text. What is looked through is known to be JSON.

ghost use Rattle.std.specs.Prelude.{◌≡◌, take};
ghost use Rattle.ibc_lab.specs.Spots.{is_continuation, spot_of};

use crate::{ScriptPart, ScriptPlace};
use serde_json::Value;
use std::alloc::{AllocError, Global};

/// A line and a column of a text, both from 1. Columns count characters.
#[derive(Clone, Copy)]
pub struct Spot {
    pub line: usize,
    pub column: usize,
}

/// Where the byte at an offset stands.
pub fn spot_at(text: &[u8], offset: usize) -> Spot
    ensures { result ≡ spot_of (take offset text.now) }
{
    spot_behind(&text[..offset.min(text.len())])
}

// Where the byte behind these stands.
fn spot_behind(before: &[u8]) -> Spot
    ensures { result ≡ spot_of before.now }
{
    let mut line = 1;
    let mut column = 1;
    for byte in before {
        if *byte == b'\n' {
            line += 1;
            column = 1;
        } else if !is_continuation(*byte) {
            column += 1;
        }
    }
    Spot { line, column }
}

// Whether a byte goes on with a character.
fn is_continuation(byte: u8) -> bool
    ensures { result ≡ is_continuation byte }
{
    128 <= byte && byte < 192
}

/// The offset at which what stands at a place begins. Where it isn't there, that is what it would stand in.
pub fn offset_of(alloc: Global, text: &[u8], place: ScriptPlace) -> Result<usize, AllocError> {
    let object = part_of(alloc, text, place.object)?;
    let Some(member) = place.member else {
        return Ok(offset_in(text, object));
    };
    let mut rest = member_of(alloc, object, member.name())?;
    if let Some(index) = place.item {
        rest = item_of(rest, index);
    }
    if let Some(index) = place.part {
        rest = item_of(rest, index);
    }
    Ok(offset_in(text, rest))
}

/// The offset at which the name of a member of an object begins, or the object where it has no such member.
pub fn offset_of_name(
    alloc: Global,
    text: &[u8],
    object: ScriptPart,
    name: &str,
) -> Result<usize, AllocError> {
    let object = part_of(alloc, text, object)?;
    match entry_of(alloc, object, name)? {
        Some(entry) => Ok(offset_in(text, entry.name)),
        None => Ok(offset_in(text, object)),
    }
}

/// The value that begins at an offset, and the blanks behind it.
pub fn value_text(text: &[u8], offset: usize) -> &[u8] {
    let value = &text[offset.min(text.len())..];
    &value[..offset_in(value, behind_value(value)).min(value.len())]
}

// The offset in a text of what begins with the rest of it.
fn offset_in(text: &[u8], rest: &[u8]) -> usize {
    text.len().saturating_sub(rest.len())
}

// The text from a part of a script on.
fn part_of<'t>(alloc: Global, text: &'t [u8], part: ScriptPart) -> Result<&'t [u8], AllocError> {
    let script = next_value(text);
    match part {
        ScriptPart::Script => Ok(script),
        ScriptPart::Chain(index) => Ok(item_of(member_of(alloc, script, "chains")?, index)),
        ScriptPart::Step(index) => Ok(item_of(member_of(alloc, script, "steps")?, index)),
    }
}

// The text from the item of a list on.
fn item_of(list: &[u8], index: usize) -> &[u8] {
    let mut rest = next_value(behind_first(list));
    for _ in 0..index {
        rest = next_value(behind_value(rest));
    }
    rest
}

// The text from the value of an object's member on, or from the object on where it has none of this name.
fn member_of<'t>(alloc: Global, object: &'t [u8], name: &str) -> Result<&'t [u8], AllocError> {
    match entry_of(alloc, object, name)? {
        Some(entry) => Ok(entry.value),
        None => Ok(object),
    }
}

/// A member of an object: the text from its name on, from its value on, and behind it.
#[derive(Clone, Copy)]
struct MemberText<'t> {
    name: &'t [u8],
    value: &'t [u8],
    rest: &'t [u8],
}

// The last member of this name.
fn entry_of<'t>(
    alloc: Global,
    object: &'t [u8],
    name: &str,
) -> Result<Option<MemberText<'t>>, AllocError> {
    let mut found = None;
    let mut rest = behind_first(object);
    for _ in 0..object.len() {
        let Some(entry) = next_entry(rest) else {
            break;
        };
        if is_text(alloc, entry.name, name)? {
            found = Some(entry);
        }
        rest = entry.rest;
    }
    Ok(found)
}

fn next_entry(rest: &[u8]) -> Option<MemberText<'_>> {
    let name = next_value(rest);
    let Some(b'"') = name.first() else {
        return None;
    };
    let value = next_value(behind_text(name));
    Some(MemberText {
        name,
        value,
        rest: behind_value(value),
    })
}

// Whether the text in quotes that comes first is this one, where escapes may write it.
fn is_text(alloc: Global, quoted: &[u8], text: &str) -> Result<bool, AllocError> {
    let length = offset_in(quoted, behind_text(quoted)).min(quoted.len());
    match Value::from_slice(alloc, &quoted[..length]) {
        Ok(value) => {
            let same = is_text_value(&value, text);
            drop(value);
            Ok(same)
        }
        Err(error) if error.is_memory() => Err(AllocError),
        Err(_) => Ok(false),
    }
}

fn is_text_value(value: &Value, text: &str) -> bool {
    match value.as_str() {
        Some(own) => own == text,
        None => false,
    }
}

fn behind_first(rest: &[u8]) -> &[u8] {
    match rest.split_first() {
        Some((_, behind)) => behind,
        None => &[],
    }
}

// The text from the next value or name on.
fn next_value(rest: &[u8]) -> &[u8] {
    for (at, byte) in rest.iter().enumerate() {
        if !matches!(byte, b' ' | b'\t' | b'\r' | b'\n' | b',' | b':') {
            return &rest[at..];
        }
    }
    &[]
}

// The text behind the text in quotes that comes first.
fn behind_text(quoted: &[u8]) -> &[u8] {
    let mut escaped = false;
    for (at, byte) in quoted.iter().enumerate() {
        if at > 0 && !escaped && *byte == b'"' {
            return &quoted[at + 1..];
        }
        escaped = *byte == b'\\' && !escaped;
    }
    &[]
}

// The text behind the value that comes first.
fn behind_value(value: &[u8]) -> &[u8] {
    let mut depth = 0usize;
    let mut walk = Quotes::new();
    for (at, byte) in value.iter().enumerate() {
        if walk.take(*byte) {
            continue;
        }
        match *byte {
            b'{' | b'[' => depth = depth.saturating_add(1),
            b'}' | b']' if depth > 1 => depth -= 1,
            b'}' | b']' if depth == 1 => return &value[at + 1..],
            b'}' | b']' => return &value[at..],
            b',' if depth == 0 => return &value[at..],
            _ => {}
        }
    }
    &[]
}

/// Whether a text in quotes has begun and not ended, and whether its last byte was an escape's.
#[derive(Clone, Copy)]
struct Quotes {
    open: bool,
    escaped: bool,
}

impl Quotes {
    fn new() -> Quotes {
        Quotes {
            open: false,
            escaped: false,
        }
    }

    // Takes the next byte. The result is whether it belongs to a text in quotes.
    fn take(&mut self, byte: u8) -> bool {
        if !self.open {
            self.open = byte == b'"';
            return self.open;
        }
        if self.escaped {
            self.escaped = false;
        } else if byte == b'\\' {
            self.escaped = true;
        } else if byte == b'"' {
            self.open = false;
        }
        true
    }
}
