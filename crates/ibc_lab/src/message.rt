//! Faults in words.

use crate::nearest::nearest;
use crate::owed::{chain_owes, script_owes, step_owes};
use crate::position::{offset_of, value_text};
use crate::step_kind::ALL_KINDS;
use crate::values::{items_at, items_in, kind_in, name_in};
use crate::{FaultKind, Leaf, Member, Owed, ScriptPart, ScriptPlace, TextForm, Tuple};
use ibc_ids::Bytes;
use serde_json::Value;
use std::alloc::{AllocError, Global};

/// So many characters of a value are shown, and two points behind them where there are more.
const MOST_SHOWN: usize = 60;

/// What is wrong with a text that has more bytes than a script may have.
pub const TOO_LONG: &str = "more than 1,048,576 bytes";

/// Writes where a place is, as `steps[3].on`.
pub fn write_place(out: &mut String, place: ScriptPlace) -> Result<(), AllocError> {
    match place.object {
        ScriptPart::Script if place.member.is_none() => out.push_str("the script")?,
        ScriptPart::Script => {}
        ScriptPart::Chain(index) => write!(out, "chains[{index}]")?,
        ScriptPart::Step(index) => write!(out, "steps[{index}]")?,
    }
    let Some(member) = place.member else {
        return Ok(());
    };
    if !matches!(place.object, ScriptPart::Script) {
        out.push('.')?;
    }
    out.push_str(member.name())?;
    if let Some(index) = place.item {
        write!(out, "[{index}]")?;
    }
    if let Some(index) = place.part {
        write!(out, "[{index}]")?;
    }
    Ok(())
}

/// A script and its text, of which faults are told.
#[derive(Clone, Copy)]
pub struct Telling<'t> {
    pub alloc: Global,
    pub script: &'t Value,
    pub text: &'t [u8],
}

impl Telling<'_> {
    /// Writes what is wrong at a place.
    pub fn wrong(
        &self,
        out: &mut String,
        place: ScriptPlace,
        wrong: &FaultKind,
    ) -> Result<(), AllocError> {
        match wrong {
            FaultKind::Leaf(leaf) => self.leaf(out, place, *leaf),
            FaultKind::Tuple(tuple) => self.unfit(out, place, tuple_wanted(*tuple)),
            FaultKind::Object => self.unfit(out, place, "an object"),
            FaultKind::Missing(member) => {
                let name = member.name();
                write!(out, "no member \"{name}\"")
            }
            FaultKind::Unknown(name) => self.unknown(out, place, name),
            FaultKind::AboveCapacity => self.above(out, place),
            FaultKind::NameTwice => {
                out.push_str("a chain before this one has the name ")?;
                self.value(out, place)
            }
            FaultKind::OneChain => {
                self.unfit(out, place.inside(0), "two different chains")?;
                out.push_str(" twice")
            }
            FaultKind::NotRising => {
                out.push_str("the denominations have to rise strictly in byte order")
            }
            FaultKind::HeldTwice => self.held_twice(out, place),
            FaultKind::TooMuch => self.too_much(out, place),
            FaultKind::NoJson => out.push_str("no JSON"),
            FaultKind::TooLong => out.push_str(TOO_LONG),
            FaultKind::NoScript => out.push_str("no script that ibcworld runs"),
        }
    }

    // The window is above the capacity.
    fn above(&self, out: &mut String, place: ScriptPlace) -> Result<(), AllocError> {
        out.push_str("at most the capacity, which is ")?;
        let capacity = ScriptPlace::of(ScriptPart::Script).member(Member::Capacity);
        self.value(out, capacity)?;
        self.unfit(out, place, "")
    }

    // A balance of a user and a denomination that one before it is of.
    fn held_twice(&self, out: &mut String, place: ScriptPlace) -> Result<(), AllocError> {
        self.value(out, place.inside(0))?;
        out.push_str(" has ")?;
        self.value(out, place.inside(1))?;
        out.push_str(" in a balance before this one")
    }

    // The amount of a balance with which those of its denomination are too much.
    fn too_much(&self, out: &mut String, place: ScriptPlace) -> Result<(), AllocError> {
        let denom = ScriptPlace {
            object: place.object,
            member: place.member,
            item: place.item,
            part: Some(1),
        };
        out.push_str("with this amount, those of ")?;
        self.value(out, denom)?;
        out.push_str(" on the chain aren't below 2^128")
    }

    // What stands there isn't what is wanted.
    fn unfit(&self, out: &mut String, place: ScriptPlace, wanted: &str) -> Result<(), AllocError> {
        out.push_str(wanted)?;
        out.push_str(", not ")?;
        self.value(out, place)
    }

    // What stands at a place, as the text has it.
    fn value(&self, out: &mut String, place: ScriptPlace) -> Result<(), AllocError> {
        let offset = offset_of(self.alloc, self.text, place)?;
        match str::from_utf8(value_text(self.text, offset)) {
            Ok(shown) => write_shown(out, shown.trim_end()),
            Err(_) => Ok(()),
        }
    }

    fn leaf(&self, out: &mut String, place: ScriptPlace, leaf: Leaf) -> Result<(), AllocError> {
        match leaf {
            Leaf::Text(TextForm::Kind) => self.no_kind(out, place),
            Leaf::Text(form) => {
                self.unfit(out, place, text_wanted(form))?;
                self.nearest_text(out, place, form)
            }
            Leaf::Known => self.no_chain(out, place),
            Leaf::Base64 => self.unfit(out, place, "bytes in base64 with padding (RFC 4648)"),
            Leaf::Number(least, most) => {
                write!(out, "a whole number from {least} to {most}")?;
                self.unfit(out, place, "")
            }
            Leaf::List(least, most) => self.list(out, place, least, most),
        }
    }

    // A list with too few or too many items, or no list.
    fn list(
        &self,
        out: &mut String,
        place: ScriptPlace,
        least: usize,
        most: usize,
    ) -> Result<(), AllocError> {
        if most == usize::MAX {
            out.push_str("a list")?;
        } else {
            write!(out, "a list of {least} to {most} items")?;
        }
        match value_at(self.script, place).and_then(items_in) {
            Some(items) => {
                let count = items.len();
                write!(out, ", not of {count}")
            }
            None => self.unfit(out, place, ""),
        }
    }

    // No chain has the name.
    fn no_chain(&self, out: &mut String, place: ScriptPlace) -> Result<(), AllocError> {
        let Some(name) = value_at(self.script, place).and_then(Value::as_str) else {
            return self.unfit(out, place, "a chain's name");
        };
        out.push_str("no chain ")?;
        self.value(out, place)?;
        let mut names = Vec::new(self.alloc);
        for chain in items_at(self.script, "chains") {
            if let Some(name) = name_in(chain) {
                names.push(name)?;
            }
        }
        write_words(out, " (there are ", names.as_slice(), ")")?;
        write_nearest(self.alloc, out, name, names.as_slice())
    }

    // No kind of steps has the name.
    fn no_kind(&self, out: &mut String, place: ScriptPlace) -> Result<(), AllocError> {
        let Some(name) = value_at(self.script, place).and_then(Value::as_str) else {
            return self.unfit(out, place, "the name of a step");
        };
        out.push_str("no step ")?;
        self.value(out, place)?;
        let mut names = Vec::new(self.alloc);
        for kind in &ALL_KINDS {
            names.push(kind.name())?;
        }
        write_nearest(self.alloc, out, name, names.as_slice())
    }

    // A member that the object may not have.
    fn unknown(
        &self,
        out: &mut String,
        place: ScriptPlace,
        name: &Bytes,
    ) -> Result<(), AllocError> {
        let Ok(name) = str::from_utf8(name.as_slice()) else {
            return out.push_str("an unknown member");
        };
        out.push_str("unknown member \"")?;
        write_shown(out, name)?;
        out.push('"')?;
        let mut names = Vec::new(self.alloc);
        for owed in owed_at(self.script, place.object) {
            names.push(owed.member.name())?;
        }
        write_words(out, " (there are ", names.as_slice(), ")")?;
        write_nearest(self.alloc, out, name, names.as_slice())
    }

    // The nearest word to a text of a form that has few.
    fn nearest_text(
        &self,
        out: &mut String,
        place: ScriptPlace,
        form: TextForm,
    ) -> Result<(), AllocError> {
        let Some(text) = value_at(self.script, place).and_then(Value::as_str) else {
            return Ok(());
        };
        match form {
            TextForm::Application => write_nearest(
                self.alloc,
                out,
                text,
                &["note", "transfer", "transfer2"],
            ),
            TextForm::Order => write_order(self.alloc, out, text),
            _ => Ok(()),
        }
    }
}

// The order that is nearest to a word in any case.
fn write_order(alloc: Global, out: &mut String, word: &str) -> Result<(), AllocError> {
    let upper: String = word
        .chars()
        .map(|character| character.to_ascii_uppercase())
        .collect(alloc)?;
    let written = write_nearest(alloc, out, upper.as_str(), &["ORDERED", "UNORDERED"]);
    drop(upper);
    written
}

// What stands at a place of a script.
fn value_at(script: &Value, place: ScriptPlace) -> Option<&Value> {
    let mut value = object_at(script, place.object)?;
    if let Some(member) = place.member {
        value = value.get(member.name())?;
    }
    if let Some(index) = place.item {
        value = value.get(index)?;
    }
    if let Some(index) = place.part {
        value = value.get(index)?;
    }
    Some(value)
}

fn object_at(script: &Value, part: ScriptPart) -> Option<&Value> {
    match part {
        ScriptPart::Script => Some(script),
        ScriptPart::Chain(index) => script.get("chains")?.get(index),
        ScriptPart::Step(index) => script.get("steps")?.get(index),
    }
}

// What the object at a place has.
fn owed_at(script: &Value, part: ScriptPart) -> &'static [Owed] {
    match part {
        ScriptPart::Script => script_owes(),
        ScriptPart::Chain(_) => chain_owes(),
        ScriptPart::Step(_) => match object_at(script, part).and_then(kind_in) {
            Some(kind) => step_owes(kind),
            None => &[],
        },
    }
}

// A text or its beginning in one line, without what moves a terminal's cursor. Blanks that begin a line are left out.
fn write_shown(out: &mut String, text: &str) -> Result<(), AllocError> {
    let mut shown = 0usize;
    let mut indented = false;
    for character in text.chars() {
        if character == '\n' || (indented && matches!(character, ' ' | '\t')) {
            indented = true;
            continue;
        }
        indented = false;
        if shown == MOST_SHOWN {
            return out.push_str("..");
        }
        out.push(visible(character))?;
        shown = shown.saturating_add(1);
    }
    Ok(())
}

fn visible(character: char) -> char {
    if matches!(character, '\t' | '\r') {
        ' '
    } else if character < ' ' || ('\u{7f}' <= character && character <= '\u{9f}') {
        '?'
    } else {
        character
    }
}

// Words between commas, with something before and behind them, where there are any.
fn write_words(
    out: &mut String,
    before: &str,
    words: &[&str],
    behind: &str,
) -> Result<(), AllocError> {
    for (index, word) in words.iter().enumerate() {
        out.push_str(if index == 0 { before } else { ", " })?;
        write_shown(out, word)?;
    }
    if words.is_empty() {
        Ok(())
    } else {
        out.push_str(behind)
    }
}

// The known word that a misspelt one is nearest to.
fn write_nearest(
    alloc: Global,
    out: &mut String,
    word: &str,
    known: &[&str],
) -> Result<(), AllocError> {
    match nearest(alloc, word, known)? {
        Some(index) => {
            out.push_str("; did you mean \"")?;
            write_shown(out, known[index])?;
            out.push_str("\"?")
        }
        None => Ok(()),
    }
}

fn tuple_wanted(tuple: Tuple) -> &'static str {
    match tuple {
        Tuple::Pair => "two chains, [chain, chain]",
        Tuple::Packet => "a packet, [chain, port, channel, sequence]",
        Tuple::Token => "a token, [denomination, amount]",
        Tuple::Balance => "a balance, [user, denomination, amount]",
    }
}

fn text_wanted(form: TextForm) -> &'static str {
    match form {
        TextForm::Amount => {
            "an amount, in quotes: decimal digits without leading zeros, below 2^128"
        }
        TextForm::Application => "an application, note, transfer or transfer2",
        TextForm::BaseDenom => "a base denomination of 1 to 64 letters and digits",
        TextForm::Chain => "a chain's name of 1 to 16 lower-case letters and digits",
        TextForm::Channel => "a channel of 8 to 64 letters, digits and . _ + - # [ ] < >",
        TextForm::Client => "a client of 9 to 64 letters, digits and . _ + - # [ ] < >",
        TextForm::Connection => "a connection of 10 to 64 letters, digits and . _ + - # [ ] < >",
        TextForm::Denom => {
            "a denomination of 1 to 64 letters and digits, behind hops PORT/CHANNEL/ if it has any"
        }
        TextForm::Kind => "the name of a step",
        TextForm::Memo => "a memo of at most 256 printable ASCII characters without \" and \\",
        TextForm::Order => "ORDERED or UNORDERED",
        TextForm::Path => "a path of ICS 24, as connections/connection-0",
        TextForm::Port => "a port of 2 to 128 letters, digits and . _ + - # [ ] < >",
        TextForm::Receiver => {
            "a receiver of 1 to 64 printable ASCII characters without \" and \\"
        }
        TextForm::User => "a user of 1 to 32 letters and digits",
        TextForm::Version => "a version of 1 to 32 letters, digits, - and .",
    }
}
