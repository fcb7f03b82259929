//! What is forged in messages. A group of forgeries begins with a line `> KIND NUMBER: TITLE`, which names the message of a run
//! that is forged, by its kind and its number among those of that kind. Each line below is one forged message: changes with
//! `; ` between them, each `FIELD HOW`. A line `FIELD each byte` is a forged message for each byte of the field.

use crate::lines::Lines;
use crate::mistake::{Mistake, Unmade, Wrong, number_of, size_of};
use crate::spelled::SpelledMessage;
use ibc_ids::Key;
use ibc_script_cli::Chains;
use ibc_wire::{MessageKind, encode};
use std::alloc::{AllocError, Global};

/// Forgeries of one message.
#[derive(Clone, Copy)]
pub struct Group<'t> {
    kind: MessageKind,
    number: usize,
    pub title: &'t str,
    pub lines: Lines<'t>,
}

// The kind of messages that has this name.
fn kind_of(name: &str) -> Option<MessageKind> {
    for tag in 1..=u8::MAX {
        let kind = MessageKind::of_tag(tag)?;
        if kind.name() == name {
            return Some(kind);
        }
    }
    None
}

// What `> KIND NUMBER: TITLE` says, above these lines.
fn headed<'t>(head: &'t [u8], lines: Lines<'t>) -> Result<Group<'t>, Mistake> {
    let head = str::from_utf8(head).unwrap_or("");
    let words = head.strip_prefix("> ").unwrap_or("");
    let (name, rest) = words.split_once(' ').unwrap_or((words, ""));
    let Some(kind) = kind_of(name) else {
        return Err(Mistake::Kind);
    };
    let Some((number, title)) = rest.split_once(": ") else {
        return Err(Mistake::Number);
    };
    let number = size_of(number)?;
    Ok(Group {
        kind,
        number,
        title,
        lines,
    })
}

impl<'t> Group<'t> {
    /// The group that is a part. Error: the mistake of its first line.
    pub fn of(part: Lines<'t>) -> Result<Group<'t>, Wrong> {
        let Some((head, lines)) = part.split_first() else {
            return Err(Mistake::Kind.at(part.number));
        };
        match headed(head, lines) {
            Ok(group) => Ok(group),
            Err(mistake) => Err(mistake.at(part.number)),
        }
    }

    /// Whether it forges the message of this kind that has this number.
    pub fn is_of(&self, kind: MessageKind, number: usize) -> bool {
        self.kind == kind && self.number == number
    }

    /// The mistake that its message was never sent.
    pub fn unsent(&self) -> Wrong {
        Mistake::Unsent.at(self.lines.number.saturating_sub(1))
    }
}

/// What is proved: what a chain has at a key at a height.
#[derive(Drop)]
struct Proved {
    chain: u8,
    height: u64,
    key: Key,
}

impl Proved {
    // What `CHAIN HEIGHT PATH` says, where chains are called by letters from `a` on.
    fn of(alloc: Global, text: &str) -> Result<Proved, Unmade> {
        let Some((chain, rest)) = text.split_once(' ') else {
            return Err(Unmade::Mistake(Mistake::Change));
        };
        let Some((height, path)) = rest.split_once(' ') else {
            return Err(Unmade::Mistake(Mistake::Change));
        };
        let (chain, height) = (chain_of(chain)?, number_of(height)?);
        match Key::parse(alloc, path) {
            Ok(key) => Ok(Proved { chain, height, key }),
            Err(refusal) => Err(Unmade::of_text(refusal)),
        }
    }

    // The bytes of the proof. Not made where the chain has none.
    fn bytes<C: Chains>(&self, alloc: Global, chains: &C) -> Result<Vec<u8>, Unmade> {
        match chains.proof(self.chain, self.height, &self.key)? {
            Some(proof) => {
                let bytes = encode(alloc, &proof);
                drop(proof);
                Ok(bytes?)
            }
            None => Err(Unmade::Mistake(Mistake::Change)),
        }
    }
}

// The number of a chain that is called by its letter.
fn chain_of(name: &str) -> Result<u8, Mistake> {
    match name {
        "a" => Ok(0),
        "b" => Ok(1),
        "c" => Ok(2),
        _ => Err(Mistake::Change),
    }
}

// The bytes of the proof that is asked for.
fn proof<C: Chains>(alloc: Global, chains: &C, asked: &str) -> Result<Vec<u8>, Unmade> {
    let proved = Proved::of(alloc, asked)?;
    let bytes = proved.bytes(alloc, chains);
    drop(proved);
    bytes
}

/// The bytes, of which the one at a place is another. Not made where there is no such place, or no memory.
pub fn with_byte(alloc: Global, bytes: &[u8], place: usize) -> Result<Vec<u8>, Unmade> {
    let mut changed = bytes.to_vec(alloc)?;
    match changed.get_mut(place) {
        Some(byte) => {
            *byte ^= 1;
            Ok(changed)
        }
        None => Err(Unmade::Mistake(Mistake::Number)),
    }
}

// The bytes and one more.
fn longer(alloc: Global, bytes: &[u8]) -> Result<Vec<u8>, AllocError> {
    let mut longer = bytes.to_vec(alloc)?;
    longer.push(0)?;
    Ok(longer)
}

// What a field contains that is changed in this way, by its own bytes.
fn edited(alloc: Global, old: &[u8], how: &str) -> Result<Vec<u8>, Unmade> {
    match (how, old.split_last()) {
        ("empty", _) => Ok(Vec::new(alloc)),
        ("longer", _) => Ok(longer(alloc, old)?),
        ("shorter", Some((_, front))) => Ok(front.to_vec(alloc)?),
        _ => Err(Unmade::Mistake(Mistake::Change)),
    }
}

// What a field contains that is changed in this way: `is VALUE`, `proves CHAIN HEIGHT PATH`, `as FIELD`, `size NUMBER`, `byte
// NUMBER`, `longer`, `shorter` or `empty`.
fn content<C: Chains>(
    alloc: Global,
    chains: &C,
    honest: &SpelledMessage,
    field: &str,
    how: &str,
) -> Result<Vec<u8>, Unmade> {
    let old = honest.content(field)?;
    match how.split_once(' ') {
        Some(("is", value)) => honest.content_of(alloc, field, value),
        Some(("proves", asked)) => proof(alloc, chains, asked),
        Some(("size", size)) => Ok(vec![in alloc; 7; size_of(size)?]?),
        Some(("byte", place)) => with_byte(alloc, old, size_of(place)?),
        Some(("as", other)) => Ok(honest.content(other)?.to_vec(alloc)?),
        _ => edited(alloc, old, how),
    }
}

// A message with one change, `FIELD HOW`.
fn with_change<C: Chains>(
    alloc: Global,
    chains: &C,
    honest: &SpelledMessage,
    forged: &SpelledMessage,
    change: &str,
) -> Result<SpelledMessage, Unmade> {
    let (field, how) = change.split_once(' ').unwrap_or((change, ""));
    let content = content(alloc, chains, honest, field, how)?;
    let made = forged.with(alloc, field, content.as_slice());
    drop(content);
    made
}

/// A message with all changes of a line. Not made where one of them can't be, or there is no memory.
pub fn forged<C: Chains>(
    alloc: Global,
    chains: &C,
    honest: &SpelledMessage,
    line: &str,
) -> Result<SpelledMessage, Unmade> {
    let mut forged = honest.copy()?;
    for change in line.split("; ") {
        forged = with_change(alloc, chains, honest, &forged, change)?;
    }
    Ok(forged)
}
