//! The bytes of messages, of which fields are read and changed.

use crate::fields::{Form, fields_of};
use crate::mistake::{Mistake, Unmade};
use crate::wrong_bytes::Numbers;
use ibc_ids::Refusal;
use ibc_message_codec::{decode, encode};
use ibc_wire::{Message, MessageKind};
use std::alloc::{AllocError, Global};

/// A message as it is spelled.
#[derive(Drop)]
pub struct SpelledMessage {
    kind: MessageKind,
    bytes: Vec<u8>,
}

// Where a field stands: from its beginning, to its content, and to its end.
#[derive(Clone, Copy)]
struct FieldSpan {
    form: Form,
    start: usize,
    content: usize,
    end: usize,
}

// The place of a field of this form that begins here.
fn place_at(bytes: &[u8], form: Form, start: usize) -> FieldSpan {
    let (front, size) = match form {
        Form::Byte => (0, 1),
        Form::Number => (0, 8),
        Form::Root => (0, 32),
        Form::Text => (2, length_at(bytes, start)),
    };
    let content = start.saturating_add(front);
    FieldSpan {
        form,
        start,
        content,
        end: content.saturating_add(size),
    }
}

// The length that stands in two bytes.
fn length_at(bytes: &[u8], start: usize) -> usize {
    match (bytes.get(start), bytes.get(start.saturating_add(1))) {
        (Some(high), Some(low)) => usize::from(u16::from_be_bytes([*high, *low])),
        _ => 0,
    }
}

impl SpelledMessage {
    /// How a message is spelled. Refused: `NoMemory`, and `BadMessage` where it has no spelling.
    pub fn of(alloc: Global, message: &Message) -> Result<SpelledMessage, Refusal> {
        Ok(SpelledMessage {
            kind: message.kind(),
            bytes: encode(alloc, message)?,
        })
    }

    /// A copy. Refused: `NoMemory`.
    pub fn copy(&self) -> Result<SpelledMessage, Refusal> {
        Ok(SpelledMessage {
            kind: self.kind,
            bytes: self.bytes.clone()?,
        })
    }

    /// The message. Refused: `BadMessage` where the bytes spell none, and `NoMemory`.
    pub fn message(&self, alloc: Global) -> Result<Message, Refusal> {
        decode(alloc, self.bytes.as_slice())
    }

    // The place of a field, `None` where there is no such field.
    fn place(&self, field: &str) -> Option<FieldSpan> {
        let (front, back) = fields_of(self.kind);
        let mut start = 1;
        for (name, form) in front.iter().chain(back) {
            let place = place_at(self.bytes.as_slice(), *form, start);
            if *name == field {
                return Some(place);
            }
            start = place.end;
        }
        None
    }

    /// The content of a field. Error: there is no such field.
    pub fn content(&self, field: &str) -> Result<&[u8], Mistake> {
        match self.place(field) {
            Some(place) => Ok(self.bytes.get(place.content..place.end).unwrap_or(&[])),
            None => Err(Mistake::Field),
        }
    }

    /// What a field contains that is said by a text. Not made where there is no such field, or it contains no such thing, or there
    /// is no memory.
    pub fn content_of(&self, alloc: Global, field: &str, text: &str) -> Result<Vec<u8>, Unmade> {
        match self.place(field) {
            Some(place) => place.form.content_of(alloc, text),
            None => Err(Unmade::Mistake(Mistake::Field)),
        }
    }

    /// The same with another content of a field. Not made where there is no such field, or the content is too long for a text,
    /// or there is no memory.
    pub fn with(
        &self,
        alloc: Global,
        field: &str,
        content: &[u8],
    ) -> Result<SpelledMessage, Unmade> {
        match self.place(field) {
            Some(place) => self.with_at(alloc, place, content),
            None => Err(Unmade::Mistake(Mistake::Field)),
        }
    }

    /// The same with wrong bytes, `None` where none is. Error: no memory.
    pub fn spoilt(
        &self,
        alloc: Global,
        numbers: &mut Numbers,
    ) -> Result<Option<SpelledMessage>, AllocError> {
        match numbers.spoilt(alloc, self.bytes.as_slice())? {
            Some(bytes) => Ok(Some(SpelledMessage {
                kind: self.kind,
                bytes,
            })),
            None => Ok(None),
        }
    }

    // The same with another content at a place.
    fn with_at(
        &self,
        alloc: Global,
        place: FieldSpan,
        content: &[u8],
    ) -> Result<SpelledMessage, Unmade> {
        let front = self.bytes.get(..place.start).unwrap_or(&[]);
        let back = self.bytes.get(place.end..).unwrap_or(&[]);
        let bytes = match place.form {
            Form::Text => joined(alloc, &[front, &length_of(content)?, content, back])?,
            Form::Byte | Form::Number | Form::Root => joined(alloc, &[front, content, back])?,
        };
        Ok(SpelledMessage {
            kind: self.kind,
            bytes,
        })
    }
}

// The length that stands before a text.
fn length_of(content: &[u8]) -> Result<[u8; 2], Mistake> {
    match u16::try_from(content.len()) {
        Ok(length) => Ok(length.to_be_bytes()),
        Err(_) => Err(Mistake::Number),
    }
}

// These parts, one behind another.
fn joined(alloc: Global, parts: &[&[u8]]) -> Result<Vec<u8>, AllocError> {
    let mut bytes = Vec::new(alloc);
    for part in parts {
        bytes.extend_from_slice(part)?;
    }
    Ok(bytes)
}
