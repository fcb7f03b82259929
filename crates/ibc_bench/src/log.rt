//! The entries of a run, as they are stored and read again.

use crate::run_error::RunError;
use ibc_machine::{Entry, Event, Reading, Reply};
use ibc_message_codec::{decode, encode};
use std::alloc::Global;

/// An event as it is stored: a message by its bytes.
#[derive(Drop)]
pub enum StoredEvent {
    Message { chain: u8, bytes: Vec<u8> },
    Block { chain: u8, next_time: u64 },
}

/// An entry as it is stored.
#[derive(Drop)]
pub struct StoredEntry {
    pub event: StoredEvent,
    pub reply: Reply,
    pub reading: Option<Reading>,
}

impl StoredEvent {
    /// An event as it is stored. Refused: `NoMemory`, and `BadMessage` where a message has no bytes.
    pub fn of(alloc: Global, event: &Event) -> Result<StoredEvent, RunError> {
        match event {
            Event::Message { chain, message } => Ok(StoredEvent::Message {
                chain: *chain,
                bytes: encode(alloc, message)?,
            }),
            Event::Block { chain, next_time } => Ok(StoredEvent::Block {
                chain: *chain,
                next_time: *next_time,
            }),
        }
    }

    // The event that is stored.
    fn read(&self, alloc: Global) -> Result<Event, RunError> {
        match self {
            StoredEvent::Message { chain, bytes } => Ok(Event::Message {
                chain: *chain,
                message: decode(alloc, bytes.as_slice())?,
            }),
            StoredEvent::Block { chain, next_time } => Ok(Event::Block {
                chain: *chain,
                next_time: *next_time,
            }),
        }
    }
}

impl StoredEntry {
    // The entry that is stored.
    fn read(&self, alloc: Global) -> Result<Entry, RunError> {
        let reply: Reply = self.reply.clone()?;
        match self.event.read(alloc) {
            Ok(event) => Ok(Entry {
                reply,
                event,
                reading: self.reading,
            }),
            Err(error) => {
                drop(reply);
                Err(error)
            }
        }
    }
}

/// The entries that are stored.
pub fn read_entries(alloc: Global, stored: &[StoredEntry]) -> Result<Vec<Entry>, RunError> {
    let mut entries = Vec::with_capacity(alloc, stored.len())?;
    match push_entries(alloc, &mut entries, stored) {
        Ok(()) => Ok(entries),
        Err(error) => {
            drop(entries);
            Err(error)
        }
    }
}

// Adds those that are stored to others.
fn push_entries(
    alloc: Global,
    entries: &mut Vec<Entry>,
    stored: &[StoredEntry],
) -> Result<(), RunError> {
    for entry in stored {
        entries.push(entry.read(alloc)?)?;
    }
    Ok(())
}
