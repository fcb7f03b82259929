//! What a ledger's history keeps.
use crate::{Event, Reply};

/// What an update of a client saw of the chain that the client tracks: its published height, and, where the
/// header's height was published, whether that height's row was still there.
#[derive(Clone, Copy, Debug, PartialEq, Eq, Drop)]
pub struct Reading {
    pub published: u64,
    pub row_was_there: Option<bool>,
}

/// One entry of a ledger's history: the event, the reply, and what was read where it was an update that looked.
#[derive(Drop, Debug)]
pub struct Entry {
    pub event: Event,
    pub reply: Reply,
    pub reading: Option<Reading>,
}
