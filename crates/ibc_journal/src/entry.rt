//! The entries of a journal.

/// An entry of a journal: an event of a chain as bytes, what was answered to it as bytes, and the digest of all up to it, 32 bytes. The event
/// came by this place of a log, or by none where that is 0.
#[derive(Debug, Drop)]
pub struct JournalEntry {
    pub chain: u32,
    pub kind: u32,
    pub log_place: u32,
    pub event: Vec<u8>,
    pub answer: Vec<u8>,
    pub digest: Vec<u8>,
}
