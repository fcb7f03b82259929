//! Headers.
use ibc_ids::Root;

/// A height of a chain with its time and root, as a message states them (ICS 2, "Header"). Heights count from 1.
#[derive(Clone, Copy, Debug, PartialEq, Eq, Drop)]
pub struct Header {
    pub chain: u8,
    pub height: u64,
    pub time: u64,
    pub root: Root,
}
