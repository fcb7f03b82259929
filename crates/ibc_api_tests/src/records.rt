//! What stands in plain and at the paths of records after each change.

use ibc_records::Records;
use std::alloc::Global;
use std::process::Abort;

mod channels;
mod clients;
mod packets;
mod texts;

// The records of a new chain, with a window of two heights.
fn new_records(rt: &impl Abort, alloc: Global) -> Records {
    Records::new(alloc, 2, 100).expect(rt, "memory")
}

// These bytes stand at the path.
fn has(records: &Records, path: &str, value: &[u8]) -> bool {
    records.value(path) == Some(value)
}
