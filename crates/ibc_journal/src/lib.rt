//! A journal of what chains were asked and what they answered, in a SQLite file. What was put in is on the disk before the call
//! returns, and each entry has the digest of all up to it.
#![tactic(auto)]

mod adding;
mod beginning;
mod cursor;
mod digests;
mod entry;
mod fault;
mod looking;
mod opening;

pub use adding::append;
pub use beginning::begin;
pub use cursor::{Cursor, audit, end_at, entry_at, next};
pub use digests::{
    FORMAT, digest_after, entry_behind, first_digest, lemma_the_last_digest_tells_all,
};
pub use entry::JournalEntry;
pub use fault::JournalFault;
pub use looking::{Beginning, Looks, beginning_of, look};
pub use opening::open_journal;
