//! The digests of a journal: SHA-256 of the digest before and of the entry.

ghost use Rattle.std.specs.Prelude.{◌≡◌, IfOk};
ghost use Rattle.ibc_journal.specs.Entries.{item};
ghost use Rattle.ibc_journal.specs.Digests.{first_digest, digest_after, LastDigestTellsAll};

use crate::JournalEntry;
use sha2::{Digest, Sha256};
use std::alloc::{AllocError, Global};

/// The number of the format. It stands in the file and in the digest of the beginning.
pub const FORMAT: u32 = 1;

/// The digest of a beginning, on which that of the first entry stands.
pub fn first_digest(genesis: &[u8]) -> [u8; 32]
    ensures { result ≡ first_digest genesis.now }
{
    let mut hasher = Sha256::new();
    hasher.update(FORMAT.to_be_bytes().as_slice());
    hasher.update(genesis);
    hasher.finalize()
}

/// The digest that is due to an entry, behind an entry with this digest. What the entry has for its own isn't looked at.
pub fn digest_after(before: &[u8; 32], entry: &JournalEntry) -> [u8; 32]
    ensures { result ≡ digest_after before.now (item entry.now) }
{
    let mut hasher = Sha256::new();
    hasher.update(before.as_slice());
    hasher.update(entry.chain.to_be_bytes().as_slice());
    hasher.update(entry.kind.to_be_bytes().as_slice());
    hasher.update(entry.log_place.to_be_bytes().as_slice());
    hasher.update((entry.event.len() as u64).to_be_bytes().as_slice());
    hasher.update(entry.event.as_slice());
    hasher.update(entry.answer.as_slice());
    hasher.finalize()
}

/// An entry with the digest that is due to it behind an entry with this digest.
pub fn entry_behind(
    alloc: Global,
    before: &[u8; 32],
    chain: u32,
    kind: u32,
    log_place: u32,
    event: Vec<u8>,
    answer: Vec<u8>,
) -> Result<JournalEntry, AllocError>
    ensures due { IfOk result (λ entry. (item entry).digest ≡ digest_after before.now (item entry)) }
    ensures chain { IfOk result (λ entry. entry.chain ≡ chain) }
    ensures kind { IfOk result (λ entry. entry.kind ≡ kind) }
    ensures log_place { IfOk result (λ entry. entry.log_place ≡ log_place) }
    ensures event { IfOk result (λ entry. entry.event.items ≡ event.items) }
    ensures answer { IfOk result (λ entry. entry.answer.items ≡ answer.items) }
{
    let mut entry = JournalEntry {
        chain,
        kind,
        log_place,
        event,
        answer,
        digest: Vec::new(alloc),
    };
    let due = digest_after(before, &entry);
    entry.digest.extend_from_slice(due.as_slice())?;
    Ok(entry)
}

/// Two journals that began alike, with as many entries and the same last digest, have the same entries, or two different texts have one
/// digest.
pub fn lemma_the_last_digest_tells_all()
    ensures { LastDigestTellsAll }
{}
