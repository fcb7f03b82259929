//! The digests of a journal.

ghost use Rattle.std.specs.Prelude.{◌≡◌, [], IfOk};
ghost use Rattle.ibc_journal.specs.Digests.{first_digest};
ghost use Rattle.ibc_journal.specs.Entries.{item};
ghost use Rattle.ibc_calls.specs.Handles.{Finds, IsWritten};
ghost use Rattle.ibc_calls.specs.JournalDigests.{FindsDigest};

use crate::Refused;
use crate::handles::write_out;
use ibc_ids::Refusal;
use ibc_journal::{JournalEntry, digest_after};
use std::alloc::{AllocError, Global};

/// Writes the digest of a journal's beginning, of the genesis as the journal has it. Refused: `TooShort`.
pub fn first_digest(genesis: &[u8], digest: &mut [u8], size: &mut usize) -> Result<(), Refused>
    ensures { IsWritten (first_digest genesis.now) digest.old digest.new size.new result }
{
    let due = ibc_journal::first_digest(genesis);
    write_out(due.as_slice(), digest, size)
}

/// Writes the digest of an entry of a journal behind one with this digest. Its event came by this place of a log, or by none where that is 0.
/// Refused: `Core(BadMessage)` exactly where the digest before hasn't 32 bytes; `TooShort`; `Core(NoMemory)`.
#[tactic(auto, unfolding(crate::specs::Handles::Finds))]
pub fn next_digest(
    alloc: Global,
    before: &[u8],
    chain: u32,
    kind: u32,
    log_place: u32,
    event: &[u8],
    answer: &[u8],
    digest: &mut [u8],
    size: &mut usize,
) -> Result<(), Refused>
    ensures { Finds (FindsDigest before.now (record { chain = chain; kind = kind; log_place = log_place; event = event.now; answer = answer.now; digest = [] })) digest.old digest.new size.old size.new result }
{
    match due_digest(alloc, before, chain, kind, log_place, event, answer) {
        Ok(due) => write_out(due.as_slice(), digest, size),
        Err(refused) => Err(refused),
    }
}

fn due_digest(
    alloc: Global,
    before: &[u8],
    chain: u32,
    kind: u32,
    log_place: u32,
    event: &[u8],
    answer: &[u8],
) -> Result<[u8; 32], Refused>
    ensures { FindsDigest before.now (record { chain = chain; kind = kind; log_place = log_place; event = event.now; answer = answer.now; digest = [] }) result }
{
    let Ok(before) = <[u8; 32]>::try_from(before) else {
        return Err(Refused::Core(Refusal::BadMessage));
    };
    match entry_of(alloc, chain, kind, log_place, event, answer) {
        Ok(entry) => {
            let due = digest_after(&before, &entry);
            drop(entry);
            Ok(due)
        }
        Err(_) => Err(Refused::Core(Refusal::NoMemory)),
    }
}

// An entry of a journal, with no digest of its own.
fn entry_of(
    alloc: Global,
    chain: u32,
    kind: u32,
    log_place: u32,
    event: &[u8],
    answer: &[u8],
) -> Result<JournalEntry, AllocError>
    ensures { IfOk result (λ entry. item entry ≡ record { chain = chain; kind = kind; log_place = log_place; event = event.now; answer = answer.now; digest = [] }) }
{
    let event = Vec::from_slice(alloc, event)?;
    let answer = Vec::from_slice(alloc, answer)?;
    Ok(JournalEntry {
        chain,
        kind,
        log_place,
        event,
        answer,
        digest: Vec::new(alloc),
    })
}
