//! The notes that came over channels of port `note`, one after another.

ghost use Rattle.std.specs.Prelude.{◌≡◌, Ok, Err, None, Some, IfOk, IfErr};
ghost use Rattle.ibc_calls.specs.Handles.{Finds};
ghost use Rattle.ibc_calls.specs.NoteReads.{AreNotesOf, FindsChannel, FindsNote, IsFound, MakesNotes, TellsChannelCount, TellsNoteCount, channels_at, name_in, note_in, notes_at};

use crate::Refused;
use crate::handles::{give, put_new};
use ibc_handle::{Handle, HandleValue};
use ibc_ids::{Bytes, ChannelId, Refusal};
use std::alloc::Global;

/// Makes the list of the notes that came to a ledger, as its working block has them, in a handle that holds nothing: of each channel
/// over which one came, the channels in the byte order of their names. Refused, by the first check that fails: `Full`; `Empty`
/// and `OtherKind` where the first handle holds no ledger; `Core(NoMemory)`.
#[tactic(auto, unfolding(crate::specs::NoteReads::MakesNotes))]
pub fn make_notes(alloc: Global, ledger: &mut Handle, notes: &mut Handle) -> Result<(), Refused>
    ensures kept { ledger.new.value ≡ ledger.old.value }
    ensures made { MakesNotes ledger.old.value notes.old.value notes.new.value result }
{
    if !notes.is_empty(alloc) {
        return Err(Refused::Full);
    }
    match ledger.take(alloc) {
        None => Err(Refused::Empty),
        Some(held) => {
            let answer = notes_of(alloc, &held, notes);
            ledger.set(alloc, held);
            answer
        }
    }
}

fn notes_of(alloc: Global, held: &HandleValue, notes: &mut Handle) -> Result<(), Refused>
    requires { notes.old.value ≡ None }
    ensures { AreNotesOf (Some held.now) notes.new.value result }
{
    match held {
        HandleValue::Ledger(member) => match member.ledger.all_notes() {
            Ok(list) => put_new(alloc, notes, HandleValue::Notes(list)),
            Err(refusal) => Err(Refused::Core(refusal)),
        },
        _ => Err(Refused::OtherKind),
    }
}

/// Writes the name of a channel over which notes came. It is the channel at an index, from 0 on, of a list of notes, for which the
/// chain is not looked at; or of an audit, at an index of a chain's channels. Refused: `Empty`; `OtherKind`;
/// `Core(UnknownChain)` where the audit has no such chain; `NothingThere` where there is no such channel; `TooShort`;
/// `Core(NoMemory)`.
#[tactic(auto, unfolding(crate::specs::Handles::Finds))]
pub fn note_channel(
    alloc: Global,
    notes: &mut Handle,
    chain: u64,
    channel: u64,
    name: &mut [u8],
    size: &mut usize,
) -> Result<(), Refused>
    ensures kept { notes.new.value ≡ notes.old.value }
    ensures found { Finds (FindsChannel chain channel notes.old.value) name.old name.new size.old size.new result }
{
    give(name_found(alloc, notes, chain, channel), name, size)
}

#[tactic(auto, unfolding(crate::specs::NoteReads::FindsChannel, crate::specs::NoteReads::notes_at, crate::specs::NoteReads::channels_at))]
fn name_found(alloc: Global, notes: &mut Handle, chain: u64, channel: u64) -> Result<Bytes, Refused>
    ensures kept { notes.new.value ≡ notes.old.value }
    ensures found { FindsChannel chain channel notes.old.value result }
{
    match notes.take(alloc) {
        None => Err(Refused::Empty),
        Some(held) => {
            let found = name_at(alloc, &held, chain, channel);
            notes.set(alloc, held);
            found
        }
    }
}

fn name_at(alloc: Global, held: &HandleValue, chain: u64, channel: u64) -> Result<Bytes, Refused>
    ensures { IsFound (name_in (notes_at chain channel (Some held.now))) result }
{
    match notes_in(held, chain, channel) {
        Ok(notes) => copy_of(alloc, notes.0.as_str().as_bytes()),
        Err(refused) => Err(refused),
    }
}

// A copy of bytes. Refused: `Core(NoMemory)`.
fn copy_of(alloc: Global, bytes: &[u8]) -> Result<Bytes, Refused>
    ensures { IsFound (Ok bytes.now) result }
{
    match Bytes::copy_of(alloc, bytes) {
        Ok(copy) => Ok(copy),
        Err(_) => Err(Refused::Core(Refusal::NoMemory)),
    }
}

// The channel at an index of a list of notes; of an audit, at an index of a chain's.
#[tactic(auto, unfolding(crate::specs::NoteReads::notes_at))]
fn notes_in(
    held: &HandleValue,
    chain: u64,
    channel: u64,
) -> Result<&(ChannelId, Vec<Bytes>), Refused>
    ensures ok { IfOk result (λ notes. notes_at chain channel (Some held.now) ≡ Ok notes.now) }
    ensures err { IfErr result (λ refused. notes_at chain channel (Some held.now) ≡ Err refused) }
{
    match channels_in(held, chain) {
        Ok(list) => match list.get(channel as usize) {
            Some(notes) => Ok(notes),
            None => Err(Refused::NothingThere),
        },
        Err(refused) => Err(refused),
    }
}

// The channels of a list of notes; of an audit, those of a chain.
#[tactic(auto, unfolding(crate::specs::NoteReads::channels_at))]
fn channels_in(held: &HandleValue, chain: u64) -> Result<&[(ChannelId, Vec<Bytes>)], Refused>
    ensures ok { IfOk result (λ list. channels_at chain (Some held.now) ≡ Ok list.now) }
    ensures err { IfErr result (λ refused. channels_at chain (Some held.now) ≡ Err refused) }
{
    match held {
        HandleValue::Notes(list) => Ok(list.as_slice()),
        HandleValue::Audit(audit) => match audit.notes.get(chain as usize) {
            Some(list) => Ok(list.as_slice()),
            None => Err(Refused::Core(Refusal::UnknownChain)),
        },
        _ => Err(Refused::OtherKind),
    }
}

/// Tells how many channels a list of notes has, for which the chain is not looked at; or of an audit, over how many of a chain's
/// channels notes came. Refused: `Empty`; `OtherKind`; `Core(UnknownChain)` where the audit has no such chain. Then nothing is
/// told.
#[tactic(auto, unfolding(crate::specs::NoteReads::TellsChannelCount, crate::specs::NoteReads::channels_at))]
pub fn note_channel_count(
    alloc: Global,
    notes: &mut Handle,
    chain: u64,
    count: &mut u64,
) -> Result<(), Refused>
    ensures kept { notes.new.value ≡ notes.old.value }
    ensures told { TellsChannelCount chain notes.old.value count.old count.new result }
{
    match notes.take(alloc) {
        None => Err(Refused::Empty),
        Some(held) => {
            let answer = channel_count_at(&held, chain, count);
            notes.set(alloc, held);
            answer
        }
    }
}

#[tactic(auto, unfolding(crate::specs::NoteReads::TellsChannelCount))]
fn channel_count_at(held: &HandleValue, chain: u64, count: &mut u64) -> Result<(), Refused>
    ensures { TellsChannelCount chain (Some held.now) count.old count.new result }
{
    match channels_in(held, chain) {
        Ok(list) => {
            *count = list.len() as u64;
            Ok(())
        }
        Err(refused) => Err(refused),
    }
}

/// Tells how many notes came over a channel, which stands as `note_channel` says. Refused: `Empty`; `OtherKind`;
/// `Core(UnknownChain)`; `NothingThere`. Then nothing is told.
#[tactic(auto, unfolding(crate::specs::NoteReads::TellsNoteCount, crate::specs::NoteReads::notes_at, crate::specs::NoteReads::channels_at))]
pub fn note_count(
    alloc: Global,
    notes: &mut Handle,
    chain: u64,
    channel: u64,
    count: &mut u64,
) -> Result<(), Refused>
    ensures kept { notes.new.value ≡ notes.old.value }
    ensures told { TellsNoteCount chain channel notes.old.value count.old count.new result }
{
    match notes.take(alloc) {
        None => Err(Refused::Empty),
        Some(held) => {
            let answer = count_at(&held, chain, channel, count);
            notes.set(alloc, held);
            answer
        }
    }
}

#[tactic(auto, unfolding(crate::specs::NoteReads::TellsNoteCount))]
fn count_at(held: &HandleValue, chain: u64, channel: u64, count: &mut u64) -> Result<(), Refused>
    ensures { TellsNoteCount chain channel (Some held.now) count.old count.new result }
{
    match notes_in(held, chain, channel) {
        Ok(notes) => {
            *count = notes.1.len() as u64;
            Ok(())
        }
        Err(refused) => Err(refused),
    }
}

/// Writes the note at an index, from 0 on, of those that came over a channel, in the order in which they came; the channel stands as
/// `note_channel` says. Refused: `Empty`; `OtherKind`; `Core(UnknownChain)`; `NothingThere` where there is no such channel or no
/// such note; `TooShort`; `Core(NoMemory)`.
#[tactic(auto, unfolding(crate::specs::Handles::Finds))]
pub fn note(
    alloc: Global,
    notes: &mut Handle,
    chain: u64,
    channel: u64,
    index: u64,
    text: &mut [u8],
    size: &mut usize,
) -> Result<(), Refused>
    ensures kept { notes.new.value ≡ notes.old.value }
    ensures found { Finds (FindsNote chain channel index notes.old.value) text.old text.new size.old size.new result }
{
    give(note_found(alloc, notes, chain, channel, index), text, size)
}

#[tactic(auto, unfolding(crate::specs::NoteReads::FindsNote, crate::specs::NoteReads::notes_at, crate::specs::NoteReads::channels_at))]
fn note_found(
    alloc: Global,
    notes: &mut Handle,
    chain: u64,
    channel: u64,
    index: u64,
) -> Result<Bytes, Refused>
    ensures kept { notes.new.value ≡ notes.old.value }
    ensures found { FindsNote chain channel index notes.old.value result }
{
    match notes.take(alloc) {
        None => Err(Refused::Empty),
        Some(held) => {
            let found = note_at(alloc, &held, chain, channel, index);
            notes.set(alloc, held);
            found
        }
    }
}

fn note_at(
    alloc: Global,
    held: &HandleValue,
    chain: u64,
    channel: u64,
    index: u64,
) -> Result<Bytes, Refused>
    ensures { IsFound (note_in index (notes_at chain channel (Some held.now))) result }
{
    match notes_in(held, chain, channel) {
        Ok(notes) => match notes.1.get(index as usize) {
            Some(note) => copy_of(alloc, note.as_slice()),
            None => Err(Refused::NothingThere),
        },
        Err(refused) => Err(refused),
    }
}
