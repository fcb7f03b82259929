//! The notes that came to ledgers.

ghost use Rattle.std.specs.Prelude.{◌≡◌};
ghost use Rattle.ibc_calls.specs.CallAnswers.{Numbered};
ghost use Rattle.ibc_calls.specs.NoteReads.{FindsChannel, FindsNote, MakesNotes, TellsChannelCount, TellsNoteCount};
ghost use Rattle.ibc_c.specs.Codes.{NumbersFound};

use ibc_calls::number;
use ibc_handle::Handle;
use std::alloc::Global;

/// Makes the list of the notes that came to a ledger in an empty handle. As `make_notes`.
#[unsafe(no_mangle)]
pub extern "C" fn ibcw_make_notes(alloc: Global, ledger: &mut Handle, notes: &mut Handle) -> u32
    ensures kept { ledger.new.value ≡ ledger.old.value }
    ensures made { Numbered (MakesNotes ledger.old.value notes.old.value notes.new.value) result }
{
    number(ibc_calls::make_notes(alloc, ledger, notes))
}

/// Tells over how many channels notes came. As `note_channel_count`.
#[unsafe(no_mangle)]
pub extern "C" fn ibcw_note_channel_count(
    alloc: Global,
    notes: &mut Handle,
    chain: u64,
    count: &mut u64,
) -> u32
    ensures kept { notes.new.value ≡ notes.old.value }
    ensures told { Numbered (TellsChannelCount chain notes.old.value count.old count.new) result }
{
    number(ibc_calls::note_channel_count(alloc, notes, chain, count))
}

/// Writes the name of a channel over which notes came. As `note_channel`.
#[unsafe(no_mangle)]
pub extern "C" fn ibcw_note_channel(
    alloc: Global,
    notes: &mut Handle,
    chain: u64,
    channel: u64,
    name: &mut [u8],
    size: &mut usize,
) -> u32
    ensures kept { notes.new.value ≡ notes.old.value }
    ensures found { NumbersFound (FindsChannel chain channel notes.old.value) name.old name.new size.old size.new result }
{
    number(ibc_calls::note_channel(alloc, notes, chain, channel, name, size))
}

/// Tells how many notes came over a channel. As `note_count`.
#[unsafe(no_mangle)]
pub extern "C" fn ibcw_note_count(
    alloc: Global,
    notes: &mut Handle,
    chain: u64,
    channel: u64,
    count: &mut u64,
) -> u32
    ensures kept { notes.new.value ≡ notes.old.value }
    ensures told { Numbered (TellsNoteCount chain channel notes.old.value count.old count.new) result }
{
    number(ibc_calls::note_count(alloc, notes, chain, channel, count))
}

/// Writes a note that came over a channel. As `note`.
#[unsafe(no_mangle)]
pub extern "C" fn ibcw_note(
    alloc: Global,
    notes: &mut Handle,
    chain: u64,
    channel: u64,
    index: u64,
    text: &mut [u8],
    size: &mut usize,
) -> u32
    ensures kept { notes.new.value ≡ notes.old.value }
    ensures found { NumbersFound (FindsNote chain channel index notes.old.value) text.old text.new size.old size.new result }
{
    number(ibc_calls::note(alloc, notes, chain, channel, index, text, size))
}
