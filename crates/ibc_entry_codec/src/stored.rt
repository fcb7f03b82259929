//! An entry of a history as it is kept, and the entry that was kept.

ghost use Rattle.std.specs.Prelude.{◌≡◌, ◌⊎◌, ◌∷◌, [], IfOk, IfErr, IsErrOf, IsTrue};
ghost use Rattle.ibc_wire.specs.Fields.{be64, Spells, have_form};
ghost use Rattle.ibc_machine.specs.declared.event.Event.{Event};
ghost use Rattle.ibc_machine.specs.declared.entry.Entry.{Entry};
ghost use Rattle.ibc_machine.specs.ledger.Ledgers.{chain_of};
ghost use Rattle.ibc_entry_codec.specs.Answers.{answer_fields};
ghost use Rattle.ibc_entry_codec.specs.Times.{time_at_front};
ghost use Rattle.ibc_entry_codec.specs.Stored.{event_fields, event_kind, StoresEntry, HasForm, IsOfOneEntry};

use crate::answer::{EntryAnswer, write_reading, write_reply};
use ibc_ids::{Bytes, Refusal};
use ibc_machine::{Entry, Event, Reading, Reply};
use ibc_message_codec::{decode as decode_message, encode as encode_message};
use ibc_wire::fields::{read_n8, write_n8};
use ibc_wire::{Wire, decode, encode};
use std::alloc::Global;

/// An entry as it is kept. The kind is 0 for the end of a block, whose event is the time of the next one in 8 bytes, and 1 for a
/// message, whose event is its bytes. The answer is the reply, and behind it what was read.
#[derive(Debug, PartialEq, Eq, Drop)]
pub struct EntryBytes {
    pub chain: u8,
    pub kind: u8,
    pub event: Bytes,
    pub answer: Bytes,
}

/// What is kept of an entry. Refused: `BadMessage` exactly for an entry outside its form; `NoMemory`.
pub fn store(alloc: Global, entry: &Entry) -> Result<EntryBytes, Refusal>
    ensures ok { IfOk result (StoresEntry entry.now) }
    ensures bad { IsErrOf result Refusal.BadMessage → ¬ HasForm entry.now }
    ensures errors { IfErr result (λ e. (e ≡ Refusal.BadMessage) ⊎ (e ≡ Refusal.NoMemory)) }
{
    let event = event_bytes(alloc, &entry.event)?;
    match answer_bytes(alloc, &entry.reply, &entry.reading) {
        Ok(answer) => Ok(EntryBytes {
            chain: chain_of(&entry.event),
            kind: kind_of(&entry.event),
            event,
            answer,
        }),
        Err(refusal) => {
            drop(event);
            Err(refusal)
        }
    }
}

/// The entry that is kept. Refused: `BadMessage` only where no entry is kept so; `NoMemory`.
pub fn restore(alloc: Global, stored: &EntryBytes) -> Result<Entry, Refusal>
    ensures ok { IfOk result (λ entry. StoresEntry entry stored.now) }
    ensures bad { IsErrOf result Refusal.BadMessage → (entry : Entry) → ¬ StoresEntry entry stored.now }
    ensures errors { IfErr result (λ e. (e ≡ Refusal.BadMessage) ⊎ (e ≡ Refusal.NoMemory)) }
{
    let answer = decode::<EntryAnswer>(alloc, stored.answer.as_slice())?;
    match read_event(alloc, stored.chain, stored.kind, stored.event.as_slice()) {
        Ok(event) => Ok(entry_of(event, answer)),
        Err(refusal) => {
            drop(answer);
            Err(refusal)
        }
    }
}

/// What is kept is kept for one entry.
pub fn lemma_bytes_are_of_one_entry()
    ensures { IsOfOneEntry }
{}

// An event and its answer as one entry.
fn entry_of(event: Event, answer: EntryAnswer) -> Entry
    ensures { result ≡ record { event = event; reply = answer.reply; reading = answer.reading } }
{
    let EntryAnswer { reply, reading } = answer;
    Entry {
        event,
        reply,
        reading,
    }
}

// The bytes of an answer.
fn answer_bytes(alloc: Global, reply: &Reply, reading: &Option<Reading>) -> Result<Bytes, Refusal>
    ensures ok { IfOk result (λ bytes. Spells (answer_fields (record { reply = reply.now; reading = reading.now })) bytes) }
    ensures bad { IsErrOf result Refusal.BadMessage → ¬ IsTrue (have_form (answer_fields (record { reply = reply.now; reading = reading.now }))) }
    ensures errors { IfErr result (λ e. (e ≡ Refusal.BadMessage) ⊎ (e ≡ Refusal.NoMemory)) }
{
    let mut bytes = Vec::new(alloc);
    write_reply(&mut bytes, reply)?;
    write_reading(&mut bytes, reading)?;
    Ok(Bytes::from_vec(bytes))
}

// The bytes of an event, beside its chain and kind.
fn event_bytes(alloc: Global, event: &Event) -> Result<Bytes, Refusal>
    ensures ok { IfOk result (λ bytes. Spells (event_fields event.now) bytes) }
    ensures bad { IsErrOf result Refusal.BadMessage → ¬ IsTrue (have_form (event_fields event.now)) }
    ensures errors { IfErr result (λ e. (e ≡ Refusal.BadMessage) ⊎ (e ≡ Refusal.NoMemory)) }
{
    match event {
        Event::Message { message, .. } => Ok(Bytes::from_vec(encode_message(alloc, message)?)),
        Event::Block { next_time, .. } => {
            let time = NextTime {
                next_time: *next_time,
            };
            Ok(Bytes::from_vec(encode(alloc, &time)?))
        }
    }
}

// The event of a chain that has this kind and these bytes.
fn read_event(alloc: Global, chain: u8, kind: u8, bytes: &[u8]) -> Result<Event, Refusal>
    ensures ok { IfOk result (λ event. (chain ≡ chain_of event) × (kind ≡ event_kind event) × Spells (event_fields event) bytes.now) }
    ensures bad { IsErrOf result Refusal.BadMessage → (event : Event) → kind ≡ event_kind event → ¬ Spells (event_fields event) bytes.now }
    ensures errors { IfErr result (λ e. (e ≡ Refusal.BadMessage) ⊎ (e ≡ Refusal.NoMemory)) }
{
    match kind {
        0 => {
            let time = decode::<NextTime>(alloc, bytes)?;
            Ok(Event::Block {
                chain,
                next_time: time.next_time,
            })
        }
        1 => {
            let message = decode_message(alloc, bytes)?;
            Ok(Event::Message { chain, message })
        }
        _ => Err(Refusal::BadMessage),
    }
}

// The number of an event's chain.
fn chain_of(event: &Event) -> u8
    ensures { result ≡ chain_of event.now }
{
    match event {
        Event::Message { chain, .. } => *chain,
        Event::Block { chain, .. } => *chain,
    }
}

// The number of an event's kind.
fn kind_of(event: &Event) -> u8
    ensures { result ≡ event_kind event.now }
{
    match event {
        Event::Block { .. } => 0,
        Event::Message { .. } => 1,
    }
}

// The time at which a block begins, as the end of the one before names it.
#[derive(Debug, Drop)]
struct NextTime {
    next_time: u64,
}

impl Wire for NextTime {
    ghost fields = { λ time. be64 time.next_time ∷ [] };

    ghost front = { time_at_front };

    #[tactic(auto, unfolding(crate::specs::Times::time_at_front))]
    fn read(_alloc: Global, bytes: &[u8]) -> Result<(NextTime, &[u8]), Refusal> {
        let (next_time, rest) = read_n8(bytes)?;
        Ok((NextTime { next_time }, rest))
    }

    fn write(&self, out: &mut Vec<u8>) -> Result<(), Refusal> {
        write_n8(out, self.next_time)
    }

    #[tactic(auto, using(crate::proofs::StoredEntries::time_reader))]
    fn lemma_reads_what_is_spelled() {}
}
