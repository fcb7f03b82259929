//! The notes of a chain, as the application of port `note`.

ghost use Rattle.std.specs.Prelude.{◌≡◌, codes, [], List, map, Ok, OnOk, OnErr, IfOk, IsOkUnless};
ghost use Rattle.std.specs.Option.{unwrap_or};
ghost use Rattle.ibc_ids.specs.Texts.{Text, same_text, text_cmp};
ghost use Rattle.ibc_ids.specs.Maps.{at};
ghost use Rattle.ibc_ids.specs.declared.refusal.Refusal.TheVariants.{NoMemory};
ghost use Rattle.ibc_machine.specs.chain.Notes.{note_port, opens_for_notes, closes_for_notes, receive_note};
ghost use Rattle.ibc_note.specs.Laws.{notes_open_or_refuse, notes_write_sized_acks};
ghost use Rattle.ibc_note.specs.AbstractNotes.{abstract_notes};
ghost use Rattle.ibc_note.specs.NoteHandlers.{AddsNote};

use crate::list::NoteList;
use ibc_ids::{Bytes, ChannelId, PortId, Refusal, Version};
use ibc_records::App;
use ibc_wire::{Order, Packet};
use std::alloc::{AllocError, Global};
use std::collections::BTreeMap;
use std::marker::Model;

/// The notes that came over each channel, in the order in which they came.
#[derive(Drop)]
pub struct Notes {
    notes: BTreeMap<ChannelId, NoteList>,
    alloc: Global,
}

impl Model for Notes {
    ghost use Rattle.std.specs.Prelude.{List};
    ghost use Rattle.ibc_ids.specs.Maps.{Map};
    ghost use Rattle.ibc_ids.specs.Texts.{Text};

    ghost Value = { Map Text (List Text) };

    ghost view = { λ app. app.notes.entries };
}

impl Notes {
    /// No note over any channel.
    pub fn new(alloc: Global) -> Notes
        ensures { result ≡ [] }
    {
        Notes {
            notes: BTreeMap::new(alloc),
            alloc,
        }
    }

    /// The notes that came over a channel, none where none came. Takes no memory.
    pub fn notes(&self, channel: &ChannelId) -> &[Bytes]
        ensures { result.now ≡ unwrap_or (at text_cmp channel.now self.now) [] }
    {
        match self.notes.get(channel) {
            Some(list) => list.as_slice(),
            None => &[],
        }
    }

    /// The notes of each channel over which one came, in the byte order of the channels' names.
    pub fn all(&self, alloc: Global) -> Result<Vec<(ChannelId, Vec<Bytes>)>, AllocError>
        ensures { IfOk result (λ all. map abstract_notes all.items ≡ self.now) }
    {
        let mut all = Vec::with_capacity(alloc, self.notes.len())?;
        for (channel, list) in &self.notes {
            all.push((channel.clone()?, list.to_vec()?))?;
        }
        Ok(all)
    }

    // A note joins those of its channel.
    fn add(&mut self, channel: &ChannelId, note: Bytes) -> Result<(), Refusal>
        ensures ok { OnOk result (AddsNote channel.now note self.old self.new) }
        ensures err { IsOkUnless result NoMemory }
        ensures unchanged { OnErr result (self.new ≡ self.old) }
    {
        if let Some(list) = self.notes.get_mut(channel) {
            return Ok(list.push(note)?);
        }
        let mut list = NoteList::new(self.alloc);
        list.push(note)?;
        self.notes.insert(channel.clone()?, list)?;
        Ok(())
    }
}

impl App for Notes {
    ghost opens = { opens_for_notes };

    ghost closes = { closes_for_notes };

    ghost receives = { λ notes version packet. receive_note notes packet };

    ghost is_acknowledged = { λ notes version packet ack. Ok notes };

    ghost times_out = { λ notes version packet. Ok notes };

    #[tactic(auto, unfolding(ibc_machine::specs::chain::Checks::and_then))]
    fn on_open(&self, order: Order, version: &Version) -> Result<(), Refusal> {
        if order != Order::Ordered {
            return Err(Refusal::WrongOrder);
        }
        if !is_note_version(version) {
            return Err(Refusal::WrongVersion);
        }
        Ok(())
    }

    fn on_close(&self) -> Result<(), Refusal> {
        Ok(())
    }

    fn on_recv(&mut self, _version: &Version, packet: &Packet) -> Result<Bytes, Refusal> {
        let ack = Bytes::copy_of(self.alloc, br#"{"result":"AQ=="}"#)?;
        let note = packet.payload.clone()?;
        self.add(&packet.destination_channel, note)?;
        Ok(ack)
    }

    fn on_ack(&mut self, _version: &Version, _packet: &Packet, _ack: &[u8]) -> Result<(), Refusal> {
        Ok(())
    }

    fn on_timeout(&mut self, _version: &Version, _packet: &Packet) -> Result<(), Refusal> {
        Ok(())
    }

    ghost opens_or_refuses = { notes_open_or_refuse };

    ghost closes_or_refuses = { tt };

    ghost writes_sized_acks = { λ notes version packet. notes_write_sized_acks notes packet };

    ghost is_acknowledged_or_poor = { λ notes version packet ack. tt };

    ghost times_out_or_poor = { λ notes version packet. tt };
}

/// Whether a port is this application's, `note`.
pub fn is_note_port(port: &PortId) -> bool
    ensures { result ≡ same_text port.now note_port }
{
    port.as_str() == "note"
}

// Whether a channel's version is the one of notes.
fn is_note_version(version: &Version) -> bool
    ensures { result ≡ same_text version.now (codes "note-1") }
{
    version.as_str() == "note-1"
}
