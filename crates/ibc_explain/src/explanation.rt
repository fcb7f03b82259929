//! Entries of histories, explained.

ghost use Rattle.std.specs.Prelude.{◌≡◌, false, IfOk, Some};
ghost use Rattle.ibc_explain.specs.EntryLines.{entry_at};
ghost use Rattle.ibc_explain.specs.Explanations.{IsOf, IsToldBy};
ghost use Rattle.ibc_explain.specs.Packets.{is_receipt, is_received};

use crate::ends::end_of;
use crate::facts::brought_by;
use crate::outcome::reason_of;
use crate::places::{entry_at, event_kind};
use crate::tokens::tokens_of;
use crate::{EntryPlace, Facts, PacketOutcome, ScriptRun, facts_of, outcome_of};
use ibc_ids::Refusal;
use ibc_ledger::Ledger;
use ibc_machine::{Entry, Event, Reply};
use ibc_script::EventKind;
use ibc_token_data::TokenData;
use ibc_wire::{Message, Packet};
use std::alloc::Global;

/// An entry, and what is told of it: what it is about, the chain that sent its packet, the packet's tokens, what became of
/// the packet, and why it was refused.
#[derive(Drop)]
pub struct Explanation<'e> {
    pub place: EntryPlace,
    pub entry: &'e Entry,
    pub facts: Facts<'e>,
    pub sender: Option<u8>,
    pub tokens: Option<TokenData>,
    pub outcome: Option<PacketOutcome>,
    pub reason: String,
}

/// What is read of a packet: its tokens, and why it was refused.
#[derive(Drop)]
struct PacketTold {
    tokens: Option<TokenData>,
    reason: String,
}

impl Explanation<'_> {
    /// Whether the chain sent the packet that the entry is about.
    pub fn is_of_sender(&self) -> bool {
        self.sender == Some(self.place.chain)
    }

    /// The kind of the event.
    pub fn kind(&self) -> EventKind {
        event_kind(&self.entry.event)
    }

    /// Whether the event was accepted.
    pub fn is_ok(&self) -> bool {
        matches!(self.entry.reply, Reply::Ok(_))
    }
}

/// What is told of the entry at a place of a run's histories, none exactly where there is none. Refused: `NoMemory`.
pub fn explanation_of(
    alloc: Global,
    run: &ScriptRun,
    place: EntryPlace,
) -> Result<Option<Explanation<'_>>, Refusal>
    ensures { IfOk result (IsToldBy place (entry_at run.now.world.ledgers place)) }
{
    let world = &run.world;
    match entry_at(world, place) {
        Some(entry) => {
            let told = explained_entry(alloc, world.ledger(place.chain), place, entry)?;
            Ok(Some(told))
        }
        None => Ok(None),
    }
}

// What is told of an entry at a place of a ledger's history.
fn explained_entry<'e>(
    alloc: Global,
    ledger: Option<&Ledger>,
    place: EntryPlace,
    entry: &'e Entry,
) -> Result<Explanation<'e>, Refusal>
    ensures { IfOk result (IsOf place entry.now) }
{
    let sender = sender_of(alloc, ledger, place.chain, entry)?;
    let PacketTold { tokens, reason } = packet_told(alloc, ledger, entry)?;
    Ok(Explanation {
        place,
        entry,
        facts: facts_of(entry),
        sender,
        tokens,
        outcome: outcome_of(entry),
        reason,
    })
}

// What is read of the packet of an entry of a ledger.
fn packet_told(
    alloc: Global,
    ledger: Option<&Ledger>,
    entry: &Entry,
) -> Result<PacketTold, Refusal> {
    let tokens = match ledger {
        Some(ledger) => tokens_of(alloc, ledger, entry)?,
        None => None,
    };
    let reason = reason_of(alloc, entry)?;
    Ok(PacketTold { tokens, reason })
}

// The chain that sent the packet of an entry: the peer's of one that is received, and else the chain itself.
fn sender_of(
    alloc: Global,
    ledger: Option<&Ledger>,
    on: u8,
    entry: &Entry,
) -> Result<Option<u8>, Refusal>
    ensures { IfOk result (λ sender. is_receipt entry.now.event ≡ false → sender ≡ Some on) }
{
    if !is_receipt(&entry.event) {
        return Ok(Some(on));
    }
    match brought_by(entry) {
        Some(packet) => {
            let peer = peer_of(alloc, ledger, packet)?;
            Ok(peer)
        }
        None => Ok(None),
    }
}

// Whether an event is that a packet is received.
fn is_receipt(event: &Event) -> bool
    ensures { result ≡ is_receipt event.now }
{
    match event {
        Event::Message { message, .. } => is_received(message),
        Event::Block { .. } => false,
    }
}

fn is_received(message: &Message) -> bool
    ensures { result ≡ is_received message.now }
{
    match message {
        Message::RecvPacket(_) => true,
        _ => false,
    }
}

// The chain behind the end that a packet goes to.
fn peer_of(alloc: Global, ledger: Option<&Ledger>, packet: &Packet) -> Result<Option<u8>, Refusal> {
    let Some(ledger) = ledger else {
        return Ok(None);
    };
    let end = end_of(
        alloc,
        ledger,
        &packet.destination_port,
        &packet.destination_channel,
    )?;
    match end {
        Some(end) => {
            let peer = end.peer;
            drop(end);
            Ok(peer)
        }
        None => Ok(None),
    }
}
