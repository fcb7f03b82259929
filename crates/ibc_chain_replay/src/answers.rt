//! What is stored of an event, and what is due.

ghost use Rattle.std.specs.Prelude.{◌≡◌, ◌↔◌, map, IsTrue};
ghost use Rattle.ibc_machine.specs.ledger.Ledgers.{chain_of, header_in};
ghost use Rattle.ibc_refinement.specs.Steps.{is_answered};
ghost use Rattle.ibc_replay.specs.Replays.{IsLastReading};

use ibc_ids::Refusal;
use ibc_ledger::StampedEntry;
use ibc_machine::{Event, Reading, Reply};
use ibc_replay::Answered;
use ibc_wire::{Header, Message};

/// Whether what is due is what is stored.
pub fn is_same(due: &Answered, stored: &Answered) -> bool
    ensures { IsTrue result ↔ (due.now ≡ stored.now) }
{
    is_same_reply(&due.reply, &stored.reply) && is_same_reading(due.reading, stored.reading)
}

fn is_same_reply(due: &Reply, stored: &Reply) -> bool
    ensures { IsTrue result ↔ (due.now ≡ stored.now) }
{
    due == stored
}

fn is_same_reading(due: Option<Reading>, stored: Option<Reading>) -> bool
    ensures { IsTrue result ↔ (due ≡ stored) }
{
    due == stored
}

/// Whether memory didn't run out.
pub fn is_answered(reply: &Reply) -> bool
    ensures { result ≡ is_answered reply.now }
{
    !matches!(reply, Reply::No(Refusal::NoMemory))
}

/// What was read for the last entry of a history.
pub fn last_in(history: &[StampedEntry]) -> Option<Reading>
    ensures { IsLastReading (map (λ e. e.entry) history.now) result }
{
    match history {
        [.., last] => last.entry.reading,
        [] => None,
    }
}

/// The number of an event's chain.
pub fn chain_of(event: &Event) -> u8
    ensures { result ≡ chain_of event.now }
{
    match event {
        Event::Message { chain, .. } => *chain,
        Event::Block { chain, .. } => *chain,
    }
}

/// The header that an event brings.
pub fn header_in(event: &Event) -> Option<Header>
    ensures { result ≡ header_in event.now }
{
    match event {
        Event::Message {
            message: Message::UpdateClient(update),
            ..
        } => Some(update.header),
        _ => None,
    }
}
