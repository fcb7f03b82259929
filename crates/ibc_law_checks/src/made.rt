//! Which end of a channel an entry made.

ghost use Rattle.std.specs.Prelude.{◌≡◌};
ghost use Rattle.ibc_law_checks.specs.MadeEnds.{made_by, made_in, abstract_made};

use ibc_ids::{ChannelId, PortId};
use ibc_machine::{Effect, Entry, Event, Reply};
use ibc_wire::{Message, Order};

/// An end of a channel that was made: its port, its name, and its order.
#[derive(Clone, Copy)]
pub(crate) struct MadeEnd<'e> {
    pub port: &'e PortId,
    pub channel: &'e ChannelId,
    pub order: Order,
}

/// The end that an entry made (ICS 4, "chanOpenInit" and "chanOpenTry").
pub(crate) fn made_in(entry: &Entry) -> Option<MadeEnd<'_>>
    ensures { abstract_made result ≡ made_in entry.now }
{
    match (&entry.event, &entry.reply) {
        (Event::Message { message, .. }, Reply::Ok(effect)) => made_by(message, effect),
        _ => None,
    }
}

// The end that an accepted message made.
fn made_by<'e>(message: &'e Message, effect: &'e Effect) -> Option<MadeEnd<'e>>
    ensures { abstract_made result ≡ made_by message.now effect.now }
{
    match (message, effect) {
        (Message::ChanOpenInit(message), Effect::Channel(channel)) => Some(MadeEnd {
            port: &message.port,
            channel,
            order: message.order,
        }),
        (Message::ChanOpenTry(message), Effect::Channel(channel)) => Some(MadeEnd {
            port: &message.port,
            channel,
            order: message.order,
        }),
        _ => None,
    }
}
