//! What became of packets.

ghost use Rattle.std.specs.Prelude.{◌≡◌};
ghost use Rattle.ibc_ids.specs.Texts.{same_text};
ghost use Rattle.ibc_machine.specs.ics20.TokenData.{success};
ghost use Rattle.ibc_explain.specs.Outcomes.{ack_outcome, effect_outcome, entry_outcome};

use ibc_machine::{Effect, Entry, Event, Reply};
use ibc_wire::Message;
use serde_json::Value;
use std::alloc::{AllocError, Global};

/// The acknowledgement of a packet that the peer's application took (ICS 4, "Acknowledgement envelope").
const SUCCESS: &str = r#"{"result":"AQ=="}"#;

/// What became of a packet by an accepted message.
#[derive(Clone, Copy, Debug, PartialEq, Eq)]
pub enum PacketOutcome {
    /// The peer's application took it.
    Delivered,
    /// The peer's application refused it.
    Refused,
    /// It wasn't received in time.
    TimedOut,
}

/// What became of a packet by an entry, none where nothing did.
pub fn outcome_of(entry: &Entry) -> Option<PacketOutcome>
    ensures { result ≡ entry_outcome entry.now }
{
    match (&entry.event, &entry.reply) {
        (Event::Message { message, .. }, Reply::Ok(effect)) => effect_outcome(message, effect),
        _ => None,
    }
}

fn effect_outcome(message: &Message, effect: &Effect) -> Option<PacketOutcome>
    ensures { result ≡ effect_outcome message.now effect.now }
{
    match (message, effect) {
        (Message::RecvPacket(_), Effect::Ack(ack)) => Some(ack_outcome(ack.as_slice())),
        (Message::AckPacket(message), _) => Some(ack_outcome(message.ack.as_slice())),
        (Message::Timeout(_), _) => Some(PacketOutcome::TimedOut),
        (Message::TimeoutOnClose(_), _) => Some(PacketOutcome::TimedOut),
        _ => None,
    }
}

fn ack_outcome(ack: &[u8]) -> PacketOutcome
    ensures { result ≡ ack_outcome ack.now }
{
    if is_success(ack) {
        PacketOutcome::Delivered
    } else {
        PacketOutcome::Refused
    }
}

// Whether an acknowledgement says that the packet was taken.
fn is_success(ack: &[u8]) -> bool
    ensures { result ≡ same_text ack.now success }
{
    ack == SUCCESS.as_bytes()
}

/// Why a packet was refused, as its acknowledgement says; empty where it wasn't, and where it doesn't say.
pub fn reason_of(alloc: Global, entry: &Entry) -> Result<String, AllocError> {
    match (&entry.event, &entry.reply) {
        (_, Reply::Ok(Effect::Ack(ack))) => error_in(alloc, ack.as_slice()),
        (
            Event::Message {
                message: Message::AckPacket(message),
                ..
            },
            Reply::Ok(_),
        ) => error_in(alloc, message.ack.as_slice()),
        _ => Ok(String::new(alloc)),
    }
}

fn error_in(alloc: Global, ack: &[u8]) -> Result<String, AllocError> {
    match Value::from_slice(alloc, ack) {
        Ok(value) => {
            let reason = String::from_str(
                alloc,
                value.get("error").and_then(Value::as_str).unwrap_or(""),
            );
            drop(value);
            reason
        }
        Err(error) if error.is_memory() => Err(AllocError),
        Err(_) => Ok(String::new(alloc)),
    }
}
