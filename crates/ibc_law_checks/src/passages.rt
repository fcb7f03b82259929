//! Which packet an accepted message moves.

ghost use Rattle.std.specs.Prelude.{option_copied};
ghost use Rattle.ibc_law_checks.specs.Passages.{IsReceivedBy, IsAcknowledgedBy, IsTimedOutBy};

use ibc_wire::{Message, Packet};

/// The packet that a message receives, where it is accepted (ICS 4, "recvPacket").
pub fn received_by(message: &Message) -> Option<&Packet>
    ensures { IsReceivedBy message.now (option_copied result) }
{
    match message {
        Message::RecvPacket(message) => Some(&message.packet),
        _ => None,
    }
}

/// The packet that a message acknowledges, where it is accepted (ICS 4, "acknowledgePacket").
pub fn acknowledged_by(message: &Message) -> Option<&Packet>
    ensures { IsAcknowledgedBy message.now (option_copied result) }
{
    match message {
        Message::AckPacket(message) => Some(&message.packet),
        _ => None,
    }
}

/// The packet that a message times out, also on close, where it is accepted (ICS 4, "timeoutPacket", "timeoutOnClose").
pub fn timed_out_by(message: &Message) -> Option<&Packet>
    ensures { IsTimedOutBy message.now (option_copied result) }
{
    match message {
        Message::Timeout(message) => Some(&message.packet),
        Message::TimeoutOnClose(message) => Some(&message.packet),
        _ => None,
    }
}
