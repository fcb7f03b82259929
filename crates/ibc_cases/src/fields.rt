//! The fields of messages in the order in which they are spelled, behind the message's tag.

use crate::mistake::{Unmade, byte_of, number_of};
use ibc_wire::MessageKind;
use std::alloc::Global;

/// How a field is spelled.
#[derive(Clone, Copy)]
pub enum Form {
    /// A number of one byte.
    Byte,
    /// A number of 8 bytes.
    Number,
    /// A root, 32 bytes.
    Root,
    /// A text behind its length, in two bytes.
    Text,
}

impl Form {
    /// What such a field contains that is said by a text: a number, 32 bytes of a number, or the text itself. Not made where
    /// the text is no such number, or there is no memory.
    pub fn content_of(self, alloc: Global, text: &str) -> Result<Vec<u8>, Unmade> {
        match self {
            Form::Byte => Ok([byte_of(text)?].to_vec(alloc)?),
            Form::Number => Ok(number_of(text)?.to_be_bytes().to_vec(alloc)?),
            Form::Root => Ok([byte_of(text)?; 32].to_vec(alloc)?),
            Form::Text => Ok(text.as_bytes().to_vec(alloc)?),
        }
    }
}

/// A field: its name, and how it is spelled.
pub type FieldForm = (&'static str, Form);

const PACKET: &[FieldForm] = &[
    ("sequence", Form::Number),
    ("timeout_height", Form::Number),
    ("timeout_time", Form::Number),
    ("source_port", Form::Text),
    ("source_channel", Form::Text),
    ("destination_port", Form::Text),
    ("destination_channel", Form::Text),
    ("data", Form::Text),
];

const UPDATE_CLIENT: &[FieldForm] = &[
    ("client", Form::Text),
    ("chain", Form::Byte),
    ("height", Form::Number),
    ("time", Form::Number),
    ("root", Form::Root),
];

const CONN_OPEN_TRY: &[FieldForm] = &[
    ("client", Form::Text),
    ("peer_client", Form::Text),
    ("peer_connection", Form::Text),
    ("claimed_chain", Form::Byte),
    ("claimed_height", Form::Number),
    ("height", Form::Number),
    ("proof_end", Form::Text),
    ("proof_client", Form::Text),
];

const CONN_OPEN_ACK: &[FieldForm] = &[
    ("connection", Form::Text),
    ("peer_connection", Form::Text),
    ("claimed_chain", Form::Byte),
    ("claimed_height", Form::Number),
    ("height", Form::Number),
    ("proof_end", Form::Text),
    ("proof_client", Form::Text),
];

const CONN_OPEN_CONFIRM: &[FieldForm] = &[
    ("connection", Form::Text),
    ("height", Form::Number),
    ("proof", Form::Text),
];

const CHAN_OPEN_TRY: &[FieldForm] = &[
    ("port", Form::Text),
    ("order", Form::Byte),
    ("connection", Form::Text),
    ("peer_port", Form::Text),
    ("peer_channel", Form::Text),
    ("version", Form::Text),
    ("height", Form::Number),
    ("proof", Form::Text),
];

const CHAN_OPEN_ACK: &[FieldForm] = &[
    ("port", Form::Text),
    ("channel", Form::Text),
    ("peer_channel", Form::Text),
    ("height", Form::Number),
    ("proof", Form::Text),
];

const CHAN_CONFIRM: &[FieldForm] = &[
    ("port", Form::Text),
    ("channel", Form::Text),
    ("height", Form::Number),
    ("proof", Form::Text),
];

const RECV_PACKET: &[FieldForm] = &[("height", Form::Number), ("proof", Form::Text)];

const ACK_PACKET: &[FieldForm] = &[
    ("ack", Form::Text),
    ("height", Form::Number),
    ("proof", Form::Text),
];

const TIMEOUT: &[FieldForm] = &[
    ("next_recv", Form::Number),
    ("height", Form::Number),
    ("proof", Form::Text),
];

const TIMEOUT_ON_CLOSE: &[FieldForm] = &[
    ("next_recv", Form::Number),
    ("height", Form::Number),
    ("proof", Form::Text),
    ("proof_close", Form::Text),
];

/// The fields of a message of a packet are those of the packet, and these behind them; those of another message are these
/// alone. There are none of messages without proofs, but of an `UpdateClient`.
pub fn fields_of(kind: MessageKind) -> (&'static [FieldForm], &'static [FieldForm]) {
    match kind {
        MessageKind::UpdateClient => (&[], UPDATE_CLIENT),
        MessageKind::ConnOpenTry => (&[], CONN_OPEN_TRY),
        MessageKind::ConnOpenAck => (&[], CONN_OPEN_ACK),
        MessageKind::ConnOpenConfirm => (&[], CONN_OPEN_CONFIRM),
        MessageKind::ChanOpenTry => (&[], CHAN_OPEN_TRY),
        MessageKind::ChanOpenAck => (&[], CHAN_OPEN_ACK),
        MessageKind::ChanOpenConfirm | MessageKind::ChanCloseConfirm => (&[], CHAN_CONFIRM),
        MessageKind::RecvPacket => (PACKET, RECV_PACKET),
        MessageKind::AckPacket => (PACKET, ACK_PACKET),
        MessageKind::Timeout => (PACKET, TIMEOUT),
        MessageKind::TimeoutOnClose => (PACKET, TIMEOUT_ON_CLOSE),
        _ => (&[], &[]),
    }
}
