//! What crosses between chains: records, headers, packets and messages, and how they are spelled as bytes.
#![tactic(auto)]

pub mod fields;
mod header;
mod laws;
mod messages;
mod packet;
mod records;
mod token;
mod typed;
mod wire;

pub use header::Header;
pub use laws::lemma_proofs_are_read_as_they_are_spelled;
pub use messages::{
    AckPacket, ChanCloseConfirm, ChanCloseInit, ChanOpenAck, ChanOpenConfirm, ChanOpenInit,
    ChanOpenTry, ConnOpenAck, ConnOpenConfirm, ConnOpenInit, ConnOpenTry, CreateClient, Message,
    MessageKind, RecvPacket, SendNote, Timeout, TimeoutOnClose, Transfer, TransferMany,
    UpdateClient,
};
pub use packet::Packet;
pub use records::{ChannelEnd, ChannelState, ClientState, ConnectionEnd, ConnectionState, Order};
pub use token::{Token, Tokens, is_listed, is_rising};
pub use wire::{Wire, decode, encode, lemma_a_text_spells_one_value};
