//! How messages are written to bytes and read back.
#![tactic(auto)]

mod behind;
mod channels;
mod clients;
mod connections;
mod message;
mod packets;
mod parts;
mod payload;
mod transfers;

pub use message::{decode, encode, lemma_a_text_spells_one_message};
