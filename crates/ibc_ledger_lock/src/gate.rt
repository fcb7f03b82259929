//! A chain as relayers work with it.

use ibc_ids::{Bytes, ChannelId, Key, PortId, Refusal};
use ibc_ledger::{StampedEntry, View};
use ibc_machine::Reply;
use ibc_merkle::Proof;
use ibc_wire::{Message, Packet};
use std::sync::Wait;

/// A chain that threads share, which answers in plain replies. Its calls are those of `Chain`.
pub trait Gate: Sync {
    /// Applies a message.
    fn submit<R: Wait>(&self, rt: &R, message: Message) -> Reply;

    /// Ends the working block; the next block has this time.
    fn produce<R: Wait>(&self, rt: &R, next_time: u64) -> Reply;

    /// The newest view that is known. It may be older than the chain, and takes no lock.
    fn view(&self) -> &View;

    /// The value of a key in the working block, none where it isn't there. Refused: `NoMemory`.
    fn query<R: Wait>(&self, rt: &R, key: &Key) -> Result<Option<Bytes>, Refusal>;

    /// The proof of what a committed height has at a key. Refused: `NoConsensus`, `NoMemory`.
    fn query_proof<R: Wait>(&self, rt: &R, height: u64, key: &Key) -> Result<Proof, Refusal>;

    /// The packet that was sent from an end under a sequence, none where there is none. Refused: `NoMemory`.
    fn packet<R: Wait>(
        &self,
        rt: &R,
        port: &PortId,
        channel: &ChannelId,
        sequence: u64,
    ) -> Result<Option<Packet>, Refusal>;

    /// The acknowledgement that was written at an end for a sequence, none where there is none. Refused: `NoMemory`.
    fn ack<R: Wait>(
        &self,
        rt: &R,
        port: &PortId,
        channel: &ChannelId,
        sequence: u64,
    ) -> Result<Option<Bytes>, Refusal>;

    /// Lends the entries of the history from a place on to `read`, and gives what it gives.
    fn events_from<R: Wait, T, F: FnOnce(&[StampedEntry]) -> T>(
        &self,
        rt: &R,
        place: usize,
        read: F,
    ) -> T
        requires { F.IsAlwaysCallable read };
}
