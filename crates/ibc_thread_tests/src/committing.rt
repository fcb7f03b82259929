//! A chain that ends a block behind each message.

use ibc_ids::{Bytes, ChannelId, Key, PortId, Refusal};
use ibc_ledger::{StampedEntry, View};
use ibc_ledger_lock::Gate;
use ibc_machine::Reply;
use ibc_merkle::Proof;
use ibc_wire::{Message, Packet};
use std::sync::Wait;

/// A chain that ends its working block behind each message, at the working time of its view.
#[derive(Drop)]
pub struct Committing<'g, G: Gate> {
    gate: &'g G,
}

impl<'g, G: Gate> Committing<'g, G> {
    /// What ends a chain's block behind each message.
    pub fn new(gate: &'g G) -> Committing<'g, G> {
        Committing { gate }
    }
}

impl<G: Gate> Gate for Committing<'_, G> {
    fn submit<R: Wait>(&self, rt: &R, message: Message) -> Reply {
        let reply = self.gate.submit(rt, message);
        drop(self.gate.produce(rt, self.gate.view().working_time()));
        reply
    }

    fn produce<R: Wait>(&self, rt: &R, next_time: u64) -> Reply {
        self.gate.produce(rt, next_time)
    }

    fn view(&self) -> &View {
        self.gate.view()
    }

    fn query<R: Wait>(&self, rt: &R, key: &Key) -> Result<Option<Bytes>, Refusal> {
        self.gate.query(rt, key)
    }

    fn query_proof<R: Wait>(&self, rt: &R, height: u64, key: &Key) -> Result<Proof, Refusal> {
        self.gate.query_proof(rt, height, key)
    }

    fn packet<R: Wait>(
        &self,
        rt: &R,
        port: &PortId,
        channel: &ChannelId,
        sequence: u64,
    ) -> Result<Option<Packet>, Refusal> {
        self.gate.packet(rt, port, channel, sequence)
    }

    fn ack<R: Wait>(
        &self,
        rt: &R,
        port: &PortId,
        channel: &ChannelId,
        sequence: u64,
    ) -> Result<Option<Bytes>, Refusal> {
        self.gate.ack(rt, port, channel, sequence)
    }

    fn events_from<R: Wait, T, F: FnOnce(&[StampedEntry]) -> T>(
        &self,
        rt: &R,
        place: usize,
        read: F,
    ) -> T {
        self.gate.events_from(rt, place, read)
    }
}
