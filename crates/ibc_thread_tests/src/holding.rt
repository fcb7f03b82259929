//! A chain that holds its first message back.

use ibc_ids::{Bytes, ChannelId, Key, PortId, Refusal};
use ibc_ledger::{StampedEntry, View};
use ibc_ledger_lock::Gate;
use ibc_machine::Reply;
use ibc_merkle::Proof;
use ibc_wire::{Message, Packet};
use std::sync::Wait;
use std::sync::atomic::{AtomicBool, AtomicU64, Ordering};
use std::thread;

/// For so many turns the first message waits for another one.
const TURNS: u64 = 1_000_000;

/// A chain that holds the first message back until another thread's was answered, or the turns are over.
#[derive(Drop)]
pub struct Holding<'g, G: Gate> {
    gate: &'g G,
    is_held: AtomicBool,
    answered: AtomicU64,
    gave_up: AtomicBool,
}

impl<'g, G: Gate> Holding<'g, G> {
    /// A chain that has answered nothing yet.
    pub fn new(gate: &'g G) -> Holding<'g, G> {
        Holding {
            gate,
            is_held: AtomicBool::new(false),
            answered: AtomicU64::new(0),
            gave_up: AtomicBool::new(false),
        }
    }

    /// Whether a message was held, and another one was answered meanwhile.
    pub fn saw_another(&self) -> bool {
        self.is_held.load(Ordering::SeqCst) && !self.gave_up.load(Ordering::SeqCst)
    }
}

// Waits until a message was answered, for so many turns. Whether one was.
fn was_answered(answered: &AtomicU64) -> bool {
    for _turn in 0..TURNS {
        if answered.load(Ordering::SeqCst) > 0 {
            return true;
        }
        thread::yield_now();
    }
    false
}

impl<G: Gate> Gate for Holding<'_, G> {
    fn submit<R: Wait>(&self, rt: &R, message: Message) -> Reply {
        if !self.is_held.swap(true, Ordering::SeqCst) && !was_answered(&self.answered) {
            self.gave_up.store(true, Ordering::SeqCst);
        }
        let reply = self.gate.submit(rt, message);
        self.answered.fetch_add(1, Ordering::SeqCst);
        reply
    }

    fn produce<R: Wait>(&self, rt: &R, next_time: u64) -> Reply {
        self.gate.produce(rt, next_time)
    }

    fn view(&self) -> &View {
        self.gate.view()
    }

    fn query<R: Wait>(&self, rt: &R, key: &Key) -> Result<Option<Bytes>, Refusal> {
        self.gate.query(rt, key)
    }

    fn query_proof<R: Wait>(&self, rt: &R, height: u64, key: &Key) -> Result<Proof, Refusal> {
        self.gate.query_proof(rt, height, key)
    }

    fn packet<R: Wait>(
        &self,
        rt: &R,
        port: &PortId,
        channel: &ChannelId,
        sequence: u64,
    ) -> Result<Option<Packet>, Refusal> {
        self.gate.packet(rt, port, channel, sequence)
    }

    fn ack<R: Wait>(
        &self,
        rt: &R,
        port: &PortId,
        channel: &ChannelId,
        sequence: u64,
    ) -> Result<Option<Bytes>, Refusal> {
        self.gate.ack(rt, port, channel, sequence)
    }

    fn events_from<R: Wait, T, F: FnOnce(&[StampedEntry]) -> T>(
        &self,
        rt: &R,
        place: usize,
        read: F,
    ) -> T {
        self.gate.events_from(rt, place, read)
    }
}
