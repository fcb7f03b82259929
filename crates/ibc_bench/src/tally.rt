//! What the results of a run come to.

use crate::digest::Digest;
use ibc_ids::{Account, Bytes, ChannelId, Denom};
use ibc_machine::{Effect, Reply};

/// How many events, packets, blocks and proofs a run has, and the digest of all its results.
#[derive(Clone, Copy)]
pub struct Tally {
    pub accepted: u64,
    pub refused: u64,
    pub sent: u64,
    pub received: u64,
    pub blocks: u64,
    pub proofs: u64,
    pub digest: Digest,
}

impl Tally {
    /// That of a run that has yet to begin.
    pub fn new() -> Tally {
        Tally {
            accepted: 0,
            refused: 0,
            sent: 0,
            received: 0,
            blocks: 0,
            proofs: 0,
            digest: Digest::new(),
        }
    }

    /// Adds the reply to an event.
    pub fn reply(&mut self, reply: &Reply) {
        match reply {
            Reply::Ok(effect) => {
                self.accepted = self.accepted.saturating_add(1);
                self.effect(effect);
            }
            Reply::No(refusal) => {
                self.refused = self.refused.saturating_add(1);
                self.digest.number(u64::from(refusal.number()));
            }
        }
    }

    // Adds what an accepted event gave.
    fn effect(&mut self, effect: &Effect) {
        match effect {
            Effect::None => self.digest.number(0),
            Effect::Client(id) => self.digest.text(id.as_str()),
            Effect::Connection(id) => self.digest.text(id.as_str()),
            Effect::Channel(id) => self.digest.text(id.as_str()),
            Effect::Sent(sequence) => {
                self.sent = self.sent.saturating_add(1);
                self.digest.number(*sequence);
            }
            Effect::Ack(ack) => {
                self.received = self.received.saturating_add(1);
                self.digest.bytes(ack.as_slice());
            }
            Effect::Block(height, root) => {
                self.blocks = self.blocks.saturating_add(1);
                self.digest.number(*height);
                self.digest.bytes(root.bytes().as_slice());
            }
        }
    }

    /// Adds the verdict on a proof.
    pub fn verdict(&mut self, is_shown: bool) {
        self.proofs = self.proofs.saturating_add(1);
        self.digest.number(u64::from(is_shown));
    }

    /// Adds what a chain has at a key, if anything.
    pub fn value(&mut self, value: &Option<Bytes>) {
        match value {
            Some(value) => self.digest.bytes(value.as_slice()),
            None => self.digest.number(0),
        }
    }

    /// Adds what the accounts of a chain hold.
    pub fn balances(&mut self, balances: &[(Account, Denom, u128)]) {
        for (account, denom, amount) in balances {
            match account {
                Account::User(name) => self.digest.text(name.as_str()),
                Account::Escrow(channel) => self.digest.text(channel.as_str()),
            }
            self.digest.text(denom.as_str());
            self.digest.amount(*amount);
        }
    }

    /// Adds the notes that came over the channels of a chain.
    pub fn notes(&mut self, notes: &[(ChannelId, Vec<Bytes>)]) {
        for (channel, payloads) in notes {
            self.digest.text(channel.as_str());
            self.payloads(payloads.as_slice());
        }
    }

    // Adds the notes that came over a channel.
    fn payloads(&mut self, payloads: &[Bytes]) {
        for payload in payloads {
            self.digest.bytes(payload.as_slice());
        }
    }
}
