//! The workloads: the jobs that users of the libraries wait for.

mod handshakes;
mod lived;
mod parts;
mod proofs;
mod relay;
mod replay;

use crate::names::genesis;
use crate::network::Network;
use crate::random::Random;
use crate::run_error::RunError;
use crate::tally::Tally;
pub use parts::Part;
use std::alloc::Global;

/// A workload.
#[derive(Clone, Copy)]
pub enum Workload {
    /// Packets over three chains in a row are relayed, there and back.
    Relay,
    /// Ledgers with many records live on, with few changes a block.
    Lived,
    /// Connections and channels are opened between eight chains.
    Handshakes,
    /// Messages and proofs come as bytes, and are read and checked.
    Proofs,
    /// A stored history is taken again step by step, and ledgers are audited.
    Replay,
    /// Calls of a single library, each part by itself.
    Parts(Part),
}

/// All of them, each with a size at which it is soon done.
pub const SMALL: [(Workload, u64); 10] = [
    (Workload::Relay, 3),
    (Workload::Lived, 12),
    (Workload::Handshakes, 6),
    (Workload::Proofs, 200),
    (Workload::Replay, 2),
    (Workload::Parts(Part::NewPaths), 60),
    (Workload::Parts(Part::PathsBetween), 40),
    (Workload::Parts(Part::ChangedValues), 40),
    (Workload::Parts(Part::PathsInFront), 1),
    (Workload::Parts(Part::PacketData), 60),
];

impl Workload {
    /// The workload of a name, or none.
    pub fn of(name: &str) -> Option<Workload> {
        match name {
            "relay" => Some(Workload::Relay),
            "lived" => Some(Workload::Lived),
            "handshakes" => Some(Workload::Handshakes),
            "proofs" => Some(Workload::Proofs),
            "replay" => Some(Workload::Replay),
            _ => None,
        }
    }

    /// Its name.
    pub fn name(self) -> &'static str {
        match self {
            Workload::Relay => "relay",
            Workload::Lived => "lived",
            Workload::Handshakes => "handshakes",
            Workload::Proofs => "proofs",
            Workload::Replay => "replay",
            Workload::Parts(part) => part.name(),
        }
    }

    /// Runs the workload at a size, on the input that a seed makes, and tells what the results come to.
    pub fn run(self, alloc: Global, size: u64, seed: u64) -> Result<Tally, RunError> {
        let mut random = Random::new(seed);
        match self {
            Workload::Handshakes => handshakes::run(alloc, size, &mut random),
            Workload::Replay => replay::run(alloc, size, &mut random),
            Workload::Parts(part) => part.run(alloc, size, &mut random),
            Workload::Relay => self.run_on_network(alloc, 3, 40, size, &mut random),
            Workload::Lived => self.run_on_network(alloc, 2, 100, size, &mut random),
            Workload::Proofs => self.run_on_network(alloc, 2, 100, size, &mut random),
        }
    }

    // Runs the workload on so many chains with so many users on each.
    fn run_on_network(
        self,
        alloc: Global,
        chains: u8,
        users: u64,
        size: u64,
        random: &mut Random,
    ) -> Result<Tally, RunError> {
        let mut network = begin(alloc, chains, users)?;
        let driven = self.drive(&mut network, size, random);
        let finished = network.finish();
        let tally = network.tally;
        drop(network);
        driven?;
        finished?;
        Ok(tally)
    }

    // Drives chains as the workload does.
    fn drive(self, network: &mut Network, size: u64, random: &mut Random) -> Result<(), RunError> {
        match self {
            Workload::Relay => relay::drive(network, size, random),
            Workload::Lived => lived::drive(network, size, random),
            Workload::Proofs => proofs::drive(network, size, random),
            Workload::Handshakes | Workload::Replay | Workload::Parts(_) => Ok(()),
        }
    }
}

// So many chains in the beginning, with so many users on each.
fn begin(alloc: Global, chains: u8, users: u64) -> Result<Network, RunError> {
    let genesis = genesis(alloc, chains, users)?;
    let network = Network::new(alloc, &genesis, false);
    drop(genesis);
    network
}
