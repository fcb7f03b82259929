//! Clients with what they know.

ghost use Rattle.std.specs.Prelude.{◌≡◌, OnOk, OnErr, IsOkUnless};
ghost use Rattle.std.specs.Ordering.{nat_cmp};
ghost use Rattle.ibc_ids.specs.Maps.{at};
ghost use Rattle.ibc_ids.specs.declared.refusal.Refusal.TheVariants.{NoMemory};
ghost use Rattle.ibc_records.specs.ClientModels.{new_client_model, with_height};

use ibc_ids::{Refusal, Root};
use ibc_maps::SharedMap;
use ibc_wire::ClientState;
use std::alloc::{AllocError, Global};
use std::marker::Model;

/// What a client knows of a height of the chain that it tracks: the root and the time (ICS 2, "Consensus state").
#[derive(Clone, Copy, Debug, PartialEq, Eq, Drop)]
pub struct ConsensusState {
    pub root: Root,
    pub time: u64,
}

/// A client with the consensus states of the heights that it knows (ICS 2). Heights count from 1.
#[derive(Drop, Debug)]
pub struct Client {
    state: ClientState,
    known: SharedMap<u64, ConsensusState>,
}

impl Model for Client {
    ghost use Rattle.ibc_records.specs.ClientModels.{ClientModel};

    ghost Value = { ClientModel };

    ghost view = { λ client. record { state = client.state; known = client.known.pairs } };
}

impl Client {
    /// A client of a chain, which knows no height yet.
    pub fn new(alloc: Global, chain: u8) -> Client
        ensures { result ≡ new_client_model chain }
    {
        Client {
            state: ClientState { chain, latest: 0 },
            known: SharedMap::new(alloc),
        }
    }

    /// The chain that the client tracks, and its latest height.
    pub fn state(&self) -> ClientState
        ensures { result ≡ self.now.state }
    {
        self.state
    }

    /// What the client knows of a height, or none.
    pub fn consensus_state(&self, height: u64) -> Option<ConsensusState>
        ensures { result ≡ at nat_cmp height self.now.known }
    {
        self.known.get(&height).copied()
    }

    /// Tells the client of a height. `NoMemory` where a growth is refused; the client is then as before.
    pub fn learn(&mut self, height: u64, known: ConsensusState) -> Result<(), Refusal>
        ensures ok { OnOk result (self.new ≡ with_height height known self.old) }
        ensures err { IsOkUnless result NoMemory }
        ensures unchanged { OnErr result (self.new ≡ self.old) }
    {
        self.known.reserve(1)?;
        self.known.set(height, known)?;
        self.state.latest = self.state.latest.max(height);
        Ok(())
    }
}

impl Clone for Client {
    ghost is_clone = { λ client copy. copy ≡ client };

    fn clone(&self) -> Result<Client, AllocError> {
        Ok(Client {
            state: self.state,
            known: self.known.copy()?,
        })
    }
}
