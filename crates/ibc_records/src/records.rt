//! The records of a chain, kept in plain and as a store.

ghost use Rattle.std.specs.Prelude.{◌≡◌, ◌⊎◌, ◌↔◌, ◌+◌, ◌-◌, ◌^◌, ◌<◌, length, min, IsNone, IsSome, IfOk, IfErr, OnOk, OnErr, option_map, option_copied, IsOkUnless};
ghost use Rattle.ibc_ids.specs.Texts.{text_cmp};
ghost use Rattle.ibc_ids.specs.Maps.{at};
ghost use Rattle.ibc_ids.specs.Paths.{path};
ghost use Rattle.ibc_ids.specs.declared.refusal.Refusal.TheVariants.{NoConsensus, NoMemory, TimeBack, UnknownClient};
ghost use Rattle.ibc_records.specs.RecordsModel.{core_of, after_commit, IsNew, IsCountingFrom, AddsClient, UpdatesClient, IsUnchanged, next_numbers_of};
ghost use Rattle.ibc_machine.specs.chain.Genesis.{empty_core};
ghost use Rattle.ibc_machine.specs.ics24.Image.{image, core_root, IsKeyed};
ghost use Rattle.ibc_machine.specs.chain.Orderly.{IsOrderly};
ghost use Rattle.ibc_path_store.specs.StoreModel.{height_of, kept_at};
ghost use Rattle.ibc_records.specs.ClientModels.{LearnsHeight};
ghost use Rattle.ibc_records.specs.CommittedHeights.{IsCommittedTree, IsCommittedProof};

mod channels;
mod connections;
mod packets;

use crate::acknowledgement::AckRoom;
use crate::client::{Client, ConsensusState};
use crate::core_records::CoreRecords;
use crate::maps::{
    Channels, Clients, Connections, contains, insert, no_channels, no_clients, no_connections, put,
    take,
};
use crate::values::{client_value, counter, set_reserved};
use ibc_ics23_proof::NodeMemory;
use ibc_ids::{ClientId, Key, Refusal, Root, client_path};
use ibc_merkle::Proof;
use ibc_path_store::{CommittedTree, Store};
use ibc_wire::ClientState;
use std::alloc::{AllocError, Global};
use std::marker::Model;
use std::mem::replace;
use std::sync::Arc;

/// The numbers of the next client, connection and channel.
#[derive(Clone, Copy, Debug, PartialEq, Eq, Drop)]
pub struct NextNumbers {
    pub client: u64,
    pub connection: u64,
    pub channel: u64,
}

/// What a chain proves to others, in plain, and the store of paths that is its image (ICS 24, "Provable store").
#[derive(Drop)]
pub struct Records {
    clients: Clients,
    connections: Connections,
    channels: Channels,
    next_client: u64,
    next_connection: u64,
    next_channel: u64,
    store: Store,
    last: Arc<CoreRecords, Global>,
    last_time: u64,
    ack_room: AckRoom,
    memory: NodeMemory,
    alloc: Global,
}

impl Model for Records {
    ghost use Rattle.ibc_records.specs.RecordsModel.{RecordsModel, IsSoundRecords};
    ghost use Rattle.ibc_records.specs.RecordsFields.{records_model};

    ghost Value = { RecordsModel };

    ghost view = { records_model };

    ghost invariant = { λ records. IsSoundRecords (records_model records) };
}

impl Records {
    /// The records of a chain in the beginning: no client, connection and channel, and the three counters at 0. The
    /// working block has the given time, and the last `window` heights are kept. `NoMemory` where a growth is refused.
    pub fn new(alloc: Global, window: u64, time: u64) -> Result<Records, Refusal>
        ensures ok { IfOk result (λ records. IsNew window time records) }
        ensures err { IsOkUnless result NoMemory }
    {
        let next = NextNumbers {
            client: 0,
            connection: 0,
            channel: 0,
        };
        Records::counting_from(alloc, window, time, next)
    }

    /// Records as those of a chain in the beginning, but that the next client, connection and channel have these
    /// numbers. `NoMemory` where a growth is refused.
    pub fn counting_from(
        alloc: Global,
        window: u64,
        time: u64,
        next: NextNumbers,
    ) -> Result<Records, Refusal>
        ensures ok { IfOk result (λ records. IsCountingFrom window time next records) }
        ensures err { IsOkUnless result NoMemory }
    {
        let last = nothing(alloc)?;
        let mut store = Store::new(alloc, window, time);
        store.reserve(3)?;
        let (path, number) = counter(alloc, &Key::NextClientSequence, next.client)?;
        set_reserved(&mut store, path, number);
        let (path, number) = counter(alloc, &Key::NextConnectionSequence, next.connection)?;
        set_reserved(&mut store, path, number);
        let (path, number) = counter(alloc, &Key::NextChannelSequence, next.channel)?;
        set_reserved(&mut store, path, number);
        Ok(Records {
            clients: no_clients(alloc),
            connections: no_connections(alloc),
            channels: no_channels(alloc),
            next_client: next.client,
            next_connection: next.connection,
            next_channel: next.channel,
            store,
            last,
            last_time: 0,
            ack_room: AckRoom::none(alloc),
            memory: NodeMemory::new(alloc),
            alloc,
        })
    }

    /// Every key that has a value has names for its names (ICS 24, "Identifiers").
    pub fn lemma_names_have_form(&self)
        ensures { IsKeyed (core_of self.now) }
    {
        let _number = self.next_client;
    }

    /// The channels are in the order of their names, and nothing stands under a name or a sequence that wasn't given yet
    /// (ICS 24, "Identifiers"; ICS 4, "Channel paths").
    pub fn lemma_orderly(&self)
        ensures { IsOrderly (core_of self.now) }
    {
        let _number = self.next_channel;
    }

    /// A client by its identifier, or none.
    pub fn client(&self, id: &ClientId) -> Option<&Client>
        ensures { option_copied result ≡ at text_cmp id.now self.now.clients }
    {
        self.clients.get(id)
    }

    /// The number of the next client.
    pub fn next_client(&self) -> u64
        ensures { result ≡ self.now.next_client }
    {
        self.next_client
    }

    /// The value at a path of the working block, or none.
    pub fn value(&self, path: &str) -> Option<&[u8]>
        ensures { option_map (λ value. value.now) result ≡ at text_cmp path.now (image (core_of self.now)) }
    {
        self.store.get(path)
    }

    /// Adds a client of a chain under an identifier, and counts the next one (ICS 2, "createClient"). `NoMemory` where a
    /// growth is refused; the records are then as before.
    pub fn add_client(&mut self, id: ClientId, chain: u8) -> Result<(), Refusal>
        requires { self.old.next_client < 2 ^ 64 - 1 }
        ensures ok { OnOk result (AddsClient self.old id chain self.new) }
        ensures err { IsOkUnless result NoMemory }
        ensures unchanged { OnErr result (IsUnchanged self.old self.new) }
    {
        let client = Client::new(self.alloc, chain);
        let path = client_path(self.alloc, &id)?;
        let value = client_value(self.alloc, client.state())?;
        let next = self.next_client + 1;
        let (number_path, number) = counter(self.alloc, &Key::NextClientSequence, next)?;
        self.store.reserve(2)?;
        insert(&mut self.clients, id, client)?;
        self.next_client = next;
        set_reserved(&mut self.store, path, value);
        set_reserved(&mut self.store, number_path, number);
        Ok(())
    }

    /// Tells a client of a height (ICS 2, "updateClient"). `UnknownClient` exactly where there is no such client;
    /// `NoMemory` where a growth is refused. A refusal leaves the records.
    pub fn update_client(
        &mut self,
        id: &ClientId,
        height: u64,
        known: ConsensusState,
    ) -> Result<(), Refusal>
        ensures ok { OnOk result (UpdatesClient self.old id.now height known self.new) }
        ensures unknown { IsNone (at text_cmp id.now self.old.clients) → result ≡ Err UnknownClient }
        ensures known { IsSome (at text_cmp id.now self.old.clients) → IsOkUnless result NoMemory }
        ensures unchanged { OnErr result (IsUnchanged self.old self.new) }
    {
        let state = match self.clients.get(id) {
            Some(client) => client.state(),
            None => return Err(Refusal::UnknownClient),
        };
        let latest = state.latest.max(height);
        let chain = state.chain;
        let value = client_value(self.alloc, ClientState { chain, latest })?;
        let path = client_path(self.alloc, id)?;
        self.store.reserve(1)?;
        learn(&mut self.clients, id, height, known)?;
        set_reserved(&mut self.store, path, value);
        Ok(())
    }

    /// The last committed height, 0 if there is none.
    pub fn height(&self) -> u64
        ensures { result ≡ min (height_of self.now.store) (2 ^ 64 - 1) }
    {
        self.store.height()
    }

    /// The time of the working block.
    pub fn time(&self) -> u64
        ensures { result ≡ self.now.store.time }
    {
        self.store.time()
    }

    /// Commits the working records as the next height, and begins a block of the time `next_time` (ICS 23,
    /// "CommitmentRoot"). `TimeBack` exactly where `next_time` is below the working time; `NoMemory` where a growth is
    /// refused. A refusal leaves the records.
    pub fn commit(&mut self, next_time: u64) -> Result<Root, Refusal>
        ensures root { IfOk result (λ root. root ≡ core_root (core_of self.old)) }
        ensures ok { OnOk result (self.new ≡ after_commit self.old next_time self.new.store.hashed) }
        ensures size { OnOk result (length (image (core_of self.old)) < 2 ^ 64) }
        ensures time_back { (result ≡ Err TimeBack) ↔ (next_time < self.old.store.time) }
        ensures err { IfErr result (λ refusal. (refusal ≡ TimeBack) ⊎ (refusal ≡ NoMemory)) }
        ensures unchanged { OnErr result (self.new ≡ self.old) }
    {
        if next_time < self.store.time() {
            return Err(Refusal::TimeBack);
        }
        let last = self.plain()?;
        let time = self.store.time();
        let root = self.store.commit(next_time)?;
        self.last = last;
        self.last_time = time;
        Ok(root)
    }

    /// What the chain proved at the last commit, and nothing before the first. It is a value of its own, which stays as it
    /// is while the records go on; it isn't copied. `NoMemory` where too many share it.
    pub fn last(&self) -> Result<Arc<CoreRecords, Global>, Refusal>
        ensures ok { IfOk result (λ last. last.value ≡ self.now.last.core) }
        ensures err { IsOkUnless result NoMemory }
    {
        Ok(Arc::try_clone(&self.last)?)
    }

    /// The tree of a committed height, as a value of its own; nothing is copied or hashed for it (ICS 23,
    /// "CommitmentState"). `NoConsensus` exactly where the height isn't committed or is gone from the window; `NoMemory`
    /// where too many share it.
    pub fn snapshot(&self, height: u64) -> Result<CommittedTree, Refusal>
        ensures ok { IfOk result (λ tree. IsCommittedTree self.now.store height tree) }
        ensures unknown { (result ≡ Err NoConsensus) ↔ IsNone (kept_at self.now.store height) }
        ensures err { IfErr result (λ refusal. (refusal ≡ NoConsensus) ⊎ (refusal ≡ NoMemory)) }
    {
        self.store.snapshot(height)
    }

    /// The time of the last committed height, 0 before the first.
    pub fn last_time(&self) -> u64
        ensures { result ≡ self.now.last.time }
    {
        self.last_time
    }

    // A copy of what the working block proves.
    fn plain(&self) -> Result<Arc<CoreRecords, Global>, Refusal>
        ensures ok { IfOk result (λ plain. plain.value ≡ core_of self.now) }
        ensures err { IsOkUnless result NoMemory }
    {
        let plain = CoreRecords::copy_of(
            &self.clients,
            &self.connections,
            &self.channels,
            self.next_numbers(),
        )?;
        Ok(Arc::new(self.alloc, plain)?)
    }

    // The numbers of the next client, connection and channel.
    fn next_numbers(&self) -> NextNumbers
        ensures { result ≡ next_numbers_of self.now }
    {
        NextNumbers {
            client: self.next_client,
            connection: self.next_connection,
            channel: self.next_channel,
        }
    }

    /// The proof of what a committed height has at a key: of its presence where it is there, and of its absence where
    /// not (ICS 23, "CommitmentProof"). `NoConsensus` exactly where the height isn't committed or is gone from the window;
    /// `NoMemory` where a growth is refused.
    pub fn prove(&self, height: u64, key: &Key) -> Result<Proof, Refusal>
        ensures ok { IfOk result (λ proof. IsCommittedProof self.now.store height key.now proof) }
        ensures unknown { (result ≡ Err NoConsensus) ↔ IsNone (kept_at self.now.store height) }
        ensures err { IfErr result (λ refusal. (refusal ≡ NoConsensus) ⊎ (refusal ≡ NoMemory)) }
    {
        self.store.prove(height, key)
    }

    /// Takes out the hashes of nodes of proofs that the records remember, and leaves a memory of nothing. It asks for no
    /// memory, and what the records are stays.
    pub fn take_memory(&mut self) -> NodeMemory
        ensures { self.new ≡ self.old }
    {
        replace(&mut self.memory, NodeMemory::new(self.alloc))
    }

    /// Keeps hashes of nodes of proofs for the next proof. What the records are stays.
    pub fn keep_memory(&mut self, memory: NodeMemory)
        ensures { self.new ≡ self.old }
    {
        self.memory = memory;
    }
}

// What stood at the last commit, before the first.
fn nothing(alloc: Global) -> Result<Arc<CoreRecords, Global>, AllocError>
    ensures { IfOk result (λ last. last.value ≡ empty_core) }
{
    Ok(Arc::new(alloc, CoreRecords::new(alloc))?)
}

// A client knows a height more.
fn learn(
    clients: &mut Clients,
    id: &ClientId,
    height: u64,
    known: ConsensusState,
) -> Result<(), Refusal>
    ensures ok { OnOk result (LearnsHeight id.now height known clients.old.pairs clients.new.pairs) }
    ensures unknown { IsNone (at text_cmp id.now clients.old.pairs) → result ≡ Err UnknownClient }
    ensures known { IsSome (at text_cmp id.now clients.old.pairs) → IsOkUnless result NoMemory }
    ensures unchanged { OnErr result (clients.new.pairs ≡ clients.old.pairs) }
{
    if !contains(clients, id) {
        return Err(Refusal::UnknownClient);
    }
    let name = id.clone()?;
    let mut client = take(clients, id)?;
    let learned = client.learn(height, known);
    put(clients, name, client);
    learned
}
