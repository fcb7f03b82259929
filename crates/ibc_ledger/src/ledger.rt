//! A ledger: a chain with its history, its records and its pass of the table.

ghost use Rattle.std.specs.Prelude.{◌≡◌, ◌<◌, ◌⊎◌, ◌↔◌, [], false, Some, Err, length, map, IfOk, IfErr, IsNone, IsTrue, IsOkUnless};
ghost use mathlib.Core.List.{IsPrefix};
ghost use Rattle.ibc_ids.specs.Publications.{published_by};
ghost use Rattle.ibc_ids.specs.declared.refusal.Refusal.TheVariants.{BadMessage, NoConsensus, NoMemory};
ghost use Rattle.ibc_machine.specs.chain.Genesis.{genesis_state, is_allowed};
ghost use Rattle.ibc_machine.specs.ledger.Ledgers.{IsLedger, SeesMore};
ghost use Rattle.ibc_refinement.specs.World.{AreOfFirstChains};
ghost use Rattle.ibc_note.specs.AbstractNotes.{abstract_notes};
ghost use Rattle.ibc_bank.specs.ListedHoldings.{abstract_holding};
ghost use Rattle.ibc_ledger.specs.LedgerModel.{abstract_entry, shape_of, begun_ledger, after_follow};
ghost use Rattle.ibc_ledger.specs.SentPackets.{ack_on, packet_on};
ghost use Rattle.ibc_ledger.specs.LedgerReads.{value_on, all_balances_on, all_notes_on, provable_on, IsProofOn};

use crate::applications::Applications;
use crate::host_state::HostState;
use crate::{SentPackets, StampedEntry, is_allowed, packet_in};
use ibc_ids::{Account, Bytes, ChannelId, Denom, Key, PortId, Refusal};
use ibc_machine::Genesis;
use ibc_merkle::Proof;
use ibc_records::Records;
use ibc_root_table::{Pass, RootTable};
use ibc_wire::Packet;
use std::alloc::Global;
use std::marker::Model;
use std::snapshot::Snapshot;
use std::sync::Arc;

/// A chain of a genesis. Contracts see its history, of which its state is a function, and the publications that its
/// pass has seen; they also see what genesis it is of.
#[derive(Drop)]
pub struct Ledger {
    pub(crate) genesis: Snapshot<Genesis>,
    pub(crate) node: HostState,
    pub(crate) capacity: u64,
    pub(crate) table: Arc<RootTable, Global>,
    pub(crate) pass: Pass,
    pub(crate) history: Vec<StampedEntry>,
    pub(crate) sent: SentPackets,
}

impl Model for Ledger {
    ghost use Rattle.ibc_ledger.specs.LedgerModel.{LedgerModel};
    ghost use Rattle.ibc_ledger.specs.LedgerFields.{ledger_model, IsSoundLedger};

    ghost Value = { LedgerModel };

    ghost view = { ledger_model };

    ghost invariant = { IsSoundLedger };
}

impl Ledger {
    /// The ledger of the chain numbered `chain` of a genesis, which publishes in the table by the chain's own pass. The pass
    /// may have seen what others published. Refused: `BadMessage` exactly where the genesis isn't allowed; `NoMemory`.
    pub fn new(
        alloc: Global,
        genesis: &Genesis,
        chain: u8,
        table: Arc<RootTable, Global>,
        pass: Pass,
    ) -> Result<Ledger, Refusal>
        requires chain { chain < length genesis.now.chains.items }
        requires table { table.value.shape ≡ shape_of (genesis_state genesis.now) }
        requires pass { (pass.table ≡ table.value) × (pass.own ≡ Some chain) }
        requires unpublished { published_by chain pass.seen ≡ [] }
        ensures ok { IfOk result (λ made. made ≡ begun_ledger genesis.now chain pass.seen table.value) }
        ensures bad { (result ≡ Err BadMessage) ↔ (is_allowed (genesis_state genesis.now) ≡ false) }
        ensures err { IfErr result (λ refusal. (refusal ≡ BadMessage) ⊎ (refusal ≡ NoMemory)) }
    {
        if !is_allowed(genesis) {
            return Err(Refusal::BadMessage);
        }
        let start = &genesis.chains[usize::from(chain)];
        let node = HostState {
            alloc,
            number: chain,
            chains: genesis.chains.len() as u8,
            records: Records::new(alloc, genesis.window, start.time)?,
            applications: Applications::new(alloc, start)?,
        };
        Ok(Ledger {
            genesis: Snapshot::of(genesis),
            node,
            capacity: genesis.capacity,
            table,
            pass,
            history: Vec::new(alloc),
            sent: SentPackets::new(alloc),
        })
    }

    /// The number of the chain.
    pub fn chain(&self) -> u8
        ensures { result ≡ self.now.ledger.chain }
    {
        self.node.number
    }

    /// How many chains the genesis has.
    pub fn chains(&self) -> u8
        ensures { result ≡ length self.now.ledger.genesis.chains }
    {
        self.node.chains
    }

    /// All that was asked of the chain, and what it answered, in order. What was answered with `NoMemory` isn't there.
    pub fn history(&self) -> &[StampedEntry]
        ensures { map abstract_entry result.now ≡ self.now.ledger.history }
    {
        self.history.as_slice()
    }

    /// A ledger is one: its state is the replay of its history, whose replies are those of the steps; what its pass has seen
    /// is of the chains of the genesis; and the genesis is allowed.
    pub fn lemma_is_its_history(&self)
        ensures is { IsLedger self.now.ledger }
        ensures allowed { IsTrue (is_allowed self.now.ledger.genesis) }
        ensures within { AreOfFirstChains (length self.now.ledger.genesis.chains) self.now.ledger.seen }
    {
        self.table.lemma_holds_what_is_seen(&self.pass);
    }

    /// The value of a key in the working block, or none where the key isn't there (ICS 24). `NoMemory` where a growth is
    /// refused.
    pub fn query(&self, key: &Key) -> Result<Option<Bytes>, Refusal>
        ensures ok { IfOk result (λ value. value ≡ value_on self.now.ledger key.now) }
        ensures err { IsOkUnless result NoMemory }
    {
        let path = key.path(self.node.alloc)?;
        match self.node.records.value(path.as_str()) {
            Some(value) => Ok(Some(Bytes::copy_of(self.node.alloc, value)?)),
            None => Ok(None),
        }
    }

    /// The proof of what a committed height has at a key: of its presence where it is there, and of its absence where not
    /// (ICS 23, "CommitmentProof"). `NoConsensus` exactly where the height isn't among the last ones that were committed, as
    /// many as the window of the genesis says; `NoMemory` where a growth is refused.
    pub fn query_proof(&self, height: u64, key: &Key) -> Result<Proof, Refusal>
        ensures ok { IfOk result (λ proof. IsProofOn self.now.ledger height key.now proof) }
        ensures unknown { (result ≡ Err NoConsensus) ↔ IsNone (provable_on self.now.ledger height) }
        ensures err { IfErr result (λ refusal. (refusal ≡ NoConsensus) ⊎ (refusal ≡ NoMemory)) }
    {
        self.node.records.prove(height, key)
    }

    /// Who holds how much of what in the working block: the amounts above 0, in the byte order of the accounts' texts and
    /// then of the denominations. `NoMemory` where a growth is refused.
    pub fn balances(&self) -> Result<Vec<(Account, Denom, u128)>, Refusal>
        ensures ok { IfOk result (λ all. map abstract_holding all.items ≡ all_balances_on self.now.ledger) }
        ensures err { IsOkUnless result NoMemory }
    {
        let bank = self.node.applications.transfers.bank();
        Ok(bank.list(self.node.alloc)?)
    }

    /// The notes that came over each channel of port `note`, in the order in which they came; the channels in the byte order
    /// of their names. `NoMemory` where a growth is refused.
    pub fn all_notes(&self) -> Result<Vec<(ChannelId, Vec<Bytes>)>, Refusal>
        ensures ok { IfOk result (λ all. map abstract_notes all.items ≡ all_notes_on self.now.ledger) }
        ensures err { IsOkUnless result NoMemory }
    {
        Ok(self.node.applications.notes.all(self.node.alloc)?)
    }

    /// The packet that was sent from an end of a channel under a sequence (ICS 4, "sendPacket"), whether its commitment stands
    /// or not. None where no such packet was sent, where there is no such end, and where the end doesn't know its peer yet.
    /// `NoMemory` where a growth is refused.
    pub fn packet(
        &self,
        port: &PortId,
        channel: &ChannelId,
        sequence: u64,
    ) -> Result<Option<Packet>, Refusal>
        ensures ok { IfOk result (λ sent. sent ≡ packet_on self.now.ledger port.now channel.now sequence) }
        ensures err { IsOkUnless result NoMemory }
    {
        let Some(mine) = self.node.records.channel(port, channel)? else {
            return Ok(None);
        };
        let end = mine.end();
        let Some(peer) = &end.peer_channel else {
            return Ok(None);
        };
        let Some(place) = self.sent.place(port, channel, sequence)? else {
            return Ok(None);
        };
        let stamped = &self.history[place];
        let event = &stamped.entry.event;
        packet_in(self.node.alloc, event, port, channel, sequence, end, peer)
    }

    /// The acknowledgement that was written at an end of a channel for a sequence (ICS 4, "writeAcknowledgement"). None where
    /// none was written, and where there is no such end. `NoMemory` where a growth is refused.
    pub fn ack(
        &self,
        port: &PortId,
        channel: &ChannelId,
        sequence: u64,
    ) -> Result<Option<Bytes>, Refusal>
        ensures ok { IfOk result (λ ack. ack ≡ ack_on self.now.ledger port.now channel.now sequence) }
        ensures err { IsOkUnless result NoMemory }
    {
        let Some(mine) = self.node.records.channel(port, channel)? else {
            return Ok(None);
        };
        match mine.ack(sequence) {
            Some(ack) => Ok(Some(ack.clone()?)),
            None => Ok(None),
        }
    }

    /// Afterwards the passes of the two ledgers have seen the same publications, and each of them all that either had seen.
    pub fn meet(&mut self, other: &mut Ledger)
        requires { other.old.table ≡ self.old.table }
        ensures tables { (self.new.table ≡ self.old.table) × (other.new.table ≡ other.old.table) }
        ensures same { self.new.ledger.seen ≡ other.new.ledger.seen }
        ensures own { SeesMore self.old.ledger self.new.ledger }
        ensures others { SeesMore other.old.ledger other.new.ledger }
    {
        self.table.meet(&mut self.pass, &mut other.pass);
    }

    /// The pass, which has seen less than the leader's, takes over just what the leader's has seen.
    pub fn follow(&mut self, leader: &mut Ledger)
        requires table { leader.old.table ≡ self.old.table }
        requires behind { IsPrefix self.old.ledger.seen leader.old.ledger.seen }
        ensures leader { leader.new ≡ leader.old }
        ensures follows { self.new ≡ after_follow self.old leader.old }
    {
        self.table.follow(&mut leader.pass, &mut self.pass);
    }
}
