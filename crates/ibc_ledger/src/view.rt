//! A view of a chain.

ghost use Rattle.std.specs.Prelude.{◌≡◌, ◌&&◌, ◌^◌, ◌<◌, nat_lt, IsTrue, IfOk, IsOkUnless};
ghost use Rattle.ibc_ids.specs.Names.{is_port, is_channel};
ghost use Rattle.ibc_ids.specs.Paths.{is_key};
ghost use Rattle.ibc_ids.specs.declared.refusal.Refusal.TheVariants.{NoMemory};
ghost use Rattle.ibc_machine.specs.ics24.Image.{core_root, IsKeyed};
ghost use Rattle.ibc_machine.specs.ics18.Relay.{proof_at};
ghost use Rattle.ibc_ledger.specs.ProvedView.{IsProved, view_with};

use ibc_ids::{Bytes, ChannelId, Key, PortId, Refusal, Root};
use ibc_path_store::CommittedTree;
use ibc_records::CoreRecords;
use ibc_wire::encode;
use std::alloc::Global;
use std::marker::Model;
use std::sync::Arc;

/// What a chain proves as it stands at its last committed height, 0 if there is none, with the time of that height and
/// that of the working block (ICS 18, "Relayer algorithm"). It is a value of its own: it stays as it is while its chain
/// goes on, and any thread may read it. Contracts see the view as the definitions have it.
#[derive(Drop, Debug)]
pub struct View {
    chain: u8,
    height: u64,
    time: u64,
    working_time: u64,
    plain: Arc<CoreRecords, Global>,
    tree: Option<CommittedTree>,
}

impl Model for View {
    ghost use Rattle.ibc_machine.specs.ics18.Relay.{View as PlainView};
    ghost use Rattle.ibc_ledger.specs.ProvedView.{IsProved};

    ghost Value = { PlainView };

    ghost view = { λ view. record {
      chain = view.chain;
      height = view.height;
      time = view.time;
      working_time = view.working_time;
      core = view.plain.value;
    } };

    ghost invariant = { λ view. IsProved view.height view.plain.value view.tree };
}

impl View {
    /// The view of a chain by its number: its last committed height, 0 if there is none, the time of that height and of the
    /// working block, what stood at the height, and the tree over it.
    pub fn new(
        chain: u8,
        height: u64,
        times: (u64, u64),
        plain: Arc<CoreRecords, Global>,
        tree: Option<CommittedTree>,
    ) -> View
        requires { IsProved height plain.value tree }
        ensures { result ≡ view_with chain height times plain.value }
    {
        let (time, working_time) = times;
        View {
            chain,
            height,
            time,
            working_time,
            plain,
            tree,
        }
    }

    /// The number of the chain.
    pub fn chain(&self) -> u8
        ensures { result ≡ self.now.chain }
    {
        self.chain
    }

    /// The last committed height, 0 if there is none.
    pub fn height(&self) -> u64
        ensures { result ≡ self.now.height }
    {
        self.height
    }

    /// The time of the last committed height, 0 if there is none.
    pub fn time(&self) -> u64
        ensures { result ≡ self.now.time }
    {
        self.time
    }

    /// The time of the working block.
    pub fn working_time(&self) -> u64
        ensures { result ≡ self.now.working_time }
    {
        self.working_time
    }

    /// What stood at the height, in plain.
    pub fn plain(&self) -> &CoreRecords
        ensures { result.now ≡ self.now.core }
    {
        &self.plain
    }

    /// Every key that has a value has names for its names (ICS 24, "Identifiers").
    pub fn lemma_names_have_form(&self)
        ensures { IsKeyed self.now.core }
    {
        let _height = self.height;
    }

    /// The root of the height (ICS 23, "CommitmentRoot"). Nothing is hashed for it.
    pub fn root(&self) -> Root
        requires { 0 < self.now.height }
        ensures { result ≡ core_root self.now.core }
    {
        let Some(tree) = &self.tree else {
            unreachable!();
        };
        tree.root()
    }

    /// The bytes of the proof of what the height has at a key: of its presence where it is there, and of its absence where not
    /// (ICS 23, "CommitmentProof"). Nothing is hashed for it. `NoMemory` where a growth is refused.
    pub fn prove(&self, alloc: Global, key: &Key) -> Result<Bytes, Refusal>
        requires { 0 < self.now.height }
        ensures ok { IfOk result (λ bytes. bytes ≡ proof_at self.now key.now) }
        ensures err { IsOkUnless result NoMemory }
    {
        lemma_is_named(key);
        let Some(tree) = &self.tree else {
            unreachable!();
        };
        let path = key.path(alloc)?;
        let proof = tree.prove(alloc, path.as_bytes())?;
        let bytes = encode(alloc, &proof);
        drop(proof);
        Ok(Bytes::from_vec(bytes?))
    }
}

// A key has names for its names (ICS 24, "Identifiers").
fn lemma_is_named(key: &Key)
    ensures { IsTrue (is_key key.now) }
{
    match key {
        Key::ClientState(id) => id.lemma_has_form(),
        Key::Connection(id) => id.lemma_has_form(),
        Key::ChannelEnd(port, channel)
        | Key::NextSequenceSend(port, channel)
        | Key::NextSequenceRecv(port, channel)
        | Key::NextSequenceAck(port, channel) => lemma_are_names(port, channel),
        Key::Commitment(port, channel, sequence)
        | Key::Receipt(port, channel, sequence)
        | Key::Acknowledgement(port, channel, sequence) => lemma_packet_is_named(
            port, channel, *sequence,
        ),
        Key::NextClientSequence | Key::NextConnectionSequence | Key::NextChannelSequence => (),
    }
}

fn lemma_are_names(port: &PortId, channel: &ChannelId)
    ensures { IsTrue (is_port port.now && is_channel channel.now) }
{
    port.lemma_has_form();
    channel.lemma_has_form();
}

fn lemma_packet_is_named(port: &PortId, channel: &ChannelId, sequence: u64)
    ensures { IsTrue (is_port port.now && is_channel channel.now && nat_lt sequence (2 ^ 64)) }
{
    lemma_are_names(port, channel);
    let _sequence = sequence;
}
