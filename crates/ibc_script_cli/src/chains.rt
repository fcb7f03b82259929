//! The chains that the steps of a script are run on.

ghost use Rattle.std.specs.Prelude.{IfOk};
ghost use Rattle.ibc_script_cli.specs.Balances.{listed_balances, listed_notes};
ghost use Rattle.ibc_script_cli.specs.ScriptChains.{ArePlans, ScriptChains, any_chains};

use ibc_ids::{Account, Bytes, ChannelId, Denom, Key, PortId, Refusal, Root};
use ibc_machine::{Event, Reply, Totals};
use ibc_merkle::Proof;
use ibc_wire::{Message, Packet};

/// What a chain committed at a height: its root, and the time of the block (ICS 2, "ConsensusState").
#[derive(Clone, Copy, Debug, PartialEq, Eq, Drop)]
pub struct CommittedBlock {
    pub root: Root,
    pub time: u64,
}

/// The chains that the steps of a script are run on, by their numbers. Each call is refused with `NoMemory` alone.
pub trait Chains {
    // How the chains go on by an event, and what they answer to the questions below.
    ghost known: { ScriptChains Self } = { any_chains };

    /// Asks a chain for an event.
    fn ask(&mut self, event: Event) -> Result<Reply, Refusal>
        ensures { IfOk result (λ reply. known.asked self.old event reply self.new) };

    /// What a chain has at a key as it stands, `None` where there is nothing (ICS 24, "Provable store").
    fn value(&self, chain: u8, key: &Key) -> Result<Option<Bytes>, Refusal>
        ensures { IfOk result ((known.answers self.now).value chain key.now) };

    /// The packet that a chain sent from an end of a channel under a sequence, whether its commitment still stands or
    /// not; `None` where it sent none.
    fn packet(
        &self,
        chain: u8,
        port: &PortId,
        channel: &ChannelId,
        sequence: u64,
    ) -> Result<Option<Packet>, Refusal>
        ensures { IfOk result ((known.answers self.now).packet chain port.now channel.now sequence) };

    /// The acknowledgement that a chain wrote at an end of a channel for the packet of a sequence, be it committed
    /// yet or not; `None` where it wrote none.
    fn ack(
        &self,
        chain: u8,
        port: &PortId,
        channel: &ChannelId,
        sequence: u64,
    ) -> Result<Option<Bytes>, Refusal>
        ensures { IfOk result ((known.answers self.now).ack chain port.now channel.now sequence) };

    /// The proof of what a committed height of a chain has at a key, `None` where the height isn't committed or its
    /// records are gone.
    fn proof(&self, chain: u8, height: u64, key: &Key) -> Result<Option<Proof>, Refusal>
        ensures { IfOk result ((known.answers self.now).proof chain height key.now) };

    /// What a chain committed at a height, `None` where the height isn't committed or its records are gone.
    fn block(&self, chain: u8, height: u64) -> Option<CommittedBlock>
        ensures { (known.answers self.now).block chain height result };

    /// The time of a chain's working block.
    fn working_time(&self, chain: u8) -> Result<u64, Refusal>
        ensures { IfOk result ((known.answers self.now).working_time chain) };

    /// What relayers plan between two chains, from views of both as they stand at their last blocks: the messages for the
    /// second, which prove from the first, and those for the first.
    fn plans(&self, first: u8, second: u8) -> Result<(Vec<Message>, Vec<Message>), Refusal>
        ensures { IfOk result (ArePlans known self.now first second) };
}

/// Chains that tell what they hold, by their numbers. Each call but `totals` is refused with `NoMemory` alone.
pub trait Holdings: Chains {
    /// What a channel of port `transfer` of a chain has of a denomination, or why it has none.
    fn totals(&self, chain: u8, channel: &ChannelId, denom: &Denom) -> Result<Totals, Refusal>
        ensures { (Self.known.answers self.now).totals chain channel.now denom.now result };

    /// The amounts above 0 on a chain, by account and then denomination, in the byte order of their texts.
    fn balances(&self, chain: u8) -> Result<Vec<(Account, Denom, u128)>, Refusal>
        ensures { IfOk result (λ it. (Self.known.answers self.now).balances chain (listed_balances it)) };

    /// The notes that came over each channel of a chain, in the order in which they came: the channels that have some,
    /// in the byte order of their texts.
    fn notes(&self, chain: u8) -> Result<Vec<(ChannelId, Vec<Bytes>)>, Refusal>
        ensures { IfOk result (λ list. (Self.known.answers self.now).notes chain (listed_notes list)) };
}
