//! The ends of channels, with their peers.

ghost use Rattle.std.specs.Prelude.{◌≡◌, ◌<◌, ◌++◌, [], Some, is_some, option_copied, IsTrue, IfSome, IfOk, OnOk, IsOkUnless};
ghost use Rattle.std.specs.FinMap.{is_sorted};
ghost use Rattle.std.specs.Ordering.{nat_cmp};
ghost use Rattle.std.specs.List.{cons_option};
ghost use Rattle.ibc_ids.specs.declared.refusal.Refusal.TheVariants.{NoMemory};
ghost use Rattle.ibc_machine.specs.ics04.Channels.{client_of};
ghost use Rattle.ibc_machine.specs.chain.Records.{client_at, connection_at};
ghost use Rattle.ibc_machine.specs.ics18.Relay as relay;
ghost use Rattle.ibc_relayer.specs.EndPackets.{IsClosedProof};
ghost use Rattle.ibc_relayer.specs.EndPairs.{IsFoundEndPair, tracks_chain};
ghost use Rattle.ibc_relayer.specs.PlannedEnds.{messages_for, receive_messages, ack_messages, timeout_messages};

use crate::due::has_peer;
use ibc_ids::{Bytes, ChannelId, ClientId, PortId, Refusal};
use ibc_ledger::View;
use ibc_records::Channel;
use ibc_wire::{ChannelState, ConnectionEnd, Message};
use std::alloc::{AllocError, Global};

/// An end of a channel on `b` with its peer on `a`: the end's port and name, the peer's name,
/// the client under the end, and what stands at both.
#[derive(Clone, Copy)]
pub struct Ends<'v> {
    pub a: &'v View,
    pub b: &'v View,
    pub port: &'v PortId,
    pub channel: &'v ChannelId,
    pub peer: &'v ChannelId,
    pub client: &'v ClientId,
    pub mine: &'v Channel,
    pub theirs: &'v Channel,
}

impl<'v> Ends<'v> {
    /// The peer's port.
    pub fn peer_port(&self) -> &'v PortId
        ensures { result.now ≡ self.now.mine.now.end.peer_port }
    {
        &self.mine.end().peer_port
    }

    /// What was sent at both ends is in the order of the sequences.
    pub fn lemma_in_order(&self)
        ensures mine { IsTrue (is_sorted nat_cmp self.now.mine.now.commitments) }
        ensures theirs { IsTrue (is_sorted nat_cmp self.now.theirs.now.commitments) }
    {
        self.mine.lemma_is_in_order();
        self.theirs.lemma_is_in_order();
    }

    /// Adds all messages for the end. `NoMemory` where a growth is refused.
    pub fn plan(&self, alloc: Global, messages: &mut Vec<Message>) -> Result<(), Refusal>
        requires height { 0 < self.now.a.now.height }
        requires peer { self.now.mine.now.end.peer_channel ≡ Some self.now.peer.now }
        ensures ok { OnOk result (messages.new.items ≡ messages.old.items ++ messages_for self.now) }
        ensures err { IsOkUnless result NoMemory }
    {
        match self.mine.end().state {
            ChannelState::Open => {
                self.receive_all(alloc, messages)?;
                self.acknowledge_all(alloc, messages)?;
                self.time_out_all(alloc, messages)
            }
            ChannelState::Closed => self.time_out_all(alloc, messages),
            ChannelState::Init | ChannelState::TryOpen => Ok(()),
        }
    }

    // The packets that the peer sent.
    fn receive_all(&self, alloc: Global, messages: &mut Vec<Message>) -> Result<(), Refusal>
        requires height { 0 < self.now.a.now.height }
        requires peer { self.now.mine.now.end.peer_channel ≡ Some self.now.peer.now }
        ensures ok { OnOk result (messages.new.items ≡ messages.old.items ++ receive_messages self.now) }
        ensures err { IsOkUnless result NoMemory }
    {
        for (sequence, commitment) in self.theirs.commitments() {
            add(messages, self.receive(alloc, *sequence, commitment)?)?;
        }
        Ok(())
    }

    // The packets that the peer acknowledged.
    fn acknowledge_all(&self, alloc: Global, messages: &mut Vec<Message>) -> Result<(), Refusal>
        requires height { 0 < self.now.a.now.height }
        requires peer { self.now.mine.now.end.peer_channel ≡ Some self.now.peer.now }
        ensures ok { OnOk result (messages.new.items ≡ messages.old.items ++ ack_messages self.now) }
        ensures err { IsOkUnless result NoMemory }
    {
        for (sequence, commitment) in self.mine.commitments() {
            add(messages, self.acknowledge(alloc, *sequence, commitment)?)?;
        }
        Ok(())
    }

    // The packets that the peer won't receive any more.
    fn time_out_all(&self, alloc: Global, messages: &mut Vec<Message>) -> Result<(), Refusal>
        requires height { 0 < self.now.a.now.height }
        requires peer { self.now.mine.now.end.peer_channel ≡ Some self.now.peer.now }
        ensures ok { OnOk result (messages.new.items ≡ messages.old.items ++ timeout_messages self.now) }
        ensures err { IsOkUnless result NoMemory }
    {
        let mut closed = None;
        let done = self.time_out_each(alloc, &mut closed, messages);
        drop(closed);
        done
    }

    // The packets that the peer won't receive any more. The proof of the peer's end is kept once it is made.
    fn time_out_each(
        &self,
        alloc: Global,
        closed: &mut Option<Bytes>,
        messages: &mut Vec<Message>,
    ) -> Result<(), Refusal>
        requires height { 0 < self.now.a.now.height }
        requires peer { self.now.mine.now.end.peer_channel ≡ Some self.now.peer.now }
        requires closed { IsClosedProof self.now.a.now self.now.mine.now closed.old }
        ensures ok { OnOk result (messages.new.items ≡ messages.old.items ++ timeout_messages self.now) }
        ensures err { IsOkUnless result NoMemory }
    {
        for (sequence, commitment) in self.mine.commitments() {
            add(
                messages,
                self.time_out(alloc, *sequence, commitment, closed)?,
            )?;
        }
        Ok(())
    }
}

// Adds a message, if there is one.
fn add(messages: &mut Vec<Message>, made: Option<Message>) -> Result<(), AllocError>
    ensures { OnOk result (messages.new.items ≡ messages.old.items ++ cons_option made []) }
{
    match made {
        Some(message) => Ok(messages.push(message)?),
        None => Ok(()),
    }
}

/// An end of `b` with its peer on `a`, where `a`'s chain is the peer's and has an end that names this one back. `NoMemory`
/// where a growth is refused.
pub fn ends_of<'v>(
    a: &'v View,
    b: &'v View,
    port: &'v PortId,
    channel: &'v ChannelId,
    mine: &'v Channel,
) -> Result<Option<Ends<'v>>, Refusal>
    ensures ok { IfOk result (IsFoundEndPair a.now b.now port.now channel.now mine.now) }
    ensures err { IsOkUnless result NoMemory }
{
    a.lemma_names_have_form();
    let Some(client) = tracking(a, b, mine) else {
        return Ok(None);
    };
    let Some(peer) = &mine.end().peer_channel else {
        return Ok(None);
    };
    let name = (mine.end().peer_port.clone()?, peer.clone()?);
    let Some(theirs) = a.plain().channels().get(&name) else {
        return Ok(None);
    };
    if !has_peer(theirs, port, channel) {
        return Ok(None);
    }
    Ok(Some(Ends {
        a,
        b,
        port,
        channel,
        peer,
        client,
        mine,
        theirs,
    }))
}

// The client under an end of `b`, where it tracks `a`'s chain.
fn tracking<'v>(a: &View, b: &'v View, mine: &Channel) -> Option<&'v ClientId>
    ensures tracks { is_some result ≡ relay.tracks a.now b.now mine.now }
    ensures client { IfSome result (λ id. client_of b.now.core mine.now.end.connection ≡ id.now) }
{
    b.lemma_names_have_form();
    let Some(connection) = connection_of(b, mine) else {
        return None;
    };
    if is_of_chain(b, &connection.client, a.chain()) {
        Some(&connection.client)
    } else {
        None
    }
}

// The connection of an end.
fn connection_of<'v>(b: &'v View, mine: &Channel) -> Option<&'v ConnectionEnd>
    ensures { option_copied result ≡ connection_at b.now.core mine.now.end.connection }
{
    b.plain().connections().get(&mine.end().connection)
}

// Whether there is such a client, and it tracks the chain.
fn is_of_chain(b: &View, client: &ClientId, chain: u8) -> bool
    ensures { result ≡ tracks_chain chain (client_at b.now.core client.now) }
{
    match b.plain().clients().get(client) {
        Some(client) => client.state().chain == chain,
        None => false,
    }
}
