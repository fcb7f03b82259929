//! Messages for channels.

ghost use Rattle.std.specs.Prelude.{◌≡◌, IfOk, IsOkUnless};
ghost use Rattle.ibc_script_cli.specs.Completing.{channel_message, peer_key, answer_key, IsChannelOf, IsPeerProof, IsChannelProof, MakesChannelMessage};
ghost use Rattle.ibc_script_cli.specs.Completers.{FindsEnd, findings};
ghost use Rattle.ibc_ids.specs.declared.key.Key.TheVariants as key;
ghost use Rattle.ibc_script.specs.declared.draft.ChannelDraft.TheVariants as step;

use super::Completer;
use crate::Chains;
use ibc_ids::{Bytes, ChannelId, Key, PortId};
use ibc_script::{ChannelDraft, ChannelTry, Fault, ProofSource};
use ibc_wire::{ChanCloseConfirm, ChanOpenAck, ChanOpenConfirm, ChanOpenTry, ChannelEnd, Message};
use std::alloc::AllocError;

/// The key of the end that an own end names as the peer's, `None` in state INIT.
fn peer_key(own: ChannelEnd) -> Option<Key>
    ensures { result ≡ peer_key own }
{
    let ChannelEnd {
        peer_port,
        peer_channel,
        ..
    } = own;
    match peer_channel {
        Some(peer_channel) => Some(Key::ChannelEnd(peer_port, peer_channel)),
        None => None,
    }
}

// The port that an own end names as the peer's.
fn peer_port_of(own: ChannelEnd) -> PortId
    ensures { result ≡ own.peer_port }
{
    let ChannelEnd { peer_port, .. } = own;
    peer_port
}

// The key of an end of a channel.
fn end_key(port: &PortId, channel: &ChannelId) -> Result<Key, AllocError>
    ensures { IfOk result (λ end. end ≡ key.ChannelEnd port.now channel.now) }
{
    Ok(Key::ChannelEnd(port.clone()?, channel.clone()?))
}

// The key of the end of a channel that a message names, on the port that the own end names.
fn answer_key(own: ChannelEnd, peer_channel: &ChannelId) -> Result<Key, AllocError>
    ensures { IfOk result (λ end. end ≡ answer_key peer_channel.now own) }
{
    let peer_port = peer_port_of(own);
    Ok(Key::ChannelEnd(peer_port, peer_channel.clone()?))
}

// The message of a step ChanOpenTry with the proof of the peer's end.
fn open_try_message(draft: ChannelTry, proof: Option<Bytes>) -> Option<Message>
    ensures { result ≡ channel_message (step.OpenTry draft) proof }
{
    let proof = proof?;
    Some(Message::ChanOpenTry(ChanOpenTry {
        port: draft.port,
        order: draft.order,
        connection: draft.connection,
        peer_port: draft.peer_port,
        peer_channel: draft.peer_channel,
        version: draft.version,
        height: draft.from.height,
        proof,
    }))
}

// The message of a step ChanOpenAck with the proof of the peer's end.
fn open_ack_message(
    port: PortId,
    channel: ChannelId,
    peer_channel: ChannelId,
    from: ProofSource,
    proof: Option<Bytes>,
) -> Option<Message>
    ensures { result ≡ channel_message (step.OpenAck port channel peer_channel from) proof }
{
    let proof = proof?;
    Some(Message::ChanOpenAck(ChanOpenAck {
        port,
        channel,
        peer_channel,
        height: from.height,
        proof,
    }))
}

// The message of a step ChanOpenConfirm with the proof of the peer's end.
fn open_confirm_message(
    port: PortId,
    channel: ChannelId,
    from: ProofSource,
    proof: Option<Bytes>,
) -> Option<Message>
    ensures { result ≡ channel_message (step.OpenConfirm port channel from) proof }
{
    let proof = proof?;
    Some(Message::ChanOpenConfirm(ChanOpenConfirm {
        port,
        channel,
        height: from.height,
        proof,
    }))
}

// The message of a step ChanCloseConfirm with the proof of the peer's end.
fn close_confirm_message(
    port: PortId,
    channel: ChannelId,
    from: ProofSource,
    proof: Option<Bytes>,
) -> Option<Message>
    ensures { result ≡ channel_message (step.CloseConfirm port channel from) proof }
{
    let proof = proof?;
    Some(Message::ChanCloseConfirm(ChanCloseConfirm {
        port,
        channel,
        height: from.height,
        proof,
    }))
}

/// The message that a step becomes with the proof of the peer's end, `None` where one that it needs isn't there.
fn channel_message(draft: ChannelDraft, proof: Option<Bytes>) -> Option<Message>
    ensures { result ≡ channel_message draft proof }
{
    match draft {
        ChannelDraft::OpenInit(message) => Some(Message::ChanOpenInit(message)),
        ChannelDraft::CloseInit(message) => Some(Message::ChanCloseInit(message)),
        ChannelDraft::OpenTry(draft) => open_try_message(draft, proof),
        ChannelDraft::OpenAck {
            port,
            channel,
            peer_channel,
            from,
        } => open_ack_message(port, channel, peer_channel, from, proof),
        ChannelDraft::OpenConfirm {
            port,
            channel,
            from,
        } => open_confirm_message(port, channel, from, proof),
        ChannelDraft::CloseConfirm {
            port,
            channel,
            from,
        } => close_confirm_message(port, channel, from, proof),
    }
}

impl<C: Chains + Drop> Completer<'_, C> {
    /// The end of a channel of a chain as it stands.
    pub(super) fn own_end(
        &self,
        on: u8,
        port: &PortId,
        channel: &ChannelId,
    ) -> Result<Option<ChannelEnd>, Fault>
        ensures found { IfOk result (IsChannelOf (findings C.known self.now) on port.now channel.now) }
        ensures err { IsOkUnless result Fault.NoMemory }
    {
        self.standing(on, end_key(port, channel)?)
    }

    /// The proof of the peer's end that the message names, on the port that the own end names.
    fn answer_proof(
        &self,
        on: u8,
        port: &PortId,
        channel: &ChannelId,
        peer_channel: &ChannelId,
        from: ProofSource,
    ) -> Result<Option<Bytes>, Fault>
        ensures is { IfOk result (FindsEnd C.known self.now on port.now channel.now peer_channel.now from) }
        ensures err { IsOkUnless result Fault.NoMemory }
    {
        match self.own_end(on, port, channel)? {
            Some(own) => self.proof(from, answer_key(own, peer_channel)?),
            None => Ok(None),
        }
    }

    /// The proof of the end that the own end names as the peer's.
    fn peer_proof(
        &self,
        on: u8,
        port: &PortId,
        channel: &ChannelId,
        from: ProofSource,
    ) -> Result<Option<Bytes>, Fault>
        ensures is { IfOk result (IsPeerProof (findings C.known self.now) on port.now channel.now from) }
        ensures err { IsOkUnless result Fault.NoMemory }
    {
        match self.own_end(on, port, channel)?.and_then(peer_key) {
            Some(key) => self.proof(from, key),
            None => Ok(None),
        }
    }

    // The proof that a step needs.
    fn channel_proof(&self, on: u8, draft: &ChannelDraft) -> Result<Option<Bytes>, Fault>
        ensures is { IfOk result (IsChannelProof (findings C.known self.now) on draft.now) }
        ensures err { IsOkUnless result Fault.NoMemory }
    {
        match draft {
            ChannelDraft::OpenInit(_) | ChannelDraft::CloseInit(_) => Ok(None),
            ChannelDraft::OpenTry(draft) => {
                self.proof(draft.from, end_key(&draft.peer_port, &draft.peer_channel)?)
            }
            ChannelDraft::OpenAck {
                port,
                channel,
                peer_channel,
                from,
            } => { self.answer_proof(on, port, channel, peer_channel, *from) }
            ChannelDraft::OpenConfirm {
                port,
                channel,
                from,
            } => { self.peer_proof(on, port, channel, *from) }
            ChannelDraft::CloseConfirm {
                port,
                channel,
                from,
            } => { self.peer_proof(on, port, channel, *from) }
        }
    }

    /// The message for channels that a step of a chain sends, `None` where something that it needs isn't there.
    /// Fault: `NoMemory`.
    pub fn channel_message(&self, on: u8, draft: ChannelDraft) -> Result<Option<Message>, Fault>
        ensures made { IfOk result (MakesChannelMessage (findings C.known self.now) on draft) }
        ensures err { IsOkUnless result Fault.NoMemory }
    {
        match self.channel_proof(on, &draft) {
            Ok(proof) => Ok(channel_message(draft, proof)),
            Err(fault) => {
                drop(draft);
                Err(fault)
            }
        }
    }
}
