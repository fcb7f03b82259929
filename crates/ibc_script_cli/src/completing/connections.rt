//! Messages for connections.

ghost use Rattle.std.specs.Prelude.{◌≡◌, Some, IfOk, IsOkUnless};
ghost use Rattle.ibc_script_cli.specs.Completing.{connection_message, peer_connection_key, IsConnectionOf, MakesConnectionMessage};
ghost use Rattle.ibc_script_cli.specs.Completers.{ShowsAck, ShowsBoth, ShowsConfirm, ShowsConnection, findings};
ghost use Rattle.ibc_script.specs.declared.draft.ConnectionDraft.TheVariants as step;

use super::{ClientClaim, Completer};
use crate::Chains;
use ibc_ids::{Bytes, ClientId, ConnectionId, Key};
use ibc_script::{ConnectionDraft, Fault, ProofSource};
use ibc_wire::{ConnOpenAck, ConnOpenConfirm, ConnOpenInit, ConnOpenTry, ConnectionEnd, Message};

/// What is shown of the peer: the proof of its end of a connection, and what is claimed of its client. Each is `None`
/// where it isn't there, or the message needs none.
#[derive(Drop)]
struct Shown {
    end: Option<Bytes>,
    claim: Option<ClientClaim>,
}

/// Nothing of the peer.
fn nothing() -> Shown
    ensures { result ≡ record { end = None; claim = None } }
{
    Shown {
        end: None,
        claim: None,
    }
}

/// The key of the connection that an own end names as the peer's.
fn peer_connection_key(own: ConnectionEnd) -> Option<Key>
    ensures { result ≡ peer_connection_key own }
{
    let ConnectionEnd {
        peer_connection,
        ..
    } = own;
    match peer_connection {
        Some(peer_connection) => Some(Key::Connection(peer_connection)),
        None => None,
    }
}

// The message of a step ConnOpenTry with what is shown of the peer.
fn open_try_message(
    client: ClientId,
    peer_client: ClientId,
    peer_connection: ConnectionId,
    from: ProofSource,
    shown: Shown,
) -> Option<Message>
    ensures { result ≡ connection_message (step.OpenTry client peer_client peer_connection from) shown.end shown.claim }
{
    let Shown { end, claim } = shown;
    let (proof_end, claim) = (end?, claim?);
    Some(Message::ConnOpenTry(ConnOpenTry {
        client,
        peer_client,
        peer_connection,
        claim: claim.state,
        height: from.height,
        proof_end,
        proof_client: claim.proof,
    }))
}

// The message of a step ConnOpenAck with what is shown of the peer.
fn open_ack_message(
    connection: ConnectionId,
    peer_connection: ConnectionId,
    from: ProofSource,
    shown: Shown,
) -> Option<Message>
    ensures { result ≡ connection_message (step.OpenAck connection peer_connection from) shown.end shown.claim }
{
    let Shown { end, claim } = shown;
    let (proof_end, claim) = (end?, claim?);
    Some(Message::ConnOpenAck(ConnOpenAck {
        connection,
        peer_connection,
        claim: claim.state,
        height: from.height,
        proof_end,
        proof_client: claim.proof,
    }))
}

// The message of a step ConnOpenConfirm with what is shown of the peer.
fn open_confirm_message(
    connection: ConnectionId,
    from: ProofSource,
    shown: Shown,
) -> Option<Message>
    ensures { result ≡ connection_message (step.OpenConfirm connection from) shown.end shown.claim }
{
    let proof = shown.end?;
    Some(Message::ConnOpenConfirm(ConnOpenConfirm {
        connection,
        height: from.height,
        proof,
    }))
}

/// The message that a step becomes with what is shown of the peer, `None` where something that it needs isn't there.
fn connection_message(draft: ConnectionDraft, shown: Shown) -> Option<Message>
    ensures { result ≡ connection_message draft shown.end shown.claim }
{
    match draft {
        ConnectionDraft::OpenInit {
            client,
            peer_client,
        } => {
            Some(Message::ConnOpenInit(ConnOpenInit {
                client,
                peer_client,
            }))
        }
        ConnectionDraft::OpenTry {
            client,
            peer_client,
            peer_connection,
            from,
        } => open_try_message(client, peer_client, peer_connection, from, shown),
        ConnectionDraft::OpenAck {
            connection,
            peer_connection,
            from,
        } => open_ack_message(connection, peer_connection, from, shown),
        ConnectionDraft::OpenConfirm { connection, from } => {
            open_confirm_message(connection, from, shown)
        }
    }
}

impl<C: Chains + Drop> Completer<'_, C> {
    // The end of a connection of a chain as it stands.
    fn own_connection(
        &self,
        on: u8,
        connection: &ConnectionId,
    ) -> Result<Option<ConnectionEnd>, Fault>
        ensures found { IfOk result (IsConnectionOf (findings C.known self.now) on connection.now) }
        ensures err { IsOkUnless result Fault.NoMemory }
    {
        self.standing(on, Key::Connection(connection.clone()?))
    }

    // The proof of the peer's end of a connection, and what is claimed of its client.
    fn peer_shown(
        &self,
        from: ProofSource,
        peer_connection: &ConnectionId,
        peer_client: &ClientId,
    ) -> Result<Shown, Fault>
        ensures shown { IfOk result (ShowsBoth C.known self.now from peer_connection.now peer_client.now) }
        ensures err { IsOkUnless result Fault.NoMemory }
    {
        let end = self.proof(from, Key::Connection(peer_connection.clone()?))?;
        match self.claim(from, peer_client) {
            Ok(claim) => Ok(Shown { end, claim }),
            Err(fault) => {
                drop(end);
                Err(fault)
            }
        }
    }

    // What the opening of a connection needs that the peer answered.
    fn ack_shown(
        &self,
        on: u8,
        connection: &ConnectionId,
        peer_connection: &ConnectionId,
        from: ProofSource,
    ) -> Result<Shown, Fault>
        ensures shown { IfOk result (ShowsAck C.known self.now on connection.now peer_connection.now from) }
        ensures err { IsOkUnless result Fault.NoMemory }
    {
        match self.own_connection(on, connection)? {
            Some(own) => {
                let shown = self.peer_shown(from, peer_connection, &own.peer_client);
                drop(own);
                shown
            }
            None => Ok(nothing()),
        }
    }

    // What the opening of a connection needs that the peer opened.
    fn confirm_shown(
        &self,
        on: u8,
        connection: &ConnectionId,
        from: ProofSource,
    ) -> Result<Shown, Fault>
        ensures shown { IfOk result (ShowsConfirm C.known self.now on connection.now from) }
        ensures err { IsOkUnless result Fault.NoMemory }
    {
        match self
            .own_connection(on, connection)?
            .and_then(peer_connection_key)
        {
            Some(key) => Ok(Shown {
                end: self.proof(from, key)?,
                claim: None,
            }),
            None => Ok(nothing()),
        }
    }

    // What a step needs.
    fn connection_shown(&self, on: u8, draft: &ConnectionDraft) -> Result<Shown, Fault>
        ensures shown { IfOk result (ShowsConnection C.known self.now on draft.now) }
        ensures err { IsOkUnless result Fault.NoMemory }
    {
        match draft {
            ConnectionDraft::OpenInit { .. } => Ok(nothing()),
            ConnectionDraft::OpenTry {
                peer_client,
                peer_connection,
                from,
                ..
            } => { self.peer_shown(*from, peer_connection, peer_client) }
            ConnectionDraft::OpenAck {
                connection,
                peer_connection,
                from,
            } => { self.ack_shown(on, connection, peer_connection, *from) }
            ConnectionDraft::OpenConfirm { connection, from } => {
                self.confirm_shown(on, connection, *from)
            }
        }
    }

    /// The message for connections that a step of a chain sends, `None` where something that it needs isn't there.
    /// Fault: `NoMemory`.
    pub fn connection_message(
        &self,
        on: u8,
        draft: ConnectionDraft,
    ) -> Result<Option<Message>, Fault>
        ensures made { IfOk result (MakesConnectionMessage (findings C.known self.now) on draft) }
        ensures err { IsOkUnless result Fault.NoMemory }
    {
        match self.connection_shown(on, &draft) {
            Ok(shown) => Ok(connection_message(draft, shown)),
            Err(fault) => {
                drop(draft);
                Err(fault)
            }
        }
    }
}
