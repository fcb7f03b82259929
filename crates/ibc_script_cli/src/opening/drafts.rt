//! The messages of the turns of an `open`.

ghost use Rattle.std.specs.Prelude.{◌≡◌, IfOk, IsOkUnless};
ghost use Rattle.std.specs.Option.{option_zip};
ghost use Rattle.ibc_script.specs.Applications.{port_of, version_of};
ghost use Rattle.ibc_script_cli.specs.Opening.{update_draft, init_draft, try_draft, ack_draft, confirm_draft, channel_init_draft, channel_try_draft, channel_ack_draft, channel_confirm_draft, draft_from_both, draft_from_own, draft_of_kind};

use super::HandshakeParty;
use ibc_ids::{Name, NameKind, PortId, Version};
use ibc_script::{
    Application, ChannelDraft, ChannelTry, ClientDraft, ConnectionDraft, Draft, Fault,
};
use ibc_wire::{ChanOpenInit, MessageKind};
use std::alloc::{AllocError, Global};

/// What a message of an `open` is made of: the application, the chain that it is sent to, and the other one.
#[derive(Clone, Copy)]
pub struct DraftWriter<'p> {
    pub alloc: Global,
    pub application: Application,
    pub own: &'p HandshakeParty,
    pub peer: &'p HandshakeParty,
}

/// What the two ends of an application's channel agree on.
#[derive(Drop)]
struct Terms {
    port: PortId,
    peer_port: PortId,
    version: Version,
}

/// Copies of two names, `None` where one of them isn't there.
fn both<K: NameKind, L: NameKind>(
    first: &Option<Name<K>>,
    second: &Option<Name<L>>,
) -> Result<Option<(Name<K>, Name<L>)>, AllocError>
    ensures { IfOk result (λ names. names ≡ option_zip first.now second.now) }
{
    let (Some(first), Some(second)) = (first, second) else {
        return Ok(None);
    };
    Ok(Some((first.clone()?, second.clone()?)))
}

impl DraftWriter<'_> {
    fn update_client(&self) -> Result<Option<Draft>, Fault>
        ensures made { IfOk result (λ made. made ≡ update_draft self.now.own.now self.now.peer.now) }
        ensures memory { IsOkUnless result Fault.NoMemory }
    {
        let Some(client) = &self.own.client else {
            return Ok(None);
        };
        Ok(Some(Draft::Client(ClientDraft::Update {
            client: client.clone()?,
            height: self.peer.height,
        })))
    }

    fn conn_open_init(&self) -> Result<Option<Draft>, Fault>
        ensures made { IfOk result (λ made. made ≡ init_draft self.now.own.now self.now.peer.now) }
        ensures memory { IsOkUnless result Fault.NoMemory }
    {
        match both(&self.own.client, &self.peer.client)? {
            Some((client, peer_client)) => {
                Ok(Some(Draft::Connection(ConnectionDraft::OpenInit {
                    client,
                    peer_client,
                })))
            }
            None => Ok(None),
        }
    }

    fn conn_open_try(&self) -> Result<Option<Draft>, Fault>
        ensures made { IfOk result (λ made. made ≡ try_draft self.now.own.now self.now.peer.now) }
        ensures memory { IsOkUnless result Fault.NoMemory }
    {
        let Some(peer_connection) = &self.peer.connection else {
            return Ok(None);
        };
        match both(&self.own.client, &self.peer.client)? {
            Some((client, peer_client)) => Ok(Some(Draft::Connection(ConnectionDraft::OpenTry {
                client,
                peer_client,
                peer_connection: peer_connection.clone()?,
                from: self.peer.origin(),
            }))),
            None => Ok(None),
        }
    }

    fn conn_open_ack(&self) -> Result<Option<Draft>, Fault>
        ensures made { IfOk result (λ made. made ≡ ack_draft self.now.own.now self.now.peer.now) }
        ensures memory { IsOkUnless result Fault.NoMemory }
    {
        match both(&self.own.connection, &self.peer.connection)? {
            Some((connection, peer_connection)) => {
                Ok(Some(Draft::Connection(ConnectionDraft::OpenAck {
                    connection,
                    peer_connection,
                    from: self.peer.origin(),
                })))
            }
            None => Ok(None),
        }
    }

    fn conn_open_confirm(&self) -> Result<Option<Draft>, Fault>
        ensures made { IfOk result (λ made. made ≡ confirm_draft self.now.own.now self.now.peer.now) }
        ensures memory { IsOkUnless result Fault.NoMemory }
    {
        let Some(connection) = &self.own.connection else {
            return Ok(None);
        };
        Ok(Some(Draft::Connection(ConnectionDraft::OpenConfirm {
            connection: connection.clone()?,
            from: self.peer.origin(),
        })))
    }

    // What the two ends of the application's channel agree on.
    fn terms(&self) -> Result<Terms, Fault>
        ensures port { IfOk result (λ terms. terms.port ≡ port_of self.now.application) }
        ensures peer_port { IfOk result (λ terms. terms.peer_port ≡ port_of self.now.application) }
        ensures version { IfOk result (λ terms. terms.version ≡ version_of self.now.application) }
        ensures memory { IsOkUnless result Fault.NoMemory }
    {
        Ok(Terms {
            port: self.application.port(self.alloc)?,
            peer_port: self.application.port(self.alloc)?,
            version: self.application.version(self.alloc)?,
        })
    }

    fn chan_open_init(&self) -> Result<Option<Draft>, Fault>
        ensures made { IfOk result (λ made. made ≡ draft_from_own channel_init_draft self.now) }
        ensures memory { IsOkUnless result Fault.NoMemory }
    {
        let Some(connection) = &self.own.connection else {
            return Ok(None);
        };
        let connection = connection.clone()?;
        let terms = self.terms()?;
        Ok(Some(Draft::Channel(ChannelDraft::OpenInit(ChanOpenInit {
            port: terms.port,
            order: self.application.order(),
            connection,
            peer_port: terms.peer_port,
            version: terms.version,
        }))))
    }

    fn chan_open_try(&self) -> Result<Option<Draft>, Fault>
        ensures made { IfOk result (λ made. made ≡ draft_from_both channel_try_draft self.now) }
        ensures memory { IsOkUnless result Fault.NoMemory }
    {
        let Some((connection, peer_channel)) = both(&self.own.connection, &self.peer.channel)?
        else {
            return Ok(None);
        };
        let terms = self.terms()?;
        Ok(Some(Draft::Channel(ChannelDraft::OpenTry(ChannelTry {
            port: terms.port,
            order: self.application.order(),
            connection,
            peer_port: terms.peer_port,
            peer_channel,
            version: terms.version,
            from: self.peer.origin(),
        }))))
    }

    fn chan_open_ack(&self) -> Result<Option<Draft>, Fault>
        ensures made { IfOk result (λ made. made ≡ draft_from_both channel_ack_draft self.now) }
        ensures memory { IsOkUnless result Fault.NoMemory }
    {
        let Some((channel, peer_channel)) = both(&self.own.channel, &self.peer.channel)? else {
            return Ok(None);
        };
        Ok(Some(Draft::Channel(ChannelDraft::OpenAck {
            port: self.application.port(self.alloc)?,
            channel,
            peer_channel,
            from: self.peer.origin(),
        })))
    }

    fn chan_open_confirm(&self) -> Result<Option<Draft>, Fault>
        ensures made { IfOk result (λ made. made ≡ draft_from_both channel_confirm_draft self.now) }
        ensures memory { IsOkUnless result Fault.NoMemory }
    {
        let Some(channel) = &self.own.channel else {
            return Ok(None);
        };
        Ok(Some(Draft::Channel(ChannelDraft::OpenConfirm {
            port: self.application.port(self.alloc)?,
            channel: channel.clone()?,
            from: self.peer.origin(),
        })))
    }

    /// The message of a kind, `None` where `open` sends none of it, or it names something that no chain has given.
    /// Fault: `NoMemory`.
    pub fn draft(&self, kind: MessageKind) -> Result<Option<Draft>, Fault>
        ensures made { IfOk result (λ made. made ≡ draft_of_kind kind self.now) }
        ensures memory { IsOkUnless result Fault.NoMemory }
    {
        match kind {
            MessageKind::CreateClient => Ok(Some(Draft::Client(ClientDraft::Create {
                of: self.peer.chain,
            }))),
            MessageKind::UpdateClient => self.update_client(),
            MessageKind::ConnOpenInit => self.conn_open_init(),
            MessageKind::ConnOpenTry => self.conn_open_try(),
            MessageKind::ConnOpenAck => self.conn_open_ack(),
            MessageKind::ConnOpenConfirm => self.conn_open_confirm(),
            MessageKind::ChanOpenInit => self.chan_open_init(),
            MessageKind::ChanOpenTry => self.chan_open_try(),
            MessageKind::ChanOpenAck => self.chan_open_ack(),
            MessageKind::ChanOpenConfirm => self.chan_open_confirm(),
            _ => Ok(None),
        }
    }
}
