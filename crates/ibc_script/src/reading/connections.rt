//! The steps that send messages for connections.

ghost use Rattle.std.specs.Prelude.{◌<◌, length, IfOk, IfErr, codes};
ghost use Rattle.ibc_ids.specs.Names.{is_client};
ghost use Rattle.ibc_script.specs.Faults.{IsScriptFault, OnlyWhereNone};
ghost use Rattle.ibc_script.specs.ScriptValues.{client_ends_fields};
ghost use Rattle.ibc_script.specs.Scripts.{IsConnectionAmong};
ghost use Rattle.ibc_script.specs.StepReading.{HasFields, HasName, IsConnectionDraft};

use super::step_reader::StepReader;
use crate::Fault;
use crate::draft::ConnectionDraft;
use crate::members::has_only;
use ibc_ids::ClientId;

impl StepReader<'_> {
    /// The message for connections of this kind.
    pub fn connection_draft(&self, kind: &str) -> Result<ConnectionDraft, Fault>
        ensures draft { IfOk result (IsConnectionDraft self.now kind.now) }
        ensures among { IfOk result (IsConnectionAmong (length self.now.names.now)) }
        ensures faults { IfErr result IsScriptFault }
        ensures bad { OnlyWhereNone result (IsConnectionDraft self.now kind.now) }
    {
        match kind {
            "ConnOpenInit" => self.conn_open_init(),
            "ConnOpenTry" => self.conn_open_try(),
            "ConnOpenAck" => self.conn_open_ack(),
            "ConnOpenConfirm" => self.conn_open_confirm(),
            _ => Err(Fault::BadScript),
        }
    }

    /// The clients of the two ends of a connection.
    fn two_clients(&self) -> Result<(ClientId, ClientId), Fault>
        ensures own { IfOk result (λ both. HasName self.now (codes "client") is_client both.0) }
        ensures peer { IfOk result (λ both. HasName self.now (codes "peer_client") is_client both.1) }
        ensures faults { IfErr result IsScriptFault }
        ensures bad { OnlyWhereNone result (λ both. HasFields self.now (client_ends_fields both.0 both.1)) }
    {
        Ok((self.name("client")?, self.name("peer_client")?))
    }

    fn conn_open_init(&self) -> Result<ConnectionDraft, Fault>
        ensures draft { IfOk result (IsConnectionDraft self.now (codes "ConnOpenInit")) }
        ensures among { IfOk result (IsConnectionAmong (length self.now.names.now)) }
        ensures faults { IfErr result IsScriptFault }
        ensures bad { OnlyWhereNone result (IsConnectionDraft self.now (codes "ConnOpenInit")) }
    {
        has_only(self.object, &["do", "on", "client", "peer_client"])?;
        let (client, peer_client) = self.two_clients()?;
        Ok(ConnectionDraft::OpenInit {
            client,
            peer_client,
        })
    }

    fn conn_open_try(&self) -> Result<ConnectionDraft, Fault>
        ensures draft { IfOk result (IsConnectionDraft self.now (codes "ConnOpenTry")) }
        ensures among { IfOk result (IsConnectionAmong (length self.now.names.now)) }
        ensures faults { IfErr result IsScriptFault }
        ensures bad { OnlyWhereNone result (IsConnectionDraft self.now (codes "ConnOpenTry")) }
    {
        has_only(
            self.object,
            &[
                "do",
                "on",
                "client",
                "peer_client",
                "peer_connection",
                "from",
                "height",
            ],
        )?;
        let from = self.origin()?;
        let peer_connection = self.name("peer_connection")?;
        let (client, peer_client) = self.two_clients()?;
        Ok(ConnectionDraft::OpenTry {
            client,
            peer_client,
            peer_connection,
            from,
        })
    }

    fn conn_open_ack(&self) -> Result<ConnectionDraft, Fault>
        ensures draft { IfOk result (IsConnectionDraft self.now (codes "ConnOpenAck")) }
        ensures among { IfOk result (IsConnectionAmong (length self.now.names.now)) }
        ensures faults { IfErr result IsScriptFault }
        ensures bad { OnlyWhereNone result (IsConnectionDraft self.now (codes "ConnOpenAck")) }
    {
        has_only(
            self.object,
            &[
                "do",
                "on",
                "connection",
                "peer_connection",
                "from",
                "height",
            ],
        )?;
        Ok(ConnectionDraft::OpenAck {
            from: self.origin()?,
            connection: self.name("connection")?,
            peer_connection: self.name("peer_connection")?,
        })
    }

    fn conn_open_confirm(&self) -> Result<ConnectionDraft, Fault>
        ensures draft { IfOk result (IsConnectionDraft self.now (codes "ConnOpenConfirm")) }
        ensures among { IfOk result (IsConnectionAmong (length self.now.names.now)) }
        ensures faults { IfErr result IsScriptFault }
        ensures bad { OnlyWhereNone result (IsConnectionDraft self.now (codes "ConnOpenConfirm")) }
    {
        has_only(self.object, &["do", "on", "connection", "from", "height"])?;
        Ok(ConnectionDraft::OpenConfirm {
            from: self.origin()?,
            connection: self.name("connection")?,
        })
    }
}
