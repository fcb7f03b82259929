//! The steps that send messages for channels.

ghost use Rattle.std.specs.Prelude.{◌<◌, length, IfOk, IfErr, codes};
ghost use Rattle.ibc_script.specs.Faults.{IsScriptFault, OnlyWhereNone};
ghost use Rattle.ibc_script.specs.ScriptValues.{channel_end_fields};
ghost use Rattle.ibc_script.specs.Scripts.{IsChannelAmong};
ghost use Rattle.ibc_script.specs.StepReading.{HasFields, HasOpening, HasVersion, IsChannelDraft};

use super::step_reader::StepReader;
use crate::Fault;
use crate::draft::{ChannelDraft, ChannelTry};
use crate::members::has_only;
use ibc_ids::{ChannelId, PortId};
use ibc_wire::{ChanCloseInit, ChanOpenInit};

impl StepReader<'_> {
    /// The message for channels of this kind.
    pub fn channel_draft(&self, kind: &str) -> Result<ChannelDraft, Fault>
        ensures draft { IfOk result (IsChannelDraft self.now kind.now) }
        ensures among { IfOk result (IsChannelAmong (length self.now.names.now)) }
        ensures faults { IfErr result IsScriptFault }
        ensures bad { OnlyWhereNone result (IsChannelDraft self.now kind.now) }
    {
        match kind {
            "ChanOpenInit" => self.chan_open_init(),
            "ChanOpenTry" => self.chan_open_try(),
            "ChanOpenAck" => self.chan_open_ack(),
            "ChanOpenConfirm" => self.chan_open_confirm(),
            "ChanCloseInit" => self.chan_close_init(),
            "ChanCloseConfirm" => self.chan_close_confirm(),
            _ => Err(Fault::BadScript),
        }
    }

    /// The port and the identifier of a channel's own end.
    fn own_end(&self) -> Result<(PortId, ChannelId), Fault>
        ensures end { IfOk result (λ end. HasFields self.now (channel_end_fields end.0 end.1)) }
        ensures faults { IfErr result IsScriptFault }
        ensures bad { OnlyWhereNone result (λ end. HasFields self.now (channel_end_fields end.0 end.1)) }
    {
        Ok((self.name("port")?, self.name("channel")?))
    }

    /// What the first two steps of a channel's handshake have in common.
    fn opening(&self) -> Result<ChanOpenInit, Fault>
        ensures ends { IfOk result (HasOpening self.now) }
        ensures version { IfOk result (HasVersion self.now) }
        ensures faults { IfErr result IsScriptFault }
        ensures bad { OnlyWhereNone result (λ m. HasOpening self.now m × HasVersion self.now m) }
    {
        Ok(ChanOpenInit {
            order: self.order("order")?,
            port: self.name("port")?,
            connection: self.name("connection")?,
            peer_port: self.name("peer_port")?,
            version: self.name("version")?,
        })
    }

    fn chan_open_init(&self) -> Result<ChannelDraft, Fault>
        ensures draft { IfOk result (IsChannelDraft self.now (codes "ChanOpenInit")) }
        ensures among { IfOk result (IsChannelAmong (length self.now.names.now)) }
        ensures faults { IfErr result IsScriptFault }
        ensures bad { OnlyWhereNone result (IsChannelDraft self.now (codes "ChanOpenInit")) }
    {
        has_only(
            self.object,
            &[
                "do",
                "on",
                "port",
                "order",
                "connection",
                "peer_port",
                "version",
            ],
        )?;
        Ok(ChannelDraft::OpenInit(self.opening()?))
    }

    fn chan_open_try(&self) -> Result<ChannelDraft, Fault>
        ensures draft { IfOk result (IsChannelDraft self.now (codes "ChanOpenTry")) }
        ensures among { IfOk result (IsChannelAmong (length self.now.names.now)) }
        ensures faults { IfErr result IsScriptFault }
        ensures bad { OnlyWhereNone result (IsChannelDraft self.now (codes "ChanOpenTry")) }
    {
        has_only(
            self.object,
            &[
                "do",
                "on",
                "port",
                "order",
                "connection",
                "peer_port",
                "peer_channel",
                "version",
                "from",
                "height",
            ],
        )?;
        let from = self.origin()?;
        let peer_channel = self.name("peer_channel")?;
        let opening = self.opening()?;
        Ok(ChannelDraft::OpenTry(ChannelTry {
            port: opening.port,
            order: opening.order,
            connection: opening.connection,
            peer_port: opening.peer_port,
            peer_channel,
            version: opening.version,
            from,
        }))
    }

    fn chan_open_ack(&self) -> Result<ChannelDraft, Fault>
        ensures draft { IfOk result (IsChannelDraft self.now (codes "ChanOpenAck")) }
        ensures among { IfOk result (IsChannelAmong (length self.now.names.now)) }
        ensures faults { IfErr result IsScriptFault }
        ensures bad { OnlyWhereNone result (IsChannelDraft self.now (codes "ChanOpenAck")) }
    {
        has_only(
            self.object,
            &[
                "do",
                "on",
                "port",
                "channel",
                "peer_channel",
                "from",
                "height",
            ],
        )?;
        let from = self.origin()?;
        let peer_channel = self.name("peer_channel")?;
        let (port, channel) = self.own_end()?;
        Ok(ChannelDraft::OpenAck {
            port,
            channel,
            peer_channel,
            from,
        })
    }

    fn chan_open_confirm(&self) -> Result<ChannelDraft, Fault>
        ensures draft { IfOk result (IsChannelDraft self.now (codes "ChanOpenConfirm")) }
        ensures among { IfOk result (IsChannelAmong (length self.now.names.now)) }
        ensures faults { IfErr result IsScriptFault }
        ensures bad { OnlyWhereNone result (IsChannelDraft self.now (codes "ChanOpenConfirm")) }
    {
        has_only(
            self.object,
            &["do", "on", "port", "channel", "from", "height"],
        )?;
        let from = self.origin()?;
        let (port, channel) = self.own_end()?;
        Ok(ChannelDraft::OpenConfirm {
            port,
            channel,
            from,
        })
    }

    fn chan_close_init(&self) -> Result<ChannelDraft, Fault>
        ensures draft { IfOk result (IsChannelDraft self.now (codes "ChanCloseInit")) }
        ensures among { IfOk result (IsChannelAmong (length self.now.names.now)) }
        ensures faults { IfErr result IsScriptFault }
        ensures bad { OnlyWhereNone result (IsChannelDraft self.now (codes "ChanCloseInit")) }
    {
        has_only(self.object, &["do", "on", "port", "channel"])?;
        let (port, channel) = self.own_end()?;
        Ok(ChannelDraft::CloseInit(ChanCloseInit { port, channel }))
    }

    fn chan_close_confirm(&self) -> Result<ChannelDraft, Fault>
        ensures draft { IfOk result (IsChannelDraft self.now (codes "ChanCloseConfirm")) }
        ensures among { IfOk result (IsChannelAmong (length self.now.names.now)) }
        ensures faults { IfErr result IsScriptFault }
        ensures bad { OnlyWhereNone result (IsChannelDraft self.now (codes "ChanCloseConfirm")) }
    {
        has_only(
            self.object,
            &["do", "on", "port", "channel", "from", "height"],
        )?;
        let from = self.origin()?;
        let (port, channel) = self.own_end()?;
        Ok(ChannelDraft::CloseConfirm {
            port,
            channel,
            from,
        })
    }
}
