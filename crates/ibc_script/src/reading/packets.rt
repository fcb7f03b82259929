//! The steps that send messages for packets.

ghost use Rattle.std.specs.Prelude.{◌<◌, codes, length, IfOk, IfErr, IsTrue};
ghost use Rattle.serde_json.specs.View.{view};
ghost use Rattle.ibc_script.specs.Faults.{IsScriptFault, OnlyWhereNone};
ghost use Rattle.ibc_script.specs.ScriptValues.{IsNote, has_only};
ghost use Rattle.ibc_script.specs.Scripts.{IsPacketAmong};
ghost use Rattle.ibc_script.specs.StepReading.{IsPacketDraft, IsPacketIn, IsProvedPacket, IsSourceIn, member_at, proved_packet_names};

use super::item_name;
use super::step_reader::StepReader;
use crate::Fault;
use crate::draft::{PacketDraft, ProofSource, SentPacket};
use crate::members::{has_only, list, text};
use crate::payload::payload_of;
use ibc_ids::Bytes;
use ibc_wire::SendNote;

impl StepReader<'_> {
    /// The bytes that a member writes in base64.
    fn payload(&self, member: &str) -> Result<Bytes, Fault>
        ensures note { IfOk result (λ bytes. IsNote bytes (member_at self.now member.now)) }
        ensures faults { IfErr result IsScriptFault }
        ensures bad { OnlyWhereNone result (λ bytes. IsNote bytes (member_at self.now member.now)) }
    {
        payload_of(self.alloc, text(self.object, member)?)?.ok_or(Fault::BadScript)
    }

    /// The packet that the member `packet` names: `[chain, port, channel, sequence]`.
    fn packet(&self) -> Result<SentPacket, Fault>
        ensures packet { IfOk result (IsPacketIn self.now) }
        ensures among { IfOk result (λ sent. sent.chain < length self.now.names.now) }
        ensures faults { IfErr result IsScriptFault }
        ensures bad { OnlyWhereNone result (IsPacketIn self.now) }
    {
        let [chain, port, channel, sequence] = list(self.object, "packet")? else {
            return Err(Fault::BadScript);
        };
        Ok(SentPacket {
            chain: self.item_chain(chain)?,
            sequence: sequence.as_u64().ok_or(Fault::BadScript)?,
            port: item_name(self.alloc, port)?,
            channel: item_name(self.alloc, channel)?,
        })
    }

    /// The packet of a step with the members of an acknowledgement or a timeout, and the height that proves it.
    fn packet_from(&self) -> Result<(SentPacket, ProofSource), Fault>
        ensures only { IfOk result (λ _. IsTrue (has_only proved_packet_names (view self.now.object.now))) }
        ensures packet { IfOk result (λ read. IsPacketIn self.now read.0) }
        ensures source { IfOk result (λ read. IsSourceIn self.now read.1) }
        ensures sent { IfOk result (λ read. read.0.chain < length self.now.names.now) }
        ensures from { IfOk result (λ read. read.1.chain < length self.now.names.now) }
        ensures faults { IfErr result IsScriptFault }
        ensures bad { OnlyWhereNone result (IsProvedPacket self.now) }
    {
        has_only(self.object, &["do", "on", "packet", "from", "height"])?;
        let from = self.origin()?;
        Ok((self.packet()?, from))
    }

    /// The message for packets of this kind.
    pub fn packet_draft(&self, kind: &str) -> Result<PacketDraft, Fault>
        ensures draft { IfOk result (IsPacketDraft self.now kind.now) }
        ensures among { IfOk result (IsPacketAmong (length self.now.names.now)) }
        ensures faults { IfErr result IsScriptFault }
        ensures bad { OnlyWhereNone result (IsPacketDraft self.now kind.now) }
    {
        match kind {
            "Transfer" => self.transfer(),
            "TransferMany" => self.transfer_many(),
            "SendNote" => self.send_note(),
            "RecvPacket" => self.recv_packet(),
            "AckPacket" => self.ack_packet(),
            "Timeout" => self.timeout(),
            "TimeoutOnClose" => self.timeout_on_close(),
            _ => Err(Fault::BadScript),
        }
    }

    fn send_note(&self) -> Result<PacketDraft, Fault>
        ensures draft { IfOk result (IsPacketDraft self.now (codes "SendNote")) }
        ensures among { IfOk result (IsPacketAmong (length self.now.names.now)) }
        ensures faults { IfErr result IsScriptFault }
        ensures bad { OnlyWhereNone result (IsPacketDraft self.now (codes "SendNote")) }
    {
        has_only(
            self.object,
            &[
                "do",
                "on",
                "channel",
                "data",
                "timeout_height",
                "timeout_time",
            ],
        )?;
        Ok(PacketDraft::SendNote(SendNote {
            timeout_height: self.number("timeout_height")?,
            timeout_time: self.number("timeout_time")?,
            channel: self.name("channel")?,
            payload: self.payload("data")?,
        }))
    }

    fn recv_packet(&self) -> Result<PacketDraft, Fault>
        ensures draft { IfOk result (IsPacketDraft self.now (codes "RecvPacket")) }
        ensures among { IfOk result (IsPacketAmong (length self.now.names.now)) }
        ensures faults { IfErr result IsScriptFault }
        ensures bad { OnlyWhereNone result (IsPacketDraft self.now (codes "RecvPacket")) }
    {
        has_only(self.object, &["do", "on", "packet", "height"])?;
        Ok(PacketDraft::Recv {
            height: self.number("height")?,
            packet: self.packet()?,
        })
    }

    fn ack_packet(&self) -> Result<PacketDraft, Fault>
        ensures draft { IfOk result (IsPacketDraft self.now (codes "AckPacket")) }
        ensures among { IfOk result (IsPacketAmong (length self.now.names.now)) }
        ensures faults { IfErr result IsScriptFault }
        ensures bad { OnlyWhereNone result (IsPacketDraft self.now (codes "AckPacket")) }
    {
        let (packet, from) = self.packet_from()?;
        Ok(PacketDraft::Ack { packet, from })
    }

    fn timeout(&self) -> Result<PacketDraft, Fault>
        ensures draft { IfOk result (IsPacketDraft self.now (codes "Timeout")) }
        ensures among { IfOk result (IsPacketAmong (length self.now.names.now)) }
        ensures faults { IfErr result IsScriptFault }
        ensures bad { OnlyWhereNone result (IsPacketDraft self.now (codes "Timeout")) }
    {
        let (packet, from) = self.packet_from()?;
        Ok(PacketDraft::Timeout { packet, from })
    }

    fn timeout_on_close(&self) -> Result<PacketDraft, Fault>
        ensures draft { IfOk result (IsPacketDraft self.now (codes "TimeoutOnClose")) }
        ensures among { IfOk result (IsPacketAmong (length self.now.names.now)) }
        ensures faults { IfErr result IsScriptFault }
        ensures bad { OnlyWhereNone result (IsPacketDraft self.now (codes "TimeoutOnClose")) }
    {
        let (packet, from) = self.packet_from()?;
        Ok(PacketDraft::TimeoutOnClose { packet, from })
    }
}
