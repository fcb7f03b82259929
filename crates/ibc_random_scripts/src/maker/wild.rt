//! Messages of any kind, whose fields are drawn one by one.

use super::Maker;
use crate::names::{
    CHANNEL_KINDS, CHANNELS, CONNECTION_KINDS, ORDERS, PACKET_KINDS, PORTS, VERSIONS,
};
use crate::route::height_of;
use crate::run_so_far::RunSoFar;
use crate::step_text::StepText;
use ibc_script::Fault;

impl Maker {
    /// Sends a message of any kind. Fault: `NoMemory`.
    pub(super) fn send_any(
        &mut self,
        run: &RunSoFar<'_>,
        steps: &mut Vec<String>,
    ) -> Result<(), Fault> {
        match self.draws.below(4) {
            0 => self.any_client(run, steps),
            1 => self.any_connection(run, steps),
            2 => self.any_channel(run, steps),
            _ => self.any_packet(run, steps),
        }
    }

    // Adds a name with some number.
    fn add_numbered(&mut self, step: &mut StepText, member: &str, stem: &str) {
        let number = self.draws.below(5);
        step.numbered(member, stem, number);
    }

    // A height of a chain, or one beside it.
    fn any_height(&mut self, run: &RunSoFar<'_>, chain: u8) -> u64 {
        let height = height_of(run, chain);
        match self.draws.below(6) {
            0 => 0,
            1 => height.saturating_add(1),
            2 => height.saturating_sub(self.draws.below(8)),
            3 => u64::MAX,
            _ => height,
        }
    }

    // Adds a chain, and a height of it.
    fn add_source(&mut self, run: &RunSoFar<'_>, step: &mut StepText) {
        let from = self.some_chain();
        let height = self.any_height(run, from);
        step.chain("from", from);
        step.number("height", height);
    }

    // A message for clients.
    fn any_client(&mut self, run: &RunSoFar<'_>, steps: &mut Vec<String>) -> Result<(), Fault> {
        let on = self.some_chain();
        let of = self.some_chain();
        if self.draws.is_one_in(2) {
            let mut step = StepText::on(self.alloc, "CreateClient", on);
            step.chain("of", of);
            step.finish(steps)?;
            return Ok(());
        }
        let height = self.any_height(run, of);
        let mut step = StepText::on(self.alloc, "UpdateClient", on);
        self.add_numbered(&mut step, "client", "inprocess");
        step.number("height", height);
        step.finish(steps)?;
        Ok(())
    }

    // A message for connections.
    fn any_connection(&mut self, run: &RunSoFar<'_>, steps: &mut Vec<String>) -> Result<(), Fault> {
        let on = self.some_chain();
        let kind = self.draws.one_of(&CONNECTION_KINDS);
        let mut step = StepText::on(self.alloc, kind, on);
        self.add_connection_members(kind, &mut step);
        if kind != "ConnOpenInit" {
            self.add_source(run, &mut step);
        }
        step.finish(steps)?;
        Ok(())
    }

    // Adds the names of a message for connections.
    fn add_connection_members(&mut self, kind: &str, step: &mut StepText) {
        match kind {
            "ConnOpenInit" => {
                self.add_numbered(step, "client", "inprocess");
                self.add_numbered(step, "peer_client", "inprocess");
            }
            "ConnOpenTry" => {
                self.add_numbered(step, "client", "inprocess");
                self.add_numbered(step, "peer_client", "inprocess");
                self.add_numbered(step, "peer_connection", "connection");
            }
            "ConnOpenAck" => {
                self.add_numbered(step, "connection", "connection");
                self.add_numbered(step, "peer_connection", "connection");
            }
            _ => self.add_numbered(step, "connection", "connection"),
        }
    }

    // A message for channels.
    fn any_channel(&mut self, run: &RunSoFar<'_>, steps: &mut Vec<String>) -> Result<(), Fault> {
        let on = self.some_chain();
        let kind = self.draws.one_of(&CHANNEL_KINDS);
        let port = self.draws.one_of(&PORTS);
        let mut step = StepText::on(self.alloc, kind, on);
        step.text("port", port);
        self.add_channel_members(kind, &mut step);
        if kind != "ChanOpenInit" {
            self.add_source(run, &mut step);
        }
        step.finish(steps)?;
        Ok(())
    }

    // Adds the names of a message for channels.
    fn add_channel_members(&mut self, kind: &str, step: &mut StepText) {
        match kind {
            "ChanOpenInit" => self.add_opening(step),
            "ChanOpenTry" => {
                self.add_opening(step);
                self.add_numbered(step, "peer_channel", "channel");
            }
            "ChanOpenAck" => {
                self.add_numbered(step, "channel", "channel");
                self.add_numbered(step, "peer_channel", "channel");
            }
            _ => self.add_numbered(step, "channel", "channel"),
        }
    }

    // Adds what the first two messages of a channel's handshake have in common.
    fn add_opening(&mut self, step: &mut StepText) {
        let order = self.draws.one_of(&ORDERS);
        let peer_port = self.draws.one_of(&PORTS);
        let version = self.draws.one_of(&VERSIONS);
        step.text("order", order);
        self.add_numbered(step, "connection", "connection");
        step.text("peer_port", peer_port);
        step.text("version", version);
    }

    // A message that settles or brings a packet.
    fn any_packet(&mut self, run: &RunSoFar<'_>, steps: &mut Vec<String>) -> Result<(), Fault> {
        let on = self.some_chain();
        let sender = self.some_chain();
        let kind = self.draws.one_of(&PACKET_KINDS);
        let mut step = StepText::on(self.alloc, kind, on);
        self.add_any_packet(sender, &mut step);
        if kind == "RecvPacket" {
            let height = self.any_height(run, sender);
            step.number("height", height);
        } else {
            self.add_source(run, &mut step);
        }
        step.finish(steps)?;
        Ok(())
    }

    // Adds some packet of a chain.
    fn add_any_packet(&mut self, sender: u8, step: &mut StepText) {
        let port = self.draws.one_of(&PORTS);
        let channel = self.draws.one_of(&CHANNELS);
        let sequence = self.draws.below(6);
        step.packet(sender, port, channel, sequence);
    }
}
