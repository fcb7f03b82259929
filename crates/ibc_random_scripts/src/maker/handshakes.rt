//! Channels are opened step by step, over connections that are there.

use super::{MOST_ENDS, Maker};
use crate::route::{Route, add_connection};
use crate::run_so_far::RunSoFar;
use crate::step_text::StepText;
use ibc_law_checks::EndNotes;
use ibc_script::Fault;

/// A channel that is to be opened: the ends whose connection it goes over, the numbers that its own two ends get, and what it is
/// for.
#[derive(Clone, Copy)]
struct NewChannel {
    route: Route,
    first: u64,
    second: u64,
    port: &'static str,
    order: &'static str,
    version: &'static str,
}

// How many channels a chain has.
fn channels_of(ends: &[EndNotes], chain: u8) -> u64 {
    let mut count: u64 = 0;
    for end in ends {
        if end.chain == chain {
            count = count.saturating_add(1);
        }
    }
    count
}

impl Maker {
    /// Opens one more channel over the connection of some end, and leaves out a step now and then. Fault: `NoMemory`.
    pub(super) fn open_channel(
        &mut self,
        run: &RunSoFar<'_>,
        steps: &mut Vec<String>,
    ) -> Result<(), Fault> {
        if run.notes.checks.ends.len() >= MOST_ENDS {
            return self.send(run, steps);
        }
        match self.some_route(run)? {
            Some(route) => {
                let channel = self.new_channel(run, route);
                self.shake_hands(run, &channel, steps)
            }
            None => self.send(run, steps),
        }
    }

    // The channel that is to be opened over the connection of an end.
    fn new_channel(&mut self, run: &RunSoFar<'_>, route: Route) -> NewChannel {
        let ends = run.notes.checks.ends.as_slice();
        let first = channels_of(ends, route.from);
        let second = channels_of(ends, route.to);
        let kind = self.draws.below(5);
        NewChannel {
            route,
            first,
            second,
            port: if kind < 2 { "transfer" } else { "note" },
            order: if kind == 2 || kind == 3 {
                "ORDERED"
            } else {
                "UNORDERED"
            },
            version: match kind {
                1 => "ics20-own-2",
                2..=3 => "note-1",
                _ => "ics20-1",
            },
        }
    }

    // The handshake of a channel.
    fn shake_hands(
        &mut self,
        run: &RunSoFar<'_>,
        channel: &NewChannel,
        steps: &mut Vec<String>,
    ) -> Result<(), Fault> {
        let route = channel.route;
        self.open_init(run, channel, steps)?;
        let begun = self.proved_height(run, route.from, 0, steps)?;
        self.update(run, route.peer, begun, steps)?;
        self.open_try(run, channel, begun, steps)?;
        let answered = self.proved_height(run, route.to, 0, steps)?;
        self.update(run, route.own, answered, steps)?;
        self.open_ack(channel, answered, steps)?;
        self.end_block(route.from, steps)?;
        let opened = begun.saturating_add(1);
        self.update(run, route.peer, opened, steps)?;
        self.open_confirm(channel, opened, steps)
    }

    // The first end is made.
    fn open_init(
        &self,
        run: &RunSoFar<'_>,
        channel: &NewChannel,
        steps: &mut Vec<String>,
    ) -> Result<(), Fault> {
        let mut step = StepText::on(self.alloc, "ChanOpenInit", channel.route.from);
        step.text("port", channel.port);
        step.text("order", channel.order);
        add_connection(run, channel.route.own, &mut step);
        step.text("peer_port", channel.port);
        step.text("version", channel.version);
        step.finish(steps)?;
        Ok(())
    }

    // The second end is made.
    fn open_try(
        &self,
        run: &RunSoFar<'_>,
        channel: &NewChannel,
        height: u64,
        steps: &mut Vec<String>,
    ) -> Result<(), Fault> {
        let mut step = StepText::on(self.alloc, "ChanOpenTry", channel.route.to);
        step.text("port", channel.port);
        step.text("order", channel.order);
        add_connection(run, channel.route.peer, &mut step);
        step.text("peer_port", channel.port);
        step.numbered("peer_channel", "channel", channel.first);
        step.text("version", channel.version);
        step.chain("from", channel.route.from);
        step.number("height", height);
        step.finish(steps)?;
        Ok(())
    }

    // The first end is opened, unless that is left out.
    fn open_ack(
        &mut self,
        channel: &NewChannel,
        height: u64,
        steps: &mut Vec<String>,
    ) -> Result<(), Fault> {
        if self.draws.is_one_in(10) {
            return Ok(());
        }
        let mut step = StepText::on(self.alloc, "ChanOpenAck", channel.route.from);
        step.text("port", channel.port);
        step.numbered("channel", "channel", channel.first);
        step.numbered("peer_channel", "channel", channel.second);
        step.chain("from", channel.route.to);
        step.number("height", height);
        step.finish(steps)?;
        Ok(())
    }

    // The second end is opened, unless that is left out.
    fn open_confirm(
        &mut self,
        channel: &NewChannel,
        height: u64,
        steps: &mut Vec<String>,
    ) -> Result<(), Fault> {
        if self.draws.is_one_in(10) {
            return Ok(());
        }
        let mut step = StepText::on(self.alloc, "ChanOpenConfirm", channel.route.to);
        step.text("port", channel.port);
        step.numbered("channel", "channel", channel.second);
        step.chain("from", channel.route.from);
        step.number("height", height);
        step.finish(steps)?;
        Ok(())
    }
}
