//! Packets are received, acknowledged and timed out.

use super::Maker;
use crate::route::{Route, add_packet, height_of, peer_of, sent_by, time_of};
use crate::run_so_far::RunSoFar;
use crate::step_text::StepText;
use ibc_run_notes::{Flight, first_of_end};
use ibc_script::Fault;

/// A timeout is near that is reached within so many blocks.
const NEAR: u64 = 6;

// Whether a limit lies at most so far ahead.
fn is_near(limit: u64, now: u64) -> bool {
    limit != 0 && limit <= now.saturating_add(NEAR)
}

// Whether one of a packet's timeouts is near, or reached.
fn is_timeout_near(run: &RunSoFar<'_>, flight: &Flight) -> bool {
    is_near(flight.timeout_height, height_of(run, flight.to))
        || is_near(flight.timeout_time, time_of(run, flight.to))
}

// The first packet from a place on whose timeout is near.
fn first_near(run: &RunSoFar<'_>, flights: &[Flight], start: usize) -> Option<Flight> {
    for place in start..flights.len() {
        if is_timeout_near(run, &flights[place]) {
            return Some(flights[place]);
        }
    }
    None
}

impl Maker {
    // One of some packets: mostly the first of its end.
    fn some_flight(&mut self, flights: &[Flight]) -> Option<Flight> {
        let place = self.draws.place(flights.len())?;
        let drawn = flights.get(place)?;
        if self.draws.is_one_in(4) {
            Some(*drawn)
        } else {
            first_of_end(flights, drawn.end)
        }
    }

    // One of some packets, with a timeout that is near where one has that.
    fn late_flight(&mut self, run: &RunSoFar<'_>, flights: &[Flight]) -> Option<Flight> {
        let place = self.draws.place(flights.len())?;
        if let Some(flight) = first_near(run, flights, place) {
            return Some(flight);
        }
        if let Some(flight) = first_near(run, flights, 0) {
            return Some(flight);
        }
        flights.get(place).copied()
    }

    // The sequence that is moved: mostly a packet's own, now and then any that its end has sent, or the next.
    fn sequence(&mut self, run: &RunSoFar<'_>, flight: Flight) -> u64 {
        if !self.draws.is_one_in(10) {
            return flight.sequence;
        }
        let sent = sent_by(run, flight.end);
        match self.draws.place(sent.saturating_add(1)) {
            Some(place) => (place as u64).saturating_add(1),
            None => flight.sequence,
        }
    }

    /// Receives a packet that is on the way. Fault: `NoMemory`.
    pub(super) fn deliver(
        &mut self,
        run: &RunSoFar<'_>,
        steps: &mut Vec<String>,
    ) -> Result<(), Fault> {
        let Some(flight) = self.some_flight(run.notes.flights.on_the_way.as_slice()) else {
            return self.send(run, steps);
        };
        let Some(route) = peer_of(run, flight.end)? else {
            return self.send(run, steps);
        };
        let sequence = self.sequence(run, flight);
        let height = self.proved_height(run, route.from, 0, steps)?;
        self.update(run, route.peer, height, steps)?;
        let mut step = StepText::on(self.alloc, "RecvPacket", route.to);
        add_packet(run, flight.end, sequence, &mut step);
        step.number("height", height);
        step.finish(steps)?;
        Ok(())
    }

    /// Acknowledges a packet that was received. Fault: `NoMemory`.
    pub(super) fn acknowledge(
        &mut self,
        run: &RunSoFar<'_>,
        steps: &mut Vec<String>,
    ) -> Result<(), Fault> {
        let Some(flight) = self.some_flight(run.notes.flights.received.as_slice()) else {
            return self.deliver(run, steps);
        };
        let Some(route) = peer_of(run, flight.end)? else {
            return self.deliver(run, steps);
        };
        let sequence = self.sequence(run, flight);
        let height = self.proved_height(run, route.to, 0, steps)?;
        self.settle(run, route, "AckPacket", sequence, height, steps)
    }

    /// Times out a packet that is on the way, now and then one that was received. Mostly a timeout of it is reached before. Fault:
    /// `NoMemory`.
    pub(super) fn time_out(
        &mut self,
        run: &RunSoFar<'_>,
        steps: &mut Vec<String>,
    ) -> Result<(), Fault> {
        let flight = if self.draws.is_one_in(3) {
            self.late_flight(run, run.notes.flights.received.as_slice())
        } else {
            self.late_flight(run, run.notes.flights.on_the_way.as_slice())
        };
        let Some(flight) = flight else {
            return self.send(run, steps);
        };
        let Some(route) = peer_of(run, flight.end)? else {
            return self.send(run, steps);
        };
        let sequence = self.sequence(run, flight);
        let waited = self.wait(run, flight, steps)?;
        let height = self.proved_height(run, route.to, waited, steps)?;
        let kind = if self.draws.is_one_in(4) {
            "TimeoutOnClose"
        } else {
            "Timeout"
        };
        self.settle(run, route, kind, sequence, height, steps)
    }

    // Ends blocks of the receiving chain until a packet's timeout is reached or nearly, where that isn't far. The result is how many.
    fn wait(
        &mut self,
        run: &RunSoFar<'_>,
        flight: Flight,
        steps: &mut Vec<String>,
    ) -> Result<u64, Fault> {
        let less = self.draws.below(3);
        let time = time_of(run, flight.to);
        if flight.timeout_time > time && is_near(flight.timeout_time, time) {
            let later = flight.timeout_time.saturating_sub(less).max(time);
            self.end_block_at(flight.to, later, steps)?;
            return Ok(1);
        }
        let height = height_of(run, flight.to);
        if !is_near(flight.timeout_height, height) {
            return Ok(0);
        }
        let blocks = flight
            .timeout_height
            .saturating_sub(height)
            .saturating_sub(less);
        self.end_blocks(flight.to, blocks, steps)?;
        Ok(blocks)
    }

    // Ends so many blocks of a chain.
    fn end_blocks(&self, chain: u8, blocks: u64, steps: &mut Vec<String>) -> Result<(), Fault> {
        for _block in 0..blocks {
            self.end_block(chain, steps)?;
        }
        Ok(())
    }

    // Sends what settles a packet, proved from a height of the peer.
    fn settle(
        &mut self,
        run: &RunSoFar<'_>,
        route: Route,
        kind: &str,
        sequence: u64,
        height: u64,
        steps: &mut Vec<String>,
    ) -> Result<(), Fault> {
        self.update(run, route.own, height, steps)?;
        let mut step = StepText::on(self.alloc, kind, route.from);
        add_packet(run, route.own, sequence, &mut step);
        step.chain("from", route.to);
        step.number("height", height);
        step.finish(steps)?;
        Ok(())
    }
}
