//! What is done next: a few steps, drawn at random, honest ones and wrong ones.

mod beginning;
mod closing;
mod handshakes;
mod packets;
mod sending;
mod wild;

use crate::draws::Draws;
use crate::names::APPLICATIONS;
use crate::route::{Route, first_ends, height_of, peer_of, time_of};
use crate::run_so_far::RunSoFar;
use crate::step_text::StepText;
pub use beginning::FIRST_STEPS;
use ibc_script::Fault;
use std::alloc::Global;

/// A script opens at most so many ends of channels.
const MOST_ENDS: usize = 16;

/// Draws what is done next in a script of so many chains.
#[derive(Drop)]
pub struct Maker {
    alloc: Global,
    chains: u8,
    draws: Draws,
}

impl Maker {
    /// Draws by the numbers of a seed.
    pub fn new(alloc: Global, chains: u8, seed: u64) -> Maker {
        Maker {
            alloc,
            chains,
            draws: Draws::new(seed),
        }
    }

    /// Adds what is done next. Fault: `NoMemory`.
    pub fn next(
        &mut self,
        run: &RunSoFar<'_>,
        before: &[String],
        steps: &mut Vec<String>,
    ) -> Result<(), Fault> {
        match self.draws.below(100) {
            0..=25 => self.send(run, steps),
            26..=50 => self.deliver(run, steps),
            51..=66 => self.acknowledge(run, steps),
            67..=77 => self.time_out(run, steps),
            78..=82 => self.end_some_block(run, steps),
            83 => self.close(run, steps),
            84..=85 => self.relay(steps),
            86..=90 => self.repeat(before, steps),
            91..=96 => self.send_any(run, steps),
            97..=98 => self.open_channel(run, steps),
            _ => self.open(run, steps),
        }
    }

    // A chain.
    fn some_chain(&mut self) -> u8 {
        match self.draws.place(usize::from(self.chains)) {
            Some(place) => u8::try_from(place).unwrap_or(0),
            None => 0,
        }
    }

    // Two different chains.
    fn two_chains(&mut self) -> (u8, u8) {
        let first = self.some_chain();
        let second = self.some_chain();
        if first != second {
            (first, second)
        } else if first == 0 {
            (0, 1)
        } else {
            (first, first.saturating_sub(1))
        }
    }

    // The place of an end of a channel: mostly one of those with which the script began.
    fn some_end(&mut self, run: &RunSoFar<'_>) -> Option<usize> {
        let count = run.notes.checks.ends.len();
        if self.draws.is_one_in(8) {
            self.draws.place(count)
        } else {
            self.draws.place(first_ends(count))
        }
    }

    // An end of a channel and its peer. Fault: `NoMemory`.
    fn some_route(&mut self, run: &RunSoFar<'_>) -> Result<Option<Route>, Fault> {
        match self.some_end(run) {
            Some(own) => peer_of(run, own),
            None => Ok(None),
        }
    }

    // Ends the block of a chain.
    fn end_block(&self, chain: u8, steps: &mut Vec<String>) -> Result<(), Fault> {
        let step = StepText::on(self.alloc, "Block", chain);
        step.finish(steps)?;
        Ok(())
    }

    // Ends the block of a chain. The next one has this time.
    fn end_block_at(&self, chain: u8, time: u64, steps: &mut Vec<String>) -> Result<(), Fault> {
        let mut step = StepText::on(self.alloc, "Block", chain);
        step.number("time", time);
        step.finish(steps)?;
        Ok(())
    }

    // Ends the block of some chain, now and then with a time that goes back.
    fn end_some_block(&mut self, run: &RunSoFar<'_>, steps: &mut Vec<String>) -> Result<(), Fault> {
        let chain = self.some_chain();
        let time = time_of(run, chain);
        if self.draws.is_one_in(16) {
            self.end_block_at(chain, time.saturating_sub(1), steps)
        } else {
            let later = self.draws.below(4);
            self.end_block_at(chain, time.saturating_add(later), steps)
        }
    }

    // Mostly ends the block of a chain, behind so many more that end before. The result is the height from which the next proofs
    // come.
    fn proved_height(
        &mut self,
        run: &RunSoFar<'_>,
        chain: u8,
        before: u64,
        steps: &mut Vec<String>,
    ) -> Result<u64, Fault> {
        let height = height_of(run, chain).saturating_add(before);
        if self.draws.is_one_in(8) {
            return Ok(height);
        }
        self.end_block(chain, steps)?;
        if self.draws.is_one_in(24) {
            return Ok(height);
        }
        Ok(height.saturating_add(1))
    }

    // Mostly tells the client of an end of a height.
    fn update(
        &mut self,
        run: &RunSoFar<'_>,
        end: usize,
        height: u64,
        steps: &mut Vec<String>,
    ) -> Result<(), Fault> {
        if self.draws.is_one_in(24) {
            return Ok(());
        }
        let Some(known) = run.notes.known.client_of(end) else {
            return Ok(());
        };
        let mut step = StepText::on(self.alloc, "UpdateClient", known.chain);
        step.text("client", known.client.as_str());
        step.number("height", height);
        step.finish(steps)?;
        Ok(())
    }

    // Relays between two chains.
    fn relay(&mut self, steps: &mut Vec<String>) -> Result<(), Fault> {
        let (first, second) = self.two_chains();
        let mut step = StepText::between(self.alloc, "relay", first, second);
        step.number("turns", 1);
        step.finish(steps)?;
        Ok(())
    }

    // Does once more what was done before.
    fn repeat(&mut self, before: &[String], steps: &mut Vec<String>) -> Result<(), Fault> {
        let Some(place) = self.draws.place(before.len()) else {
            return Ok(());
        };
        if let Some(step) = before.get(place) {
            steps.push(step.clone()?)?;
        }
        Ok(())
    }

    // Opens a channel between two chains, over a new connection.
    fn open(&mut self, run: &RunSoFar<'_>, steps: &mut Vec<String>) -> Result<(), Fault> {
        if run.notes.checks.ends.len() >= MOST_ENDS {
            return self.end_some_block(run, steps);
        }
        let (first, second) = self.two_chains();
        let application = self.draws.one_of(&APPLICATIONS);
        self.open_between(first, second, application, steps)
    }

    // Opens a channel of an application between two chains, over a new connection.
    fn open_between(
        &self,
        first: u8,
        second: u8,
        application: &str,
        steps: &mut Vec<String>,
    ) -> Result<(), Fault> {
        let mut step = StepText::between(self.alloc, "open", first, second);
        step.text("app", application);
        step.finish(steps)?;
        Ok(())
    }
}
