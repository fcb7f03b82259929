//! How each script begins: channels of both orders, and packets on the way in both directions.

use super::Maker;
use crate::names::{APPLICATIONS, NOTES, SMALL_AMOUNTS, TOKENS, USERS};
use crate::route::{FIRST_CHANNELS, height_of};
use crate::run_so_far::RunSoFar;
use crate::step_text::StepText;
use ibc_law_checks::EndNotes;
use ibc_script::Fault;

/// So many steps are honest ones.
pub const FIRST_STEPS: u64 = 20;

/// A packet that has time enough times out so many heights later.
const TIME_ENOUGH: u64 = 1_000;

impl Maker {
    /// Adds the honest step of a number with which each script begins: channels are opened, and then each end sends. Fault:
    /// `NoMemory`.
    pub fn begin(
        &mut self,
        run: &RunSoFar<'_>,
        number: u64,
        steps: &mut Vec<String>,
    ) -> Result<(), Fault> {
        if number < FIRST_CHANNELS {
            self.open_first(number, steps)
        } else {
            self.send_first(run, number.saturating_sub(FIRST_CHANNELS), steps)
        }
    }

    // Opens the channel of a number: two of tokens, one of notes and one of several tokens between the first two chains or nearly,
    // and one that is drawn.
    fn open_first(&mut self, number: u64, steps: &mut Vec<String>) -> Result<(), Fault> {
        match number {
            0 => self.open_between(0, 1, "transfer", steps),
            1 => self.open_between(1, 0, "note", steps),
            2 => self.open_between(0, 1, "transfer2", steps),
            3 => self.open_between(self.chains.saturating_sub(1).max(1), 0, "transfer", steps),
            _ => {
                let (first, second) = self.two_chains();
                let application = self.draws.one_of(&APPLICATIONS);
                self.open_between(first, second, application, steps)
            }
        }
    }

    // Sends an honest packet over the end of a number, counted round.
    fn send_first(
        &mut self,
        run: &RunSoFar<'_>,
        number: u64,
        steps: &mut Vec<String>,
    ) -> Result<(), Fault> {
        let ends = run.notes.checks.ends.as_slice();
        let place = (number as usize).checked_rem(ends.len()).unwrap_or(0);
        let Some(end) = ends.get(place) else {
            return self.open(run, steps);
        };
        let limit = match run.notes.known.tracked_by(place) {
            Some(peer) => height_of(run, peer).saturating_add(TIME_ENOUGH),
            None => TIME_ENOUGH,
        };
        if end.port.as_str() == "note" {
            self.send_first_note(end, limit, steps)
        } else {
            self.send_first_token(end, limit, steps)
        }
    }

    // Sends an honest note.
    fn send_first_note(
        &mut self,
        end: &EndNotes,
        limit: u64,
        steps: &mut Vec<String>,
    ) -> Result<(), Fault> {
        let data = self.draws.one_of(&NOTES);
        let mut step = StepText::on(self.alloc, "SendNote", end.chain);
        step.text("channel", end.channel.as_str());
        step.text("data", data);
        step.number("timeout_height", limit);
        step.number("timeout_time", 0);
        step.finish(steps)?;
        Ok(())
    }

    // Sends an honest token.
    fn send_first_token(
        &mut self,
        end: &EndNotes,
        limit: u64,
        steps: &mut Vec<String>,
    ) -> Result<(), Fault> {
        let user = self.draws.one_of(&USERS);
        let receiver = self.draws.one_of(&USERS);
        let token = self.draws.one_of(&TOKENS);
        let amount = self.draws.one_of(&SMALL_AMOUNTS);
        let mut step = StepText::on(self.alloc, "Transfer", end.chain);
        step.text("channel", end.channel.as_str());
        step.text("user", user);
        step.text("receiver", receiver);
        step.text("denom", token);
        step.text("amount", amount);
        step.number("timeout_height", limit);
        step.number("timeout_time", 0);
        step.finish(steps)?;
        Ok(())
    }
}
