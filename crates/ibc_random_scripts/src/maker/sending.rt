//! Packets are sent.

use super::Maker;
use crate::names::{AMOUNTS, NOTES, ODD_AMOUNTS, RECEIVERS, SMALL_AMOUNTS, TOKENS, USERS};
use crate::route::{height_of, time_of};
use crate::run_so_far::RunSoFar;
use crate::step_text::StepText;
use ibc_law_checks::EndNotes;
use ibc_script::Fault;

impl Maker {
    /// Sends a packet over some end, now and then three. Fault: `NoMemory`.
    pub(super) fn send(
        &mut self,
        run: &RunSoFar<'_>,
        steps: &mut Vec<String>,
    ) -> Result<(), Fault> {
        let Some(place) = self.some_end(run) else {
            return self.open(run, steps);
        };
        let packets: u64 = if self.draws.is_one_in(5) { 3 } else { 1 };
        for _packet in 0..packets {
            self.send_over(run, place, steps)?;
        }
        Ok(())
    }

    // Sends a packet over the end at a place.
    fn send_over(
        &mut self,
        run: &RunSoFar<'_>,
        place: usize,
        steps: &mut Vec<String>,
    ) -> Result<(), Fault> {
        let Some(end) = run.notes.checks.ends.get(place) else {
            return Ok(());
        };
        let peer = run.notes.known.tracked_by(place).unwrap_or(0);
        if end.port.as_str() == "note" {
            return self.send_note(run, end, peer, steps);
        }
        let several = run.notes.known.takes_several(place);
        if several == self.draws.is_one_in(6) {
            self.send_token(run, end, peer, steps)
        } else {
            self.send_tokens(run, end, peer, steps)
        }
    }

    // Sends a note.
    fn send_note(
        &mut self,
        run: &RunSoFar<'_>,
        end: &EndNotes,
        peer: u8,
        steps: &mut Vec<String>,
    ) -> Result<(), Fault> {
        let data = self.draws.one_of(&NOTES);
        let mut step = StepText::on(self.alloc, "SendNote", end.chain);
        step.text("channel", end.channel.as_str());
        step.text("data", data);
        self.add_timeouts(run, peer, end.ordered, &mut step);
        step.finish(steps)?;
        Ok(())
    }

    // Sends a token.
    fn send_token(
        &mut self,
        run: &RunSoFar<'_>,
        end: &EndNotes,
        peer: u8,
        steps: &mut Vec<String>,
    ) -> Result<(), Fault> {
        let mut step = StepText::on(self.alloc, "Transfer", end.chain);
        self.add_parties(end.channel.as_str(), &mut step);
        self.add_denom_and_amount(end.channel.as_str(), &mut step)?;
        self.add_timeouts(run, peer, end.ordered, &mut step);
        step.finish(steps)?;
        Ok(())
    }

    // Sends tokens of several denominations.
    fn send_tokens(
        &mut self,
        run: &RunSoFar<'_>,
        end: &EndNotes,
        peer: u8,
        steps: &mut Vec<String>,
    ) -> Result<(), Fault> {
        let mut step = StepText::on(self.alloc, "TransferMany", end.chain);
        self.add_parties(end.channel.as_str(), &mut step);
        let tokens = self.tokens(end.channel.as_str())?;
        step.written("tokens", tokens.as_str());
        self.add_timeouts(run, peer, end.ordered, &mut step);
        step.finish(steps)?;
        Ok(())
    }

    // Adds the channel, who sends, and who receives.
    fn add_parties(&mut self, channel: &str, step: &mut StepText) {
        let user = self.draws.one_of(&USERS);
        let receiver = self.draws.one_of(&RECEIVERS);
        step.text("channel", channel);
        step.text("user", user);
        step.text("receiver", receiver);
        if self.draws.is_one_in(8) {
            step.text("memo", "for the ferry");
        }
    }

    // Adds a denomination and an amount of it: a base one, one that came over the channel, over another one, or over both.
    fn add_denom_and_amount(&mut self, channel: &str, step: &mut StepText) -> Result<(), Fault> {
        let token = self.draws.one_of(&TOKENS);
        match self.draws.below(8) {
            0..=3 => {
                step.text("denom", token);
                let amount = self.amount();
                step.text("amount", amount);
                Ok(())
            }
            4..=5 => self.add_voucher(channel, token, step),
            6 => {
                let other = self.draws.below(4);
                let channel = format!(in self.alloc; "channel-{other}")?;
                self.add_voucher(channel.as_str(), token, step)
            }
            _ => {
                let other = self.draws.below(4);
                let denom = format!(in self.alloc; "transfer/channel-{other}/{token}")?;
                self.add_voucher(channel, denom.as_str(), step)
            }
        }
    }

    // Adds what came over a channel of a denomination, and a small amount.
    fn add_voucher(
        &mut self,
        channel: &str,
        denom: &str,
        step: &mut StepText,
    ) -> Result<(), Fault> {
        let amount = self.draws.one_of(&SMALL_AMOUNTS);
        let voucher = format!(in self.alloc; "transfer/{channel}/{denom}")?;
        step.text("denom", voucher.as_str());
        step.text("amount", amount);
        Ok(())
    }

    // An amount, now and then one that nobody has or that is none.
    fn amount(&mut self) -> &'static str {
        if self.draws.is_one_in(16) {
            self.draws.one_of(&ODD_AMOUNTS)
        } else {
            self.draws.one_of(&AMOUNTS)
        }
    }

    // One to five tokens, whose denominations rise.
    fn tokens(&mut self, channel: &str) -> Result<String, Fault> {
        let amount = self.amount();
        let mut tokens = format!(in self.alloc; "[[\"atom\",\"{amount}\"]")?;
        self.add_token("", "ion", &mut tokens)?;
        self.add_token("", "photon", &mut tokens)?;
        if self.draws.is_one_in(3) {
            let hop = format!(in self.alloc; "transfer/{channel}/")?;
            self.add_token(hop.as_str(), "atom", &mut tokens)?;
            self.add_token(hop.as_str(), "ion", &mut tokens)?;
        }
        tokens.push_str("]")?;
        Ok(tokens)
    }

    // Mostly adds a token, behind its hops.
    fn add_token(&mut self, hops: &str, token: &str, tokens: &mut String) -> Result<(), Fault> {
        if self.draws.is_one_in(3) {
            return Ok(());
        }
        let amount = self.amount();
        write!(tokens, ",[\"{hops}{token}\",\"{amount}\"]")?;
        Ok(())
    }

    // Adds the timeouts: mostly far ahead; else near what the peer's working block has, more seldom where packets keep their order,
    // since a timeout closes such a channel; now and then none.
    fn add_timeouts(&mut self, run: &RunSoFar<'_>, peer: u8, ordered: bool, step: &mut StepText) {
        let height = height_of(run, peer);
        let time = time_of(run, peer);
        let is_near = if ordered {
            self.draws.is_one_in(40)
        } else {
            self.draws.is_one_in(3)
        };
        let kind = if is_near {
            self.draws.below(3)
        } else {
            self.draws.below(24).saturating_add(3)
        };
        let (height, time) = match kind {
            0 => (height.saturating_add(self.draws.below(6)), 0),
            1 => (0, time.saturating_add(self.draws.below(5))),
            2 => (
                height.saturating_add(self.draws.below(6)),
                time.saturating_add(self.draws.below(5)),
            ),
            3 => (0, 0),
            4..=12 => (0, time.saturating_add(1_000)),
            _ => (height.saturating_add(1_000), 0),
        };
        step.number("timeout_height", height);
        step.number("timeout_time", time);
    }
}
