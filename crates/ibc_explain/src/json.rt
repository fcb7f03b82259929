//! Explanations as JSON, an object a line.

use crate::explanation::Explanation;
use crate::meanings::meaning_of;
use crate::text::{name_of, write_lacking};
use crate::totals::ChannelTotal;
use crate::{ExplainedLine, PacketOutcome};
use ibc_ids::Refusal;
use ibc_machine::Reply;
use ibc_script::ChainName;
use ibc_token_data::TokenData;
use ibc_wire::Token;
use serde_json::{Map, Value, json};
use std::alloc::{AllocError, Global};

/// Makes objects.
#[derive(Clone, Copy)]
pub struct ObjectWriter<'n> {
    pub alloc: Global,
    pub names: &'n [ChainName],
}

impl ObjectWriter<'_> {
    /// Writes the object of a line: the line, the step that it came by, and what is told of its entry, or what isn't there.
    pub fn line(&self, out: &mut String, line: &ExplainedLine<'_>) -> Result<(), AllocError> {
        let mut object = Map::new(self.alloc);
        let text = line.line.text;
        let text = json!(in self.alloc; text)?;
        self.add(&mut object, "line", text)?;
        if let Some(step) = line.notes.step {
            let step = step as u64;
            let step = json!(in self.alloc; step)?;
            self.add(&mut object, "step", step)?;
        }
        if let Some(told) = &line.told {
            self.entry(&mut object, told, line.notes.sides)?;
        } else if line.is_none() {
            let mut words = String::new(self.alloc);
            write_lacking(&mut words, self.names, line)?;
            let words = json!(in self.alloc; words.as_str())?;
            self.add(&mut object, "lacks", words)?;
        }
        self.end(out, object)
    }

    /// Writes the object of what a channel has.
    pub fn total(&self, out: &mut String, total: &ChannelTotal<'_>) -> Result<(), AllocError> {
        let mut object = Map::new(self.alloc);
        let chain = name_of(self.names, total.chain);
        let (channel, denom) = (total.channel.as_str(), total.denom.as_str());
        let name = json!(in self.alloc; [chain, channel, denom])?;
        self.add(&mut object, "total", name)?;
        self.add_amount(&mut object, "escrow", total.totals.escrow)?;
        self.add_amount(&mut object, "vouchers", total.totals.vouchers)?;
        self.add_amount(&mut object, "out", total.totals.out)?;
        self.add_amount(&mut object, "back", total.totals.back)?;
        self.end(out, object)
    }

    // Writes an object, and the line feed behind it.
    fn end(&self, out: &mut String, object: Map<String, Value>) -> Result<(), AllocError> {
        let value = Value::Object(object);
        let text = value.to_string(self.alloc);
        drop(value);
        let text = text?;
        let written = out.push_str(text.as_str());
        drop(text);
        written?;
        out.push('\n')
    }

    // Adds an amount, as a text.
    fn add_amount(
        &self,
        object: &mut Map<String, Value>,
        name: &str,
        amount: u128,
    ) -> Result<(), AllocError> {
        let amount = format!(in self.alloc; "{amount}")?;
        self.add(object, name, json!(in self.alloc; amount.as_str())?)
    }

    // Adds a member.
    fn add(
        &self,
        object: &mut Map<String, Value>,
        name: &str,
        value: Value,
    ) -> Result<(), AllocError> {
        let name = String::from_str(self.alloc, name)?;
        drop(object.insert(name, value)?);
        Ok(())
    }

    // Adds what is told of an entry.
    fn entry(
        &self,
        object: &mut Map<String, Value>,
        told: &Explanation<'_>,
        sides: &str,
    ) -> Result<(), AllocError> {
        let chain = name_of(self.names, told.place.chain);
        self.add(object, "chain", json!(in self.alloc; chain)?)?;
        self.add(
            object,
            "index",
            json!(in self.alloc; told.place.index as u64)?,
        )?;
        let kind = crate::places::event_kind(&told.entry.event).name();
        self.add(object, "kind", json!(in self.alloc; kind)?)?;
        self.add(object, "ok", json!(in self.alloc; told.is_ok())?)?;
        self.facts(object, told)?;
        if let Reply::No(refusal) = &told.entry.reply {
            let value = self.refusal(*refusal, sides)?;
            self.add(object, "refusal", value)?;
        }
        if let Some(tokens) = &told.tokens {
            self.tokens(object, tokens)?;
        }
        match told.outcome {
            Some(outcome) => {
                let value = self.outcome(told, outcome)?;
                self.add(object, "outcome", value)
            }
            None => Ok(()),
        }
    }

    // Adds the packet, the client, the chain that it tracks, the height, and the ends of a handshake.
    fn facts(
        &self,
        object: &mut Map<String, Value>,
        told: &Explanation<'_>,
    ) -> Result<(), AllocError> {
        if let Some(packet) = told.facts.packet {
            let chain = match told.sender {
                Some(chain) => name_of(self.names, chain),
                None => "?",
            };
            let value =
                json!(in self.alloc; [chain, packet.port, packet.channel, packet.sequence])?;
            self.add(object, "packet", value)?;
        }
        if let Some(client) = told.facts.client {
            let client = client.as_str();
            self.add(object, "client", json!(in self.alloc; client)?)?;
        }
        if let Some(tracked) = told.facts.tracked {
            let chain = name_of(self.names, tracked);
            self.add(object, "of", json!(in self.alloc; chain)?)?;
        }
        if let Some(height) = told.facts.height {
            self.add(object, "height", json!(in self.alloc; height)?)?;
        }
        self.ends(object, told)
    }

    // Adds the connection and the channel of a handshake.
    fn ends(
        &self,
        object: &mut Map<String, Value>,
        told: &Explanation<'_>,
    ) -> Result<(), AllocError> {
        if let Some(connection) = told.facts.connection {
            let connection = connection.as_str();
            self.add(object, "connection", json!(in self.alloc; connection)?)?;
        }
        if let Some((port, channel)) = told.facts.end {
            let channel = channel.as_str();
            self.add(object, "channel", json!(in self.alloc; [port, channel])?)?;
        }
        Ok(())
    }

    // Why it was refused: the number, the name, and what was compared, or else what the name means.
    fn refusal(&self, refusal: Refusal, sides: &str) -> Result<Value, AllocError> {
        let name = format!(in self.alloc; "{refusal:?}")?;
        let number = u64::from(refusal.number());
        let name = name.as_str();
        let why = if sides.is_empty() {
            meaning_of(refusal)
        } else {
            sides
        };
        json!(in self.alloc; {"number": number, "name": name, "why": why})
    }

    // Adds the tokens of a packet, from whom and to whom.
    fn tokens(
        &self,
        object: &mut Map<String, Value>,
        tokens: &TokenData,
    ) -> Result<(), AllocError> {
        let mut list = Vec::new(self.alloc);
        for token in &tokens.tokens {
            list.push(self.token(token)?)?;
        }
        self.add(object, "tokens", Value::Array(list))?;
        let sender = tokens.sender.as_str();
        self.add(object, "from", json!(in self.alloc; sender)?)?;
        let receiver = tokens.receiver.as_str();
        self.add(object, "to", json!(in self.alloc; receiver)?)
    }

    // `[denomination, amount]`, both texts.
    fn token(&self, token: &Token) -> Result<Value, AllocError> {
        let denom = token.denom.as_str();
        let amount = token.amount;
        let amount = format!(in self.alloc; "{amount}")?;
        let amount = amount.as_str();
        json!(in self.alloc; [denom, amount])
    }

    // What became of a packet.
    fn outcome(&self, told: &Explanation<'_>, outcome: PacketOutcome) -> Result<Value, AllocError> {
        match outcome {
            PacketOutcome::Delivered if told.is_of_sender() => {
                json!(in self.alloc; {"result": "delivered"})
            }
            PacketOutcome::Delivered => json!(in self.alloc; {"result": "taken"}),
            PacketOutcome::Refused => {
                let reason = told.reason.as_str();
                json!(in self.alloc; {"result": "refused", "reason": reason})
            }
            PacketOutcome::TimedOut => json!(in self.alloc; {"result": "timed out"}),
        }
    }
}
