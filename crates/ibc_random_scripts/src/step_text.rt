//! Steps of scripts, written as JSON.

use crate::names::chain_name;
use std::alloc::{AllocError, Global};

/// A step that is being written. Where a growth is refused, the rest isn't written, and `finish` tells it.
#[derive(Drop)]
pub struct StepText {
    text: String,
    is_refused: bool,
}

impl StepText {
    /// A step of this kind on a chain.
    pub fn on(alloc: Global, kind: &str, chain: u8) -> StepText {
        let mut step = StepText::of(alloc, kind);
        step.chain("on", chain);
        step
    }

    /// A step of this kind between two chains.
    pub fn between(alloc: Global, kind: &str, first: u8, second: u8) -> StepText {
        let mut step = StepText::of(alloc, kind);
        step.member("chains");
        step.push("[\"");
        step.push(chain_name(first));
        step.push("\",\"");
        step.push(chain_name(second));
        step.push("\"]");
        step
    }

    // A step of this kind.
    fn of(alloc: Global, kind: &str) -> StepText {
        let mut step = StepText {
            text: String::new(alloc),
            is_refused: false,
        };
        step.push("{\"do\":\"");
        step.push(kind);
        step.push("\"");
        step
    }

    // Adds a text, unless a growth was refused.
    fn push(&mut self, text: &str) {
        if !self.is_refused {
            self.is_refused = self.text.push_str(text).is_err();
        }
    }

    // Adds a number, unless a growth was refused.
    fn push_number(&mut self, number: u64) {
        if !self.is_refused {
            let written = write!(self.text, "{number}");
            self.is_refused = written.is_err();
        }
    }

    // Begins a member.
    fn member(&mut self, name: &str) {
        self.push(",\"");
        self.push(name);
        self.push("\":");
    }

    /// Adds a member that is a text.
    pub fn text(&mut self, name: &str, value: &str) {
        self.member(name);
        self.push("\"");
        self.push(value);
        self.push("\"");
    }

    /// Adds a member that is a number.
    pub fn number(&mut self, name: &str, value: u64) {
        self.member(name);
        self.push_number(value);
    }

    /// Adds a member that is a chain's name.
    pub fn chain(&mut self, name: &str, chain: u8) {
        self.text(name, chain_name(chain));
    }

    /// Adds a member that is a name with a number, as `channel-0`.
    pub fn numbered(&mut self, name: &str, stem: &str, number: u64) {
        self.member(name);
        self.push("\"");
        self.push(stem);
        self.push("-");
        self.push_number(number);
        self.push("\"");
    }

    /// Adds the packet that an end sent under a sequence.
    pub fn packet(&mut self, chain: u8, port: &str, channel: &str, sequence: u64) {
        self.member("packet");
        self.push("[\"");
        self.push(chain_name(chain));
        self.push("\",\"");
        self.push(port);
        self.push("\",\"");
        self.push(channel);
        self.push("\",");
        self.push_number(sequence);
        self.push("]");
    }

    /// Adds a member that is already written as JSON.
    pub fn written(&mut self, name: &str, value: &str) {
        self.member(name);
        self.push(value);
    }

    /// Adds the step to those that come next. Error: no memory, now or before.
    pub fn finish(self, steps: &mut Vec<String>) -> Result<(), AllocError> {
        let mut step = self;
        step.push("}");
        let StepText { text, is_refused } = step;
        if is_refused {
            drop(text);
            return Err(AllocError);
        }
        steps.push(text)?;
        Ok(())
    }
}
