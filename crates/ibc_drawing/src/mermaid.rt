//! A run as a sequence chart of Mermaid.

use crate::marks::opening_at;
use crate::packets::{DrawnPackets, PacketKey};
use crate::words::words_of;
use ibc_explain::{ExplainedLine, Explanation, PacketOutcome, ScriptRun};
use ibc_machine::{Event, Reply};
use ibc_wire::Message;
use std::alloc::{AllocError, Global};

/// Writes the chart: an arrow for each packet that came, a dotted one back for its acknowledgement, an open one for each height
/// that a client was told, a cross for a packet that was refused, and notes for the rest. What opens channels is one note.
pub fn write_mermaid(
    alloc: Global,
    out: &mut String,
    run: &ScriptRun,
    lines: &[ExplainedLine<'_>],
) -> Result<(), AllocError> {
    out.push_str("sequenceDiagram\n")?;
    for (chain, name) in run.names.iter().enumerate() {
        let name = name.as_str();
        writeln!(out, "    participant c{chain} as {name}")?;
    }
    let mut chart = Chart {
        alloc,
        out: String::new(alloc),
        packets: DrawnPackets {
            met: Vec::new(alloc),
        },
    };
    let mut band = 0usize;
    for (at, line) in lines.iter().enumerate() {
        if band == 0 {
            band = opening_at(lines, at);
            chart.line(line, band)?;
        }
        band = band.saturating_sub(1);
    }
    out.push_str(chart.out.as_str())
}

/// A chart under way, with the packets that were met.
#[derive(Drop)]
struct Chart<'e> {
    alloc: Global,
    out: String,
    packets: DrawnPackets<'e>,
}

impl<'e> Chart<'e> {
    // Writes a line, or the note of as many lines as open channels.
    fn line(&mut self, line: &ExplainedLine<'e>, band: usize) -> Result<(), AllocError> {
        let Some(told) = &line.told else {
            return Ok(());
        };
        if band > 0 {
            let on = told.place.chain;
            return writeln!(self.out, "    Note over c{on}: {band} steps open channels");
        }
        let words = words_of(self.alloc, told)?;
        let written = self.entry(told, words.as_str());
        drop(words);
        written
    }

    fn entry(&mut self, told: &Explanation<'e>, words: &str) -> Result<(), AllocError> {
        let on = told.place.chain;
        let from = told.sender.unwrap_or(on);
        match (&told.entry.event, &told.entry.reply) {
            (Event::Block { .. }, Reply::Ok(_)) => match told.facts.height {
                Some(height) => writeln!(self.out, "    Note over c{on}: block {height}"),
                None => Ok(()),
            },
            (_, Reply::No(_)) if from != on => {
                write!(self.out, "    c{from}-xc{on}: ")?;
                self.words(words)
            }
            (
                Event::Message {
                    message: Message::UpdateClient(message),
                    ..
                },
                Reply::Ok(_),
            ) => {
                let of = message.header.chain;
                let height = message.header.height;
                writeln!(self.out, "    c{of}--)c{on}: height {height}")
            }
            _ => self.packet(told, from, words),
        }
    }

    // Writes what became of a packet, or a note.
    fn packet(&mut self, told: &Explanation<'e>, from: u8, words: &str) -> Result<(), AllocError> {
        let on = told.place.chain;
        let taken = match told.outcome {
            Some(PacketOutcome::Delivered | PacketOutcome::Refused) => PacketKey::of(told),
            _ => None,
        };
        match taken {
            Some(key) if from != on => {
                self.packets.send(key, 0)?;
                self.packets.receive(key, on, 0);
                write!(self.out, "    c{from}->>c{on}: ")?;
            }
            Some(key) => match self.packets.find(key).and_then(|packet| packet.received) {
                Some((there, _)) => write!(self.out, "    c{there}-->>c{on}: ")?,
                None => write!(self.out, "    Note over c{on}: ")?,
            },
            None => write!(self.out, "    Note over c{on}: ")?,
        }
        self.words(words)
    }

    // Writes a text without what Mermaid takes for its own.
    fn words(&mut self, words: &str) -> Result<(), AllocError> {
        for character in words.chars() {
            match character {
                ';' | '#' => self.out.push(' ')?,
                _ => self.out.push(character)?,
            }
        }
        self.out.push('\n')
    }
}
