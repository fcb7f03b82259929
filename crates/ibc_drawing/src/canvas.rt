//! What is drawn, from the top down.

ghost use Rattle.std.specs.Prelude.{◌≡◌, ◌++◌, ◌+◌, ◌-◌, ◌^◌, ◌∷◌, [], OnOk, find, min, reverse};
ghost use Rattle.ibc_drawing.specs.Ticks.{end_of_block, is_tick, new_tick};

use crate::escaped::write_escaped;
use crate::lanes::lane_x;
use crate::packets::DrawnPackets;
use std::alloc::{AllocError, Global};

/// How far down the first mark stands.
pub const TOP: usize = 118;

/// From one mark to the next.
pub const ROW: usize = 20;

/// From the end of a block to what comes next, and from an update to that.
const TICK_ROW: usize = 17;

const UPDATE_ROW: usize = 8;

/// How a mark looks.
#[derive(Clone, Copy, PartialEq, Eq)]
pub enum Ink {
    /// In the colour of a packet.
    Packet(usize),
    /// As plain text.
    Plain,
    /// As soft text, hollow.
    Soft,
    /// Hollow and red.
    Refused,
}

/// What is said of a mark: beside it, and where somebody asks for more.
#[derive(Clone, Copy)]
pub struct MarkWords<'w> {
    pub beside: &'w str,
    pub title: &'w str,
}

/// A block of a chain, how far down it ends.
#[derive(Clone, Copy)]
pub struct Tick {
    pub chain: u8,
    pub height: u64,
    pub y: usize,
}

/// How many packets had which end, and how much was refused.
#[derive(Clone, Copy)]
pub struct PacketCounts {
    pub sent: u64,
    pub received: u64,
    pub settled: u64,
    pub timed_out: u64,
    pub refused: u64,
}

impl PacketCounts {
    /// Writes what was counted.
    pub fn write(&self, out: &mut String) -> Result<(), AllocError> {
        let (sent, received, settled) = (self.sent, self.received, self.settled);
        let (timed_out, refused) = (self.timed_out, self.refused);
        write!(
            out,
            "packets: {sent} sent, {received} received, {settled} acknowledged, "
        )?;
        write!(out, "{timed_out} timed out; {refused} refusals")
    }
}

/// A picture under way: lines, what stands on them, texts; how far down it is, and what was met.
#[derive(Drop)]
pub struct Canvas<'e> {
    pub alloc: Global,
    pub shapes: String,
    pub marks: String,
    pub texts: String,
    pub y: usize,
    pub ticks: Vec<Tick>,
    pub packets: DrawnPackets<'e>,
    pub counts: PacketCounts,
}

impl Canvas<'_> {
    /// An empty picture.
    pub fn new(alloc: Global) -> Self {
        Canvas {
            alloc,
            shapes: String::new(alloc),
            marks: String::new(alloc),
            texts: String::new(alloc),
            y: TOP,
            ticks: Vec::new(alloc),
            packets: DrawnPackets {
                met: Vec::new(alloc),
            },
            counts: PacketCounts {
                sent: 0,
                received: 0,
                settled: 0,
                timed_out: 0,
                refused: 0,
            },
        }
    }

    /// Goes down, and draws nothing.
    pub fn down(&mut self, by: usize)
        ensures { self.new ≡ record self.old { y = min (self.old.y + by) (2 ^ 64 - 1) } }
    {
        self.y = self.y.saturating_add(by);
    }

    /// A mark on the lane of a chain, with words beside it: to the left of the first lane, and to the right of others.
    pub fn mark(&mut self, chain: u8, ink: Ink, words: MarkWords<'_>) -> Result<(), AllocError> {
        let x = lane_x(chain);
        let y = self.y;
        match ink {
            Ink::Packet(colour) => {
                write!(self.marks, "<circle style=\"fill: var(--packet-{colour})\"")?;
            }
            Ink::Plain => self.marks.push_str("<circle class=\"plain\"")?,
            Ink::Soft => self.marks.push_str("<circle class=\"missing\"")?,
            Ink::Refused => self.marks.push_str("<circle class=\"refused\"")?,
        }
        write!(self.marks, " cx=\"{x}\" cy=\"{y}\" r=\"4.5\"><title>")?;
        write_escaped(&mut self.marks, words.title)?;
        self.marks.push_str("</title></circle>\n")?;
        self.label(chain, ink, words.beside)
    }

    fn label(&mut self, chain: u8, ink: Ink, words: &str) -> Result<(), AllocError> {
        let (x, anchor) = if chain == 0 {
            (lane_x(chain) - 12, "end")
        } else {
            (lane_x(chain) + 12, "start")
        };
        let y = self.y.saturating_add(4);
        write!(
            self.texts,
            "<text x=\"{x}\" y=\"{y}\" text-anchor=\"{anchor}\""
        )?;
        match ink {
            Ink::Packet(colour) => write!(self.texts, " style=\"fill: var(--packet-{colour})\">")?,
            Ink::Plain => self.texts.push('>')?,
            Ink::Soft => self.texts.push_str(" class=\"soft\">")?,
            Ink::Refused => self.texts.push_str(" class=\"bad\">")?,
        }
        write_escaped(&mut self.texts, words)?;
        self.texts.push_str("</text>\n")
    }

    /// A line of a class from a lane, further up, to where the picture is on another.
    pub fn line(
        &mut self,
        class: &str,
        from: u8,
        begun: usize,
        to: u8,
        colour: Option<usize>,
    ) -> Result<(), AllocError> {
        let x = lane_x(from);
        let end = lane_x(to);
        let y = self.y;
        write!(
            self.shapes,
            "<path class=\"{class}\" d=\"M{x} {begun} L{end} {y}\""
        )?;
        self.end_shape(colour)
    }

    /// A bow on a lane, from further up to where the picture is.
    pub fn bow(&mut self, chain: u8, begun: usize, colour: usize) -> Result<(), AllocError> {
        let x = lane_x(chain);
        let bow = if chain == 0 { x + 46 } else { x - 46 };
        let y = self.y;
        write!(
            self.shapes,
            "<path class=\"bow\" d=\"M{x} {begun} C{bow} {begun}, {bow} {y}, {x} {y}\""
        )?;
        self.end_shape(Some(colour))
    }

    fn end_shape(&mut self, colour: Option<usize>) -> Result<(), AllocError> {
        match colour {
            Some(colour) => writeln!(
                self.shapes,
                " style=\"stroke: var(--packet-{colour})\" marker-end=\"url(#tip{colour})\"/>"
            ),
            None => self.shapes.push_str("/>\n"),
        }
    }

    /// The end of a block. What comes next stands behind it.
    pub fn tick(&mut self, chain: u8, height: u64) -> Result<(), AllocError>
        ensures ticks { OnOk result (self.new.ticks.items ≡ self.old.ticks.items ++ new_tick chain height self.old.y ∷ []) }
        ensures y { OnOk result (self.new.y ≡ min (self.old.y + TICK_ROW) (2 ^ 64 - 1)) }
    {
        let y = self.y;
        self.ticks.push(Tick { chain, height, y })?;
        let x = lane_x(chain);
        let (left, right) = (x - 9, x + 9);
        writeln!(
            self.shapes,
            "<line class=\"tick\" x1=\"{left}\" x2=\"{right}\" y1=\"{y}\" y2=\"{y}\"/>"
        )?;
        let (inner, anchor) = if chain == 0 {
            (x + 14, "start")
        } else {
            (x - 14, "end")
        };
        let base = y.saturating_add(4);
        writeln!(
            self.texts,
            "<text class=\"height\" x=\"{inner}\" y=\"{base}\" text-anchor=\"{anchor}\">{height}</text>"
        )?;
        self.down(TICK_ROW);
        Ok(())
    }

    /// What a chain was told of a height of another.
    pub fn update(&mut self, on: u8, of: u8, height: u64) -> Result<(), AllocError> {
        let begun = self.y_of(of, height);
        self.line("update", of, begun, on, None)?;
        self.down(UPDATE_ROW);
        Ok(())
    }

    /// How far down a block of a chain ends; where that isn't known, where the picture is.
    pub fn y_of(&self, chain: u8, height: u64) -> usize
        ensures { result ≡ end_of_block chain height self.now.ticks.items self.now.y }
    {
        y_of_tick(self.ticks.as_slice(), chain, height, self.y)
    }
}

// How far down the last tick of a chain and a height stands, or where there is none.
fn y_of_tick(ticks: &[Tick], chain: u8, height: u64, otherwise: usize) -> usize
    ensures { result ≡ end_of_block chain height ticks.now otherwise }
{
    match last_tick(ticks, chain, height) {
        Some(tick) => tick.y,
        None => otherwise,
    }
}

// The last tick of a chain and a height.
fn last_tick(ticks: &[Tick], chain: u8, height: u64) -> Option<Tick>
    ensures { result ≡ find (is_tick chain height) (reverse ticks.now) }
{
    ticks
        .iter()
        .rev()
        .copied()
        .find(|tick| is_tick(tick, chain, height))
}

// Whether a tick is that of a chain and a height.
fn is_tick(tick: &Tick, chain: u8, height: u64) -> bool
    ensures { result ≡ is_tick chain height tick.now }
{
    tick.chain == chain && tick.height == height
}
