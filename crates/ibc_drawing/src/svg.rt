//! A run, drawn: time goes downwards, and each chain has a lane.

use crate::canvas::{Canvas, ROW, TOP, Tick};
use crate::escaped::write_escaped;
use crate::html::write_page;
use crate::lanes::{MARGIN, lane_x, width_of};
use crate::marks::{draw_entry, draw_none, opening_at};
use crate::mermaid::write_mermaid;
use crate::packets::COLOURS;
use crate::style::STYLE;
use ibc_explain::{ExplainedLine, Explanation, NotPlaced, ScriptRun, explained, explained_words};
use ibc_machine::{Effect, Reply};
use std::alloc::{AllocError, Global};

/// What a picture is written as.
#[derive(Clone, Copy, Debug, PartialEq, Eq)]
pub enum PictureForm {
    /// SVG 1.1.
    Svg,
    /// One page of HTML, which needs no network.
    Html,
    /// The text of a sequence chart, as Mermaid reads it.
    Mermaid,
}

/// The picture of a run.
pub fn draw(
    alloc: Global,
    run: &ScriptRun,
    title: &str,
    form: PictureForm,
) -> Result<String, NotPlaced> {
    let lines = explained(alloc, run)?;
    let mut out = String::new(alloc);
    match form {
        PictureForm::Mermaid => write_mermaid(alloc, &mut out, run, lines.as_slice())?,
        PictureForm::Svg => {
            let canvas = drawn(alloc, run, lines.as_slice())?;
            write_picture(&mut out, run, title, &canvas, lines.as_slice(), 0)?;
        }
        PictureForm::Html => {
            let canvas = drawn(alloc, run, lines.as_slice())?;
            let mut svg = String::new(alloc);
            write_picture(&mut svg, run, title, &canvas, lines.as_slice(), TOP - 20)?;
            write_page(
                alloc,
                &mut out,
                run,
                title,
                &canvas,
                svg.as_str(),
                lines.as_slice(),
            )?;
        }
    }
    Ok(out)
}

// Draws the lines of a run, from the top down.
fn drawn<'e>(
    alloc: Global,
    run: &ScriptRun,
    lines: &[ExplainedLine<'e>],
) -> Result<Canvas<'e>, AllocError> {
    let mut canvas = Canvas::new(alloc);
    let mut band = 0usize;
    for (at, line) in lines.iter().enumerate() {
        if band > 0 {
            band = band.saturating_sub(1);
            continue;
        }
        band = opening_at(lines, at);
        if band > 0 {
            let opening = lines.get(at..at.saturating_add(band)).unwrap_or(&[]);
            draw_band(&mut canvas, opening)?;
            band = band.saturating_sub(1);
        } else {
            draw_line(alloc, &mut canvas, run, line)?;
        }
    }
    Ok(canvas)
}

// Draws a line that opens no channel.
fn draw_line<'e>(
    alloc: Global,
    canvas: &mut Canvas<'e>,
    run: &ScriptRun,
    line: &ExplainedLine<'e>,
) -> Result<(), AllocError> {
    let title = explained_words(alloc, run.names.as_slice(), line)?;
    match (&line.told, chain_named(run, line.line.text)) {
        (Some(told), _) => draw_entry(canvas, told, title.as_str())?,
        (None, Some(chain)) if line.is_unsent() => {
            draw_none(canvas, chain, line, title.as_str())?;
        }
        _ => {}
    }
    drop(title);
    Ok(())
}

// The number of the chain whose name a line begins with.
fn chain_named(run: &ScriptRun, line: &str) -> Option<u8> {
    let (first, _) = line.split_once(' ')?;
    for (chain, name) in run.names.iter().enumerate() {
        if name.as_str() == first {
            return Some(chain as u8);
        }
    }
    None
}

// The band of entries that open a channel; their blocks end in it.
fn draw_band(canvas: &mut Canvas<'_>, lines: &[ExplainedLine<'_>]) -> Result<(), AllocError> {
    let mut first = u8::MAX;
    let mut last = 0u8;
    canvas.down(ROW);
    for line in lines {
        if let Some(told) = &line.told {
            first = first.min(told.place.chain);
            last = last.max(told.place.chain);
            tick_inside(canvas, told)?;
        }
    }
    let count = lines.len();
    let left = lane_x(first.min(last)) - 26;
    let right = lane_x(last) + 26;
    let (wide, top) = (right.saturating_sub(left), canvas.y.saturating_sub(ROW));
    let (middle, base) = (left + wide / 2, canvas.y.saturating_add(5));
    writeln!(
        canvas.shapes,
        "<rect class=\"band\" x=\"{left}\" y=\"{top}\" width=\"{wide}\" height=\"42\" rx=\"6\"/>"
    )?;
    writeln!(
        canvas.texts,
        "<text class=\"inside\" x=\"{middle}\" y=\"{base}\" text-anchor=\"middle\">{count} steps open channels: clients, connections, channels</text>"
    )?;
    canvas.down(ROW * 2);
    Ok(())
}

// Notes where the block ends that an entry in a band ends.
fn tick_inside(canvas: &mut Canvas<'_>, told: &Explanation<'_>) -> Result<(), AllocError> {
    if let Reply::Ok(Effect::Block(height, _)) = &told.entry.reply {
        let y = canvas.y;
        canvas.ticks.push(Tick {
            chain: told.place.chain,
            height: *height,
            y,
        })?;
    }
    Ok(())
}

// Writes the picture, from so far down on.
fn write_picture(
    out: &mut String,
    run: &ScriptRun,
    title: &str,
    canvas: &Canvas<'_>,
    lines: &[ExplainedLine<'_>],
    from: usize,
) -> Result<(), AllocError> {
    let width = width_of(run.names.len() as u8);
    let bottom = canvas.y.saturating_add(6);
    let height = bottom
        .saturating_add(62)
        .saturating_add(ends_in(lines).saturating_mul(18))
        .saturating_sub(from);
    write!(
        out,
        "<svg xmlns=\"http://www.w3.org/2000/svg\" width=\"{width}\" height=\"{height}\" "
    )?;
    write!(
        out,
        "viewBox=\"0 {from} {width} {height}\" role=\"img\" aria-label=\"A run of "
    )?;
    write_escaped(out, title)?;
    out.push_str("\">\n<style>\n")?;
    out.push_str(STYLE)?;
    out.push_str("</style>\n")?;
    write_tips(out)?;
    writeln!(
        out,
        "<rect class=\"paper\" y=\"{from}\" width=\"{width}\" height=\"{height}\"/>"
    )?;
    write_head(out, title, canvas)?;
    write_lanes(out, run, bottom)?;
    out.push_str(canvas.shapes.as_str())?;
    out.push_str(canvas.marks.as_str())?;
    out.push_str(canvas.texts.as_str())?;
    write_ends(out, bottom.saturating_add(46), lines)?;
    out.push_str("</svg>\n")
}

// The heads of arrows, in each colour.
fn write_tips(out: &mut String) -> Result<(), AllocError> {
    for colour in 0..COLOURS {
        write!(
            out,
            "<defs><marker id=\"tip{colour}\" viewBox=\"0 0 10 10\" refX=\"14\" refY=\"5\" markerWidth=\"5.5\" markerHeight=\"5.5\" "
        )?;
        writeln!(
            out,
            "orient=\"auto\"><path d=\"M0 0L10 5L0 10z\" style=\"fill: var(--packet-{colour})\"/></marker></defs>"
        )?;
    }
    Ok(())
}

// The title, and what was counted.
fn write_head(out: &mut String, title: &str, canvas: &Canvas<'_>) -> Result<(), AllocError> {
    write!(out, "<text class=\"title\" x=\"{MARGIN}\" y=\"38\">")?;
    write_escaped(out, title)?;
    write!(
        out,
        "</text>\n<text class=\"soft\" x=\"{MARGIN}\" y=\"60\">"
    )?;
    canvas.counts.write(out)?;
    out.push_str("</text>\n")
}

fn write_lanes(out: &mut String, run: &ScriptRun, bottom: usize) -> Result<(), AllocError> {
    let (top, base) = (TOP - 14, TOP - 26);
    for (chain, name) in run.names.iter().enumerate() {
        let x = lane_x(chain as u8);
        let name = name.as_str();
        writeln!(
            out,
            "<line class=\"lane\" x1=\"{x}\" x2=\"{x}\" y1=\"{top}\" y2=\"{bottom}\"/>"
        )?;
        writeln!(
            out,
            "<text class=\"chain\" x=\"{x}\" y=\"{base}\" text-anchor=\"middle\">{name}</text>"
        )?;
    }
    Ok(())
}

// Whether a line tells what a chain holds at the end.
fn is_end(line: &ExplainedLine<'_>) -> bool {
    let text = line.line.text;
    line.notes.step.is_none() && (text.starts_with("balance ") || text.starts_with("note "))
}

// How many lines tell what chains hold at the end.
fn ends_in(lines: &[ExplainedLine<'_>]) -> usize {
    let mut ends = 0usize;
    for line in lines {
        if is_end(line) {
            ends = ends.saturating_add(1);
        }
    }
    ends
}

fn write_ends(
    out: &mut String,
    from: usize,
    lines: &[ExplainedLine<'_>],
) -> Result<(), AllocError> {
    let title = from.saturating_sub(14);
    writeln!(
        out,
        "<text class=\"chain\" x=\"{MARGIN}\" y=\"{title}\">At the end</text>"
    )?;
    let mut y = from.saturating_add(8);
    for line in lines {
        if is_end(line) {
            write!(out, "<text x=\"{MARGIN}\" y=\"{y}\">")?;
            write_escaped(out, line.line.text)?;
            out.push_str("</text>\n")?;
            y = y.saturating_add(18);
        }
    }
    Ok(())
}
