//! A picture as a page, which needs no network and no mouse.

use crate::canvas::Canvas;
use crate::escaped::write_escaped;
use crate::lanes::{lane_x, width_of};
use ibc_explain::{ExplainedLine, ScriptRun, write_explained};
use std::alloc::{AllocError, Global};

/// The looks of the page around the picture. The names of the lanes stay at the top.
const PAGE_STYLE: &str =
    "body { margin: 0; background: var(--paper); color: var(--ink); font: 15px system-ui, 'Segoe UI', 'DejaVu Sans', sans-serif }
h1 { font-size: 19px; margin: 18px 24px 4px } p { margin: 0 24px 8px; color: var(--soft); font-size: 13px } svg { display: block }
.names { position: sticky; top: 0; background: var(--paper); border-bottom: 1px solid var(--rule); width: max-content }
details { margin: 1em 24px } pre { font-size: 13px }
";

/// Writes the page: a head, the names of the lanes, the picture, whose marks tell more to a pointer that stays on them, and all
/// lines of the run with what they are about.
pub fn write_page(
    alloc: Global,
    out: &mut String,
    run: &ScriptRun,
    title: &str,
    canvas: &Canvas<'_>,
    svg: &str,
    lines: &[ExplainedLine<'_>],
) -> Result<(), AllocError> {
    write_top(out, title)?;
    out.push_str("<h1>")?;
    write_escaped(out, title)?;
    out.push_str("</h1>\n<p>")?;
    canvas.counts.write(out)?;
    out.push_str("</p>\n")?;
    write_names(out, run)?;
    out.push_str(svg)?;
    out.push_str("<details>\n<summary>All lines of the run</summary>\n<pre>\n")?;
    let mut text = String::new(alloc);
    for line in lines {
        write_explained(alloc, &mut text, run.names.as_slice(), line)?;
    }
    write_escaped(out, text.as_str())?;
    out.push_str("</pre>\n</details>\n</body>\n</html>\n")
}

// The page up to its body.
fn write_top(out: &mut String, title: &str) -> Result<(), AllocError> {
    out.push_str("<!doctype html>\n<html lang=\"en\">\n<head>\n<meta charset=\"utf-8\">\n")?;
    out.push_str("<meta name=\"viewport\" content=\"width=device-width\">\n")?;
    out.push_str("<meta name=\"color-scheme\" content=\"light dark\">\n<title>")?;
    write_escaped(out, title)?;
    out.push_str("</title>\n<style>\n")?;
    out.push_str(PAGE_STYLE)?;
    out.push_str("</style>\n</head>\n<body>\n")
}

// The names of the chains over their lanes, which stay where they are while the page is read.
fn write_names(out: &mut String, run: &ScriptRun) -> Result<(), AllocError> {
    let width = width_of(run.names.len() as u8);
    writeln!(
        out,
        "<div class=\"names\"><svg width=\"{width}\" height=\"30\" aria-hidden=\"true\">"
    )?;
    for (chain, name) in run.names.iter().enumerate() {
        let x = lane_x(chain as u8);
        let name = name.as_str();
        writeln!(
            out,
            "<text class=\"chain\" x=\"{x}\" y=\"20\" text-anchor=\"middle\">{name}</text>"
        )?;
    }
    out.push_str("</svg></div>\n")
}
