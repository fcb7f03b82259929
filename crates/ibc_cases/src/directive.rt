//! What is done with a script beside running it.

use crate::lines::Lines;
use crate::mistake::{Mistake, Wrong, number_of, size_of};
use crate::runs::{Run, print_fault};
use crate::texts::{Judged, judged_lines, long_script, print_number};
use ibc_script::Fault;
use std::alloc::{AllocError, Global};
use std::io;
use std::io::Write;

/// What is done with a script, or with the lines below.
#[derive(Clone, Copy)]
pub enum Directive<'t> {
    /// `> word WORD`: the program is run with this word.
    Word(&'t str),
    /// `> reads NUMBER`: it is run with readers that fail after 0 reads, 1 and so on, below this number.
    Reads(u64),
    /// `> writes NUMBER`: the same with writers.
    Writes(u64),
    /// `> texts FRONT~BACK`: each line below is judged between these two texts.
    Texts {
        front: &'t str,
        back: &'t str,
        lines: Lines<'t>,
    },
    /// `> long STEPS BYTES`: a script of so many steps is judged, with blanks up to so many bytes.
    Long(usize, usize),
    /// `> faults`: the texts of the faults are printed.
    Faults,
}

// The first word behind a part's mark, and what stands behind it.
fn head_of<'t>(head: &'t [u8]) -> (&'t str, &'t str) {
    let head = str::from_utf8(head).unwrap_or("");
    let words = head.strip_prefix("> ").unwrap_or("");
    words.split_once(' ').unwrap_or((words, ""))
}

impl<'t> Directive<'t> {
    /// Whether the first line of a part means one: else it means forgeries.
    pub fn is_meant(part: Lines<'_>) -> bool {
        match part.split_first() {
            Some((head, _)) => matches!(
                head_of(head).0,
                "word" | "reads" | "writes" | "texts" | "long" | "faults"
            ),
            None => false,
        }
    }

    /// What a part says. Error: its first line with a mistake.
    pub fn of(part: Lines<'t>) -> Result<Directive<'t>, Wrong> {
        let Some((head, lines)) = part.split_first() else {
            return Err(Mistake::Kind.at(part.number));
        };
        let (verb, value) = head_of(head);
        match said(verb, value, lines) {
            Ok(directive) => directive.above(lines),
            Err(mistake) => Err(mistake.at(part.number)),
        }
    }

    // The same above these lines. Error: a line that it hasn't.
    fn above(self, lines: Lines<'_>) -> Result<Directive<'t>, Wrong> {
        let has_lines = matches!(self, Directive::Texts { .. });
        match lines.texts.iter().position(|text| !text.is_empty()) {
            Some(index) if !has_lines => {
                Err(Mistake::Line.at(lines.number.saturating_add(index)))
            }
            _ => Ok(self),
        }
    }
}

// What a verb and the words behind it say.
fn said<'t>(verb: &str, value: &'t str, lines: Lines<'t>) -> Result<Directive<'t>, Mistake> {
    match verb {
        "word" => Ok(Directive::Word(value)),
        "reads" => Ok(Directive::Reads(number_of(value)?)),
        "writes" => Ok(Directive::Writes(number_of(value)?)),
        "texts" => match value.split_once('~') {
            Some((front, back)) => Ok(Directive::Texts { front, back, lines }),
            None => Err(Mistake::Kind),
        },
        "long" => match value.split_once(' ') {
            Some((steps, bytes)) => Ok(Directive::Long(size_of(steps)?, size_of(bytes)?)),
            None => Err(Mistake::Number),
        },
        "faults" => Ok(Directive::Faults),
        _ => Err(Mistake::Kind),
    }
}

// The run of a script with streams that don't fail.
fn run_of(script: &[u8]) -> Run<'_> {
    Run {
        word: "run",
        script,
        reads: u64::MAX,
        writes: u64::MAX,
    }
}

// Prints what comes of readers that fail after so many calls.
fn print_reads<W: Write>(
    alloc: Global,
    script: &[u8],
    most: u64,
    output: &mut W,
) -> io::Result<()> {
    for reads in 0..most {
        print_number(output, "", reads)?;
        output.write_all(b" reads\n")?;
        let run = Run {
            reads,
            ..run_of(script)
        };
        run.print(alloc, output)?;
    }
    Ok(())
}

// Prints what comes of writers that fail after so many calls.
fn print_writes<W: Write>(
    alloc: Global,
    script: &[u8],
    most: u64,
    output: &mut W,
) -> io::Result<()> {
    for writes in 0..most {
        print_number(output, "", writes)?;
        output.write_all(b" writes\n")?;
        let run = Run {
            writes,
            ..run_of(script)
        };
        run.print(alloc, output)?;
    }
    Ok(())
}

// Whether a long script is one.
fn judged_long(alloc: Global, steps: usize, bytes: usize) -> Result<Judged, AllocError> {
    let script = long_script(alloc, steps, bytes)?;
    let mut judged = Judged::new();
    let answer = judged.judge(alloc, script.as_slice());
    drop(script);
    answer?;
    Ok(judged)
}

// Prints whether a long script is one.
fn print_long<W: Write>(
    alloc: Global,
    steps: usize,
    bytes: usize,
    output: &mut W,
) -> io::Result<()> {
    let judged = judged_long(alloc, steps, bytes)?;
    print_number(output, "", steps as u64)?;
    print_number(output, " steps, ", bytes as u64)?;
    output.write_all(b" bytes or more; ")?;
    judged.print(output)
}

// Prints the texts of the faults.
fn print_faults<W: Write>(output: &mut W) -> io::Result<()> {
    for fault in [
        Fault::BadArguments,
        Fault::BadScript,
        Fault::CannotRead,
        Fault::CannotWrite,
        Fault::NoMemory,
    ] {
        print_fault(fault, output)?;
    }
    Ok(())
}

// Prints what comes of a word.
fn print_word<W: Write>(
    alloc: Global,
    script: &[u8],
    word: &str,
    output: &mut W,
) -> io::Result<()> {
    output.write_all(b"word ")?;
    output.write_all(word.as_bytes())?;
    output.write_all(b"\n")?;
    let run = Run {
        word,
        ..run_of(script)
    };
    run.print(alloc, output)
}

impl Directive<'_> {
    /// Prints what comes of a script, or of the lines below.
    pub fn print<W: Write>(&self, alloc: Global, script: &[u8], output: &mut W) -> io::Result<()> {
        match self {
            Directive::Word(word) => print_word(alloc, script, word, output),
            Directive::Reads(most) => print_reads(alloc, script, *most, output),
            Directive::Writes(most) => print_writes(alloc, script, *most, output),
            Directive::Texts { front, back, lines } => {
                judged_lines(alloc, front.as_bytes(), lines.texts, back.as_bytes())?.print(output)
            }
            Directive::Long(steps, bytes) => print_long(alloc, *steps, *bytes, output),
            Directive::Faults => print_faults(output),
        }
    }
}
