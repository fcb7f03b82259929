//! Which texts are scripts.

use ibc_script::{Fault, read_script};
use std::alloc::{AllocError, Global};
use std::io;
use std::io::Write;

/// How many texts are scripts, and how many are none.
#[derive(Clone, Copy)]
pub struct Judged {
    scripts: u32,
    others: u32,
}

impl Judged {
    /// No text was judged yet.
    pub fn new() -> Judged {
        Judged {
            scripts: 0,
            others: 0,
        }
    }

    /// Judges a text. Error: no memory.
    pub fn judge(&mut self, alloc: Global, text: &[u8]) -> Result<(), AllocError> {
        match read_script(alloc, text) {
            Ok(script) => {
                drop(script);
                self.scripts = self.scripts.saturating_add(1);
            }
            Err(Fault::NoMemory) => return Err(AllocError),
            Err(_) => self.others = self.others.saturating_add(1),
        }
        Ok(())
    }

    /// Prints how many texts are scripts, and how many are none.
    pub fn print<W: Write>(&self, output: &mut W) -> io::Result<()> {
        print_number(output, "scripts: ", u64::from(self.scripts))?;
        print_number(output, ", others: ", u64::from(self.others))?;
        output.write_all(b"\n")
    }
}

/// Prints a text, and a number behind it.
pub fn print_number<W: Write>(output: &mut W, before: &str, number: u64) -> io::Result<()> {
    write!(output, "{before}{number}")
}

// A text between two others.
fn between(alloc: Global, front: &[u8], text: &[u8], back: &[u8]) -> Result<Vec<u8>, AllocError> {
    let mut whole = front.to_vec(alloc)?;
    whole.extend_from_slice(text)?;
    whole.extend_from_slice(back)?;
    Ok(whole)
}

/// Judges each line between two texts, but for empty lines. Error: no memory.
pub fn judged_lines(
    alloc: Global,
    front: &[u8],
    lines: &[&[u8]],
    back: &[u8],
) -> Result<Judged, AllocError> {
    let mut judged = Judged::new();
    for line in lines {
        if !line.is_empty() {
            judge_between(alloc, &mut judged, front, line, back)?;
        }
    }
    Ok(judged)
}

// Judges a text between two others.
fn judge_between(
    alloc: Global,
    judged: &mut Judged,
    front: &[u8],
    text: &[u8],
    back: &[u8],
) -> Result<(), AllocError> {
    let whole = between(alloc, front, text, back)?;
    let answer = judged.judge(alloc, whole.as_slice());
    drop(whole);
    answer
}

/// A script of so many steps, with blanks up to so many bytes. Error: no memory.
pub fn long_script(alloc: Global, steps: usize, bytes: usize) -> Result<Vec<u8>, AllocError> {
    let mut script = Vec::new(alloc);
    push_script(&mut script, steps)?;
    push_blanks(&mut script, bytes)?;
    Ok(script)
}

// Adds a script of so many steps.
fn push_script(script: &mut Vec<u8>, steps: usize) -> Result<(), AllocError> {
    script.extend_from_slice(
        b"{\"capacity\":4,\"chains\":[{\"name\":\"a\",\"time\":7,\"balances\":[]}],\"steps\":[",
    )?;
    for _ in 1..steps {
        script.extend_from_slice(b"{\"do\":\"Block\",\"on\":\"a\"},")?;
    }
    script.extend_from_slice(b"{\"do\":\"Block\",\"on\":\"a\"}]}")
}

// Adds blanks, up to so many bytes.
fn push_blanks(script: &mut Vec<u8>, bytes: usize) -> Result<(), AllocError> {
    for _ in script.len()..bytes {
        script.push(b' ')?;
    }
    Ok(())
}
