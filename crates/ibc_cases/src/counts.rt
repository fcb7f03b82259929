//! How often each answer came.

use ibc_machine::Reply;
use std::fmt;

// One more than the greatest number of a refusal.
const NUMBERS: usize = 32;

/// How often messages were accepted, how often refused with each number, and how many couldn't be made. A count goes up to
/// 2^32 - 1, and stays there.
#[derive(Clone, Copy)]
pub struct Counts {
    accepted: u32,
    refused: [u32; NUMBERS],
    unmade: u32,
}

impl Counts {
    /// No answer yet.
    pub fn new() -> Counts {
        Counts {
            accepted: 0,
            refused: [0; NUMBERS],
            unmade: 0,
        }
    }

    /// Counts a reply.
    pub fn add(&mut self, reply: &Reply) {
        match reply {
            Reply::Ok(_) => self.accepted = self.accepted.saturating_add(1),
            Reply::No(refusal) => {
                if let Some(count) = self.refused.get_mut(usize::from(refusal.number())) {
                    *count = count.saturating_add(1);
                }
            }
        }
    }

    /// Counts a message that couldn't be made.
    pub fn add_unmade(&mut self) {
        self.unmade = self.unmade.saturating_add(1);
    }

    // Writes how often each refusal came, of those that came.
    fn write_refused<W: fmt::Write>(&self, f: &mut fmt::Formatter<W>) -> fmt::Result {
        for (number, count) in self.refused.iter().enumerate() {
            if *count > 0 {
                write_number(f, "; no ", number as u64)?;
                write_number(f, ": ", u64::from(*count))?;
            }
        }
        Ok(())
    }
}

/// Writes a text, and a number behind it. Texts of several parts are put together of these: each part of a `write!` is dear to
/// prove.
pub fn write_number<W: fmt::Write>(
    f: &mut fmt::Formatter<W>,
    before: &str,
    number: u64,
) -> fmt::Result {
    f.write_str(before)?;
    fmt::Display::fmt(&number, f)
}

// Writes how often this came, if it did.
fn write_count<W: fmt::Write>(f: &mut fmt::Formatter<W>, before: &str, count: u32) -> fmt::Result {
    if count == 0 {
        return Ok(());
    }
    write_number(f, before, u64::from(count))
}

impl fmt::Display for Counts {
    fn fmt<W: fmt::Write>(&self, f: &mut fmt::Formatter<W>) -> fmt::Result {
        write_count(f, "; ok: ", self.accepted)?;
        self.write_refused(f)?;
        write_count(f, "; no message: ", self.unmade)
    }
}
