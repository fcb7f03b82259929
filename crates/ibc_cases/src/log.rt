//! What comes of a run, kept beside it.

use crate::counts::{Counts, write_number};
use crate::forgery::Group;
use crate::mistake::Wrong;
use ibc_ids::{Refusal, Root};
use std::alloc::{AllocError, Global};
use std::cell::{Cell, RefCell};
use std::io::Write;
use std::{fmt, io};

/// What came of a run so far: all lines, those of the script alone, the roots of the blocks, and how many groups of forgeries
/// were sent.
#[derive(Drop)]
struct RunLog {
    lines: Vec<u8>,
    own: Vec<u8>,
    roots: Vec<Root>,
    sent: usize,
}

/// What came of a run so far, for all who add to it, and the first line of the forgeries that has a mistake.
#[derive(Drop)]
pub struct Log {
    alloc: Global,
    kept: RefCell<RunLog>,
    wrong: Cell<Option<Wrong>>,
}

/// What came of a run beside one without forgeries.
#[derive(Clone, Copy)]
pub struct Beside {
    sent: usize,
    groups: usize,
    are_lines_same: bool,
    are_roots_same: bool,
    blocks: usize,
}

/// Writes the lines of a script into a log.
#[derive(Clone, Copy)]
pub struct LogWriter<'l> {
    pub log: &'l Log,
}

impl RunLog {
    // Adds a line of what was answered to a group of forgeries.
    fn note_forged(&mut self, line: &str) -> Result<(), AllocError> {
        self.lines.extend_from_slice(line.as_bytes())?;
        self.sent = self.sent.saturating_add(1);
        Ok(())
    }

    // Adds the root of a block.
    fn note_root(&mut self, root: Root) -> Result<(), AllocError> {
        Ok(self.roots.push(root)?)
    }

    // Adds bytes that the script wrote.
    fn write(&mut self, bytes: &[u8]) -> Result<(), AllocError> {
        self.lines.extend_from_slice(bytes)?;
        self.own.extend_from_slice(bytes)
    }

    // What came beside a run without forgeries, which another log keeps.
    fn beside(&self, spared: &Log, groups: usize) -> Option<Beside> {
        match spared.kept.try_borrow() {
            Ok(spared) => Some(Beside {
                sent: self.sent,
                groups,
                are_lines_same: self.own == spared.own,
                are_roots_same: self.roots == spared.roots,
                blocks: self.roots.len(),
            }),
            Err(_) => None,
        }
    }
}

impl Log {
    /// Nothing has come yet.
    pub fn new(alloc: Global) -> Log {
        let kept = RunLog {
            lines: Vec::new(alloc),
            own: Vec::new(alloc),
            roots: Vec::new(alloc),
            sent: 0,
        };
        Log {
            alloc,
            kept: RefCell::new(kept),
            wrong: Cell::new(None),
        }
    }

    /// Keeps a line with a mistake, if none is kept.
    pub fn note_wrong(&self, wrong: Wrong) {
        if self.wrong.get().is_none() {
            self.wrong.set(Some(wrong));
        }
    }

    /// The first line with a mistake, or else the first of these groups that wasn't sent; none where each line is right.
    pub fn wrong(&self, groups: &[Group<'_>]) -> Option<Wrong> {
        match self.wrong.get() {
            Some(wrong) => Some(wrong),
            None => Some(groups.get(self.sent())?.unsent()),
        }
    }

    /// How many groups of forgeries were sent.
    pub fn sent(&self) -> usize {
        match self.kept.try_borrow() {
            Ok(kept) => kept.sent,
            Err(_) => 0,
        }
    }

    /// Keeps what was answered to a group of forgeries. Refused: `NoMemory`.
    pub fn note_forged(&self, title: &str, counts: &Counts) -> Result<(), Refusal> {
        let line = format!(in self.alloc; "  {title}{counts}\n")?;
        let noted = match self.kept.try_borrow_mut() {
            Ok(mut kept) => kept.note_forged(line.as_str()),
            Err(_) => Ok(()),
        };
        drop(line);
        Ok(noted?)
    }

    /// Keeps the root of a block. Refused: `NoMemory`.
    pub fn note_root(&self, root: Root) -> Result<(), Refusal> {
        let noted = match self.kept.try_borrow_mut() {
            Ok(mut kept) => kept.note_root(root),
            Err(_) => Ok(()),
        };
        Ok(noted?)
    }

    /// Prints all lines.
    pub fn print<W: Write>(&self, output: &mut W) -> io::Result<()> {
        match self.kept.try_borrow() {
            Ok(kept) => output.write_all(kept.lines.as_slice()),
            Err(_) => Err(io::Error::from(io::ErrorKind::Other)),
        }
    }

    /// How many of so many groups were sent, and how the lines of the script and the roots are beside those of a run without
    /// forgeries.
    pub fn beside(&self, spared: &Log, groups: usize) -> Option<Beside> {
        match self.kept.try_borrow() {
            Ok(kept) => kept.beside(spared, groups),
            Err(_) => None,
        }
    }
}

fn compared(is_same: bool) -> &'static str {
    if is_same { "the same" } else { "other" }
}

impl fmt::Display for Beside {
    fn fmt<W: fmt::Write>(&self, f: &mut fmt::Formatter<W>) -> fmt::Result {
        write_number(f, "  ", self.sent as u64)?;
        write_number(f, " of ", self.groups as u64)?;
        f.write_str(" forgeries; without them ")?;
        f.write_str(compared(self.are_lines_same))?;
        f.write_str(" lines, and ")?;
        f.write_str(compared(self.are_roots_same))?;
        write_number(f, " roots of ", self.blocks as u64)?;
        f.write_str(" blocks")
    }
}

impl Write for LogWriter<'_> {
    fn write(&mut self, buf: &[u8]) -> io::Result<usize> {
        match self.log.kept.try_borrow_mut() {
            Ok(mut kept) => match kept.write(buf) {
                Ok(()) => Ok(buf.len()),
                Err(error) => Err(io::Error::from(error)),
            },
            Err(_) => Err(io::Error::from(io::ErrorKind::Other)),
        }
    }

    fn flush(&mut self) -> io::Result<()> {
        Ok(())
    }
}
