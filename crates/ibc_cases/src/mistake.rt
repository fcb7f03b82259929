//! What is wrong in files of cases.

use crate::counts::write_number;
use ibc_ids::Refusal;
use std::alloc::{AllocError, AllocFailed};
use std::{fmt, io};

/// What is wrong with a line.
#[derive(Clone, Copy)]
pub enum Mistake {
    /// A part is of no kind, or forges messages of no kind.
    Kind,
    /// What stands for a number is none, or is too large.
    Number,
    /// The message has no such field.
    Field,
    /// There is no such change of a field, or it can't be made of this message.
    Change,
    /// A line stands below a part that has none.
    Line,
    /// A part forges a message that was never sent.
    Unsent,
}

/// A line, by its number in the file from 1 on, with what is wrong.
#[derive(Clone, Copy)]
pub struct Wrong {
    pub line: usize,
    pub mistake: Mistake,
}

/// Why a forged message can't be made: a mistake of its line, or a refusal.
#[derive(Clone, Copy)]
pub enum Unmade {
    Mistake(Mistake),
    Refusal(Refusal),
}

/// Why the cases of a file weren't all run: a mistake, or streams that fail and want of memory.
#[derive(Drop)]
pub enum Stop {
    Wrong(Wrong),
    Io(io::Error),
}

impl Mistake {
    // What is said of it.
    fn text(self) -> &'static str {
        match self {
            Mistake::Kind => "unknown kind of part",
            Mistake::Number => "no number, or too large a one",
            Mistake::Field => "unknown field",
            Mistake::Change => "unknown change, or one that can't be made",
            Mistake::Line => "a line where none belongs",
            Mistake::Unsent => "the message was never sent",
        }
    }

    /// The mistake of a line by its number.
    pub fn at(self, line: usize) -> Wrong {
        Wrong {
            line,
            mistake: self,
        }
    }
}

impl Unmade {
    /// Why nothing is made by a text that is refused: want of memory stays that, and all else is its mistake.
    pub fn of_text(refusal: Refusal) -> Unmade {
        match refusal {
            Refusal::NoMemory => Unmade::Refusal(refusal),
            _ => Unmade::Mistake(Mistake::Change),
        }
    }
}

impl fmt::Display for Wrong {
    fn fmt<W: fmt::Write>(&self, f: &mut fmt::Formatter<W>) -> fmt::Result {
        write_number(f, "line ", self.line as u64)?;
        f.write_str(": ")?;
        f.write_str(self.mistake.text())
    }
}

impl fmt::Display for Stop {
    fn fmt<W: fmt::Write>(&self, f: &mut fmt::Formatter<W>) -> fmt::Result {
        match self {
            Stop::Wrong(wrong) => wrong.fmt(f),
            Stop::Io(error) => error.fmt(f),
        }
    }
}

impl From<Mistake> for Unmade {
    fn from(mistake: Mistake) -> Unmade {
        Unmade::Mistake(mistake)
    }
}

impl From<Refusal> for Unmade {
    fn from(refusal: Refusal) -> Unmade {
        Unmade::Refusal(refusal)
    }
}

impl From<AllocError> for Unmade {
    fn from(_error: AllocError) -> Unmade {
        Unmade::Refusal(Refusal::NoMemory)
    }
}

impl From<Wrong> for Stop {
    fn from(wrong: Wrong) -> Stop {
        Stop::Wrong(wrong)
    }
}

impl From<io::Error> for Stop {
    fn from(error: io::Error) -> Stop {
        Stop::Io(error)
    }
}

impl From<AllocError> for Stop {
    fn from(error: AllocError) -> Stop {
        Stop::Io(io::Error::from(error))
    }
}

impl<T: Drop> From<AllocFailed<T>> for Stop {
    fn from(error: AllocFailed<T>) -> Stop {
        Stop::Io(io::Error::from(AllocError::from(error)))
    }
}

/// The number that a text spells.
pub fn number_of(text: &str) -> Result<u64, Mistake> {
    match text.parse::<u64>() {
        Ok(number) => Ok(number),
        Err(_) => Err(Mistake::Number),
    }
}

/// The number that a text spells, of bytes, of steps or of a place.
pub fn size_of(text: &str) -> Result<usize, Mistake> {
    match text.parse::<usize>() {
        Ok(size) => Ok(size),
        Err(_) => Err(Mistake::Number),
    }
}

/// The byte that a text spells as a number.
pub fn byte_of(text: &str) -> Result<u8, Mistake> {
    match text.parse::<u8>() {
        Ok(byte) => Ok(byte),
        Err(_) => Err(Mistake::Number),
    }
}
