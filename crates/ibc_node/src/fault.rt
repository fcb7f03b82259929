//! Why a node ends before its input does.

ghost use Rattle.std.specs.Prelude.{◌≡◌, ◌≢◌, ◌↔◌};
ghost use Rattle.std.specs.IoError.{error_kind};
ghost use Rattle.ibc_journal.specs.declared.fault.JournalFault.TheVariants.{Sqlite};
ghost use Rattle.ibc_node.specs.declared.fault.NodeFault.TheVariants.{Journal, NoMemory};
ghost use Rattle.ibc_node.specs.Faults.{fault_of_refusal};

use ibc_ids::Refusal;
use ibc_journal::JournalFault;
use std::alloc::{AllocError, AllocFailed};
use std::io::ErrorKind;
use std::{fmt, io};

/// Why a node ends before its input does. What was answered is in its journal.
#[derive(Clone, Copy, Debug, PartialEq, Eq)]
pub enum NodeFault {
    /// The journal can't be read or written.
    Journal(JournalFault),
    /// There is no file of a journal.
    NoFile,
    /// The file is new, and no genesis is given.
    NoGenesis,
    /// The file of the genesis can't be read.
    NoGenesisFile,
    /// The genesis is no object of a script with no steps, or no world begins so.
    BadGenesis,
    /// The journal began with another genesis than the one that is given.
    OtherGenesis,
    /// The journal has a format with this number.
    OtherFormat(i64),
    /// The file has other tables than a journal.
    NoJournal,
    /// The entry at this place spells no event and answer.
    NoEntry(u32),
    /// At this place another answer is due than the one that is kept.
    OtherAnswer(usize),
    /// The input can't be read.
    CannotRead,
    /// The output can't be written.
    CannotWrite,
    /// Nobody reads the output.
    Unheard,
    /// A growth was refused.
    NoMemory,
}

impl NodeFault {
    /// The fault of a refusal where only want of memory stops the node.
    pub fn of_refusal(refusal: Refusal, otherwise: NodeFault) -> NodeFault
        ensures { result ≡ fault_of_refusal refusal otherwise }
    {
        match refusal {
            Refusal::NoMemory => NodeFault::NoMemory,
            _ => otherwise,
        }
    }

    /// The fault of a file of the genesis that can't be read.
    pub fn of_genesis_file(error: &io::Error) -> NodeFault
        ensures memory { result ≡ NodeFault.NoMemory ↔ (error_kind error.now ≡ ErrorKind.OutOfMemory) }
        ensures other { result ≡ NodeFault.NoGenesisFile ↔ (error_kind error.now ≢ ErrorKind.OutOfMemory) }
    {
        if error.kind() == ErrorKind::OutOfMemory {
            NodeFault::NoMemory
        } else {
            NodeFault::NoGenesisFile
        }
    }

    /// The fault of a file of entries that can't be opened.
    pub fn of_entry_file(error: &io::Error) -> NodeFault
        ensures missing { error_kind error.now ≡ ErrorKind.NotFound → result ≡ NodeFault.NoFile }
        ensures memory { error_kind error.now ≡ ErrorKind.OutOfMemory → result ≡ NodeFault.NoMemory }
        ensures other { error_kind error.now ≢ ErrorKind.NotFound → error_kind error.now ≢ ErrorKind.OutOfMemory → result ≡ NodeFault.CannotRead }
    {
        if error.kind() == ErrorKind::NotFound {
            NodeFault::NoFile
        } else {
            NodeFault::of_input(error)
        }
    }

    /// The fault of an output that fails.
    pub fn of_output(error: &io::Error) -> NodeFault
        ensures unheard { result ≡ NodeFault.Unheard ↔ (error_kind error.now ≡ ErrorKind.BrokenPipe) }
        ensures other { result ≡ NodeFault.CannotWrite ↔ (error_kind error.now ≢ ErrorKind.BrokenPipe) }
    {
        if error.kind() == ErrorKind::BrokenPipe {
            NodeFault::Unheard
        } else {
            NodeFault::CannotWrite
        }
    }

    /// The fault of an input that fails.
    pub fn of_input(error: &io::Error) -> NodeFault
        ensures memory { result ≡ NodeFault.NoMemory ↔ (error_kind error.now ≡ ErrorKind.OutOfMemory) }
        ensures other { result ≡ NodeFault.CannotRead ↔ (error_kind error.now ≢ ErrorKind.OutOfMemory) }
    {
        if error.kind() == ErrorKind::OutOfMemory {
            NodeFault::NoMemory
        } else {
            NodeFault::CannotRead
        }
    }
}

impl From<JournalFault> for NodeFault {
    ghost from_gives = { λ fault e. e ≡ Journal fault };

    fn from(fault: JournalFault) -> NodeFault {
        NodeFault::Journal(fault)
    }
}

impl From<sqlite::Error> for NodeFault {
    ghost from_gives = { λ error e. e ≡ Journal (Sqlite error) };

    fn from(error: sqlite::Error) -> NodeFault {
        NodeFault::Journal(JournalFault::Sqlite(error))
    }
}

impl From<AllocError> for NodeFault {
    ghost from_gives = { λ _ e. e ≡ NoMemory };

    fn from(_error: AllocError) -> NodeFault {
        NodeFault::NoMemory
    }
}

impl<T: Drop> From<AllocFailed<T>> for NodeFault {
    ghost from_gives = { λ _ e. e ≡ NoMemory };

    fn from(_error: AllocFailed<T>) -> NodeFault {
        NodeFault::NoMemory
    }
}

impl fmt::Display for NodeFault {
    fn fmt<W: fmt::Write>(&self, f: &mut fmt::Formatter<W>) -> fmt::Result {
        match self {
            NodeFault::Journal(fault) => write!(f, "{fault}"),
            NodeFault::OtherFormat(format) => write!(f, "the journal is of format {format}"),
            NodeFault::NoEntry(place) => write!(f, "no entry stands at place {place}"),
            NodeFault::OtherAnswer(place) => write!(f, "another answer is due at place {place}"),
            other => f.write_str(other.text()),
        }
    }
}

impl NodeFault {
    // The text of a fault that names no place.
    fn text(&self) -> &'static str {
        match self {
            NodeFault::NoFile => "there is no such file",
            NodeFault::NoGenesis => "the file is new: give --genesis",
            NodeFault::NoGenesisFile => "the file of the genesis can't be read",
            NodeFault::BadGenesis => "no world begins with the genesis",
            NodeFault::OtherGenesis => "the journal began with another genesis",
            NodeFault::NoJournal => "the file is no journal",
            NodeFault::CannotRead => "cannot read",
            NodeFault::CannotWrite | NodeFault::Unheard => "cannot write",
            _ => "no memory",
        }
    }
}

impl std::error::Error for NodeFault {}
