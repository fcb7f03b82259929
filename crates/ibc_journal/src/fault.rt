//! Why a journal isn't read on.

ghost use Rattle.std.specs.Prelude.{◌≡◌};
ghost use Rattle.ibc_journal.specs.declared.fault.JournalFault.TheVariants.{Sqlite};

use std::fmt;

/// Why a journal isn't read on.
#[derive(Clone, Copy, Debug, PartialEq, Eq)]
pub enum JournalFault {
    /// The file can't be read. After this it has to be opened again.
    Sqlite(sqlite::Error),
    /// The entry at this place, counted from 0, isn't the one that was put there, and those before it are.
    Damaged(u32),
    /// There is no entry at this place, and there are some behind it.
    Gap(u32),
    /// There is an entry before place 0.
    Early,
    /// The first table has no row, or more than one.
    Beginnings,
    /// There is an entry at place 2^32 - 1, where no journal has one.
    Full,
}

impl From<sqlite::Error> for JournalFault {
    ghost from_gives = { λ error e. e ≡ Sqlite error };

    fn from(error: sqlite::Error) -> JournalFault {
        JournalFault::Sqlite(error)
    }
}

impl fmt::Display for JournalFault {
    fn fmt<W: fmt::Write>(&self, f: &mut fmt::Formatter<W>) -> fmt::Result {
        match self {
            JournalFault::Sqlite(error) => write!(f, "{error}"),
            JournalFault::Damaged(place) => write!(f, "the entry at place {place} is damaged"),
            JournalFault::Gap(place) => write!(
                f,
                "there is no entry at place {place}, and there are some behind it"
            ),
            JournalFault::Early => f.write_str("there is an entry before place 0"),
            JournalFault::Beginnings => f.write_str("the journal hasn't one beginning"),
            JournalFault::Full => f.write_str("the journal has more entries than one may have"),
        }
    }
}

impl std::error::Error for JournalFault {}
