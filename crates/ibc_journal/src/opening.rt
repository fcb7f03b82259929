//! The files of a journal are opened.

ghost use Rattle.std.specs.Prelude.{IfErr, IfOk, IsTrue};
ghost use Rattle.sqlite.specs.Opening.{is_open_error};
ghost use Rattle.sqlite.specs.WalFiles.{image_at};
ghost use Rattle.sqlite.specs.Files.{file_state};
ghost use Rattle.ibc_journal.specs.Reads.{OpensJournal};

use sqlite::{Connection, Error, FileFrom, FileStore, Start};

/// Opens the file at a path with its log, or makes both. `start` stands for what they hold. What they hold of a journal is what the
/// connection sees: so after a restart that is what was committed before.
pub fn open_journal<S: Start>(
    rt: &HostRuntime,
    path: &str,
    start: S,
) -> Result<Connection<FileStore<FileFrom<S>>>, Error>
    ensures found { IfOk result (OpensJournal file_state (image_at S.Start)) }
    ensures named { IfErr result (λ error. IsTrue (is_open_error error)) }
{
    match Connection::open_from(rt, path, false, start) {
        Ok(conn) => Ok(conn),
        Err((error, _)) => Err(error),
    }
}
