//! The input and the output of the program.

ghost use Rattle.std.specs.Prelude.{◌≡◌, ◌≢◌, ◌⊎◌, ◌↔◌, ◌++◌, codes, IfOk, IfErr, IsOkUnless};
ghost use Rattle.std.specs.IoError.{error_kind};
ghost use Rattle.ibc_script_cli.specs.Program.{IsReadOf};
ghost use Rattle.ibc_script_cli.specs.Runs.{Emits};

use ibc_script::{Fault, MOST_BYTES};
use std::alloc::Global;
use std::io;
use std::io::{ErrorKind, Read, Write};

// The fault of a reader that fails.
fn read_fault(error: &io::Error) -> Fault
    ensures memory { result ≡ Fault.NoMemory ↔ (error_kind error.now ≡ ErrorKind.OutOfMemory) }
    ensures other { result ≡ Fault.CannotRead ↔ (error_kind error.now ≢ ErrorKind.OutOfMemory) }
{
    if error.kind() == ErrorKind::OutOfMemory {
        Fault::NoMemory
    } else {
        Fault::CannotRead
    }
}

/// The bytes of the input, at most one more than a script may have. Faults: `CannotRead` where the reader fails for
/// another cause than memory, `NoMemory`.
pub fn read_input<R: Read + Drop>(alloc: Global, input: R) -> Result<Vec<u8>, Fault>
    ensures bytes { IfOk result (IsReadOf (R.remaining input)) }
    ensures faults { IfErr result (λ fault. (fault ≡ Fault.CannotRead) ⊎ (fault ≡ Fault.NoMemory)) }
{
    let mut bytes = Vec::new(alloc);
    match input.take(MOST_BYTES as u64 + 1).read_to_end(&mut bytes) {
        Ok(_) => Ok(bytes),
        Err(error) => Err(read_fault(&error)),
    }
}

// Writes bytes. Fault: `CannotWrite`, also where the writer takes none; a beginning of the bytes is written then.
fn write_bytes<W: Write>(output: &mut W, bytes: &[u8]) -> Result<(), Fault>
    ensures written { Emits W.contents result output.old output.new bytes.now }
    ensures fault { IsOkUnless result Fault.CannotWrite }
{
    let mut rest = bytes;
    for _turn in 0..u64::MAX {
        if rest.is_empty() {
            return Ok(());
        }
        match output.write(rest) {
            Ok(0) => return Err(Fault::CannotWrite),
            Ok(taken) => rest = &rest[taken..],
            Err(error) if error.kind() == ErrorKind::Interrupted => {}
            Err(_) => return Err(Fault::CannotWrite),
        }
    }
    Err(Fault::CannotWrite)
}

/// Writes a line and a line feed. Fault: `CannotWrite`; a beginning of them is written then.
pub fn write_line<W: Write>(output: &mut W, line: &str) -> Result<(), Fault>
    ensures written { Emits W.contents result output.old output.new (line.now ++ codes "\n") }
    ensures fault { IsOkUnless result Fault.CannotWrite }
{
    write_bytes(output, line.as_bytes())?;
    write_bytes(output, b"\n")
}
