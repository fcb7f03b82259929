//! What calls have in common at handles.

ghost use Rattle.std.specs.Prelude.{◌≡◌, None};
ghost use Rattle.ibc_calls.specs.Handles.{WritesFound, IsMade, IsWritten, freed};

use crate::Refused;
use ibc_handle::{Handle, HandleValue};
use ibc_ids::{Bytes, Refusal};
use std::alloc::Global;

/// Puts a value into a handle that holds nothing. Refused: `Core(NoMemory)`, where a growth is refused.
pub(crate) fn put_new(alloc: Global, handle: &mut Handle, value: HandleValue) -> Result<(), Refused>
    requires { handle.old.value ≡ None }
    ensures { IsMade (λ made. made ≡ value) handle.new.value result }
{
    match handle.fill(alloc, value) {
        Ok(()) => Ok(()),
        Err(_) => Err(Refused::Core(Refusal::NoMemory)),
    }
}

/// Frees what a handle holds. Refused: `Empty`, where it holds nothing.
pub fn free(alloc: Global, handle: &mut Handle) -> Result<(), Refused>
    ensures left { handle.new.value ≡ None }
    ensures answer { result ≡ freed handle.old.value }
{
    if handle.free(alloc) {
        Ok(())
    } else {
        Err(Refused::Empty)
    }
}

// Writes bytes to the beginning of a place, and tells their number. Refused: `TooShort`; then only the number is told.
pub(crate) fn write_out(bytes: &[u8], out: &mut [u8], size: &mut usize) -> Result<(), Refused>
    ensures { IsWritten bytes.now out.old out.new size.new result }
{
    let count = bytes.len();
    *size = count;
    if out.len() < count {
        return Err(Refused::TooShort);
    }
    out[..count].copy_from_slice(bytes);
    Ok(())
}

/// Writes what was found to the beginning of a place, and tells its number of bytes. Refused: `TooShort`, and then only the
/// number is told; and as what was looked for, and then nothing is.
pub(crate) fn give(
    found: Result<Bytes, Refused>,
    out: &mut [u8],
    size: &mut usize,
) -> Result<(), Refused>
    ensures { WritesFound found out.old out.new size.old size.new result }
{
    match found {
        Ok(bytes) => write_out(bytes.as_slice(), out, size),
        Err(refused) => Err(refused),
    }
}
