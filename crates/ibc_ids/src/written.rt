//! Texts that are made with room for all of them.

ghost use Rattle.std.specs.Prelude.{◌≡◌, string_bytes, IfOk, IfSome};

use std::alloc::{AllocError, Global};
use std::fmt::Display;

/// The most decimal digits that a `u64` has.
pub const MOST_DIGITS: usize = 20;

/// What the value is written as, put into a text that is made with room for so many bytes: the one growth, where the value
/// is written in no more.
pub fn written<D: Display + Drop>(
    alloc: Global,
    room: usize,
    value: D,
) -> Result<String, AllocError>
    ensures { IfOk result (λ text. IfSome (D.output value) (λ bytes. string_bytes text ≡ bytes)) }
{
    let mut text = String::with_capacity(alloc, room)?;
    text.write(value)?;
    Ok(text)
}
