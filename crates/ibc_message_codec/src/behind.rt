//! How one field is read behind others, which go along with it: so nothing else is held where a reading ends early.

ghost use Rattle.std.specs.Prelude.{◌≡◌, IfOk};
ghost use Rattle.std.specs.Int.{w64};
ghost use Rattle.ibc_wire.specs.Reading.{str_at_front};
ghost use Rattle.ibc_wire.specs.Fronts.{Gives, number_at_front, amount_at_front, name_at_front};

use ibc_ids::{Bytes, Name, NameKind, Refusal};
use ibc_wire::Wire;
use ibc_wire::fields::{read_n8, read_n16, read_name, read_str};
use std::alloc::Global;

/// A whole number of 8 bytes behind what was read before.
pub fn n8_behind<A: Drop>(before: A, bytes: &[u8]) -> Result<((A, u64), &[u8]), Refusal>
    ensures field { Gives (λ x. (x.0.1, x.1.now)) result (number_at_front w64 bytes.now) }
    ensures kept { IfOk result (λ x. x.0.0 ≡ before) }
{
    let (number, rest) = read_n8(bytes)?;
    Ok(((before, number), rest))
}

/// An amount of 16 bytes behind what was read before.
pub fn n16_behind<A: Drop>(before: A, bytes: &[u8]) -> Result<((A, u128), &[u8]), Refusal>
    ensures field { Gives (λ x. (x.0.1, x.1.now)) result (amount_at_front bytes.now) }
    ensures kept { IfOk result (λ x. x.0.0 ≡ before) }
{
    let (amount, rest) = read_n16(bytes)?;
    Ok(((before, amount), rest))
}

/// A text behind what was read before.
pub fn str_behind<A: Drop>(
    alloc: Global,
    before: A,
    bytes: &[u8],
) -> Result<((A, Bytes), &[u8]), Refusal>
    ensures field { Gives (λ x. (x.0.1, x.1.now)) result (str_at_front 65535 bytes.now) }
    ensures kept { IfOk result (λ x. x.0.0 ≡ before) }
{
    let (text, rest) = read_str(alloc, bytes, u16::MAX)?;
    Ok(((before, text), rest))
}

/// A name behind what was read before.
pub fn name_behind<A: Drop, K: NameKind>(
    alloc: Global,
    before: A,
    bytes: &[u8],
) -> Result<((A, Name<K>), &[u8]), Refusal>
    ensures field { Gives (λ x. (x.0.1, x.1.now)) result (name_at_front K.form bytes.now) }
    ensures kept { IfOk result (λ x. x.0.0 ≡ before) }
{
    let (name, rest) = read_name(alloc, bytes)?;
    Ok(((before, name), rest))
}

/// A value of a spelled type behind what was read before.
pub fn value_behind<A: Drop, T: Wire>(
    alloc: Global,
    before: A,
    bytes: &[u8],
) -> Result<((A, T), &[u8]), Refusal>
    ensures field { Gives (λ x. (x.0.1, x.1.now)) result (T.front bytes.now) }
    ensures kept { IfOk result (λ x. x.0.0 ≡ before) }
{
    let (value, rest) = T::read(alloc, bytes)?;
    Ok(((before, value), rest))
}
