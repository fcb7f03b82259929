//! Values in a row.

ghost use Rattle.std.specs.List.{flat_map};
ghost use Rattle.std.specs.Prelude.{◌∷◌};
ghost use Rattle.ibc_wire.specs.Fields.{one_byte};
ghost use Rattle.ibc_wire.specs.Fronts.{Gives, Writes, many_at_front};

use crate::Wire;
use crate::fields::write_u8;
use ibc_ids::Refusal;
use std::alloc::Global;

/// So many values, and what stands behind them. Room for all of them is made first, but for no more than there are bytes.
pub fn read_many<T: Wire + Drop>(
    alloc: Global,
    bytes: &[u8],
    count: u8,
) -> Result<(Vec<T>, &[u8]), Refusal>
    ensures { Gives (λ x. (x.0.items, x.1.now)) result (many_at_front T.front count bytes.now) }
{
    let mut values = Vec::with_capacity(alloc, usize::from(count).min(bytes.len()))?;
    let mut rest = bytes;
    for _ in 0..count {
        let (value, behind) = T::read(alloc, rest)?;
        values.push(value)?;
        rest = behind;
    }
    Ok((values, rest))
}

/// Writes the values in a row.
pub fn write_many<T: Wire>(out: &mut Vec<u8>, values: &[T]) -> Result<(), Refusal>
    ensures { Writes (flat_map T.fields values.now) out.old.items result out.new.items }
{
    for value in values {
        value.write(out)?;
    }
    Ok(())
}

/// Writes a value behind a tag.
pub fn write_tagged<T: Wire>(out: &mut Vec<u8>, tag: u8, value: &T) -> Result<(), Refusal>
    ensures { Writes (one_byte tag ∷ T.fields value.now) out.old.items result out.new.items }
{
    write_u8(out, tag)?;
    value.write(out)
}
