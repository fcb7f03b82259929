//! What stands behind a message's tag.

ghost use Rattle.std.specs.Prelude.{◌∷◌, List};
ghost use Rattle.ibc_ids.specs.Texts.{Text};
ghost use Rattle.ibc_wire.specs.Fields.{Field, one_byte};
ghost use Rattle.ibc_wire.specs.Reading.{Front};
ghost use Rattle.ibc_wire.specs.Fronts.{Gives, Writes};

use ibc_ids::Refusal;
use ibc_wire::fields::write_u8;
use std::alloc::Global;

/// A kind of message, whose values are spelled as fields in their order.
pub trait Payload: Sized {
    ghost fields: { Self → List Field };

    ghost front: { Text → Front Self };

    /// The value at the front of the bytes, and what stands behind it.
    fn read(alloc: Global, bytes: &[u8]) -> Result<(Self, &[u8]), Refusal>
        ensures { Gives (λ x. (x.0, x.1.now)) result (front bytes.now) };

    /// Writes the value behind the bytes.
    fn write(&self, out: &mut Vec<u8>) -> Result<(), Refusal>
        ensures { Writes (fields self.now) out.old.items result out.new.items };
}

/// Writes a value behind a tag.
pub fn write_tagged<T: Payload>(out: &mut Vec<u8>, tag: u8, value: &T) -> Result<(), Refusal>
    ensures { Writes (one_byte tag ∷ T.fields value.now) out.old.items result out.new.items }
{
    write_u8(out, tag)?;
    value.write(out)
}
