//! Encoding and decoding, for all types that have a spelling.

ghost use Rattle.std.specs.Prelude.{◌≡◌, ◌⊎◌, List, IsTrue, IfOk, IfErr, IsErrOf, IsOkUnless};
ghost use Rattle.ibc_ids.specs.Texts.{Text};
ghost use Rattle.ibc_wire.specs.Fields.{Field, Spells, HasOneValue, have_form};
ghost use Rattle.ibc_wire.specs.Reading.{Front};
ghost use Rattle.ibc_wire.specs.Fronts.{Gives, Writes, value_if_whole};
ghost use Rattle.ibc_wire.specs.Lawful.{IsReader};

mod header;
mod many;
mod packet;
mod proofs;
mod records;
mod tokens;

use ibc_ids::Refusal;
use std::alloc::Global;

/// Room for most values, so that writing one seldom grows.
const ROOM: usize = 512;

/// A type whose values are spelled as fields in their order.
pub trait Wire: Sized {
    ghost fields: { Self → List Field };

    ghost front: { Text → Front Self };

    /// The value at the front of the bytes, and what stands behind it.
    fn read(alloc: Global, bytes: &[u8]) -> Result<(Self, &[u8]), Refusal>
        ensures { Gives (λ x. (x.0, x.1.now)) result (front bytes.now) };

    /// Writes the value behind the bytes.
    fn write(&self, out: &mut Vec<u8>) -> Result<(), Refusal>
        ensures { Writes (fields self.now) out.old.items result out.new.items };

    /// A value is read just where it is spelled.
    fn lemma_reads_what_is_spelled()
        ensures { IsReader fields front };
}

/// The bytes that spell a value. Refused: `BadMessage` exactly for a value outside its form; `NoMemory`.
pub fn encode<T: Wire>(alloc: Global, value: &T) -> Result<Vec<u8>, Refusal>
    ensures ok { IfOk result (λ bytes. Spells (T.fields value.now) bytes.items) }
    ensures bad { IsErrOf result Refusal.BadMessage → ¬ IsTrue (have_form (T.fields value.now)) }
    ensures memory { IsTrue (have_form (T.fields value.now)) → IsOkUnless result Refusal.NoMemory }
    ensures errors { IfErr result (λ e. (e ≡ Refusal.BadMessage) ⊎ (e ≡ Refusal.NoMemory)) }
{
    let mut bytes = Vec::with_capacity(alloc, ROOM)?;
    value.write(&mut bytes)?;
    bytes.shrink_to_fit();
    Ok(bytes)
}

/// The value that the bytes spell, all of them. Refused: `BadMessage` exactly where they spell none; `NoMemory`.
pub fn decode<T: Wire + Drop>(alloc: Global, bytes: &[u8]) -> Result<T, Refusal>
    ensures ok { IfOk result (λ value. Spells (T.fields value) bytes.now) }
    ensures bad { IsErrOf result Refusal.BadMessage → (it : T) → ¬ Spells (T.fields it) bytes.now }
    ensures memory { (it : T) → Spells (T.fields it) bytes.now → IsOkUnless result Refusal.NoMemory }
    ensures errors { IfErr result (λ e. (e ≡ Refusal.BadMessage) ⊎ (e ≡ Refusal.NoMemory)) }
{
    T::lemma_reads_what_is_spelled();
    read_all(alloc, bytes)
}

/// The value at the front of the bytes, behind which nothing stands.
fn read_all<T: Wire + Drop>(alloc: Global, bytes: &[u8]) -> Result<T, Refusal>
    ensures { Gives (λ x. x) result (value_if_whole (T.front bytes.now)) }
{
    match T::read(alloc, bytes)? {
        (value, []) => Ok(value),
        (_, [_, ..]) => Err(Refusal::BadMessage),
    }
}

/// No text spells two values of a type.
pub fn lemma_a_text_spells_one_value<T: Wire>()
    ensures { HasOneValue T.fields }
{
    T::lemma_reads_what_is_spelled();
}
