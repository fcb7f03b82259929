//! The fields of encodings: each is read at the front of bytes, and written behind bytes.

ghost use Rattle.std.specs.Prelude.{◌∷◌, []};
ghost use Rattle.std.specs.Int.{w64};
ghost use Rattle.ibc_wire.specs.Fields.{one_byte, be64, be128, name as a_name, root32, str_up_to, count_between};
ghost use Rattle.ibc_wire.specs.Spelling.{peer};
ghost use Rattle.ibc_wire.specs.Reading.{byte_at_front, bytes_at_front, str_at_front};
ghost use Rattle.ibc_wire.specs.Fronts.{Gives, Writes, number_at_front, amount_at_front, name_at_front, peer_at_front};

use ibc_ids::{Bytes, Name, NameKind, Refusal, Root};
use ibc_merkle::Affix;
use std::alloc::Global;

/// One byte, and what stands behind it.
pub fn read_u8(bytes: &[u8]) -> Result<(u8, &[u8]), Refusal>
    ensures { Gives (λ x. (x.0, x.1.now)) result (byte_at_front bytes.now) }
{
    match bytes {
        [] => Err(Refusal::BadMessage),
        [byte, rest @ ..] => Ok((*byte, rest)),
    }
}

/// Writes one byte.
pub fn write_u8(out: &mut Vec<u8>, byte: u8) -> Result<(), Refusal>
    ensures { Writes (one_byte byte ∷ []) out.old.items result out.new.items }
{
    out.push(byte)?;
    Ok(())
}

/// Writes in one byte how many things stand behind it: at least and at most so many.
pub fn write_count(out: &mut Vec<u8>, count: usize, least: u8, most: u8) -> Result<(), Refusal>
    ensures { Writes (count_between least most count ∷ []) out.old.items result out.new.items }
{
    if count < usize::from(least) || usize::from(most) < count {
        return Err(Refusal::BadMessage);
    }
    out.push(count as u8)?;
    Ok(())
}

/// So many bytes, and what stands behind them.
pub fn read_bytes(bytes: &[u8], count: usize) -> Result<(&[u8], &[u8]), Refusal>
    ensures { Gives (λ x. (x.0.now, x.1.now)) result (bytes_at_front count bytes.now) }
{
    if count <= bytes.len() {
        Ok(bytes.split_at(count))
    } else {
        Err(Refusal::BadMessage)
    }
}

/// A whole number of 8 bytes, and what stands behind it.
pub fn read_n8(bytes: &[u8]) -> Result<(u64, &[u8]), Refusal>
    ensures { Gives (λ x. (x.0, x.1.now)) result (number_at_front w64 bytes.now) }
{
    let (front, rest) = read_bytes(bytes, 8)?;
    let number = u64::from_be_bytes([
        front[0], front[1], front[2], front[3], front[4], front[5], front[6], front[7],
    ]);
    Ok((number, rest))
}

/// Writes a whole number in 8 bytes.
pub fn write_n8(out: &mut Vec<u8>, number: u64) -> Result<(), Refusal>
    ensures { Writes (be64 number ∷ []) out.old.items result out.new.items }
{
    out.extend_from_slice(&number.to_be_bytes())?;
    Ok(())
}

/// An amount of 16 bytes, and what stands behind it.
pub fn read_n16(bytes: &[u8]) -> Result<(u128, &[u8]), Refusal>
    ensures { Gives (λ x. (x.0, x.1.now)) result (amount_at_front bytes.now) }
{
    let (high, rest) = read_n8(bytes)?;
    let (low, rest) = read_n8(rest)?;
    Ok((u128::from(high) * (1 << 64) + u128::from(low), rest))
}

/// Writes an amount in 16 bytes.
pub fn write_n16(out: &mut Vec<u8>, amount: u128) -> Result<(), Refusal>
    ensures { Writes (be128 amount ∷ []) out.old.items result out.new.items }
{
    out.extend_from_slice(&amount.to_be_bytes())?;
    Ok(())
}

/// The bytes of a text of at most so many behind its length, and what stands behind them.
pub fn read_text(bytes: &[u8], limit: u16) -> Result<(&[u8], &[u8]), Refusal>
    ensures { Gives (λ x. (x.0.now, x.1.now)) result (str_at_front limit bytes.now) }
{
    let (size, rest) = read_bytes(bytes, 2)?;
    let size = u16::from_be_bytes([size[0], size[1]]);
    if size <= limit {
        read_bytes(rest, usize::from(size))
    } else {
        Err(Refusal::BadMessage)
    }
}

/// Writes a text of at most so many bytes behind its length.
pub fn write_text(out: &mut Vec<u8>, text: &[u8], limit: u16) -> Result<(), Refusal>
    ensures { Writes (str_up_to limit text.now ∷ []) out.old.items result out.new.items }
{
    if text.len() > usize::from(limit) {
        return Err(Refusal::BadMessage);
    }
    out.extend_from_slice(&(text.len() as u16).to_be_bytes())?;
    out.extend_from_slice(text)?;
    Ok(())
}

/// A copy of a text of at most so many bytes behind its length, and what stands behind it.
pub fn read_str(alloc: Global, bytes: &[u8], limit: u16) -> Result<(Bytes, &[u8]), Refusal>
    ensures { Gives (λ x. (x.0, x.1.now)) result (str_at_front limit bytes.now) }
{
    let (text, rest) = read_text(bytes, limit)?;
    Ok((Bytes::copy_of(alloc, text)?, rest))
}

/// Writes bytes, at most so many, behind their number.
pub fn write_str(out: &mut Vec<u8>, bytes: &Bytes, limit: u16) -> Result<(), Refusal>
    ensures { Writes (str_up_to limit bytes.now ∷ []) out.old.items result out.new.items }
{
    write_text(out, bytes.as_slice(), limit)
}

/// A copy of a prefix or a suffix of at most so many bytes behind its length, and what stands behind it. A copy of at
/// most 33 bytes takes no memory.
pub fn read_affix(alloc: Global, bytes: &[u8], limit: u16) -> Result<(Affix, &[u8]), Refusal>
    ensures { Gives (λ x. (x.0, x.1.now)) result (str_at_front limit bytes.now) }
{
    let (text, rest) = read_text(bytes, limit)?;
    Ok((Affix::copy_of(alloc, text)?, rest))
}

/// Writes a prefix or a suffix, at most so many bytes, behind its length.
pub fn write_affix(out: &mut Vec<u8>, affix: &Affix, limit: u16) -> Result<(), Refusal>
    ensures { Writes (str_up_to limit affix.now ∷ []) out.old.items result out.new.items }
{
    write_text(out, affix.as_slice(), limit)
}

/// A name behind its length, and what stands behind it.
pub fn read_name<K: NameKind>(alloc: Global, bytes: &[u8]) -> Result<(Name<K>, &[u8]), Refusal>
    ensures { Gives (λ x. (x.0, x.1.now)) result (name_at_front K.form bytes.now) }
{
    let (text, rest) = read_text(bytes, u16::MAX)?;
    match Name::from_bytes(alloc, text) {
        Ok(name) => Ok((name, rest)),
        Err(Refusal::NoMemory) => Err(Refusal::NoMemory),
        Err(_) => Err(Refusal::BadMessage),
    }
}

/// Writes a name behind its length.
pub fn write_name<K: NameKind>(out: &mut Vec<u8>, name: &Name<K>) -> Result<(), Refusal>
    ensures { Writes (a_name K.form name.now ∷ []) out.old.items result out.new.items }
{
    K::lemma_short_and_ascii();
    let text = name.as_str();
    out.extend_from_slice(&(text.len() as u16).to_be_bytes())?;
    out.extend_from_slice(text.as_bytes())?;
    Ok(())
}

/// A root of 32 bytes, and what stands behind it.
pub fn read_root(bytes: &[u8]) -> Result<(Root, &[u8]), Refusal>
    ensures { Gives (λ x. (x.0, x.1.now)) result (bytes_at_front 32 bytes.now) }
{
    let (root, rest) = read_bytes(bytes, 32)?;
    match <[u8; 32]>::try_from(root) {
        Ok(root) => Ok((Root::from_bytes(root), rest)),
        Err(_) => Err(Refusal::BadMessage),
    }
}

/// Writes the 32 bytes of a root.
pub fn write_root(out: &mut Vec<u8>, root: &Root) -> Result<(), Refusal>
    ensures { Writes (root32 root.now ∷ []) out.old.items result out.new.items }
{
    out.extend_from_slice(root.bytes())?;
    Ok(())
}

/// A peer's identifier, which is empty in the first state of a handshake and only there, and what stands behind it.
pub fn read_peer<K: NameKind>(
    alloc: Global,
    bytes: &[u8],
    is_init: bool,
) -> Result<(Option<Name<K>>, &[u8]), Refusal>
    ensures { Gives (λ x. (x.0, x.1.now)) result (peer_at_front K.form is_init bytes.now) }
{
    if is_init {
        let (_, rest) = read_text(bytes, 0)?;
        Ok((None, rest))
    } else {
        let (peer, rest) = read_name(alloc, bytes)?;
        Ok((Some(peer), rest))
    }
}

/// Writes a peer's identifier, or an empty text.
pub fn write_peer<K: NameKind>(
    out: &mut Vec<u8>,
    is_init: bool,
    id: &Option<Name<K>>,
) -> Result<(), Refusal>
    ensures { Writes (peer K.form is_init id.now ∷ []) out.old.items result out.new.items }
{
    match (is_init, id) {
        (true, None) => write_text(out, b"", u16::MAX),
        (false, Some(id)) => write_name(out, id),
        _ => Err(Refusal::BadMessage),
    }
}
