//! Parts that messages have in common, or that stand behind a packet: each is written in one call, with one place
//! where writing the message may end early.

ghost use Rattle.std.specs.Prelude.{◌∷◌, []};
ghost use Rattle.ibc_wire.specs.Fields.{be64, str};
ghost use Rattle.ibc_wire.specs.Fronts.{Writes};
ghost use Rattle.ibc_message_codec.specs.WrittenParts.{WritesProofs, WritesDelivery};

use ibc_ids::{Bytes, Memo, Receiver, Refusal};
use ibc_wire::fields::{write_n8, write_name, write_str};

/// Writes a height of the peer, and what proves a record of it.
pub fn write_proof(out: &mut Vec<u8>, height: u64, proof: &Bytes) -> Result<(), Refusal>
    ensures { Writes (be64 height ∷ str proof.now ∷ []) out.old.items result out.new.items }
{
    write_n8(out, height)?;
    write_str(out, proof, u16::MAX)
}

/// Writes a height of the peer, and what proves two records of it.
pub fn write_proofs(
    out: &mut Vec<u8>,
    height: u64,
    first: &Bytes,
    second: &Bytes,
) -> Result<(), Refusal>
    ensures { WritesProofs height first.now second.now out.old result out.new }
{
    write_proof(out, height, first)?;
    write_str(out, second, u16::MAX)
}

/// Writes for whom tokens are, and when they are late.
pub fn write_delivery(
    out: &mut Vec<u8>,
    receiver: &Receiver,
    memo: &Memo,
    timeout_height: u64,
    timeout_time: u64,
) -> Result<(), Refusal>
    ensures { WritesDelivery receiver.now memo.now timeout_height timeout_time out.old result out.new }
{
    write_name(out, receiver)?;
    write_name(out, memo)?;
    write_n8(out, timeout_height)?;
    write_n8(out, timeout_time)
}
