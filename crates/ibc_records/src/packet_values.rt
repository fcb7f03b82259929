//! Paths and values of packets as they stand in the store.

ghost use Rattle.std.specs.Prelude.{◌≡◌, ◌++◌, IfOk, string_bytes, IsOkUnless};
ghost use Rattle.ibc_ids.specs.Paths.{channel_path as path_of_channel};
ghost use Rattle.ibc_ids.specs.declared.refusal.Refusal.TheVariants.{NoMemory};
ghost use Rattle.ibc_machine.specs.ics24.Values.{value_bytes, AckIs, CommitmentIs, NumberIs};

use crate::commitment::Commitment;
use ibc_ids::{Bytes, ChannelId, PortId, Refusal, channel_path};
use ibc_merkle::{Steps, hash_value};
use std::alloc::Global;

/// The bytes of what is committed of a packet (ICS 4, "Packet commitment"): the hash of its timeouts, each in 8 bytes, of
/// the revision 0 and of its payload's hash. `NoMemory` where a growth is refused.
pub fn commitment_value(alloc: Global, commitment: &Commitment) -> Result<Bytes, Refusal>
    ensures ok { IfOk result (λ bytes. bytes ≡ value_bytes (CommitmentIs commitment.now)) }
    ensures err { IsOkUnless result NoMemory }
{
    let mut steps = Steps::new();
    let payload = hash_value(commitment.payload.as_slice(), &mut steps);
    let mut text = Vec::with_capacity(alloc, 56)?;
    text.extend_from_slice(&commitment.timeout_time.to_be_bytes())?;
    text.extend_from_slice(&0_u64.to_be_bytes())?;
    text.extend_from_slice(&commitment.timeout_height.to_be_bytes())?;
    text.extend_from_slice(&payload)?;
    Ok(Bytes::copy_of(alloc, &hash_value(text.as_slice(), &mut steps))?)
}

/// The bytes of an acknowledgement (ICS 4, "Packet acknowledgement"): its hash. `NoMemory` where a growth is refused.
pub fn ack_value(alloc: Global, ack: &[u8]) -> Result<Bytes, Refusal>
    ensures ok { IfOk result (λ bytes. bytes ≡ value_bytes (AckIs ack.now)) }
    ensures err { IsOkUnless result NoMemory }
{
    Ok(Bytes::copy_of(alloc, &hash_value(ack, &mut Steps::new()))?)
}

/// The path of a counter of a channel, and the bytes of a sequence. `NoMemory` where a growth is refused.
pub fn channel_counter(
    alloc: Global,
    kind: &str,
    port: &PortId,
    id: &ChannelId,
    sequence: u64,
) -> Result<(String, Bytes), Refusal>
    ensures path { IfOk result (λ e. string_bytes e.0 ≡ kind.now ++ path_of_channel port.now id.now) }
    ensures number { IfOk result (λ entry. entry.1 ≡ value_bytes (NumberIs sequence)) }
    ensures err { IsOkUnless result NoMemory }
{
    let path = channel_path(alloc, kind, port, id)?;
    Ok((path, Bytes::copy_of(alloc, &sequence.to_be_bytes())?))
}
