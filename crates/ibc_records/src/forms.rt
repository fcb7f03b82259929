//! The form of packets, and the proofs that come with them.

ghost use Rattle.std.specs.Prelude.{◌≡◌, ◌&&◌, ◌-◌, ◌^◌, ◌<◌, true, Some, is_some, IfOk};
ghost use Rattle.ibc_ids.specs.declared.refusal.Refusal.TheVariants.{BadMessage};
ghost use Rattle.ibc_wire.specs.Reading.{proof_of};
ghost use Rattle.ibc_machine.specs.chain.Checks.{require};
ghost use Rattle.ibc_machine.specs.ics04.Packets as plain;
ghost use Rattle.ibc_records.specs.WhyRefused.{FailsBy};

use crate::read_proof;
use ibc_ids::Refusal;
use ibc_merkle::Proof;
use ibc_wire::Packet;
use std::alloc::Global;

/// The most bytes that a payload or an acknowledgement has.
const MAX_SIZE: usize = 1_024;

/// Whether a text has 1 to 1,024 bytes, as payloads and acknowledgements have.
pub fn has_size(text: &[u8]) -> bool
    ensures { result ≡ plain.has_size text.now }
{
    1 <= text.len() && text.len() <= MAX_SIZE
}

/// Whether a packet has the form of packets: a sequence that is neither 0 nor 2^64 - 1, and a payload of 1 to 1,024
/// bytes.
pub fn has_form(packet: &Packet) -> bool
    ensures form { result ≡ plain.has_form packet.now }
    ensures last { result ≡ true → packet.now.sequence < 2 ^ 64 - 1 }
{
    packet.sequence != 0 && packet.sequence != u64::MAX && has_size(packet.payload.as_slice())
}

/// The proof that the bytes of a message spell, which has the form of its kind or not. Refused: `BadMessage` exactly
/// where it hasn't, or the bytes spell no proof; `NoMemory`.
pub fn proof_in_form(alloc: Global, has_form: bool, bytes: &[u8]) -> Result<Proof, Refusal>
    ensures form { IfOk result (λ _. has_form ≡ true) }
    ensures ok { IfOk result (λ proof. proof_of bytes.now ≡ Some proof) }
    ensures err { FailsBy (require (has_form && is_some (proof_of bytes.now)) BadMessage) result }
{
    if !has_form {
        return Err(Refusal::BadMessage);
    }
    read_proof(alloc, bytes)
}
