//! Acknowledgements, for which room is made before they are known.

ghost use Rattle.std.specs.Prelude.{◌≡◌, ◌≤◌, length, vec_len, vec_capacity, OnOk};
ghost use Rattle.ibc_machine.specs.ics24.Values.{value_bytes, AckIs};

use ibc_ids::Bytes;
use ibc_merkle::{Steps, hash_value};
use std::alloc::{AllocError, Global};
use std::marker::Model;
use std::mem::replace;

/// The bytes of the longest acknowledgement.
const LONGEST: usize = 1_024;

/// Room for an acknowledgement twice, and for what stands at its path, for where no other memory is to be had. Contracts
/// see for how many bytes it is.
#[derive(Drop)]
pub struct AckRoom {
    reply: Vec<u8>,
    copy: Vec<u8>,
    value: Vec<u8>,
}

impl Model for AckRoom {
    ghost use Rattle.std.specs.Prelude.{◌≡◌, ℕ, min, vec_len, vec_capacity};

    ghost Value = { ℕ };

    ghost view = { λ room. min (min (vec_capacity room.reply) (vec_capacity room.copy)) (vec_capacity room.value) };

    ghost invariant = { λ room. (vec_len room.reply ≡ 0) × (vec_len room.copy ≡ 0) × (vec_len room.value ≡ 0) };
}

/// An acknowledgement twice, to be told and to be kept, and what stands at its path (ICS 4, "Packet
/// acknowledgement").
#[derive(Drop)]
pub struct AckCopies {
    pub reply: Bytes,
    pub copy: Bytes,
    pub value: Bytes,
}

impl AckRoom {
    /// Room for no byte.
    pub fn none(alloc: Global) -> AckRoom
        ensures { result ≡ 0 }
    {
        AckRoom {
            reply: Vec::new(alloc),
            copy: Vec::new(alloc),
            value: Vec::new(alloc),
        }
    }

    /// Makes room for the longest acknowledgement, where it is missing. Refused only where a growth is.
    pub fn reserve(&mut self) -> Result<(), AllocError>
        ensures { OnOk result (1024 ≤ self.new) }
    {
        self.reply.reserve(LONGEST)?;
        self.copy.reserve(LONGEST)?;
        self.value.reserve(LONGEST)
    }

    /// The copies of an acknowledgement for which there is room. They have memory of their own, of their length, and the
    /// room stays; only where such memory is refused, they are in the room, which is gone then.
    pub fn fill(&mut self, ack: &[u8]) -> AckCopies
        requires longest { 1024 ≤ self.old }
        requires length { length ack.now ≤ 1024 }
        ensures reply { result.reply ≡ ack.now }
        ensures copy { result.copy ≡ ack.now }
        ensures value { result.value ≡ value_bytes (AckIs ack.now) }
    {
        let hash = hash_value(ack, &mut Steps::new());
        AckCopies {
            reply: copied(&mut self.reply, ack),
            copy: copied(&mut self.copy, ack),
            value: copied(&mut self.value, &hash),
        }
    }
}

// A copy of bytes in memory of their own, or, where that is refused, in a vector that is empty and has room for them.
fn copied(room: &mut Vec<u8>, bytes: &[u8]) -> Bytes
    requires empty { vec_len room.old ≡ 0 }
    requires room { length bytes.now ≤ vec_capacity room.old }
    ensures bytes { result ≡ bytes.now }
    ensures empty { vec_len room.new ≡ 0 }
{
    let alloc = *room.allocator();
    match Bytes::copy_of(alloc, bytes) {
        Ok(copy) => copy,
        Err(_) => {
            let mut filled = replace(room, Vec::new(alloc));
            let _ = filled.extend_from_slice(bytes);
            Bytes::from_vec(filled)
        }
    }
}
