//! What is committed of a packet.

ghost use Rattle.std.specs.Prelude.{◌≡◌};

use ibc_ids::Bytes;
use std::alloc::AllocError;
use std::marker::Model;

/// What is committed of a packet that was sent (ICS 4, "Packet commitment"): its payload and its two timeouts, a height
/// and a time of the receiving chain, each 0 where there is none.
#[derive(Drop, Debug)]
pub struct Commitment {
    pub payload: Bytes,
    pub timeout_height: u64,
    pub timeout_time: u64,
}

impl Model for Commitment {
    ghost use Rattle.ibc_machine.specs.chain.Records.{Commitment as PlainCommitment};

    ghost Value = { PlainCommitment };

    ghost view = { λ commitment. record {
      payload = commitment.payload;
      timeout_height = commitment.timeout_height;
      timeout_time = commitment.timeout_time;
    } };
}

impl Clone for Commitment {
    ghost is_clone = { λ commitment copy. copy ≡ commitment };

    fn clone(&self) -> Result<Commitment, AllocError> {
        Ok(Commitment {
            payload: self.payload.clone()?,
            timeout_height: self.timeout_height,
            timeout_time: self.timeout_time,
        })
    }
}
