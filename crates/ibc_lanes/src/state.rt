//! The hash values of four texts, before the first block and behind the last.

ghost use Rattle.std.specs.Prelude.{◌≡◌, ℕ, ◌<◌};
ghost use Rattle.sha2.specs.Sha256.{digest_bytes, initial_hash_256};
ghost use Rattle.ibc_lanes.specs.Lanes.{lane, lane_digests};

use crate::constants::INITIAL_HASH;
use std::simd::u32x4;

// The hash value before the first block, in each lane.
pub(crate) fn initial_state() -> [u32x4; 8]
    ensures { (j : ℕ) → j < 4 → lane j result ≡ initial_hash_256 }
{
    [
        u32x4::splat(INITIAL_HASH[0]),
        u32x4::splat(INITIAL_HASH[1]),
        u32x4::splat(INITIAL_HASH[2]),
        u32x4::splat(INITIAL_HASH[3]),
        u32x4::splat(INITIAL_HASH[4]),
        u32x4::splat(INITIAL_HASH[5]),
        u32x4::splat(INITIAL_HASH[6]),
        u32x4::splat(INITIAL_HASH[7]),
    ]
}

// The hash value of a lane, as bytes.
fn lane_digest(state: &[u32x4; 8], j: usize) -> [u8; 32]
    requires { j < 4 }
    ensures { result ≡ digest_bytes (lane j state.now) 8 }
{
    let mut digest = [0u8; 32];
    'words: for i in 0..8 {
        let lanes = state[i].to_array();
        digest[4 * i..4 * i + 4].copy_from_slice(&lanes[j].to_be_bytes());
    }
    digest
}

// The hash values of all lanes, as bytes.
pub(crate) fn digests(state: &[u32x4; 8]) -> [[u8; 32]; 4]
    ensures { result ≡ lane_digests state.now }
{
    [
        lane_digest(state, 0),
        lane_digest(state, 1),
        lane_digest(state, 2),
        lane_digest(state, 3),
    ]
}
