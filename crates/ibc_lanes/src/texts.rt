//! The digests of four texts.

ghost use Rattle.std.specs.Prelude.{◌≡◌, ◌<◌, [], ◌∷◌};
ghost use Rattle.sha2.specs.Sha256.{final_hash, initial_hash_256};
ghost use Rattle.ibc_merkle.specs.Hash.{hash};
ghost use Rattle.ibc_lanes.specs.Lanes.{lane};
ghost use Rattle.ibc_lanes.specs.Texts.{IsEnd, block_at, block_count};

use crate::block::compress_each;
use crate::load::block_words;
use crate::state::{digests, initial_state};
use sha2::{Digest, Sha256};
use std::simd::u32x4;

// The digests of four texts, which the caller counts: together where they fill the same number of blocks with their padding,
// and else one by one.
pub(crate) fn digest_four(first: &[u8], second: &[u8], third: &[u8], fourth: &[u8]) -> [[u8; 32]; 4]
    ensures { result ≡ hash first.now ∷ hash second.now ∷ hash third.now ∷ hash fourth.now ∷ [] }
{
    let count = count_blocks(first);
    if count_blocks(second) != count
        || count_blocks(third) != count
        || count_blocks(fourth) != count
    {
        return one_by_one(first, second, third, fourth);
    }
    let state = hash_each(first, second, third, fourth, count);
    digests(&state)
}

// The digests of four texts, one by one.
fn one_by_one(first: &[u8], second: &[u8], third: &[u8], fourth: &[u8]) -> [[u8; 32]; 4]
    ensures { result ≡ hash first.now ∷ hash second.now ∷ hash third.now ∷ hash fourth.now ∷ [] }
{
    [
        Sha256::digest(first),
        Sha256::digest(second),
        Sha256::digest(third),
        Sha256::digest(fourth),
    ]
}

// How many blocks a text fills with its padding.
fn count_blocks(text: &[u8]) -> usize
    ensures { result ≡ block_count text.now }
{
    (text.len() + 72) / 64
}

// What stands behind the last whole block of a text, and the padding: one block or two.
fn padded_end(text: &[u8]) -> [u8; 128]
    ensures { IsEnd text.now result }
{
    let used = text.len() % 64;
    let size = 64 * ((used + 72) / 64);
    let mut end = [0u8; 128];
    end[..used].copy_from_slice(&text[text.len() - used..]);
    end[used] = 0x80;
    end[size - 8..size].copy_from_slice(&(text.len() as u64).wrapping_mul(8).to_be_bytes());
    end
}

// A block of a text and its padding.
fn block_of(text: &[u8], end: &[u8; 128], index: usize) -> [u8; 64]
    requires end { IsEnd text.now end.now }
    requires index { index < block_count text.now }
    ensures { result ≡ block_at text.now index }
{
    let mut block = [0u8; 64];
    let whole = text.len() / 64;
    if index < whole {
        let start = 64 * index;
        block.copy_from_slice(&text[start..start + 64]);
    } else {
        let start = 64 * (index - whole);
        block.copy_from_slice(&end[start..start + 64]);
    }
    block
}

// The hash values of four texts of so many blocks.
fn hash_each(first: &[u8], second: &[u8], third: &[u8], fourth: &[u8], count: usize) -> [u32x4; 8]
    requires first { count ≡ block_count first.now }
    requires second { count ≡ block_count second.now }
    requires third { count ≡ block_count third.now }
    requires fourth { count ≡ block_count fourth.now }
    ensures first { lane 0 result ≡ final_hash initial_hash_256 first.now }
    ensures second { lane 1 result ≡ final_hash initial_hash_256 second.now }
    ensures third { lane 2 result ≡ final_hash initial_hash_256 third.now }
    ensures fourth { lane 3 result ≡ final_hash initial_hash_256 fourth.now }
{
    let first_end = padded_end(first);
    let second_end = padded_end(second);
    let third_end = padded_end(third);
    let fourth_end = padded_end(fourth);
    let mut state = initial_state();
    'absorb: for i in 0..count {
        let blocks = [
            block_of(first, &first_end, i),
            block_of(second, &second_end, i),
            block_of(third, &third_end, i),
            block_of(fourth, &fourth_end, i),
        ];
        let next = compress_each(state, block_words(&blocks, 0));
        state = next;
    }
    state
}
