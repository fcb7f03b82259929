//! The words of a block of each of four texts (FIPS 180-4, section 5.2.1).

ghost use Rattle.std.specs.Prelude.{◌≡◌, ℕ, ◌+◌, ◌<◌, ◌≤◌, [], slice_index, slice_index_or};
ghost use Rattle.sha2.specs.Sha256.{word_at};
ghost use Rattle.ibc_lanes.specs.Lanes.{HasBlockWords};

use std::simd::u32x4;

#[inline(always)]
fn word_of<const N: usize>(text: &[u8; N], at: usize) -> u32
    requires { at + 4 ≤ N }
    ensures { result ≡ word_at text.now at }
{
    u32::from_be_bytes([text[at], text[at + 1], text[at + 2], text[at + 3]])
}

// The words at a place of each text.
#[inline(always)]
fn words_of<const N: usize>(texts: &[[u8; N]; 4], at: usize) -> u32x4
    requires { at + 4 ≤ N }
    ensures { (j : ℕ) → j < 4 → slice_index result j ≡ word_at (slice_index_or texts.now j []) at }
{
    u32x4::from_array([
        word_of(&texts[0], at),
        word_of(&texts[1], at),
        word_of(&texts[2], at),
        word_of(&texts[3], at),
    ])
}

// The words of the blocks of each text from a place on.
pub(crate) fn block_words<const N: usize>(texts: &[[u8; N]; 4], start: usize) -> [u32x4; 16]
    requires { start + 64 ≤ N }
    ensures { HasBlockWords texts.now start result }
{
    let mut words = [u32x4::splat(0); 16];
    'load: for i in 0..16 {
        words[i] = words_of(texts, start + 4 * i);
    }
    words
}
