//! The functions of SHA-256 on words, four at a time (FIPS 180-4, section 4.1.2).

ghost use Rattle.std.specs.Prelude.{◌≡◌, ℕ, ◌/◌, ◌^◌, ◌<◌, bit_xor, slice_index};
ghost use Rattle.std.specs.Int.{w32, rotate_right};
ghost use Rattle.sha2.specs.Sha256.{add32, big_sigma0, big_sigma1, ch, maj, small_sigma0, small_sigma1};
ghost use Rattle.ibc_lanes.specs.Lanes.{ActsInEachLane};

use std::simd::u32x4;

// The sums, with the carry out of a word dropped.
#[inline(always)]
pub(crate) fn sum(x: u32x4, y: u32x4) -> u32x4
    ensures { (j : ℕ) → j < 4 → slice_index result j ≡ add32 (slice_index x j) (slice_index y j) }
{
    x + y
}

#[inline(always)]
fn xored(x: u32x4, y: u32x4) -> u32x4
    ensures { (j : ℕ) → j < 4 → slice_index result j ≡ bit_xor (slice_index x j) (slice_index y j) }
{
    x ^ y
}

#[inline(always)]
fn shifted(x: u32x4, count: u32) -> u32x4
    requires { count < 32 }
    ensures { (j : ℕ) → j < 4 → slice_index result j ≡ slice_index x j / 2 ^ count }
{
    x >> u32x4::splat(count)
}

#[inline(always)]
fn rotated(x: u32x4, count: u32) -> u32x4
    requires low { 0 < count }
    requires high { count < 32 }
    ensures { (j : ℕ) → j < 4 → slice_index result j ≡ rotate_right w32 (slice_index x j) count }
{
    (x >> u32x4::splat(count)) | (x << u32x4::splat(32 - count))
}

#[inline(always)]
pub(crate) fn choices(x: u32x4, y: u32x4, z: u32x4) -> u32x4
    ensures { ActsInEachLane ch x y z result }
{
    (x & y) ^ (!x & z)
}

// The next round has this round's `x ^ y` as its `y ^ z`, so it is computed once.
#[inline(always)]
pub(crate) fn majorities(x: u32x4, y: u32x4, z: u32x4) -> u32x4
    ensures { ActsInEachLane maj x y z result }
{
    y ^ ((x ^ y) & (y ^ z))
}

// The standard's rotations in the four functions below go on from one another, which takes fewer copies of `x`.
#[inline(always)]
pub(crate) fn big_sigmas0(x: u32x4) -> u32x4
    ensures { (j : ℕ) → j < 4 → slice_index result j ≡ big_sigma0 (slice_index x j) }
{
    rotated(xored(x, rotated(xored(x, rotated(x, 9)), 11)), 2)
}

#[inline(always)]
pub(crate) fn big_sigmas1(x: u32x4) -> u32x4
    ensures { (j : ℕ) → j < 4 → slice_index result j ≡ big_sigma1 (slice_index x j) }
{
    rotated(xored(x, rotated(xored(x, rotated(x, 14)), 5)), 6)
}

#[inline(always)]
pub(crate) fn small_sigmas0(x: u32x4) -> u32x4
    ensures { (j : ℕ) → j < 4 → slice_index result j ≡ small_sigma0 (slice_index x j) }
{
    xored(rotated(xored(x, rotated(x, 11)), 7), shifted(x, 3))
}

#[inline(always)]
pub(crate) fn small_sigmas1(x: u32x4) -> u32x4
    ensures { (j : ℕ) → j < 4 → slice_index result j ≡ small_sigma1 (slice_index x j) }
{
    xored(rotated(xored(x, rotated(x, 2)), 17), shifted(x, 10))
}
