//! Four hashes at a time, beside the hash of each text.

use crate::texts::digest_four;
use crate::{InnerPair, hash_four_inner, hash_four_leaves, hash_four_values};
use ibc_merkle::{Steps, hash_inner, hash_leaf, hash_value};

// Bytes that look like chance.
fn made(seed: u32) -> [u8; 32] {
    let mut bytes = [0u8; 32];
    let mut x = seed;
    for i in 0..32 {
        x = x.wrapping_mul(1664525).wrapping_add(1013904223);
        bytes[i] = (x >> 24) as u8;
    }
    bytes
}

fn made_pair(seed: u32) -> InnerPair {
    InnerPair {
        left: made(seed),
        right: made(seed.wrapping_mul(2654435761)),
    }
}

// Four hashes, one by one.
fn one_by_one(pairs: &[InnerPair; 4], steps: &mut Steps) -> [[u8; 32]; 4] {
    [
        hash_inner(&pairs[0].left, &pairs[0].right, steps),
        hash_inner(&pairs[1].left, &pairs[1].right, steps),
        hash_inner(&pairs[2].left, &pairs[2].right, steps),
        hash_inner(&pairs[3].left, &pairs[3].right, steps),
    ]
}

#[test]
fn four_hashes_are_those_one_by_one(rt: HostRuntime) {
    let (mut together, mut single) = (Steps::new(), Steps::new());
    for seed in 0..500 {
        let pairs = [
            made_pair(4 * seed),
            made_pair(4 * seed + 1),
            made_pair(4 * seed + 2),
            made_pair(4 * seed + 3),
        ];
        let digests = hash_four_inner(&pairs, &mut together);
        assert!(rt; digests == one_by_one(&pairs, &mut single));
        assert!(rt; together.count() == single.count());
    }
    assert!(rt; together.count() == 2000);
}

// The digests of four texts of these lengths are those that each has by itself.
fn are_same(bytes: &[u8; 200], lengths: [usize; 4]) -> bool {
    let first = &bytes[..lengths[0].min(200)];
    let second = &bytes[1..lengths[1].clamp(1, 200)];
    let third = &bytes[2..lengths[2].clamp(2, 200)];
    let fourth = &bytes[3..lengths[3].clamp(3, 200)];
    let (mut together, mut single) = (Steps::new(), Steps::new());
    let digests = [
        hash_value(first, &mut single),
        hash_value(second, &mut single),
        hash_value(third, &mut single),
        hash_value(fourth, &mut single),
    ];
    digest_four(first, second, third, fourth) == digests
        && hash_four_values(first, second, third, fourth, &mut together) == digests
        && together.count() == single.count()
}

#[test]
fn texts_of_each_length_have_their_digests(rt: HostRuntime) {
    let mut bytes = [0u8; 200];
    for i in 0..200 {
        bytes[i] = (i * 7 % 251) as u8;
    }
    for length in 0..200 {
        assert!(rt; are_same(&bytes, [length, length + 1, length + 2, length + 3]));
        assert!(rt; are_same(&bytes, [length, 200, 100, 64]));
    }
}

// The hashes of four leaves with keys of these lengths are those that each has by itself.
fn are_leaves_same(bytes: &[u8; 200], lengths: [usize; 4]) -> bool {
    let values = [made(1), made(2), made(3), made(4)];
    let first = &bytes[..lengths[0].min(200)];
    let second = &bytes[..lengths[1].min(200)];
    let third = &bytes[..lengths[2].min(200)];
    let fourth = &bytes[..lengths[3].min(200)];
    let (mut together, mut single) = (Steps::new(), Steps::new());
    hash_four_leaves(first, second, third, fourth, &values, &mut together)
        == [
            hash_leaf(first, &values[0], &mut single),
            hash_leaf(second, &values[1], &mut single),
            hash_leaf(third, &values[2], &mut single),
            hash_leaf(fourth, &values[3], &mut single),
        ]
        && together.count() == single.count()
}

#[test]
fn leaves_with_keys_of_each_length_have_their_hashes(rt: HostRuntime) {
    let bytes = [7u8; 200];
    for length in 0..150 {
        assert!(rt; are_leaves_same(&bytes, [length, length + 1, 20, length]));
    }
}
