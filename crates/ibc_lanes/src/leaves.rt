//! The hashes of four leaves (ICS 23, "LeafOp").

ghost use Rattle.std.specs.Prelude.{◌≡◌, ◌+◌, ◌<◌, [], ◌∷◌, length, take};
ghost use Rattle.ibc_merkle.specs.Hash.{hash};
ghost use Rattle.ibc_lanes.specs.Inner.{four_more};
ghost use Rattle.ibc_lanes.specs.Leaves.{text_of_leaf, AreLeafHashes};

use crate::count::count_four;
use crate::texts::digest_four;
use ibc_merkle::{Steps, hash_leaf};

// A key of fewer bytes has its length in one byte.
const LONG: usize = 128;

/// The hashes of the values of four leaves. Four texts are hashed, and counted.
pub fn hash_four_values(
    first: &[u8],
    second: &[u8],
    third: &[u8],
    fourth: &[u8],
    steps: &mut Steps,
) -> [[u8; 32]; 4]
    ensures digests { result ≡ hash first.now ∷ hash second.now ∷ hash third.now ∷ hash fourth.now ∷ [] }
    ensures steps { steps.new ≡ four_more steps.old }
{
    count_four(steps);
    digest_four(first, second, third, fourth)
}

/// The hashes of four leaves, of their keys and their values' hashes: together where no key has 128 bytes or more. Four texts
/// are hashed, and counted.
pub fn hash_four_leaves(
    first: &[u8],
    second: &[u8],
    third: &[u8],
    fourth: &[u8],
    values: &[[u8; 32]; 4],
    steps: &mut Steps,
) -> [[u8; 32]; 4]
    ensures digests { AreLeafHashes first.now second.now third.now fourth.now values.now result }
    ensures steps { steps.new ≡ four_more steps.old }
{
    if first.len() >= LONG || second.len() >= LONG || third.len() >= LONG || fourth.len() >= LONG {
        return [
            hash_leaf(first, &values[0], steps),
            hash_leaf(second, &values[1], steps),
            hash_leaf(third, &values[2], steps),
            hash_leaf(fourth, &values[3], steps),
        ];
    }
    count_four(steps);
    digest_short_leaves(first, second, third, fourth, values)
}

// The hashes of four leaves with short keys, which the caller counts.
fn digest_short_leaves(
    first: &[u8],
    second: &[u8],
    third: &[u8],
    fourth: &[u8],
    values: &[[u8; 32]; 4],
) -> [[u8; 32]; 4]
    requires first { length first.now < 128 }
    requires second { length second.now < 128 }
    requires third { length third.now < 128 }
    requires fourth { length fourth.now < 128 }
    ensures { AreLeafHashes first.now second.now third.now fourth.now values.now result }
{
    let texts = [
        short_leaf(first, &values[0]),
        short_leaf(second, &values[1]),
        short_leaf(third, &values[2]),
        short_leaf(fourth, &values[3]),
    ];
    digest_four(
        &texts[0][..first.len() + 35],
        &texts[1][..second.len() + 35],
        &texts[2][..third.len() + 35],
        &texts[3][..fourth.len() + 35],
    )
}

// The text of a leaf with a short key, and zeros behind it.
fn short_leaf(key: &[u8], value: &[u8; 32]) -> [u8; 192]
    requires { length key.now < 128 }
    ensures { take (length key.now + 35) result ≡ text_of_leaf key.now value.now }
{
    let behind = key.len() + 2;
    let mut text = [0u8; 192];
    text[1] = key.len() as u8;
    text[2..behind].copy_from_slice(key);
    text[behind] = 0x20;
    text[behind + 1..behind + 33].copy_from_slice(value);
    text
}
