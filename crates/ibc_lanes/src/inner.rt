//! The hashes of four inner nodes.

ghost use Rattle.std.specs.Prelude.{◌≡◌, map};
ghost use Rattle.sha2.specs.Sha256.{padded_message};
ghost use Rattle.ibc_merkle.specs.Hash.{inner_text};
ghost use Rattle.ibc_lanes.specs.Inner.{four_more, pair_hash};

use crate::block::compress_each;
use crate::count::count_four;
use crate::load::block_words;
use crate::state::{digests, initial_state};
use ibc_merkle::Steps;

/// The digests of the children of an inner node.
#[derive(Clone, Copy)]
pub struct InnerPair {
    /// The left child's.
    pub left: [u8; 32],
    /// The right child's.
    pub right: [u8; 32],
}

/// The hashes of four inner nodes, of their children's hashes. Four texts are hashed, and counted.
pub fn hash_four_inner(pairs: &[InnerPair; 4], steps: &mut Steps) -> [[u8; 32]; 4]
    ensures digests { result ≡ map pair_hash pairs.now }
    ensures steps { steps.new ≡ four_more steps.old }
{
    count_four(steps);
    digest_four_inner(pairs)
}

// The hashes of four inner nodes, which the caller counts.
pub(crate) fn digest_four_inner(pairs: &[InnerPair; 4]) -> [[u8; 32]; 4]
    ensures { result ≡ map pair_hash pairs.now }
{
    let texts = [
        padded(&pairs[0]),
        padded(&pairs[1]),
        padded(&pairs[2]),
        padded(&pairs[3]),
    ];
    let first = compress_each(initial_state(), block_words(&texts, 0));
    let second = compress_each(first, block_words(&texts, 64));
    digests(&second)
}

// The text of an inner node and its padding, with zeros for the digests: two blocks. The length is 520 bits.
const FRAME: [u8; 128] = [
    1, 0, 0, 0, 0, 0, 0, 0, 0, 0, 0, 0, 0, 0, 0, 0, 0, 0, 0, 0, 0, 0, 0, 0, 0, 0, 0, 0, 0, 0, 0, 0,
    0, 0, 0, 0, 0, 0, 0, 0, 0, 0, 0, 0, 0, 0, 0, 0, 0, 0, 0, 0, 0, 0, 0, 0, 0, 0, 0, 0, 0, 0, 0, 0,
    0, 0x80, 0, 0, 0, 0, 0, 0, 0, 0, 0, 0, 0, 0, 0, 0, 0, 0, 0, 0, 0, 0, 0, 0, 0, 0, 0, 0, 0, 0, 0,
    0, 0, 0, 0, 0, 0, 0, 0, 0, 0, 0, 0, 0, 0, 0, 0, 0, 0, 0, 0, 0, 0, 0, 0, 0, 0, 0, 0, 0, 0, 0, 2,
    8,
];

// The text of an inner node and its padding.
#[inline(always)]
fn padded(pair: &InnerPair) -> [u8; 128]
    ensures { result ≡ padded_message (inner_text pair.now.left pair.now.right) }
{
    let mut text = FRAME;
    text[1..33].copy_from_slice(&pair.left);
    text[33..65].copy_from_slice(&pair.right);
    text
}
