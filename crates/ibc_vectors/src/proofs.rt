//! The proof of the counter of clients in the tree of a new chain, and proofs of the greatest sizes.

use ibc_ics23_proof::{verify_absent, verify_present};
use ibc_ids::{Refusal, Root};
use ibc_merkle::Proof;
use ibc_wire::{decode, encode};
use std::alloc::Global;

const KEY: &str = "nextClientSequence";

const ROOT: [u8; 32] = [
    0x74, 0x3e, 0x73, 0x34, 0x1e, 0x76, 0x49, 0xed, 0x2a, 0xa2, 0x72, 0x3b, 0xb1, 0x6e, 0x6c, 0x43,
    0xe4, 0xfd, 0x62, 0xa1, 0x60, 0x61, 0xf8, 0x0e, 0xa2, 0xa3, 0x79, 0x72, 0x78, 0x77, 0x68, 0xdd,
];

// What the proof is spelled as (key, value, leaf prefix, and two operations), and a byte behind it.
pub(crate) const SPELLED: [u8; 110] = [
    0x01, 0x00, 0x12, 0x6e, 0x65, 0x78, 0x74, 0x43, 0x6c, 0x69, 0x65, 0x6e, 0x74, 0x53, 0x65, 0x71,
    0x75, 0x65, 0x6e, 0x63, 0x65, 0x00, 0x08, 0x00, 0x00, 0x00, 0x00, 0x00, 0x00, 0x00, 0x00, 0x00,
    0x01, 0x00, 0x02, 0x00, 0x21, 0x01, 0xcc, 0x08, 0x74, 0xb1, 0x0b, 0x14, 0xd1, 0x67, 0xe8, 0x7f,
    0x25, 0xce, 0xe6, 0x3a, 0x6c, 0xf8, 0x1e, 0x02, 0x89, 0x0e, 0x31, 0x94, 0x8d, 0x35, 0x09, 0x79,
    0xce, 0xe3, 0x54, 0x4a, 0xeb, 0x97, 0x00, 0x00, 0x00, 0x01, 0x01, 0x00, 0x20, 0x25, 0xe7, 0x6b,
    0x52, 0x6b, 0xcd, 0x28, 0xac, 0x70, 0x37, 0xfd, 0x2a, 0x9d, 0x8a, 0xd2, 0x06, 0x14, 0x47, 0x0b,
    0xae, 0x11, 0xde, 0xe2, 0x0a, 0xaf, 0xa7, 0x1e, 0xea, 0xaf, 0xef, 0x9b, 0xbe, 0x00,
];

// Whether the bytes are a proof that a counter is 0.
fn is_zero(alloc: Global, key: &str, bytes: &[u8]) -> Result<bool, Refusal> {
    let proof: Proof = decode(alloc, bytes)?;
    let root = Root::from_bytes(ROOT);
    let is_zero = verify_present(&proof, &root, key.as_bytes(), [0u8; 8].as_slice());
    drop(proof);
    Ok(is_zero)
}

// Whether the bytes are a proof that the counter of clients is 0.
fn is_shown(alloc: Global, bytes: &[u8]) -> Result<bool, Refusal> {
    is_zero(alloc, KEY, bytes)
}

// Whether the bytes with some bits of one of them changed are a proof that the counter of clients is 0.
fn is_shown_changed(alloc: Global, at: usize, bits: u8) -> Result<bool, Refusal> {
    let mut changed = SPELLED[..109].to_vec(alloc)?;
    if let Some(byte) = changed.get_mut(at) {
        *byte ^= bits;
    }
    is_shown(alloc, changed.as_slice())
}

// Whether the bytes with some bits of one of them changed are no proof, or none of the counter.
fn tells(alloc: Global, at: usize, bits: u8) -> bool {
    let is_shown = is_shown_changed(alloc, at, bits);
    is_shown == Ok(false) || is_shown == Err(Refusal::BadMessage)
}

#[test]
fn the_counter_of_clients(rt: HostRuntime) {
    assert!(rt; is_shown(rt.alloc(), &SPELLED[..109]) == Ok(true));
}

// Each byte is changed to each other value.
#[test]
fn each_byte_tells(rt: HostRuntime) {
    let alloc = rt.alloc();
    for at in 0..109 {
        assert!(rt; (1..=255).all(|bits| tells(alloc, at, bits)), "at {at}");
    }
}

#[test]
fn no_byte_may_miss_or_be_left(rt: HostRuntime) {
    for count in 0..111 {
        let is_cut = is_shown(rt.alloc(), &SPELLED[..count]) == Err(Refusal::BadMessage);
        assert!(rt; is_cut == (count != 109), "at {count}");
    }
}

// What the presence of the counter of channels is spelled as, without the tag.
pub(crate) const CHANNELS: [u8; 109] = [
    0x00, 0x13, 0x6e, 0x65, 0x78, 0x74, 0x43, 0x68, 0x61, 0x6e, 0x6e, 0x65, 0x6c, 0x53, 0x65, 0x71,
    0x75, 0x65, 0x6e, 0x63, 0x65, 0x00, 0x08, 0x00, 0x00, 0x00, 0x00, 0x00, 0x00, 0x00, 0x00, 0x00,
    0x01, 0x00, 0x02, 0x00, 0x01, 0x01, 0x00, 0x20, 0x50, 0x3c, 0xbf, 0xe0, 0x46, 0x50, 0x35, 0x41,
    0xd9, 0x32, 0x95, 0xf4, 0x8c, 0x84, 0xb1, 0x70, 0xe1, 0x43, 0xc3, 0x50, 0x2e, 0x7e, 0xa9, 0x4d,
    0xa1, 0x94, 0x79, 0xa2, 0xbe, 0xc2, 0xd3, 0x77, 0x00, 0x01, 0x01, 0x00, 0x20, 0x25, 0xe7, 0x6b,
    0x52, 0x6b, 0xcd, 0x28, 0xac, 0x70, 0x37, 0xfd, 0x2a, 0x9d, 0x8a, 0xd2, 0x06, 0x14, 0x47, 0x0b,
    0xae, 0x11, 0xde, 0xe2, 0x0a, 0xaf, 0xa7, 0x1e, 0xea, 0xaf, 0xef, 0x9b, 0xbe,
];

// The same of the counter of connections.
pub(crate) const CONNECTIONS: [u8; 75] = [
    0x00, 0x16, 0x6e, 0x65, 0x78, 0x74, 0x43, 0x6f, 0x6e, 0x6e, 0x65, 0x63, 0x74, 0x69, 0x6f, 0x6e,
    0x53, 0x65, 0x71, 0x75, 0x65, 0x6e, 0x63, 0x65, 0x00, 0x08, 0x00, 0x00, 0x00, 0x00, 0x00, 0x00,
    0x00, 0x00, 0x00, 0x01, 0x00, 0x01, 0x00, 0x21, 0x01, 0xbd, 0x5a, 0xea, 0x21, 0xe8, 0xbe, 0xa5,
    0x9d, 0x2c, 0x3c, 0x71, 0xef, 0x0d, 0xa5, 0xc5, 0xe9, 0x01, 0xd6, 0x8d, 0xf4, 0x70, 0x83, 0x65,
    0x21, 0x06, 0x0f, 0xab, 0x92, 0xeb, 0xdf, 0x63, 0x30, 0x00, 0x00,
];

// The bytes of the parts, one behind another.
pub(crate) fn joined(alloc: Global, parts: &[&[u8]]) -> Result<Vec<u8>, Refusal> {
    let mut out = Vec::new(alloc);
    for part in parts {
        out.extend_from_slice(part)?;
    }
    Ok(out)
}

// Whether a counter is proved by a tag and these bytes.
fn stands(alloc: Global, key: &str, bytes: &[u8]) -> Result<bool, Refusal> {
    let bytes = joined(alloc, &[&[1], bytes])?;
    is_zero(alloc, key, bytes.as_slice())
}

// Whether the counter of clients is proved to be absent between the two others.
fn is_absent_between(alloc: Global) -> Result<bool, Refusal> {
    let key = b"\x02\0\x12nextClientSequence";
    let bytes = joined(alloc, &[key, &[1], &CHANNELS, &[1], &CONNECTIONS])?;
    let proof: Proof = decode(alloc, bytes.as_slice())?;
    let is_absent = verify_absent(&proof, &Root::from_bytes(ROOT), KEY.as_bytes());
    drop(proof);
    Ok(is_absent)
}

// Both neighbours are there, and they don't stand side by side.
#[test]
fn neighbours_stand_side_by_side(rt: HostRuntime) {
    let alloc = rt.alloc();
    assert!(rt; stands(alloc, "nextChannelSequence", &CHANNELS) == Ok(true));
    assert!(rt; stands(alloc, "nextConnectionSequence", &CONNECTIONS) == Ok(true));
    assert!(rt; is_absent_between(alloc) == Ok(false));
}

// Writes a text of so many bytes.
fn push_text(out: &mut Vec<u8>, size: u16) -> Result<(), Refusal> {
    out.extend_from_slice(size.to_be_bytes().as_slice())?;
    for _ in 0..size {
        out.push(7)?;
    }
    Ok(())
}

// Writes a presence with a key, a value and operations of these sizes.
fn push_presence(out: &mut Vec<u8>, key: u16, value: u16, count: u8) -> Result<(), Refusal> {
    push_text(out, key)?;
    push_text(out, value)?;
    push_text(out, 64)?;
    out.push(count)?;
    for _ in 0..count {
        push_text(out, 64)?;
        push_text(out, 64)?;
    }
    Ok(())
}

// The bytes of a proof of presence with a key, a value and operations of these sizes.
fn presence_of(alloc: Global, key: u16, value: u16, count: u8) -> Result<Vec<u8>, Refusal> {
    let mut out = Vec::new(alloc);
    out.push(1)?;
    push_presence(&mut out, key, value, count)?;
    Ok(out)
}

// The bytes of a proof of absence with two of the greatest neighbours.
fn greatest_absence(alloc: Global) -> Result<Vec<u8>, Refusal> {
    let mut out = Vec::new(alloc);
    out.push(2)?;
    push_text(&mut out, 256)?;
    for _ in 0..2 {
        out.push(1)?;
        push_presence(&mut out, 256, 512, 64)?;
    }
    Ok(out)
}

// The number of the bytes, where a proof is read from them and is spelled so.
fn size_of(alloc: Global, bytes: Result<Vec<u8>, Refusal>) -> Result<usize, Refusal> {
    let bytes = bytes?;
    let proof: Proof = decode(alloc, bytes.as_slice())?;
    let spelled = encode(alloc, &proof);
    drop(proof);
    Ok(if spelled? == bytes { bytes.len() } else { 0 })
}

#[test]
fn the_greatest_proofs(rt: HostRuntime) {
    let alloc = rt.alloc();
    assert!(rt; size_of(alloc, presence_of(alloc, 256, 512, 64)) == Ok(9_288));
    assert!(rt; size_of(alloc, greatest_absence(alloc)) == Ok(18_835));
}

#[test]
fn nothing_greater(rt: HostRuntime) {
    let alloc = rt.alloc();
    for (key, value, count) in [(257, 512, 64), (256, 513, 64), (256, 512, 65)] {
        let size = size_of(alloc, presence_of(alloc, key, value, count));
        assert!(rt;
            size == Err(Refusal::BadMessage),
            "at {key}, {value}, {count}"
        );
    }
}
