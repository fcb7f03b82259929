//! The form of ICS 23 of the proof of the counter of clients, as a writer of protobuf gave it that isn't this code; and forms there and back.

use super::proofs::{CHANNELS, CONNECTIONS, SPELLED, joined};
use ibc_ics23_form::{form_of, proof_of_form};
use ibc_ids::{Bytes, Refusal};
use ibc_merkle::Proof;
use ibc_wire::{decode, encode};
use std::alloc::Global;

// A CommitmentProof of an ExistenceProof: key, value, leaf and two inner operations.
const FORM: [u8; 123] = [
    0x0a, 0x79, 0x0a, 0x12, 0x6e, 0x65, 0x78, 0x74, 0x43, 0x6c, 0x69, 0x65, 0x6e, 0x74, 0x53, 0x65,
    0x71, 0x75, 0x65, 0x6e, 0x63, 0x65, 0x12, 0x08, 0x00, 0x00, 0x00, 0x00, 0x00, 0x00, 0x00, 0x00,
    0x1a, 0x09, 0x08, 0x01, 0x18, 0x01, 0x20, 0x01, 0x2a, 0x01, 0x00, 0x22, 0x25, 0x08, 0x01, 0x12,
    0x21, 0x01, 0xcc, 0x08, 0x74, 0xb1, 0x0b, 0x14, 0xd1, 0x67, 0xe8, 0x7f, 0x25, 0xce, 0xe6, 0x3a,
    0x6c, 0xf8, 0x1e, 0x02, 0x89, 0x0e, 0x31, 0x94, 0x8d, 0x35, 0x09, 0x79, 0xce, 0xe3, 0x54, 0x4a,
    0xeb, 0x97, 0x22, 0x27, 0x08, 0x01, 0x12, 0x01, 0x01, 0x1a, 0x20, 0x25, 0xe7, 0x6b, 0x52, 0x6b,
    0xcd, 0x28, 0xac, 0x70, 0x37, 0xfd, 0x2a, 0x9d, 0x8a, 0xd2, 0x06, 0x14, 0x47, 0x0b, 0xae, 0x11,
    0xde, 0xe2, 0x0a, 0xaf, 0xa7, 0x1e, 0xea, 0xaf, 0xef, 0x9b, 0xbe,
];

// The form of the proof that the bytes spell.
fn form_of_spelled(alloc: Global, bytes: &[u8]) -> Result<Bytes, Refusal> {
    let proof: Proof = decode(alloc, bytes)?;
    let form = form_of(alloc, &proof);
    drop(proof);
    form
}

// Whether the bytes are those of the proof of this form.
fn is_of_form(alloc: Global, form: &[u8], bytes: &[u8]) -> Result<bool, Refusal> {
    let proof = proof_of_form(alloc, form)?;
    let spelled = encode(alloc, &proof);
    drop(proof);
    Ok(spelled?.as_slice() == bytes)
}

fn comes_back(alloc: Global, bytes: &[u8]) -> Result<bool, Refusal> {
    let form = form_of_spelled(alloc, bytes)?;
    is_of_form(alloc, form.as_slice(), bytes)
}

// A proof that the counter of clients is absent, beside these neighbours.
fn absence_comes_back(alloc: Global, neighbours: &[&[u8]]) -> Result<bool, Refusal> {
    let sides = joined(alloc, neighbours)?;
    let bytes = joined(alloc, &[b"\x02\0\x12nextClientSequence", sides.as_slice()])?;
    comes_back(alloc, bytes.as_slice())
}

#[test]
fn a_form_is_the_one_of_its_proof(rt: HostRuntime) {
    let alloc = rt.alloc();
    let form = form_of_spelled(alloc, &SPELLED[..109]).expect(&rt, "a form");
    assert!(rt; form.as_slice() == FORM.as_slice());
    assert!(rt; is_of_form(alloc, &FORM, &SPELLED[..109]) == Ok(true));
}

#[test]
fn each_proof_comes_back(rt: HostRuntime) {
    let alloc = rt.alloc();
    assert!(rt; comes_back(alloc, &SPELLED[..109]) == Ok(true));
    assert!(rt; absence_comes_back(alloc, &[&[1], &CHANNELS, &[1], &CONNECTIONS]) == Ok(true));
    assert!(rt; absence_comes_back(alloc, &[&[0], &[1], &CONNECTIONS]) == Ok(true));
    assert!(rt; absence_comes_back(alloc, &[&[1], &CHANNELS, &[0]]) == Ok(true));
    assert!(rt; absence_comes_back(alloc, &[&[0], &[0]]) == Ok(true));
}

// Whether the bytes are the form of no proof.
fn is_none(alloc: Global, form: &[u8]) -> bool {
    match proof_of_form(alloc, form) {
        Ok(proof) => {
            drop(proof);
            false
        }
        Err(refusal) => refusal == Refusal::BadMessage,
    }
}

// A form that is cut, or has a byte more, is none; nor is one with another hash, or of a batch.
#[test]
fn other_bytes_are_no_form(rt: HostRuntime) {
    let alloc = rt.alloc();
    for count in 0..FORM.len() {
        assert!(rt; is_none(alloc, &FORM[..count]), "at {count}");
    }
    let longer = joined(alloc, &[&FORM, &[0]]).expect(&rt, "memory");
    assert!(rt; is_none(alloc, longer.as_slice()));
    for (at, byte) in [(0, 0x1a), (35, 2), (37, 0), (46, 2), (41, 0x32)] {
        let mut other = FORM.to_vec(alloc).expect(&rt, "memory");
        other[at] = byte;
        assert!(rt; is_none(alloc, other.as_slice()), "byte {at}");
    }
}
