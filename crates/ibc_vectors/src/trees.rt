//! The hashes of a tree, and the tree over the counters of a new chain, with its proofs.

ghost use Rattle.std.specs.Prelude.{◌≡◌, ◌<◌, codes, length, IfOk, IsNone, IsSome, IsTrue};
ghost use Rattle.std.specs.FinMap.{is_sorted};
ghost use Rattle.ibc_ids.specs.Maps.{at};
ghost use Rattle.ibc_ids.specs.Texts.{text_cmp};

use ibc_ics23_proof::{
    NodeMemory, verify_absent, verify_absent_with, verify_present, verify_present_with,
};
use ibc_ids::{Bytes, Refusal, Root};
use ibc_merkle::{
    KeyValue, Presence, Proof, Steps, hash_inner, hash_leaf, hash_value, place, prove,
    prove_absent, prove_present, root, split_of,
};
use std::alloc::{AllocError, Global};

const GENESIS_ROOT: &str = "743e73341e7649ed2aa2723bb16e6c43e4fd62a16061f80ea2a37972787768dd";

// Whether the bytes are written so in hexadecimal digits.
fn is_hex(alloc: Global, bytes: &[u8], text: &str) -> bool {
    matches!(hex::encode(alloc, bytes), Ok(digits) if digits.as_str() == text)
}

#[test]
fn the_hash_of_a_value(rt: HostRuntime) {
    let expected = "ba7816bf8f01cfea414140de5dae2223b00361a396177a9cb410ff61f20015ad";
    assert!(rt;
        is_hex(
            rt.alloc(),
            hash_value(b"abc".as_slice(), &mut Steps::new()).as_slice(),
            expected
        )
    );
}

// Whether this is the hash of the leaf of a counter at 0.
fn is_leaf(alloc: Global, key: &[u8], text: &str) -> bool {
    let mut steps = Steps::new();
    let value = hash_value([0u8; 8].as_slice(), &mut steps);
    is_hex(alloc, hash_leaf(key, &value, &mut steps).as_slice(), text)
}

// The length of a key is written in one byte below 128, and in two from there on.
#[test]
fn leaves_of_short_and_long_keys(rt: HostRuntime) {
    let key = [b'k'; 251];
    let short = "461008c02f55516cebd79511fbbcb54be8f4d8eddf20d8cc4f72a33003235b6e";
    assert!(rt; is_leaf(rt.alloc(), &key[..18], short));
    let long = "0cfa1589264978a06924cc870b9653c112580800a29aad024045151fbac85fc2";
    assert!(rt; is_leaf(rt.alloc(), &key[..128], long));
    let longer = "87ef2237849060c3b2105cc5f00fd5c8e4f0c0538085fce54a41275821bdc67b";
    assert!(rt; is_leaf(rt.alloc(), &key[..251], longer));
}

// The hash of a counter's leaf.
fn counter_hash(key: &str, steps: &mut Steps) -> [u8; 32] {
    let value = hash_value([0u8; 8].as_slice(), steps);
    hash_leaf(key.as_bytes(), &value, steps)
}

#[test]
fn three_leaves_are_split_after_two(rt: HostRuntime) {
    let mut steps = Steps::new();
    let channels = counter_hash("nextChannelSequence", &mut steps);
    let clients = counter_hash("nextClientSequence", &mut steps);
    let connections = counter_hash("nextConnectionSequence", &mut steps);
    let first = hash_inner(&channels, &clients, &mut steps);
    let hash = hash_inner(&first, &connections, &mut steps);
    assert!(rt; is_hex(rt.alloc(), hash.as_slice(), GENESIS_ROOT));
    assert!(rt; steps.count() == 8);
    assert!(rt; split_of(3) == 2);
}

// A counter at 0.
fn counter(alloc: Global, key: &str) -> Result<KeyValue, AllocError>
    ensures { IfOk result (λ entry. entry.0 ≡ key.now) }
{
    let key = Bytes::copy_of(alloc, key.as_bytes())?;
    let value = Bytes::copy_of(alloc, [0u8; 8].as_slice())?;
    Ok(KeyValue::new(key, value))
}

// The three counters of a new chain.
fn new_chain(alloc: Global) -> Result<Vec<KeyValue>, AllocError>
    ensures sorted { IfOk result (λ entries. IsTrue (is_sorted text_cmp entries.items)) }
    ensures some { IfOk result (λ entries. 0 < length entries.items) }
    ensures there { IfOk result (λ entries. IsSome (at text_cmp (codes "nextClientSequence") entries.items)) }
    ensures missing { IfOk result (λ entries. IsNone (at text_cmp (codes "nextClient") entries.items)) }
{
    let channels = counter(alloc, "nextChannelSequence")?;
    let clients = counter(alloc, "nextClientSequence")?;
    let connections = counter(alloc, "nextConnectionSequence")?;
    Ok(vec![in alloc; channels, clients, connections]?)
}

// Where a key stands among the counters of a new chain.
fn place_of(alloc: Global, key: &str) -> Result<Result<usize, usize>, Refusal> {
    let entries = new_chain(alloc)?;
    Ok(place(entries.as_slice(), key.as_bytes()))
}

#[test]
fn places_of_keys(rt: HostRuntime) {
    assert!(rt; place_of(rt.alloc(), "nextClientSequence") == Ok(Ok(1)));
    assert!(rt; place_of(rt.alloc(), "nextClient") == Ok(Err(1)));
}

// Whether a new chain has this root, by its pairs alone.
fn is_genesis_root(alloc: Global) -> Result<bool, Refusal> {
    let entries = new_chain(alloc)?;
    Ok(is_hex(
        alloc,
        root(entries.as_slice()).bytes().as_slice(),
        GENESIS_ROOT,
    ))
}

#[test]
fn the_root_of_a_new_chain(rt: HostRuntime) {
    assert!(rt; is_genesis_root(rt.alloc()) == Ok(true));
}

// Whether a new chain proves from its pairs alone that it counts clients.
fn proves_a_value(alloc: Global) -> Result<bool, Refusal> {
    let entries = new_chain(alloc)?;
    let proof = prove_present(alloc, entries.as_slice(), b"nextClientSequence".as_slice());
    drop(entries);
    let is_present = matches!(&proof, Ok(Proof::Present(_)));
    drop(proof);
    Ok(is_present)
}

// Whether it proves from them that nothing stands at the beginning of that key.
fn proves_an_absence(alloc: Global) -> Result<bool, Refusal> {
    let entries = new_chain(alloc)?;
    let proof = prove_absent(alloc, entries.as_slice(), b"nextClient".as_slice());
    drop(entries);
    let is_absent = matches!(&proof, Ok(Proof::Absent(_)));
    drop(proof);
    Ok(is_absent)
}

#[test]
fn proofs_of_both_kinds(rt: HostRuntime) {
    assert!(rt; proves_a_value(rt.alloc()) == Ok(true));
    assert!(rt; proves_an_absence(rt.alloc()) == Ok(true));
}

// The key of a neighbour, empty where there is none.
fn key_of(neighbour: &Option<Presence>) -> &[u8] {
    match neighbour {
        Some(presence) => presence.key.as_slice(),
        None => &[],
    }
}

// Whether the proof shows an absence between these neighbours, of which an empty one is missing.
fn has_neighbours(proof: &Proof, left: &str, right: &str) -> bool {
    match proof {
        Proof::Absent(absence) => key_of(&absence.left) == left.as_bytes()
            && key_of(&absence.right) == right.as_bytes(),
        Proof::Present(_) => false,
    }
}

// Whether a key is proved to be absent from a new chain by these neighbours, and the proof is accepted.
fn stands_between(alloc: Global, left: &str, key: &str, right: &str) -> Result<bool, Refusal> {
    let entries = new_chain(alloc)?;
    let proof = prove(alloc, entries.as_slice(), key.as_bytes())?;
    let is_accepted = verify_absent(&proof, &root(entries.as_slice()), key.as_bytes());
    let stands_between = is_accepted && has_neighbours(&proof, left, right);
    drop(proof);
    Ok(stands_between)
}

#[test]
fn neighbours_of_absent_keys(rt: HostRuntime) {
    let first = "nextChannelSequence";
    let second = "nextClientSequence";
    let third = "nextConnectionSequence";
    for (left, key, right) in [
        ("", "acks/ports/note/channels/channel-0/sequences/1", first),
        (first, "nextClient", second),
        (
            third,
            "receipts/ports/transfer/channels/channel-0/sequences/1",
            "",
        ),
    ] {
        assert!(rt;
            stands_between(rt.alloc(), left, key, right) == Ok(true),
            "at {key}"
        );
    }
}

// Whether a proof of a counter is accepted with a memory just where it is without.
fn is_shown_alike(
    memory: &mut NodeMemory,
    proof: &Proof,
    root: &Root,
    key: &[u8],
    byte: u8,
) -> bool {
    let value = [byte; 8];
    verify_present_with(memory, proof, root, key, value.as_slice())
        == verify_present(proof, root, key, value.as_slice())
}

// The same of two values, and of the key's absence.
fn is_accepted_alike(memory: &mut NodeMemory, proof: &Proof, root: &Root, key: &[u8]) -> bool {
    is_shown_alike(memory, proof, root, key, 0)
        && is_shown_alike(memory, proof, root, key, 1)
        && verify_absent_with(memory, proof, root, key) == verify_absent(proof, root, key)
}

// Whether the proof of a key in a new chain is accepted alike under its root and under another.
fn is_remembered(alloc: Global, memory: &mut NodeMemory, key: &str) -> Result<bool, Refusal> {
    let entries = new_chain(alloc)?;
    let proof = prove(alloc, entries.as_slice(), key.as_bytes())?;
    let known = root(entries.as_slice());
    let other = Root::from_bytes([7; 32]);
    let is_alike = is_accepted_alike(memory, &proof, &known, key.as_bytes())
        && is_accepted_alike(memory, &proof, &other, key.as_bytes());
    drop(proof);
    Ok(is_alike)
}

#[test]
fn proofs_with_a_memory_of_nodes(rt: HostRuntime) {
    let mut memory = NodeMemory::new(rt.alloc());
    for key in [
        "nextClientSequence",
        "nextClient",
        "nextConnectionSequence",
        "nextClientSequence",
        "receipts",
        "acks",
        "nextChannelSequence",
        "nextClient",
    ] {
        assert!(rt;
            is_remembered(rt.alloc(), &mut memory, key) == Ok(true),
            "at {key}"
        );
    }
}
