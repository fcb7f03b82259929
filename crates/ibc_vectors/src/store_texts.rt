//! The text of a store, which shows the pairs in the order of their keys, and nothing of where they stand.

use crate::stores::{Numbers, Shape, commit, path, remove_all, set, set_all, stands};
use ibc_ids::Refusal;
use ibc_merkle::{Steps, hash_value};
use ibc_path_store::Store;
use std::alloc::Global;
use std::process::Abort;

fn text(rt: &impl Abort, alloc: Global, store: &Store) -> String {
    format!(in alloc; "{store:?}").expect(rt, "memory")
}

// How long the text is, and its hash in hexadecimal digits.
fn digest(rt: &impl Abort, alloc: Global, store: &Store) -> String {
    let text = text(rt, alloc, store);
    let hash = hash_value(text.as_bytes(), &mut Steps::new());
    let length = text.len();
    drop(text);
    let digits = hex::encode(alloc, hash.as_slice()).expect(rt, "memory");
    let digest = format!(in alloc; "{length} {digits}").expect(rt, "memory");
    drop(digits);
    digest
}

fn check_text(rt: &impl Abort, alloc: Global, store: &Store, expected: &str) {
    let text = text(rt, alloc, store);
    assert_eq!(rt; text.as_str(), expected);
    drop(text);
}

fn check_digest(rt: &impl Abort, alloc: Global, store: &Store, expected: &str) {
    let digest = digest(rt, alloc, store);
    assert_eq!(rt; digest.as_str(), expected);
    drop(digest);
}

const FRESH: &str =
    "Store { map: PathMap { entries: [], spare: Spare { places: [] }, touched: Touched { gaps: [], lost: false } }, time: 100, window: 1, gone: 0, forest: Forest { arena: Arena { nodes: Nodes { shelf: Shelf { full: Chunks { groups: [], begun: [] }, begun: [] } }, known: [], steps: Steps { count: 0 } }, rows: [], kept: [], digests: 0, gathered: 0 } }";

#[test]
fn a_fresh_store(rt: HostRuntime) {
    let store = Store::new(rt.alloc(), 1, 100);
    check_text(&rt, rt.alloc(), &store, FRESH);
    drop(store);
}

// A store with two paths, of which the second one is the lower one, so that it waits or stands in front.
fn two_paths(rt: &impl Abort, alloc: Global) -> Store {
    let mut store = Store::new(alloc, 1, 100);
    let later = path(rt, alloc, Shape::Row, 2);
    set(rt, alloc, &mut store, later, 7);
    let first = path(rt, alloc, Shape::Row, 1);
    set(rt, alloc, &mut store, first, 9);
    store
}

// A room that no memory has refuses `reserve`, and a time that falls a commit.
fn refuse_both(rt: &impl Abort, store: &mut Store, path: &str) {
    assert!(rt; store.reserve(usize::MAX).err() == Some(Refusal::NoMemory));
    if stands(store, path) {
        let refusal = store.commit(99).err();
        assert!(rt; refusal == Some(Refusal::TimeBack));
    }
}

const TWO: &str =
    "Store { map: PathMap { entries: [SharedEntry { hold: Shared(KeyValue { key: Bytes { items: [114, 101, 99, 111, 114, 100, 115, 47, 49] }, value: Bytes { items: [9, 9, 9, 9, 9, 9, 9, 9] } }) }, SharedEntry { hold: Shared(KeyValue { key: Bytes { items: [114, 101, 99, 111, 114, 100, 115, 47, 50] }, value: Bytes { items: [7, 7, 7, 7, 7, 7, 7, 7] } }) }], spare: Spare { places: [] }, touched: Touched { gaps: [Gap { kept: 0, gone: 0, come: 2 }], lost: false } }, time: 100, window: 1, gone: 0, forest: Forest { arena: Arena { nodes: Nodes { shelf: Shelf { full: Chunks { groups: [], begun: [] }, begun: [] } }, known: [], steps: Steps { count: 0 } }, rows: [], kept: [], digests: 0, gathered: 0 } }";

#[test]
fn two_paths_behind_refusals(rt: HostRuntime) {
    let mut store = two_paths(&rt, rt.alloc());
    check_text(&rt, rt.alloc(), &store, TWO);
    refuse_both(&rt, &mut store, "records/1");
    check_text(&rt, rt.alloc(), &store, TWO);
    drop(store);
}

// Seven records in each of five passes, so that the later ones lie between the earlier ones, and are merged several times.
fn scatter(rt: &impl Abort, alloc: Global, store: &mut Store, shape: Shape, byte: u8) {
    for first in 10..15 {
        let numbers = Numbers {
            first,
            step: 5,
            count: 7,
        };
        set_all(rt, alloc, store, shape, numbers, byte);
    }
}

// The numbers of eight records, of which each other one is new behind those of `scatter`.
const OTHERS: Numbers = Numbers {
    first: 31,
    step: 4,
    count: 8,
};

const GONE: Numbers = Numbers {
    first: 13,
    step: 9,
    count: 5,
};

// Scatters records, commits them, changes some, adds some, and removes some of both, behind refusals too.
fn check_life(
    rt: &impl Abort,
    alloc: Global,
    store: &mut Store,
    shape: Shape,
    expected: [&str; 7],
) {
    let first = path(rt, alloc, shape, 10);
    scatter(rt, alloc, store, shape, 1);
    check_digest(rt, alloc, store, expected[0]);
    commit(rt, store, first.as_str());
    check_digest(rt, alloc, store, expected[1]);
    set_all(rt, alloc, store, shape, OTHERS, 2);
    check_digest(rt, alloc, store, expected[2]);
    remove_all(rt, alloc, store, shape, GONE);
    check_digest(rt, alloc, store, expected[3]);
    store.reserve(3).expect(rt, "memory");
    check_digest(rt, alloc, store, expected[4]);
    refuse_both(rt, store, first.as_str());
    check_digest(rt, alloc, store, expected[5]);
    commit(rt, store, first.as_str());
    check_digest(rt, alloc, store, expected[6]);
    drop(first);
}

#[test]
fn the_life_of_a_row(rt: HostRuntime) {
    let expected = [
        "6083 dd17f82d4e416d1dff2301cbd99254f41dad5f3c00c3051c606879ba512d8e89",
        "28552 c8de73473371cf677375b3b0177b1900b5b980b763cc6a4056bc99ff9157c2b4",
        "29378 c5a28dda09940c0d3bb317910711358226f2a285f6ab113638b5b95aec67b721",
        "28830 3263179601efd69158fbd26470cff9c39fef14ba80e29bf5efdb6496de2155b5",
        "29095 17551081e7ce67e831893f5eaa259f0a9b1f9eb5ef4a3d911be5f8644fbdbf83",
        "29095 17551081e7ce67e831893f5eaa259f0a9b1f9eb5ef4a3d911be5f8644fbdbf83",
        "38967 6432844a4d8ea47cf7728fa366a504d99b694660c0b6a6ea93cf57297ea56eea",
    ];
    let mut store = Store::new(rt.alloc(), 1, 100);
    check_life(&rt, rt.alloc(), &mut store, Shape::Row, expected);
    drop(store);
}

#[test]
fn the_life_of_commitments(rt: HostRuntime) {
    let expected = [
        "14028 1be108c0ab7b30195728669ef106bf9b5317c7e1a0efe8ae4b5949aeb49d8c85",
        "44434 deb5f82f77e5e9cb1212089d2302535543ce12173f076bab660f928e9341fe55",
        "46272 fb164e795c933713d641f2f2e62ee09c7eb66df0a93a846b360f4fa99ec917e1",
        "44817 de309dba6881ed4c6143f7cc6f1e3c3bdedf3375bf7f812f059c167d3d091af3",
        "45082 61f97c0d443fdd328e7df9e459f0817110ada67a9b604e0370e8c7ef034c731d",
        "45082 61f97c0d443fdd328e7df9e459f0817110ada67a9b604e0370e8c7ef034c731d",
        "55659 f7e43a1c46b39dc9561bbe9ad1eb2ea292501a5dd50c8334efaab395221afe4c",
    ];
    let mut store = Store::new(rt.alloc(), 1, 100);
    check_life(&rt, rt.alloc(), &mut store, Shape::Commitments, expected);
    drop(store);
}

// Three hundred records, two apart.
const BASE: Numbers = Numbers {
    first: 10_000,
    step: 2,
    count: 300,
};

const SEVERAL: Numbers = Numbers {
    first: 10_020,
    step: 46,
    count: 9,
};

const BETWEEN: Numbers = Numbers {
    first: 10_101,
    step: 2,
    count: 150,
};

const FALLEN: Numbers = Numbers {
    first: 10_050,
    step: 3,
    count: 80,
};

// Several other values, many new records, and many removed ones, each behind a commit.
fn check_blocks(rt: &impl Abort, alloc: Global, store: &mut Store, expected: [&str; 4]) {
    set_all(rt, alloc, store, Shape::Commitments, BASE, 1);
    commit_and_check(rt, alloc, store, expected[0]);
    set_all(rt, alloc, store, Shape::Commitments, SEVERAL, 2);
    commit_and_check(rt, alloc, store, expected[1]);
    set_all(rt, alloc, store, Shape::Commitments, BETWEEN, 3);
    commit_and_check(rt, alloc, store, expected[2]);
    remove_all(rt, alloc, store, Shape::Commitments, FALLEN);
    commit_and_check(rt, alloc, store, expected[3]);
}

// Commits a height, and compares the digest of the text.
fn commit_and_check(rt: &impl Abort, alloc: Global, store: &mut Store, expected: &str) {
    let first = path(rt, alloc, Shape::Commitments, 10_000);
    commit(rt, store, first.as_str());
    drop(first);
    check_digest(rt, alloc, store, expected);
}

// The numbers of nodes show in the text, so they are made in the same order.
#[test]
fn blocks_of_many_records(rt: HostRuntime) {
    let expected = [
        "389158 0d926984ecae74d7dd8a549daaa008837ac9c38b138eca9033d56b5d14a84b57",
        "414551 db55f55a9cce4fcaeed6c843df2996a753d5028f4eb6e77e3a9fe97f5e813f9c",
        "672293 045896c9eb4a38c032dfaab7d57d898ec43a34791de1912e98741258b0da5ec5",
        "699014 43aef9a99268b2bcf74ed894b7fc7afebcb0a5ba0844ae4102b519e8ba078259",
    ];
    let mut store = Store::new(rt.alloc(), 2, 100);
    check_blocks(&rt, rt.alloc(), &mut store, expected);
    drop(store);
}
