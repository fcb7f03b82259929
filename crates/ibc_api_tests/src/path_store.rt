//! The store of a new chain, and of a chain that goes on.

ghost use Rattle.std.specs.Prelude.{◌≡◌, ◌<◌, length};

use crate::genesis::GENESIS_ROOT;
use ibc_ids::{Bytes, Key, Refusal};
use ibc_merkle::Proof;
use ibc_path_store::{CommittedTree, Store};
use std::alloc::Global;
use std::process::Abort;

// Sets a counter to eight times this byte.
#[tactic(auto, using(ibc_merkle::proofs::Edits::with_some))]
fn set_counter(rt: &impl Abort, alloc: Global, store: &mut Store, path: &str, byte: u8)
    ensures { 0 < length store.new.pairs }
{
    let path = String::from_str(alloc, path).expect(rt, "memory");
    let value = Bytes::copy_of(alloc, [byte; 8].as_slice());
    store
        .set(path, value.expect(rt, "memory"))
        .expect(rt, "memory");
}

// A store with the three counters of a new chain.
fn new_store(rt: &impl Abort, alloc: Global, window: u64) -> Store
    ensures { 0 < length result.pairs }
{
    let mut store = Store::new(alloc, window, 100);
    store.reserve(3).expect(rt, "memory");
    set_counter(rt, alloc, &mut store, "nextClientSequence", 0);
    set_counter(rt, alloc, &mut store, "nextConnectionSequence", 0);
    set_counter(rt, alloc, &mut store, "nextChannelSequence", 0);
    store
}

// Commits two heights, of which the first has the root of a new chain.
fn commit_twice(rt: &impl Abort, store: &mut Store)
    requires { 0 < length store.old.pairs }
{
    let root = store.commit(100).expect(rt, "a height");
    store.commit(101).expect(rt, "a height");
    assert!(rt; root.bytes() == &GENESIS_ROOT);
}

// Why the counter of clients isn't proved at a height, or none.
fn refusal_at(store: &Store, height: u64) -> Option<Refusal> {
    store.prove(height, &Key::NextClientSequence).err()
}

fn check_window(rt: &impl Abort, store: &Store) {
    assert!(rt; store.height() == 2);
    assert!(rt; store.time() == 101);
    assert!(rt; refusal_at(store, 0) == Some(Refusal::NoConsensus));
    assert!(rt; refusal_at(store, 1) == Some(Refusal::NoConsensus));
    assert!(rt; refusal_at(store, 2).is_none());
    assert!(rt; refusal_at(store, 3) == Some(Refusal::NoConsensus));
}

#[test]
fn heights_in_a_window(rt: HostRuntime) {
    let mut store = new_store(&rt, rt.alloc(), 1);
    commit_twice(&rt, &mut store);
    check_window(&rt, &store);
    drop(store);
}

// Whether the value at a path is a counter's that is 0, or none.
fn is_zero(store: &Store, path: &str) -> Option<bool> {
    store.get(path).map(|value| value == [0; 8].as_slice())
}

fn check_removed(rt: &impl Abort, store: &mut Store) {
    assert!(rt; is_zero(store, "nextClientSequence") == Some(true));
    assert!(rt; is_zero(store, "nextClient").is_none());
    store.remove("nextClientSequence");
    assert!(rt; is_zero(store, "nextClientSequence").is_none());
}

#[test]
fn sets_gets_and_removes(rt: HostRuntime) {
    let mut store = new_store(&rt, rt.alloc(), 1);
    check_removed(&rt, &mut store);
    drop(store);
}

#[test]
fn time_goes_forward(rt: HostRuntime) {
    let mut store = new_store(&rt, rt.alloc(), 1);
    let refusal = store.commit(99).err();
    drop(store);
    assert!(rt; refusal == Some(Refusal::TimeBack));
}

// Why there is no tree of a height, or none.
fn no_tree(store: &Store, height: u64) -> Option<Refusal> {
    store.snapshot(height).err()
}

fn check_no_trees(rt: &impl Abort, store: &Store) {
    assert!(rt; no_tree(store, 0) == Some(Refusal::NoConsensus));
    assert!(rt; no_tree(store, 1) == Some(Refusal::NoConsensus));
    assert!(rt; no_tree(store, 3) == Some(Refusal::NoConsensus));
}

// The tree of the second height of a new chain in a window of one, whose store is gone.
fn second_tree(rt: &impl Abort, alloc: Global) -> CommittedTree {
    let mut store = new_store(rt, alloc, 1);
    commit_twice(rt, &mut store);
    check_no_trees(rt, &store);
    let tree = store.snapshot(2).expect(rt, "a tree");
    drop(store);
    tree
}

// Whether it is proved that a counter is 0.
fn is_proof_of_zero(proof: &Proof) -> bool {
    match proof {
        Proof::Present(presence) => presence.value.as_slice() == [0; 8].as_slice(),
        Proof::Absent(_) => false,
    }
}

#[test]
fn a_tree_outlives_its_store(rt: HostRuntime) {
    let tree = second_tree(&rt, rt.alloc());
    let proof = tree
        .prove(rt.alloc(), b"nextClientSequence".as_slice())
        .expect(&rt, "memory");
    drop(tree);
    let is_proof_of_zero = is_proof_of_zero(&proof);
    drop(proof);
    assert!(rt; is_proof_of_zero);
}

// Commits a height: how many texts are hashed for it.
fn hashed(rt: &impl Abort, store: &mut Store) -> u64
    requires { 0 < length store.old.pairs }
    ensures { store.new.pairs ≡ store.old.pairs }
{
    let before = store.digests();
    store.commit(100).expect(rt, "a height");
    store.digests().saturating_sub(before)
}

// Sets another value and commits a height: how many texts are hashed for it.
fn hashed_after(rt: &impl Abort, alloc: Global, store: &mut Store, path: &str) -> u64 {
    set_counter(rt, alloc, store, path, 1);
    hashed(rt, store)
}

fn check_hashed(rt: &impl Abort, alloc: Global, store: &mut Store)
    requires { 0 < length store.old.pairs }
{
    assert!(rt; hashed(rt, store) == 8);
    assert!(rt; hashed(rt, store) == 0);
    assert!(rt; hashed_after(rt, alloc, store, "nextClientSequence") == 4);
    assert!(rt; hashed_after(rt, alloc, store, "nextConnectionSequence") == 3);
}

#[test]
fn unchanged_nodes_are_not_hashed_again(rt: HostRuntime) {
    let mut store = new_store(&rt, rt.alloc(), 4);
    check_hashed(&rt, rt.alloc(), &mut store);
    drop(store);
}
