//! Stores with records that are made by number.

ghost use Rattle.std.specs.Prelude.{◌≡◌, ◌<◌, true, length};

use ibc_ids::Bytes;
use ibc_path_store::Store;
use std::alloc::Global;
use std::process::Abort;

/// Numbers of records: the first one, how far each is behind the one before, and how many.
#[derive(Clone, Copy, Debug)]
pub struct Numbers {
    pub first: u64,
    pub step: u64,
    pub count: u64,
}

impl Numbers {
    /// The number at an index.
    pub fn at(self, index: u64) -> u64 {
        self.first.saturating_add(self.step.saturating_mul(index))
    }
}

/// How a record's number stands in its path.
#[derive(Clone, Copy, Debug)]
pub enum Shape {
    /// Numbers of five digits: the paths are in the order of the numbers.
    Row,
    /// The sequence of a packet on one of seven channels: a block's paths lie far from each other.
    Commitments,
}

/// The path of a record.
pub fn path(rt: &impl Abort, alloc: Global, shape: Shape, number: u64) -> String {
    let text = match shape {
        Shape::Row => format!(in alloc; "records/{number}"),
        Shape::Commitments => {
            let channel = number % 7;
            format!(in alloc;
                "commitments/ports/transfer/channels/channel-{channel}/sequences/{number}"
            )
        }
    };
    text.expect(rt, "memory")
}

/// Sets a record to eight times this byte.
#[tactic(auto, using(ibc_merkle::proofs::Edits::with_some))]
pub fn set(rt: &impl Abort, alloc: Global, store: &mut Store, path: String, byte: u8)
    ensures { 0 < length store.new.pairs }
{
    let value = Bytes::copy_of(alloc, [byte; 8].as_slice());
    store
        .set(path, value.expect(rt, "memory"))
        .expect(rt, "memory");
}

/// Sets records to eight times this byte.
pub fn set_all(
    rt: &impl Abort,
    alloc: Global,
    store: &mut Store,
    shape: Shape,
    numbers: Numbers,
    byte: u8,
) {
    for index in 0..numbers.count {
        set(
            rt,
            alloc,
            store,
            path(rt, alloc, shape, numbers.at(index)),
            byte,
        );
    }
}

/// Removes records.
pub fn remove_all(
    rt: &impl Abort,
    alloc: Global,
    store: &mut Store,
    shape: Shape,
    numbers: Numbers,
) {
    for index in 0..numbers.count {
        let path = path(rt, alloc, shape, numbers.at(index));
        store.remove(path.as_str());
        drop(path);
    }
}

/// Whether a record has a value.
#[tactic(auto, using(crate::proofs::StandingPaths::found_there))]
pub fn stands(store: &Store, path: &str) -> bool
    ensures { result ≡ true → 0 < length store.now.pairs }
{
    store.get(path).is_some()
}

/// Commits a height, if a record has a value: how many texts are counted for it.
pub fn commit(rt: &impl Abort, store: &mut Store, path: &str) -> u64 {
    let before = store.digests();
    let time = store.time();
    if stands(store, path) {
        store.commit(time).expect(rt, "a height");
    }
    store.digests().saturating_sub(before)
}
