//! How many texts a store counts for its commits, beside those of the plain store that hashed each text by itself.

use crate::stores::{Numbers, Shape, commit, path, remove_all, set_all};
use ibc_path_store::Store;
use std::alloc::Global;
use std::process::Abort;

// The number of the first record, which always stands.
const FIRST: u64 = 20_000;

// What a block does: the records that it sets, which are new or get another value, and then those that it removes.
#[derive(Clone, Copy, Debug)]
struct Block {
    set: Numbers,
    removed: Numbers,
}

// So many records from one on, each so many behind the one before.
fn numbers(first: u64, step: u64, count: u64) -> Numbers {
    Numbers { first, step, count }
}

const NONE: Numbers = Numbers {
    first: 0,
    step: 0,
    count: 0,
};

fn sets(first: u64, step: u64, count: u64) -> Block {
    Block {
        set: numbers(first, step, count),
        removed: NONE,
    }
}

fn removes(first: u64, step: u64, count: u64) -> Block {
    Block {
        set: NONE,
        removed: numbers(first, step, count),
    }
}

// A store with so many records, the first one among them, each two behind the one before.
fn store_of(rt: &impl Abort, alloc: Global, shape: Shape, records: u64) -> Store {
    let mut store = Store::new(alloc, 2, 100);
    set_all(
        rt,
        alloc,
        &mut store,
        shape,
        numbers(FIRST, 2, records),
        255,
    );
    store
}

// How many texts a commit counts.
fn count_commit(rt: &impl Abort, alloc: Global, store: &mut Store, shape: Shape) -> u64 {
    let first = path(rt, alloc, shape, FIRST);
    let counted = commit(rt, store, first.as_str());
    drop(first);
    counted
}

// How many texts are counted for the commit of a block, whose values are a byte's.
fn count_block(
    rt: &impl Abort,
    alloc: Global,
    store: &mut Store,
    shape: Shape,
    block: Block,
    byte: u8,
) -> u64 {
    set_all(rt, alloc, store, shape, block.set, byte);
    remove_all(rt, alloc, store, shape, block.removed);
    count_commit(rt, alloc, store, shape)
}

// How many texts are counted for the first commit, and for that of each block.
fn counts(
    rt: &impl Abort,
    alloc: Global,
    store: &mut Store,
    shape: Shape,
    blocks: &[Block],
) -> Vec<u64> {
    let mut counts = Vec::new(alloc);
    let first = count_commit(rt, alloc, store, shape);
    counts.push(first).expect(rt, "memory");
    for index in 0..blocks.len() {
        let byte = (index % 256) as u8;
        let count = count_block(rt, alloc, store, shape, blocks[index], byte);
        counts.push(count).expect(rt, "memory");
    }
    counts
}

fn check_counts(
    rt: &impl Abort,
    alloc: Global,
    shape: Shape,
    records: u64,
    blocks: &[Block],
    expected: &[u64],
) {
    let mut store = store_of(rt, alloc, shape, records);
    let counts = counts(rt, alloc, &mut store, shape, blocks);
    drop(store);
    assert_eq!(rt; counts.as_slice(), expected, "of {records} records");
    drop(counts);
}

// In stores of 4, 7, 8 and 13 records: no change, one, two neighbours, and two apart; new ones between, in front and behind;
// others in place of removed ones; removed ones, and one that came and went.
fn few_blocks() -> [Block; 12] {
    [
        sets(FIRST, 2, 0),
        sets(20_002, 2, 1),
        sets(20_002, 2, 2),
        sets(20_000, 4, 2),
        sets(20_001, 2, 1),
        sets(20_003, 1, 4),
        sets(19_000, 1, 3),
        sets(30_000, 1, 5),
        Block {
            set: numbers(20_003, 2, 1),
            removed: numbers(20_002, 2, 1),
        },
        removes(20_001, 2, 2),
        removes(30_001, 2, 2),
        Block {
            set: numbers(25_000, 1, 1),
            removed: numbers(25_000, 1, 1),
        },
    ]
}

#[test]
fn counts_of_small_stores(rt: HostRuntime) {
    check_counts(
        &rt,
        rt.alloc(),
        Shape::Row,
        4,
        few_blocks().as_slice(),
        [11, 0, 4, 7, 7, 6, 13, 15, 16, 11, 4, 2, 0].as_slice(),
    );
    check_counts(
        &rt,
        rt.alloc(),
        Shape::Row,
        7,
        few_blocks().as_slice(),
        [20, 0, 5, 10, 10, 9, 15, 17, 17, 12, 5, 4, 0].as_slice(),
    );
    check_counts(
        &rt,
        rt.alloc(),
        Shape::Row,
        8,
        few_blocks().as_slice(),
        [23, 0, 5, 10, 10, 10, 16, 17, 17, 13, 5, 3, 0].as_slice(),
    );
    check_counts(
        &rt,
        rt.alloc(),
        Shape::Row,
        13,
        few_blocks().as_slice(),
        [38, 0, 6, 12, 12, 15, 18, 20, 17, 14, 5, 3, 0].as_slice(),
    );
}

// In stores of 100 and 1,000 records: no change, one, two, nine, and hundreds; new ones between, in front and behind, one, several
// and hundreds; removed ones, one, several and hundreds; and all of these at once.
fn many_blocks() -> [Block; 16] {
    [
        sets(FIRST, 2, 0),
        sets(20_100, 2, 1),
        sets(20_008, 2, 2),
        sets(20_006, 22, 9),
        sets(20_000, 2, 300),
        sets(20_001, 2, 1),
        sets(20_011, 18, 7),
        sets(20_101, 2, 250),
        sets(19_000, 1, 1),
        sets(18_000, 1, 400),
        sets(40_000, 3, 5),
        sets(50_000, 1, 333),
        removes(20_102, 2, 1),
        removes(20_011, 18, 7),
        removes(18_100, 2, 100),
        Block {
            set: numbers(20_003, 3, 200),
            removed: numbers(20_006, 6, 90),
        },
    ]
}

#[test]
fn counts_of_a_hundred_records(rt: HostRuntime) {
    check_counts(
        &rt,
        rt.alloc(),
        Shape::Row,
        100,
        many_blocks().as_slice(),
        [
            299, 0, 9, 18, 81, 899, 302, 81, 1_002, 533, 1_234, 22, 1_003, 377, 134, 347, 782,
        ]
        .as_slice(),
    );
    check_counts(
        &rt,
        rt.alloc(),
        Shape::Commitments,
        100,
        many_blocks().as_slice(),
        [
            299, 0, 9, 18, 81, 899, 220, 160, 1_021, 387, 1_437, 514, 1_208, 150, 512, 472, 908,
        ]
        .as_slice(),
    );
}

#[test]
fn counts_of_a_thousand_records(rt: HostRuntime) {
    check_counts(
        &rt,
        rt.alloc(),
        Shape::Row,
        1_000,
        many_blocks().as_slice(),
        [
            2_999, 0, 12, 24, 108, 904, 1_002, 168, 1_008, 540, 1_278, 21, 1_006, 420, 222, 522,
            744,
        ]
        .as_slice(),
    );
    check_counts(
        &rt,
        rt.alloc(),
        Shape::Commitments,
        1_000,
        many_blocks().as_slice(),
        [
            2_999, 0, 12, 24, 108, 947, 721, 472, 1_170, 568, 1_547, 751, 1_303, 186, 701, 593, 999,
        ]
        .as_slice(),
    );
}
