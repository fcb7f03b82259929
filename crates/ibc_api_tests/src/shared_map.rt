//! A map with numbers as keys, whose copies share what is the same in both.

use ibc_maps::SharedMap;
use std::alloc::Global;
use std::process::Abort;

// A map of three keys that is settled, and one more: one key got another value, and one was removed.
fn filled(rt: &impl Abort, alloc: Global) -> SharedMap<u64, u64> {
    let mut map = SharedMap::new(alloc);
    map.reserve(5).expect(rt, "memory");
    map.set(300, 3).expect(rt, "memory");
    map.set(2, 2).expect(rt, "memory");
    map.set(41, 4).expect(rt, "memory");
    map.set(2, 20).expect(rt, "memory");
    map.remove(41).expect(rt, "memory");
    map.settle().expect(rt, "memory");
    map.set(9, 90).expect(rt, "memory");
    map
}

// Another value, a pair more, and two pairs less.
fn go_on(rt: &impl Abort, map: &mut SharedMap<u64, u64>) {
    map.set(300, 30).expect(rt, "memory");
    map.remove(9).expect(rt, "memory");
    map.set(7, 70).expect(rt, "memory");
    map.remove(2).expect(rt, "memory");
}

// Whether the map has these pairs, in this order.
fn has(rt: &impl Abort, alloc: Global, map: &SharedMap<u64, u64>, pairs: &[(u64, u64)]) -> bool {
    let mut list = Vec::new(alloc);
    for (key, value) in map.iter() {
        list.push((*key, *value)).expect(rt, "memory");
    }
    let are_same = list.as_slice() == pairs;
    drop(list);
    are_same
}

fn check_copy(
    rt: &impl Abort,
    alloc: Global,
    copy: &SharedMap<u64, u64>,
    map: &SharedMap<u64, u64>,
) {
    assert!(rt; has(rt, alloc, copy, &[(2, 20), (9, 90), (300, 3)]));
    assert!(rt; has(rt, alloc, map, &[(7, 70), (300, 30)]));
    assert!(rt; copy.get(&2) == Some(&20));
    assert!(rt; map.get(&2).is_none());
}

#[test]
fn a_copy_keeps_its_pairs(rt: HostRuntime) {
    let mut map = filled(&rt, rt.alloc());
    let copy = map.copy().expect(&rt, "memory");
    go_on(&rt, &mut map);
    check_copy(&rt, rt.alloc(), &copy, &map);
    drop(copy);
    drop(map);
}

// A map of so many keys, settled a hundred at a time.
fn counted(rt: &impl Abort, alloc: Global, keys: u64) -> SharedMap<u64, u64> {
    let mut map = SharedMap::new(alloc);
    for key in 0..keys {
        map.set(key, key).expect(rt, "memory");
        if key % 100 == 0 {
            map.settle().expect(rt, "memory");
        }
    }
    map
}

// Removes every second one of so many keys.
fn halve(rt: &impl Abort, map: &mut SharedMap<u64, u64>, keys: u64) {
    for key in 0..keys {
        if key % 2 == 0 {
            map.remove(key).expect(rt, "memory");
        }
    }
    map.settle().expect(rt, "memory");
}

// How many pairs of an odd key and itself there are.
fn odd_pairs(map: &SharedMap<u64, u64>) -> u64 {
    let mut pairs = 0u64;
    for (key, value) in map.iter() {
        if key == value && key % 2 == 1 {
            pairs = pairs.saturating_add(1);
        }
    }
    pairs
}

fn check_halved(rt: &impl Abort, copy: &SharedMap<u64, u64>, map: &SharedMap<u64, u64>) {
    assert!(rt; odd_pairs(map) == 500);
    assert!(rt; copy.get(&500) == Some(&500));
    assert!(rt; map.get(&500).is_none());
}

#[test]
fn keys_in_many_chunks(rt: HostRuntime) {
    let mut map = counted(&rt, rt.alloc(), 1_000);
    let copy = map.copy().expect(&rt, "memory");
    halve(&rt, &mut map, 1_000);
    check_halved(&rt, &copy, &map);
    drop(copy);
    drop(map);
}
