//! A map with numbers as keys.

use ibc_maps::SortedMap;
use std::alloc::Global;
use std::process::Abort;

// A map of three keys, of which one got another value twice.
fn filled(rt: &impl Abort, alloc: Global) -> SortedMap<u64, u64> {
    let mut map = SortedMap::new(alloc);
    map.reserve(3).expect(rt, "memory");
    map.set(300, 3).expect(rt, "memory");
    map.set(2, 2).expect(rt, "memory");
    map.set(41, 4).expect(rt, "memory");
    map.set(2, 20).expect(rt, "memory");
    if let Some(value) = map.get_mut(&300) {
        *value = 30;
    }
    map
}

fn check_order(rt: &impl Abort, map: &mut SortedMap<u64, u64>) {
    assert!(rt; map.entries() == [(2, 20), (41, 4), (300, 30)].as_slice());
    assert!(rt; map.remove(&41) == Some(4));
    assert!(rt; map.remove(&41).is_none());
    assert!(rt; map.get(&300) == Some(&30));
    assert!(rt; map.len() == 2);
}

#[test]
fn numbers_in_their_order(rt: HostRuntime) {
    let mut map = filled(&rt, rt.alloc());
    check_order(&rt, &mut map);
    drop(map);
}

fn check_copy(rt: &impl Abort, copy: &SortedMap<u64, u64>) {
    assert!(rt; copy.entries() == [(2, 20), (41, 4), (300, 30)].as_slice());
}

#[test]
fn a_copy_is_a_map_of_its_own(rt: HostRuntime) {
    let mut map = filled(&rt, rt.alloc());
    let copy = map.copy().expect(&rt, "memory");
    let _removed = map.remove(&41);
    check_copy(&rt, &copy);
    drop(copy);
    drop(map);
}
