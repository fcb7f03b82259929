//! Names on both sides of the 30 bytes up to which a text stands in the value itself.

use crate::pair::name;
use ibc_ids::Memo;
use std::alloc::Global;
use std::cmp::Ordering;
use std::process::Abort;

// Texts that rise, of 0, 29, 30, 31 and 31 bytes.
const RISING: [&str; 5] = [
    "",
    "abcdefghijklmnopqrstuvwxyz012",
    "abcdefghijklmnopqrstuvwxyz0123",
    "abcdefghijklmnopqrstuvwxyz01234",
    "abcdefghijklmnopqrstuvwxyz0123z",
];

// A name and its copy show the text, and the copy is written for a reader as fields.
fn check_shown(rt: &impl Abort, alloc: Global, text: &str) {
    let memo: Memo = name(rt, alloc, text);
    let copy = memo.clone().expect(rt, "memory");
    assert!(rt; memo.as_str() == text && copy.as_str() == text && memo == copy);
    drop(memo);
    check_written(rt, alloc, &copy, text);
    drop(copy);
}

// A name is written for a reader as fields.
fn check_written(rt: &impl Abort, alloc: Global, memo: &Memo, text: &str) {
    let written = format!(in alloc; "{memo:?}").expect(rt, "memory");
    let fields = format!(in alloc; "Name {{ text: \"{text}\", kind: PhantomData<_> }}").expect(
        rt, "memory",
    );
    assert!(rt; written == fields);
    drop(written);
    drop(fields);
}

// Two names are in the order of their texts.
fn check_order(rt: &impl Abort, alloc: Global, less: &str, more: &str) {
    let low: Memo = name(rt, alloc, less);
    let high: Memo = name(rt, alloc, more);
    assert!(rt; low.cmp(&high) == Ordering::Less && high.cmp(&low) == Ordering::Greater);
    assert!(rt; low != high);
    drop(low);
    drop(high);
}

#[test]
fn names_of_any_length_show_their_texts(rt: HostRuntime) {
    for text in RISING {
        check_shown(&rt, rt.alloc(), text);
    }
}

#[test]
fn names_of_any_length_are_in_the_order_of_their_texts(rt: HostRuntime) {
    for i in 1..RISING.len() {
        check_order(&rt, rt.alloc(), RISING[i - 1], RISING[i]);
    }
}
