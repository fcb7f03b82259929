//! The most that a bank can hold of a denomination, by call: what is burnt in flight keeps its room until it is settled.

use ibc_bank::{Bank, Source};
use ibc_ids::{Denom, Refusal, UserName};
use std::alloc::Global;
use std::process::Abort;

// How many of a denomination a bank has room for, 2^128 - 1.
const ROOM: u128 = u128::MAX;

// One more is too many.
fn check_full(rt: &impl Abort, bank: &mut Bank, alice: &UserName, atom: &Denom) {
    assert!(rt; bank.mint(alice, atom, 1) == Err(Refusal::TooLarge));
}

// One is burnt in flight, and its room is not given away.
fn check_burn(rt: &impl Abort, bank: &mut Bank, alice: &UserName, atom: &Denom) {
    assert!(rt; bank.burn(alice, atom, 1) == Ok(()));
    assert!(rt; bank.supply(atom) == ROOM - 1);
    assert!(rt; bank.burnt(atom) == 1);
    check_full(rt, bank, alice, atom);
}

// What was burnt is refunded.
fn check_refund(rt: &impl Abort, bank: &mut Bank, alice: &UserName, atom: &Denom) {
    assert!(rt; bank.refund(alice, &Source::Burnt, atom, 1) == Ok(()));
    assert!(rt; bank.supply(atom) == ROOM);
    assert!(rt; bank.burnt(atom) == 0);
    check_full(rt, bank, alice, atom);
}

// What was burnt is settled, and then there is room for one.
fn check_settled(rt: &impl Abort, bank: &mut Bank, alice: &UserName, atom: &Denom) {
    bank.settle(atom, 1);
    assert!(rt; bank.supply(atom) == ROOM - 1);
    assert!(rt; bank.burnt(atom) == 0);
    assert!(rt; bank.mint(alice, atom, 1) == Ok(()));
    check_full(rt, bank, alice, atom);
}

// A bank in which alice holds as many as there is room for.
fn full_bank(rt: &impl Abort, alloc: Global, alice: &UserName, atom: &Denom) -> Bank {
    let mut bank = Bank::new(alloc);
    bank.mint(alice, atom, ROOM).expect(rt, "minted");
    bank
}

#[test]
fn what_is_burnt_has_its_room(rt: HostRuntime) {
    let alice = UserName::parse(rt.alloc(), "alice").expect(&rt, "a name");
    let atom = Denom::parse(rt.alloc(), "atom").expect(&rt, "a denomination");
    let mut bank = full_bank(&rt, rt.alloc(), &alice, &atom);
    check_full(&rt, &mut bank, &alice, &atom);
    check_burn(&rt, &mut bank, &alice, &atom);
    check_refund(&rt, &mut bank, &alice, &atom);
    check_burn(&rt, &mut bank, &alice, &atom);
    check_settled(&rt, &mut bank, &alice, &atom);
    drop(bank);
    drop(atom);
    drop(alice);
}
