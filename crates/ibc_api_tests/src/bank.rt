//! A bank, by call.

use ibc_bank::{Bank, Move, Source};
use ibc_ids::{Account, ChannelId, Denom, Refusal, UserName};
use std::alloc::Global;
use std::process::Abort;

fn alice(rt: &impl Abort, alloc: Global) -> UserName {
    UserName::parse(alloc, "alice").expect(rt, "a name")
}

fn atom(rt: &impl Abort, alloc: Global) -> Denom {
    Denom::parse(alloc, "atom").expect(rt, "a denomination")
}

// Of 10 tokens 4 go into an escrow, and 1 comes out of it.
fn lock(rt: &impl Abort, bank: &mut Bank, alice: &UserName, channel: &ChannelId, atom: &Denom) {
    bank.mint(alice, atom, 10).expect(rt, "minted");
    bank.escrow(alice, channel, atom, 4).expect(rt, "locked");
    bank.release(channel, alice, atom, 1).expect(rt, "released");
}

// Of 3 tokens that are burnt in flight 1 is refunded, and 1 is settled.
fn send(rt: &impl Abort, bank: &mut Bank, alice: &UserName, atom: &Denom) {
    bank.burn(alice, atom, 3).expect(rt, "burnt");
    bank.refund(alice, &Source::Burnt, atom, 1)
        .expect(rt, "refunded");
    bank.settle(atom, 1);
}

// Whether these are the amounts of two holdings.
fn are_amounts(list: &[(Account, Denom, u128)], first: u128, second: u128) -> bool {
    match list {
        [one, other] => one.2 == first && other.2 == second,
        _ => false,
    }
}

// Whether the amounts in the list of balances are these.
fn has_amounts(rt: &impl Abort, alloc: Global, bank: &Bank, first: u128, second: u128) -> bool {
    let list = bank.list(alloc).expect(rt, "memory");
    let are_amounts = are_amounts(list.as_slice(), first, second);
    drop(list);
    are_amounts
}

fn check_moves(rt: &impl Abort, bank: &mut Bank, alice: &UserName, atom: &Denom) {
    send(rt, bank, alice, atom);
    assert!(rt; bank.supply(atom) == 8);
    assert!(rt; bank.burnt(atom) == 1);
}

#[test]
fn each_move_once(rt: HostRuntime) {
    let alice = alice(&rt, rt.alloc());
    let atom = atom(&rt, rt.alloc());
    let channel = ChannelId::parse(rt.alloc(), "channel-0").expect(&rt, "a name");
    let mut bank = Bank::new(rt.alloc());
    lock(&rt, &mut bank, &alice, &channel, &atom);
    drop(channel);
    check_moves(&rt, &mut bank, &alice, &atom);
    drop(atom);
    drop(alice);
    let has_amounts = has_amounts(&rt, rt.alloc(), &bank, 5, 3);
    drop(bank);
    assert!(rt; has_amounts);
}

// The move that burns so much of what alice has.
fn burning(rt: &impl Abort, alloc: Global, amount: u128) -> Move {
    Move::Burn {
        user: alice(rt, alloc),
        denom: atom(rt, alloc),
        amount,
    }
}

// This is answered by a check and then to the moves, and so much is left.
fn check_answers(
    rt: &impl Abort,
    bank: &mut Bank,
    moves: &[Move],
    atom: &Denom,
    due: Result<(), Refusal>,
    left: u128,
) {
    assert!(rt; bank.check(moves) == due);
    assert!(rt; bank.apply_all(moves) == due);
    assert!(rt; bank.supply(atom) == left);
}

// What is answered where so much is burnt of 10 tokens, and how much is left.
fn burn(rt: &impl Abort, alloc: Global, amount: u128, due: Result<(), Refusal>, left: u128) {
    let alice = alice(rt, alloc);
    let atom = atom(rt, alloc);
    let mut bank = Bank::new(alloc);
    bank.mint(&alice, &atom, 10).expect(rt, "minted");
    drop(alice);
    let moves = [burning(rt, alloc, amount)];
    check_answers(rt, &mut bank, &moves, &atom, due, left);
    drop(moves);
    drop(bank);
    drop(atom);
}

#[test]
fn all_moves_or_none(rt: HostRuntime) {
    burn(&rt, rt.alloc(), 9, Ok(()), 1);
    burn(&rt, rt.alloc(), 11, Err(Refusal::Poor), 10);
}
