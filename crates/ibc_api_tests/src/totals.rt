//! What a channel's tokens come to, while 100 of them go to the other chain and home again.

use crate::pair::{acknowledge, channel, name, open, receive, transfer};
use ibc_ids::{Denom, Refusal};
use ibc_world_core::{World, balanced_totals, totals_of_ledgers};
use std::alloc::Global;
use std::process::Abort;

// The acknowledgement of tokens that were taken.
const TAKEN: &str = r#"{"result":"AQ=="}"#;

const VOUCHER: &str = "transfer/channel-0/atom";

// The escrow, the vouchers, and what is under way there and back, that the channel of chain 0 has of `atom`.
fn totals(rt: &impl Abort, alloc: Global, world: &World) -> [u128; 4] {
    let channel = channel(rt, alloc);
    let atom: Denom = name(rt, alloc, "atom");
    let totals = balanced_totals(world, 0, &channel, &atom).expect(rt, "totals");
    drop(atom);
    drop(channel);
    [totals.escrow, totals.vouchers, totals.out, totals.back]
}

// Why a channel of a chain has no totals of a denomination, or none.
fn refusal(
    rt: &impl Abort,
    alloc: Global,
    world: &World,
    chain: u8,
    denom: &str,
) -> Option<Refusal> {
    let channel = channel(rt, alloc);
    let denom: Denom = name(rt, alloc, denom);
    let refusal = world.totals(chain, &channel, &denom).err();
    drop(denom);
    drop(channel);
    refusal
}

// Before tokens go to chain 1, under way, when they came, and when chain 0 was told.
fn check_out(rt: &impl Abort, alloc: Global, world: &mut World) {
    assert!(rt; totals(rt, alloc, world) == [0, 0, 0, 0]);
    transfer(rt, alloc, world, 0, "alice", "atom", "bob");
    assert!(rt; totals(rt, alloc, world) == [100, 0, 100, 0]);
    receive(rt, alloc, world, 0);
    assert!(rt; totals(rt, alloc, world) == [100, 100, 0, 0]);
    acknowledge(rt, alloc, world, 0, TAKEN);
    assert!(rt; totals(rt, alloc, world) == [100, 100, 0, 0]);
}

// While they go home: under way, and when they came.
fn check_home(rt: &impl Abort, alloc: Global, world: &mut World) {
    transfer(rt, alloc, world, 1, "bob", VOUCHER, "alice");
    assert!(rt; totals(rt, alloc, world) == [100, 0, 0, 100]);
    receive(rt, alloc, world, 1);
    assert!(rt; totals(rt, alloc, world) == [0, 0, 0, 0]);
}

#[test]
fn an_escrow_is_its_vouchers_and_what_is_under_way(rt: HostRuntime) {
    let mut world = open(&rt, rt.alloc());
    check_out(&rt, rt.alloc(), &mut world);
    check_home(&rt, rt.alloc(), &mut world);
    drop(world);
}

// Of a voucher where it came, of chain 2, and of what goes out from chain 0.
fn check_refusals(rt: &impl Abort, alloc: Global, world: &World) {
    assert!(rt; refusal(rt, alloc, world, 1, VOUCHER) == Some(Refusal::BadMessage));
    assert!(rt; refusal(rt, alloc, world, 2, "atom") == Some(Refusal::UnknownChain));
    assert!(rt; refusal(rt, alloc, world, 0, "atom").is_none());
}

// What the ledgers of the two ends tell is what their world tells, and chain 0 is not its own peer.
fn check_ledgers(rt: &impl Abort, alloc: Global, world: &World) {
    let channel = channel(rt, alloc);
    let atom: Denom = name(rt, alloc, "atom");
    let here = world.ledger(0).expect(rt, "chain 0");
    let there = world.ledger(1).expect(rt, "chain 1");
    let told = totals_of_ledgers(alloc, here, there, &channel, &atom);
    assert!(rt; told == world.totals(0, &channel, &atom));
    let other = totals_of_ledgers(alloc, here, here, &channel, &atom);
    assert!(rt; other.err() == Some(Refusal::WrongPeer));
    drop(atom);
    drop(channel);
}

#[test]
fn totals_are_of_denominations_that_went_out(rt: HostRuntime) {
    let world = open(&rt, rt.alloc());
    check_refusals(&rt, rt.alloc(), &world);
    check_ledgers(&rt, rt.alloc(), &world);
    drop(world);
}
