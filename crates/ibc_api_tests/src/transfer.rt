//! Packets of tokens that are taken or not, and refunds of what was never sent.

use ibc_ids::{Account, Bytes, Denom, Name, Refusal, Version};
use ibc_machine::ChainStart;
use ibc_records::App;
use ibc_transfer::Transfers;
use ibc_wire::{Packet, decode};
use std::alloc::Global;
use std::process::Abort;

// A packet of port `transfer` from `channel-7` to `channel-0` without data, as it is spelled.
const PACKET: &[u8] =
    b"\0\0\0\0\0\0\0\x01\0\0\0\0\0\0\0\0\0\0\0\0\0\0\0\x07\0\x08transfer\0\x09channel-7\0\x08transfer\0\x09channel-0\0\0";

/// 100 of `atom` come to bob.
pub const ATOMS: &[u8] = br#"{"amount":"100","denom":"atom","receiver":"bob","sender":"alice"}"#;

const NO_USER: &[u8] = br#"{"amount":"100","denom":"atom","receiver":"b-b","sender":"alice"}"#;

const NO_DATA: &[u8] = br#"{"amount":"0","denom":"atom","receiver":"bob","sender":"alice"}"#;

// 1 of what went over `channel-7` from here, where nothing went.
const HOME: &[u8] =
    br#"{"amount":"1","denom":"transfer/channel-7/gold","receiver":"bob","sender":"alice"}"#;

// The packet with this data.
fn packet(rt: &impl Abort, alloc: Global, payload: &[u8]) -> Packet {
    let mut packet: Packet = decode(alloc, PACKET).expect(rt, "a packet");
    packet.payload = Bytes::copy_of(alloc, payload).expect(rt, "memory");
    packet
}

fn version(rt: &impl Abort, alloc: Global) -> Version {
    Name::parse(alloc, "ics20-1").expect(rt, "a version")
}

/// An application that holds nothing.
pub fn empty(rt: &impl Abort, alloc: Global) -> Transfers {
    let start = ChainStart {
        time: 100,
        balances: Vec::new(alloc),
    };
    let app = Transfers::from_start(alloc, &start).expect(rt, "memory");
    drop(start);
    app
}

// Whether the packet with this data is acknowledged so.
fn is_acked<A: App>(
    rt: &impl Abort,
    alloc: Global,
    app: &mut A,
    payload: &[u8],
    due: &[u8],
) -> bool {
    let version = version(rt, alloc);
    let packet = packet(rt, alloc, payload);
    let ack = app.on_recv(&version, &packet).expect(rt, "memory");
    drop(packet);
    drop(version);
    let is_due = ack.as_slice() == due;
    drop(ack);
    is_due
}

// What bob has of `atom` with a hop over `channel-0`.
fn atoms_of_bob(rt: &impl Abort, alloc: Global, app: &Transfers) -> u128 {
    let denom: Denom = Name::parse(alloc, "transfer/channel-0/atom").expect(rt, "a denomination");
    let bob = Account::User(Name::parse(alloc, "bob").expect(rt, "a name"));
    let atoms = app.bank().balance(&bob, &denom);
    drop(bob);
    drop(denom);
    atoms
}

fn check_taken(rt: &impl Abort, alloc: Global, app: &mut Transfers) {
    assert!(rt; is_acked(rt, alloc, app, ATOMS, br#"{"result":"AQ=="}"#));
    assert!(rt; is_acked(rt, alloc, app, NO_USER, br#"{"error":"bad receiver"}"#));
    assert!(rt; is_acked(rt, alloc, app, NO_DATA, br#"{"error":"bad data"}"#));
    assert!(rt; is_acked(rt, alloc, app, HOME, br#"{"error":"over limit"}"#));
    assert!(rt; atoms_of_bob(rt, alloc, app) == 100);
}

#[test]
fn tokens_are_taken_or_not(rt: HostRuntime) {
    let mut app = empty(&rt, rt.alloc());
    check_taken(&rt, rt.alloc(), &mut app);
    drop(app);
}

// A packet that was never sent isn't refunded where it is acknowledged as a failure, or late.
fn check_refused<A: App>(rt: &impl Abort, app: &mut A, version: &Version, packet: &Packet) {
    let poor = Err(Refusal::Poor);
    assert!(rt; app.on_ack(version, packet, br#"{"error":"no"}"#) == poor);
    assert!(rt; app.on_timeout(version, packet) == poor);
}

#[test]
fn what_was_not_sent_is_not_refunded(rt: HostRuntime) {
    let version = version(&rt, rt.alloc());
    let packet = packet(&rt, rt.alloc(), ATOMS);
    let mut app = empty(&rt, rt.alloc());
    check_refused(&rt, &mut app, &version, &packet);
    drop(app);
    drop(packet);
    drop(version);
}
