//! Blocks, and clients that learn of heights.

use super::{has, new_records};
use crate::genesis::GENESIS_ROOT;
use ibc_ids::{ClientId, Root};
use ibc_records::{ConsensusState, NextNumbers, Records, check_number};
use ibc_wire::ClientState;
use std::alloc::Global;
use std::process::Abort;

fn check_blocks(rt: &impl Abort, records: &mut Records) {
    let root = records.commit(100).expect(rt, "a height");
    records.commit(101).expect(rt, "a height");
    assert!(rt; root.bytes() == &GENESIS_ROOT);
    assert!(rt; records.height() == 2);
    assert!(rt; records.time() == 101);
}

#[test]
fn blocks_follow(rt: HostRuntime) {
    let mut records = new_records(&rt, rt.alloc());
    check_blocks(&rt, &mut records);
    drop(records);
}

// What the client is told of a height.
fn known() -> ConsensusState {
    ConsensusState {
        root: Root::from_bytes([7; 32]),
        time: 105,
    }
}

// Adds a client of chain 1.
fn add_client(rt: &impl Abort, records: &mut Records, id: &ClientId) {
    let id = id.clone().expect(rt, "memory");
    check_number(records.next_client()).expect(rt, "a number");
    records.add_client(id, 1).expect(rt, "memory");
}

// Tells the client of a height.
fn tell(rt: &impl Abort, records: &mut Records, id: &ClientId, height: u64) {
    records
        .update_client(id, height, known())
        .expect(rt, "memory");
}

// Whether the client tracks chain 1 up to height 3, and knows of height 2 and not of 1.
fn has_learned(records: &Records, id: &ClientId) -> bool {
    let state = ClientState {
        chain: 1,
        latest: 3,
    };
    match records.client(id) {
        Some(client) => client.state() == state
            && client.consensus_state(1).is_none()
            && client.consensus_state(2) == Some(known()),
        None => false,
    }
}

fn check_client(rt: &impl Abort, records: &mut Records, id: &ClientId) {
    add_client(rt, records, id);
    tell(rt, records, id, 3);
    tell(rt, records, id, 2);
    assert!(rt; has_learned(records, id));
    assert!(rt; records.next_client() == 1);
}

#[test]
fn clients_come_and_learn(rt: HostRuntime) {
    let mut records = new_records(&rt, rt.alloc());
    let id = ClientId::parse(rt.alloc(), "inprocess-0").expect(&rt, "a name");
    check_client(&rt, &mut records, &id);
    drop(id);
    drop(records);
}

// Records that don't begin at 0.
fn counting_on(rt: &impl Abort, alloc: Global) -> Records {
    let next = NextNumbers {
        client: 7,
        connection: u64::MAX,
        channel: 256,
    };
    Records::counting_from(alloc, 2, 100, next).expect(rt, "memory")
}

fn check_counters(rt: &impl Abort, records: &Records) {
    assert!(rt; records.next_client() == 7);
    assert!(rt; records.next_connection() == u64::MAX);
    assert!(rt; records.next_channel() == 256);
    assert!(rt; has(records, "nextChannelSequence", &[0, 0, 0, 0, 0, 0, 1, 0]));
}

#[test]
fn counters_begin_anywhere(rt: HostRuntime) {
    let records = counting_on(&rt, rt.alloc());
    check_counters(&rt, &records);
    drop(records);
}
