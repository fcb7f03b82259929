//! Channels that come and open.

use super::{has, new_records};
use ibc_ids::{ChannelId, PortId, nth_channel};
use ibc_records::{Records, check_number};
use ibc_wire::decode;
use std::alloc::Global;
use std::process::Abort;

pub const END: &str = "channelEnds/ports/note/channels/channel-0";

// An ORDERED end that is begun, and one that is open to itself, as they are spelled.
const BEGUN: &[u8] = b"\x01\x02\0\x04note\0\0\0\x0cconnection-0\0\x06note-1";

const OPEN: &[u8] = b"\x03\x02\0\x04note\0\x09channel-0\0\x0cconnection-0\0\x06note-1";

const ONE: &[u8] = &[0, 0, 0, 0, 0, 0, 0, 1];

// Adds a channel of port `note` with this end.
pub fn add_channel(rt: &impl Abort, alloc: Global, records: &mut Records, end: &[u8]) {
    check_number(records.next_channel()).expect(rt, "a number");
    let port = PortId::parse(alloc, "note").expect(rt, "a name");
    let id = nth_channel(alloc, records.next_channel()).expect(rt, "a name");
    let end = decode(alloc, end).expect(rt, "an end");
    records.add_channel(port, id, end).expect(rt, "memory");
}

// Gives the channel this end.
fn set_end(rt: &impl Abort, alloc: Global, records: &mut Records, end: &[u8]) {
    let port = PortId::parse(alloc, "note").expect(rt, "a name");
    let id = ChannelId::parse(alloc, "channel-0").expect(rt, "a name");
    let end = decode(alloc, end).expect(rt, "an end");
    records.set_channel_end(port, id, end).expect(rt, "memory");
}

fn check_channel(rt: &impl Abort, alloc: Global, records: &mut Records) {
    add_channel(rt, alloc, records, BEGUN);
    assert!(rt; has(records, END, BEGUN));
    set_end(rt, alloc, records, OPEN);
    assert!(rt; has(records, END, OPEN));
    assert!(rt;
        has(
            records,
            "nextSequenceSend/ports/note/channels/channel-0",
            ONE
        )
    );
    assert!(rt;
        has(
            records,
            "nextSequenceRecv/ports/note/channels/channel-0",
            ONE
        )
    );
    assert!(rt;
        has(
            records,
            "nextSequenceAck/ports/note/channels/channel-0",
            ONE
        )
    );
    assert!(rt; has(records, "nextChannelSequence", ONE));
}

#[test]
fn channels_come_and_open(rt: HostRuntime) {
    let mut records = new_records(&rt, rt.alloc());
    check_channel(&rt, rt.alloc(), &mut records);
    drop(records);
}
