//! Packets of a channel that leads to itself, and what stands at their paths.

ghost use Rattle.std.specs.Prelude.{◌-◌, ◌^◌, ◌<◌, OnOk};
ghost use Rattle.std.specs.Option.{IsSomeAnd};
ghost use Rattle.ibc_machine.specs.chain.Records.{channel_at};
ghost use Rattle.ibc_records.specs.RecordsModel.{core_of};

use super::channels::{END, add_channel};
use super::{has, new_records};
use ibc_ids::{Bytes, ChannelId, PortId, Refusal};
use ibc_note::Notes;
use ibc_records::{Commitment, Records, check_number};
use ibc_wire::{Packet, decode};
use std::alloc::Global;
use std::process::Abort;

// The channel with `hello` in packet 1 to itself, which is late at height 12, as they are spelled.
const ORDERED: &[u8] = b"\x03\x02\0\x04note\0\x09channel-0\0\x0cconnection-0\0\x06note-1";

const CLOSED: &[u8] = b"\x04\x02\0\x04note\0\x09channel-0\0\x0cconnection-0\0\x06note-1";

/// The end of a channel whose packets come in any order.
pub const UNORDERED: &[u8] = b"\x03\x01\0\x04note\0\x09channel-0\0\x0cconnection-0\0\x06note-1";

const PACKET: &[u8] =
    b"\0\0\0\0\0\0\0\x01\0\0\0\0\0\0\0\x0c\0\0\0\0\0\0\0\0\0\x04note\0\x09channel-0\0\x04note\0\x09channel-0\0\x05hello";

// The hash of 24 bytes and the SHA-256 of the payload, worked out apart from this code.
const COMMITMENT: [u8; 32] = [
    0xb5, 0x42, 0xe5, 0x89, 0xa8, 0x09, 0xc2, 0x04, 0xef, 0x68, 0x38, 0x99, 0x0d, 0xf5, 0x64, 0xdd,
    0xe3, 0xf2, 0xaa, 0x7b, 0xee, 0x34, 0x2f, 0xab, 0x3d, 0x3f, 0x9a, 0xf1, 0x76, 0x48, 0xa5, 0x0d,
];

// The SHA-256 of `{"result":"AQ=="}`.
const ACK: [u8; 32] = [
    0x08, 0xf7, 0x55, 0x7e, 0xd5, 0x18, 0x26, 0xfe, 0x18, 0xd8, 0x45, 0x12, 0xbf, 0x24, 0xec, 0x75,
    0x00, 0x1e, 0xdb, 0xaf, 0x21, 0x23, 0xa4, 0x77, 0xdf, 0x72, 0xa0, 0xa9, 0xf3, 0x64, 0x0a, 0x7c,
];

/// The channel is there, and its counters may be counted on.
pub fn check_counters(records: &Records, port: &PortId, id: &ChannelId) -> Result<(), Refusal>
    ensures send { OnOk result (IsSomeAnd (channel_at (core_of records.now) port.now id.now) (λ mine. mine.next_send < 2 ^ 64 - 1)) }
    ensures recv { OnOk result (IsSomeAnd (channel_at (core_of records.now) port.now id.now) (λ mine. mine.next_recv < 2 ^ 64 - 1)) }
    ensures ack { OnOk result (IsSomeAnd (channel_at (core_of records.now) port.now id.now) (λ mine. mine.next_ack < 2 ^ 64 - 1)) }
{
    let Some(mine) = records.channel(port, id)? else {
        return Err(Refusal::UnknownChannel);
    };
    check_number(mine.next_send())?;
    check_number(mine.next_recv())?;
    check_number(mine.next_ack())
}

/// What is committed of the packet.
pub fn commitment(rt: &impl Abort, alloc: Global) -> Commitment {
    Commitment {
        payload: Bytes::copy_of(alloc, b"hello").expect(rt, "memory"),
        timeout_height: 12,
        timeout_time: 0,
    }
}

/// The channel sends the packet.
pub fn send(rt: &impl Abort, alloc: Global, records: &mut Records, packet: &Packet) {
    let port = &packet.source_port;
    let channel = &packet.source_channel;
    check_counters(records, port, channel).expect(rt, "a channel");
    records
        .send(port, channel, commitment(rt, alloc))
        .expect(rt, "sent");
}

/// The channel receives the packet.
pub fn receive(rt: &impl Abort, alloc: Global, records: &mut Records, packet: &Packet) {
    let mut notes = Notes::new(alloc);
    let port = &packet.destination_port;
    let channel = &packet.destination_channel;
    check_counters(records, port, channel).expect(rt, "a channel");
    let ack = records.receive(&mut notes, packet).expect(rt, "received");
    drop(ack);
    drop(notes);
}

/// The packet is acknowledged.
pub fn acknowledge(rt: &impl Abort, alloc: Global, records: &mut Records, packet: &Packet) {
    let mut notes = Notes::new(alloc);
    let port = &packet.source_port;
    let channel = &packet.source_channel;
    check_counters(records, port, channel).expect(rt, "a channel");
    records
        .acknowledge(&mut notes, packet, br#"{"result":"AQ=="}"#)
        .expect(rt, "acknowledged");
    drop(notes);
}

// The packet is too late.
fn time_out(rt: &impl Abort, alloc: Global, records: &mut Records, packet: &Packet) {
    let mut notes = Notes::new(alloc);
    let port = &packet.source_port;
    let channel = &packet.source_channel;
    check_counters(records, port, channel).expect(rt, "a channel");
    records.time_out(&mut notes, packet).expect(rt, "late");
    drop(notes);
}

// What stands of packet 1: its commitment, its acknowledgement and its receipt.
fn values(records: &Records) -> [bool; 3] {
    [
        has(
            records,
            "commitments/ports/note/channels/channel-0/sequences/1",
            &COMMITMENT,
        ),
        has(
            records,
            "acks/ports/note/channels/channel-0/sequences/1",
            &ACK,
        ),
        has(
            records,
            "receipts/ports/note/channels/channel-0/sequences/1",
            &[1],
        ),
    ]
}

// Whether the sequences of sending, receiving and acknowledging are 2.
fn counters(records: &Records) -> [bool; 3] {
    let two = [0, 0, 0, 0, 0, 0, 0, 2];
    [
        has(
            records,
            "nextSequenceSend/ports/note/channels/channel-0",
            &two,
        ),
        has(
            records,
            "nextSequenceRecv/ports/note/channels/channel-0",
            &two,
        ),
        has(
            records,
            "nextSequenceAck/ports/note/channels/channel-0",
            &two,
        ),
    ]
}

/// The packet.
pub fn packet(rt: &impl Abort, alloc: Global) -> Packet {
    decode(alloc, PACKET).expect(rt, "a packet")
}

// What stands of the packet once it is received and acknowledged, and whether the sequences of sending, receiving and
// acknowledging are 2.
type Due = [[bool; 3]; 3];

const IN_ORDER: Due = [
    [true, true, false],
    [false, true, false],
    [true, true, true],
];

const IN_ANY_ORDER: Due = [
    [true, true, true],
    [false, true, true],
    [true, false, false],
];

// The packet of a channel that comes with this end is sent, received and acknowledged.
fn relay(
    rt: &impl Abort,
    alloc: Global,
    records: &mut Records,
    packet: &Packet,
    end: &[u8],
    due: &Due,
) {
    add_channel(rt, alloc, records, end);
    send(rt, alloc, records, packet);
    assert!(rt; values(records) == [true, false, false]);
    receive(rt, alloc, records, packet);
    assert!(rt; values(records) == due[0]);
    acknowledge(rt, alloc, records, packet);
    assert!(rt; values(records) == due[1]);
    assert!(rt; counters(records) == due[2]);
}

// The same in new records.
fn relay_over(rt: &impl Abort, alloc: Global, end: &[u8], due: &Due) {
    let mut records = new_records(rt, alloc);
    let packet = packet(rt, alloc);
    relay(rt, alloc, &mut records, &packet, end, due);
    drop(packet);
    drop(records);
}

#[test]
fn packets_in_order(rt: HostRuntime) {
    relay_over(&rt, rt.alloc(), ORDERED, &IN_ORDER);
}

#[test]
fn packets_in_any_order(rt: HostRuntime) {
    relay_over(&rt, rt.alloc(), UNORDERED, &IN_ANY_ORDER);
}

// The packet of a channel that comes with the first end is too late: its commitment is gone, and the channel's end is then
// the second one.
fn be_late(
    rt: &impl Abort,
    alloc: Global,
    records: &mut Records,
    packet: &Packet,
    before: &[u8],
    after: &[u8],
) {
    add_channel(rt, alloc, records, before);
    send(rt, alloc, records, packet);
    time_out(rt, alloc, records, packet);
    assert!(rt; !values(records)[0]);
    assert!(rt; has(records, END, after));
}

// The same in new records.
fn late_over(rt: &impl Abort, alloc: Global, before: &[u8], after: &[u8]) {
    let mut records = new_records(rt, alloc);
    let packet = packet(rt, alloc);
    be_late(rt, alloc, &mut records, &packet, before, after);
    drop(packet);
    drop(records);
}

#[test]
fn a_late_packet_closes_what_is_ordered(rt: HostRuntime) {
    late_over(&rt, rt.alloc(), ORDERED, CLOSED);
    late_over(&rt, rt.alloc(), UNORDERED, UNORDERED);
}
