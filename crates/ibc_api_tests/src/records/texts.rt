//! What `{:?}` writes of channels and of a chain's records: whole where it is short, and else its digest.

use super::channels::add_channel;
use super::new_records;
use super::packets::{UNORDERED, acknowledge, check_counters, commitment, packet, receive, send};
use crate::pair;
use crate::transfer::{ATOMS, empty};
use ibc_bank::Move;
use ibc_ids::{Bytes, ChannelId, Name, PortId, Refusal};
use ibc_merkle::{Steps, hash_value};
use ibc_records::{Channel, Records};
use ibc_transfer::Transfers;
use ibc_wire::{Packet, decode};
use ibc_world_core::World;
use std::alloc::Global;
use std::fmt::Debug;
use std::process::Abort;

// A new channel, and what a new chain proves.
const NEW_CHANNEL: &str = concat!(
    r#"Channel { end: ChannelEnd { state: Open, order: Unordered, "#,
    r#"peer_port: Name { text: "note", kind: PhantomData<_> }, "#,
    r#"peer_channel: Some(Name { text: "channel-0", kind: PhantomData<_> }), "#,
    r#"connection: Name { text: "connection-0", kind: PhantomData<_> }, "#,
    r#"version: Name { text: "note-1", kind: PhantomData<_> } }, "#,
    r#"next_send: 1, next_recv: 1, next_ack: 1, "#,
    r#"commitments: SharedMap { settled: None, changes: SortedMap { entries: [] }, alloc: Global }, "#,
    r#"receipts: SharedMap { settled: None, changes: SortedMap { entries: [] }, alloc: Global }, "#,
    r#"acks: SharedMap { settled: None, changes: SortedMap { entries: [] }, alloc: Global } }"#
);

const NEW_RECORDS: &str = concat!(
    r#"CoreRecords { clients: SharedMap { settled: None, changes: SortedMap { entries: [] }, alloc: Global }, "#,
    r#"connections: SharedMap { settled: None, changes: SortedMap { entries: [] }, alloc: Global }, "#,
    r#"channels: SharedMap { settled: None, changes: SortedMap { entries: [] }, alloc: Global }, "#,
    r#"next: NextNumbers { client: 0, connection: 0, channel: 0 } }"#
);

// A channel that sent two packets, received the first and had it acknowledged.
const FEW_PACKETS: &str = concat!(
    r#"Channel { end: ChannelEnd { state: Open, order: Unordered, "#,
    r#"peer_port: Name { text: "note", kind: PhantomData<_> }, "#,
    r#"peer_channel: Some(Name { text: "channel-0", kind: PhantomData<_> }), "#,
    r#"connection: Name { text: "connection-0", kind: PhantomData<_> }, "#,
    r#"version: Name { text: "note-1", kind: PhantomData<_> } }, "#,
    r#"next_send: 3, next_recv: 1, next_ack: 1, "#,
    r#"commitments: SharedMap { settled: None, changes: SortedMap { entries: [(1, None), "#,
    r#"(2, Some(Commitment { payload: Bytes { items: [104, 101, 108, 108, 111] }, "#,
    r#"timeout_height: 12, timeout_time: 0 }))] }, alloc: Global }, "#,
    r#"receipts: SharedMap { settled: None, changes: SortedMap { entries: [(1, Some(()))] }, alloc: Global }, "#,
    r#"acks: SharedMap { settled: None, changes: SortedMap { entries: [(1, Some(Bytes { items: "#,
    r#"[123, 34, 114, 101, 115, 117, 108, 116, 34, 58, 34, 65, 81, 61, 61, 34, 125] }))] }, alloc: Global } }"#
);

// The digests of what is written of a channel at which 16 changes of commitments wait, and of it once they are settled.
const WAITING: [u8; 32] = [
    0x9a, 0xbb, 0xd2, 0x3f, 0xf6, 0xf0, 0xab, 0x92, 0x43, 0xb7, 0x1f, 0xd3, 0xec, 0x64, 0x58, 0xb0,
    0xb8, 0xa1, 0xed, 0xd7, 0x2f, 0x8b, 0x47, 0x61, 0x7c, 0x4f, 0x5c, 0x04, 0x9e, 0xa9, 0x0d, 0xdc,
];

const SETTLED: [u8; 32] = [
    0xc6, 0x11, 0xff, 0x9b, 0x2c, 0xed, 0x2d, 0x41, 0x4d, 0xfe, 0xcb, 0xc5, 0xaa, 0xeb, 0xb6, 0xdc,
    0x26, 0xed, 0xa2, 0x38, 0x4d, 0xc7, 0x89, 0x77, 0x66, 0x97, 0x8d, 0xb9, 0xaf, 0x0b, 0x68, 0xb0,
];

// The digests of what is written of two chains once tokens went from the first one to the second.
const SENDER: [u8; 32] = [
    0x50, 0x37, 0x30, 0xb2, 0xe5, 0xa7, 0x9b, 0x50, 0x3b, 0x90, 0x54, 0x90, 0x8c, 0x7e, 0xf9, 0x7c,
    0x0d, 0x7e, 0x79, 0xb9, 0x37, 0x45, 0x4b, 0x6c, 0x5b, 0x7d, 0xa6, 0xe5, 0xbf, 0xdf, 0xa6, 0xfb,
];

const RECEIVER: [u8; 32] = [
    0xf6, 0xdb, 0x69, 0x57, 0x61, 0xa9, 0xa0, 0x01, 0x18, 0xb2, 0x57, 0x2e, 0xec, 0x4f, 0xb4, 0xba,
    0x19, 0xfc, 0xe7, 0x13, 0x25, 0xf1, 0xf1, 0x23, 0x63, 0x64, 0x8a, 0xbb, 0xe5, 0x20, 0xab, 0xb3,
];

// The digests of what is written of their views, with all nodes of their trees.
const SENDER_VIEW: [u8; 32] = [
    0x6e, 0xd5, 0x65, 0x1b, 0xc9, 0x74, 0xee, 0xaf, 0xab, 0xe1, 0xfe, 0xff, 0xdc, 0x8c, 0x29, 0xb3,
    0xc4, 0xd1, 0x5e, 0xfe, 0x9b, 0x9f, 0xe0, 0xb8, 0x24, 0x91, 0x9e, 0x88, 0x13, 0xfe, 0xf7, 0x45,
];

const RECEIVER_VIEW: [u8; 32] = [
    0x0b, 0xa7, 0x86, 0xe5, 0x28, 0x2e, 0xf6, 0x55, 0x52, 0xae, 0x3e, 0x3e, 0xef, 0x08, 0xad, 0x02,
    0xc2, 0x23, 0x33, 0xca, 0x71, 0xd2, 0x19, 0xfa, 0x0a, 0x92, 0x01, 0x19, 0x2c, 0x04, 0x4b, 0x31,
];

// What is written of a value.
fn written<T: Debug>(rt: &impl Abort, alloc: Global, value: &T) -> String {
    format!(in alloc; "{value:?}").expect(rt, "memory")
}

// This is written of a value.
fn check_text<T: Debug>(rt: &impl Abort, alloc: Global, value: &T, due: &str) {
    let text = written(rt, alloc, value);
    assert_eq!(rt; text.as_str(), due);
    drop(text);
}

// What is written of a value has this digest.
fn check_digest<T: Debug>(rt: &impl Abort, alloc: Global, value: &T, due: &[u8; 32]) {
    let text = written(rt, alloc, value);
    let digest = hash_value(text.as_bytes(), &mut Steps::new());
    assert_eq!(rt; digest, *due, "{text}");
    drop(text);
}

// A new channel.
fn new_channel(rt: &impl Abort, alloc: Global) -> Channel {
    let end = decode(alloc, UNORDERED).expect(rt, "an end");
    Channel::new(alloc, end)
}

#[test]
fn a_new_channel_is_written(rt: HostRuntime) {
    let channel = new_channel(&rt, rt.alloc());
    check_text(&rt, rt.alloc(), &channel, NEW_CHANNEL);
    drop(channel);
}

// The channel of the records.
fn channel<'r>(rt: &impl Abort, alloc: Global, records: &'r Records) -> &'r Channel {
    let port = PortId::parse(alloc, "note").expect(rt, "a name");
    let id = ChannelId::parse(alloc, "channel-0").expect(rt, "a name");
    let found = records.channel(&port, &id).expect(rt, "memory");
    drop(id);
    drop(port);
    found.expect(rt, "a channel")
}

// The channel comes, sends the packet twice, receives it, and has it acknowledged.
fn relay(rt: &impl Abort, alloc: Global, records: &mut Records, packet: &Packet) {
    add_channel(rt, alloc, records, UNORDERED);
    send(rt, alloc, records, packet);
    send(rt, alloc, records, packet);
    receive(rt, alloc, records, packet);
    acknowledge(rt, alloc, records, packet);
}

// The packet with data of tokens.
fn token_packet(rt: &impl Abort, alloc: Global) -> Packet {
    let mut packet = packet(rt, alloc);
    packet.payload = Bytes::copy_of(alloc, ATOMS).expect(rt, "memory");
    packet
}

// The bill of tokens that nobody has.
fn bill(rt: &impl Abort, alloc: Global) -> Vec<Move> {
    let burning = Move::Burn {
        user: Name::parse(alloc, "alice").expect(rt, "a name"),
        denom: Name::parse(alloc, "atom").expect(rt, "a denomination"),
        amount: 1,
    };
    vec![in alloc; burning].expect(rt, "memory")
}

// A payer that holds nothing refuses the bill of a packet.
fn refuse_bill(
    rt: &impl Abort,
    alloc: Global,
    records: &mut Records,
    payer: &mut Transfers,
    packet: &Packet,
) {
    let port = &packet.source_port;
    let channel = &packet.source_channel;
    let bill = bill(rt, alloc);
    check_counters(records, port, channel).expect(rt, "a channel");
    let sent = records.send_paid(payer, &bill, port, channel, commitment(rt, alloc));
    drop(bill);
    assert!(rt; sent == Err(Refusal::Poor));
}

// An application that holds nothing refuses to give the tokens of the packet back.
fn refuse_refunds(rt: &impl Abort, records: &mut Records, app: &mut Transfers, packet: &Packet) {
    let port = &packet.source_port;
    let channel = &packet.source_channel;
    check_counters(records, port, channel).expect(rt, "a channel");
    let acknowledged = records.acknowledge(app, packet, br#"{"error":"no"}"#);
    assert!(rt; acknowledged == Err(Refusal::Poor));
    check_counters(records, port, channel).expect(rt, "a channel");
    let late = records.time_out(app, packet);
    assert!(rt; late == Err(Refusal::Poor));
}

// The calls that are refused.
fn refuse(rt: &impl Abort, alloc: Global, records: &mut Records, packet: &Packet) {
    let mut app = empty(rt, alloc);
    refuse_bill(rt, alloc, records, &mut app, packet);
    refuse_refunds(rt, records, &mut app, packet);
    drop(app);
}

// The copy of a channel is written so.
fn check_copy(rt: &impl Abort, alloc: Global, channel: &Channel, due: &str) {
    let copy = channel.clone().expect(rt, "memory");
    check_text(rt, alloc, &copy, due);
    drop(copy);
}

// A channel with few packets is written the same before a block's end, behind it and behind calls that are refused.
fn check_few(rt: &impl Abort, alloc: Global, records: &mut Records, packet: &Packet) {
    relay(rt, alloc, records, packet);
    check_text(rt, alloc, channel(rt, alloc, records), FEW_PACKETS);
    refuse(rt, alloc, records, packet);
    check_text(rt, alloc, channel(rt, alloc, records), FEW_PACKETS);
    records.commit(100).expect(rt, "a height");
    check_text(rt, alloc, channel(rt, alloc, records), FEW_PACKETS);
    refuse(rt, alloc, records, packet);
    check_text(rt, alloc, channel(rt, alloc, records), FEW_PACKETS);
    check_copy(rt, alloc, channel(rt, alloc, records), FEW_PACKETS);
}

#[test]
fn a_channel_with_packets_is_written(rt: HostRuntime) {
    let mut records = new_records(&rt, rt.alloc());
    let packet = token_packet(&rt, rt.alloc());
    check_few(&rt, rt.alloc(), &mut records, &packet);
    drop(packet);
    drop(records);
}

// Where many changes wait, the next call settles them first, also where it is refused.
fn check_many(rt: &impl Abort, alloc: Global, records: &mut Records, packet: &Packet) {
    relay(rt, alloc, records, packet);
    for _ in 0..14 {
        send(rt, alloc, records, packet);
    }
    records.commit(100).expect(rt, "a height");
    check_digest(rt, alloc, channel(rt, alloc, records), &WAITING);
    refuse(rt, alloc, records, packet);
    check_digest(rt, alloc, channel(rt, alloc, records), &SETTLED);
}

#[test]
fn a_channel_with_many_packets_is_written(rt: HostRuntime) {
    let mut records = new_records(&rt, rt.alloc());
    let packet = token_packet(&rt, rt.alloc());
    check_many(&rt, rt.alloc(), &mut records, &packet);
    drop(packet);
    drop(records);
}

// What new records prove is written so.
fn check_new(rt: &impl Abort, alloc: Global, records: &Records) {
    let last = records.last().expect(rt, "memory");
    check_text(rt, alloc, &*last, NEW_RECORDS);
    drop(last);
}

#[test]
fn new_records_are_written(rt: HostRuntime) {
    let records = new_records(&rt, rt.alloc());
    check_new(&rt, rt.alloc(), &records);
    drop(records);
}

// What a chain proves at its last height is written with these digests: its records in plain, and the whole view with its tree.
fn check_chain(rt: &impl Abort, alloc: Global, world: &World, chain: u8, due: [&[u8; 32]; 2]) {
    let ledger = world.ledger(chain).expect(rt, "a chain");
    let view = ledger.view().expect(rt, "memory");
    check_digest(rt, alloc, view.plain(), due[0]);
    check_digest(rt, alloc, &view, due[1]);
    drop(view);
}

// Tokens go from the first chain to the second, with all the proofs that this takes.
fn relay_tokens(rt: &impl Abort, alloc: Global, world: &mut World) {
    pair::transfer(rt, alloc, world, 0, "alice", "atom", "carol");
    pair::receive(rt, alloc, world, 0);
    pair::acknowledge(rt, alloc, world, 0, r#"{"result":"AQ=="}"#);
    pair::transfer(rt, alloc, world, 0, "alice", "atom", "carol");
    pair::publish(rt, alloc, world, 0);
}

#[test]
fn records_whose_proofs_were_checked_are_written(rt: HostRuntime) {
    let mut world = pair::open(&rt, rt.alloc());
    relay_tokens(&rt, rt.alloc(), &mut world);
    check_chain(&rt, rt.alloc(), &world, 0, [&SENDER, &SENDER_VIEW]);
    check_chain(&rt, rt.alloc(), &world, 1, [&RECEIVER, &RECEIVER_VIEW]);
    drop(world);
}
