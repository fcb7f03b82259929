//! Names, identifiers, keys and refusals.

use ibc_ids::{
    ChannelId, ChannelKind, ClientId, ClientKind, ConnectionId, ConnectionKind, Denom, DenomKind,
    Key, MemoKind, Name, NameKind, PortId, PortKind, ReceiverKind, Refusal, UserKind, VersionKind,
    nth_channel, nth_client, nth_connection,
};
use std::alloc::Global;
use std::process::Abort;

// Whether this is a name with this text.
fn has_text<K: NameKind>(name: &Result<Name<K>, Refusal>, text: &str) -> bool {
    matches!(name, Ok(name) if name.as_str() == text)
}

// Whether the text is a name of the kind.
fn is_name<K: NameKind>(alloc: Global, text: &str) -> bool {
    has_text(&Name::<K>::from_bytes(alloc, text.as_bytes()), text)
}

#[test]
fn one_name_of_each_kind(rt: HostRuntime) {
    let alloc = rt.alloc();
    assert!(rt; is_name::<PortKind>(alloc, "transfer"));
    assert!(rt; is_name::<ClientKind>(alloc, "inprocess-0"));
    assert!(rt; is_name::<ConnectionKind>(alloc, "connection-0"));
    assert!(rt; is_name::<ChannelKind>(alloc, "channel-0"));
    assert!(rt; is_name::<UserKind>(alloc, "alice"));
    assert!(rt; is_name::<ReceiverKind>(alloc, "escrow/transfer/channel-0"));
    assert!(rt; is_name::<MemoKind>(alloc, ""));
    assert!(rt; is_name::<VersionKind>(alloc, "ics20-1"));
    assert!(rt; is_name::<DenomKind>(alloc, "transfer/channel-0/atom"));
}

#[test]
fn texts_that_are_no_denominations(rt: HostRuntime) {
    for text in [
        "",
        "at-om",
        "transfer/atom",
        "t/channel-0/atom",
        "transfer/channel/atom",
        "transfer/channel-0/",
    ] {
        assert!(rt; !is_name::<DenomKind>(rt.alloc(), text), "at {text}");
    }
}

// Whether one name is before another.
fn is_before(rt: &impl Abort, alloc: Global, one: &str, other: &str) -> bool {
    let one = ChannelId::parse(alloc, one).expect(rt, "a name");
    let other = ChannelId::parse(alloc, other).expect(rt, "a name");
    let is_before = one < other;
    drop(one);
    drop(other);
    is_before
}

#[test]
fn names_are_compared_as_texts(rt: HostRuntime) {
    assert!(rt; is_before(&rt, rt.alloc(), "channel-10", "channel-9"));
}

#[test]
fn the_identifiers_that_a_chain_gives(rt: HostRuntime) {
    let alloc = rt.alloc();
    assert!(rt; has_text(&nth_client(alloc, 0), "inprocess-0"));
    let last = "connection-18446744073709551615";
    assert!(rt; has_text(&nth_connection(alloc, u64::MAX), last));
    assert!(rt; has_text(&nth_channel(alloc, 12), "channel-12"));
}

// Whether the key has this path.
fn has_path(alloc: Global, key: &Key, path: &str) -> bool {
    matches!(key.path(alloc), Ok(text) if text.as_str() == path)
}

// Whether a key of a client has this path.
fn is_of_client(alloc: Global, path: &str) -> Result<bool, Refusal> {
    let key = Key::ClientState(ClientId::parse(alloc, "inprocess-0")?);
    let has_path = has_path(alloc, &key, path);
    drop(key);
    Ok(has_path)
}

// Whether a key of a connection has this path.
fn is_of_connection(alloc: Global, path: &str) -> Result<bool, Refusal> {
    let key = Key::Connection(ConnectionId::parse(alloc, "connection-0")?);
    let has_path = has_path(alloc, &key, path);
    drop(key);
    Ok(has_path)
}

#[test]
fn paths_of_clients_and_connections(rt: HostRuntime) {
    let alloc = rt.alloc();
    assert!(rt; is_of_client(alloc, "clients/inprocess-0/clientState") == Ok(true));
    assert!(rt; is_of_connection(alloc, "connections/connection-0") == Ok(true));
    assert!(rt; has_path(alloc, &Key::NextClientSequence, "nextClientSequence"));
    assert!(rt;
        has_path(
            alloc,
            &Key::NextConnectionSequence,
            "nextConnectionSequence"
        )
    );
    assert!(rt; has_path(alloc, &Key::NextChannelSequence, "nextChannelSequence"));
}

// A kind of a channel's records.
#[derive(Clone, Copy)]
enum Record {
    End,
    Send,
    Recv,
    Ack,
    Commitment,
    Receipt,
    Acknowledgement,
}

// The key of a record of a channel, or of its first packet.
fn key_of(record: Record, port: PortId, channel: ChannelId) -> Key {
    match record {
        Record::End => Key::ChannelEnd(port, channel),
        Record::Send => Key::NextSequenceSend(port, channel),
        Record::Recv => Key::NextSequenceRecv(port, channel),
        Record::Ack => Key::NextSequenceAck(port, channel),
        Record::Commitment => Key::Commitment(port, channel, 1),
        Record::Receipt => Key::Receipt(port, channel, 1),
        Record::Acknowledgement => Key::Acknowledgement(port, channel, 1),
    }
}

// Whether the record has this path.
fn is_at(rt: &impl Abort, alloc: Global, record: Record, path: &str) -> bool {
    let port = PortId::parse(alloc, "transfer").expect(rt, "a name");
    let channel = ChannelId::parse(alloc, "channel-0").expect(rt, "a name");
    let key = key_of(record, port, channel);
    let has_path = has_path(alloc, &key, path);
    drop(key);
    has_path
}

#[test]
fn paths_of_channels(rt: HostRuntime) {
    for (record, path) in [
        (Record::End, "channelEnds/ports/transfer/channels/channel-0"),
        (
            Record::Send,
            "nextSequenceSend/ports/transfer/channels/channel-0",
        ),
        (
            Record::Recv,
            "nextSequenceRecv/ports/transfer/channels/channel-0",
        ),
        (
            Record::Ack,
            "nextSequenceAck/ports/transfer/channels/channel-0",
        ),
        (
            Record::Commitment,
            "commitments/ports/transfer/channels/channel-0/sequences/1",
        ),
        (
            Record::Receipt,
            "receipts/ports/transfer/channels/channel-0/sequences/1",
        ),
        (
            Record::Acknowledgement,
            "acks/ports/transfer/channels/channel-0/sequences/1",
        ),
    ] {
        assert!(rt; is_at(&rt, rt.alloc(), record, path), "at {path}");
    }
}

// Whether the key that is read from the path has it.
fn is_read(alloc: Global, path: &str) -> Result<bool, Refusal> {
    let key = Key::parse(alloc, path)?;
    let has_path = has_path(alloc, &key, path);
    drop(key);
    Ok(has_path)
}

#[test]
fn paths_that_are_read(rt: HostRuntime) {
    for path in [
        "nextChannelSequence",
        "clients/inprocess-0/clientState",
        "connections/connection-0",
        "channelEnds/ports/transfer/channels/channel-0",
        "receipts/ports/note/channels/channel-0/sequences/0",
        "receipts/ports/note/channels/channel-0/sequences/18446744073709551615",
    ] {
        assert!(rt; is_read(rt.alloc(), path) == Ok(true), "at {path}");
    }
}

#[test]
fn texts_that_are_no_paths(rt: HostRuntime) {
    for text in [
        "",
        "nextSequence",
        "connections/",
        "connections/connection-0/",
        "clients/inprocess-0",
        "clients/inprocess-0/consensusState",
        "channelEnds/ports/n/channels/channel-0",
        "channelEnds/ports/note/channel/channel-0",
        "channelEnds/ports/note/channels/channel-0/sequences/1",
        "acks/ports/note/channels/channel-0",
        "acks/ports/note/channels/channel-0/sequences/01",
        "acks/ports/note/channels/channel-0/sequences/+1",
        "acks/ports/note/channels/channel-0/sequences/1/",
        "acks/ports/note/channels/channel-0/sequences/18446744073709551616",
    ] {
        assert!(rt;
            is_read(rt.alloc(), text) == Err(Refusal::BadName),
            "at {text}"
        );
    }
}

// The size of the denomination with one more hop over a channel.
fn hopped_size(rt: &impl Abort, alloc: Global, denom: &str) -> Result<usize, Refusal> {
    let port = PortId::parse(alloc, "transfer").expect(rt, "a name");
    let channel = ChannelId::parse(alloc, "channel-0").expect(rt, "a name");
    let denom = Denom::parse(alloc, denom).expect(rt, "a denomination");
    let hopped = denom.hop(alloc, &port, &channel);
    drop(denom);
    drop(channel);
    drop(port);
    Ok(size_of(hopped?))
}

// How many bytes a denomination has.
fn size_of(denom: Denom) -> usize {
    let size = denom.as_str().len();
    drop(denom);
    size
}

// A denomination that came over thirteen channels. It has 251 bytes.
const THIRTEEN: &str =
    "transfer/channel-0/transfer/channel-0/transfer/channel-0/transfer/channel-0/transfer/channel-0/transfer/channel-0/transfer/channel-0/transfer/channel-0/transfer/channel-0/transfer/channel-0/transfer/channel-0/transfer/channel-0/transfer/channel-0/atom";

#[test]
fn denominations_with_hops(rt: HostRuntime) {
    assert!(rt; hopped_size(&rt, rt.alloc(), &THIRTEEN[19..]) == Ok(251));
    assert!(rt; hopped_size(&rt, rt.alloc(), THIRTEEN) == Err(Refusal::TooLarge));
}

#[test]
fn numbers_of_refusals(rt: HostRuntime) {
    assert!(rt; Refusal::NoMemory.number() == 1);
    assert!(rt; Refusal::BadProof.number() == 12);
    assert!(rt; Refusal::BadMessage.number() == 30);
    assert!(rt; Refusal::Pruned.number() == 31);
}

// Whether the refusal is printed so.
fn is_printed(alloc: Global, refusal: Refusal, words: &str) -> bool {
    matches!(format!(in alloc; "{refusal}"), Ok(text) if text.as_str() == words)
}

#[test]
fn words_of_refusals(rt: HostRuntime) {
    assert!(rt; is_printed(rt.alloc(), Refusal::NoConsensus, "no consensus state"));
}
