//! The bytes of entries beside bytes that were written down by hand.

use ibc_entry_codec::{EntryBytes, restore, store};
use ibc_ids::{Bytes, Name, NameKind, Refusal, Root};
use ibc_machine::{Effect, Entry, Event, Reading, Reply};
use ibc_wire::{CreateClient, Message};
use std::alloc::Global;
use std::process::Abort;

fn name<K: NameKind>(rt: &impl Abort, alloc: Global, text: &str) -> Name<K> {
    Name::parse(alloc, text).expect(rt, "a name")
}

fn bytes(rt: &impl Abort, alloc: Global, bytes: &[u8]) -> Bytes {
    Bytes::copy_of(alloc, bytes).expect(rt, "memory")
}

// The end of chain 3's block, after which the next begins at time 258, with this answer.
fn block_answered(reply: Reply, reading: Option<Reading>) -> Entry {
    Entry {
        event: Event::Block {
            chain: 3,
            next_time: 258,
        },
        reply,
        reading,
    }
}

// What is kept of such an entry, whose answer has these bytes.
fn kept(rt: &impl Abort, alloc: Global, answer: &[u8]) -> EntryBytes {
    EntryBytes {
        chain: 3,
        kind: 0,
        event: bytes(rt, alloc, &[0, 0, 0, 0, 0, 0, 1, 2]),
        answer: bytes(rt, alloc, answer),
    }
}

// An entry is kept so, and given back so.
fn assert_kept(rt: &impl Abort, alloc: Global, entry: Entry, wanted: EntryBytes) {
    let stored = store(alloc, &entry).ok().expect(rt, "an entry in its form");
    assert!(rt; stored == wanted);
    let back = restore(alloc, &stored).ok().expect(rt, "an entry");
    assert!(rt; back.reply == entry.reply);
    assert!(rt; back.reading == entry.reading);
    drop(back);
    drop(entry);
    drop(stored);
    drop(wanted);
}

// A reply with no reading has these bytes.
fn assert_reply(rt: &impl Abort, alloc: Global, reply: Reply, answer: &[u8]) {
    let wanted = kept(rt, alloc, answer);
    assert_kept(rt, alloc, block_answered(reply, None), wanted);
}

// A refusal with this reading has these bytes.
fn assert_reading(rt: &impl Abort, alloc: Global, seen: Reading, answer: &[u8]) {
    let wanted = kept(rt, alloc, answer);
    let entry = block_answered(Reply::No(Refusal::Pruned), Some(seen));
    assert_kept(rt, alloc, entry, wanted);
}

#[test]
fn replies_have_these_bytes(rt: HostRuntime) {
    let alloc = rt.alloc();
    assert_reply(&rt, alloc, Reply::Ok(Effect::None), &[1, 1, 0]);
    assert_reply(&rt, alloc, Reply::No(Refusal::BadName), &[2, 2, 0]);
    assert_reply(&rt, alloc, Reply::No(Refusal::Pruned), &[2, 31, 0]);
    let sent = Reply::Ok(Effect::Sent(7));
    assert_reply(&rt, alloc, sent, &[1, 5, 0, 0, 0, 0, 0, 0, 0, 7, 0]);
    let written = Reply::Ok(Effect::Ack(bytes(&rt, alloc, b"{}")));
    assert_reply(&rt, alloc, written, b"\x01\x06\x00\x02{}\x00");
}

#[test]
fn identifiers_and_roots_have_these_bytes(rt: HostRuntime) {
    let alloc = rt.alloc();
    let client = Reply::Ok(Effect::Client(name(&rt, alloc, "inprocess-0")));
    assert_reply(&rt, alloc, client, b"\x01\x02\x00\x0binprocess-0\x00");
    let connection = Reply::Ok(Effect::Connection(name(&rt, alloc, "connection-0")));
    assert_reply(&rt, alloc, connection, b"\x01\x03\x00\x0cconnection-0\x00");
    let channel = Reply::Ok(Effect::Channel(name(&rt, alloc, "channel-0")));
    assert_reply(&rt, alloc, channel, b"\x01\x04\x00\x09channel-0\x00");
    let block = Reply::Ok(Effect::Block(1, Root::from_bytes([b'r'; 32])));
    assert_reply(
        &rt,
        alloc,
        block,
        b"\x01\x07\x00\x00\x00\x00\x00\x00\x00\x01rrrrrrrrrrrrrrrrrrrrrrrrrrrrrrrr\x00",
    );
}

#[test]
fn what_was_read_has_these_bytes(rt: HostRuntime) {
    let alloc = rt.alloc();
    let unpublished = Reading {
        published: 5,
        row_was_there: None,
    };
    assert_reading(
        &rt,
        alloc,
        unpublished,
        &[2, 31, 1, 0, 0, 0, 0, 0, 0, 0, 5, 0],
    );
    let gone = Reading {
        published: 5,
        row_was_there: Some(false),
    };
    assert_reading(&rt, alloc, gone, &[2, 31, 1, 0, 0, 0, 0, 0, 0, 0, 5, 1]);
    let there = Reading {
        published: 5,
        row_was_there: Some(true),
    };
    assert_reading(&rt, alloc, there, &[2, 31, 1, 0, 0, 0, 0, 0, 0, 0, 5, 2]);
}

#[test]
fn a_message_is_its_bytes(rt: HostRuntime) {
    let alloc = rt.alloc();
    let entry = Entry {
        event: Event::Message {
            chain: 2,
            message: Message::CreateClient(CreateClient { chain: 6 }),
        },
        reply: Reply::Ok(Effect::None),
        reading: None,
    };
    let wanted = EntryBytes {
        chain: 2,
        kind: 1,
        event: bytes(&rt, alloc, &[1, 6]),
        answer: bytes(&rt, alloc, &[1, 1, 0]),
    };
    assert_kept(&rt, alloc, entry, wanted);
}

// Bytes of which no entry is kept.
fn assert_nothing(rt: &impl Abort, alloc: Global, kind: u8, event: &[u8], answer: &[u8]) {
    let stored = EntryBytes {
        chain: 0,
        kind,
        event: bytes(rt, alloc, event),
        answer: bytes(rt, alloc, answer),
    };
    match restore(alloc, &stored) {
        Ok(entry) => {
            drop(entry);
            panic!(rt; "no entry is kept so")
        }
        Err(refusal) => assert!(rt; refusal == Refusal::BadMessage),
    }
    drop(stored);
}

#[test]
fn bytes_that_are_of_no_entry_are_refused(rt: HostRuntime) {
    let alloc = rt.alloc();
    let time = [0u8; 8];
    assert_nothing(&rt, alloc, 0, &time, &[]);
    assert_nothing(&rt, alloc, 0, &time, &[1, 1]);
    assert_nothing(&rt, alloc, 0, &time, &[1, 1, 0, 0]);
    assert_nothing(&rt, alloc, 0, &time, &[1, 8, 0]);
    assert_nothing(&rt, alloc, 0, &time, &[2, 0, 0]);
    assert_nothing(&rt, alloc, 0, &time, &[2, 32, 0]);
    assert_nothing(&rt, alloc, 0, &time, &[3, 1, 0]);
    assert_nothing(&rt, alloc, 0, &time, &[1, 1, 1, 0, 0, 0, 0, 0, 0, 0, 5, 3]);
    assert_nothing(&rt, alloc, 0, &time[1..], &[1, 1, 0]);
    assert_nothing(&rt, alloc, 2, &time, &[1, 1, 0]);
    assert_nothing(&rt, alloc, 1, &[], &[1, 1, 0]);
    assert_nothing(&rt, alloc, 1, &[0], &[1, 1, 0]);
}
