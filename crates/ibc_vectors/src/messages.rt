//! Messages beside their spellings.

use crate::records::{NINE, tokens_of};
use ibc_ids::{Bytes, ChannelId, Name, Refusal};
use ibc_message_codec::{decode, encode};
use ibc_wire::{Message, SendNote, Token, Transfer, TransferMany};
use std::alloc::Global;
use std::process::Abort;

// What a message of each kind is spelled as, by its tag.
fn spelled(tag: u8) -> &'static [u8] {
    match tag {
        1 => b"\x01\x01".as_slice(),
        2 =>
            b"\x02\0\x0binprocess-0\x01\0\0\0\0\0\0\0\x05\0\0\0\0\0\0\0dABCDEFGHIJKLMNOPQRSTUVWXYZ[\\]^_`".as_slice(),
        3 => b"\x03\0\x0binprocess-0\0\x0binprocess-1".as_slice(),
        4 =>
            b"\x04\0\x0binprocess-0\0\x0binprocess-1\0\x0cconnection-7\0\0\0\0\0\0\0\0\x07\0\0\0\0\0\0\0\x04\0\x03end\0\x06client".as_slice(),
        5 =>
            b"\x05\0\x0cconnection-7\0\x0cconnection-8\x01\0\0\0\0\0\0\0\x07\0\0\0\0\0\0\0\x04\0\0\0\x06client".as_slice(),
        6 => b"\x06\0\x0cconnection-7\0\0\0\0\0\0\0\x04\0\x05proof".as_slice(),
        7 => b"\x07\0\x08transfer\x01\0\x0cconnection-7\0\x04note\0\x07ics20-1".as_slice(),
        8 =>
            b"\x08\0\x04note\x02\0\x0cconnection-7\0\x04note\0\x0achannel-12\0\x06note-1\0\0\0\0\0\0\0\x03\0\x05proof".as_slice(),
        9 =>
            b"\x09\0\x08transfer\0\x0achannel-12\0\x09channel-3\0\0\0\0\0\0\0\x03\0\x05proof".as_slice(),
        10 => b"\x0a\0\x08transfer\0\x0achannel-12\0\0\0\0\0\0\0\x03\0\x05proof".as_slice(),
        11 => b"\x0b\0\x04note\0\x0achannel-12".as_slice(),
        12 => b"\x0c\0\x04note\0\x0achannel-12\0\0\0\0\0\0\0\x03\0\x05proof".as_slice(),
        13 =>
            b"\x0d\0\x0achannel-12\0\x05alice\0\x17transfer/channel-0/atom\0\0\0\0\0\0\0\0\0\0\0\0\0\0\0d\0\x03bob\0\0\0\0\0\0\0\0\0\0\0\0\0\0\0\0\0\xc8".as_slice(),
        14 => b"\x0e\0\x0achannel-12\0\x02n1\0\0\0\0\0\0\0\x05\0\0\0\0\0\0\0\0".as_slice(),
        15 =>
            b"\x0f\0\0\0\0\0\0\0\x03\0\0\0\0\0\0\x03\xe8\0\0\0\0\0\0\0\0\0\x08transfer\0\x0achannel-12\0\x04note\0\x09channel-3\0\x02n1\0\0\0\0\0\0\0\x04\0\x05proof".as_slice(),
        16 =>
            b"\x10\0\0\0\0\0\0\0\x03\0\0\0\0\0\0\x03\xe8\0\0\0\0\0\0\0\0\0\x08transfer\0\x0achannel-12\0\x04note\0\x09channel-3\0\x02n1\0\x11{\"result\":\"AQ==\"}\0\0\0\0\0\0\0\x04\0\x05proof".as_slice(),
        17 =>
            b"\x11\0\0\0\0\0\0\0\x03\0\0\0\0\0\0\x03\xe8\0\0\0\0\0\0\0\0\0\x08transfer\0\x0achannel-12\0\x04note\0\x09channel-3\0\x02n1\0\0\0\0\0\0\0\x02\0\0\0\0\0\0\0\x04\0\x05proof".as_slice(),
        18 =>
            b"\x12\0\0\0\0\0\0\0\x03\0\0\0\0\0\0\x03\xe8\0\0\0\0\0\0\0\0\0\x08transfer\0\x0achannel-12\0\x04note\0\x09channel-3\0\x02n1\0\0\0\0\0\0\0\0\0\0\0\0\0\0\0\x04\0\x05proof\0\x05close".as_slice(),
        19 =>
            b"\x13\0\x0achannel-12\0\x05alice\x02\0\x04atom\xff\xff\xff\xff\xff\xff\xff\xff\xff\xff\xff\xff\xff\xff\xff\xff\0\x04gold\0\0\0\0\0\0\0\0\0\0\0\0\0\0\0\x01\0\x03bob\0\x05hello\0\0\0\0\0\0\0\x09\xff\xff\xff\xff\xff\xff\xff\xff".as_slice(),
        _ => b"".as_slice(),
    }
}

// Whether the bytes are a message's one spelling.
fn is_spelled_so(alloc: Global, bytes: &[u8]) -> Result<bool, Refusal> {
    let message = decode(alloc, bytes)?;
    let spelled = encode(alloc, &message);
    drop(message);
    Ok(spelled?.as_slice() == bytes)
}

#[test]
fn a_message_of_each_kind(rt: HostRuntime) {
    for tag in 1..20 {
        assert!(rt;
            is_spelled_so(rt.alloc(), spelled(tag)) == Ok(true),
            "at {tag}"
        );
    }
}

// How many of the bytes are the first message that they begin with, or none.
fn first_size(alloc: Global, bytes: &[u8]) -> Option<usize> {
    for count in 0..=bytes.len() {
        if is_spelled_so(alloc, &bytes[..count]) != Err(Refusal::BadMessage) {
            return Some(count);
        }
    }
    None
}

#[test]
fn no_byte_may_miss(rt: HostRuntime) {
    for tag in 1..20 {
        let bytes = spelled(tag);
        assert!(rt;
            first_size(rt.alloc(), bytes) == Some(bytes.len()),
            "at {tag}"
        );
    }
}

// What a note of the greatest size is spelled as.
fn greatest_note(alloc: Global) -> Result<Vec<u8>, Refusal> {
    let mut bytes = b"\x0e\0\x0achannel-12\xff\xff".to_vec(alloc)?;
    for _ in 0..65_535 {
        bytes.push(b'n')?;
    }
    bytes.extend_from_slice(b"\0\0\0\0\0\0\0\x05\0\0\0\0\0\0\0\0")?;
    Ok(bytes)
}

// Whether these bytes are a message's one spelling.
fn are_spelled_so(alloc: Global, bytes: Result<Vec<u8>, Refusal>) -> Result<bool, Refusal> {
    is_spelled_so(alloc, bytes?.as_slice())
}

#[test]
fn the_longest_note(rt: HostRuntime) {
    assert!(rt; are_spelled_so(rt.alloc(), greatest_note(rt.alloc())) == Ok(true));
}

// Sends a note over a channel, with no timeout.
fn sending(channel: ChannelId, payload: Vec<u8>) -> Message {
    Message::SendNote(SendNote {
        channel,
        payload: Bytes::from_vec(payload),
        timeout_height: 0,
        timeout_time: 0,
    })
}

// How long the spelling is of a message that sends a note of so many bytes.
fn length_of_a_note(alloc: Global, length: u32) -> Result<usize, Refusal> {
    let mut payload = Vec::new(alloc);
    for _ in 0..length {
        payload.push(b'n')?;
    }
    let message = sending(Name::parse(alloc, "channel-12")?, payload);
    let spelled = encode(alloc, &message);
    drop(message);
    Ok(spelled?.len())
}

#[test]
fn a_note_that_is_too_long(rt: HostRuntime) {
    assert!(rt; length_of_a_note(rt.alloc(), 65_535) == Ok(65_566));
    assert!(rt; length_of_a_note(rt.alloc(), 65_536) == Err(Refusal::BadMessage));
}

// Whether the names in the transfer are those of the vector.
fn are_its_names(transfer: &Transfer) -> bool {
    transfer.channel.as_str() == "channel-12"
        && transfer.user.as_str() == "alice"
        && transfer.denom.as_str() == "transfer/channel-0/atom"
        && transfer.receiver.as_str() == "bob"
        && transfer.memo.as_str() == ""
}

// Whether the numbers in the transfer are those of the vector.
fn are_its_numbers(transfer: &Transfer) -> bool {
    transfer.amount == 100 && transfer.timeout_height == 0 && transfer.timeout_time == 200
}

// The worked message of several tokens: 100 atom and 7 gold go from alice to bob.
const WORKED: &[u8] =
    b"\x13\0\x09channel-0\0\x05alice\x02\0\x04atom\0\0\0\0\0\0\0\0\0\0\0\0\0\0\0d\0\x04gold\0\0\0\0\0\0\0\0\0\0\0\0\0\0\0\x07\0\x03bob\0\0\0\0\0\0\0\0\x03\xe8\0\0\0\0\0\0\0\0";

// Whether the names in the message of several tokens are those of the worked one.
fn are_worked_names(transfer: &TransferMany) -> bool {
    transfer.channel.as_str() == "channel-0"
        && transfer.user.as_str() == "alice"
        && transfer.receiver.as_str() == "bob"
        && transfer.memo.as_str() == ""
}

// Whether the numbers in the message of several tokens are those of the worked one.
fn are_worked_numbers(transfer: &TransferMany) -> bool {
    transfer.tokens.as_slice().len() == 2
        && transfer.timeout_height == 1_000
        && transfer.timeout_time == 0
}

// Whether the place has so much of the denomination.
fn holds(tokens: &[Token], place: usize, denom: &str, amount: u128) -> bool {
    match tokens.get(place) {
        Some(token) => token.denom.as_str() == denom && token.amount == amount,
        None => false,
    }
}

// Whether the tokens are those of the worked message.
fn are_worked_tokens(tokens: &[Token]) -> bool {
    holds(tokens, 0, "atom", 100) && holds(tokens, 1, "gold", 7)
}

// Whether the message has the fields of the vector or of the worked message.
fn has_its_fields(message: &Message) -> bool {
    match message {
        Message::Transfer(transfer) => are_its_names(transfer) && are_its_numbers(transfer),
        Message::TransferMany(transfer) => are_worked_names(transfer)
            && are_worked_numbers(transfer)
            && are_worked_tokens(transfer.tokens.as_slice()),
        _ => false,
    }
}

// Whether the bytes spell a message with these fields.
fn spell_its_fields(alloc: Global, bytes: &[u8]) -> Result<bool, Refusal> {
    let message = decode(alloc, bytes)?;
    let has_its_fields = has_its_fields(&message);
    drop(message);
    Ok(has_its_fields)
}

#[test]
fn fields_of_transfers(rt: HostRuntime) {
    assert!(rt; spell_its_fields(rt.alloc(), spelled(13)) == Ok(true));
    assert!(rt; spell_its_fields(rt.alloc(), WORKED) == Ok(true));
}

// The message of several tokens by which alice sends these to bob.
fn worked_message(rt: &impl Abort, alloc: Global, amounts: &[(&str, u128)]) -> Message {
    Message::TransferMany(TransferMany {
        channel: Name::parse(alloc, "channel-0").expect(rt, "a name"),
        user: Name::parse(alloc, "alice").expect(rt, "a name"),
        tokens: tokens_of(alloc, amounts).expect(rt, "memory"),
        receiver: Name::parse(alloc, "bob").expect(rt, "a name"),
        memo: Name::parse(alloc, "").expect(rt, "a memo"),
        timeout_height: 1_000,
        timeout_time: 0,
    })
}

// Whether the worked message with these tokens is spelled so.
fn is_worked(
    rt: &impl Abort,
    alloc: Global,
    amounts: &[(&str, u128)],
    bytes: &[u8],
) -> Result<bool, Refusal> {
    let message = worked_message(rt, alloc, amounts);
    let spelled = encode(alloc, &message);
    drop(message);
    Ok(spelled?.as_slice() == bytes)
}

const GOLD_BEFORE_ATOM: &[u8] =
    b"\x13\0\x09channel-0\0\x05alice\x02\0\x04gold\0\0\0\0\0\0\0\0\0\0\0\0\0\0\0\x07\0\x04atom\0\0\0\0\0\0\0\0\0\0\0\0\0\0\0d\0\x03bob\0\0\0\0\0\0\0\0\x03\xe8\0\0\0\0\0\0\0\0";

// One of each of nine denominations.
const NINE_TOKENS: &[u8] =
    b"\x13\0\x09channel-0\0\x05alice\x09\0\x01a\0\0\0\0\0\0\0\0\0\0\0\0\0\0\0\x01\0\x01b\0\0\0\0\0\0\0\0\0\0\0\0\0\0\0\x01\0\x01c\0\0\0\0\0\0\0\0\0\0\0\0\0\0\0\x01\0\x01d\0\0\0\0\0\0\0\0\0\0\0\0\0\0\0\x01\0\x01e\0\0\0\0\0\0\0\0\0\0\0\0\0\0\0\x01\0\x01f\0\0\0\0\0\0\0\0\0\0\0\0\0\0\0\x01\0\x01g\0\0\0\0\0\0\0\0\0\0\0\0\0\0\0\x01\0\x01h\0\0\0\0\0\0\0\0\0\0\0\0\0\0\0\x01\0\x01i\0\0\0\0\0\0\0\0\0\0\0\0\0\0\0\x01\0\x03bob\0\0\0\0\0\0\0\0\x03\xe8\0\0\0\0\0\0\0\0";

const IN_ORDER: [(&str, u128); 2] = [("atom", 100), ("gold", 7)];

const OUT_OF_ORDER: [(&str, u128); 2] = [("gold", 7), ("atom", 100)];

#[test]
fn several_tokens_in_a_message(rt: HostRuntime) {
    assert!(rt; is_worked(&rt, rt.alloc(), &IN_ORDER, WORKED) == Ok(true));
}

// What a message with these tokens answers to its writing, and the bytes of one to their reading.
fn answers(
    rt: &impl Abort,
    alloc: Global,
    amounts: &[(&str, u128)],
    bytes: &[u8],
) -> [Result<bool, Refusal>; 2] {
    [
        is_worked(rt, alloc, amounts, bytes),
        is_spelled_so(alloc, bytes),
    ]
}

#[test]
fn tokens_out_of_order_or_too_many(rt: HostRuntime) {
    let bad = [Err(Refusal::BadMessage); 2];
    assert!(rt; answers(&rt, rt.alloc(), &OUT_OF_ORDER, GOLD_BEFORE_ATOM) == bad);
    assert!(rt; answers(&rt, rt.alloc(), &NINE, NINE_TOKENS) == bad);
}
