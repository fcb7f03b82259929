//! Records, headers and tokens beside their spellings.

use ibc_ids::{Denom, Refusal};
use ibc_wire::{
    ChannelEnd, ClientState, ConnectionEnd, Header, Packet, Token, Tokens, Wire, decode, encode,
};
use std::alloc::{AllocError, Global};

// Whether the bytes spell a value, and the value is spelled so.
fn is_spelled_so<T: Wire + Drop>(alloc: Global, bytes: &[u8]) -> Result<bool, Refusal> {
    let value: T = decode(alloc, bytes)?;
    let spelled = encode(alloc, &value);
    drop(value);
    Ok(spelled?.as_slice() == bytes)
}

fn is_no_value<T: Wire + Drop>(alloc: Global, bytes: &[u8]) -> bool {
    let read: Result<T, Refusal> = decode(alloc, bytes);
    let is_bad = matches!(&read, Err(Refusal::BadMessage));
    drop(read);
    is_bad
}

const CLIENT: [u8; 10] = [1, 0, 0, 0, 0, 0, 0, 0, 5, 0];

#[test]
fn a_client_of_chain_1_that_knows_height_5(rt: HostRuntime) {
    let read: Result<ClientState, Refusal> = decode(rt.alloc(), &CLIENT[..9]);
    assert!(rt; matches!(read, Ok(client) if client.chain == 1 && client.latest == 5));
    assert!(rt; is_spelled_so::<ClientState>(rt.alloc(), &CLIENT[..9]) == Ok(true));
}

#[test]
fn a_client_with_a_byte_more_or_missing(rt: HostRuntime) {
    for count in 0..11 {
        assert!(rt; is_no_value::<ClientState>(rt.alloc(), &CLIENT[..count]) != (count == 9));
    }
}

// A connection that was begun.
const CONNECTION: &[u8] = b"\x01\0\x0binprocess-0\0\x0binprocess-0\0\0\0\x011";

// Whether the bytes are a connection of this client that knows no peer.
fn is_begun(alloc: Global, bytes: &[u8], client: &str) -> Result<bool, Refusal> {
    let end: ConnectionEnd = decode(alloc, bytes)?;
    let is_begun = end.client.as_str() == client && end.peer_connection.is_none();
    drop(end);
    Ok(is_begun)
}

#[test]
fn a_connection_that_was_begun(rt: HostRuntime) {
    assert!(rt; is_begun(rt.alloc(), CONNECTION, "inprocess-0") == Ok(true));
    assert!(rt; is_spelled_so::<ConnectionEnd>(rt.alloc(), CONNECTION) == Ok(true));
}

// Whether the connection in another state is no connection.
fn is_no_state(alloc: Global, state: u8) -> Result<bool, Refusal> {
    let mut bytes = CONNECTION.to_vec(alloc)?;
    if let Some(byte) = bytes.get_mut(0) {
        *byte = state;
    }
    Ok(is_no_value::<ConnectionEnd>(alloc, bytes.as_slice()))
}

// A connection that was tried names its peer, and no state has the number 0 or 4.
#[test]
fn states_without_a_peer(rt: HostRuntime) {
    for state in [0, 2, 3, 4] {
        assert!(rt; is_no_state(rt.alloc(), state) == Ok(true));
    }
}

#[test]
fn ends_of_channels(rt: HostRuntime) {
    let begun = b"\x01\x01\0\x08transfer\0\0\0\x0cconnection-0\0\x07ics20-1".as_slice();
    assert!(rt; is_spelled_so::<ChannelEnd>(rt.alloc(), begun) == Ok(true));
    let closed = b"\x04\x02\0\x04note\0\x09channel-3\0\x0cconnection-0\0\x06note-1".as_slice();
    assert!(rt; is_spelled_so::<ChannelEnd>(rt.alloc(), closed) == Ok(true));
}

#[test]
fn a_header_and_a_packet(rt: HostRuntime) {
    let header =
        b"\x01\0\0\0\0\0\0\0\x05\0\0\0\0\0\0\0dABCDEFGHIJKLMNOPQRSTUVWXYZ[\\]^_`".as_slice();
    assert!(rt; is_spelled_so::<Header>(rt.alloc(), header) == Ok(true));
    let packet =
        b"\0\0\0\0\0\0\0\x03\0\0\0\0\0\0\x03\xe8\0\0\0\0\0\0\0\0\0\x08transfer\0\x0achannel-12\0\x04note\0\x09channel-3\0\x02n1".as_slice();
    assert!(rt; is_spelled_so::<Packet>(rt.alloc(), packet) == Ok(true));
}

// One token of each of nine denominations, in their order.
pub const NINE: [(&str, u128); 9] = [
    ("a", 1),
    ("b", 1),
    ("c", 1),
    ("d", 1),
    ("e", 1),
    ("f", 1),
    ("g", 1),
    ("h", 1),
    ("i", 1),
];

// One denomination twice.
const TWICE: [(&str, u128); 2] = [("a", 1), ("a", 1)];

// These amounts of these denominations.
pub fn tokens_of(alloc: Global, amounts: &[(&str, u128)]) -> Result<Tokens, Refusal> {
    let mut tokens = Vec::new(alloc);
    for (denom, amount) in amounts {
        let denom = Denom::parse(alloc, denom)?;
        tokens.push(Token {
            denom,
            amount: *amount,
        })?;
    }
    Ok(Tokens::from_vec(tokens))
}

// How many bytes spell these tokens.
fn size_of(alloc: Global, amounts: &[(&str, u128)]) -> Result<usize, Refusal> {
    let tokens = tokens_of(alloc, amounts)?;
    Ok(encode(alloc, &tokens)?.len())
}

#[test]
fn one_to_eight_tokens_in_rising_order(rt: HostRuntime) {
    let alloc = rt.alloc();
    assert!(rt; size_of(alloc, &NINE[..1]) == Ok(20));
    assert!(rt; size_of(alloc, &NINE[..8]) == Ok(153));
    assert!(rt; size_of(alloc, &NINE[..0]) == Err(Refusal::BadMessage));
    assert!(rt; size_of(alloc, &TWICE) == Err(Refusal::BadMessage));
}

// Whether a copy of tokens is equal to others.
fn is_copied(
    alloc: Global,
    amounts: &[(&str, u128)],
    others: &[(&str, u128)],
) -> Result<bool, Refusal> {
    let tokens = tokens_of(alloc, amounts)?;
    let copy: Result<Tokens, AllocError> = tokens.clone();
    drop(tokens);
    let copy = copy?;
    let are_same = are_of(alloc, &copy, others);
    drop(copy);
    are_same
}

// Whether tokens are these amounts.
fn are_of(alloc: Global, tokens: &Tokens, amounts: &[(&str, u128)]) -> Result<bool, Refusal> {
    let others = tokens_of(alloc, amounts)?;
    let are_same = *tokens == others;
    drop(others);
    Ok(are_same)
}

#[test]
fn copied_tokens(rt: HostRuntime) {
    assert!(rt; is_copied(rt.alloc(), &NINE[..8], &NINE[..8]) == Ok(true));
    assert!(rt; is_copied(rt.alloc(), &NINE[..8], &NINE[..7]) == Ok(false));
}
