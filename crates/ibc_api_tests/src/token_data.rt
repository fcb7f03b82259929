//! The data of packets of tokens, and texts that are none.

use ibc_ids::{Name, Version};
use ibc_token_data::TokenData;
use std::alloc::Global;
use std::process::Abort;

// Data of one token and of several, worked out apart from this code.
const ONE: &[u8] = br#"{"amount":"100","denom":"atom","receiver":"bob","sender":"alice"}"#;

const GREATEST: &[u8] =
    br#"{"amount":"340282366920938463463374607431768211455","denom":"transfer/channel-0/atom","memo":"to: 'Bob'","receiver":"b o b","sender":"alice"}"#;

const SEVERAL: &[u8] =
    br#"{"receiver":"bob","sender":"alice","tokens":[{"amount":"100","denom":"atom"},{"amount":"7","denom":"gold"}]}"#;

const LISTED: &[u8] =
    br#"{"memo":"m","receiver":"bob","sender":"alice","tokens":[{"amount":"1","denom":"atom"}]}"#;

// Texts that are no data of one token, by their spelling or amount.
const NOT_ONE: [&[u8]; 26] = [
    b"",
    b"null",
    br#"{"amount":"100", "denom":"atom","receiver":"bob","sender":"alice"}"#,
    br#"{"amount":"100","denom":"atom","receiver":"bob","sender":"alice"} "#,
    br#"{"denom":"atom","amount":"100","receiver":"bob","sender":"alice"}"#,
    br#"{"amount":"100","denom":"atom","memo":"","receiver":"bob","sender":"alice"}"#,
    br#"{"amount":"100","denom":"atom","memo":null,"receiver":"bob","sender":"alice"}"#,
    br#"{"amount":"100","denom":"atom","receiver":"bob","sender":"alice","token":"1"}"#,
    br#"{"amount":"100","amount":"100","denom":"atom","receiver":"bob","sender":"alice"}"#,
    br#"{"amount":"100","denom":"atom","receiver":"bob","sender":"\u0061lice"}"#,
    br#"{"amount":"100","denom":"atom","receiver":"bob"}"#,
    br#"{"receiver":"bob","sender":"alice","tokens":[{"amount":"100","denom":"atom"}]}"#,
    b"{\"amount\":\"100\",\"denom\":\"atom\",\"receiver\":\"\xff\",\"sender\":\"alice\"}",
    br#"{"amount":"0","denom":"atom","receiver":"bob","sender":"alice"}"#,
    br#"{"amount":"007","denom":"atom","receiver":"bob","sender":"alice"}"#,
    br#"{"amount":"+7","denom":"atom","receiver":"bob","sender":"alice"}"#,
    br#"{"amount":"","denom":"atom","receiver":"bob","sender":"alice"}"#,
    br#"{"amount":7,"denom":"atom","receiver":"bob","sender":"alice"}"#,
    br#"{"amount":"340282366920938463463374607431768211456","denom":"atom","receiver":"bob","sender":"alice"}"#,
    br#"{"amount":"100","denom":"atom","receiver":"bob","sender":"alice""#,
    br#"{"amount":"100","denom":"atom","receiver":"bob","sender":"alice"#,
    br#"{"amount":"100","denom":"atom","receiver":"bob","sender":"alice"},"#,
    br#"{"amount":"100","denom":"atom","memo":"m""receiver":"bob","sender":"alice"}"#,
    br#"{"amount":"100","denom":"atom","memo":"\"","receiver":"bob","sender":"alice"}"#,
    br#"{"amount":"100","denon":"atom","receiver":"bob","sender":"alice"}"#,
    br#"{"amount":"1e2","denom":"atom","receiver":"bob","sender":"alice"}"#,
];

// Texts that are no data of several tokens.
const NOT_SEVERAL: [&[u8]; 10] = [
    br#"{"receiver":"bob","sender":"alice","tokens":[]}"#,
    br#"{"receiver":"bob","sender":"alice","tokens":[{"amount":"7","denom":"gold"},{"amount":"100","denom":"atom"}]}"#,
    br#"{"receiver":"bob","sender":"alice","tokens":[{"amount":"7","denom":"gold"},{"amount":"7","denom":"gold"}]}"#,
    br#"{"receiver":"bob","sender":"alice","tokens":[{"amount":"7","denom":"gold","memo":"m"}]}"#,
    br#"{"receiver":"bob","sender":"alice","tokens":{"amount":"7","denom":"gold"}}"#,
    br#"{"receiver":"bob","sender":"alice","tokens":[{"amount":"1","denom":"a"},{"amount":"1","denom":"b"},{"amount":"1","denom":"c"},{"amount":"1","denom":"d"},{"amount":"1","denom":"e"},{"amount":"1","denom":"f"},{"amount":"1","denom":"g"},{"amount":"1","denom":"h"},{"amount":"1","denom":"i"}]}"#,
    br#"{"amount":"100","denom":"atom","receiver":"bob","sender":"alice"}"#,
    br#"{"receiver":"bob","sender":"alice","tokens":[{"amount":"100","denom":"atom"},]}"#,
    br#"{"receiver":"bob","sender":"alice","tokens":[{"amount":"100","denom":"atom"}]} "#,
    br#"{"receiver":"bob","sender":"alice","tokens":[{"amount":"100","denom":"atom"},{"amount":"07","denom":"gold"}]}"#,
];

// What is read of a channel of this version, or none.
fn read(rt: &impl Abort, alloc: Global, version: &Version, payload: &[u8]) -> Option<TokenData> {
    TokenData::read(alloc, version, payload).expect(rt, "memory")
}

// Whether the place has so much of the denomination.
fn holds(told: &TokenData, place: usize, denom: &str, amount: u128) -> bool {
    match told.tokens.as_slice().get(place) {
        Some(token) => token.denom.as_str() == denom && token.amount == amount,
        None => false,
    }
}

// Whether alice sends to bob, with no memo.
fn goes_to_bob(told: &TokenData) -> bool {
    told.sender.as_str() == "alice" && told.receiver.as_str() == "bob" && told.memo.as_str() == ""
}

// Whether the data goes from alice to bob, and has 100 atom and then 7 gold.
fn told(rt: &impl Abort, alloc: Global, version: &str, payload: &[u8]) -> [bool; 3] {
    let version = Name::parse(alloc, version).expect(rt, "a version");
    let told = read(rt, alloc, &version, payload).expect(rt, "data");
    drop(version);
    let found = [
        goes_to_bob(&told),
        holds(&told, 0, "atom", 100),
        holds(&told, 1, "gold", 7),
    ];
    drop(told);
    found
}

#[test]
fn reads_tokens(rt: HostRuntime) {
    assert!(rt; told(&rt, rt.alloc(), "ics20-1", ONE) == [true, true, false]);
    assert!(rt; told(&rt, rt.alloc(), "ics20-own-2", SEVERAL) == [true, true, true]);
}

// Whether the data is read, and is written so.
fn is_written_so(rt: &impl Abort, alloc: Global, version: &str, payload: &[u8]) -> bool {
    let version = Name::parse(alloc, version).expect(rt, "a version");
    let told = read(rt, alloc, &version, payload).expect(rt, "data");
    let written = told.write(alloc, &version).expect(rt, "memory");
    drop(told);
    drop(version);
    let is_same = written.as_slice() == payload;
    drop(written);
    is_same
}

#[test]
fn writes_what_it_reads(rt: HostRuntime) {
    assert!(rt; is_written_so(&rt, rt.alloc(), "ics20-1", ONE));
    assert!(rt; is_written_so(&rt, rt.alloc(), "ics20-1", GREATEST));
    assert!(rt; is_written_so(&rt, rt.alloc(), "ics20-own-2", SEVERAL));
    assert!(rt; is_written_so(&rt, rt.alloc(), "ics20-own-2", LISTED));
}

// Whether no data is read.
fn is_none(rt: &impl Abort, alloc: Global, version: &str, payload: &[u8]) -> bool {
    let version = Name::parse(alloc, version).expect(rt, "a version");
    let told = read(rt, alloc, &version, payload);
    drop(version);
    let is_none = told.is_none();
    drop(told);
    is_none
}

#[test]
fn takes_no_other_spelling(rt: HostRuntime) {
    for place in 0..NOT_ONE.len() {
        assert!(rt;
            is_none(&rt, rt.alloc(), "ics20-1", NOT_ONE[place]),
            "at {place}"
        );
    }
}

#[test]
fn takes_no_other_list(rt: HostRuntime) {
    for place in 0..NOT_SEVERAL.len() {
        assert!(rt;
            is_none(&rt, rt.alloc(), "ics20-own-2", NOT_SEVERAL[place]),
            "at {place}"
        );
    }
}
