//! Texts of packet data, which the kit's `serde_json` judges too.

use ibc_ids::{Name, Refusal, Version};
use ibc_token_data::TokenData;
use ibc_wire::Token;
use serde_json::Value;
use std::alloc::{AllocError, Global};
use std::process::Abort;

// Values of members as JSON writes them. The first three of each are those that a packet may have.
const AMOUNTS: [&str; 12] = [
    r#""1""#,
    r#""70""#,
    r#""340282366920938463463374607431768211455""#,
    r#""340282366920938463463374607431768211456""#,
    r#""0""#,
    r#""007""#,
    r#""+7""#,
    r#""1e2""#,
    r#""\u0037""#,
    r#""""#,
    "7",
    "null",
];

const DENOMS: [&str; 9] = [
    r#""atom""#,
    r#""gold""#,
    r#""transfer/channel-0/atom""#,
    r#""\u0061tom""#,
    r#""transfer\/channel-0\/atom""#,
    r#""at-om""#,
    r#""""#,
    "1",
    r#"{"denom":"atom"}"#,
];

const MEMOS: [&str; 10] = [
    r#""m""#,
    r#""to: 'Bob', {1} [2]""#,
    r#""a memo that is longer than thirty bytes are""#,
    r#""""#,
    r#""\"""#,
    r#""\n""#,
    r#""\u00e4""#,
    "\"\u{e4}\"",
    "null",
    r#"["m"]"#,
];

const USERS: [&str; 9] = [
    r#""bob""#,
    r#""alice""#,
    r#""userwithanameofexactly32letters1""#,
    r#""""#,
    r#""\u0061lice""#,
    r#""al\"ice""#,
    "\"\u{e9}\"",
    "true",
    "{}",
];

// Bytes that take the place of another one.
const SPOILS: &[u8] = b"\xff\x80\xc3\"\\ ,:{}[]0\n";

// Numbers that look random, and are the same in each run.
#[derive(Drop)]
struct Random {
    state: u64,
}

impl Random {
    fn below(&mut self, bound: usize) -> usize {
        self.state = self
            .state
            .wrapping_mul(6364136223846793005)
            .wrapping_add(1442695040888963407);
        let number = (self.state >> 33) as usize;
        number.checked_rem(bound).unwrap_or(0)
    }

    fn is_one_in(&mut self, times: usize) -> bool {
        self.below(times) == 0
    }

    // One of the first three, and now and then another one.
    fn value(&mut self, values: &[&'static str]) -> &'static str {
        let bound = if self.is_one_in(20) { values.len() } else { 3 };
        match values.get(self.below(bound)) {
            Some(value) => *value,
            None => "",
        }
    }

    // How often a member stands there: mostly once.
    fn times(&mut self) -> usize {
        match self.below(40) {
            0 => 0,
            1 => 2,
            _ => 1,
        }
    }
}

// A member, where it stands there, and the comma before it.
fn push_member(
    text: &mut String,
    random: &mut Random,
    name: &str,
    values: &[&'static str],
) -> Result<(), AllocError> {
    for _time in 0..random.times() {
        if !text.as_str().ends_with('{') {
            text.push_str(",")?;
        }
        if random.is_one_in(60) {
            text.push_str(" ")?;
        }
        let value = random.value(values);
        write!(text, "\"{name}\":{value}")?;
    }
    Ok(())
}

// Amount and denomination.
fn push_token(text: &mut String, random: &mut Random) -> Result<(), AllocError> {
    if random.is_one_in(40) {
        push_member(text, random, "denom", &DENOMS)?;
        return push_member(text, random, "amount", &AMOUNTS);
    }
    push_member(text, random, "amount", &AMOUNTS)?;
    push_member(text, random, "denom", &DENOMS)
}

// Memo, receiver and sender.
fn push_parties(text: &mut String, random: &mut Random) -> Result<(), AllocError> {
    if random.is_one_in(2) {
        push_member(text, random, "memo", &MEMOS)?;
    }
    if random.is_one_in(40) {
        push_member(text, random, "sender", &USERS)?;
        return push_member(text, random, "receiver", &USERS);
    }
    push_member(text, random, "receiver", &USERS)?;
    push_member(text, random, "sender", &USERS)
}

// A list of one to three tokens, and now and then of up to twelve.
fn push_list(text: &mut String, random: &mut Random) -> Result<(), AllocError> {
    let most = if random.is_one_in(20) { 12 } else { 3 };
    text.push_str(",\"tokens\":[{")?;
    push_token(text, random)?;
    for _token in 0..random.below(most) {
        text.push_str("},{")?;
        push_token(text, random)?;
    }
    text.push_str("}]")
}

// A text that is data of one token or of several, or comes near to it.
fn made_text(alloc: Global, random: &mut Random, several: bool) -> Result<String, AllocError> {
    let mut text = String::from_str(alloc, "{")?;
    push_members(&mut text, random, several)?;
    if random.is_one_in(40) {
        text.push_str(",\"token\":\"1\"")?;
    }
    text.push_str("}")?;
    if random.is_one_in(40) {
        text.push_str(" ")?;
    }
    Ok(text)
}

fn push_members(text: &mut String, random: &mut Random, several: bool) -> Result<(), AllocError> {
    if several {
        push_parties(text, random)?;
        push_list(text, random)
    } else {
        push_token(text, random)?;
        push_parties(text, random)
    }
}

// Now and then puts another byte in the place of one.
fn spoil(random: &mut Random, text: &mut [u8]) {
    if !random.is_one_in(8) {
        return;
    }
    let spoil = SPOILS.get(random.below(SPOILS.len())).copied();
    let place = random.below(text.len());
    if let (Some(byte), Some(spoil)) = (text.get_mut(place), spoil) {
        *byte = spoil;
    }
}

// Whether the value has a member of this name, which is this text.
fn has_text(value: &Value, name: &str, text: &str) -> bool {
    match value.get(name).and_then(Value::as_str) {
        Some(found) => found == text,
        None => false,
    }
}

// Whether the value has the token's members.
fn has_token(value: &Value, token: &Token) -> bool {
    let Some(amount) = value.get("amount").and_then(Value::as_str) else {
        return false;
    };
    amount.parse::<u128>().ok() == Some(token.amount)
        && has_text(value, "denom", token.denom.as_str())
}

// Whether the value has the members of memo, receiver and sender.
fn has_parties(value: &Value, told: &TokenData) -> bool {
    let memo = told.memo.as_str();
    let has_memo = if memo.is_empty() {
        value.get("memo").is_none()
    } else {
        has_text(value, "memo", memo)
    };
    has_memo
        && has_text(value, "receiver", told.receiver.as_str())
        && has_text(value, "sender", told.sender.as_str())
}

// Whether the values have the tokens' members.
fn have_tokens(values: &[Value], tokens: &[Token]) -> bool {
    values.len() == tokens.len()
        && values
            .iter()
            .zip(tokens)
            .all(|(value, token)| has_token(value, token))
}

// Whether the value has the members of all tokens, in a list or as its own.
fn has_tokens(value: &Value, tokens: &[Token]) -> bool {
    match (value.get("tokens").and_then(Value::as_array), tokens) {
        (Some(list), _) => have_tokens(list.as_slice(), tokens),
        (None, [token]) => has_token(value, token),
        (None, _) => false,
    }
}

// Whether `serde_json` reads the members of the data in the text, and spells them so.
fn is_spelled_by_json(rt: &impl Abort, alloc: Global, text: &[u8], told: &TokenData) -> bool {
    let value = Value::from_slice(alloc, text).expect(rt, "JSON");
    let has_members = has_parties(&value, told) && has_tokens(&value, told.tokens.as_slice());
    let spelled = value.to_string(alloc).expect(rt, "memory");
    drop(value);
    let is_same = spelled.as_bytes() == text;
    drop(spelled);
    has_members && is_same
}

// Whether data is read. It is what `serde_json` reads, and each writes the text again.
fn is_taken(rt: &impl Abort, alloc: Global, version: &Version, text: &[u8]) -> bool {
    let Some(told) = TokenData::read(alloc, version, text).expect(rt, "memory") else {
        return false;
    };
    let written = told.write(alloc, version).expect(rt, "memory");
    assert!(rt; written.as_slice() == text);
    assert!(rt; is_spelled_by_json(rt, alloc, written.as_slice(), &told));
    drop(written);
    drop(told);
    true
}

// How many of 5,000 made texts are taken.
fn taken_of_5000(rt: &impl Abort, alloc: Global, version: &str, several: bool) -> u32 {
    let version = Name::parse(alloc, version).expect(rt, "a version");
    let mut random = Random { state: 271828182 };
    let mut taken: u32 = 0;
    for _text in 0..5000 {
        let text = made_text(alloc, &mut random, several).expect(rt, "memory");
        let mut text = text.into_bytes();
        spoil(&mut random, text.as_mut_slice());
        if is_taken(rt, alloc, &version, text.as_slice()) {
            taken = taken.saturating_add(1);
        }
        drop(text);
    }
    drop(version);
    taken
}

#[test]
fn what_is_taken_is_spelled_so_by_serde_json(rt: HostRuntime) {
    let one = taken_of_5000(&rt, rt.alloc(), "ics20-1", false);
    let several = taken_of_5000(&rt, rt.alloc(), "ics20-own-2", true);
    assert!(rt; 1000 <= one && one <= 4000, "{one}");
    assert!(rt; 500 <= several && several <= 4000, "{several}");
}

// Texts of one token whose fault is in the first member, in the last one, behind them, or a byte that is no UTF-8.
const NOT_ONE: [&[u8]; 8] = [
    b"{\"amount\":\"1\",\"denom\":\"atom\",\"memo\":\"\xff\",\"receiver\":\"bob\",\"sender\":\"alice\"}",
    b"{\"amount\":\"1\",\"denom\":\"atom\",\"receiver\":\"bob\",\"sender\":\"alice\"}\xff",
    br#"{"amount":"0","denom":"atom","receiver":"bob","sender":"alice"}"#,
    br#"{"amount":"1","denom":"at-om","receiver":"bob","sender":"alice"}"#,
    br#"{"amount":"1","denom":"atom","memo":"a memo that is longer than thirty bytes are","receiver":"bob","sender":"al ice"}"#,
    br#"{"amount":"1","denom":"transfer/channel-0/transfer/channel-1/atom","receiver":"bob","sender":""}"#,
    br#"{"amount":"1","denom":"atom","receiver":"bob","sender":"alice","token":"1"}"#,
    br#"{"amount":"1","denom":"atom","receiver":"bob","sender":"alice"} "#,
];

// Texts of several tokens with such a fault.
const NOT_SEVERAL: [&[u8]; 6] = [
    b"{\"receiver\":\"bob\",\"sender\":\"alice\",\"tokens\":[{\"amount\":\"1\",\"denom\":\"atom\"},{\"amount\":\"1\",\"denom\":\"\xff\"}]}",
    br#"{"receiver":"bob","sender":"alice","tokens":[{"amount":"1","denom":"atom"},{"amount":"0","denom":"gold"}]}"#,
    br#"{"receiver":"bob","sender":"alice","tokens":[{"amount":"1","denom":"gold"},{"amount":"1","denom":"atom"}]}"#,
    br#"{"receiver":"bob","sender":"alice","tokens":[{"amount":"1","denom":"atom"},{"amount":"1","denom":"gold"},]}"#,
    br#"{"receiver":"bob","sender":"alice","tokens":[{"amount":"1","denom":"atom"},{"amount":"1","denom":"gold"}]} "#,
    br#"{"memo":"a memo that is longer than thirty bytes are","receiver":"","sender":"alice","tokens":[{"amount":"1","denom":"atom"}]}"#,
];

// Whether no data is told, which asks for no memory.
fn is_none(alloc: Global, version: &Version, payload: &[u8]) -> bool {
    let read = TokenData::read(alloc, version, payload);
    let is_none = matches!(&read, Ok(None));
    drop(read);
    is_none
}

// Also where a request for memory is refused.
#[test]
fn no_data_is_told_before_any_request(rt: HostRuntime) {
    let alloc = rt.alloc();
    let one = Name::parse(alloc, "ics20-1").expect(&rt, "a version");
    let several = Name::parse(alloc, "ics20-own-2").expect(&rt, "a version");
    for payload in NOT_ONE {
        assert!(rt; is_none(alloc, &one, payload));
    }
    for payload in NOT_SEVERAL {
        assert!(rt; is_none(alloc, &several, payload));
    }
    drop(one);
    drop(several);
}

// Data of one token and of several, whose reading asks for memory.
const ONE: &[u8] =
    br#"{"amount":"1","denom":"transfer/channel-0/transfer/channel-1/atom","memo":"a memo that is longer than thirty bytes are","receiver":"bob","sender":"alice"}"#;

const SEVERAL: &[u8] =
    br#"{"receiver":"bob","sender":"alice","tokens":[{"amount":"1","denom":"atom"},{"amount":"1","denom":"transfer/channel-0/transfer/channel-1/atom"}]}"#;

// Whether data is told, or a request for memory was refused.
fn is_told(alloc: Global, version: &Version, payload: &[u8]) -> bool {
    let read = TokenData::read(alloc, version, payload);
    let is_told = matches!(&read, Ok(Some(_)) | Err(Refusal::NoMemory));
    drop(read);
    is_told
}

// Also where a request for memory is refused.
#[test]
fn data_is_never_none(rt: HostRuntime) {
    let alloc = rt.alloc();
    let one = Name::parse(alloc, "ics20-1").expect(&rt, "a version");
    let several = Name::parse(alloc, "ics20-own-2").expect(&rt, "a version");
    assert!(rt; is_told(alloc, &one, ONE));
    assert!(rt; is_told(alloc, &several, SEVERAL));
    drop(one);
    drop(several);
}
