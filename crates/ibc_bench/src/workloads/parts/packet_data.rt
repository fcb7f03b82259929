//! The data of packets of tokens is written and read: of one token or several, with and without a memo. Some bytes are no data.

use crate::behind::made_behind;
use crate::names::{TOKENS, numbered};
use crate::random::Random;
use crate::run_error::RunError;
use crate::tally::Tally;
use ibc_ids::{Denom, Memo, Name, Receiver, UserName, Version};
use ibc_token_data::TokenData;
use ibc_wire::Token;
use std::alloc::Global;

// One in so many payloads is no data.
const WRONG: u64 = 8;

/// The versions of channels over which packets have one token, or several.
#[derive(Drop)]
struct Versions {
    one: Version,
    several: Version,
}

/// Writes and reads so many payloads, each from another sender.
pub fn run(alloc: Global, size: u64, random: &mut Random) -> Result<Tally, RunError> {
    let versions = Versions {
        one: Name::parse(alloc, "ics20-1")?,
        several: Name::parse(alloc, "ics20-own-2")?,
    };
    let tally = read_each(alloc, size, random, &versions);
    drop(versions);
    tally
}

fn read_each(
    alloc: Global,
    size: u64,
    random: &mut Random,
    versions: &Versions,
) -> Result<Tally, RunError> {
    let mut tally = Tally::new();
    for number in 0..size {
        if random.is_one_in(3) {
            let count = random.below(8).saturating_add(1);
            write_and_read(alloc, random, &mut tally, number, count, &versions.several)?;
        } else {
            write_and_read(alloc, random, &mut tally, number, 1, &versions.one)?;
        }
    }
    Ok(tally)
}

// Writes data of so many tokens, and reads the bytes, of which now and then the last one is missing.
fn write_and_read(
    alloc: Global,
    random: &mut Random,
    tally: &mut Tally,
    number: u64,
    count: u64,
    version: &Version,
) -> Result<(), RunError> {
    let told = data(alloc, random, number, count)?;
    let payload = told.write(alloc, version);
    drop(told);
    let payload = payload?;
    tally.digest.long_bytes(payload.as_slice());
    let is_cut = random.is_one_in(WRONG);
    let added = match payload.as_slice() {
        [front @ .., _] if is_cut => add_read(alloc, tally, version, front),
        bytes => add_read(alloc, tally, version, bytes),
    };
    drop(payload);
    added
}

// Reads the data that bytes spell, and adds it.
fn add_read(
    alloc: Global,
    tally: &mut Tally,
    version: &Version,
    bytes: &[u8],
) -> Result<(), RunError> {
    match TokenData::read(alloc, version, bytes)? {
        Some(told) => {
            tally.accepted = tally.accepted.saturating_add(1);
            add(tally, &told);
            drop(told);
        }
        None => {
            tally.refused = tally.refused.saturating_add(1);
            tally.digest.number(0);
        }
    }
    Ok(())
}

// Adds what the data says.
fn add(tally: &mut Tally, told: &TokenData) {
    for token in &told.tokens {
        tally.digest.text(token.denom.as_str());
        tally.digest.amount(token.amount);
    }
    tally.digest.text(told.memo.as_str());
    tally.digest.text(told.receiver.as_str());
    tally.digest.text(told.sender.as_str());
}

// The data of so many tokens that a user sends to a random one. Now and then an amount is 0, so that it spells no data.
fn data(
    alloc: Global,
    random: &mut Random,
    number: u64,
    count: u64,
) -> Result<TokenData, RunError> {
    let tokens = tokens(alloc, random, count)?;
    let (tokens, texts) = made_behind(tokens, texts(alloc, random, number))?;
    let (memo, (receiver, sender)) = texts;
    Ok(TokenData {
        tokens,
        memo,
        receiver,
        sender,
    })
}

// A memo, a random receiver, and the sender.
fn texts(
    alloc: Global,
    random: &mut Random,
    number: u64,
) -> Result<(Memo, (Receiver, UserName)), RunError> {
    let memo = memo(alloc, random, number)?;
    made_behind(memo, users(alloc, random, number))
}

// A random receiver, and the sender.
fn users(
    alloc: Global,
    random: &mut Random,
    number: u64,
) -> Result<(Receiver, UserName), RunError> {
    let receiver: Receiver = numbered(alloc, "user", random.below(100_000))?;
    made_behind(receiver, numbered(alloc, "user", number))
}

// A memo, mostly none.
fn memo(alloc: Global, random: &mut Random, number: u64) -> Result<Memo, RunError> {
    if random.is_one_in(4) {
        numbered(
            alloc,
            "payment of the invoice that was sent last week, number ",
            number,
        )
    } else {
        Ok(Name::parse(alloc, "")?)
    }
}

// So many tokens of different denominations.
fn tokens(alloc: Global, random: &mut Random, count: u64) -> Result<Vec<Token>, RunError> {
    let mut tokens = Vec::new(alloc);
    match push_tokens(alloc, random, &mut tokens, count) {
        Ok(()) => Ok(tokens),
        Err(error) => {
            drop(tokens);
            Err(error)
        }
    }
}

// Adds so many tokens.
fn push_tokens(
    alloc: Global,
    random: &mut Random,
    tokens: &mut Vec<Token>,
    count: u64,
) -> Result<(), RunError> {
    for place in 0..count {
        let amount = match random.below(64) {
            0 => 0,
            _ => u128::from(random.number()).saturating_add(1),
        };
        let denom = denom(alloc, random, place)?;
        tokens.push(Token { denom, amount })?;
    }
    Ok(())
}

// A token that came over a channel, whose name rises with its place among others.
fn denom(alloc: Global, random: &mut Random, place: u64) -> Result<Denom, RunError> {
    let token = TOKENS
        .get(random.place(TOKENS.len()))
        .copied()
        .unwrap_or("atom");
    let text = format!(in alloc; "transfer/channel-{place}/{token}")?;
    let denom = Name::parse(alloc, text.as_str());
    drop(text);
    Ok(denom?)
}
