//! The lines that the program prints.

ghost use Rattle.std.specs.Prelude.{◌≡◌, ◌++◌, IfOk, OnOk, IsOkUnless, string_bytes, codes, ◌∷◌, [], decimal};
ghost use Rattle.ibc_ids.specs.Paths.{account_text};
ghost use Rattle.ibc_script_cli.specs.Lines.{IsLine, base64_of, effect_words, four_totals, held_words, hex_of, line, note_words, printed_byte, printed_bytes, refusal_words, reply_words, totals_answer, totals_front};

use base64::engine::general_purpose::STANDARD;
use ibc_ids::{Account, Bytes, ChannelId, Denom, Refusal, Root};
use ibc_machine::{Effect, Reply, Totals};
use ibc_script::EventKind;
use std::alloc::{AllocError, Global};

/// A line that the program prints, without its line feed.
#[derive(Clone, Copy)]
pub enum Line<'a> {
    /// The reply to an event.
    Reply {
        chain: &'a str,
        kind: EventKind,
        reply: &'a Reply,
    },
    /// Something that the message needs doesn't exist, and nothing was asked of the chain.
    Missing {
        chain: &'a str,
        kind: EventKind,
    },
    /// What an account has at the end.
    Balance {
        chain: &'a str,
        account: &'a Account,
        denom: &'a Denom,
        amount: u128,
    },
    /// A note that was received, by its number on its channel, from 1.
    Note {
        chain: &'a str,
        channel: &'a ChannelId,
        index: u64,
        bytes: &'a Bytes,
    },
    /// The root of a height, `None` where the chain doesn't keep the height.
    Root {
        chain: &'a str,
        height: u64,
        root: Option<&'a Root>,
    },
    /// The encoding of a proof at a height, `None` where the chain doesn't keep the height.
    Prove {
        chain: &'a str,
        height: u64,
        proof: Option<&'a Bytes>,
    },
    /// The totals of a channel: what it has of a denomination, or why there are none.
    Totals {
        chain: &'a str,
        channel: &'a ChannelId,
        denom: &'a Denom,
        totals: Result<Totals, Refusal>,
    },
}

fn shown(byte: u8) -> u8
    ensures { result ≡ printed_byte byte }
{
    if 0x20 <= byte && byte <= 0x7e {
        byte
    } else {
        b'?'
    }
}

// Adds a byte as it is printed.
fn push_shown(text: &mut String, byte: u8) -> Result<(), AllocError>
    ensures { OnOk result (string_bytes text.new ≡ string_bytes text.old ++ printed_byte byte ∷ []) }
{
    text.push(char::from(shown(byte)))
}

// The bytes of an acknowledgement, each that isn't printable as `?`.
fn acknowledgement_text(alloc: Global, bytes: &[u8]) -> Result<String, AllocError>
    ensures { IfOk result (λ text. string_bytes text ≡ printed_bytes bytes.now) }
{
    let mut text = String::new(alloc);
    for byte in bytes {
        push_shown(&mut text, *byte)?;
    }
    Ok(text)
}

fn account_text(alloc: Global, account: &Account) -> Result<String, AllocError>
    ensures { IfOk result (λ text. string_bytes text ≡ account_text account.now) }
{
    match account {
        Account::User(name) => String::from_str(alloc, name.as_str()),
        Account::Escrow(channel) => {
            let channel = channel.as_str();
            format!(in alloc; "escrow/transfer/{channel}")
        }
    }
}

// The line of an accepted event, with what it gives.
fn accepted_line(
    alloc: Global,
    chain: &str,
    kind: &str,
    effect: &Effect,
) -> Result<String, AllocError>
    ensures { IfOk result (IsLine (chain.now ∷ kind.now ∷ codes "ok" ∷ effect_words effect.now)) }
{
    match effect {
        Effect::None => ok_line(alloc, chain, kind),
        Effect::Client(id) => given_line(alloc, chain, kind, id.as_str()),
        Effect::Connection(id) => given_line(alloc, chain, kind, id.as_str()),
        Effect::Channel(id) => given_line(alloc, chain, kind, id.as_str()),
        Effect::Sent(sequence) => counted_line(alloc, chain, kind, *sequence),
        Effect::Ack(bytes) => acknowledged_line(alloc, chain, kind, bytes.as_slice()),
        Effect::Block(height, _) => counted_line(alloc, chain, kind, *height),
    }
}

// The line of an accepted event that gives nothing.
fn ok_line(alloc: Global, chain: &str, kind: &str) -> Result<String, AllocError>
    ensures { IfOk result (IsLine (chain.now ∷ kind.now ∷ codes "ok" ∷ [])) }
{
    format!(in alloc; "{chain} {kind} ok")
}

// The line of an accepted event that gives a number.
fn counted_line(alloc: Global, chain: &str, kind: &str, number: u64) -> Result<String, AllocError>
    ensures { IfOk result (IsLine (chain.now ∷ kind.now ∷ codes "ok" ∷ decimal number ∷ [])) }
{
    format!(in alloc; "{chain} {kind} ok {number}")
}

// The line of an accepted event that gives an acknowledgement.
fn acknowledged_line(
    alloc: Global,
    chain: &str,
    kind: &str,
    bytes: &[u8],
) -> Result<String, AllocError>
    ensures { IfOk result (IsLine (chain.now ∷ kind.now ∷ codes "ok" ∷ printed_bytes bytes.now ∷ [])) }
{
    let shown = acknowledgement_text(alloc, bytes)?;
    given_line(alloc, chain, kind, shown.as_str())
}

// The line of an accepted event that gives a text.
fn given_line(alloc: Global, chain: &str, kind: &str, given: &str) -> Result<String, AllocError>
    ensures { IfOk result (IsLine (chain.now ∷ kind.now ∷ codes "ok" ∷ given.now ∷ [])) }
{
    format!(in alloc; "{chain} {kind} ok {given}")
}

fn refused_line(
    alloc: Global,
    chain: &str,
    kind: &str,
    refusal: Refusal,
) -> Result<String, AllocError>
    ensures { IfOk result (IsLine (chain.now ∷ kind.now ∷ refusal_words refusal)) }
{
    let number = refusal.number();
    format!(in alloc; "{chain} {kind} no {number}")
}

fn reply_line(alloc: Global, chain: &str, kind: &str, reply: &Reply) -> Result<String, AllocError>
    ensures { IfOk result (IsLine (chain.now ∷ kind.now ∷ reply_words reply.now)) }
{
    match reply {
        Reply::Ok(effect) => accepted_line(alloc, chain, kind, effect),
        Reply::No(refusal) => refused_line(alloc, chain, kind, *refusal),
    }
}

// The line of a message that needs something that isn't there.
fn missing_line(alloc: Global, chain: &str, kind: &str) -> Result<String, AllocError>
    ensures { IfOk result (IsLine (chain.now ∷ kind.now ∷ codes "none" ∷ [])) }
{
    format!(in alloc; "{chain} {kind} none")
}

// The line of an amount, by the account's text.
fn amount_line(
    alloc: Global,
    chain: &str,
    account: &str,
    denom: &str,
    amount: u128,
) -> Result<String, AllocError>
    ensures { IfOk result (IsLine (held_words chain.now account.now denom.now amount)) }
{
    format!(in alloc; "balance {chain} {account} {denom} {amount}")
}

fn balance_line(
    alloc: Global,
    chain: &str,
    account: &Account,
    denom: &str,
    amount: u128,
) -> Result<String, AllocError>
    ensures { IfOk result (IsLine (held_words chain.now (account_text account.now) denom.now amount)) }
{
    let account = account_text(alloc, account)?;
    amount_line(alloc, chain, account.as_str(), denom, amount)
}

// The line of a note that is encoded.
fn encoded_note_line(
    alloc: Global,
    chain: &str,
    channel: &str,
    index: u64,
    encoded: &str,
) -> Result<String, AllocError>
    ensures { IfOk result (IsLine (note_words chain.now channel.now index encoded.now)) }
{
    format!(in alloc; "note {chain} {channel} {index} {encoded}")
}

fn note_line(
    alloc: Global,
    chain: &str,
    channel: &str,
    index: u64,
    bytes: &[u8],
) -> Result<String, AllocError>
    ensures { IfOk result (IsLine (note_words chain.now channel.now index (base64_of bytes.now))) }
{
    let encoded = STANDARD.encode(alloc, bytes)?;
    encoded_note_line(alloc, chain, channel, index, encoded.as_str())
}

// The line of what a height has, by its digits.
fn digits_line(
    alloc: Global,
    chain: &str,
    what: &str,
    height: u64,
    digits: &str,
) -> Result<String, AllocError>
    ensures { IfOk result (IsLine (chain.now ∷ what.now ∷ decimal height ∷ digits.now ∷ [])) }
{
    format!(in alloc; "{chain} {what} {height} {digits}")
}

// The line of what a height has, in lower-case hexadecimal, or `none`.
fn height_line(
    alloc: Global,
    chain: &str,
    what: &str,
    height: u64,
    bytes: Option<&[u8]>,
) -> Result<String, AllocError>
    ensures { IfOk result (IsLine (chain.now ∷ what.now ∷ decimal height ∷ hex_of bytes.entry ∷ [])) }
{
    match bytes {
        Some(bytes) => {
            let digits = hex::encode(alloc, bytes)?;
            digits_line(alloc, chain, what, height, digits.as_str())
        }
        None => digits_line(alloc, chain, what, height, "none"),
    }
}

// The four numbers of totals, with blanks between.
fn four_numbers(alloc: Global, totals: Totals) -> Result<String, AllocError>
    ensures { IfOk result (IsLine (four_totals totals)) }
{
    let Totals {
        escrow,
        vouchers,
        out,
        back,
    } = totals;
    format!(in alloc; "{escrow} {vouchers} {out} {back}")
}

// The line of the totals of a channel, by their numbers.
fn numbers_line(
    alloc: Global,
    chain: &str,
    channel: &str,
    denom: &str,
    numbers: &str,
) -> Result<String, AllocError>
    ensures { IfOk result (IsLine (totals_front chain.now channel.now denom.now (numbers.now ∷ []))) }
{
    format!(in alloc; "{chain} totals {channel} {denom} {numbers}")
}

// The line of the totals of a channel.
fn counted_totals_line(
    alloc: Global,
    chain: &str,
    channel: &str,
    denom: &str,
    totals: Totals,
) -> Result<String, AllocError>
    ensures { IfOk result (IsLine (totals_front chain.now channel.now denom.now (four_totals totals))) }
{
    let numbers = four_numbers(alloc, totals)?;
    numbers_line(alloc, chain, channel, denom, numbers.as_str())
}

// The line of the totals of a channel, or of why there are none.
fn totals_line(
    alloc: Global,
    chain: &str,
    channel: &str,
    denom: &str,
    totals: Result<Totals, Refusal>,
) -> Result<String, AllocError>
    ensures { IfOk result (IsLine (chain.now ∷ totals_answer channel.now denom.now totals)) }
{
    match totals {
        Ok(totals) => counted_totals_line(alloc, chain, channel, denom, totals),
        Err(refusal) => refused_line(alloc, chain, "totals", refusal),
    }
}

fn text_of(alloc: Global, printed: Line<'_>) -> Result<String, AllocError>
    ensures { IfOk result (λ text. string_bytes text ≡ line printed.entry) }
{
    match printed {
        Line::Reply { chain, kind, reply } => { reply_line(alloc, chain, kind.name(), reply) }
        Line::Missing { chain, kind } => missing_line(alloc, chain, kind.name()),
        Line::Balance {
            chain,
            account,
            denom,
            amount,
        } => balance_line(alloc, chain, account, denom.as_str(), amount),
        Line::Note {
            chain,
            channel,
            index,
            bytes,
        } => note_line(alloc, chain, channel.as_str(), index, bytes.as_slice()),
        Line::Root {
            chain,
            height,
            root,
        } => {
            let bytes = root.map(|root| root.bytes().as_slice());
            height_line(alloc, chain, "root", height, bytes)
        }
        Line::Prove {
            chain,
            height,
            proof,
        } => {
            let bytes = proof.map(|proof| proof.as_slice());
            height_line(alloc, chain, "prove", height, bytes)
        }
        Line::Totals {
            chain,
            channel,
            denom,
            totals,
        } => totals_line(alloc, chain, channel.as_str(), denom.as_str(), totals),
    }
}

/// The text of a line, without its line feed. Refused: `NoMemory`.
pub fn line_text(alloc: Global, printed: Line<'_>) -> Result<String, Refusal>
    ensures text { IfOk result (λ text. string_bytes text ≡ line printed.entry) }
    ensures memory { IsOkUnless result Refusal.NoMemory }
{
    Ok(text_of(alloc, printed)?)
}
