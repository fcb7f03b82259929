//! The one spelling of data.

ghost use Rattle.std.specs.Prelude.{◌≡◌, ◌∷◌, true, false, string_bytes, IfOk, OnOk};
ghost use Rattle.ibc_machine.specs.ics20.TokenData.{member, object, token_members, has_several, data_text};
ghost use Rattle.ibc_token_data.specs.AbstractData.{abstract_data};
ghost use Rattle.ibc_token_data.specs.Spelling.{memo_front, parties_text, token_text, first_front, objects_text, behind_text, members_text, AddsText};

use crate::TokenData;
use crate::forms::has_several;
use ibc_ids::{Memo, Version};
use ibc_wire::Token;
use std::alloc::{AllocError, Global};

/// The one spelling of the data over a channel of the version, in a text with room for this many bytes.
pub(crate) fn spelling(
    alloc: Global,
    version: &Version,
    told: &TokenData,
    room: usize,
) -> Result<String, AllocError>
    ensures { IfOk result (λ text. string_bytes text ≡ data_text version.now (abstract_data told.now)) }
{
    let mut text = String::with_capacity(alloc, room)?;
    text.push_str("{")?;
    push_members(&mut text, version, told)?;
    text.push_str("}")?;
    Ok(text)
}

/// How many bytes the spelling is likely to have: 64 around the names of the parties, 64 around and in the digits of each
/// token, and the names.
pub(crate) fn likely_length(told: &TokenData) -> usize {
    let mut length = told
        .memo
        .as_str()
        .len()
        .saturating_add(told.receiver.as_str().len())
        .saturating_add(told.sender.as_str().len())
        .saturating_add(64);
    for token in &told.tokens {
        length = length
            .saturating_add(64)
            .saturating_add(token.denom.as_str().len());
    }
    length
}

fn push_members(text: &mut String, version: &Version, told: &TokenData) -> Result<(), AllocError>
    ensures { OnOk result (AddsText (members_text (has_several version.now) (abstract_data told.now)) text.old text.new) }
{
    if has_several(version) {
        push_with_list(text, told)
    } else {
        push_with_first(text, told)
    }
}

// The members with the list of tokens.
fn push_with_list(text: &mut String, told: &TokenData) -> Result<(), AllocError>
    ensures { OnOk result (AddsText (members_text true (abstract_data told.now)) text.old text.new) }
{
    push_parties(text, told)?;
    text.push_str(",\"tokens\":[")?;
    push_objects(text, told.tokens.as_slice())?;
    text.push_str("]")
}

// The members with those of the first token.
fn push_with_first(text: &mut String, told: &TokenData) -> Result<(), AllocError>
    ensures { OnOk result (AddsText (members_text false (abstract_data told.now)) text.old text.new) }
{
    push_first(text, told.tokens.as_slice())?;
    push_parties(text, told)
}

// The first token and the comma behind it; nothing where there is none.
fn push_first(text: &mut String, tokens: &[Token]) -> Result<(), AllocError>
    ensures { OnOk result (AddsText (first_front tokens.now) text.old text.new) }
{
    let Some(token) = tokens.first() else {
        return Ok(());
    };
    push_token(text, token)?;
    text.push_str(",")
}

// Memo, receiver and sender.
fn push_parties(text: &mut String, told: &TokenData) -> Result<(), AllocError>
    ensures { OnOk result (AddsText (parties_text (abstract_data told.now)) text.old text.new) }
{
    push_memo(text, &told.memo)?;
    push_member(text, "receiver", told.receiver.as_str())?;
    text.push_str(",")?;
    push_member(text, "sender", told.sender.as_str())
}

// The memo and the comma behind it; nothing where there is none.
fn push_memo(text: &mut String, memo: &Memo) -> Result<(), AllocError>
    ensures { OnOk result (AddsText (memo_front memo.now) text.old text.new) }
{
    let memo = memo.as_str();
    if memo.is_empty() {
        return Ok(());
    }
    push_member(text, "memo", memo)?;
    text.push_str(",")
}

// The tokens, each as an object.
fn push_objects(text: &mut String, tokens: &[Token]) -> Result<(), AllocError>
    ensures { OnOk result (AddsText (objects_text tokens.now) text.old text.new) }
{
    match tokens.split_first() {
        Some((first, others)) => push_row(text, first, others),
        None => Ok(()),
    }
}

fn push_row(text: &mut String, first: &Token, others: &[Token]) -> Result<(), AllocError>
    ensures { OnOk result (AddsText (objects_text (first.now ∷ others.now)) text.old text.new) }
{
    push_object(text, first)?;
    push_behind(text, others)
}

// The tokens, each as an object with a comma before it.
fn push_behind(text: &mut String, tokens: &[Token]) -> Result<(), AllocError>
    ensures { OnOk result (AddsText (behind_text tokens.now) text.old text.new) }
{
    for token in tokens {
        text.push_str(",")?;
        push_object(text, token)?;
    }
    Ok(())
}

fn push_object(text: &mut String, token: &Token) -> Result<(), AllocError>
    ensures { OnOk result (AddsText (object (token_members token.now)) text.old text.new) }
{
    text.push_str("{")?;
    push_token(text, token)?;
    text.push_str("}")
}

// Amount and denomination of a token.
fn push_token(text: &mut String, token: &Token) -> Result<(), AllocError>
    ensures { OnOk result (AddsText (token_text token.now) text.old text.new) }
{
    text.push_str("\"amount\":\"")?;
    write!(text, "{}", token.amount)?;
    text.push_str("\",")?;
    push_member(text, "denom", token.denom.as_str())
}

fn push_member(text: &mut String, name: &str, value: &str) -> Result<(), AllocError>
    ensures { OnOk result (AddsText (member name.now value.now) text.old text.new) }
{
    text.push_str("\"")?;
    text.push_str(name)?;
    text.push_str("\":\"")?;
    text.push_str(value)?;
    text.push_str("\"")
}
