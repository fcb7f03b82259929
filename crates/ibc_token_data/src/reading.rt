//! How data is read from its one spelling.

ghost use Rattle.ibc_machine.specs.ics20.TokenData.{has_several};
ghost use Rattle.ibc_token_data.specs.AbstractData.{abstract_data};
ghost use Rattle.ibc_token_data.specs.Cutting.{Gives, only_if, token_of, tokens_in, told_with, one_told, several_told, told_by};
ghost use Rattle.ibc_token_data.specs.ShownParties.{shown_parties};

use crate::TokenData;
use crate::cutting::{Parties, behind, is_row, is_text, one_cut, parties_behind, token_at};
use crate::fault::TokenDataFault;
use crate::forms::has_several;
use ibc_ids::{Name, NameKind, Refusal, Version};
use ibc_wire::Token;
use std::alloc::Global;

// The name with these bytes. Faults: `NotData` where they haven't the form of the kind; `NoMemory`.
fn named<K: NameKind>(alloc: Global, text: &[u8]) -> Result<Name<K>, TokenDataFault>
    ensures { Gives (λ name. name) result (only_if (K.form text.now) text.now) }
{
    match Name::from_bytes(alloc, text) {
        Ok(name) => Ok(name),
        Err(Refusal::NoMemory) => Err(TokenDataFault::NoMemory),
        Err(_) => Err(TokenDataFault::NotData),
    }
}

// The token of this amount and denomination. Faults: `NotData` where the bytes are no denomination; `NoMemory`.
fn token_of(alloc: Global, amount: u128, denom: &[u8]) -> Result<Token, TokenDataFault>
    ensures { Gives (λ token. token) result (token_of amount denom.now) }
{
    Ok(Token {
        denom: named(alloc, denom)?,
        amount,
    })
}

// Up to 8 tokens and the end of their list. Faults: `NotData` where the text is none; `NoMemory`.
fn tokens_in(alloc: Global, text: &[u8]) -> Result<Vec<Token>, TokenDataFault>
    ensures { Gives (λ tokens. tokens.items) result (tokens_in 8 text.now) }
{
    let mut tokens = Vec::new(alloc);
    let mut rest = text;
    while tokens.len() < 8 {
        let Some((amount, denom, next)) = token_at(rest) else {
            return Err(TokenDataFault::NotData);
        };
        tokens.push(token_of(alloc, amount, denom)?)?;
        if is_text(next, b"}]}") {
            return Ok(tokens);
        }
        let Some(next) = behind(b"},", next) else {
            return Err(TokenDataFault::NotData);
        };
        rest = next;
    }
    Err(TokenDataFault::NotData)
}

// The data with these tokens and parties. Faults: `NotData` where a party has not its form; `NoMemory`.
fn told_with(
    alloc: Global,
    tokens: Vec<Token>,
    parties: &Parties<'_>,
) -> Result<TokenData, TokenDataFault>
    ensures { Gives abstract_data result (told_with tokens.items (shown_parties parties.now)) }
{
    Ok(TokenData {
        tokens,
        memo: named(alloc, parties.memo)?,
        receiver: named(alloc, parties.receiver)?,
        sender: named(alloc, parties.sender)?,
    })
}

// The data of one token that the text may spell. Faults: `NotData` where there is none; `NoMemory`.
fn one_told(alloc: Global, text: &[u8]) -> Result<TokenData, TokenDataFault>
    ensures { Gives abstract_data result (one_told text.now) }
{
    let Some((amount, denom, parties)) = one_cut(text) else {
        return Err(TokenDataFault::NotData);
    };
    let mut tokens = Vec::new(alloc);
    tokens.push(token_of(alloc, amount, denom)?)?;
    told_with(alloc, tokens, &parties)
}

// The data of several tokens that the text may spell. Faults: `NotData` where there is none; `NoMemory`.
fn several_told(alloc: Global, text: &[u8]) -> Result<TokenData, TokenDataFault>
    ensures { Gives abstract_data result (several_told text.now) }
{
    let Some(parties) = parties_behind(b"{", text) else {
        return Err(TokenDataFault::NotData);
    };
    let Some(list) = behind(b",\"tokens\":[", parties.rest) else {
        return Err(TokenDataFault::NotData);
    };
    if !is_row(list) {
        return Err(TokenDataFault::NotData);
    }
    let tokens = tokens_in(alloc, list)?;
    told_with(alloc, tokens, &parties)
}

/// The data of which the text may be the spelling over a channel of the version. Faults: `NotData` where there is none;
/// `NoMemory`.
pub(crate) fn told_by(
    alloc: Global,
    version: &Version,
    text: &[u8],
) -> Result<TokenData, TokenDataFault>
    ensures { Gives abstract_data result (told_by (has_several version.now) text.now) }
{
    if has_several(version) {
        several_told(alloc, text)
    } else {
        one_told(alloc, text)
    }
}
