//! The data of packets of tokens, taken apart.

ghost use Rattle.std.specs.Prelude.{◌≡◌, ◌⊎◌, None, Some, IfOk, IfErr, IsErrOf, IsOkUnless, slice_get};
ghost use Rattle.ibc_ids.specs.declared.refusal.Refusal.TheVariants.{NoMemory};
ghost use Rattle.ibc_machine.specs.ics20.TokenData.{several_tokens};
ghost use Rattle.ibc_token_data.specs.AbstractData.{abstract_data};
ghost use Rattle.ibc_calls.specs.Handles.{Finds};
ghost use Rattle.ibc_calls.specs.PacketReads.{IsCopied};
ghost use Rattle.ibc_calls.specs.TokenReads.{FindsDataPart, TellsDataToken, TellsDataCount, WritesToken, data_by, data_part, data_told, token_output};
ghost use Rattle.ibc_calls.specs.declared.answer.Refused.TheVariants.{Core, NoData};
ghost use Rattle.ibc_calls.specs.SpelledMessages.{versioned_data};

use crate::Refused;
use crate::handles::{give, write_out};
use crate::packets::copy_of;
use crate::reads::{Amount, parts_of};
use ibc_ids::{Bytes, Version};
use ibc_token_data::TokenData;
use std::alloc::Global;

/// Writes a part of the data of a packet of tokens that the bytes spell (ICS 20, "FungibleTokenPacketData"): 1 the sender, 2 the
/// receiver, 3 the memo, which is empty where there is none, 4 the version of the channels over which they spell it. Refused:
/// `NoData` exactly where they spell none over a channel of either version; `NothingThere` for another number; `TooShort`;
/// `Core(NoMemory)`.
#[tactic(auto, unfolding(crate::specs::Handles::Finds))]
pub fn data_part(
    alloc: Global,
    payload: &[u8],
    part: u64,
    text: &mut [u8],
    size: &mut usize,
) -> Result<(), Refused>
    ensures { Finds (FindsDataPart part payload.now) text.old text.new size.old size.new result }
{
    give(part_found(alloc, payload, part), text, size)
}

#[tactic(auto, unfolding(crate::specs::TokenReads::FindsDataPart))]
fn part_found(alloc: Global, bytes: &[u8], part: u64) -> Result<Bytes, Refused>
    ensures { FindsDataPart part bytes.now result }
{
    match data_told(alloc, bytes) {
        Ok((version, told)) => {
            let found = part_in(alloc, &version, &told, part);
            drop(version);
            drop(told);
            found
        }
        Err(refused) => Err(refused),
    }
}

fn part_in(alloc: Global, version: &Version, told: &TokenData, part: u64) -> Result<Bytes, Refused>
    ensures { IsCopied (data_part part (version.now, abstract_data told.now)) result }
{
    if part == 1 {
        copy_of(alloc, told.sender.as_str().as_bytes())
    } else if part == 2 {
        copy_of(alloc, told.receiver.as_str().as_bytes())
    } else if part == 3 {
        copy_of(alloc, told.memo.as_str().as_bytes())
    } else if part == 4 {
        copy_of(alloc, version.as_str().as_bytes())
    } else {
        Err(Refused::NothingThere)
    }
}

/// Tells how many tokens the data of a packet has that the bytes spell, 1 to 8. Refused: `NoData` exactly where they spell none
/// over a channel of either version; `Core(NoMemory)`. Then nothing is told.
#[tactic(auto, unfolding(crate::specs::TokenReads::TellsDataCount))]
pub fn data_count(alloc: Global, payload: &[u8], count: &mut u64) -> Result<(), Refused>
    ensures { TellsDataCount payload.now count.old count.new result }
{
    match data_told(alloc, payload) {
        Ok((version, told)) => {
            *count = told.tokens.len() as u64;
            drop(version);
            drop(told);
            Ok(())
        }
        Err(refused) => Err(refused),
    }
}

/// Tells how much of which denomination the data of a packet has that the bytes spell, by the index of the token, from 0 on.
/// Refused: `NoData` exactly where they spell none over a channel of either version; `NothingThere` where there is no such
/// token; `Core(NoMemory)`: then nothing is told. `TooShort`: then the amount and the size are told.
#[tactic(auto, unfolding(crate::specs::TokenReads::TellsDataToken))]
pub fn data_token(
    alloc: Global,
    payload: &[u8],
    index: u64,
    amount: &mut Amount,
    denom: &mut [u8],
    size: &mut usize,
) -> Result<(), Refused>
    ensures { TellsDataToken index payload.now (token_output amount.old denom.old size.old) (token_output amount.new denom.new size.new) result }
{
    match data_told(alloc, payload) {
        Ok((version, told)) => {
            let answer = token_in(&told, index, amount, denom, size);
            drop(version);
            drop(told);
            answer
        }
        Err(refused) => Err(refused),
    }
}

fn token_in(
    told: &TokenData,
    index: u64,
    amount: &mut Amount,
    denom: &mut [u8],
    size: &mut usize,
) -> Result<(), Refused>
    ensures { WritesToken (slice_get (abstract_data told.now).tokens index) (token_output amount.old denom.old size.old) (token_output amount.new denom.new size.new) result }
{
    match told.tokens.get(index as usize) {
        Some(token) => {
            *amount = parts_of(token.amount);
            write_out(token.denom.as_str().as_bytes(), denom, size)
        }
        None => Err(Refused::NothingThere),
    }
}

// The data that the bytes spell over a channel of one token a packet, or else over one of several tokens. Refused: `NoData`
// only where they spell none; `Core(NoMemory)`.
#[tactic(auto, unfolding(crate::specs::TokenReads::data_told))]
fn data_told(alloc: Global, bytes: &[u8]) -> Result<(Version, TokenData), Refused>
    ensures ok { IfOk result (λ told. data_told bytes.now ≡ Some (told.0, abstract_data told.1)) }
    ensures none { IsErrOf result NoData → data_told bytes.now ≡ None }
    ensures err { IfErr result (λ why. (why ≡ NoData) ⊎ (why ≡ Core NoMemory)) }
{
    let version = Version::parse(alloc, "ics20-1")?;
    match data_by(alloc, version, bytes)? {
        Some(told) => Ok(told),
        None => several_told(alloc, bytes),
    }
}

// The data that the bytes spell over a channel of several tokens a packet. Refused as by `data_told`.
fn several_told(alloc: Global, bytes: &[u8]) -> Result<(Version, TokenData), Refused>
    ensures ok { IfOk result (λ t. data_by several_tokens bytes.now ≡ Some (t.0, abstract_data t.1)) }
    ensures none { IsErrOf result NoData → data_by several_tokens bytes.now ≡ None }
    ensures err { IfErr result (λ why. (why ≡ NoData) ⊎ (why ≡ Core NoMemory)) }
{
    let version = Version::parse(alloc, "ics20-own-2")?;
    match data_by(alloc, version, bytes)? {
        Some(told) => Ok(told),
        None => Err(Refused::NoData),
    }
}

// The data that the bytes spell over a channel of the version, or none. Refused: `Core(NoMemory)`.
#[tactic(auto, unfolding(crate::specs::TokenReads::data_by))]
fn data_by(
    alloc: Global,
    version: Version,
    bytes: &[u8],
) -> Result<Option<(Version, TokenData)>, Refused>
    ensures ok { IfOk result (λ found. data_by version bytes.now ≡ versioned_data found) }
    ensures err { IsOkUnless result (Core NoMemory) }
{
    let read = TokenData::read(alloc, &version, bytes);
    match read {
        Ok(Some(told)) => Ok(Some((version, told))),
        Ok(None) => {
            drop(version);
            Ok(None)
        }
        Err(refusal) => {
            drop(version);
            Err(Refused::Core(refusal))
        }
    }
}
