//! The data of packets of tokens, taken apart.

ghost use Rattle.ibc_calls.specs.CallAnswers.{Numbered};
ghost use Rattle.ibc_calls.specs.TokenReads.{FindsDataPart, TellsDataCount, TellsDataToken, token_output};
ghost use Rattle.ibc_c.specs.Codes.{NumbersFound};

use ibc_calls::{Amount, number};
use std::alloc::Global;

/// Writes a part of the data of a packet of tokens. As `data_part`.
#[unsafe(no_mangle)]
pub extern "C" fn ibcw_data_part(
    alloc: Global,
    payload: &[u8],
    part: u64,
    text: &mut [u8],
    size: &mut usize,
) -> u32
    ensures { NumbersFound (FindsDataPart part payload.now) text.old text.new size.old size.new result }
{
    number(ibc_calls::data_part(alloc, payload, part, text, size))
}

/// Tells how many tokens the data of a packet has. As `data_count`.
#[unsafe(no_mangle)]
pub extern "C" fn ibcw_data_count(alloc: Global, payload: &[u8], count: &mut u64) -> u32
    ensures { Numbered (TellsDataCount payload.now count.old count.new) result }
{
    number(ibc_calls::data_count(alloc, payload, count))
}

/// Tells how much of which denomination the data of a packet has at an index. As `data_token`.
#[unsafe(no_mangle)]
pub extern "C" fn ibcw_data_token(
    alloc: Global,
    payload: &[u8],
    index: u64,
    amount: &mut Amount,
    denom: &mut [u8],
    size: &mut usize,
) -> u32
    ensures { Numbered (TellsDataToken index payload.now (token_output amount.old denom.old size.old) (token_output amount.new denom.new size.new)) result }
{
    number(ibc_calls::data_token(alloc, payload, index, amount, denom, size))
}
