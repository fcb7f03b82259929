//! What is read of ledgers.

ghost use Rattle.std.specs.Prelude.{◌≡◌};
ghost use Rattle.ibc_calls.specs.CallAnswers.{Numbered};
ghost use Rattle.ibc_calls.specs.ChannelReads.{TellsTotals};
ghost use Rattle.ibc_calls.specs.Holdings.{FindsHolding, TellsHolding, TellsHoldingCount};
ghost use Rattle.ibc_calls.specs.History.{TellsEvent, TellsLength, TellsReply, reply_output, event_output};
ghost use Rattle.ibc_calls.specs.ViewProofs.{FindsProved};
ghost use Rattle.ibc_calls.specs.Reads.{TellsSupply};
ghost use Rattle.ibc_c.specs.Codes.{NumbersFound};
ghost use Rattle.ibc_c.specs.NumberedCalls.{NumbersBalances, NumbersBalance, NumbersEscrow, NumbersRead};

use ibc_calls::{Amount, ChannelTotals, EventCode, ReplyCode, number};
use ibc_handle::Handle;
use std::alloc::Global;

/// Tells how many entries a ledger's history has, or a plan, a list of balances, one of notes or an audit. As `length`.
#[unsafe(no_mangle)]
pub extern "C" fn ibcw_length(alloc: Global, handle: &mut Handle, count: &mut u64) -> u32
    ensures kept { handle.new.value ≡ handle.old.value }
    ensures told { Numbered (TellsLength handle.old.value count.old count.new) result }
{
    number(ibc_calls::length(alloc, handle, count))
}

/// Tells the reply of an entry of a ledger's history. As `history_reply`.
#[unsafe(no_mangle)]
pub extern "C" fn ibcw_reply(
    alloc: Global,
    ledger: &mut Handle,
    index: u64,
    told: &mut ReplyCode,
    bytes: &mut [u8],
    size: &mut usize,
) -> u32
    ensures kept { ledger.new.value ≡ ledger.old.value }
    ensures told { Numbered (TellsReply index ledger.old.value (reply_output told.old bytes.old size.old) (reply_output told.new bytes.new size.new)) result }
{
    number(ibc_calls::history_reply(alloc, ledger, index, told, bytes, size))
}

/// Tells what a ledger was asked by an entry of its history. As `history_event`.
#[unsafe(no_mangle)]
pub extern "C" fn ibcw_event(
    alloc: Global,
    ledger: &mut Handle,
    index: u64,
    asked: &mut EventCode,
    bytes: &mut [u8],
    size: &mut usize,
) -> u32
    ensures kept { ledger.new.value ≡ ledger.old.value }
    ensures told { Numbered (TellsEvent index ledger.old.value (event_output asked.old bytes.old size.old) (event_output asked.new bytes.new size.new)) result }
{
    number(ibc_calls::history_event(alloc, ledger, index, asked, bytes, size))
}

/// Writes the value at the path of a key in the working block of a ledger. As `query`.
#[unsafe(no_mangle)]
pub extern "C" fn ibcw_query(
    alloc: Global,
    ledger: &mut Handle,
    path: &[u8],
    value: &mut [u8],
    size: &mut usize,
) -> u32
    ensures kept { ledger.new.value ≡ ledger.old.value }
    ensures found { NumbersRead path.now ledger.old.value value.old value.new size.old size.new result }
{
    number(ibc_calls::query(alloc, ledger, path, value, size))
}

/// Writes the bytes of the proof of what a committed height of a ledger has at the path of a key. As `prove`.
#[unsafe(no_mangle)]
pub extern "C" fn ibcw_prove(
    alloc: Global,
    ledger: &mut Handle,
    height: u64,
    path: &[u8],
    proof: &mut [u8],
    size: &mut usize,
) -> u32
    ensures kept { ledger.new.value ≡ ledger.old.value }
    ensures found { NumbersFound (FindsProved height path.now ledger.old.value) proof.old proof.new size.old size.new result }
{
    number(ibc_calls::prove(alloc, ledger, height, path, proof, size))
}

/// Makes the list of what accounts hold in an empty handle. As `make_balances`.
#[unsafe(no_mangle)]
pub extern "C" fn ibcw_make_balances(
    alloc: Global,
    ledger: &mut Handle,
    balances: &mut Handle,
) -> u32
    ensures kept { ledger.new.value ≡ ledger.old.value }
    ensures made { NumbersBalances ledger.old.value balances.old.value balances.new.value result }
{
    number(ibc_calls::make_balances(alloc, ledger, balances))
}

/// Tells how many holdings there are. As `holding_count`.
#[unsafe(no_mangle)]
pub extern "C" fn ibcw_holding_count(
    alloc: Global,
    balances: &mut Handle,
    chain: u64,
    count: &mut u64,
) -> u32
    ensures kept { balances.new.value ≡ balances.old.value }
    ensures told { Numbered (TellsHoldingCount chain balances.old.value count.old count.new) result }
{
    number(ibc_calls::holding_count(alloc, balances, chain, count))
}

/// Writes who holds what at an index. As `holding`.
#[unsafe(no_mangle)]
pub extern "C" fn ibcw_holding(
    alloc: Global,
    balances: &mut Handle,
    chain: u64,
    index: u64,
    text: &mut [u8],
    size: &mut usize,
) -> u32
    ensures kept { balances.new.value ≡ balances.old.value }
    ensures found { NumbersFound (FindsHolding chain index balances.old.value) text.old text.new size.old size.new result }
{
    number(ibc_calls::holding(alloc, balances, chain, index, text, size))
}

/// Tells how much is held at an index. As `holding_amount`.
#[unsafe(no_mangle)]
pub extern "C" fn ibcw_holding_amount(
    alloc: Global,
    balances: &mut Handle,
    chain: u64,
    index: u64,
    amount: &mut Amount,
) -> u32
    ensures kept { balances.new.value ≡ balances.old.value }
    ensures told { Numbered (TellsHolding chain index balances.old.value amount.old amount.new) result }
{
    number(ibc_calls::holding_amount(alloc, balances, chain, index, amount))
}

/// Tells what a user holds of a denomination. As `balance`.
#[unsafe(no_mangle)]
pub extern "C" fn ibcw_balance(
    alloc: Global,
    ledger: &mut Handle,
    user: &[u8],
    denom: &[u8],
    amount: &mut Amount,
) -> u32
    ensures kept { ledger.new.value ≡ ledger.old.value }
    ensures told { NumbersBalance user.now denom.now ledger.old.value amount.old amount.new result }
{
    number(ibc_calls::balance(alloc, ledger, user, denom, amount))
}

/// Tells what the escrow account of a channel holds of a denomination. As `escrow`.
#[unsafe(no_mangle)]
pub extern "C" fn ibcw_escrow(
    alloc: Global,
    ledger: &mut Handle,
    channel: &[u8],
    denom: &[u8],
    amount: &mut Amount,
) -> u32
    ensures kept { ledger.new.value ≡ ledger.old.value }
    ensures told { NumbersEscrow channel.now denom.now ledger.old.value amount.old amount.new result }
{
    number(ibc_calls::escrow(alloc, ledger, channel, denom, amount))
}

/// Tells how much of a denomination all accounts hold. As `supply`.
#[unsafe(no_mangle)]
pub extern "C" fn ibcw_supply(
    alloc: Global,
    ledger: &mut Handle,
    denom: &[u8],
    amount: &mut Amount,
) -> u32
    ensures kept { ledger.new.value ≡ ledger.old.value }
    ensures told { Numbered (TellsSupply denom.now ledger.old.value amount.old amount.new) result }
{
    number(ibc_calls::supply(alloc, ledger, denom, amount))
}

/// Tells what a channel has of a denomination, by the ledgers of its two ends. As `totals`.
#[unsafe(no_mangle)]
pub extern "C" fn ibcw_totals(
    alloc: Global,
    ledger: &mut Handle,
    peer: &mut Handle,
    channel: &[u8],
    denom: &[u8],
    told: &mut ChannelTotals,
) -> u32
    ensures ledger { ledger.new.value ≡ ledger.old.value }
    ensures peer { peer.new.value ≡ peer.old.value }
    ensures told { Numbered (TellsTotals channel.now denom.now ledger.old.value peer.old.value told.old told.new) result }
{
    number(ibc_calls::totals(alloc, ledger, peer, channel, denom, told))
}
