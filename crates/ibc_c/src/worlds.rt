//! How a world is made, and how its ledgers go on.

ghost use Rattle.std.specs.Prelude.{◌≡◌, None};
ghost use Rattle.ibc_calls.specs.CallAnswers.{Numbered, answer_number};
ghost use Rattle.ibc_calls.specs.Events.{AppliesMessage, EndsBlock};
ghost use Rattle.ibc_calls.specs.Gathering.{AreApart};
ghost use Rattle.ibc_calls.specs.GenesisHandles.{BeginsGenesis, ChainAdded};
ghost use Rattle.ibc_calls.specs.Handles.{freed};
ghost use Rattle.ibc_calls.specs.History.{reply_output};
ghost use Rattle.ibc_c.specs.NumberedCalls.{NumbersNewBalance, NumbersLedgers, NumbersTake, NumbersJoin, NumbersAudit};

use ibc_calls::{ReplyCode, number};
use ibc_handle::Handle;
use std::alloc::Global;

/// Makes a genesis with no chains in an empty handle. As `make_genesis`.
#[unsafe(no_mangle)]
pub extern "C" fn ibcw_make_genesis(
    alloc: Global,
    genesis: &mut Handle,
    capacity: u64,
    window: u64,
) -> u32
    ensures { Numbered (BeginsGenesis capacity window genesis.old.value genesis.new.value) result }
{
    number(ibc_calls::make_genesis(alloc, genesis, capacity, window))
}

/// Adds a chain to a genesis. As `add_chain`.
#[unsafe(no_mangle)]
pub extern "C" fn ibcw_add_chain(alloc: Global, genesis: &mut Handle, time: u64) -> u32
    ensures { Numbered (ChainAdded time genesis.old.value genesis.new.value) result }
{
    number(ibc_calls::add_chain(alloc, genesis, time))
}

/// Lets a user hold so much at the last chain of a genesis. As `add_balance`.
#[unsafe(no_mangle)]
pub extern "C" fn ibcw_add_balance(
    alloc: Global,
    genesis: &mut Handle,
    user: &[u8],
    denom: &[u8],
    high: u64,
    low: u64,
) -> u32
    ensures { NumbersNewBalance user.now denom.now high low genesis.old.value genesis.new.value result }
{
    number(ibc_calls::add_balance(alloc, genesis, user, denom, high, low))
}

/// Makes all ledgers of a genesis in an empty handle, under the number of their world. As `make_ledgers`.
#[unsafe(no_mangle)]
pub extern "C" fn ibcw_make_numbered_ledgers(
    alloc: Global,
    genesis: &mut Handle,
    world: u64,
    ledgers: &mut Handle,
) -> u32
    ensures kept { genesis.new.value ≡ genesis.old.value }
    ensures made { NumbersLedgers world genesis.old.value ledgers.old.value ledgers.new.value result }
{
    number(ibc_calls::make_ledgers(alloc, genesis, world, ledgers))
}

/// Moves the first of the ledgers to an empty handle. As `take_ledger`.
#[unsafe(no_mangle)]
pub extern "C" fn ibcw_take_ledger(alloc: Global, ledgers: &mut Handle, ledger: &mut Handle) -> u32
    ensures { NumbersTake ledgers.old.value ledgers.new.value ledger.old.value ledger.new.value result }
{
    number(ibc_calls::take_ledger(alloc, ledgers, ledger))
}

/// Moves a ledger to others of its world. The caller gave different worlds different numbers. As `join_ledger`.
#[unsafe(no_mangle)]
pub extern "C" fn ibcw_join_ledger(alloc: Global, ledgers: &mut Handle, ledger: &mut Handle) -> u32
    requires { AreApart ledgers.old.value ledger.old.value }
    ensures { NumbersJoin ledgers.old.value ledgers.new.value ledger.old.value ledger.new.value result }
{
    number(ibc_calls::join_ledger(alloc, ledgers, ledger))
}

/// Audits the ledgers of a world, which stay, and puts what they hold into an empty handle. As `make_audit`.
#[unsafe(no_mangle)]
pub extern "C" fn ibcw_make_audit(alloc: Global, ledgers: &mut Handle, audit: &mut Handle) -> u32
    ensures { NumbersAudit ledgers.old.value ledgers.new.value audit.old.value audit.new.value result }
{
    number(ibc_calls::make_audit(alloc, ledgers, audit))
}

/// Applies the message that the bytes spell to a ledger, and tells its reply. As `apply`.
#[unsafe(no_mangle)]
pub extern "C" fn ibcw_apply(
    alloc: Global,
    ledger: &mut Handle,
    message: &[u8],
    told: &mut ReplyCode,
    bytes: &mut [u8],
    size: &mut usize,
) -> u32
    ensures { Numbered (AppliesMessage message.now ledger.old.value ledger.new.value (reply_output told.old bytes.old size.old) (reply_output told.new bytes.new size.new)) result }
{
    number(ibc_calls::apply(alloc, ledger, message, told, bytes, size))
}

/// Ends the working block of a ledger, and tells its reply. As `end_block`.
#[unsafe(no_mangle)]
pub extern "C" fn ibcw_end_block(
    alloc: Global,
    ledger: &mut Handle,
    next_time: u64,
    told: &mut ReplyCode,
    bytes: &mut [u8],
    size: &mut usize,
) -> u32
    ensures { Numbered (EndsBlock next_time ledger.old.value ledger.new.value (reply_output told.old bytes.old size.old) (reply_output told.new bytes.new size.new)) result }
{
    number(ibc_calls::end_block(alloc, ledger, next_time, told, bytes, size))
}

/// Frees what a handle holds. As `free`.
#[unsafe(no_mangle)]
pub extern "C" fn ibcw_free(alloc: Global, handle: &mut Handle) -> u32
    ensures left { handle.new.value ≡ None }
    ensures answer { result ≡ answer_number (freed handle.old.value) }
{
    number(ibc_calls::free(alloc, handle))
}

/// The version of the library: 10,000 times its first number, 100 times the second, and the third.
#[unsafe(no_mangle)]
pub extern "C" fn ibcw_version() -> u32
    ensures { result ≡ 10000 }
{
    10_000
}
