//! Sending tokens.

ghost use Rattle.std.specs.Prelude.{◌≡◌, ◌-◌, ◌^◌, ◌<◌, Ok, IfOk, OnOk};
ghost use Rattle.ibc_ids.specs.Texts.{same_text};
ghost use Rattle.ibc_machine.specs.ics24.Evidence.{require_number};
ghost use Rattle.ibc_machine.specs.ics20.Transfers as transfer;
ghost use Rattle.ibc_transfer.specs.TransferChecks.{require_moves};
ghost use Rattle.ibc_records.specs.OwnEnds.{IsEndAt};
ghost use Rattle.ibc_records.specs.WhyRefused.{IsRefusedAs};
ghost use Rattle.ibc_transfer.specs.TransferHandlers.{SendsOne, PaysOne, SendsMany, PaysMany, IsSentOver, IsLeavingEnd};

use crate::names::transfer_port;
use crate::outgoing::Outgoing;
use crate::transfers::Transfers;
use ibc_bank::{Bank, Move};
use ibc_ids::{ChannelId, PortId, Refusal, Version};
use ibc_records::{Channel, Records, check_number, check_timeouts, sending_end};
use ibc_token_data::are_few_and_rising;
use ibc_wire::{Transfer, TransferMany};
use std::alloc::Global;

/// Sends one token over a channel of port `transfer`, and answers the sequence of its packet (ICS 20,
/// "sendFungibleTokens"). Refused, by the first check that fails: `UnknownChannel`; `WrongState` where the end isn't in
/// `Open`; `WrongVersion` where its version isn't that of one token; `TooLarge` where the amount is 0; `NoTimeout` where
/// the message has neither timeout; `TimeoutPassed` where one is reached at the latest height that the end's client knows
/// of the peer; `Poor` where the user holds less; `NumberFull` where the next sequence is 2^64 - 1. `NoMemory` where a
/// growth is refused. A refusal leaves the records and the tokens. Balances change as the definition says, and what is
/// burnt in flight with them.
pub fn send_transfer(
    alloc: Global,
    records: &mut Records,
    transfers: &mut Transfers,
    message: &Transfer,
) -> Result<u64, Refusal>
    ensures answer { SendsOne message.now records.old transfers.old result records.new transfers.new }
    ensures counted { PaysOne message.now records.old transfers.old result records.new transfers.new }
{
    let parcel = Outgoing::of_transfer(alloc, message)?;
    send_parcel(alloc, records, transfers, &message.channel, parcel)
}

/// Sends several tokens in one packet over a channel of port `transfer`, and answers its sequence (ICS 20,
/// "sendFungibleTokens"). Refused, by the first check that fails: `BadMessage` where there aren't 1 to 8 tokens, or their
/// denominations don't rise; `UnknownChannel`; `WrongState` where the end isn't in `Open`; `WrongVersion` where its version
/// isn't that of several tokens; `TooLarge` where an amount is 0, or the packet's payload has more than 1,024 bytes;
/// `NoTimeout` where the message has neither timeout; `TimeoutPassed` where one is reached at the latest height that the
/// end's client knows of the peer; `Poor` where the user holds less of a token; `NumberFull` where the next sequence is
/// 2^64 - 1. `NoMemory` where a growth is refused. A refusal leaves the records and the tokens. Balances change as the
/// definition says, and what is burnt in flight with them.
pub fn send_transfer_many(
    alloc: Global,
    records: &mut Records,
    transfers: &mut Transfers,
    message: &TransferMany,
) -> Result<u64, Refusal>
    ensures answer { SendsMany message.now records.old transfers.old result records.new transfers.new }
    ensures counted { PaysMany message.now records.old transfers.old result records.new transfers.new }
{
    if !are_few_and_rising(message.tokens.as_slice()) {
        return Err(Refusal::BadMessage);
    }
    let parcel = Outgoing::of_transfer_many(alloc, message)?;
    send_parcel(alloc, records, transfers, &message.channel, parcel)
}

// The checks from the channel on; then the tokens leave, and the packet is committed to. The bank works out the moves as it
// pays.
fn send_parcel(
    alloc: Global,
    records: &mut Records,
    transfers: &mut Transfers,
    channel: &ChannelId,
    parcel: Outgoing,
) -> Result<u64, Refusal>
    ensures { IsSentOver channel.now parcel records.old transfers.old result records.new transfers.new }
{
    let port = transfer_port(alloc)?;
    let mine = leaving_end(records, &port, channel, &parcel)?;
    check_next(transfers.bank(), mine, parcel.moves.as_slice())?;
    let commitment = parcel.commitment;
    records.send_paid(transfers, &parcel.moves, &port, channel, commitment)
}

// The checks from the channel on that come before the payment, in their order, and the end that sends.
fn leaving_end<'a>(
    records: &'a Records,
    port: &PortId,
    channel: &ChannelId,
    parcel: &Outgoing,
) -> Result<&'a Channel, Refusal>
    requires { port.now ≡ transfer.transfer_port }
    ensures judged { IsLeavingEnd channel.now parcel.now records.now result }
    ensures there { IfOk result (λ mine. IsEndAt records.now port.now channel.now mine.now) }
{
    let mine = sending_end(records, port, channel)?;
    if !has_version(mine, &parcel.version) {
        return Err(Refusal::WrongVersion);
    }
    if !parcel.fits {
        return Err(Refusal::TooLarge);
    }
    let commitment = &parcel.commitment;
    check_timeouts(
        records,
        mine,
        commitment.timeout_height,
        commitment.timeout_time,
    )?;
    Ok(mine)
}

// Whether an end has a next sequence. Where it has none the refusal is the bank's, if it refuses the moves.
fn check_next(bank: &Bank, mine: &Channel, moves: &[Move]) -> Result<(), Refusal>
    ensures ok { OnOk result (require_number mine.now.next_send ≡ Ok tt) }
    ensures free { OnOk result (mine.now.next_send < 2 ^ 64 - 1) }
    ensures err { IsRefusedAs (require_moves bank.now moves.now mine.now.next_send) result }
{
    match check_number(mine.next_send()) {
        Ok(()) => Ok(()),
        Err(full) => {
            bank.check(moves)?;
            Err(full)
        }
    }
}

// Whether an end has a version.
fn has_version(mine: &Channel, version: &Version) -> bool
    ensures { result ≡ same_text mine.now.end.version version.now }
{
    mine.end().version == *version
}
