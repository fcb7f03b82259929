//! What a channel of tokens has, by the ledgers of its two ends.

ghost use Rattle.std.specs.Prelude.{◌≡◌, Some};
ghost use Rattle.ibc_calls.specs.ChannelReads.{TellsOfMembers, TellsOfPeer, TellsTotals, sums_of, TellsSumsOf};

use crate::reads::{escrow_names, parts_of};
use crate::{Amount, Refused};
use ibc_handle::{Handle, HandleValue, WorldLedger};
use ibc_ledger::Ledger;
use ibc_machine::Totals;
use ibc_world_core::totals_of_ledgers;
use std::alloc::Global;

/// What a channel of tokens has of a denomination (ICS 20, "Correctness"): what its escrow account holds, its vouchers on the
/// peer's chain, what is under way to the peer, and what is under way back.
#[repr(C)]
#[derive(Clone, Copy, Debug, PartialEq, Eq, Drop)]
pub struct ChannelTotals {
    pub escrow: Amount,
    pub vouchers: Amount,
    pub out: Amount,
    pub back: Amount,
}

/// Tells what the end of a channel of port `transfer` has of a denomination in the working block of a ledger, where the other handle
/// holds the ledger of the peer's chain. Refused, by the first check that fails: `Empty` and `OtherKind` where the first handle
/// holds no ledger, and then where the second holds none; `OtherWorld` where the numbers of their worlds differ; `Core(BadName)`
/// exactly where a name is none of its kind; and `Core` as `totals_of_ledgers` refuses. Then nothing is told.
#[tactic(auto, unfolding(crate::specs::ChannelReads::TellsTotals))]
pub fn totals(
    alloc: Global,
    ledger: &mut Handle,
    peer: &mut Handle,
    channel: &[u8],
    denom: &[u8],
    told: &mut ChannelTotals,
) -> Result<(), Refused>
    ensures ledger { ledger.new.value ≡ ledger.old.value }
    ensures peer { peer.new.value ≡ peer.old.value }
    ensures told { TellsTotals channel.now denom.now ledger.old.value peer.old.value told.old told.new result }
{
    match ledger.take(alloc) {
        None => Err(Refused::Empty),
        Some(held) => {
            let answer = totals_at(alloc, &held, peer, channel, denom, told);
            ledger.set(alloc, held);
            answer
        }
    }
}

#[tactic(auto, unfolding(crate::specs::ChannelReads::TellsTotals))]
fn totals_at(
    alloc: Global,
    held: &HandleValue,
    peer: &mut Handle,
    channel: &[u8],
    denom: &[u8],
    told: &mut ChannelTotals,
) -> Result<(), Refused>
    ensures kept { peer.new.value ≡ peer.old.value }
    ensures told { TellsTotals channel.now denom.now (Some held.now) peer.old.value told.old told.new result }
{
    match held {
        HandleValue::Ledger(member) => totals_from(alloc, member, peer, channel, denom, told),
        _ => Err(Refused::OtherKind),
    }
}

#[tactic(auto, unfolding(crate::specs::ChannelReads::TellsOfPeer))]
fn totals_from(
    alloc: Global,
    member: &WorldLedger,
    peer: &mut Handle,
    channel: &[u8],
    denom: &[u8],
    told: &mut ChannelTotals,
) -> Result<(), Refused>
    ensures kept { peer.new.value ≡ peer.old.value }
    ensures told { TellsOfPeer channel.now denom.now member.now peer.old.value told.old told.new result }
{
    match peer.take(alloc) {
        None => Err(Refused::Empty),
        Some(held) => {
            let answer = totals_with(alloc, member, &held, channel, denom, told);
            peer.set(alloc, held);
            answer
        }
    }
}

#[tactic(auto, unfolding(crate::specs::ChannelReads::TellsOfPeer))]
fn totals_with(
    alloc: Global,
    member: &WorldLedger,
    held: &HandleValue,
    channel: &[u8],
    denom: &[u8],
    told: &mut ChannelTotals,
) -> Result<(), Refused>
    ensures { TellsOfPeer channel.now denom.now member.now (Some held.now) told.old told.new result }
{
    match held {
        HandleValue::Ledger(peer) => totals_of(alloc, member, peer, channel, denom, told),
        _ => Err(Refused::OtherKind),
    }
}

fn totals_of(
    alloc: Global,
    member: &WorldLedger,
    peer: &WorldLedger,
    channel: &[u8],
    denom: &[u8],
    told: &mut ChannelTotals,
) -> Result<(), Refused>
    ensures { TellsOfMembers channel.now denom.now member.now peer.now told.old told.new result }
{
    if member.number != peer.number {
        return Err(Refused::OtherWorld);
    }
    tell_sums(alloc, &member.ledger, &peer.ledger, channel, denom, told)
}

fn tell_sums(
    alloc: Global,
    ledger: &Ledger,
    peer: &Ledger,
    channel: &[u8],
    denom: &[u8],
    told: &mut ChannelTotals,
) -> Result<(), Refused>
    ensures { TellsSumsOf channel.now denom.now ledger.now peer.now told.old told.new result }
{
    let (channel, denom) = escrow_names(alloc, channel, denom)?;
    match totals_of_ledgers(alloc, ledger, peer, &channel, &denom) {
        Ok(sums) => {
            *told = in_parts(sums);
            Ok(())
        }
        Err(refusal) => Err(Refused::Core(refusal)),
    }
}

fn in_parts(sums: Totals) -> ChannelTotals
    ensures { sums_of result ≡ sums }
{
    ChannelTotals {
        escrow: parts_of(sums.escrow),
        vouchers: parts_of(sums.vouchers),
        out: parts_of(sums.out),
        back: parts_of(sums.back),
    }
}
