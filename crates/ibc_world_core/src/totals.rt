//! The totals of a channel: what is escrowed, present and under way.

ghost use Rattle.std.specs.Prelude.{◌≡◌, ◌^◌, ◌<◌, length, IfOk, IfErr, IsOkUnless};
ghost use Rattle.ibc_ids.specs.declared.refusal.Refusal.TheVariants.{NoMemory};
ghost use Rattle.ibc_machine.specs.ics04.Channels.{is_established};
ghost use Rattle.ibc_world_core.specs.WorldModel.{ledgers_alone};
ghost use Rattle.ibc_world_core.specs.Totals.{IsOwnEnd, AreTotals, AreRefused, TracksPeer, AllHold, FirstHold, tracked_over, AreRefusedAlone, AreTotalsIn, AreRefusedIn};
ghost use Rattle.ibc_world_core.specs.LedgerEnds.{AreTotalsWith, AreRefusedWith, IsPeerFound, escrowed_at, flight_from, sums_abroad, IsTooLarge};

use crate::World;
use ibc_ids::{Account, ChannelId, Denom, Refusal};
use ibc_ledger::Ledger;
use ibc_machine::Totals;
use ibc_records::Channel;
use ibc_transfer::{came_over, in_flight, transfer_port};
use ibc_wire::ChannelState;
use std::alloc::Global;

/// An end of a channel by its name, and the ledger that it is of.
#[derive(Clone, Copy)]
struct LedgerEnd<'a> {
    ledger: &'a Ledger,
    name: &'a ChannelId,
    end: &'a Channel,
}

impl World {
    /// What the end of a channel of port `transfer` has of a denomination (ICS 20, "Correctness"): what its escrow account
    /// holds, what the peer's chain holds of the denomination with the peer's hop before it, and what is under way there and
    /// back. Where the denomination would be longer than 256 bytes with that hop, the vouchers and what is under way back are
    /// 0. Counted are the standing commitments of the two ends, and the working balances of one denomination. Refused, the
    /// first that holds: `UnknownChain`; `UnknownChannel`; `WrongState` where the end is neither OPEN nor CLOSED; `BadMessage`
    /// where the denomination begins with the end's own hop; `WrongPeer` where the end that it names isn't there; `TooLarge`
    /// where a sum is more than 2^128 - 1. `NoMemory` may stand for any of these.
    pub fn totals(&self, chain: u8, channel: &ChannelId, denom: &Denom) -> Result<Totals, Refusal>
        ensures ok { IfOk result (λ t. AreTotalsIn self.now.ledgers chain channel.now denom.now t) }
        ensures refused { IfErr result (λ e. AreRefusedIn self.now.ledgers chain channel.now denom.now e) }
    {
        let Some(ledger) = self.ledger(chain) else {
            return Err(Refusal::UnknownChain);
        };
        let mine = own_end(self.alloc, ledger, channel, denom)?;
        let Some(tracked) = tracked_chain(mine) else {
            return Err(Refusal::WrongPeer);
        };
        let Some(peer) = self.ledger(tracked) else {
            return Err(Refusal::WrongPeer);
        };
        totals_with(self.alloc, mine, peer, denom)
    }

    /// Each denomination of which an account of a chain holds something has the form of one (ICS 20).
    pub fn lemma_holds_denominations(&self)
        ensures { AllHold self.now.ledgers }
    {
        lemma_each_holds_denominations(self.ledgers.as_slice());
    }
}

/// What `World::totals` tells of a channel of a ledger, where the peer's ledger is given. The totals are those of every world in
/// which both ledgers stand at the places of their chains. Refused, the first that holds: `UnknownChannel`; `WrongState`;
/// `BadMessage`; `WrongPeer` where the client under the end tracks another chain than the peer's, or where the end that is named
/// isn't there; `TooLarge`. `NoMemory` may stand for any of these.
pub fn totals_of_ledgers(
    alloc: Global,
    ledger: &Ledger,
    peer: &Ledger,
    channel: &ChannelId,
    denom: &Denom,
) -> Result<Totals, Refusal>
    ensures ok { IfOk result (AreTotals ledger.now.ledger peer.now.ledger channel.now denom.now) }
    ensures peer { IfOk result (λ t. TracksPeer ledger.now.ledger peer.now.ledger channel.now) }
    ensures err { IfErr result (AreRefused ledger.now.ledger peer.now.ledger channel.now denom.now) }
{
    let mine = own_end(alloc, ledger, channel, denom)?;
    let Some(tracked) = tracked_chain(mine) else {
        return Err(Refusal::WrongPeer);
    };
    if tracked != peer.chain() {
        return Err(Refusal::WrongPeer);
    }
    totals_with(alloc, mine, peer, denom)
}

// The end of a channel of port `transfer` that is OPEN or CLOSED, and over which the denomination didn't come. Refused, the first
// that holds: `UnknownChannel`, `WrongState`, `BadMessage`; or `NoMemory`.
fn own_end<'a>(
    alloc: Global,
    ledger: &'a Ledger,
    channel: &'a ChannelId,
    denom: &Denom,
) -> Result<LedgerEnd<'a>, Refusal>
    ensures ok { IfOk result (λ e. IsOwnEnd e.name.now denom.now e.ledger.now.ledger e.end.now) }
    ensures ledger { IfOk result (λ mine. mine.ledger.now.ledger ≡ ledger.now.ledger) }
    ensures name { IfOk result (λ mine. mine.name.now ≡ channel.now) }
    ensures refused { IfErr result (λ e. AreRefusedAlone ledger.now.ledger channel.now denom.now e) }
{
    let port = transfer_port(alloc)?;
    let Some(end) = ledger.channel(&port, channel)? else {
        return Err(Refusal::UnknownChannel);
    };
    if !is_established(end) {
        return Err(Refusal::WrongState);
    }
    if came_over(alloc, channel, denom)? {
        return Err(Refusal::BadMessage);
    }
    Ok(LedgerEnd {
        ledger,
        name: channel,
        end,
    })
}

// The number of the chain that the client under an end tracks, or none.
fn tracked_chain(mine: LedgerEnd<'_>) -> Option<u8>
    ensures { result ≡ tracked_over mine.entry.ledger.now.ledger mine.entry.end.now }
{
    let end = mine.end.end();
    mine.ledger.tracked_over(&end.connection)
}

// The totals of an end whose peer's ledger is this. Refused: `WrongPeer` where the end that it names isn't there; `TooLarge`;
// `NoMemory`.
fn totals_with(
    alloc: Global,
    mine: LedgerEnd<'_>,
    ledger: &Ledger,
    denom: &Denom,
) -> Result<Totals, Refusal>
    requires { IsOwnEnd mine.name.now denom.now mine.ledger.now.ledger mine.end.now }
    ensures ok { IfOk result (λ t. AreTotalsWith mine.entry ledger.now.ledger denom.now t) }
    ensures refused { IfErr result (λ e. AreRefusedWith mine.entry ledger.now.ledger denom.now e) }
{
    let Some(peer) = peer_end(mine, ledger)? else {
        return Err(Refusal::WrongPeer);
    };
    let escrow = escrowed(mine, denom)?;
    let out = under_way(alloc, mine, peer, denom)?;
    let (vouchers, back) = abroad(alloc, mine, peer, denom)?;
    Ok(Totals {
        escrow,
        vouchers,
        out,
        back,
    })
}

// The end of a ledger that an end names as its peer, or none. Refused: `NoMemory`.
fn peer_end<'a>(mine: LedgerEnd<'a>, ledger: &'a Ledger) -> Result<Option<LedgerEnd<'a>>, Refusal>
    ensures ok { IfOk result (λ found. IsPeerFound ledger.now.ledger mine.entry.end.now found) }
    ensures err { IsOkUnless result NoMemory }
{
    let end = mine.end.end();
    match ledger.named_channel(end)? {
        Some((name, end)) => Ok(Some(LedgerEnd { ledger, name, end })),
        None => Ok(None),
    }
}

fn lemma_each_holds_denominations(ledgers: &[Ledger])
    ensures { FirstHold (length ledgers.now) (ledgers_alone ledgers.now) }
{
    for ledger in ledgers {
        ledger.lemma_holds_denominations();
    }
}

// Whether an end is OPEN or CLOSED.
fn is_established(end: &Channel) -> bool
    ensures { result ≡ is_established end.now }
{
    let state = end.end().state;
    state == ChannelState::Open || state == ChannelState::Closed
}

// What the escrow account of an end holds of a denomination. Refused: `NoMemory`.
fn escrowed(mine: LedgerEnd<'_>, denom: &Denom) -> Result<u128, Refusal>
    ensures ok { IfOk result (λ amount. amount ≡ escrowed_at mine.entry denom.now) }
    ensures small { IfOk result (λ amount. amount < 2 ^ 128) }
    ensures err { IsOkUnless result NoMemory }
{
    let account = Account::Escrow(mine.name.clone()?);
    Ok(mine.ledger.balance(&account, denom))
}

// What is under way of a denomination from an end to its peer. Refused: `TooLarge` where that is more than 2^128 - 1;
// `NoMemory`.
fn under_way(
    alloc: Global,
    mine: LedgerEnd<'_>,
    peer: LedgerEnd<'_>,
    denom: &Denom,
) -> Result<u128, Refusal>
    ensures ok { IfOk result (λ amount. amount ≡ flight_from mine.entry peer.entry denom.now) }
    ensures small { IfOk result (λ amount. amount < 2 ^ 128) }
    ensures refused { IfErr result (λ e. IsTooLarge (flight_from mine.entry peer.entry denom.now) e) }
{
    match in_flight(alloc, mine.end, peer.end, denom)? {
        Some(amount) => Ok(amount),
        None => Err(Refusal::TooLarge),
    }
}

// The vouchers of a denomination at the peer, and what is under way back; both are 0 where it would be longer than 256 bytes
// with the peer's hop. Refused: `TooLarge` where what is under way is more than 2^128 - 1; `NoMemory`.
fn abroad(
    alloc: Global,
    mine: LedgerEnd<'_>,
    peer: LedgerEnd<'_>,
    denom: &Denom,
) -> Result<(u128, u128), Refusal>
    ensures ok { IfOk result (λ both. both ≡ sums_abroad mine.entry peer.entry denom.now) }
    ensures small { IfOk result (λ both. (both.0 < 2 ^ 128) × (both.1 < 2 ^ 128)) }
    ensures refused { IfErr result (λ e. IsTooLarge (sums_abroad mine.entry peer.entry denom.now).1 e) }
{
    match denom.hop(alloc, &mine.end.end().peer_port, peer.name) {
        Ok(hopped) => {
            let back = under_way(alloc, peer, mine, &hopped)?;
            Ok((peer.ledger.supply(&hopped), back))
        }
        Err(Refusal::TooLarge) => Ok((0, 0)),
        Err(refusal) => Err(refusal),
    }
}
