//! Whether escrows hold just what is out.

ghost use Rattle.std.specs.Prelude.{◌≡◌, ◌==◌, ◌+◌, IfOk};
ghost use Rattle.ibc_law_checks.specs.TokenPlaces.{IsFirstUneven, is_balanced, is_balanced_at, is_too_large};

use ibc_ids::{ChannelId, Denom, Refusal};
use ibc_machine::Totals;
use ibc_world_core::World;

/// A denomination at a channel of port `transfer` of a chain, and whether it may have moved since it was looked at.
#[derive(Drop)]
pub struct TokenPlace {
    pub chain: u8,
    pub channel: ChannelId,
    pub denom: Denom,
    pub touched: bool,
}

/// The first place whose escrow doesn't hold just the vouchers and what is under way (ICS 20, "Correctness"), of all places
/// or of those where something moved; none where each of them is even. Refused: `NoMemory`.
pub fn first_unbalanced(
    world: &World,
    places: &[TokenPlace],
    all: bool,
) -> Result<Option<usize>, Refusal>
    ensures { IfOk result (IsFirstUneven world.now all places.now) }
{
    for index in 0..places.len() {
        if !is_balanced_at(world, &places[index], all)? {
            return Ok(Some(index));
        }
    }
    Ok(None)
}

// Whether a place is even, or nothing moved there and not all are asked for.
fn is_balanced_at(world: &World, place: &TokenPlace, all: bool) -> Result<bool, Refusal>
    ensures { IfOk result (λ balanced. balanced ≡ is_balanced_at world.now all place.now) }
{
    if all || place.touched {
        is_balanced(world, place.chain, &place.channel, &place.denom)
    } else {
        Ok(true)
    }
}

// Whether the escrow of a channel holds just what is out, or the channel has no totals of the denomination.
fn is_balanced(
    world: &World,
    chain: u8,
    channel: &ChannelId,
    denom: &Denom,
) -> Result<bool, Refusal>
    ensures { IfOk result (λ balanced. balanced ≡ is_balanced world.now chain channel.now denom.now) }
{
    match world.totals(chain, channel, denom) {
        Ok(totals) => Ok(is_even(totals)),
        Err(Refusal::NoMemory) => Err(Refusal::NoMemory),
        Err(refusal) => Ok(!is_too_large(refusal)),
    }
}

// Whether a sum was too large: then it is more than any escrow holds.
fn is_too_large(refusal: Refusal) -> bool
    ensures { result ≡ is_too_large refusal }
{
    match refusal {
        Refusal::TooLarge => true,
        _ => false,
    }
}

/// Whether the escrow is the sum of what is out.
pub fn is_even(totals: Totals) -> bool
    ensures { result ≡ (totals.escrow == totals.vouchers + totals.out + totals.back) }
{
    match totals.vouchers.checked_add(totals.out) {
        Some(out) => match out.checked_add(totals.back) {
            Some(out) => totals.escrow == out,
            None => false,
        },
        None => false,
    }
}
