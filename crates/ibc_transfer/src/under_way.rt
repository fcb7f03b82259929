//! What is under way of a denomination.

ghost use Rattle.std.specs.Prelude.{◌≡◌, IfOk, IsOkUnless};
ghost use Rattle.ibc_ids.specs.declared.refusal.Refusal.TheVariants.{NoMemory};
ghost use Rattle.ibc_machine.specs.promises.Totals.{has_succeeded};
ghost use Rattle.ibc_transfer.specs.InFlight.{IsFlight, IsUnderWay};

use crate::acks::is_success;
use ibc_ids::{Denom, Refusal, Version};
use ibc_records::{Channel, Commitment};
use ibc_token_data::TokenData;
use std::alloc::Global;

/// How much of a denomination is under way from an end of a channel to its peer: what the packets have that stand committed
/// there and that the peer hasn't received with success (ICS 20, "Correctness"). `None` where that is more than 2^128 - 1.
/// Refused: `NoMemory`.
pub fn in_flight(
    alloc: Global,
    mine: &Channel,
    theirs: &Channel,
    denom: &Denom,
) -> Result<Option<u128>, Refusal>
    ensures ok { IfOk result (λ sum. IsFlight denom.now mine.now theirs.now sum) }
    ensures err { IsOkUnless result NoMemory }
{
    let version = &mine.end().version;
    let mut sum: u128 = 0;
    for (sequence, commitment) in mine.commitments() {
        let Some(amount) = amount_under_way(alloc, version, theirs, denom, *sequence, commitment)?
        else {
            return Ok(None);
        };
        let Some(more) = sum.checked_add(amount) else {
            return Ok(None);
        };
        sum = more;
    }
    Ok(Some(sum))
}

// How much of a denomination a packet has under way, by its sequence and what is committed of it; `None` where that is more
// than 2^128 - 1. Refused: `NoMemory`.
fn amount_under_way(
    alloc: Global,
    version: &Version,
    theirs: &Channel,
    denom: &Denom,
    sequence: u64,
    commitment: &Commitment,
) -> Result<Option<u128>, Refusal>
    ensures ok { IsUnderWay version.now denom.now theirs.now sequence commitment.now result }
    ensures err { IsOkUnless result NoMemory }
{
    if has_succeeded(theirs, sequence) {
        return Ok(Some(0));
    }
    match TokenData::read(alloc, version, commitment.payload.as_slice())? {
        Some(data) => Ok(data.amount_of(denom)),
        None => Ok(Some(0)),
    }
}

// Whether the packet of a sequence was received at the end, and acknowledged with success.
fn has_succeeded(theirs: &Channel, sequence: u64) -> bool
    ensures { result ≡ has_succeeded theirs.now sequence }
{
    match theirs.ack(sequence) {
        Some(ack) => is_success(ack.as_slice()),
        None => false,
    }
}
