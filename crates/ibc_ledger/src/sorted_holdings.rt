//! The holdings of a chain's start, in an order that shows whether they are fair.

ghost use Rattle.std.specs.Prelude.{◌≡◌, ◌<◌, ◌+◌, false, length, IfOk, IfSome, IfNone, IsTrue};
ghost use Rattle.ibc_ledger.specs.SortedHoldings.{AreSorted, AreSortedHoldings, AreFairSoFar, IsStanding, all_shown, are_base, are_all_fair};

use ibc_bank::heap_sorted;
use ibc_ids::{Denom, UserName};
use std::alloc::{AllocError, Global};

/// A holding that stands by its denomination, and among those of one denomination by its user.
#[derive(Clone, Copy, PartialEq, Eq, PartialOrd, Ord)]
pub(crate) struct DenomHolding<'a> {
    denom: &'a Denom,
    user: &'a UserName,
    amount: u128,
}

/// The holdings by their denominations, and those of one denomination by their users. Refused where there is no memory for
/// 32 bytes a holding.
pub(crate) fn sorted_holdings<'a>(
    alloc: Global,
    holdings: &'a [(UserName, Denom, u128)],
) -> Result<Vec<DenomHolding<'a>>, AllocError>
    ensures { IfOk result (λ sorted. AreSortedHoldings holdings.now (all_shown sorted.items)) }
{
    let list = listed(alloc, holdings)?;
    Ok(heap_sorted(list))
}

// The holdings in their order.
fn listed<'a>(
    alloc: Global,
    holdings: &'a [(UserName, Denom, u128)],
) -> Result<Vec<DenomHolding<'a>>, AllocError>
    ensures { IfOk result (λ list. all_shown list.items ≡ holdings.now) }
{
    let mut list = Vec::with_capacity(alloc, holdings.len())?;
    for holding in holdings {
        list.push(DenomHolding {
            denom: &holding.1,
            user: &holding.0,
            amount: holding.2,
        })?;
    }
    Ok(list)
}

/// Whether sorted holdings of base denominations are fair. No two next to each other are of the same user and
/// denomination, and the amounts of each denomination, which stand in a row, fit 128 bits together.
pub(crate) fn are_fair_in_order(sorted: &[DenomHolding<'_>]) -> bool
    requires sorted { AreSorted (all_shown sorted.now) }
    requires base { IsTrue (are_base (all_shown sorted.now)) }
    ensures { result ≡ are_all_fair (all_shown sorted.now) }
{
    let mut total: u128 = 0;
    for i in 0..sorted.len() {
        let Some(next) = next_total(sorted, i, total) else {
            return false;
        };
        total = next;
    }
    true
}

// The total of a denomination up to its holding at place i. None where the holdings aren't fair.
fn next_total(sorted: &[DenomHolding<'_>], i: usize, total: u128) -> Option<u128>
    requires sorted { AreSorted (all_shown sorted.now) }
    requires inside { i < length sorted.now }
    requires so_far { AreFairSoFar (all_shown sorted.now) i total }
    ensures more { IfSome result (AreFairSoFar (all_shown sorted.now) (i + 1)) }
    ensures unfair { IfNone result (are_all_fair (all_shown sorted.now) ≡ false) }
{
    let holding = &sorted[i];
    holding.user.lemma_has_form();
    let standing = total_before(sorted, i, total)?;
    standing.checked_add(holding.amount)
}

// What the holdings before place i come to in the denomination there. None where the one before is the same.
fn total_before(sorted: &[DenomHolding<'_>], i: usize, total: u128) -> Option<u128>
    requires sorted { AreSorted (all_shown sorted.now) }
    requires inside { i < length sorted.now }
    requires so_far { AreFairSoFar (all_shown sorted.now) i total }
    ensures standing { IfSome result (IsStanding (all_shown sorted.now) i) }
    ensures unfair { IfNone result (are_all_fair (all_shown sorted.now) ≡ false) }
{
    if i == 0 {
        return Some(0);
    }
    let holding = &sorted[i];
    let before = &sorted[i - 1];
    if before.denom != holding.denom {
        Some(0)
    } else if before.user != holding.user {
        Some(total)
    } else {
        None
    }
}
