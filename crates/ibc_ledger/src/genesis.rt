//! Which genesis a world may begin with.

ghost use Rattle.std.specs.Prelude.{◌≡◌, ◌≤◌, ◌^◌, nat_lt, length, take, IsTrue};
ghost use Rattle.std.specs.List.{list_all, count_by};
ghost use Rattle.ibc_machine.specs.chain.Genesis.{genesis_state, has_limits, is_same_holding, is_fair, is_allowed, total_of};
ghost use Rattle.ibc_ledger.specs.SortedHoldings.{are_base};

use crate::sorted_holdings::{are_fair_in_order, sorted_holdings};
use ibc_ids::{Denom, UserName};
use ibc_machine::{ChainStart, Genesis};
use std::alloc::{AllocError, Global};

/// Whether a genesis is allowed: 2 to 8 chains; a capacity of 1 to 1,000,000 and a window of 1 to 4,096, at most the
/// capacity; of each chain, balances of base denominations only, no user and denomination twice, and of no denomination
/// more than 2^128 - 1 together.
#[tactic(auto, unfolding(ibc_machine::specs::chain::Genesis::is_allowed))]
pub fn is_allowed(genesis: &Genesis) -> bool
    ensures { result ≡ is_allowed (genesis_state genesis.now) }
{
    2 <= genesis.chains.len()
        && genesis.chains.len() <= 8
        && has_limits(genesis)
        && genesis.chains.iter().all(is_fair_start)
}

fn has_limits(genesis: &Genesis) -> bool
    ensures { result ≡ has_limits (genesis_state genesis.now) }
{
    1 <= genesis.capacity
        && genesis.capacity <= 1_000_000
        && 1 <= genesis.window
        && genesis.window <= 4096
        && genesis.window <= genesis.capacity
}

// The first few are asked one by one, and then each denomination, before work grows with all.
fn is_fair_start(start: &ChainStart) -> bool
    ensures { result ≡ list_all (is_fair start.now.balances.items) start.now.balances.items }
{
    let holdings = start.balances.as_slice();
    are_fair(first_few(holdings), holdings)
        && are_base(holdings)
        && are_fair_once_sorted(*start.balances.allocator(), holdings)
}

// The first holdings, as many as their number has binary digits.
fn first_few(holdings: &[(UserName, Denom, u128)]) -> &[(UserName, Denom, u128)]
    ensures first { result.now ≡ take (length result.now) holdings.now }
    ensures few { length result.now ≤ 64 }
{
    let digits = usize::BITS - holdings.len().leading_zeros();
    let (few, _) = holdings.split_at(holdings.len().min(digits as usize));
    few
}

// Whether all denominations are base ones.
fn are_base(holdings: &[(UserName, Denom, u128)]) -> bool
    ensures { result ≡ are_base holdings.now }
{
    holdings.iter().all(|holding| holding.1.is_base())
}

// Sorted, n holdings of base denominations are judged in n log n steps. Where memory for that is refused, each is
// compared with all.
fn are_fair_once_sorted(alloc: Global, holdings: &[(UserName, Denom, u128)]) -> bool
    requires { IsTrue (are_base holdings.now) }
    ensures { result ≡ list_all (is_fair holdings.now) holdings.now }
{
    match sorted_holdings(alloc, holdings) {
        Ok(sorted) => are_fair_in_order(&sorted),
        Err(AllocError) => are_fair(holdings, holdings),
    }
}

// Whether some of the holdings are fair among all.
fn are_fair(some: &[(UserName, Denom, u128)], holdings: &[(UserName, Denom, u128)]) -> bool
    ensures { result ≡ list_all (is_fair holdings.now) some.now }
{
    some.iter().all(|holding| is_fair(holdings, holding))
}

// The user holds the denomination, a base one, once, and all amounts of it fit 128 bits together.
fn is_fair(holdings: &[(UserName, Denom, u128)], holding: &(UserName, Denom, u128)) -> bool
    ensures { result ≡ is_fair holdings.now holding.now }
{
    // The name has the form of a user's, by what `as_str` ensures.
    holding.0.as_str();
    holding.1.is_base() && count_of(holdings, holding) == 1 && is_total_small(holdings, &holding.1)
}

fn count_of(holdings: &[(UserName, Denom, u128)], holding: &(UserName, Denom, u128)) -> usize
    ensures { result ≡ count_by (is_same_holding holding.now) holdings.now }
{
    holdings
        .iter()
        .filter(|other| holding.0 == other.0 && holding.1 == other.1)
        .count()
}

// All amounts of the denomination fit 128 bits together.
fn is_total_small(holdings: &[(UserName, Denom, u128)], denom: &Denom) -> bool
    ensures { result ≡ nat_lt (total_of denom.now holdings.now) (2 ^ 128) }
{
    let mut total: u128 = 0;
    for holding in holdings {
        if holding.1 == *denom {
            let Some(more) = total.checked_add(holding.2) else {
                return false;
            };
            total = more;
        }
    }
    true
}
