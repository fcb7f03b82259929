//! The holdings of a chain's start, in the order in which a bank keeps them.

ghost use Rattle.std.specs.Prelude.{◌≡◌, map, IfOk};
ghost use Rattle.std.specs.List.Sorted.{IsPermutation, IsSorted};
ghost use Rattle.ibc_bank.specs.SortedStarts.{shown};

use ibc_ids::{Denom, UserName};
use std::alloc::{AllocError, Global};
use std::collections::BinaryHeap;

/// The same holdings by their users, and those of one user by their denominations. So each is set behind what is held
/// already, and moves none of it. Totals stand by denominations: that of a new one may still move others.
pub(crate) fn sorted_by_user<'a>(
    alloc: Global,
    holdings: &'a [(UserName, Denom, u128)],
) -> Result<Vec<&'a (UserName, Denom, u128)>, AllocError>
    ensures { IfOk result (λ sorted. IsPermutation holdings.now (map shown sorted.items)) }
{
    let list = references(alloc, holdings)?;
    Ok(heap_sorted(list))
}

/// The same items, sorted in their place. A list that is sorted stays as it is. Else the standard library's heap sorts it,
/// by loops alone, and n items take n log n comparisons in every order.
pub fn heap_sorted<T: Ord>(list: Vec<T>) -> Vec<T>
    ensures same { IsPermutation list.items result.items }
    ensures sorted { IsSorted T.cmp result.items }
{
    if list.is_sorted() {
        return list;
    }
    BinaryHeap::from(list).into_sorted_vec()
}

// References to the holdings, in their order. Refused where there is no memory for 8 bytes a holding.
fn references<'a>(
    alloc: Global,
    holdings: &'a [(UserName, Denom, u128)],
) -> Result<Vec<&'a (UserName, Denom, u128)>, AllocError>
    ensures { IfOk result (λ list. map shown list.items ≡ holdings.now) }
{
    let mut list = Vec::with_capacity(alloc, holdings.len())?;
    for holding in holdings {
        list.push(holding)?;
    }
    Ok(list)
}
