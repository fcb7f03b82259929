//! Relayers between chains that threads share, and what comes of them.

use crate::histories::{accepted_in, received_in};
use crate::holding::Holding;
use ibc_ids::Refusal;
use ibc_ledger_lock::Gate;
use ibc_relayer::relay_all;
use std::alloc::Global;
use std::sync::Wait;
use std::thread;
use std::thread::Threads;

/// Whether eight relayers race between two chains: the second chain receives each of 50 packets once, what they answer is what
/// the histories gained, and the first message saw another relayer's answered while it was held back. Refused: `NoMemory`.
pub fn eight_race<R: Threads + Wait + Sync, G: Gate>(
    rt: &R,
    alloc: Global,
    gates: &[G],
) -> Result<bool, Refusal> {
    let [a, b] = gates else {
        return Ok(false);
    };
    let before = accepted_in(rt, a).saturating_add(accepted_in(rt, b));
    let holding = Holding::new(b);
    let accepted = relay_all(rt, alloc, a, &holding, 8, 3)?;
    let after = accepted_in(rt, a).saturating_add(accepted_in(rt, b));
    Ok(
        received_in(rt, b) == 50
            && after.saturating_sub(before) == accepted
            && holding.saw_another(),
    )
}

// Two relayers relay for five turns, between the first two of three chains or between the last two. Whether they could.
fn pair_relays<R: Threads + Wait + Sync, G: Gate>(
    rt: &R,
    alloc: Global,
    gates: &[G],
    pair: usize,
) -> bool {
    let [a, b, c] = gates else {
        return false;
    };
    let relayed = if pair == 0 {
        relay_all(rt, alloc, a, b, 2, 5)
    } else {
        relay_all(rt, alloc, b, c, 2, 5)
    };
    relayed.is_ok()
}

/// Whether two relayers between the first two of three chains and two between the last two relay at the same time, and none of
/// them finds no memory. Refused: `NoMemory`.
pub fn two_pairs_relay<R: Threads + Wait + Sync, G: Gate>(
    rt: &R,
    alloc: Global,
    gates: &[G],
) -> Result<bool, Refusal> {
    let done = thread::map_indices(rt, alloc, 2, &|k| pair_relays(rt, alloc, gates, k))?;
    Ok(done.iter().all(|done| *done))
}
