//! Relayers that work at the same time.

ghost use Rattle.std.specs.Prelude.{◌≤◌, IsOkUnless};
ghost use Rattle.ibc_ids.specs.declared.refusal.Refusal.TheVariants.{NoMemory};

use crate::turns::relay;
use ibc_ids::Refusal;
use ibc_ledger_lock::Gate;
use std::alloc::Global;
use std::sync::Wait;
use std::thread;
use std::thread::{JoinHandle, Threads};

/// Relays between two chains by so many relayers at the same time, each in a thread of its own that does what `relay` does,
/// while one thread more ends so many blocks of `x` and of `y`, each at the working time of its view. All have returned when
/// this answers. The answer is the number of replies that were `Ok`, of all relayers together. `NoMemory` where one of them
/// found no memory, and where a thread can't be made: what was accepted before stands.
pub fn relay_all<R: Threads + Wait + Sync, X: Gate, Y: Gate>(
    rt: &R,
    alloc: Global,
    x: &X,
    y: &Y,
    relayers: u8,
    turns: u16,
) -> Result<u64, Refusal>
    requires { 1 ≤ relayers × relayers ≤ 8 }
    ensures { IsOkUnless result NoMemory }
{
    let mut handles = Vec::with_capacity(alloc, usize::from(relayers))?;
    let all_made = thread::scope(thread::scope_env(), rt, |scope| {
        let mut all_made = scope.spawn(move || end_blocks(rt, x, y, turns)).is_ok();
        for _ in 0..relayers {
            match scope.spawn(move || relay(rt, alloc, x, y, turns).ok()) {
                Ok(handle) => all_made &= handles.push(handle).is_ok(),
                Err(_) => all_made = false,
            }
        }
        all_made
    });
    let accepted = sum_of(rt, handles);
    if all_made {
        accepted
    } else {
        Err(Refusal::NoMemory)
    }
}

// What the relayers' threads return, added up. `NoMemory` where one of them returns nothing.
fn sum_of<R: Threads>(rt: &R, handles: Vec<JoinHandle<Option<u64>>>) -> Result<u64, Refusal>
    ensures { IsOkUnless result NoMemory }
{
    let mut sum = Ok(0u64);
    for handle in handles {
        sum = match (sum, handle.join(rt)) {
            (Ok(sum), Some(accepted)) => Ok(sum.saturating_add(accepted)),
            _ => Err(Refusal::NoMemory),
        };
    }
    sum
}

// Ends so many blocks of two chains, each at the working time of its view. A block that is refused stops nothing.
fn end_blocks<R: Wait, X: Gate, Y: Gate>(rt: &R, x: &X, y: &Y, turns: u16) {
    for _turn in 0..turns {
        drop(x.produce(rt, x.view().working_time()));
        drop(y.produce(rt, y.view().working_time()));
    }
}
