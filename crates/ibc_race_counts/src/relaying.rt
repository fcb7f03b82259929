//! Relayers that note what they are answered.

ghost use Rattle.std.specs.Prelude.{IsOkUnless};
ghost use Rattle.ibc_ids.specs.declared.refusal.Refusal.TheVariants.{NoMemory};

use crate::RelayerLog;
use ibc_ids::Refusal;
use ibc_ledger_lock::{Chain, Gate, WorldBrand};
use ibc_machine::Event;
use ibc_relayer::plans;
use ibc_wire::Message;
use std::alloc::Global;
use std::sync::Wait;
use std::thread;
use std::thread::{JoinHandle, Threads};

/// A chain whose answers relayers note.
pub trait NotingGate<W: WorldBrand>: Gate {
    /// Sends the chain a message, and keeps the receipt in the log. Refused: `NoMemory`, also where that is the reply.
    fn submit_noting<R: Wait>(
        &self,
        rt: &R,
        log: &mut RelayerLog<W>,
        message: Message,
    ) -> Result<(), Refusal>
        ensures { IsOkUnless result NoMemory };
}

impl<W: WorldBrand + Send + Sync> NotingGate<W> for Chain<W> {
    fn submit_noting<R: Wait>(
        &self,
        rt: &R,
        log: &mut RelayerLog<W>,
        message: Message,
    ) -> Result<(), Refusal> {
        let event = Event::Message {
            chain: self.number(),
            message,
        };
        drop(log.ask(rt, self, event)?);
        Ok(())
    }
}

/// Has a relayer for each log relay between two chains at the same time, each in a thread of its own that does what
/// `relay_noting` does, while one thread more ends so many blocks of `x` and of `y`, each at the working time of its view. All
/// have returned when this answers, and the logs come back. Refused: `NoMemory`, also where that is a reply, and where a thread
/// can't be made.
pub fn relay_all_noting<
    R: Threads + Wait + Sync,
    W: WorldBrand + Send + Sync,
    X: NotingGate<W>,
    Y: NotingGate<W>,
>(
    rt: &R,
    alloc: Global,
    x: &X,
    y: &Y,
    logs: Vec<RelayerLog<W>>,
    turns: u16,
) -> Result<Vec<RelayerLog<W>>, Refusal>
    ensures { IsOkUnless result NoMemory }
{
    let mut handles = Vec::with_capacity(alloc, logs.len())?;
    let all_made = thread::scope(thread::scope_env(), rt, |scope| {
        let mut all_made = scope.spawn(move || end_blocks_of(rt, x, y, turns)).is_ok();
        for log in logs {
            match scope.spawn(move || relay_noting(rt, alloc, x, y, log, turns)) {
                Ok(handle) => all_made &= handles.push(handle).is_ok(),
                Err(_) => all_made = false,
            }
        }
        all_made
    });
    let back = logs_of(rt, alloc, handles)?;
    if all_made {
        Ok(back)
    } else {
        drop(back);
        Err(Refusal::NoMemory)
    }
}

// The logs that the relayers' threads return. `NoMemory` where one of them returns none.
fn logs_of<R: Threads, W: WorldBrand>(
    rt: &R,
    alloc: Global,
    handles: Vec<JoinHandle<Option<RelayerLog<W>>>>,
) -> Result<Vec<RelayerLog<W>>, Refusal>
    ensures { IsOkUnless result NoMemory }
{
    let mut logs = Vec::new(alloc);
    let mut are_all = true;
    for handle in handles {
        match handle.join(rt) {
            Some(log) => are_all &= logs.push(log).is_ok(),
            None => are_all = false,
        }
    }
    if are_all {
        Ok(logs)
    } else {
        drop(logs);
        Err(Refusal::NoMemory)
    }
}

/// Relays between two chains for so many turns (ICS 18, "Relayer algorithm"), and keeps the receipts in the log. A turn takes the
/// views of both, and then sends `y` what is planned for it, and `x` what is planned for that one. There is no log where memory
/// runs out.
pub fn relay_noting<R: Wait, W: WorldBrand, X: NotingGate<W>, Y: NotingGate<W>>(
    rt: &R,
    alloc: Global,
    x: &X,
    y: &Y,
    log: RelayerLog<W>,
    turns: u16,
) -> Option<RelayerLog<W>> {
    let mut log = log;
    for _turn in 0..turns {
        if take_turn_noting(rt, alloc, x, y, &mut log).is_err() {
            return None;
        }
    }
    Some(log)
}

// Takes one turn.
fn take_turn_noting<R: Wait, W: WorldBrand, X: NotingGate<W>, Y: NotingGate<W>>(
    rt: &R,
    alloc: Global,
    x: &X,
    y: &Y,
    log: &mut RelayerLog<W>,
) -> Result<(), Refusal> {
    let (for_y, for_x) = plans(alloc, x.view(), y.view())?;
    submit_each_noting(rt, y, log, for_y)?;
    submit_each_noting(rt, x, log, for_x)
}

// Sends a chain messages in turn.
fn submit_each_noting<R: Wait, W: WorldBrand, G: NotingGate<W>>(
    rt: &R,
    gate: &G,
    log: &mut RelayerLog<W>,
    messages: Vec<Message>,
) -> Result<(), Refusal> {
    for message in messages {
        gate.submit_noting(rt, log, message)?;
    }
    Ok(())
}

// Ends so many blocks of two chains, each at the working time of its view. A block that is refused stops nothing.
fn end_blocks_of<R: Wait, X: Gate, Y: Gate>(rt: &R, x: &X, y: &Y, turns: u16) {
    for _turn in 0..turns {
        drop(x.produce(rt, x.view().working_time()));
        drop(y.produce(rt, y.view().working_time()));
    }
}
