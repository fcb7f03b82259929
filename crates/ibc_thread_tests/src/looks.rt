//! Threads that look at a chain while it goes on, and send what is planned from it to another.

use crate::asked::{Answer, take_steps};
use crate::histories::history_of;
use ibc_ids::Refusal;
use ibc_ledger::View;
use ibc_ledger_lock::Gate;
use ibc_relayer::plan;
use ibc_script::Fault;
use ibc_script_cli::Race;
use std::alloc::Global;
use std::sync::Wait;
use std::thread;
use std::thread::{JoinHandle, Threads};

/// How many threads look.
const LOOKERS: usize = 2;

/// How often a thread looks at least.
const LOOKS: u32 = 1_000;

/// How often it looks at most.
const MOST_LOOKS: u32 = 1_000_000;

/// The height at which the chain ends.
const LAST: u64 = 34;

/// The line of a packet that was received, and that of one that was received before.
const RECEIVED: &str = r#"b RecvPacket ok {"result":"AQ=="}"#;

const REPEATED: &str = "b RecvPacket no 20";

// Sends a chain what is planned for it from a view of the other.
fn send_plan<G: Gate, R: Wait>(alloc: Global, rt: &R, from: &View, to: &G) -> Result<(), Refusal> {
    for message in plan(alloc, from, to.view())? {
        drop(to.submit(rt, message));
    }
    Ok(())
}

// Looks at a chain so often and on until it shows the last height; where it shows a new one, the other chain is sent what is
// planned for it. The result is whether the height came, and none fell. Refused: `NoMemory`.
fn look<G: Gate, R: Wait>(rt: &R, alloc: Global, from: &G, to: &G) -> Result<bool, Refusal> {
    let mut seen = 0u64;
    for turn in 0..MOST_LOOKS {
        let view = from.view();
        let before = seen;
        seen = view.height();
        if seen < before {
            return Ok(false);
        }
        if seen > before {
            send_plan(alloc, rt, view, to)?;
        }
        if turn >= LOOKS && seen == LAST {
            return Ok(true);
        }
        thread::yield_now();
    }
    Ok(false)
}

// Whether each of the threads saw what it must.
fn all_saw<R: Threads>(rt: &R, looking: Vec<JoinHandle<bool>>) -> bool {
    let mut right = looking.len() == LOOKERS;
    for handle in looking {
        right &= handle.join(rt);
    }
    right
}

/// Takes the steps of a script by the calls of `Gate`, while two threads look at the first of two chains and relay to the
/// second. The result is what was answered, and whether they saw what they must. Faults: those that stop a run.
pub fn take_steps_watched<R: Threads + Wait + Sync, G: Gate>(
    rt: &R,
    alloc: Global,
    gates: &[G],
    race: Race,
) -> Result<(Vec<Answer>, bool), Fault> {
    let mut looking = Vec::new(alloc);
    let answers = thread::scope(thread::scope_env(), rt, |scope| {
        if let [a, b] = gates {
            for _ in 0..LOOKERS {
                if let Ok(handle) = scope.spawn(move || look(rt, alloc, a, b) == Ok(true)) {
                    drop(looking.push(handle));
                }
            }
        }
        take_steps(rt, alloc, gates, race)
    });
    let saw = all_saw(rt, looking);
    Ok((answers?, saw))
}

/// Whether the second of two chains received 30 packets, and refused what it was given again and nothing else.
pub fn received_thirty<G: Gate, R: Wait>(
    rt: &R,
    alloc: Global,
    gates: &[G],
) -> Result<bool, Refusal> {
    let [_, b] = gates else {
        return Ok(false);
    };
    let lines = history_of(alloc, rt, b, "b", 0)?;
    let received = lines.lines().filter(|line| *line == RECEIVED).count();
    let mut refused = lines.lines().filter(|line| line.contains(" no "));
    Ok(received == 30 && refused.all(|line| line == REPEATED))
}
