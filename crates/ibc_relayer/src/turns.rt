//! The turns of a relayer.

ghost use Rattle.std.specs.Prelude.{◌≡◌, ◌≤◌, IfOk, length, IsOkUnless};
ghost use Rattle.ibc_ids.specs.declared.refusal.Refusal.TheVariants.{NoMemory};
ghost use Rattle.ibc_machine.specs.ics18.Relay as relayer;

use crate::plan;
use ibc_ids::Refusal;
use ibc_ledger::View;
use ibc_ledger_lock::Gate;
use ibc_machine::Reply;
use ibc_wire::Message;
use std::alloc::Global;
use std::sync::Wait;

/// What relayers plan from views of two chains (ICS 18, "Relayer algorithm"): the messages for the second, which prove from the
/// first, and those for the first. `NoMemory` where a growth is refused.
pub fn plans(
    alloc: Global,
    first: &View,
    second: &View,
) -> Result<(Vec<Message>, Vec<Message>), Refusal>
    ensures second { IfOk result (λ plans. plans.0.items ≡ relayer.plan first.now second.now) }
    ensures first { IfOk result (λ plans. plans.1.items ≡ relayer.plan second.now first.now) }
    ensures err { IsOkUnless result NoMemory }
{
    let for_second = plan(alloc, first, second)?;
    Ok((for_second, plan(alloc, second, first)?))
}

/// Relays between two chains for so many turns (ICS 18, "Relayer algorithm"). A turn takes the views of both, and then submits
/// to `y` what is planned for it, and to `x` what is planned for that one; a message that is refused stops nothing. The answer
/// is the number of replies that were `Ok`. `NoMemory` where a plan finds no memory: what was accepted before stands.
pub fn relay<R: Wait, X: Gate, Y: Gate>(
    rt: &R,
    alloc: Global,
    x: &X,
    y: &Y,
    turns: u16,
) -> Result<u64, Refusal>
    ensures { IsOkUnless result NoMemory }
{
    let mut accepted = 0u64;
    for _turn in 0..turns {
        accepted = accepted.saturating_add(relay_once(rt, alloc, x, y)?);
    }
    Ok(accepted)
}

// Takes one turn. The answer is the number of replies that were `Ok`.
fn relay_once<R: Wait, X: Gate, Y: Gate>(
    rt: &R,
    alloc: Global,
    x: &X,
    y: &Y,
) -> Result<u64, Refusal>
    ensures { IsOkUnless result NoMemory }
{
    let (for_y, for_x) = plans(alloc, x.view(), y.view())?;
    let accepted = submit_each(rt, y, for_y);
    Ok(accepted.saturating_add(submit_each(rt, x, for_x)))
}

// Submits messages to a chain in turn. The answer is the number of replies that were `Ok`.
fn submit_each<R: Wait, G: Gate>(rt: &R, gate: &G, messages: Vec<Message>) -> u64
    ensures { result ≤ length messages.items }
{
    let mut accepted = 0u64;
    for message in messages {
        accepted += u64::from(is_accepted(gate.submit(rt, message)));
    }
    accepted
}

// Whether a reply is `Ok`.
fn is_accepted(reply: Reply) -> bool {
    let accepted = matches!(&reply, Reply::Ok(_));
    drop(reply);
    accepted
}
