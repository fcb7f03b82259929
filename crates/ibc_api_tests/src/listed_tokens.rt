//! Which lists of tokens a ledger's messages may name: one that rises is looked for a channel, and any other is refused before.

use crate::pair::name;
use crate::world::new_world;
use ibc_ids::{ListOf, Refusal};
use ibc_machine::{Event, Reply};
use ibc_wire::{Message, Token, Tokens, TransferMany};
use ibc_world_core::World;
use std::alloc::Global;
use std::process::Abort;

const FALLING: [&str; 2] = ["gold", "atom"];

const EIGHT: [&str; 8] = ["a", "b", "c", "d", "e", "f", "g", "h"];

const NINE: [&str; 9] = ["a", "b", "c", "d", "e", "f", "g", "h", "i"];

// One token of each denomination.
fn one_of_each(rt: &impl Abort, alloc: Global, denoms: &[&str]) -> Tokens {
    let mut tokens = Vec::new(alloc);
    for denom in denoms {
        let token = Token {
            denom: name(rt, alloc, denom),
            amount: 1,
        };
        tokens.push(token).expect(rt, "memory");
    }
    ListOf::from_vec(tokens)
}

// By which alice sends one token of each denomination from chain 0, over a channel that isn't there.
fn sending(rt: &impl Abort, alloc: Global, denoms: &[&str]) -> Event {
    let sent = TransferMany {
        channel: name(rt, alloc, "channel-0"),
        user: name(rt, alloc, "alice"),
        tokens: one_of_each(rt, alloc, denoms),
        receiver: name(rt, alloc, "bob"),
        memo: name(rt, alloc, ""),
        timeout_height: 1_000,
        timeout_time: 0,
    };
    Event::Message {
        chain: 0,
        message: Message::TransferMany(sent),
    }
}

// Why an event was refused, or none.
fn refusal_in(reply: Reply) -> Option<Refusal> {
    let refusal = match &reply {
        Reply::No(refusal) => Some(*refusal),
        Reply::Ok(_) => None,
    };
    drop(reply);
    refusal
}

// Why a world refuses to send one of each.
fn refusal(rt: &impl Abort, alloc: Global, world: &mut World, denoms: &[&str]) -> Option<Refusal> {
    refusal_in(world.step(sending(rt, alloc, denoms)))
}

// Of two that fall, of nine, of none, and of eight that rise.
fn check_lists(rt: &impl Abort, alloc: Global, world: &mut World) {
    assert!(rt; refusal(rt, alloc, world, &FALLING) == Some(Refusal::BadMessage));
    assert!(rt; refusal(rt, alloc, world, &NINE) == Some(Refusal::BadMessage));
    assert!(rt; refusal(rt, alloc, world, &[]) == Some(Refusal::BadMessage));
    assert!(rt; refusal(rt, alloc, world, &EIGHT) == Some(Refusal::UnknownChannel));
}

#[test]
fn lists_of_tokens_are_few_and_rise(rt: HostRuntime) {
    let mut world = new_world(&rt, rt.alloc());
    check_lists(&rt, rt.alloc(), &mut world);
    drop(world);
}
