//! A world that is asked for a list of events, and its ledgers, which are gathered and audited.

use crate::genesis::GENESIS_ROOT;
use ibc_ids::{Account, Denom, Refusal, UserName};
use ibc_machine::{ChainStart, Effect, Event, Genesis, Reply};
use ibc_wire::{CreateClient, Message};
use ibc_world_core::{Audit, World, audit};
use std::alloc::Global;
use std::process::Abort;

// A chain on which no one holds anything.
fn start(alloc: Global) -> ChainStart {
    ChainStart {
        time: 100,
        balances: Vec::new(alloc),
    }
}

// A world of two chains, on the first of which no one holds anything.
fn world_of(rt: &impl Abort, alloc: Global, second: ChainStart) -> World {
    let genesis = Genesis {
        capacity: 64,
        window: 4,
        chains: vec![in alloc; start(alloc), second].expect(rt, "memory"),
    };
    let world = World::new(alloc, &genesis).expect(rt, "a world");
    drop(genesis);
    world
}

/// The world of two chains on which no one holds anything.
pub fn new_world(rt: &impl Abort, alloc: Global) -> World {
    world_of(rt, alloc, start(alloc))
}

/// Chain 0 makes a client of chain 1.
pub fn create() -> Event {
    Event::Message {
        chain: 0,
        message: Message::CreateClient(CreateClient { chain: 1 }),
    }
}

/// The working block of a chain ends.
pub fn block(chain: u8, next_time: u64) -> Event {
    Event::Block { chain, next_time }
}

// Whether the reply at a place is that a client has this identifier.
fn is_client(replies: &[Reply], place: usize, id: &str) -> bool {
    match replies.get(place) {
        Some(Reply::Ok(Effect::Client(client))) => client.as_str() == id,
        _ => false,
    }
}

// Whether it is that height 1 has the root of a new chain.
fn is_first_block(replies: &[Reply], place: usize) -> bool {
    match replies.get(place) {
        Some(Reply::Ok(Effect::Block(1, root))) => root.bytes() == &GENESIS_ROOT,
        _ => false,
    }
}

// Whether it is this refusal.
fn is_refused(replies: &[Reply], place: usize, refusal: Refusal) -> bool {
    match replies.get(place) {
        Some(Reply::No(given)) => *given == refusal,
        _ => false,
    }
}

// What a world answers to a list of events.
fn replies(rt: &impl Abort, world: &mut World, events: Vec<Event>) -> Vec<Reply> {
    world.run(events).ok().expect(rt, "memory")
}

// Whether they are due: to a client, to a block of no chain, to one of the second chain, and to one whose time goes back.
fn are_due(replies: &[Reply]) -> bool {
    replies.len() == 4
        && is_client(replies, 0, "inprocess-0")
        && is_refused(replies, 1, Refusal::UnknownChain)
        && is_first_block(replies, 2)
        && is_refused(replies, 3, Refusal::TimeBack)
}

#[test]
fn events_are_answered_in_their_order(rt: HostRuntime) {
    let alloc = rt.alloc();
    let mut world = new_world(&rt, alloc);
    let events = vec![in alloc; create(), block(2, 100), block(1, 100), block(0, 99)];
    let replies = replies(&rt, &mut world, events.expect(&rt, "memory"));
    drop(world);
    let are_due = are_due(replies.as_slice());
    drop(replies);
    assert!(rt; are_due);
}

// A chain on which alice holds 1000 atom.
fn alices(rt: &impl Abort, alloc: Global) -> ChainStart {
    let alice = UserName::parse(alloc, "alice").expect(rt, "a name");
    let atom = Denom::parse(alloc, "atom").expect(rt, "a denomination");
    ChainStart {
        time: 100,
        balances: vec![in alloc; (alice, atom, 1000)].expect(rt, "memory"),
    }
}

// The world of two chains, on the second of which alice holds 1000 atom.
fn holding(rt: &impl Abort, alloc: Global) -> World {
    world_of(rt, alloc, alices(rt, alloc))
}

// Whether they are alice's 1000 atom.
fn are_alices(list: &[(Account, Denom, u128)]) -> bool {
    match list {
        [(Account::User(user), denom, amount)] => {
            user.as_str() == "alice" && denom.as_str() == "atom" && *amount == 1000
        }
        _ => false,
    }
}

// Whether the first chain has nothing, and the second alice's atom.
fn has_alices_alone(audit: &Audit) -> bool {
    match audit.balances.as_slice() {
        [first, second] => first.is_empty() && are_alices(second.as_slice()),
        _ => false,
    }
}

// Whether there are no notes on two chains.
fn has_no_notes(audit: &Audit) -> bool {
    match audit.notes.as_slice() {
        [first, second] => first.is_empty() && second.is_empty(),
        _ => false,
    }
}

// What the ledgers of a world hold.
fn audit_of(rt: &impl Abort, alloc: Global, world: World) -> Audit {
    audit(alloc, world.into_ledgers()).expect(rt, "told")
}

#[test]
fn ledgers_are_gathered_and_audited(rt: HostRuntime) {
    let alloc = rt.alloc();
    let mut world = holding(&rt, alloc);
    let events = vec![in alloc; create(), block(1, 100), block(0, 99)];
    drop(replies(&rt, &mut world, events.expect(&rt, "memory")));
    let audit = audit_of(&rt, alloc, world);
    let is_due = has_alices_alone(&audit) && has_no_notes(&audit);
    drop(audit);
    assert!(rt; is_due);
}

// Whether it is refused, where there are no ledgers, and where the second chain's is missing.
fn are_not_gathered(alloc: Global, world: World) -> bool {
    let mut ledgers = world.into_ledgers();
    let last = ledgers.pop();
    drop(last);
    let none = audit(alloc, Vec::new(alloc));
    let one = audit(alloc, ledgers);
    let is_none_bad = is_bad(none);
    let is_one_bad = is_bad(one);
    is_none_bad && is_one_bad
}

// Whether it is the refusal that a chain is missing or twice.
fn is_bad(answer: Result<Audit, Refusal>) -> bool {
    let is_bad = matches!(&answer, Err(Refusal::BadMessage));
    drop(answer);
    is_bad
}

#[test]
fn worlds_with_a_chain_missing_are_refused(rt: HostRuntime) {
    let world = holding(&rt, rt.alloc());
    assert!(rt; are_not_gathered(rt.alloc(), world));
}
