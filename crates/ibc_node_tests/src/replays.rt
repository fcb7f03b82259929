//! A run of two chains is stored, and replayed as it was and with a difference.

mod pair;

use ibc_ids::{Account, Denom, Refusal};
use ibc_machine::{Entry, Event, Genesis, Reading, Reply};
use ibc_replay::{Difference, replay, replay_on};
use ibc_world_core::World;
use pair::{Run, StoredEntry, acknowledge, genesis, open, read, receive, transfer};
use std::alloc::Global;
use std::process::Abort;

// The acknowledgement of tokens that were taken.
const TAKEN: &str = r#"{"result":"AQ=="}"#;

const VOUCHER: &str = "transfer/channel-0/atom";

// The world of the genesis in the beginning.
fn beginning(rt: &impl Abort, alloc: Global) -> World {
    let genesis = genesis(rt, alloc);
    let world = World::new(alloc, &genesis).ok().expect(rt, "a world");
    drop(genesis);
    world
}

// A channel is opened, 100 atom go to chain 1 and home again, and a transfer is refused.
fn run(rt: &impl Abort, alloc: Global) -> Run {
    let mut run = Run {
        world: beginning(rt, alloc),
        stored: Vec::new(alloc),
    };
    open(rt, alloc, &mut run);
    transfer(rt, alloc, &mut run, 0, "alice", "atom", "bob");
    receive(rt, alloc, &mut run, 0);
    acknowledge(rt, alloc, &mut run, 0, TAKEN);
    transfer(rt, alloc, &mut run, 1, "bob", VOUCHER, "alice");
    receive(rt, alloc, &mut run, 1);
    transfer(rt, alloc, &mut run, 1, "bob", VOUCHER, "alice");
    run
}

// The entry that was stored.
fn entry(rt: &impl Abort, alloc: Global, stored: &StoredEntry) -> Entry {
    Entry {
        event: read(rt, alloc, &stored.event),
        reply: stored.reply.clone().ok().expect(rt, "memory"),
        reading: stored.reading,
    }
}

// The entries of a run from one place up to another.
fn entries(rt: &impl Abort, alloc: Global, run: &Run, from: usize, to: usize) -> Vec<Entry> {
    let mut entries = Vec::new(alloc);
    for stored in run.stored.iter().take(to).skip(from) {
        entries
            .push(entry(rt, alloc, stored))
            .ok()
            .expect(rt, "memory");
    }
    entries
}

// All of them.
fn all(rt: &impl Abort, alloc: Global, run: &Run) -> Vec<Entry> {
    entries(rt, alloc, run, 0, run.stored.len())
}

// The world of these entries.
fn replayed(rt: &impl Abort, alloc: Global, list: Vec<Entry>) -> Result<World, Difference> {
    let genesis = genesis(rt, alloc);
    let answer = replay(alloc, &genesis, list);
    drop(genesis);
    answer
}

// What a chain of a world holds.
fn balances(rt: &impl Abort, world: &World, chain: u8) -> Vec<(Account, Denom, u128)> {
    let ledger = world.ledger(chain).expect(rt, "a chain");
    ledger.balances().ok().expect(rt, "memory")
}

// Whether a chain holds the same in both worlds.
fn holds_the_same(rt: &impl Abort, one: &World, other: &World, chain: u8) -> bool {
    let ones = balances(rt, one, chain);
    let others = balances(rt, other, chain);
    let same = ones.as_slice() == others.as_slice();
    drop(ones);
    drop(others);
    same
}

#[test]
fn a_run_is_replayed(rt: HostRuntime) {
    let alloc = rt.alloc();
    let run = run(&rt, alloc);
    let list = all(&rt, alloc, &run);
    let world = replayed(&rt, alloc, list).ok().expect(&rt, "a lawful run");
    assert!(rt; holds_the_same(&rt, &run.world, &world, 0));
    assert!(rt; holds_the_same(&rt, &run.world, &world, 1));
    assert!(rt; run.stored.len() > 20);
    drop(world);
    drop(run);
}

// Where and how a replay of the entries differs.
fn difference(rt: &impl Abort, alloc: Global, list: Vec<Entry>) -> Difference {
    match replayed(rt, alloc, list) {
        Ok(world) => {
            drop(world);
            panic!(rt; "a difference")
        }
        Err(why) => why,
    }
}

// The difference of a run whose entry at a place has this refusal for its reply.
fn with_refusal(
    rt: &impl Abort,
    alloc: Global,
    run: &Run,
    place: usize,
    refusal: Refusal,
) -> Difference {
    let mut list = all(rt, alloc, run);
    let entry = list.get_mut(place).expect(rt, "an entry");
    entry.reply = Reply::No(refusal);
    difference(rt, alloc, list)
}

// Whether it is at this place, where what is due is as it was, and this is stored.
fn is_at(rt: &impl Abort, why: &Difference, run: &Run, here: usize, refusal: Refusal) -> bool {
    let Difference::At { place, due, stored } = why else {
        return false;
    };
    let was = run.stored.get(here).expect(rt, "an entry");
    *place == here
        && due.reply == was.reply
        && due.reading == was.reading
        && stored.reply == Reply::No(refusal)
        && stored.reading == was.reading
}

// A changed reply is found at its place.
fn check_refusal(rt: &impl Abort, alloc: Global, run: &Run, place: usize, refusal: Refusal) {
    let why = with_refusal(rt, alloc, run, place, refusal);
    let is_found = is_at(rt, &why, run, place, refusal);
    drop(why);
    assert!(rt; is_found);
}

#[test]
fn changed_replies_are_found_at_their_places(rt: HostRuntime) {
    let alloc = rt.alloc();
    let run = run(&rt, alloc);
    check_refusal(&rt, alloc, &run, 0, Refusal::Poor);
    check_refusal(&rt, alloc, &run, 14, Refusal::BadProof);
    check_refusal(
        &rt,
        alloc,
        &run,
        run.stored.len().saturating_sub(1),
        Refusal::NoMemory,
    );
    drop(run);
}

// The difference of a run whose first updates read another height.
fn with_reading(rt: &impl Abort, alloc: Global, run: &Run, here: usize) -> Difference {
    let mut list = all(rt, alloc, run);
    let entry = list.get_mut(here).expect(rt, "an entry");
    entry.reading = Some(Reading {
        published: 7,
        row_was_there: None,
    });
    difference(rt, alloc, list)
}

// Whether the reading there is another one.
fn is_read_otherwise(why: &Difference, here: usize) -> bool {
    match why {
        Difference::At { place, due, stored } => {
            *place == here && due.reply == stored.reply && due.reading != stored.reading
        }
        _ => false,
    }
}

#[test]
fn changed_readings_are_found(rt: HostRuntime) {
    let alloc = rt.alloc();
    let run = run(&rt, alloc);
    let why = with_reading(&rt, alloc, &run, 4);
    let is_found = is_read_otherwise(&why, 4);
    drop(why);
    drop(run);
    assert!(rt; is_found);
}

// The difference of a run with an event of chain 2 at a place.
fn with_chain_two(rt: &impl Abort, alloc: Global, run: &Run, here: usize) -> Difference {
    let mut list = entries(rt, alloc, run, 0, here);
    let stray = Entry {
        event: Event::Block {
            chain: 2,
            next_time: 100,
        },
        reply: Reply::No(Refusal::UnknownChain),
        reading: None,
    };
    list.push(stray).ok().expect(rt, "memory");
    difference(rt, alloc, list)
}

#[test]
fn events_of_no_chain_are_found(rt: HostRuntime) {
    let alloc = rt.alloc();
    let run = run(&rt, alloc);
    let why = with_chain_two(&rt, alloc, &run, 9);
    let is_found = matches!(&why, Difference::UnknownChain { place: 9, .. });
    drop(why);
    drop(run);
    assert!(rt; is_found);
}

#[test]
fn no_world_begins_with_one_chain(rt: HostRuntime) {
    let alloc = rt.alloc();
    let genesis = Genesis {
        capacity: 4,
        window: 4,
        chains: Vec::new(alloc),
    };
    let answer = replay(alloc, &genesis, Vec::new(alloc));
    drop(genesis);
    let is_refused = matches!(&answer, Err(Difference::NoGenesis));
    drop(answer);
    assert!(rt; is_refused);
}

// Replays the entries behind a place.
fn go_on(rt: &impl Abort, alloc: Global, world: &mut World, run: &Run, from: usize, to: usize) {
    let list = entries(rt, alloc, run, from, to);
    let is_short = from < 1000 && list.len() < 1000;
    assert!(rt; is_short);
    let answer = replay_on(world, from, list);
    let is_replayed = answer.is_ok();
    drop(answer);
    assert!(rt; is_replayed);
}

#[test]
fn a_run_is_replayed_in_pieces(rt: HostRuntime) {
    let alloc = rt.alloc();
    let run = run(&rt, alloc);
    let mut world = beginning(&rt, alloc);
    go_on(&rt, alloc, &mut world, &run, 0, 11);
    go_on(&rt, alloc, &mut world, &run, 11, run.stored.len());
    assert!(rt; holds_the_same(&rt, &run.world, &world, 0));
    assert!(rt; holds_the_same(&rt, &run.world, &world, 1));
    drop(world);
    drop(run);
}
