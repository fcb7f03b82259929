//! A run of two chains, of which the second has a client of the first.

use ibc_ids::{ClientId, Name, Root};
use ibc_machine::{ChainStart, Effect, Entry, Event, Genesis, Reading, Reply};
use ibc_wire::{CreateClient, Header, Message, UpdateClient};
use ibc_world_core::World;
use std::alloc::Global;
use std::process::Abort;

/// The genesis of two chains with a window of two heights.
pub fn genesis(rt: &impl Abort, alloc: Global) -> Genesis {
    let first = ChainStart {
        time: 100,
        balances: Vec::new(alloc),
    };
    let second = ChainStart {
        time: 100,
        balances: Vec::new(alloc),
    };
    Genesis {
        capacity: 8,
        window: 2,
        chains: vec![in alloc; first, second].expect(rt, "memory"),
    }
}

/// What the second chain is asked.
#[derive(Clone, Copy)]
pub enum SecondEvent {
    Create,
    Update(Header),
    Block(u64),
}

/// An entry as it is stored.
#[derive(Drop)]
pub struct SecondEntry {
    pub asked: SecondEvent,
    pub reply: Reply,
    pub reading: Option<Reading>,
}

/// A world, what was stored of the second chain, and what the first one published.
#[derive(Drop)]
pub struct TwoChains {
    pub world: World,
    pub stored: Vec<SecondEntry>,
    pub heights: Vec<(Root, u64)>,
}

fn client(rt: &impl Abort, alloc: Global) -> ClientId {
    Name::parse(alloc, "inprocess-0").expect(rt, "a name")
}

// The event that is asked.
fn event(rt: &impl Abort, alloc: Global, asked: SecondEvent) -> Event {
    match asked {
        SecondEvent::Create => Event::Message {
            chain: 1,
            message: Message::CreateClient(CreateClient { chain: 0 }),
        },
        SecondEvent::Update(header) => Event::Message {
            chain: 1,
            message: Message::UpdateClient(UpdateClient {
                client: client(rt, alloc),
                header,
            }),
        },
        SecondEvent::Block(next_time) => Event::Block {
            chain: 1,
            next_time,
        },
    }
}

// What was read for the second chain's last entry.
fn last_reading(rt: &impl Abort, world: &World) -> Option<Reading> {
    let ledger = world.ledger(1).expect(rt, "a chain");
    match ledger.history() {
        [.., last] => last.entry.reading,
        [] => None,
    }
}

// What is stored of an answer.
fn stored_as(asked: SecondEvent, reply: Reply, reading: Option<Reading>) -> SecondEntry {
    SecondEntry {
        asked,
        reply,
        reading,
    }
}

// Asks the second chain, and stores the entry.
fn put(rt: &impl Abort, alloc: Global, run: &mut TwoChains, asked: &SecondEvent) {
    let event = event(rt, alloc, *asked);
    let reply = run.world.step(event);
    let reading = last_reading(rt, &run.world);
    let stored = stored_as(*asked, reply, reading);
    run.stored.push(stored).ok().expect(rt, "memory");
}

// Tells the second chain's client of a header.
fn update(rt: &impl Abort, alloc: Global, run: &mut TwoChains, header: Header) {
    put(rt, alloc, run, &SecondEvent::Update(header));
}

// Ends a block of the first chain, whose time is this.
fn publish(rt: &impl Abort, run: &mut TwoChains, time: u64) {
    let block = Event::Block {
        chain: 0,
        next_time: time.saturating_add(1),
    };
    let reply = run.world.step(block);
    if let Reply::Ok(Effect::Block(_, root)) = &reply {
        run.heights.push((*root, time)).ok().expect(rt, "memory");
    }
    drop(reply);
}

// The header of a height of the first chain.
fn header(rt: &impl Abort, run: &TwoChains, height: usize) -> Header {
    let (root, time) = *run
        .heights
        .get(height.saturating_sub(1))
        .expect(rt, "a height");
    Header {
        chain: 0,
        height: height as u64,
        time,
        root,
    }
}

// The same header with another height.
fn renumbered(header: Header, height: u64) -> Header {
    let Header {
        chain,
        height: _,
        time,
        root,
    } = header;
    Header {
        chain,
        height,
        time,
        root,
    }
}

// The same header with another root.
fn forged(header: Header) -> Header {
    let Header {
        chain,
        height,
        time,
        root: _,
    } = header;
    Header {
        chain,
        height,
        time,
        root: Root::from_bytes([9; 32]),
    }
}

/// The client is made, and told of the first height, of the fourth and of others: before it is published, once it is gone, with another
/// root, and of no height. Ten entries of the second chain are stored.
pub fn play(rt: &impl Abort, alloc: Global) -> TwoChains {
    let genesis = genesis(rt, alloc);
    let world = World::new(alloc, &genesis).ok().expect(rt, "a world");
    drop(genesis);
    let mut run = TwoChains {
        world,
        stored: Vec::new(alloc),
        heights: Vec::new(alloc),
    };
    put(rt, alloc, &mut run, &SecondEvent::Create);
    put(rt, alloc, &mut run, &SecondEvent::Block(101));
    publish(rt, &mut run, 100);
    let first = header(rt, &run, 1);
    update(rt, alloc, &mut run, first);
    put(rt, alloc, &mut run, &SecondEvent::Block(90));
    publish(rt, &mut run, 101);
    publish(rt, &mut run, 102);
    publish(rt, &mut run, 103);
    tell(rt, alloc, &mut run);
    put(rt, alloc, &mut run, &SecondEvent::Block(105));
    run
}

// The client is told of the fourth height, and of headers that are refused.
fn tell(rt: &impl Abort, alloc: Global, run: &mut TwoChains) {
    let fourth = header(rt, run, 4);
    update(rt, alloc, run, fourth);
    let first = header(rt, run, 1);
    update(rt, alloc, run, first);
    let later = renumbered(header(rt, run, 4), 9);
    update(rt, alloc, run, later);
    let other = forged(header(rt, run, 4));
    update(rt, alloc, run, other);
    let none = renumbered(header(rt, run, 4), 0);
    update(rt, alloc, run, none);
}

/// The entries that were stored.
pub fn entries(rt: &impl Abort, alloc: Global, run: &TwoChains) -> Vec<Entry> {
    let mut entries = Vec::new(alloc);
    for stored in run.stored.iter() {
        let entry = Entry {
            event: event(rt, alloc, stored.asked),
            reply: stored.reply.clone().ok().expect(rt, "memory"),
            reading: stored.reading,
        };
        entries.push(entry).ok().expect(rt, "memory");
    }
    entries
}
