//! Blocks that a script's chains tell of, beside those that the whole history is read for.

use ibc_ids::Root;
use ibc_ledger::StampedEntry;
use ibc_machine::{ChainStart, Effect, Entry, Event, Genesis, Reply};
use ibc_script_cli::{Chains, CommittedBlock, Worlds};
use ibc_script_worlds::{ChainStarts, ScriptWorld, WorldFactory};
use ibc_wire::{CreateClient, Message};
use ibc_world_core::World;
use std::alloc::{AllocError, Global};
use std::process::Abort;

// The time of the first chain's first block.
const START: u64 = 100;

// How many heights a chain publishes at most. Each history here asks for more.
const CAPACITY: u64 = 24;

// How many of the last heights are kept.
const WINDOWS: [u64; 3] = [1, 4, 20];

// How many messages stand before the blocks of a history, halfway between them, and behind them.
const MESSAGES: [[u64; 3]; 5] = [[0, 0, 0], [40, 0, 0], [0, 40, 0], [0, 0, 40], [40, 40, 40]];

// How many histories are made, each by a seed.
const SEEDS: u64 = 6;

// What the first chain is asked in a turn.
#[derive(Clone, Copy)]
enum Turn {
    // To make a client, which is in vain where it is one of the chain itself.
    Message,
    // To end a block, which is in vain once the chain is full.
    Block,
    // To end a block at a time that is over, which is in vain.
    PastBlock,
}

// The event of a turn at a place. Each place has a time of its own, and each eighth a client of the other chain.
fn event_of(turn: Turn, place: usize) -> Event {
    let next_time = match turn {
        Turn::Message => {
            return Event::Message {
                chain: 0,
                message: Message::CreateClient(CreateClient {
                    chain: u8::from(place % 8 == 0),
                }),
            };
        }
        Turn::Block => START.saturating_add(place as u64).saturating_add(1),
        Turn::PastBlock => START.saturating_sub(1),
    };
    Event::Block {
        chain: 0,
        next_time,
    }
}

// Adds a turn so many times.
fn push_turns(turns: &mut Vec<Turn>, turn: Turn, times: u64) -> Result<(), AllocError> {
    for _ in 0..times {
        turns.push(turn)?;
    }
    Ok(())
}

// Three blocks, two messages and a block that is refused, again and again.
fn mixed(alloc: Global) -> Result<Vec<Turn>, AllocError> {
    let mut turns = Vec::new(alloc);
    for place in 0..60 {
        turns.push(match place % 7 {
            0 | 1 | 4 => Turn::Block,
            3 => Turn::PastBlock,
            _ => Turn::Message,
        })?;
    }
    Ok(turns)
}

// Two rows of blocks, with so many messages before, between and behind them.
fn in_two_rows(alloc: Global, messages: [u64; 3]) -> Result<Vec<Turn>, AllocError> {
    let [before, between, behind] = messages;
    let mut turns = Vec::new(alloc);
    push_turns(&mut turns, Turn::Message, before)?;
    push_turns(&mut turns, Turn::Block, 12)?;
    push_turns(&mut turns, Turn::Message, between)?;
    push_turns(&mut turns, Turn::Block, 14)?;
    push_turns(&mut turns, Turn::Message, behind)?;
    Ok(turns)
}

// The history that a seed makes: 30 blocks, and before each nothing, a message, a block that is refused or up to 15 messages.
fn made(alloc: Global, seed: u64) -> Result<Vec<Turn>, AllocError> {
    let mut turns = Vec::new(alloc);
    let mut state = seed;
    for _ in 0..30 {
        state = state
            .wrapping_mul(6364136223846793005)
            .wrapping_add(1442695040888963407);
        let number = state >> 33;
        match number % 8 {
            0 => push_turns(&mut turns, Turn::Message, number / 8 % 16)?,
            1 | 2 => turns.push(Turn::Message)?,
            3 => turns.push(Turn::PastBlock)?,
            _ => {}
        }
        turns.push(Turn::Block)?;
    }
    push_turns(&mut turns, Turn::Message, state % 16)?;
    Ok(turns)
}

// The block that an entry tells the end of: its root, and the time of the next one.
fn ended_by(entry: &Entry) -> Option<(Root, u64)> {
    match (&entry.event, &entry.reply) {
        (Event::Block { next_time, .. }, Reply::Ok(Effect::Block(_, root))) => {
            Some((*root, *next_time))
        }
        _ => None,
    }
}

// How many blocks a history tells of.
fn blocks_in(history: &[StampedEntry]) -> u64 {
    let mut blocks: u64 = 0;
    for stamped in history {
        if ended_by(&stamped.entry).is_some() {
            blocks = blocks.saturating_add(1);
        }
    }
    blocks
}

// The block of a height, from 1, of which a history tells.
fn told_block(start: u64, history: &[StampedEntry], height: u64) -> Option<CommittedBlock> {
    if height == 0 {
        return None;
    }
    let mut time = start;
    let mut left = height;
    for stamped in history {
        if let Some((root, next_time)) = ended_by(&stamped.entry) {
            if left == 1 {
                return Some(CommittedBlock { root, time });
            }
            left = left.saturating_sub(1);
            time = next_time;
        }
    }
    None
}

// What a chain that began at a time committed at a height, by its history; `None` where it isn't kept.
fn block_in(
    start: u64,
    window: u64,
    history: &[StampedEntry],
    height: u64,
) -> Option<CommittedBlock> {
    if height > blocks_in(history).saturating_sub(window) {
        told_block(start, history, height)
    } else {
        None
    }
}

// How many heights of the first chain are told of, by its history and by the chains of a script alike; `None` where one is
// told otherwise. Height 0 and the one above the last are asked for too.
fn told_alike(starts: &ChainStarts, world: &World, chains: &ScriptWorld) -> Option<u64> {
    let history = world.ledger(0)?.history();
    let mut told = 0u64;
    for height in 0..blocks_in(history).saturating_add(2) {
        let block = block_in(START, starts.window, history, height);
        if chains.block(0, height) != block || starts.block(0, history, height) != block {
            return None;
        }
        told = told.saturating_add(u64::from(block.is_some()));
    }
    Some(told)
}

// A chain on which no one holds anything.
fn start(alloc: Global, time: u64) -> ChainStart {
    ChainStart {
        time,
        balances: Vec::new(alloc),
    }
}

// Two chains that keep so many heights.
fn genesis(alloc: Global, window: u64) -> Result<Genesis, AllocError> {
    let chains = vec![in alloc; start(alloc, START), start(alloc, 7)]?;
    Ok(Genesis {
        capacity: CAPACITY,
        window,
        chains,
    })
}

// How many heights are told of at the end of a history, where each was told alike behind each turn; else `None`.
fn told_in(rt: &impl Abort, alloc: Global, window: u64, turns: &[Turn]) -> Option<u64> {
    let genesis = genesis(alloc, window).expect(rt, "memory");
    let starts = ChainStarts::of(alloc, &genesis).expect(rt, "memory");
    let mut world = World::new(alloc, &genesis).expect(rt, "a world");
    let mut chains = WorldFactory::new(alloc)
        .begin(&genesis)
        .expect(rt, "chains");
    drop(genesis);
    let mut told = told_alike(&starts, &world, &chains);
    for (place, turn) in turns.iter().enumerate() {
        drop(world.step(event_of(*turn, place)));
        drop(chains.ask(event_of(*turn, place)));
        if told.is_some() {
            told = told_alike(&starts, &world, &chains);
        }
    }
    drop(world);
    drop(chains);
    drop(starts);
    told
}

// Whether a history's heights are told alike behind each turn, and at its end as many as each window keeps.
fn is_told(rt: &impl Abort, alloc: Global, turns: &[Turn]) -> bool {
    for window in WINDOWS {
        if told_in(rt, alloc, window, turns) != Some(window) {
            return false;
        }
    }
    true
}

// Fails where a history isn't told as by the whole of it.
fn try_turns(rt: &impl Abort, alloc: Global, turns: Vec<Turn>) {
    let is_told = is_told(rt, alloc, turns.as_slice());
    drop(turns);
    assert!(rt; is_told);
}

#[test]
fn heights_are_told_as_by_the_whole_history(rt: HostRuntime) {
    let alloc = rt.alloc();
    try_turns(&rt, alloc, mixed(alloc).expect(&rt, "memory"));
    for messages in MESSAGES {
        let turns = in_two_rows(alloc, messages).expect(&rt, "memory");
        try_turns(&rt, alloc, turns);
    }
}

#[test]
fn heights_of_made_histories_are_told_as_by_the_whole_history(rt: HostRuntime) {
    let alloc = rt.alloc();
    for seed in 0..SEEDS {
        let turns = made(alloc, seed).expect(&rt, "memory");
        try_turns(&rt, alloc, turns);
    }
}
