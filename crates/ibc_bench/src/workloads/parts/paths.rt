//! Blocks of a store: new paths in any order, in the order of the paths or in front of all, and changed values.

use crate::random::Random;
use crate::run_error::RunError;
use crate::tally::Tally;
use ibc_ids::Bytes;
use ibc_path_store::Store;
use std::alloc::Global;

// The number in the first path that stands in the beginning. All numbers have ten digits, so paths rise with their numbers.
const FIRST_NUMBER: u64 = 4_000_000_000;

// For so many paths that stand a block sets a new one, in any order.
const STANDING_TO_NEW: u64 = 4;

// For each block with paths in front so many others stand in the beginning.
const STANDING_TO_BLOCK: u64 = 400;

// A block sets so many paths in front of all others.
const IN_FRONT: u64 = 256;

/// A store, and what it answered.
#[derive(Drop)]
struct Paths {
    alloc: Global,
    store: Store,
    tally: Tally,
}

/// A block sets new paths between so many others, a quarter as many, in any order.
pub fn new_paths(alloc: Global, size: u64, random: &mut Random) -> Result<Tally, RunError> {
    let count = size.checked_div(STANDING_TO_NEW).unwrap_or(0);
    let mut paths = Paths::new(alloc);
    let set = match paths.stand(random, size) {
        Ok(()) => paths.set_in_any_order(random, size, count),
        Err(error) => Err(error),
    };
    paths.finish(set)
}

/// A block sets so many new paths between as many others, in their order.
pub fn paths_between(alloc: Global, size: u64, random: &mut Random) -> Result<Tally, RunError> {
    let mut paths = Paths::new(alloc);
    let set = match paths.stand(random, size) {
        Ok(()) => paths.set_each(random, FIRST_NUMBER.saturating_add(1), size, 2),
        Err(error) => Err(error),
    };
    paths.finish(set)
}

/// A block sets so many values anew, every second one, in the order of their paths.
pub fn changed_values(alloc: Global, size: u64, random: &mut Random) -> Result<Tally, RunError> {
    let mut paths = Paths::new(alloc);
    let set = match paths.stand(random, size.saturating_mul(2)) {
        Ok(()) => paths.set_each(random, FIRST_NUMBER, size, 4),
        Err(error) => Err(error),
    };
    paths.finish(set)
}

/// So many blocks set new paths in front of all others.
pub fn paths_in_front(alloc: Global, size: u64, random: &mut Random) -> Result<Tally, RunError> {
    let mut paths = Paths::new(alloc);
    let set = match paths.stand(random, size.saturating_mul(STANDING_TO_BLOCK)) {
        Ok(()) => paths.set_in_front(random, size),
        Err(error) => Err(error),
    };
    paths.finish(set)
}

// The path with a number.
fn path_of(alloc: Global, number: u64) -> Result<String, RunError> {
    Ok(format!(in alloc; "acks/ports/transfer/channels/channel-0/sequences/{number}")?)
}

// The odd numbers between those of so many paths, in any order.
fn numbers_between(
    alloc: Global,
    random: &mut Random,
    standing: u64,
) -> Result<Vec<u64>, RunError> {
    let mut numbers = Vec::new(alloc);
    for place in 0..standing {
        numbers.push(
            FIRST_NUMBER
                .saturating_add(place.saturating_mul(2))
                .saturating_add(1),
        )?;
    }
    random.shuffle(numbers.as_mut_slice());
    Ok(numbers)
}

impl Paths {
    // A store without paths.
    fn new(alloc: Global) -> Paths {
        Paths {
            alloc,
            store: Store::new(alloc, 1, 0),
            tally: Tally::new(),
        }
    }

    // Sets a path to a random value.
    fn set(&mut self, random: &mut Random, number: u64) -> Result<(), RunError> {
        let value = random.number().to_be_bytes();
        let value = Bytes::copy_of(self.alloc, value.as_slice())?;
        let path = match path_of(self.alloc, number) {
            Ok(path) => path,
            Err(error) => {
                drop(value);
                return Err(error);
            }
        };
        self.store.set(path, value)?;
        self.tally.accepted = self.tally.accepted.saturating_add(1);
        Ok(())
    }

    // Sets so many paths, whose numbers rise by so much.
    fn set_rising(
        &mut self,
        random: &mut Random,
        first: u64,
        count: u64,
        by: u64,
    ) -> Result<(), RunError> {
        for place in 0..count {
            self.set(random, first.saturating_add(place.saturating_mul(by)))?;
        }
        Ok(())
    }

    // Sets each of the paths.
    fn set_all(&mut self, random: &mut Random, numbers: &[u64]) -> Result<(), RunError> {
        for number in numbers {
            self.set(random, *number)?;
        }
        Ok(())
    }

    // A block that sets so many paths, whose numbers rise by so much.
    fn set_each(
        &mut self,
        random: &mut Random,
        first: u64,
        count: u64,
        by: u64,
    ) -> Result<(), RunError> {
        self.set_rising(random, first, count, by)?;
        self.end_block()
    }

    // The first block: it sets so many paths, with room for as many between them.
    fn stand(&mut self, random: &mut Random, count: u64) -> Result<(), RunError> {
        self.set_each(random, FIRST_NUMBER, count, 2)
    }

    // A block that sets so many new paths between so many others, in any order.
    fn set_in_any_order(
        &mut self,
        random: &mut Random,
        standing: u64,
        count: u64,
    ) -> Result<(), RunError> {
        let numbers = numbers_between(self.alloc, random, standing)?;
        let count = usize::try_from(count).unwrap_or(0);
        let set = match numbers.as_slice().get(..count) {
            Some(numbers) => self.set_all(random, numbers),
            None => Err(RunError::Unexpected("there are fewer paths than new ones")),
        };
        drop(numbers);
        set?;
        self.end_block()
    }

    // So many blocks that set new paths in front of all others.
    fn set_in_front(&mut self, random: &mut Random, blocks: u64) -> Result<(), RunError> {
        for block in 1..=blocks {
            let first = FIRST_NUMBER.saturating_sub(block.saturating_mul(IN_FRONT));
            self.set_each(random, first, IN_FRONT, 1)?;
        }
        Ok(())
    }

    // Sets how many paths were set, and commits.
    #[tactic(auto, using(ibc_merkle::proofs::Edits::with_some))]
    fn end_block(&mut self) -> Result<(), RunError> {
        let value = Bytes::copy_of(self.alloc, self.tally.accepted.to_be_bytes().as_slice())?;
        let path = match String::from_str(self.alloc, "nextSequenceAck") {
            Ok(path) => path,
            Err(_) => {
                drop(value);
                return Err(RunError::NoMemory);
            }
        };
        self.store.set(path, value)?;
        let root = self.store.commit(0)?;
        self.tally.blocks = self.tally.blocks.saturating_add(1);
        self.tally.digest.bytes(root.bytes().as_slice());
        Ok(())
    }

    // What the answers come to, with how many texts were counted.
    fn finish(self, set: Result<(), RunError>) -> Result<Tally, RunError> {
        let Paths { store, tally, .. } = self;
        let mut tally = tally;
        tally.digest.number(store.height());
        tally.digest.number(store.digests());
        drop(store);
        set?;
        Ok(tally)
    }
}
