//! Connections and channels of both applications are opened between random pairs of eight chains, by the messages of the
//! handshakes and with their proofs.

use crate::names::genesis;
use crate::random::Random;
use crate::run_error::RunError;
use crate::tally::Tally;
use ibc_ids::Name;
use ibc_script::{Application, ChainName, Step};
use ibc_script_cli::{Chains, Runner, Worlds};
use ibc_script_worlds::WorldFactory;
use std::alloc::Global;

// How many chains there are.
const CHAINS: u8 = 8;

// Their names.
const NAMES: [&str; 8] = ["a", "b", "c", "d", "e", "f", "g", "h"];

// How many lines tell of an opening: one for each of its turns.
const LINES: u64 = 20;

// By an opening the first chain commits so many blocks.
const FIRST_BLOCKS: u64 = 3;

// And the second one so many.
const SECOND_BLOCKS: u64 = 2;

/// Opens so many channels, each over a connection and clients of its own.
pub fn run(alloc: Global, size: u64, random: &mut Random) -> Result<Tally, RunError> {
    let genesis = genesis(alloc, CHAINS, 10)?;
    let begun = WorldFactory::new(alloc).begin(&genesis);
    drop(genesis);
    let mut chains = begun?;
    let tally = open_each(alloc, &mut chains, size, random);
    drop(chains);
    tally
}

// The names of the chains.
fn names(alloc: Global) -> Result<Vec<ChainName>, RunError> {
    let mut names = Vec::new(alloc);
    for name in NAMES {
        names.push(Name::parse(alloc, name)?)?;
    }
    Ok(names)
}

// Opens so many channels, and tells what was printed and what the chains committed.
fn open_each<C: Chains + Drop>(
    alloc: Global,
    chains: &mut C,
    size: u64,
    random: &mut Random,
) -> Result<Tally, RunError> {
    let names = names(alloc)?;
    let mut heights = [0u64; 8];
    let mut tally = Tally::new();
    for _opening in 0..size {
        let step = opening(random, &mut heights);
        open(alloc, chains, names.as_slice(), step, &mut tally)?;
    }
    add_roots(chains, &heights, &mut tally);
    Ok(tally)
}

// The opening of a channel between a random pair of chains, of which the heights are counted on.
fn opening(random: &mut Random, heights: &mut [u64; 8]) -> Step {
    let first = random.place(8);
    let second = (first ^ random.place(7).saturating_add(1)) & 7;
    count_on(heights, first, FIRST_BLOCKS);
    count_on(heights, second, SECOND_BLOCKS);
    Step::Open {
        first: u8::try_from(first).unwrap_or(0),
        second: u8::try_from(second).unwrap_or(0),
        application: if random.is_one_in(2) {
            Application::Note
        } else {
            Application::Transfer
        },
    }
}

// Counts the height of a chain on.
fn count_on(heights: &mut [u64; 8], chain: usize, blocks: u64) {
    if let Some(height) = heights.get_mut(chain) {
        *height = height.saturating_add(blocks);
    }
}

// Opens a channel, and adds what is printed.
fn open<C: Chains + Drop>(
    alloc: Global,
    chains: &mut C,
    names: &[ChainName],
    step: Step,
    tally: &mut Tally,
) -> Result<(), RunError> {
    if names.len() > 8 {
        drop(step);
        return Err(RunError::Unexpected("there are more than eight chains"));
    }
    let mut output = Vec::new(alloc);
    let acted = Runner::new(alloc, names).act(chains, step, &mut output);
    let told = add_lines(output.as_slice(), tally);
    drop(output);
    acted?;
    told
}

// Adds the lines of an opening, whose turns have to be accepted.
fn add_lines(lines: &[u8], tally: &mut Tally) -> Result<(), RunError> {
    let count = lines.iter().filter(|byte| **byte == b'\n').count() as u64;
    tally.accepted = tally.accepted.saturating_add(count);
    tally.blocks = tally.blocks.saturating_add(FIRST_BLOCKS + SECOND_BLOCKS);
    tally.digest.bytes(lines);
    if count == LINES && !lines.windows(4).any(|word| word == b" no ".as_slice()) {
        Ok(())
    } else {
        Err(RunError::Unexpected("an opening was refused"))
    }
}

// Adds the roots of the last blocks.
fn add_roots<C: Chains>(chains: &C, heights: &[u64; 8], tally: &mut Tally) {
    for chain in 0..CHAINS {
        let height = heights.get(usize::from(chain)).copied().unwrap_or(0);
        if let Some(block) = chains.block(chain, height) {
            tally.digest.bytes(block.root.bytes().as_slice());
        }
    }
}
