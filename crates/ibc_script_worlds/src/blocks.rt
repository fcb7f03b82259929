//! What a ledger's history tells of the blocks that its chain committed.

ghost use Rattle.std.specs.Prelude.{◌≡◌, ◌<◌, ◌≤◌, IfOk, IfSome, length, take};
ghost use Rattle.ibc_machine.specs.chain.Genesis.{genesis_state};
ghost use Rattle.ibc_script_worlds.specs.EndedBlocks.{EndNoneIn, IsBlockSince, IsCounted, IsLastIn, IsNarrowed, IsPlaceOf, block_given, ended_by, ends_of, kept_told, time_after, told_at, told_blocks};
ghost use Rattle.ibc_script_worlds.specs.WorldChains.{AreStartsOf};

use ibc_ids::Root;
use ibc_ledger::StampedEntry;
use ibc_machine::{Effect, Entry, Event, Genesis, Reply};
use ibc_script_cli::CommittedBlock;
use std::alloc::{AllocError, Global};

/// How the chains of a genesis begin: how many heights they keep, and the time of each chain's first block.
#[derive(Drop)]
pub struct ChainStarts {
    pub window: u64,
    pub times: Vec<u64>,
}

impl ChainStarts {
    /// How the chains of a genesis begin. Error: no memory.
    pub fn of(alloc: Global, genesis: &Genesis) -> Result<ChainStarts, AllocError>
        ensures { IfOk result (AreStartsOf (genesis_state genesis.now)) }
    {
        let mut times = Vec::with_capacity(alloc, genesis.chains.len())?;
        for start in &genesis.chains {
            times.push(start.time)?;
        }
        Ok(ChainStarts {
            window: genesis.window,
            times,
        })
    }

    /// What a chain committed at a height, by the whole history of its ledger, where it is one of the last heights, which are
    /// kept. The heights that such a history tells of rise by one from 1, so the block is looked for by halves, up to the end of
    /// the last one.
    pub fn block(&self, chain: u8, history: &[StampedEntry], height: u64) -> Option<CommittedBlock>
        ensures { IsCounted history.now → IsBlockSince self.now chain height history.now result }
    {
        match self.times.get(usize::from(chain)) {
            Some(start) => kept_block(*start, self.window, history, height),
            None => None,
        }
    }
}

/// A block that an entry tells the end of: its height and root, and the time of the next one.
#[derive(Clone, Copy)]
struct EndedBlock {
    height: u64,
    root: Root,
    next_time: u64,
}

/// What a step of a search comes to.
#[derive(Clone, Copy)]
enum Search {
    /// The block, with the place of its end.
    Found(usize, EndedBlock),
    /// The part in which it stands, if it does.
    Within(usize, usize),
}

// The block whose end an accepted event tells.
fn block_given(effect: &Effect, next_time: u64) -> Option<EndedBlock>
    ensures { result ≡ block_given effect.now next_time }
{
    match effect {
        Effect::Block(height, root) => Some(EndedBlock {
            height: *height,
            root: *root,
            next_time,
        }),
        Effect::None
        | Effect::Client(_)
        | Effect::Connection(_)
        | Effect::Channel(_)
        | Effect::Sent(_)
        | Effect::Ack(_) => None,
    }
}

// The block that an entry tells the end of.
fn ended_by(entry: &Entry) -> Option<EndedBlock>
    ensures { result ≡ ended_by entry.now }
{
    match (&entry.event, &entry.reply) {
        (Event::Block { next_time, .. }, Reply::Ok(effect)) => block_given(effect, *next_time),
        (Event::Block { .. }, Reply::No(_)) | (Event::Message { .. }, _) => None,
    }
}

// The last block that a part of a history tells the end of, with its place.
fn last_ended(history: &[StampedEntry], low: usize, high: usize) -> Option<(usize, EndedBlock)>
    requires { low ≤ high × high ≤ length history.now }
    ensures { IsLastIn (ends_of history.now) low high result }
{
    for behind in 0..high - low {
        let place = high - 1 - behind;
        if let Some(block) = ended_by(&history[place].entry) {
            return Some((place, block));
        }
    }
    None
}

// A part of a history in which the block of a height may stand is halved, and at most half of it is read for that.
fn narrowed(history: &[StampedEntry], low: usize, high: usize, height: u64) -> Search
    requires { low < high × high ≤ length history.now }
    ensures { IsNarrowed (ends_of history.now) height low high result }
{
    let middle = high - (high - low) / 2;
    let Some((place, block)) = last_ended(history, low, middle) else {
        return Search::Within(middle, high);
    };
    if block.height == height {
        Search::Found(place, block)
    } else if block.height < height {
        Search::Within(middle, high)
    } else {
        Search::Within(low, place)
    }
}

// The block of a height with the place of its end, among the first so many entries of a history that tells of rising heights.
fn ended_at(history: &[StampedEntry], limit: usize, height: u64) -> Option<(usize, EndedBlock)>
    requires { limit ≤ length history.now }
    ensures there { IfSome result (λ found. found.0 < limit) }
    ensures place { IsCounted history.now → IsPlaceOf (ends_of history.now) limit height result }
{
    let mut low = 0;
    let mut high = limit;
    'parts: while low < high {
        match narrowed(history, low, high, height) {
            Search::Found(place, block) => return Some((place, block)),
            Search::Within(from, to) => {
                low = from;
                high = to;
            }
        }
    }
    None
}

// The time of the block that worked when so many entries were there, on a chain that began at a time.
fn time_at(start: u64, history: &[StampedEntry], place: usize) -> u64
    requires { place ≤ length history.now }
    ensures { result ≡ time_after start (take place (ends_of history.now)) }
{
    match last_ended(history, 0, place) {
        Some((_, before)) => before.next_time,
        None => start,
    }
}

// What a chain that began at a time committed at a height, by the first so many entries, behind which no block ended.
fn block_at(
    start: u64,
    history: &[StampedEntry],
    limit: usize,
    height: u64,
) -> Option<CommittedBlock>
    requires { limit ≤ length history.now }
    ensures { IsCounted history.now → EndNoneIn (ends_of history.now) limit (length history.now) → result ≡ told_at height (told_blocks start history.now) }
{
    match ended_at(history, limit, height) {
        Some((place, block)) => Some(CommittedBlock {
            root: block.root,
            time: time_at(start, history, place),
        }),
        None => None,
    }
}

// What a chain that began at a time committed at a height, where it is one of the last so many.
fn kept_block(
    start: u64,
    window: u64,
    history: &[StampedEntry],
    height: u64,
) -> Option<CommittedBlock>
    ensures { IsCounted history.now → result ≡ kept_told window height (told_blocks start history.now) }
{
    let (place, last) = last_ended(history, 0, history.len())?;
    if height <= last.height.saturating_sub(window) || height > last.height {
        return None;
    }
    block_at(start, history, place + 1, height)
}
