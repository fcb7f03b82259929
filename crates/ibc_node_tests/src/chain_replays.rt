//! A run of two chains is stored, and the entries of the second are replayed beside the heights of the first.

mod run;

use ibc_chain_replay::{ChainDifference, replay_chain};
use ibc_ids::{Refusal, Root};
use ibc_ledger::Ledger;
use ibc_machine::{Effect, Entry, Event, Reading, Reply};
use run::{TwoChains, entries, genesis, play};
use std::alloc::Global;
use std::process::Abort;

// The heights of each chain: root and time.
type Heights = Vec<Vec<(Root, u64)>>;

// What the first chain published; the second one's own heights aren't asked for.
fn published(rt: &impl Abort, alloc: Global, run: &TwoChains) -> Heights {
    let mut first = Vec::new(alloc);
    for height in run.heights.iter() {
        first.push(*height).ok().expect(rt, "memory");
    }
    vec![in alloc; first].expect(rt, "memory")
}

// The replay of these entries of the second chain beside these heights.
fn replayed(
    rt: &impl Abort,
    alloc: Global,
    heights: Heights,
    list: Vec<Entry>,
) -> Result<Ledger, ChainDifference> {
    let genesis = genesis(rt, alloc);
    assert!(rt; 1 < genesis.chains.as_slice().len());
    let answer = replay_chain(alloc, &genesis, 1, heights.as_slice(), list);
    drop(heights);
    drop(genesis);
    answer
}

// Where and how the replay differs.
fn difference(
    rt: &impl Abort,
    alloc: Global,
    heights: Heights,
    list: Vec<Entry>,
) -> ChainDifference {
    match replayed(rt, alloc, heights, list) {
        Ok(ledger) => {
            drop(ledger);
            panic!(rt; "a difference")
        }
        Err(why) => why,
    }
}

// Whether a ledger has as many entries as the run's second one, and the same root.
fn is_as_stored(rt: &impl Abort, run: &TwoChains, ledger: &Ledger) -> bool {
    let kept = run.world.ledger(1).expect(rt, "a chain");
    let view = ledger.view().expect(rt, "memory");
    let stored = kept.view().expect(rt, "memory");
    let same = ledger.history().len() == kept.history().len()
        && view.height() != 0
        && view.height() == stored.height();
    let same_roots = same && view.root() == stored.root() && view.time() == stored.time();
    drop(stored);
    drop(view);
    same_roots
}

#[test]
fn a_chain_is_replayed(rt: HostRuntime) {
    let alloc = rt.alloc();
    let run = play(&rt, alloc);
    let list = entries(&rt, alloc, &run);
    let many = list.len();
    let heights = published(&rt, alloc, &run);
    let ledger = replayed(&rt, alloc, heights, list)
        .ok()
        .expect(&rt, "a ledger");
    let same = is_as_stored(&rt, &run, &ledger);
    drop(ledger);
    drop(run);
    assert!(rt; same && many == 10);
}

// Whether it is a difference of replies at this place, and the stored one is this refusal.
fn is_refused_at(why: &ChainDifference, here: usize, refusal: Refusal) -> bool {
    match why {
        ChainDifference::At { place, due, stored } => {
            *place == here
                && due.reading == stored.reading
                && due.reply != stored.reply
                && stored.reply == Reply::No(refusal)
        }
        _ => false,
    }
}

// A changed reply is found at its place.
fn check_refusal(rt: &impl Abort, alloc: Global, run: &TwoChains, place: usize, refusal: Refusal) {
    let mut list = entries(rt, alloc, run);
    let entry = list.get_mut(place).expect(rt, "an entry");
    entry.reply = Reply::No(refusal);
    let heights = published(rt, alloc, run);
    let why = difference(rt, alloc, heights, list);
    let is_found = is_refused_at(&why, place, refusal);
    drop(why);
    assert!(rt; is_found);
}

#[test]
fn changed_replies_are_found_at_their_places(rt: HostRuntime) {
    let alloc = rt.alloc();
    let run = play(&rt, alloc);
    check_refusal(&rt, alloc, &run, 0, Refusal::OwnChain);
    check_refusal(&rt, alloc, &run, 4, Refusal::BadProof);
    check_refusal(&rt, alloc, &run, 9, Refusal::NoMemory);
    drop(run);
}

// The replay beside the first so many heights.
fn beside(rt: &impl Abort, alloc: Global, run: &TwoChains, count: usize) -> ChainDifference {
    let list = entries(rt, alloc, run);
    let mut heights = published(rt, alloc, run);
    heights.get_mut(0).expect(rt, "a chain").truncate(count);
    difference(rt, alloc, heights, list)
}

#[test]
fn what_nobody_published_is_found(rt: HostRuntime) {
    let alloc = rt.alloc();
    let run = play(&rt, alloc);
    let why = beside(&rt, alloc, &run, 0);
    let is_found = matches!(&why, ChainDifference::NotPublished { place: 2, .. });
    drop(why);
    assert!(rt; is_found);
    let why = beside(&rt, alloc, &run, 3);
    let is_found = matches!(&why, ChainDifference::NotPublished { place: 4, .. });
    drop(why);
    drop(run);
    assert!(rt; is_found);
}

// Whether the update at place 2 is due to be refused, since its header isn't the published one.
fn is_wrong_header(why: &ChainDifference) -> bool {
    match why {
        ChainDifference::At { place, due, stored } => {
            *place == 2
                && due.reply == Reply::No(Refusal::WrongHeader)
                && due.reading == stored.reading
                && stored.reply == Reply::Ok(Effect::None)
        }
        _ => false,
    }
}

// Whether the replay finds out that the first height was published with this root and time.
fn finds_first(rt: &impl Abort, alloc: Global, run: &TwoChains, root: Root, time: u64) -> bool {
    let list = entries(rt, alloc, run);
    let mut heights = published(rt, alloc, run);
    let first = heights.get_mut(0).expect(rt, "a chain");
    let height = first.get_mut(0).expect(rt, "a height");
    *height = (root, time);
    let why = difference(rt, alloc, heights, list);
    let is_found = is_wrong_header(&why);
    drop(why);
    is_found
}

#[test]
fn another_root_and_another_time_are_found(rt: HostRuntime) {
    let alloc = rt.alloc();
    let run = play(&rt, alloc);
    let (root, time) = *run.heights.first().expect(&rt, "a height");
    assert!(rt; finds_first(&rt, alloc, &run, Root::from_bytes([7; 32]), time));
    assert!(rt; finds_first(&rt, alloc, &run, root, time.saturating_add(1)));
    drop(run);
}

// Whether the replay finds that the reading at a place is another one.
fn finds_reading(
    rt: &impl Abort,
    alloc: Global,
    run: &TwoChains,
    here: usize,
    reading: Option<Reading>,
) -> bool {
    let mut list = entries(rt, alloc, run);
    let entry = list.get_mut(here).expect(rt, "an entry");
    entry.reading = reading;
    let heights = published(rt, alloc, run);
    let why = difference(rt, alloc, heights, list);
    let is_found = match &why {
        ChainDifference::At { place, due, stored } => {
            *place == here && due.reading != stored.reading && stored.reading == reading
        }
        _ => false,
    };
    drop(why);
    is_found
}

#[test]
fn changed_readings_are_found(rt: HostRuntime) {
    let alloc = rt.alloc();
    let run = play(&rt, alloc);
    let gone = Reading {
        published: 1,
        row_was_there: Some(false),
    };
    let earlier = Reading {
        published: 0,
        row_was_there: None,
    };
    assert!(rt; finds_reading(&rt, alloc, &run, 2, Some(gone)));
    assert!(rt; finds_reading(&rt, alloc, &run, 2, None));
    assert!(rt; finds_reading(&rt, alloc, &run, 5, Some(earlier)));
    assert!(rt; finds_reading(&rt, alloc, &run, 5, None));
    drop(run);
}

#[test]
fn events_of_another_chain_are_found(rt: HostRuntime) {
    let alloc = rt.alloc();
    let run = play(&rt, alloc);
    let mut list = entries(&rt, alloc, &run);
    let stray = Entry {
        event: Event::Block {
            chain: 0,
            next_time: 100,
        },
        reply: Reply::No(Refusal::TimeBack),
        reading: None,
    };
    list.push(stray).ok().expect(&rt, "memory");
    let heights = published(&rt, alloc, &run);
    let why = difference(&rt, alloc, heights, list);
    let is_found = matches!(&why, ChainDifference::OtherChain { place: 10, .. });
    drop(why);
    drop(run);
    assert!(rt; is_found);
}

#[test]
fn no_chain_begins_alone(rt: HostRuntime) {
    let alloc = rt.alloc();
    let mut alone = genesis(&rt, alloc);
    let second = alone.chains.pop();
    drop(second);
    assert!(rt; 0 < alone.chains.as_slice().len());
    let answer = replay_chain(alloc, &alone, 0, &[], Vec::new(alloc));
    drop(alone);
    let is_refused = matches!(&answer, Err(ChainDifference::NoGenesis));
    drop(answer);
    assert!(rt; is_refused);
}
