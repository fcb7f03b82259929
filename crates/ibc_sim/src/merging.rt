//! The histories of ledgers that were driven at the same time are brought into one order.

use ibc_ledger::{Ledger, StampedEntry};
use ibc_machine::{Effect, Entry, Event, Reply};
use ibc_wire::Message;
use std::alloc::{AllocError, Global};

/// How many heights of a chain are published where an update looks at it: at least, and at most.
#[derive(Clone, Copy)]
struct HeightRange {
    chain: u8,
    least: u64,
    most: u64,
}

/// How far the history of each ledger was taken, by the ledgers' places: how many entries, and how many heights among these.
/// Updates of clients see a window of so many heights.
#[derive(Drop)]
pub struct Merging {
    window: u64,
    taken: Vec<usize>,
    heights: Vec<u64>,
}

// When an entry may come that updated a client: while as many heights of the header's chain are published as it read.
fn look_of(window: u64, entry: &Entry) -> Option<HeightRange> {
    let Event::Message { message, .. } = &entry.event else {
        return None;
    };
    let Message::UpdateClient(update) = message else {
        return None;
    };
    let reading = entry.reading?;
    let height = update.header.height;
    let (least, most) = match reading.row_was_there {
        None => (0, height.saturating_sub(1)),
        Some(true) => (height, height.saturating_add(window).saturating_sub(1)),
        Some(false) => (height.saturating_add(window), u64::MAX),
    };
    Some(HeightRange {
        chain: update.header.chain,
        least,
        most,
    })
}

// Whether an entry ended a block.
fn ends_a_block(entry: &Entry) -> bool {
    match &entry.reply {
        Reply::Ok(Effect::Block(..)) => true,
        _ => false,
    }
}

// The entries of a ledger behind so many.
fn entries_behind(ledger: &Ledger, taken: usize) -> &[StampedEntry] {
    let entries = ledger.history();
    if taken <= entries.len() {
        &entries[taken..]
    } else {
        &[]
    }
}

impl Merging {
    /// Nothing is taken yet of so many ledgers. Error: no memory.
    pub fn new(alloc: Global, window: u64, count: usize) -> Result<Merging, AllocError> {
        let taken = vec![in alloc; 0; count]?;
        match vec![in alloc; 0; count] {
            Ok(heights) => Ok(Merging {
                window,
                taken,
                heights,
            }),
            Err(error) => {
                drop(taken);
                Err(error)
            }
        }
    }

    /// The place of a ledger whose next entry may come next. None where all are taken, or where no order of the entries is that
    /// of one run. The ledgers stand in the order of their chains' numbers.
    pub fn next_place(&self, ledgers: &[Ledger]) -> Option<usize> {
        for place in 0..ledgers.len() {
            let may_come = match entries_behind(&ledgers[place], self.taken_of(place)) {
                [next, ..] => self.may_come(ledgers, place, &next.entry),
                [] => false,
            };
            if may_come {
                return Some(place);
            }
        }
        None
    }

    /// How many entries of a ledger were taken.
    pub fn taken_of(&self, place: usize) -> usize {
        match self.taken.get(place) {
            Some(taken) => *taken,
            None => 0,
        }
    }

    /// Notes that an entry of a ledger was taken.
    pub fn note_taken(&mut self, place: usize, entry: &Entry) {
        if place < self.taken.len() {
            self.taken[place] = self.taken[place].saturating_add(1);
        }
        if ends_a_block(entry) && place < self.heights.len() {
            self.heights[place] = self.heights[place].saturating_add(1);
        }
    }

    // How many heights of a chain were taken.
    fn height_of(&self, chain: usize) -> u64 {
        match self.heights.get(chain) {
            Some(height) => *height,
            None => 0,
        }
    }

    // Whether an entry may come next: what it looks at is there, and a block that it ends comes too early for no other entry.
    fn may_come(&self, ledgers: &[Ledger], place: usize, entry: &Entry) -> bool {
        match look_of(self.window, entry) {
            Some(look) => look.least <= self.height_of(usize::from(look.chain)),
            None => !ends_a_block(entry) || !self.is_awaited(ledgers, place),
        }
    }

    // Whether an entry that isn't taken looks at no more heights of a chain than were taken.
    fn is_awaited(&self, ledgers: &[Ledger], chain: usize) -> bool {
        let height = self.height_of(chain);
        for place in 0..ledgers.len() {
            for stamped in entries_behind(&ledgers[place], self.taken_of(place)) {
                if let Some(look) = look_of(self.window, &stamped.entry) {
                    if usize::from(look.chain) == chain && look.most <= height {
                        return true;
                    }
                }
            }
        }
        false
    }
}
