//! Lines of a run, and the entries that they are of.

ghost use Rattle.std.specs.Prelude.{◌≡◌, ◌≤◌, ◌<◌, ◌+◌, ◌∷◌, ◌++◌, IfOk, IfSome, IsTrue, length, option_map, true};
ghost use Rattle.ibc_script_cli.specs.Runs.{name_of};
ghost use Rattle.ibc_explain.specs.EntryLines.{AreLinesOf, IsLineIn, IsPlaced, entries_of, entry_at, event_kind, kept_entry, named_line};
ghost use Rattle.ibc_explain.specs.Counts.{AllAreTold, GoesOn, IsNext};

use ibc_ids::Refusal;
use ibc_ledger::StampedEntry;
use ibc_machine::{Entry, Event};
use ibc_script::{ChainName, EventKind};
use ibc_script_cli::{Line, line_text};
use ibc_world_core::World;
use std::alloc::{AllocError, AllocFailed, Global};

/// A place in a ledger's history: the chain's number, and how many entries stand before.
#[derive(Clone, Copy, Debug, PartialEq, Eq)]
pub struct EntryPlace {
    pub chain: u8,
    pub index: usize,
}

/// A line of a run, without its line feed, and the place of the entry that it is of, where it is of one.
#[derive(Clone, Copy)]
pub struct PlacedLine<'t> {
    pub text: &'t str,
    pub place: Option<EntryPlace>,
}

/// Why lines have no places.
#[derive(Clone, Copy, Debug, PartialEq, Eq)]
pub enum NotPlaced {
    /// A growth was refused.
    NoMemory,
    /// The text isn't of lines, or an entry has no line. That comes of no run.
    LeftOut,
}

impl From<AllocError> for NotPlaced {
    fn from(_e: AllocError) -> NotPlaced {
        NotPlaced::NoMemory
    }
}

impl<T: Drop> From<AllocFailed<T>> for NotPlaced {
    fn from(_e: AllocFailed<T>) -> NotPlaced {
        NotPlaced::NoMemory
    }
}

impl From<Refusal> for NotPlaced {
    fn from(_e: Refusal) -> NotPlaced {
        NotPlaced::NoMemory
    }
}

/// The lines of a run of a world, in their order, each with the entry that it is of; no entry is left out.
pub fn placed_lines<'t>(
    alloc: Global,
    names: &[ChainName],
    world: &World,
    text: &'t str,
) -> Result<Vec<PlacedLine<'t>>, NotPlaced>
    requires { length names.now ≤ 8 }
    ensures { IfOk result (λ lines. AreLinesOf names.now world.now.ledgers text.now lines.items) }
{
    let placing = Placing {
        alloc,
        names,
        world,
    };
    let mut next = vec![in alloc; 0usize; names.len()]?;
    let mut lines = Vec::new(alloc);
    let mut rest = text;
    while let Some((line, behind)) = first_line(rest) {
        lines.push(placing.placed(line, &mut next)?)?;
        rest = behind;
    }
    if !rest.is_empty() {
        return Err(NotPlaced::LeftOut);
    }
    if !are_all_told(world, next.as_slice()) {
        return Err(NotPlaced::LeftOut);
    }
    Ok(lines)
}

// The first line of a text, and what stands behind its line feed; none where there is no line feed.
fn first_line(text: &str) -> Option<(&str, &str)>
    ensures { IfSome result (λ cut. text.now ≡ cut.0.now ++ 10 ∷ cut.1.now) }
{
    text.split_once('\n')
}

// Whether so many entries of each chain are all that there are.
fn are_all_told(world: &World, told: &[usize]) -> bool
    requires { length told.now ≤ 8 }
    ensures { IsTrue result → AllAreTold world.now.ledgers told.now }
{
    if world.ledger(told.len() as u8).is_some() {
        return false;
    }
    for chain in 0..told.len() {
        if entry_count(world, chain as u8) != told.get(chain).copied().unwrap_or(0) {
            return false;
        }
    }
    true
}

// How many entries a chain has.
fn entry_count(world: &World, chain: u8) -> usize
    ensures { result ≡ entries_of world.now.ledgers chain }
{
    match world.ledger(chain) {
        Some(ledger) => ledger.history().len(),
        None => 0,
    }
}

// Counts the next entry of a chain.
fn count(next: &mut Vec<usize>, place: Option<EntryPlace>)
    requires next { IfSome place (IsNext next.old.items) }
    requires small { IfSome place (λ p. p.index < usize.MAX) }
    ensures counted { GoesOn next.old.items place next.new.items }
    ensures long { length next.new.items ≡ length next.old.items }
{
    match place {
        Some(place) => next[usize::from(place.chain)] = place.index + 1,
        None => {}
    }
}

/// The kind of an event, by which a line calls it.
pub fn event_kind(event: &Event) -> EventKind
    ensures { result ≡ event_kind event.now }
{
    match event {
        Event::Message { message, .. } => EventKind::Message(message.kind()),
        Event::Block { .. } => EventKind::Block,
    }
}

/// The entry at a place of the ledgers' histories.
pub fn entry_at(world: &World, place: EntryPlace) -> Option<&Entry>
    ensures { option_map (λ entry. entry.now) result ≡ entry_at world.now.ledgers place }
{
    match world.ledger(place.chain) {
        Some(ledger) => entry_in(ledger.history(), place.index),
        None => None,
    }
}

// The entry behind so many others of a history.
fn entry_in(history: &[StampedEntry], index: usize) -> Option<&Entry>
    ensures { option_map (λ entry. entry.now) result ≡ kept_entry history.now index }
{
    match history.get(index) {
        Some(stamped) => Some(&stamped.entry),
        None => None,
    }
}

/// Finds the entry of each line of a run in turn.
#[derive(Clone, Copy)]
struct Placing<'w> {
    alloc: Global,
    names: &'w [ChainName],
    world: &'w World,
}

impl<'w> Placing<'w> {
    // A line with its place, where it is the line of a chain's next entry. These are counted in `next`.
    fn placed<'t>(&self, line: &'t str, next: &mut Vec<usize>) -> Result<PlacedLine<'t>, NotPlaced>
        requires { length next.old.items ≤ 8 }
        ensures text { IfOk result (λ placed. placed.text.now ≡ line.now) }
        ensures placed { IfOk result (IsPlaced self.now.names.now self.now.world.now.ledgers) }
        ensures counted { IfOk result (λ placed. GoesOn next.old.items placed.place next.new.items) }
        ensures long { length next.new.items ≡ length next.old.items }
    {
        let place = self.place_of(line, next.as_slice())?;
        count(next, place);
        Ok(PlacedLine { text: line, place })
    }

    // The place of the entry that a line is of: the next one of the chain that it names.
    fn place_of(&self, line: &str, next: &[usize]) -> Result<Option<EntryPlace>, Refusal>
        requires { length next.now ≤ 8 }
        ensures is { IfOk result (λ place. IfSome place (IsLineIn self.now line.now)) }
        ensures next { IfOk result (λ place. IfSome place (IsNext next.now)) }
        ensures small { IfOk result (λ place. IfSome place (λ p. p.index < usize.MAX)) }
    {
        for chain in 0..next.len() {
            let place = self.place_on(line, chain as u8, next)?;
            if place.is_some() {
                return Ok(place);
            }
        }
        Ok(None)
    }

    // The place of a chain's next entry, where the line is that of this entry.
    fn place_on(&self, line: &str, chain: u8, next: &[usize]) -> Result<Option<EntryPlace>, Refusal>
        ensures is { IfOk result (λ place. IfSome place (IsLineIn self.now line.now)) }
        ensures next { IfOk result (λ place. IfSome place (IsNext next.now)) }
        ensures small { IfOk result (λ place. IfSome place (λ p. p.index < usize.MAX)) }
    {
        let Some(index) = next.get(usize::from(chain)).copied() else {
            return Ok(None);
        };
        if index == usize::MAX {
            return Ok(None);
        }
        let place = EntryPlace { chain, index };
        if self.is_line_of(line, place)? {
            Ok(Some(place))
        } else {
            Ok(None)
        }
    }

    fn name(&self, chain: u8) -> &'w str
        ensures { result.now ≡ name_of self.now.names.now chain }
    {
        match self.names.get(usize::from(chain)) {
            Some(name) => name.as_str(),
            None => "",
        }
    }

    // Whether a line is that of the entry at a place.
    fn is_line_of(&self, line: &str, place: EntryPlace) -> Result<bool, Refusal>
        ensures { IfOk result (λ is. IsTrue is → IsLineIn self.now line.now place) }
    {
        let name = self.name(place.chain);
        if !line.starts_with(name) {
            return Ok(false);
        }
        match entry_at(self.world, place) {
            Some(entry) => self.is_line(line, name, entry),
            None => Ok(false),
        }
    }

    // Whether a line is that of an entry of a chain of this name.
    fn is_line(&self, line: &str, name: &str, entry: &Entry) -> Result<bool, Refusal>
        ensures { IfOk result (λ is. IsTrue is → line.now ≡ named_line name.now entry.now) }
    {
        let printed = Line::Reply {
            chain: name,
            kind: event_kind(&entry.event),
            reply: &entry.reply,
        };
        let text = line_text(self.alloc, printed)?;
        let is = is_same(text.as_str(), line);
        drop(text);
        Ok(is)
    }
}

// Whether two texts are the same.
fn is_same(text: &str, line: &str) -> bool
    ensures { result ≡ true → text.now ≡ line.now }
{
    text == line
}
