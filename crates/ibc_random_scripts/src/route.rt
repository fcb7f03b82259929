//! Ends of channels with their peers, and what a step has to say of them.

ghost use Rattle.std.specs.Prelude.{◌≡◌, min};

use crate::run_so_far::RunSoFar;
use crate::step_text::StepText;
use ibc_law_checks::EndNotes;
use ibc_script::Fault;

/// How many channels a script opens first.
pub const FIRST_CHANNELS: u64 = 5;

/// How many ends these have.
const FIRST_ENDS: usize = 10;

/// The places of an end of a channel and of its peer, and their chains.
#[derive(Clone, Copy)]
pub struct Route {
    pub own: usize,
    pub peer: usize,
    pub from: u8,
    pub to: u8,
}

/// How many of so many ends belong to the channels that a script opens first.
pub fn first_ends(count: usize) -> usize
    ensures { result ≡ min count FIRST_ENDS }
{
    count.min(FIRST_ENDS)
}

/// An end and its peer; none where the end names no peer that is noted. Fault: `NoMemory`.
pub fn peer_of(run: &RunSoFar<'_>, own: usize) -> Result<Option<Route>, Fault> {
    match run.notes.checks.peer_of(run.world, own) {
        Ok(Some(peer)) => Ok(route_between(run.notes.checks.ends.as_slice(), own, peer)),
        Ok(None) => Ok(None),
        Err(_) => Err(Fault::NoMemory),
    }
}

// An end and its peer, by their places.
fn route_between(ends: &[EndNotes], own: usize, peer: usize) -> Option<Route> {
    let from = ends.get(own)?.chain;
    let to = ends.get(peer)?.chain;
    Some(Route {
        own,
        peer,
        from,
        to,
    })
}

/// The last height of a chain.
pub fn height_of(run: &RunSoFar<'_>, chain: u8) -> u64 {
    match run.notes.checks.clocks.get(usize::from(chain)) {
        Some(clock) => clock.height,
        None => 0,
    }
}

/// The working time of a chain.
pub fn time_of(run: &RunSoFar<'_>, chain: u8) -> u64 {
    match run.notes.checks.clocks.get(usize::from(chain)) {
        Some(clock) => clock.time,
        None => 0,
    }
}

/// How many packets an end sent.
pub fn sent_by(run: &RunSoFar<'_>, end: usize) -> usize {
    match run.notes.checks.lanes.get(end) {
        Some(lane) => lane.sent().len(),
        None => 0,
    }
}

/// Whether an end keeps the order of its packets.
pub fn is_ordered(run: &RunSoFar<'_>, end: usize) -> bool {
    match run.notes.checks.ends.get(end) {
        Some(notes) => notes.ordered,
        None => false,
    }
}

/// Adds the packet that an end sent under a sequence to a step.
pub fn add_packet(run: &RunSoFar<'_>, end: usize, sequence: u64, step: &mut StepText) {
    if let Some(notes) = run.notes.checks.ends.get(end) {
        step.packet(
            notes.chain,
            notes.port.as_str(),
            notes.channel.as_str(),
            sequence,
        );
    }
}

/// Adds the port and the channel of an end to a step.
pub fn add_end(run: &RunSoFar<'_>, end: usize, step: &mut StepText) {
    if let Some(notes) = run.notes.checks.ends.get(end) {
        step.text("port", notes.port.as_str());
        step.text("channel", notes.channel.as_str());
    }
}

/// Adds the connection of an end to a step.
pub fn add_connection(run: &RunSoFar<'_>, end: usize, step: &mut StepText) {
    if let Some(known) = run.notes.known.connection_of(end) {
        step.text("connection", known.connection.as_str());
    }
}
