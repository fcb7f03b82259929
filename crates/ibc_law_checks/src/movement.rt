//! What an entry moves.

use crate::BrokenLaw;
use ibc_wire::Packet;

/// How a packet goes over a lane.
#[derive(Clone, Copy, Debug, PartialEq, Eq, Drop)]
pub enum Passing {
    Sent,
    Received,
    Acknowledged,
    TimedOut,
}

/// What an entry moves, and over which lane.
#[derive(Drop)]
pub enum Movement {
    /// No packet.
    Nothing,
    /// It breaks a law, whatever the lanes hold. Where something moved at an end, that is the place of the end.
    Breaks {
        law: BrokenLaw,
        end: Option<usize>,
    },
    /// The packet goes so over the lane of the end at this place.
    Passes {
        lane: usize,
        passing: Passing,
        packet: Packet,
    },
}
