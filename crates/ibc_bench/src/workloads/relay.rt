//! Three chains in a row: bursts of transfers and notes go either way over their channels, and are relayed until all are received
//! and acknowledged, or have timed out.

use crate::lanes::{LaneEnd, Traffic, open_lane, send_burst};
use crate::network::Network;
use crate::random::Random;
use crate::relaying::relay_all;
use crate::run_error::RunError;
use ibc_script::Application;

// The chains that have channels between them.
const PAIRS: [(u8, u8); 2] = [(0, 1), (1, 2)];

// The channels: between which chains, and of which application.
const LANES: [(u8, u8, Application); 6] = [
    (0, 1, Application::Transfer),
    (0, 1, Application::Transfer),
    (0, 1, Application::Transfer),
    (0, 1, Application::Note),
    (1, 2, Application::Transfer),
    (1, 2, Application::Note),
];

const TRAFFIC: Traffic = Traffic {
    users: 40,
    late: 20,
};

/// Opens the channels, and relays so many bursts.
pub fn drive(network: &mut Network, size: u64, random: &mut Random) -> Result<(), RunError> {
    let mut ends = Vec::new(network.alloc);
    let driven = match open_lanes(network, &mut ends) {
        Ok(()) => relay_bursts(network, random, ends.as_slice(), size),
        Err(error) => Err(error),
    };
    drop(ends);
    driven
}

// Opens the channels.
fn open_lanes(network: &mut Network, ends: &mut Vec<LaneEnd>) -> Result<(), RunError> {
    for (first, second, application) in LANES {
        open_lane(network, ends, first, second, application)?;
    }
    Ok(())
}

// Relays so many bursts.
fn relay_bursts(
    network: &mut Network,
    random: &mut Random,
    ends: &[LaneEnd],
    size: u64,
) -> Result<(), RunError> {
    for _round in 0..size {
        relay_burst(network, random, ends)?;
    }
    Ok(())
}

// Sends 1 to 100 packets, and relays them.
fn relay_burst(
    network: &mut Network,
    random: &mut Random,
    ends: &[LaneEnd],
) -> Result<(), RunError> {
    let count = random.below(100).saturating_add(1);
    send_burst(network, random, ends, TRAFFIC, count)?;
    relay_all(network, 3, &PAIRS)
}
