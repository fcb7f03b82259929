//! What is sent is relayed by plans, until nothing is left to plan.

use crate::network::Network;
use crate::run_error::RunError;
use ibc_script_cli::Chains;
use ibc_wire::Message;

/// What was sent is relayed, or times out, in fewer turns than these.
const MOST_TURNS: u32 = 100;

// Gives a chain what is planned for it, and tells how many messages that were.
fn submit_each(network: &mut Network, chain: u8, messages: Vec<Message>) -> usize {
    let count = messages.len();
    for message in messages {
        network.send(chain, message);
    }
    count
}

// Gives two chains what is planned for them, and tells how many messages that were.
fn relay_between(network: &mut Network, first: u8, second: u8) -> Result<usize, RunError> {
    let (for_second, for_first) = network.plans(first, second)?;
    let there = submit_each(network, second, for_second);
    let back = submit_each(network, first, for_first);
    Ok(there.saturating_add(back))
}

// Ends a block of each of so many chains, and relays between the pairs.
fn relay_turn(network: &mut Network, chains: u8, pairs: &[(u8, u8)]) -> Result<usize, RunError> {
    for chain in 0..chains {
        network.end_block(chain);
    }
    let mut count = 0usize;
    for (first, second) in pairs {
        count = count.saturating_add(relay_between(network, *first, *second)?);
    }
    Ok(count)
}

/// Relays between pairs of the first so many chains, until nothing is left to plan.
pub fn relay_all(network: &mut Network, chains: u8, pairs: &[(u8, u8)]) -> Result<(), RunError> {
    for _turn in 0..MOST_TURNS {
        if relay_turn(network, chains, pairs)? == 0 {
            return Ok(());
        }
    }
    Err(RunError::Unexpected("there is always something to relay"))
}
