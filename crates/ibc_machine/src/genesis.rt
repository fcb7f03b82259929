//! How a world begins.
use ibc_ids::{Denom, UserName};

/// A chain in the beginning: the time of its first block, and who holds how much of which base denomination.
#[derive(Drop, Debug)]
pub struct ChainStart {
    pub time: u64,
    pub balances: Vec<(UserName, Denom, u128)>,
}

/// The beginning of a world. A chain publishes at most `capacity` heights, 1 to 1,000,000, and keeps the last
/// `window` of them, 1 to 4,096 and at most the capacity. There are 2 to 8 chains, numbered from 0.
#[derive(Drop, Debug)]
pub struct Genesis {
    pub capacity: u64,
    pub window: u64,
    pub chains: Vec<ChainStart>,
}
