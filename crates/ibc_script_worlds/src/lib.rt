//! The chains of a script are the ledgers of a world.
#![tactic(auto)]

mod blocks;
mod relaying;
mod worlds;

pub use blocks::ChainStarts;
pub use relaying::plans_between;
pub use worlds::{ScriptWorld, WorldFactory};
