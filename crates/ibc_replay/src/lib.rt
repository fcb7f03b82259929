//! A world that is made again of the entries that were stored of one: what an auditor does with a history, and what a node does when it
//! starts again.
#![tactic(auto)]

mod replaying;

pub use replaying::{Answered, Difference, replay, replay_on};
