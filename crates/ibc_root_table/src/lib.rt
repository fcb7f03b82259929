//! Roots that the chains of one process publish, in one table of words that any threads share.
#![tactic(auto)]

mod knowledge;
mod row;
mod shape;
mod steps;
mod table;

pub use table::{Pass, RootTable};

#[cfg(test)]
mod tests;
