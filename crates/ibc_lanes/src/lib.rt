//! Four hashes at a time, each in a lane of its own (FIPS 180-4, section 6.2; RFC 6962, section 2.1).
#![tactic(auto)]

mod block;
mod constants;
mod count;
mod inner;
mod leaves;
mod load;
mod state;
mod texts;
mod words;

pub use inner::{InnerPair, hash_four_inner};
pub use leaves::{hash_four_leaves, hash_four_values};

#[cfg(test)]
mod tests;
