//! What is escrowed, present and under way between two ends of a channel.

/// What a channel of tokens has of a denomination (ICS 20, "Correctness"), each from 0 to 2^128 - 1: what its escrow account
/// holds, its vouchers on the peer's chain, what is under way to the peer, and what is under way back.
#[derive(Clone, Copy, Debug, PartialEq, Eq, Drop)]
pub struct Totals {
    pub escrow: u128,
    pub vouchers: u128,
    pub out: u128,
    pub back: u128,
}
