//! The static library: the calls of `ibc_calls` by the names that C has for them by `include/ibcworld.h`, and Rust by `bindings/rust`. Each export
//! calls one of them, and says again what it says. It answers a number: 0, or that of why it was refused.
#![tactic(auto)]

mod journals;
mod light;
mod notes;
mod packets;
mod reads;
mod tokens;
mod views;
mod worlds;
