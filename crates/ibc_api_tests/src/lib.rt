//! Public calls of libraries, with ample memory: each answer is compared. Tests alone.
#![tactic(auto)]

#[cfg(test)]
mod bank;
#[cfg(test)]
mod bank_row;
#[cfg(test)]
mod client;
#[cfg(test)]
mod connection;
#[cfg(test)]
mod genesis;
#[cfg(test)]
mod laws;
#[cfg(test)]
mod listed_tokens;
#[cfg(test)]
mod names;
#[cfg(test)]
mod pair;
#[cfg(test)]
mod path_store;
#[cfg(test)]
mod proof_checks;
#[cfg(test)]
mod records;
#[cfg(test)]
mod relayer;
#[cfg(test)]
mod shared_map;
#[cfg(test)]
mod sorted_map;
#[cfg(test)]
mod token_data;
#[cfg(test)]
mod totals;
#[cfg(test)]
mod transfer;
#[cfg(test)]
mod world;
