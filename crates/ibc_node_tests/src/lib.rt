//! Worlds that live: entries as bytes, journals, replays, nodes, and the lines that they answer. Tests alone.
#![tactic(auto)]

#[cfg(test)]
mod chain_replays;
#[cfg(test)]
mod entry_bytes;
#[cfg(test)]
mod journals;
#[cfg(test)]
mod lines;
#[cfg(test)]
mod nodes;
#[cfg(test)]
mod replays;
