//! Names, records, messages, trees and proofs beside vectors that were worked out apart from this code. Tests alone.
#![tactic(auto)]

#[cfg(test)]
mod forms;
#[cfg(test)]
mod messages;
#[cfg(test)]
mod names;
#[cfg(test)]
mod proofs;
#[cfg(test)]
mod records;
#[cfg(test)]
mod store_digests;
#[cfg(test)]
mod store_texts;
#[cfg(test)]
mod stores;
#[cfg(test)]
mod token_texts;
#[cfg(test)]
mod trees;
