//! Chains that threads share: scripts by each way to call them, what their histories say of it, and threads that relay and race
//! between them, also those that are counted and those on random scripts. Lists of events that a world is asked at once, also under
//! refused growths. Tests alone.
#![tactic(auto)]

#[cfg(test)]
mod asked;
#[cfg(test)]
mod committing;
#[cfg(test)]
mod equal;
#[cfg(test)]
mod gathered;
#[cfg(test)]
mod handing;
#[cfg(test)]
mod heights;
#[cfg(test)]
mod histories;
#[cfg(test)]
mod holding;
#[cfg(test)]
mod list_tests;
#[cfg(test)]
mod lists;
#[cfg(test)]
mod looks;
#[cfg(test)]
mod race_counts;
#[cfg(test)]
mod refused;
#[cfg(test)]
mod relayed;
#[cfg(test)]
mod scripts;
#[cfg(test)]
mod simulations;
#[cfg(test)]
mod spelled;
#[cfg(test)]
mod tests;
#[cfg(test)]
mod trial;
#[cfg(test)]
mod turns;
