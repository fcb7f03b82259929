//! What is noted of a run, event by event.
#![tactic(auto)]

mod counts;
mod flights;
mod known;
mod run_notes;

pub use counts::{AnswerCounts, chain_of, tag_of};
pub use flights::{Flight, Flights, first_of_end};
pub use known::{Known, KnownClient, KnownConnection, KnownEnd};
pub use run_notes::RunNotes;
