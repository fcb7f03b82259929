//! What the lines of a run are about, read off the histories of its ledgers.
#![tactic(auto)]

mod absent;
mod ends;
mod explaining;
mod explanation;
mod facts;
mod json;
mod lines;
mod meanings;
mod outcome;
mod places;
mod reasons;
mod refused;
mod running;
mod text;
mod tokens;
mod totals;
mod watched;

pub use absent::Absent;
pub use explaining::{ExplainedLine, LineNotes, explained};
pub use explanation::{Explanation, explanation_of};
pub use facts::{Facts, PacketName, facts_of, packet_of};
pub use lines::{ExplainedForm, explain};
pub use outcome::{PacketOutcome, outcome_of};
pub use places::{EntryPlace, NotPlaced, PlacedLine, placed_lines};
pub use running::{RefusedEntry, ScriptRun, StepTaken, run};
pub use text::{explained_words, write_explained};
pub use totals::{ChannelTotal, totals_of};
pub use watched::Watched;
