//! The program's words, the steps of scripts as they are run, and the lines that it prints.
#![tactic(auto)]

mod chains;
mod completing;
mod line;
mod opening;
mod printing;
mod program;
mod racing;
mod runner;
mod streams;
mod words;

pub use chains::{Chains, CommittedBlock, Holdings};
pub use line::{Line, line_text};
pub use program::{Races, Worlds, drive, run_script};
pub use racing::{Race, RaceAudit};
pub use runner::Runner;
pub use streams::{read_input, write_line};
pub use words::{Command, read_words};
