//! Random scripts are run, and the laws are looked at after each event.
#![tactic(auto)]

mod checked;
mod failed_script;
mod judging;
mod merging;
mod racing;
mod running;
mod shrinking;
mod simulation;
mod writer;

pub use checked::Checked;
pub use failed_script::{FailedScript, ShortScript};
pub use judging::{judge, race_and_judge};
pub use racing::race;
pub use running::replay;
pub use shrinking::{Breaks, Broken, all_kept, shrunk};
pub use simulation::{Simulation, SimulationRequest};
