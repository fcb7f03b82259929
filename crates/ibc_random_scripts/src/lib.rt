//! Random scripts: how they begin, and what is done next.
#![tactic(auto)]

mod draws;
mod maker;
mod names;
mod route;
mod run_so_far;
mod script_texts;
mod step_text;
mod weaving;

pub use draws::Draws;
pub use maker::{FIRST_STEPS, Maker};
pub use run_so_far::RunSoFar;
pub use script_texts::{ScriptStart, empty_head, head, script_text};
pub use weaving::with_relays;
