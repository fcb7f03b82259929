//! A run to which the next steps belong.

use ibc_run_notes::RunNotes;
use ibc_world_core::World;

/// The world of a run, and what is noted of it so far.
#[derive(Clone, Copy)]
pub struct RunSoFar<'r> {
    pub world: &'r World,
    pub notes: &'r RunNotes,
}
