//! The lines that a node reads and writes: steps, messages and questions, each a JSON object, and what comes of them.
#![tactic(auto)]

mod answers;
mod auditing;
mod desk;
mod entry_lines;
mod line_fault;
mod lines;
mod questions;
mod request;
mod running;
mod serving;
mod step_text;
mod words;

pub use auditing::tell_audit;
pub use desk::Desk;
pub use entry_lines::audit_lines;
pub use line_fault::LineFault;
pub use lines::NodeLine;
pub use request::{NodeAction, NodeQuestion, NodeRequest, read_request};
pub use running::{run_audit, run_node};
pub use serving::serve;
pub use step_text::SingleSteps;
pub use words::{EntryFiles, Task, Words, help, read_words, version};
