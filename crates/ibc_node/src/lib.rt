//! A world that lives: each event that is answered stands in a journal, and the world goes on where it was.
#![tactic(auto)]

mod auditing;
mod fault;
mod keeping;
mod node;
mod opening;
mod reading;
mod unread;

pub use auditing::{JournalAudit, audit_journal};
pub use fault::NodeFault;
pub use node::{KeptAnswer, Node};
pub use opening::{open_at, open_node};
