//! The ledgers of one process, asked one event after another, and what every world keeps, on one page: `specs/EveryWorld`.
#![tactic(auto)]

mod audits;
mod every_world;
mod fungibility;
mod gathering;
mod holdings;
mod meeting;
mod totals;
mod world;

pub use audits::{lawful_audit, lawful_audit_in_place};
pub use every_world::{lemma_the_laws_hold, lemma_what_every_world_keeps};
pub use fungibility::balanced_totals;
pub use gathering::{audit, audit_in_place};
pub use holdings::Audit;
pub use totals::totals_of_ledgers;
pub use world::{NotRun, World};
