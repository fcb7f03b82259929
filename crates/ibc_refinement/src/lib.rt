//! Why ledgers, which see each other through roots and proofs alone, do what the machine does; why a ledger stays one as its pass sees more and its
//! history gets longer; and why the steps of one ledger for each chain, which go on event by event, are a run of the machine.
#![tactic(auto)]

mod ledger_laws;
mod refinement;
mod stamps;
mod world_laws;

pub use ledger_laws::{lemma_a_ledger_goes_on, lemma_a_ledger_sees_more};
pub use refinement::{
    lemma_applied_is_run, lemma_going_on_is_run, lemma_kept_order_is_run, lemma_merged_is_run,
};
pub use stamps::{lemma_audit_is_run, lemma_stamped_is_run, lemma_stamps_merge};
pub use world_laws::{
    lemma_a_meeting_ends_a_step, lemma_a_new_world_is_one, lemma_a_step_keeps_the_world,
    lemma_all_meet_the_first, lemma_nothing_done_is_a_step, lemma_runs_refine, lemma_steps_go_on,
    lemma_the_order_is_a_run,
};
