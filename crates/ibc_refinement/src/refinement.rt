//! The refinement theorem and its use for a world's run, each as a function that does nothing.
ghost use Rattle.ibc_refinement.specs.Refinement.{MergedIsRun, KeptOrderIsRun, GoingOnIsRun, AppliedIsRun};

/// A list that merges the histories of ledgers is a run of the machine since genesis, where no two texts that
/// are hashed clash.
pub fn lemma_merged_is_run()
    ensures { MergedIsRun }
{}

/// So is the order that a world keeps.
pub fn lemma_kept_order_is_run()
    ensures { KeptOrderIsRun }
{}

/// From one state of a world to the next: its events are steps of the machine, those that gave no entry too.
pub fn lemma_going_on_is_run()
    ensures { GoingOnIsRun }
{}

/// The same from what a world's run promises of its ledgers.
pub fn lemma_applied_is_run()
    ensures { AppliedIsRun }
{}
