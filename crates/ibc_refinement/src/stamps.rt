//! The merge by stamps, for ledgers that several threads ran.
ghost use Rattle.ibc_refinement.specs.Audits.{AuditIsRun};
ghost use Rattle.ibc_refinement.specs.Stamps.{StampsMerge, StampedIsRun};

/// The list that the stamps make of the histories merges them along the publications.
pub fn lemma_stamps_merge()
    ensures { StampsMerge }
{}

/// So it is a run of the machine since genesis.
pub fn lemma_stamped_is_run()
    ensures { StampedIsRun }
{}

/// Ledgers in any order, with no chain missing or twice, are audited: their histories are a run since genesis.
pub fn lemma_audit_is_run()
    ensures { AuditIsRun }
{}
