//! What stays true of ledgers as they go on.

ghost use Rattle.ibc_refinement.specs.LedgerGrowth.{LedgersGoOn, LedgersSeeMore};

/// A ledger whose pass has seen more publications of the others is a ledger in the same state.
pub fn lemma_a_ledger_sees_more()
    ensures { LedgersSeeMore }
{}

/// A ledger with one entry more is a ledger, in the state that the entry's step leaves.
pub fn lemma_a_ledger_goes_on()
    ensures { LedgersGoOn }
{}
