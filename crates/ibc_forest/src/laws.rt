//! What a change of pairs does to how many of them are new, each law as a function that does nothing.
ghost use Rattle.ibc_forest.specs.NewPairs.{SetAddsOneAtMost, RemovalAddsNone, UnchangedIsNone};

/// A pair that is set is one more new pair at most.
pub fn lemma_set_adds_one_at_most()
    ensures { SetAddsOneAtMost }
{}

/// A removal adds no new pair.
pub fn lemma_removal_adds_none()
    ensures { RemovalAddsNone }
{}

/// Where nothing changed, no pair is new.
pub fn lemma_unchanged_is_none()
    ensures { UnchangedIsNone }
{}
