//! What holds of spellings, as a function that does nothing.

ghost use Rattle.ibc_wire.specs.Reading.{ReadsWhatIsSpelled};

/// A proof is read from bytes just where they spell it.
pub fn lemma_proofs_are_read_as_they_are_spelled()
    ensures { ReadsWhatIsSpelled }
{}
