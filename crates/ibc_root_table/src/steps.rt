//! What each step on the table tells, and how seats are cut and joined.
ghost use Rattle.ibc_root_table.specs.Rule.{rest_of, writer_of_first, reader_seat, seat_with_heard, spent_seat};
ghost use Rattle.ibc_root_table.specs.SeatSteps.{Looked, LookedFloor, Counted, Read, Drafted, Raised, RaisedFloor, Adopted};

use crate::knowledge::TableKnowledge;
use atomic_table::{Join, Play, Split};

/// A load of a published word.
pub struct Look;

impl Play<(), TableKnowledge> for Look {
    ghost then = { Looked };
}

/// A load of a floor.
pub struct LookFloor;

impl Play<(), TableKnowledge> for LookFloor {
    ghost then = { LookedFloor };
}

/// The raise of a floor.
pub struct RaiseFloor;

impl Play<(), TableKnowledge> for RaiseFloor {
    ghost then = { RaisedFloor };
}

/// A load of the published word of the seat's own chain.
pub struct Count;

impl Play<(), TableKnowledge> for Count {
    ghost then = { Counted };
}

/// A load of a word of a row.
pub struct ReadPart;

impl Play<(), TableKnowledge> for ReadPart {
    ghost then = { Read };
}

/// A store of a word of the next row.
pub struct DraftPart;

impl Play<(), TableKnowledge> for DraftPart {
    ghost then = { Drafted };
}

/// The raise of a published word.
pub struct Raise;

impl Play<(), TableKnowledge> for Raise {
    ghost then = { Raised };
}

/// A load of a published word, to take over what was heard.
pub struct Adopt;

impl Play<(), TableKnowledge> for Adopt {
    ghost then = { Adopted };
}

/// The new seat writes for the first chain, and the old one for the rest.
pub struct CutWriter;

impl Split<TableKnowledge> for CutWriter {
    ghost left = { rest_of };

    ghost right = { writer_of_first };
}

/// The new seat has seen as much, and only reads.
pub struct CutReader;

impl Split<TableKnowledge> for CutReader {
    ghost use Rattle.ibc_root_table.specs.declared.knowledge.TableKnowledge.{TableKnowledge};

    ghost left = { λ (v : TableKnowledge). v };

    ghost right = { reader_seat };
}

/// The seat hears what the other has seen.
pub struct Hear;

impl Join<TableKnowledge> for Hear {
    ghost both = { seat_with_heard };

    ghost spent = { spent_seat };
}
