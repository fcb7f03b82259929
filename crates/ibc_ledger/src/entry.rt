//! What a ledger keeps of an event.

ghost use Rattle.std.specs.Prelude.{◌≡◌, length, option_map};
ghost use Rattle.ibc_refinement.specs.LedgerGrowth.{stamp_if};

use ibc_machine::Entry;
use ibc_root_table::Pass;
use std::snapshot::Snapshot;

/// An entry of a ledger's history. Where a published height was read, or the ledger's own was published, contracts
/// also see which publications the ledger's pass had seen by then; the code keeps no list of them.
#[derive(Drop)]
pub struct StampedEntry {
    pub entry: Entry,
    pub seen: Option<Snapshot<Pass>>,
}

/// What the pass has seen, where it is kept.
pub(crate) fn seen_if(pass: &Pass, is_kept: bool) -> Option<Snapshot<Pass>>
    ensures { option_map (λ s. length s.value.seen) result ≡ stamp_if is_kept pass.now.seen }
{
    if is_kept {
        Some(Snapshot::of(pass))
    } else {
        None
    }
}
