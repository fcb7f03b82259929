//! What a relayer sees of a ledger.

ghost use Rattle.std.specs.Prelude.{◌≡◌, ◌<◌, IsSome, IfOk, IsOkUnless};
ghost use Rattle.ibc_ids.specs.declared.refusal.Refusal.TheVariants.{NoMemory};
ghost use Rattle.ibc_path_store.specs.StoreModel.{kept_at};
ghost use Rattle.ibc_ledger.specs.ProvedView.{kept_tree};
ghost use Rattle.ibc_ledger.specs.LedgerReads.{view_on};

use crate::{Ledger, View};
use ibc_ids::Refusal;
use ibc_path_store::CommittedTree;
use ibc_records::Records;

impl Ledger {
    /// What the chain proves as it stands at its last committed height, with the time of the working block (ICS 18, "Relayer
    /// algorithm"). It is a value of its own, which stays as it is while the ledger goes on. `NoMemory` where a growth is
    /// refused; nothing has changed then.
    pub fn view(&self) -> Result<View, Refusal>
        ensures ok { IfOk result (λ view. view ≡ view_on self.now.ledger) }
        ensures err { IsOkUnless result NoMemory }
    {
        self.table.lemma_holds_what_is_seen(&self.pass);
        let records = &self.node.records;
        let height = records.height();
        let tree = tree_at(records, height)?;
        let plain = records.last()?;
        let times = (records.last_time(), records.time());
        Ok(View::new(self.node.number, height, times, plain, tree))
    }
}

// The tree of a height that is kept, and none at height 0.
fn tree_at(records: &Records, height: u64) -> Result<Option<CommittedTree>, Refusal>
    requires kept { 0 < height → IsSome (kept_at records.now.store height) }
    ensures ok { IfOk result (λ tree. 0 < height → tree ≡ kept_tree records.now.store height) }
    ensures err { IsOkUnless result NoMemory }
{
    if height == 0 {
        return Ok(None);
    }
    Ok(Some(records.snapshot(height)?))
}
