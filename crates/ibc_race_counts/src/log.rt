//! What a relayer was answered.

ghost use Rattle.std.specs.Prelude.{◌≡◌, [], IfOk, IsOkUnless, OnErr};
ghost use Rattle.ibc_ids.specs.declared.refusal.Refusal.TheVariants.{NoMemory};
ghost use Rattle.ibc_machine.specs.ledger.Ledgers.{chain_of};
ghost use Rattle.ibc_race_counts.specs.AnsweredReceipts.{AreAnsweredReceipts, IsAskedAndKept};

use ibc_ids::Refusal;
use ibc_ledger_lock::{Chain, Receipt, WorldBrand};
use ibc_machine::{Event, Reply};
use ibc_script_races::{asked, keep, last_of};
use std::alloc::Global;
use std::marker::Model;
use std::sync::Wait;

/// The receipts of what a relayer asked chains of the world, in order. None tells that memory ran out. Contracts see what they
/// tell.
#[derive(Drop)]
pub struct RelayerLog<W: WorldBrand> {
    receipts: Vec<Receipt<W>>,
}

impl<W: WorldBrand> Model for RelayerLog<W> {
    ghost use Rattle.std.specs.Prelude.{List};
    ghost use Rattle.ibc_ledger_lock.specs.ReceiptsAndReadings.{ReceiptModel};
    ghost use Rattle.ibc_race_counts.specs.AnsweredReceipts.{AreAnsweredReceipts};

    ghost Value = { List ReceiptModel };

    ghost view = { λ log. log.receipts.items };

    ghost invariant = { λ log. AreAnsweredReceipts log.receipts.items };
}

impl<W: WorldBrand> RelayerLog<W> {
    /// The log of a relayer that has asked nothing yet.
    pub fn new(alloc: Global) -> RelayerLog<W>
        ensures { result ≡ [] }
    {
        RelayerLog {
            receipts: Vec::new(alloc),
        }
    }

    /// The receipts.
    pub fn receipts(&self) -> &[Receipt<W>]
        ensures told { result.now ≡ self.now }
        ensures answered { AreAnsweredReceipts self.now }
    {
        self.receipts.as_slice()
    }

    /// The receipts, taken out.
    pub fn into_receipts(self) -> Vec<Receipt<W>>
        ensures { result.items ≡ self }
    {
        self.receipts
    }

    /// Asks the event's chain for it, and keeps the receipt. Refused: `NoMemory`, also where that is the reply; the receipt isn't
    /// kept then.
    pub fn ask<R: Wait>(&mut self, rt: &R, chain: &Chain<W>, event: Event) -> Result<Reply, Refusal>
        requires { chain.now ≡ chain_of event }
        ensures asked { IfOk result (IsAskedAndKept self.old event self.new) }
        ensures left { OnErr result (self.new ≡ self.old) }
        ensures err { IsOkUnless result NoMemory }
    {
        let earlier = last_of(self.receipts.as_slice(), chain.number());
        let receipt = asked(rt, chain, earlier, event);
        keep(&mut self.receipts, receipt)
    }
}
