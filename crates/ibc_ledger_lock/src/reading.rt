//! What was read of a shared ledger.

ghost use Rattle.std.specs.Prelude.{◌≡◌};
ghost use Rattle.ibc_machine.specs.ledger.Ledgers.{Ledger, IsLedger};
ghost use Rattle.ibc_ledger.specs.LedgerReads.{view_on};
ghost use Rattle.ibc_ledger_lock.specs.ReceiptsAndReadings.{HasShown, IsEarlier, HadItsState};

use crate::book::Bookmark;
use crate::world::WorldBrand;
use std::marker::{Model, PhantomData};

/// That a chain of the world was read, which may be compared with its ledger later. Contracts see the ledger as it was read.
#[derive(Drop)]
pub struct LedgerReading<W: WorldBrand> {
    pub(crate) chain: u8,
    pub(crate) mark: Bookmark,
    pub(crate) of: PhantomData<W>,
}

impl<W: WorldBrand> Model for LedgerReading<W> {
    ghost use Rattle.std.specs.Prelude.{◌≡◌};
    ghost use Rattle.ibc_ledger.specs.LedgerModel.{LedgerModel};
    ghost use Rattle.ibc_ledger_lock.specs.ReceiptsAndReadings.{ledger_as};

    ghost Value = { LedgerModel };

    ghost view = { λ r. ledger_as W.table W.genesis r.chain r.mark.known };

    ghost invariant = { λ r. r.mark.book ≡ W.book r.chain };
}

impl<W: WorldBrand> LedgerReading<W> {
    /// The number of the chain that was read.
    pub fn chain(&self) -> u8
        ensures { result ≡ self.now.ledger.chain }
    {
        self.chain
    }

    /// A copy.
    pub fn again(&self) -> LedgerReading<W>
        ensures { result ≡ self.now }
    {
        LedgerReading {
            chain: self.chain,
            mark: self.mark.again(),
            of: PhantomData,
        }
    }
}

/// What a ledger had once is what the first entries of its history leave, as many as it had then.
pub fn lemma_had_then()
    ensures { (old new : Ledger) → IsLedger old → IsEarlier old new → HadItsState old new }
{}

/// What a ledger showed once, it showed after one of its blocks, or in the beginning.
pub fn lemma_has_shown()
    ensures { (old new : Ledger) → IsLedger old → IsEarlier old new → HasShown new (view_on old) }
{}
