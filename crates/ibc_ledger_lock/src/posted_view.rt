//! A view as a chain posts it.

ghost use Rattle.std.specs.Prelude.{◌≡◌};
ghost use Rattle.ibc_ledger_lock.specs.ReceiptsAndReadings.{IsLedgerOf, view_shown};

use crate::reading::LedgerReading;
use crate::world::WorldBrand;
use ibc_ledger::View;
use std::marker::Model;

/// The view of a ledger of the world as it stood, with the reading of that ledger. Contracts see the ledger that it shows.
#[derive(Drop)]
pub struct PostedView<W: WorldBrand> {
    pub(crate) view: View,
    pub(crate) reading: LedgerReading<W>,
}

impl<W: WorldBrand> Model for PostedView<W> {
    ghost use Rattle.std.specs.Prelude.{◌≡◌};
    ghost use Rattle.ibc_ledger.specs.LedgerModel.{LedgerModel};
    ghost use Rattle.ibc_ledger_lock.specs.ReceiptsAndReadings.{IsLedgerOf, view_shown};

    ghost Value = { LedgerModel };

    ghost view = { λ posted. posted.reading };

    ghost invariant = { λ posted. IsLedgerOf W.table W.genesis posted.reading × (posted.view ≡ view_shown posted.reading) };
}

impl<W: WorldBrand> PostedView<W> {
    /// The number of the chain.
    pub fn chain(&self) -> u8
        ensures { result ≡ self.now.ledger.chain }
    {
        self.reading.chain()
    }

    /// The view.
    pub fn view(&self) -> &View
        ensures shows { result.now ≡ view_shown self.now }
        ensures is { IsLedgerOf W.table W.genesis self.now }
    {
        &self.view
    }

    /// The reading of the ledger that the view shows.
    pub fn reading(&self) -> LedgerReading<W>
        ensures { result ≡ self.now }
    {
        self.reading.again()
    }
}
