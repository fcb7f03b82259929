//! What a call on a shared ledger was answered.
ghost use Rattle.std.specs.Prelude.{◌≡◌, List};
ghost use Rattle.ibc_ledger.specs.LedgerModel.{LedgerModel};
ghost use Rattle.ibc_ledger_lock.specs.ReceiptsAndReadings.{AreInHistory, HasAnswered, ReceiptModel};

use crate::book::Bookmark;
use crate::world::WorldBrand;
use ibc_machine::Reply;
use std::marker::{Model, PhantomData};

/// The reply of a call on a chain of the world. Contracts see what was asked too, and the place of the call among all that were
/// made on the chain.
#[derive(Drop)]
pub struct Receipt<W: WorldBrand> {
    pub(crate) chain: u8,
    pub(crate) reply: Reply,
    pub(crate) mark: Bookmark,
    pub(crate) of: PhantomData<W>,
}

impl<W: WorldBrand> Model for Receipt<W> {
    ghost use Rattle.std.specs.Prelude.{◌≡◌};
    ghost use Rattle.ibc_ledger_lock.specs.ReceiptsAndReadings.{IsLastAnswered, ReceiptModel, told_of};

    ghost Value = { ReceiptModel };

    ghost view = { λ r. told_of r.chain r.reply r.mark.known.calls };

    ghost invariant = { λ r. (r.mark.book ≡ W.book r.chain) × IsLastAnswered r.reply r.mark.known.calls };
}

impl<W: WorldBrand> Receipt<W> {
    /// The number of the chain.
    pub fn chain(&self) -> u8
        ensures { result ≡ self.now.chain }
    {
        self.chain
    }

    /// The reply.
    pub fn reply(&self) -> &Reply
        ensures { result.now ≡ self.now.reply }
    {
        &self.reply
    }

    /// The reply, taken out.
    pub fn into_reply(self) -> Reply
        ensures { result ≡ self.reply }
    {
        self.reply
    }
}

/// What a ledger answered stands in its history, in the order of the calls.
pub fn lemma_are_in_history()
    ensures { (all : List ReceiptModel) (h : LedgerModel) → HasAnswered all h → AreInHistory all h }
{}
