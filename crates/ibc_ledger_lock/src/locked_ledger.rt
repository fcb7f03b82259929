//! What lies under a lock: a ledger, and the keeper of its book, who knows it as it is and all that it was asked.

ghost use Rattle.std.specs.Prelude.{◌≡◌, All, IfSome, drop, length, map};
ghost use Rattle.ibc_machine.specs.declared.event.Event.TheVariants as event_of;
ghost use Rattle.ibc_machine.specs.ledger.Ledgers.{IsLedger, is_block_reply};
ghost use Rattle.ibc_ledger.specs.LedgerModel.{abstract_entry};
ghost use Rattle.ibc_ledger.specs.HistoryGrowth.{AddsMessage, AddsBlockEnd};
ghost use Rattle.ibc_ledger_lock.specs.Calls.{AreCallsOf};
ghost use Rattle.ibc_ledger_lock.specs.ReceiptsAndReadings.{IsEarlierOnItsChain, IsOfWorld, IsReceiptOf, ShowsEnd, StandsOnItsChain, view_shown, AddsMessageCall, AddsBlockCall};

use crate::book::{Keeper, UnusedBook};
use crate::posted_view::PostedView;
use crate::reading::LedgerReading;
use crate::receipt::Receipt;
use crate::world::WorldBrand;
use ibc_ledger::{Ledger, StampedEntry};
use ibc_machine::{Effect, Reply};
use ibc_wire::Message;
use std::marker::{Brand, Model, PhantomData};
use std::snapshot::Snapshot;

/// A ledger of the world, with the keeper of its chain's book. Contracts see the ledger, and all that it was asked.
#[derive(Drop)]
pub struct LockedLedger<W: WorldBrand> {
    ledger: Ledger,
    keeper: Keeper,
    of: PhantomData<W>,
}

impl<W: WorldBrand> Model for LockedLedger<W> {
    ghost use Rattle.std.specs.Prelude.{◌≡◌};
    ghost use Rattle.ibc_ledger_lock.specs.Calls.{AreCallsOf};
    ghost use Rattle.ibc_ledger_lock.specs.ReceiptsAndReadings.{SharedLedger, known_with};

    ghost Value = { SharedLedger };

    ghost view = { λ d. record { held = d.ledger; calls = d.keeper.known.calls } };

    ghost invariant = { λ d. (d.ledger.table ≡ W.table) × (d.ledger.ledger.genesis ≡ W.genesis)
        × (d.keeper.book ≡ W.book d.ledger.ledger.chain) × (d.keeper.known ≡ known_with d.ledger.ledger d.keeper.known.calls)
        × AreCallsOf d.ledger.ledger d.keeper.known.calls };
}

impl<W: WorldBrand> LockedLedger<W> {
    /// A ledger of the world, with the unused book that is the world's for its chain.
    pub fn new(ledger: Ledger, opened: UnusedBook) -> LockedLedger<W>
        requires world { IsOfWorld W.table W.genesis ledger }
        requires book { opened ≡ W.book ledger.ledger.chain }
        ensures { result.held ≡ ledger }
    {
        let UnusedBook { keeper } = opened;
        let mut keeper = keeper;
        keeper.note::<Brand>(&ledger);
        LockedLedger {
            ledger,
            keeper,
            of: PhantomData,
        }
    }

    /// Applies a message to the ledger. The receipt is of the call that the ledger was asked last.
    pub fn submit(&mut self, message: Message) -> Receipt<W>
        ensures table { self.new.held.table ≡ self.old.held.table }
        ensures adds { AddsMessage self.old.held.ledger message result.reply self.new.held.ledger }
        ensures asked { AddsMessageCall self.old message result.reply self.new }
        ensures told { IsReceiptOf (event_of.Message self.old.held.ledger.chain message) result }
        ensures place { result.place ≡ length self.old.calls }
    {
        let chain = self.ledger.chain();
        let asked = Snapshot::of(&message);
        let reply = self.ledger.apply(message);
        let mark = self
            .keeper
            .note_call::<Brand, Snapshot<Message>>(&self.ledger, &asked, &reply);
        Receipt {
            chain,
            mark,
            reply,
            of: PhantomData,
        }
    }

    /// Ends the ledger's working block. The receipt is of the call that the ledger was asked last.
    pub fn produce(&mut self, next_time: u64) -> Receipt<W>
        ensures table { self.new.held.table ≡ self.old.held.table }
        ensures adds { AddsBlockEnd self.old.held.ledger next_time result.reply self.new.held.ledger }
        ensures asked { AddsBlockCall self.old next_time result.reply self.new }
        ensures told { IsReceiptOf (event_of.Block self.old.held.ledger.chain next_time) result }
        ensures place { result.place ≡ length self.old.calls }
    {
        let chain = self.ledger.chain();
        let reply = ended(&mut self.ledger, next_time);
        let mark = self
            .keeper
            .note_call::<Brand, u64>(&self.ledger, &next_time, &reply);
        Receipt {
            chain,
            mark,
            reply,
            of: PhantomData,
        }
    }

    /// The number of the ledger's chain.
    pub fn chain(&self) -> u8
        ensures { result ≡ self.now.held.ledger.chain }
    {
        self.ledger.chain()
    }

    /// What may be claimed later of the ledger as it is now.
    pub fn read(&self) -> LedgerReading<W>
        ensures { result ≡ self.now.held }
    {
        LedgerReading {
            chain: self.ledger.chain(),
            mark: self.keeper.mark(),
            of: PhantomData,
        }
    }

    /// The ledger, which is one, of the world's table and genesis.
    pub fn ledger(&self) -> &Ledger
        ensures same { result.now ≡ self.now.held }
        ensures world { IsOfWorld W.table W.genesis result.now }
        ensures is { IsLedger result.now.ledger }
    {
        self.ledger.lemma_is_its_history();
        &self.ledger
    }

    /// The entries of the history from a place on, none where the history ends before it.
    pub fn entries_from(&self, place: usize) -> &[StampedEntry]
        ensures { map abstract_entry result.now ≡ drop place self.now.held.ledger.history }
    {
        let history = self.ledger.history();
        if place < history.len() {
            &history[place..]
        } else {
            &[]
        }
    }

    /// Ends the ledger's working block, and gives the view after it; none where the block's end was refused, and where a
    /// growth is refused for the view.
    pub fn produce_and_look(&mut self, next_time: u64) -> (Receipt<W>, Option<PostedView<W>>)
        ensures adds { AddsBlockEnd self.old.held.ledger next_time result.0.reply self.new.held.ledger }
        ensures told { IsReceiptOf (event_of.Block self.old.held.ledger.chain next_time) result.0 }
        ensures place { result.0.place ≡ length self.old.calls }
        ensures view { IfSome result.1 (λ p. (p ≡ self.new.held) × ShowsEnd result.0 (view_shown p)) }
    {
        let receipt = self.produce(next_time);
        let posted = if is_end(receipt.reply()) {
            self.look()
        } else {
            None
        };
        (receipt, posted)
    }

    /// The view of the ledger as it stands, none where a growth is refused.
    pub fn look(&self) -> Option<PostedView<W>>
        ensures { IfSome result (λ posted. (posted ≡ self.now.held) × IsLedger posted.ledger) }
    {
        match self.ledger().view() {
            Ok(view) => Some(PostedView {
                view,
                reading: self.read(),
            }),
            Err(_) => None,
        }
    }

    /// The call of a receipt of this chain stands at its place.
    pub fn find(&mut self, receipt: &Receipt<W>)
        ensures same { self.new ≡ self.old }
        ensures stands { StandsOnItsChain self.old.held.ledger.chain self.old.calls receipt.now }
    {
        if receipt.chain != self.ledger.chain() {
            return;
        }
        self.keeper.check(&receipt.mark);
    }

    /// The calls of the receipts of this chain stand at their places.
    pub fn find_all(&mut self, receipts: &[Receipt<W>])
        ensures same { self.new ≡ self.old }
        ensures stand { All (StandsOnItsChain self.old.held.ledger.chain self.old.calls) receipts.now }
    {
        for k in 0..receipts.len() {
            self.find(&receipts[k]);
        }
    }

    /// The ledger was once as it was read, if that was read of its chain.
    pub fn recall(&mut self, reading: &LedgerReading<W>)
        ensures same { self.new ≡ self.old }
        ensures once { IsEarlierOnItsChain self.old.held reading.now }
    {
        if reading.chain != self.ledger.chain() {
            return;
        }
        self.keeper.check(&reading.mark);
    }

    /// The ledger was once as each reading of its chain has it.
    pub fn recall_all(&mut self, readings: &[LedgerReading<W>])
        ensures same { self.new ≡ self.old }
        ensures once { All (IsEarlierOnItsChain self.old.held) readings.now }
    {
        for k in 0..readings.len() {
            self.recall(&readings[k]);
        }
    }

    /// The ledger, taken out.
    pub fn into_ledger(self) -> Ledger
        ensures same { result ≡ self.held }
        ensures world { IsOfWorld W.table W.genesis result }
        ensures asked { AreCallsOf result.ledger self.calls }
    {
        self.ledger
    }
}

// Ends the ledger's working block.
fn ended(ledger: &mut Ledger, next_time: u64) -> Reply
    ensures table { ledger.new.table ≡ ledger.old.table }
    ensures adds { AddsBlockEnd ledger.old.ledger next_time result ledger.new.ledger }
{
    ledger.end_block(next_time)
}

// Whether a block was ended.
fn is_end(reply: &Reply) -> bool
    ensures { result ≡ is_block_reply reply.now }
{
    matches!(reply, Reply::Ok(Effect::Block(_, _)))
}
