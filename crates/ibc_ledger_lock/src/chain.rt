//! A ledger under a lock.

ghost use Rattle.std.specs.Prelude.{◌≡◌, ◌⊎◌, ◌↔◌, All, Err, IfErr, IfOk, IsNone, IsOkUnless, List, drop, length, map};
ghost use Rattle.std.specs.Fn.{FnOnceReturnsAt};
ghost use Rattle.std.specs.Sync.Mutex.{mutex_guard_value};
ghost use Rattle.ibc_ids.specs.declared.refusal.Refusal.TheVariants.{NoConsensus, NoMemory};
ghost use Rattle.ibc_machine.specs.declared.event.Event.TheVariants as event_of;
ghost use Rattle.ibc_ledger.specs.declared.entry.StampedEntry.{StampedEntry as KeptEntry};
ghost use Rattle.ibc_ledger.specs.LedgerModel.{abstract_entry};
ghost use Rattle.ibc_ledger.specs.SentPackets.{ack_on, packet_on};
ghost use Rattle.ibc_ledger.specs.LedgerReads.{value_on, provable_on, IsProofOn};
ghost use Rattle.ibc_ledger_lock.specs.ReceiptsAndReadings.{HasAnswered, IsBehind, IsEarlierOnItsChain, IsLedgerOf, IsOfWorld, IsReceiptOf, view_shown};

use crate::board::Board;
use crate::book::UnusedBook;
use crate::gate::Gate;
use crate::locked_ledger::LockedLedger;
use crate::posted_view::PostedView;
use crate::reading::LedgerReading;
use crate::receipt::Receipt;
use crate::world::WorldBrand;
use ibc_ids::{Bytes, ChannelId, Key, PortId, Refusal};
use ibc_ledger::{Ledger, StampedEntry, View};
use ibc_machine::Reply;
use ibc_merkle::Proof;
use ibc_wire::{Message, Packet};
use std::alloc::Global;
use std::marker::Model;
use std::sync::{Arc, Mutex, MutexGuard, Wait};

/// A ledger of the world, which threads share. Contracts see the number of its chain.
#[derive(Drop)]
pub struct Chain<W: WorldBrand> {
    number: u8,
    desk: Mutex<LockedLedger<W>>,
    board: Arc<Board<W>, Global>,
    opening: PostedView<W>,
}

impl<W: WorldBrand> Model for Chain<W> {
    ghost use Rattle.std.specs.Prelude.{◌≡◌, ℕ};

    ghost Value = { ℕ };

    ghost view = { λ c. c.number };

    ghost invariant = { λ c. c.opening.ledger.chain ≡ c.number };
}

impl<W: WorldBrand> Chain<W> {
    /// The chain of a ledger of the world, with an unused book that is the world's for its number. It posts its views on the
    /// board; that of the ledger as it stands is posted now, unless a growth is refused for it there, and the chain has it in
    /// any case. `NoMemory` where another growth is refused: the ledger comes back then.
    pub fn new<R: Wait>(
        rt: &R,
        ledger: Ledger,
        opened: UnusedBook,
        board: Arc<Board<W>, Global>,
    ) -> Result<Chain<W>, (Refusal, Ledger)>
        requires world { IsOfWorld W.table W.genesis ledger }
        requires book { opened ≡ W.book ledger.ledger.chain }
        ensures ok { IfOk result (λ chain. chain ≡ ledger.ledger.chain) }
        ensures err { IfErr result (λ back. (back.0 ≡ NoMemory) × (back.1 ≡ ledger)) }
    {
        let number = ledger.chain();
        let desk = LockedLedger::new(ledger, opened);
        if let Some(posted) = desk.look() {
            board.post(rt, posted);
        }
        match desk.look() {
            Some(opening) => Ok(Chain {
                number,
                desk: Mutex::new(desk),
                board,
                opening,
            }),
            None => Err((Refusal::NoMemory, desk.into_ledger())),
        }
    }

    /// The number of the chain.
    pub fn number(&self) -> u8
        ensures { result ≡ self.now }
    {
        self.number
    }

    // The lock on the ledger, which is the chain's. Under the lock is no other ledger; where there was one, this would wait for
    // ever.
    fn lock<R: Wait>(&self, rt: &R) -> MutexGuard<'_, LockedLedger<W>>
        ensures { (mutex_guard_value result).held.ledger.chain ≡ self.now }
    {
        for _ in rt.forever() {
            let desk = self.desk.lock(rt);
            if desk.chain() == self.number {
                return desk;
            }
        }
        unreachable!()
    }

    /// Applies a message to the ledger, as its `apply` does. The receipt is of this call, whatever the reply is.
    pub fn submit<R: Wait>(&self, rt: &R, message: Message) -> Receipt<W>
        ensures { IsReceiptOf (event_of.Message self.now message) result }
    {
        self.lock(rt).submit(message)
    }

    /// What `submit` does. The call stands behind that of an earlier receipt of the chain.
    pub fn submit_after<R: Wait>(
        &self,
        rt: &R,
        earlier: &Receipt<W>,
        message: Message,
    ) -> Receipt<W>
        ensures told { IsReceiptOf (event_of.Message self.now message) result }
        ensures behind { IsBehind result earlier.now }
    {
        let mut desk = self.lock(rt);
        desk.find(earlier);
        desk.submit(message)
    }

    /// Ends the ledger's working block, as its `end_block` does. The receipt is of this call, whatever the reply is. The view
    /// after an accepted block is posted on the board, unless memory runs out for it; the lock is held meanwhile, so that a
    /// chain's views stand there in the order of their heights.
    pub fn produce<R: Wait>(&self, rt: &R, next_time: u64) -> Receipt<W>
        ensures { IsReceiptOf (event_of.Block self.now next_time) result }
    {
        let mut desk = self.lock(rt);
        let receipt = self.end_block(rt, &mut *desk, next_time);
        drop(desk);
        receipt
    }

    /// What `produce` does. The call stands behind that of an earlier receipt of the chain.
    pub fn produce_after<R: Wait>(&self, rt: &R, earlier: &Receipt<W>, next_time: u64) -> Receipt<W>
        ensures told { IsReceiptOf (event_of.Block self.now next_time) result }
        ensures behind { IsBehind result earlier.now }
    {
        let mut desk = self.lock(rt);
        desk.find(earlier);
        let receipt = self.end_block(rt, &mut *desk, next_time);
        drop(desk);
        receipt
    }

    // Ends the working block of the chain's ledger, and posts the view after it.
    fn end_block<R: Wait>(&self, rt: &R, desk: &mut LockedLedger<W>, next_time: u64) -> Receipt<W>
        requires { desk.old.held.ledger.chain ≡ self.now }
        ensures told { IsReceiptOf (event_of.Block self.now next_time) result }
        ensures place { result.place ≡ length desk.old.calls }
    {
        let (receipt, posted) = desk.produce_and_look(next_time);
        if let Some(posted) = posted {
            self.board.post_end(rt, &receipt, posted);
        }
        receipt
    }

    /// The newest view of the chain that the board shows, or else that of the ledger as the chain was made, and the reading of
    /// the ledger that it shows. It may be older than the ledger. Takes no lock.
    pub fn view(&self) -> (&View, LedgerReading<W>)
        ensures is { IsLedgerOf W.table W.genesis result.1 }
        ensures shows { result.0.now ≡ view_shown result.1 }
        ensures chain { result.1.ledger.chain ≡ self.now }
    {
        let posted = match self.board.latest(self.number) {
            Some(posted) => posted,
            None => &self.opening,
        };
        (posted.view(), posted.reading())
    }

    /// The view of the ledger as it stands, as its `view` gives it, and the reading of that ledger. Unlike `view` it takes the
    /// lock. Refused: `NoMemory`.
    pub fn look<R: Wait>(&self, rt: &R) -> (Result<View, Refusal>, LedgerReading<W>)
        ensures is { IsLedgerOf W.table W.genesis result.1 }
        ensures chain { result.1.ledger.chain ≡ self.now }
        ensures ok { IfOk result.0 (λ view. view ≡ view_shown result.1) }
        ensures err { IsOkUnless result.0 NoMemory }
    {
        let desk = self.lock(rt);
        let reading = desk.read();
        (desk.ledger().view(), reading)
    }

    /// The value of a key in the ledger's working block, as its `query` gives it, and the reading of that ledger. Refused:
    /// `NoMemory`.
    pub fn query<R: Wait>(
        &self,
        rt: &R,
        key: &Key,
    ) -> (Result<Option<Bytes>, Refusal>, LedgerReading<W>)
        ensures is { IsLedgerOf W.table W.genesis result.1 }
        ensures chain { result.1.ledger.chain ≡ self.now }
        ensures ok { IfOk result.0 (λ value. value ≡ value_on result.1.ledger key.now) }
        ensures err { IsOkUnless result.0 NoMemory }
    {
        let desk = self.lock(rt);
        let reading = desk.read();
        (desk.ledger().query(key), reading)
    }

    /// The proof of what a committed height has at a key, as the ledger's `query_proof` gives it, and the reading of that
    /// ledger. Refused: `NoConsensus`, `NoMemory`.
    pub fn query_proof<R: Wait>(
        &self,
        rt: &R,
        height: u64,
        key: &Key,
    ) -> (Result<Proof, Refusal>, LedgerReading<W>)
        ensures is { IsLedgerOf W.table W.genesis result.1 }
        ensures chain { result.1.ledger.chain ≡ self.now }
        ensures ok { IfOk result.0 (λ proof. IsProofOn result.1.ledger height key.now proof) }
        ensures unknown { (result.0 ≡ Err NoConsensus) ↔ IsNone (provable_on result.1.ledger height) }
        ensures err { IfErr result.0 (λ refusal. (refusal ≡ NoConsensus) ⊎ (refusal ≡ NoMemory)) }
    {
        let desk = self.lock(rt);
        let reading = desk.read();
        (desk.ledger().query_proof(height, key), reading)
    }

    /// The packet that was sent from an end of a channel under a sequence, as the ledger's `packet` gives it, and the reading
    /// of that ledger. Refused: `NoMemory`.
    pub fn packet<R: Wait>(
        &self,
        rt: &R,
        port: &PortId,
        channel: &ChannelId,
        sequence: u64,
    ) -> (Result<Option<Packet>, Refusal>, LedgerReading<W>)
        ensures is { IsLedgerOf W.table W.genesis result.1 }
        ensures chain { result.1.ledger.chain ≡ self.now }
        ensures ok { IfOk result.0 (λ p. p ≡ packet_on result.1.ledger port.now channel.now sequence) }
        ensures err { IsOkUnless result.0 NoMemory }
    {
        let desk = self.lock(rt);
        let reading = desk.read();
        (desk.ledger().packet(port, channel, sequence), reading)
    }

    /// The acknowledgement that was written at an end of a channel for a sequence, as the ledger's `ack` gives it, and the
    /// reading of that ledger. Refused: `NoMemory`.
    pub fn ack<R: Wait>(
        &self,
        rt: &R,
        port: &PortId,
        channel: &ChannelId,
        sequence: u64,
    ) -> (Result<Option<Bytes>, Refusal>, LedgerReading<W>)
        ensures is { IsLedgerOf W.table W.genesis result.1 }
        ensures chain { result.1.ledger.chain ≡ self.now }
        ensures ok { IfOk result.0 (λ ack. ack ≡ ack_on result.1.ledger port.now channel.now sequence) }
        ensures err { IsOkUnless result.0 NoMemory }
    {
        let desk = self.lock(rt);
        let reading = desk.read();
        (desk.ledger().ack(port, channel, sequence), reading)
    }

    /// Lends the entries of the ledger's history from a place on to `read`, none where the history ends before it, and gives
    /// what it gives, and the reading of that ledger. The lock is held meanwhile.
    pub fn events_from<R: Wait, T, F: FnOnce(&[StampedEntry]) -> T>(
        &self,
        rt: &R,
        place: usize,
        read: F,
    ) -> (T, LedgerReading<W>)
        requires { F.IsAlwaysCallable read }
        ensures is { IsLedgerOf W.table W.genesis result.1 }
        ensures chain { result.1.ledger.chain ≡ self.now }
        ensures given { (entries : List KeptEntry) × (map abstract_entry entries ≡ drop place result.1.ledger.history) × FnOnceReturnsAt F.FnOnce read entries result.0 }
    {
        let desk = self.lock(rt);
        let reading = desk.read();
        desk.ledger();
        (read(desk.entries_from(place)), reading)
    }

    /// The ledger, which is of the world's table and genesis. There are calls that are all that it was asked, so that its history
    /// is what they left. Among them, at its place, stands the call of each receipt of the ledger's number. And the ledger was
    /// once as each reading of its number has it.
    pub fn into_ledger(self, receipts: &[Receipt<W>], readings: &[LedgerReading<W>]) -> Ledger
        ensures world { IsOfWorld W.table W.genesis result }
        ensures answered { HasAnswered receipts.now result }
        ensures once { All (IsEarlierOnItsChain result) readings.now }
    {
        let mut desk = self.desk.into_inner();
        desk.find_all(receipts);
        desk.recall_all(readings);
        desk.into_ledger()
    }
}

impl<W: WorldBrand + Send + Sync> Gate for Chain<W> {
    fn submit<R: Wait>(&self, rt: &R, message: Message) -> Reply {
        Chain::submit(self, rt, message).into_reply()
    }

    fn produce<R: Wait>(&self, rt: &R, next_time: u64) -> Reply {
        Chain::produce(self, rt, next_time).into_reply()
    }

    fn view(&self) -> &View {
        Chain::view(self).0
    }

    fn query<R: Wait>(&self, rt: &R, key: &Key) -> Result<Option<Bytes>, Refusal> {
        Chain::query(self, rt, key).0
    }

    fn query_proof<R: Wait>(&self, rt: &R, height: u64, key: &Key) -> Result<Proof, Refusal> {
        Chain::query_proof(self, rt, height, key).0
    }

    fn packet<R: Wait>(
        &self,
        rt: &R,
        port: &PortId,
        channel: &ChannelId,
        sequence: u64,
    ) -> Result<Option<Packet>, Refusal> {
        Chain::packet(self, rt, port, channel, sequence).0
    }

    fn ack<R: Wait>(
        &self,
        rt: &R,
        port: &PortId,
        channel: &ChannelId,
        sequence: u64,
    ) -> Result<Option<Bytes>, Refusal> {
        Chain::ack(self, rt, port, channel, sequence).0
    }

    fn events_from<R: Wait, T, F: FnOnce(&[StampedEntry]) -> T>(
        &self,
        rt: &R,
        place: usize,
        read: F,
    ) -> T {
        Chain::events_from(self, rt, place, read).0
    }
}
