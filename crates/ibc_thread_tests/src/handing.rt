//! Chains that are made of ledgers, and the ledgers that come back.

ghost use denote.Param.Send.{IsSync};
ghost use Rattle.std.specs.Prelude.{◌≡◌, All};
ghost use Rattle.ibc_race.specs.SharedWorlds.{HasItsBook};

use crate::equal::are_equal;
use ibc_ids::Refusal;
use ibc_ledger::Ledger;
use ibc_ledger_lock::{Board, Chain, Receipt, UnusedBook, WorldBrand};
use ibc_race::begin;
use ibc_script::Fault;
use ibc_script_cli::{Race, RaceAudit, Races};
use ibc_wire::{CreateClient, Message};
use std::alloc::Global;
use std::cell::Cell;
use std::marker::Brand;
use std::sync::{Arc, Wait};

/// Has chains made of the ledgers of a script and the ledgers taken out again, and keeps whether these came back as they were. No
/// step is taken, and nothing is told of what the chains have.
#[derive(Drop)]
pub struct Returning<'r, R: Wait> {
    pub rt: &'r R,
    pub alloc: Global,
    pub is_done: &'r Cell<bool>,
}

impl<R: Wait> Races for Returning<'_, R> {
    ghost may_race = { λ _. IsSync R.row };

    fn race(&self, _relayers: u8, race: Race) -> Result<RaceAudit, Fault> {
        match try_returning(self, race) {
            Ok(are_same) => {
                self.is_done.set(are_same);
                Ok(RaceAudit {
                    balances: Vec::new(self.alloc),
                    notes: Vec::new(self.alloc),
                })
            }
            Err(refusal) => Err(Fault::of_refusal(refusal)),
        }
    }
}

// Whether the ledgers of a script's genesis come back as they were.
fn try_returning<R: Wait>(returning: &Returning<'_, R>, race: Race) -> Result<bool, Refusal> {
    match begin(returning.alloc, race.genesis()) {
        Ok(ledgers) => come_back::<R, Brand>(returning, ledgers, race),
        Err(refusal) => {
            drop(race);
            Err(refusal)
        }
    }
}

// Makes a chain of each ledger and takes the ledger out again; where no chain can be made, the ledger is handed back. Gives
// whether each ledger that came back has the number and the balances that it had. No step of the script is taken. Refused:
// `NoMemory`, but not for a growth that `Chain::new` asks for.
fn come_back<R: Wait, W: WorldBrand>(
    returning: &Returning<'_, R>,
    ledgers: Vec<(Ledger, UnusedBook)>,
    race: Race,
) -> Result<bool, Refusal>
    requires { All (HasItsBook W.table W.genesis W.book) ledgers.items }
{
    drop(race);
    let mut are_same = Ok(true);
    for (ledger, opened) in ledgers {
        let is_same = comes_back::<R, W>(returning.rt, returning.alloc, ledger, opened);
        are_same = are_both(are_same, is_same);
    }
    are_same
}

// Whether both are so, or the first refusal.
fn are_both(one: Result<bool, Refusal>, other: Result<bool, Refusal>) -> Result<bool, Refusal> {
    Ok(one? & other?)
}

// Whether a ledger comes back as it was.
fn comes_back<R: Wait, W: WorldBrand>(
    rt: &R,
    alloc: Global,
    ledger: Ledger,
    opened: UnusedBook,
) -> Result<bool, Refusal>
    requires { HasItsBook W.table W.genesis W.book (ledger, opened) }
{
    let ledger = with_a_client(ledger);
    let number = ledger.chain();
    let held = ledger.balances();
    match board_of::<W>(alloc) {
        Ok(board) => {
            let back = made_and_taken(rt, ledger, opened, board);
            let is_number = back.chain() == number;
            let again = back.balances();
            drop(back);
            Ok(are_equal(again, held)? && is_number)
        }
        Err(refusal) => {
            drop(ledger);
            drop(opened);
            drop(held);
            Err(refusal)
        }
    }
}

// The ledger once it has made a client and ended a block: a view of it asks for memory.
fn with_a_client(mut ledger: Ledger) -> Ledger
    ensures table { result.table ≡ ledger.table }
    ensures genesis { result.ledger.genesis ≡ ledger.ledger.genesis }
    ensures chain { result.ledger.chain ≡ ledger.ledger.chain }
{
    let chain = if ledger.chain() == 0 { 1 } else { 0 };
    drop(ledger.apply(Message::CreateClient(CreateClient { chain })));
    drop(ledger.end_block(200));
    ledger
}

// A board of its own.
fn board_of<W: WorldBrand>(alloc: Global) -> Result<Arc<Board<W>, Global>, Refusal> {
    Ok(Arc::new(alloc, Board::new(alloc)?)?)
}

// The ledger of the chain that was made of a ledger, or the ledger that was handed back.
fn made_and_taken<R: Wait, W: WorldBrand>(
    rt: &R,
    ledger: Ledger,
    opened: UnusedBook,
    board: Arc<Board<W>, Global>,
) -> Ledger
    requires { HasItsBook W.table W.genesis W.book (ledger, opened) }
{
    match Chain::new(rt, ledger, opened, board) {
        Ok(chain) => {
            let (_, reading) = chain.view();
            let receipts: [Receipt<W>; 0] = [];
            let readings = [reading];
            chain.into_ledger(&receipts, &readings)
        }
        Err((_, ledger)) => ledger,
    }
}
