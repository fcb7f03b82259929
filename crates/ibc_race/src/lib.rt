//! The ledgers of one world as chains that threads share, and what they come to once no thread holds them any more.
#![tactic(auto)]

ghost use Rattle.std.specs.Prelude.{◌≡◌, ◌⊎◌, ◌↔◌, All, Err, IfErr, IfOk, IsOkUnless, false, map};
ghost use Rattle.ibc_ids.specs.declared.refusal.Refusal.TheVariants.{BadMessage, NoMemory};
ghost use Rattle.ibc_machine.specs.chain.Genesis.{genesis_state, is_allowed};
ghost use Rattle.ibc_ledger_lock.specs.ReceiptsAndReadings.{HasAnswered, IsEarlierOnItsChain, IsOfWorld};
ghost use Rattle.ibc_race.specs.SharedWorlds.{AreBroken, AreGathered, HasItsBook, IsAuditOf, numbers_of};
ghost use Rattle.ibc_race.specs.BookedLedgers.{AreNewWithBooks, HaveTheirBooks};

use ibc_ids::Refusal;
use ibc_ledger::Ledger;
use ibc_ledger_lock::{Board, Chain, LedgerReading, Receipt, UnusedBook, WorldBrand};
use ibc_machine::Genesis;
use ibc_world_core::{Audit, World as OneWorld, lawful_audit};
use std::alloc::Global;
use std::sync::{Arc, Wait};

/// The ledgers of a genesis in the beginning, by the numbers of their chains, each with an unused book. They are of one world.
/// Refused: `BadMessage` exactly where no world begins so; `NoMemory`.
pub fn begin(alloc: Global, genesis: &Genesis) -> Result<Vec<(Ledger, UnusedBook)>, Refusal>
    ensures new { IfOk result (λ ledgers. AreNewWithBooks (genesis_state genesis.now) ledgers.items) }
    ensures books { IfOk result (λ ledgers. HaveTheirBooks (genesis_state genesis.now) ledgers.items) }
    ensures bad { (result ≡ Err BadMessage) ↔ (is_allowed (genesis_state genesis.now) ≡ false) }
    ensures err { IfErr result (λ refusal. (refusal ≡ BadMessage) ⊎ (refusal ≡ NoMemory)) }
{
    let world = OneWorld::new(alloc, genesis)?;
    with_books(alloc, world.into_ledgers())
}

// The ledgers, each with an unused book.
fn with_books(alloc: Global, ledgers: Vec<Ledger>) -> Result<Vec<(Ledger, UnusedBook)>, Refusal>
    ensures ok { IfOk result (λ booked. map (λ p. p.0) booked.items ≡ ledgers.items) }
    ensures err { IsOkUnless result NoMemory }
{
    let mut booked = Vec::with_capacity(alloc, ledgers.len())?;
    for ledger in ledgers {
        booked.push(with_book(ledger)?)?;
    }
    Ok(booked)
}

// A ledger with an unused book. That there is none, which a new book never is, is told as want of memory.
fn with_book(ledger: Ledger) -> Result<(Ledger, UnusedBook), Refusal>
    ensures ok { IfOk result (λ booked. booked.0 ≡ ledger) }
    ensures err { IsOkUnless result NoMemory }
{
    match UnusedBook::new() {
        Some(opened) => Ok((ledger, opened)),
        None => {
            drop(ledger);
            Err(Refusal::NoMemory)
        }
    }
}

/// The chains of ledgers of the world, each with an unused book that is the world's for its number; all post their views on one
/// board. `NoMemory` where a growth is refused: the ledgers are let go then.
pub fn share<R: Wait, W: WorldBrand>(
    rt: &R,
    alloc: Global,
    ledgers: Vec<(Ledger, UnusedBook)>,
) -> Result<Vec<Chain<W>>, Refusal>
    requires { All (HasItsBook W.table W.genesis W.book) ledgers.items }
    ensures chains { IfOk result (λ chains. chains.items ≡ map (λ p. p.0.ledger.chain) ledgers.items) }
    ensures err { IsOkUnless result NoMemory }
{
    let board = Arc::new(alloc, Board::new(alloc)?)?;
    let mut chains = Vec::with_capacity(alloc, ledgers.len())?;
    for (ledger, opened) in ledgers {
        chains.push(shared(rt, ledger, opened, &board)?)?;
    }
    Ok(chains)
}

// The chain of a ledger, which posts on the board.
fn shared<R: Wait, W: WorldBrand>(
    rt: &R,
    ledger: Ledger,
    opened: UnusedBook,
    board: &Arc<Board<W>, Global>,
) -> Result<Chain<W>, Refusal>
    requires { HasItsBook W.table W.genesis W.book (ledger, opened) }
    ensures ok { IfOk result (λ chain. chain ≡ ledger.ledger.chain) }
    ensures err { IsOkUnless result NoMemory }
{
    match Arc::try_clone(board) {
        Ok(board) => Chain::new(rt, ledger, opened, board).map_err(refusal_of),
        Err(error) => {
            drop(ledger);
            Err(Refusal::from(error))
        }
    }
}

// Why a chain wasn't made. Its ledger is let go.
fn refusal_of(back: (Refusal, Ledger)) -> Refusal
    ensures { result ≡ back.0 }
{
    back.0
}

/// What the chains of a world hold, once the threads that drove them are done, in any order. To be answered is to know that
/// there are ledgers of the world, of these chains, which together did one run of the machine, of which the laws hold (where no
/// two different texts that were hashed share a digest), and that these hold what is told. Of each there are calls that are all
/// that it was asked. Among them, at its place, stands the call of each receipt of the ledger's number. And each was once as each
/// reading of its number has it. Refused: `BadMessage` only where there are no chains, or one of the genesis is missing among them
/// or stands there twice; `NoMemory`.
pub fn audit_chains<W: WorldBrand>(
    alloc: Global,
    chains: Vec<Chain<W>>,
    receipts: &[Receipt<W>],
    readings: &[LedgerReading<W>],
) -> Result<Audit, Refusal>
    ensures audited { IfOk result (IsAuditOf W.table W.genesis chains.items receipts.now readings.now) }
    ensures bad { result ≡ Err BadMessage → AreBroken W.genesis chains.items }
    ensures err { IfErr result (λ refusal. (refusal ≡ BadMessage) ⊎ (refusal ≡ NoMemory)) }
{
    lawful_audit(alloc, ledgers_of(alloc, chains, receipts, readings)?)
}

// The ledgers of chains, taken out.
fn ledgers_of<W: WorldBrand>(
    alloc: Global,
    chains: Vec<Chain<W>>,
    receipts: &[Receipt<W>],
    readings: &[LedgerReading<W>],
) -> Result<Vec<Ledger>, Refusal>
    ensures numbers { IfOk result (λ ledgers. numbers_of ledgers.items ≡ chains.items) }
    ensures gathered { IfOk result (λ ledgers. AreGathered W.table W.genesis receipts.now readings.now ledgers.items) }
    ensures err { IsOkUnless result NoMemory }
{
    let mut ledgers = Vec::with_capacity(alloc, chains.len())?;
    for chain in chains {
        ledgers.push(ledger_of(chain, receipts, readings)?)?;
    }
    Ok(ledgers)
}

// The ledger of a chain, taken out. That it is of another chain, which it never is, is told as want of memory.
fn ledger_of<W: WorldBrand>(
    chain: Chain<W>,
    receipts: &[Receipt<W>],
    readings: &[LedgerReading<W>],
) -> Result<Ledger, Refusal>
    ensures number { IfOk result (λ held. held.ledger.chain ≡ chain) }
    ensures world { IfOk result (IsOfWorld W.table W.genesis) }
    ensures answered { IfOk result (HasAnswered receipts.now) }
    ensures once { IfOk result (λ held. All (IsEarlierOnItsChain held) readings.now) }
    ensures err { IsOkUnless result NoMemory }
{
    let number = chain.number();
    let ledger = chain.into_ledger(receipts, readings);
    if ledger.chain() == number {
        Ok(ledger)
    } else {
        drop(ledger);
        Err(Refusal::NoMemory)
    }
}
