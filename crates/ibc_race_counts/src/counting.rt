//! What receipts come to.

ghost use Rattle.std.specs.Prelude.{◌≡◌, All, IfOk, IsTrue, count_by, true};
ghost use Rattle.std.specs.List.{AllZip};
ghost use Rattle.ibc_race_counts.specs.CountedReceipts.{AreCountsOf, IsCountedOn, IsThere, is_accepted, is_refused, refused_counts, refused_with};

use crate::RelayerLog;
use ibc_ledger_lock::{Chain, Receipt, WorldBrand};
use ibc_machine::Reply;
use ibc_script_races::chain_at;
use std::alloc::{AllocError, Global};

/// Refusals have numbers below this one.
pub const REFUSAL_NUMBERS: u8 = 32;

/// How many events were asked for, how many of them were accepted, and for the number of each refusal how many were refused so.
#[derive(Debug, Drop)]
pub struct ReceiptCounts {
    pub asked: u64,
    pub accepted: u64,
    pub refused: Vec<u64>,
}

/// What receipts come to.
pub fn counts_of<W: WorldBrand>(
    alloc: Global,
    receipts: &[Receipt<W>],
) -> Result<ReceiptCounts, AllocError>
    ensures { IfOk result (AreCountsOf receipts.now) }
{
    let refused = refused_counts(alloc, receipts)?;
    Ok(ReceiptCounts {
        asked: receipts.len() as u64,
        accepted: accepted_count(receipts),
        refused,
    })
}

/// What the receipts of each log come to.
pub fn counts_of_each<W: WorldBrand>(
    alloc: Global,
    chains: &[Chain<W>],
    logs: &[RelayerLog<W>],
) -> Result<Vec<ReceiptCounts>, AllocError>
    ensures { IfOk result (λ counts. AllZip (IsCountedOn chains.now) logs.now counts.items) }
{
    let mut list = Vec::with_capacity(alloc, logs.len())?;
    for log in logs {
        list.push(counts_in(alloc, chains, log)?)?;
    }
    Ok(list)
}

// What the receipts of a log come to. That one is of a chain that isn't there, which it never is, is told as want of memory.
fn counts_in<W: WorldBrand>(
    alloc: Global,
    chains: &[Chain<W>],
    log: &RelayerLog<W>,
) -> Result<ReceiptCounts, AllocError>
    ensures { IfOk result (IsCountedOn chains.now log.now) }
{
    let receipts = log.receipts();
    if !are_there(chains, receipts) {
        return Err(AllocError);
    }
    let counts = counts_of(alloc, receipts)?;
    Ok(counts)
}

// Whether the chain of each receipt stands at its number's place.
fn are_there<W: WorldBrand>(chains: &[Chain<W>], receipts: &[Receipt<W>]) -> bool
    ensures { IsTrue result → All (IsThere chains.now) receipts.now }
{
    for receipt in receipts {
        if !is_there(chains, receipt) {
            return false;
        }
    }
    true
}

// Whether the chain of a receipt stands at its number's place.
fn is_there<W: WorldBrand>(chains: &[Chain<W>], receipt: &Receipt<W>) -> bool
    ensures { result ≡ true → IsThere chains.now receipt.now }
{
    match chain_at(chains, receipt.chain()) {
        Some(_) => true,
        None => false,
    }
}

// How many of the events were accepted.
fn accepted_count<W: WorldBrand>(receipts: &[Receipt<W>]) -> u64
    ensures { result ≡ count_by (λ told. is_accepted told.reply) receipts.now }
{
    receipts
        .iter()
        .filter(|receipt| tells_acceptance(*receipt))
        .count() as u64
}

// How many of the events were refused, by the numbers of the refusals.
fn refused_counts<W: WorldBrand>(
    alloc: Global,
    receipts: &[Receipt<W>],
) -> Result<Vec<u64>, AllocError>
    ensures { IfOk result (λ counts. counts.items ≡ refused_counts receipts.now) }
{
    let mut list = Vec::new(alloc);
    for number in 0..REFUSAL_NUMBERS {
        list.push(refused_count(receipts, number))?;
    }
    Ok(list)
}

// How many of the events were refused with the refusal of a number.
fn refused_count<W: WorldBrand>(receipts: &[Receipt<W>], number: u8) -> u64
    ensures { result ≡ refused_with receipts.now number }
{
    receipts
        .iter()
        .filter(|receipt| tells_refusal(*receipt, number))
        .count() as u64
}

// Whether a receipt tells that its event was accepted.
fn tells_acceptance<W: WorldBrand>(receipt: &Receipt<W>) -> bool
    ensures { result ≡ is_accepted receipt.now.reply }
{
    match receipt.reply() {
        Reply::Ok(_) => true,
        Reply::No(_) => false,
    }
}

// Whether a receipt tells the refusal of a number.
fn tells_refusal<W: WorldBrand>(receipt: &Receipt<W>, number: u8) -> bool
    ensures { result ≡ is_refused number receipt.now.reply }
{
    match receipt.reply() {
        Reply::Ok(_) => false,
        Reply::No(refusal) => refusal.number() == number,
    }
}
