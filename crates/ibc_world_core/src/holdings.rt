//! What the ledgers of a world hold, by the numbers of their chains.

ghost use Rattle.std.specs.Prelude.{◌≤◌, ◌<◌, ◌+◌, length, IfOk, OnOk, IsOkUnless};
ghost use Rattle.ibc_ids.specs.declared.refusal.Refusal.TheVariants.{NoMemory};
ghost use Rattle.ibc_world_core.specs.WorldAudits.{TellsAll, AddsBalances, AddsNotes, AddsBalancesOfChain, AddsNotesOfChain, AddsBalancesFrom, AddsNotesFrom};

use ibc_ids::{Account, Bytes, ChannelId, Denom, Refusal};
use ibc_ledger::Ledger;
use std::alloc::Global;

/// What the ledgers of a world hold, by the numbers of their chains.
#[derive(Drop)]
pub struct Audit {
    /// Of each chain the amounts above 0, in the byte order of the accounts' texts and then of the denominations.
    pub balances: Vec<Vec<(Account, Denom, u128)>>,
    /// Of each chain the notes that came over each channel, the channels in the byte order of their names.
    pub notes: Vec<Vec<(ChannelId, Vec<Bytes>)>>,
}

// What the chains of the first ledger's genesis hold, by their numbers.
pub(crate) fn holdings_of(alloc: Global, ledgers: &[Ledger]) -> Result<Audit, Refusal>
    requires { 0 < length ledgers.now }
    ensures ok { IfOk result (TellsAll ledgers.now) }
    ensures err { IsOkUnless result NoMemory }
{
    let mut audit = Audit {
        balances: Vec::new(alloc),
        notes: Vec::new(alloc),
    };
    add_chains(ledgers, 0, ledgers[0].chains(), &mut audit)?;
    Ok(audit)
}

// Adds what so many chains from a number on hold.
fn add_chains(ledgers: &[Ledger], from: u8, chains: u8, audit: &mut Audit) -> Result<(), Refusal>
    requires { from + chains ≤ 255 }
    ensures balances { OnOk result (AddsBalancesFrom ledgers.now from chains audit.old audit.new) }
    ensures notes { OnOk result (AddsNotesFrom ledgers.now from chains audit.old audit.new) }
    ensures err { IsOkUnless result NoMemory }
{
    if chains == 0 {
        return Ok(());
    }
    add_chain(ledgers, from, audit)?;
    add_chains(ledgers, from + 1, chains - 1, audit)
}

// Adds what the ledgers of a chain hold.
fn add_chain(ledgers: &[Ledger], chain: u8, audit: &mut Audit) -> Result<(), Refusal>
    ensures balances { OnOk result (AddsBalancesOfChain ledgers.now chain audit.old audit.new) }
    ensures notes { OnOk result (AddsNotesOfChain ledgers.now chain audit.old audit.new) }
    ensures err { IsOkUnless result NoMemory }
{
    match ledgers {
        [] => Ok(()),
        [first, rest @ ..] => {
            if first.chain() == chain {
                add_one(first, audit)?;
            }
            add_chain(rest, chain, audit)
        }
    }
}

// Adds what a ledger holds.
fn add_one(ledger: &Ledger, audit: &mut Audit) -> Result<(), Refusal>
    ensures balances { OnOk result (AddsBalances ledger.now.ledger audit.old audit.new) }
    ensures notes { OnOk result (AddsNotes ledger.now.ledger audit.old audit.new) }
    ensures err { IsOkUnless result NoMemory }
{
    audit.balances.push(ledger.balances()?)?;
    audit.notes.push(ledger.all_notes()?)?;
    Ok(())
}
