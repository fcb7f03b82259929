//! The maps of a bank.

ghost use Rattle.std.specs.Prelude.{◌≡◌, OnOk, OnErr};
ghost use Rattle.ibc_machine.specs.ics20.Bank.{balance};
ghost use Rattle.ibc_bank.specs.BankModel.{IsBalanced, state_after_changes, no_amount, state_of, totals_after};
ghost use Rattle.ibc_bank.specs.Parties.{party_text};
ghost use Rattle.ibc_bank.specs.BookChanges.{FitsHolding, SetsHolding};

use crate::amounts::Amounts;
use crate::changes::Changes;
use crate::holder::{AccountKey, AccountRef};
use ibc_ids::{Denom, UserName};
use std::alloc::AllocError;

/// What a bank keeps.
#[derive(Drop, Debug)]
pub(crate) struct BankMaps {
    /// By account and denomination, what the account holds.
    pub(crate) held: Amounts<(AccountKey, Denom)>,
    /// By denomination, what is burnt in flight.
    pub(crate) burnt: Amounts<Denom>,
    /// By denomination, all that is held and what is burnt in flight, together.
    pub(crate) totals: Amounts<Denom>,
}

impl BankMaps {
    /// What an account holds of a denomination.
    pub(crate) fn held_by(&self, party: AccountRef<'_>, denom: &Denom) -> u128
        ensures { result ≡ balance self.now.held.pairs (party_text party.entry) denom.now }
    {
        let entries = self.held.entries();
        let place = entries.binary_search_by(|entry| {
            let (holder, held) = &entry.0;
            holder.compare(party).then(held.cmp(denom))
        });
        match place {
            Ok(index) => entries[index].1,
            Err(_) => 0,
        }
    }

    /// Sets what a user holds of a denomination. After a refusal the books are of no use.
    pub(crate) fn hold(
        &mut self,
        user: &UserName,
        denom: &Denom,
        amount: u128,
    ) -> Result<(), AllocError>
        requires balanced { IsBalanced no_amount (state_of self.old) self.old.totals.pairs }
        requires fits { FitsHolding user.now denom.now amount self.old }
        ensures ok { OnOk result (SetsHolding user.now denom.now amount self.old self.new) }
        ensures balanced { OnOk result (IsBalanced no_amount (state_of self.new) self.new.totals.pairs) }
    {
        let holder = (AccountRef::User(user).holder()?, denom.clone()?);
        let total = self.totals.get(denom) - self.held.get(&holder) + amount;
        self.held.set(holder, amount)?;
        self.totals.set(denom.clone()?, total)
    }

    /// Makes the changes, or none.
    pub(crate) fn commit(&mut self, changes: Changes) -> Result<(), AllocError>
        ensures ok { OnOk result (state_of self.new ≡ state_after_changes changes self.old) }
        ensures totals { OnOk result (self.new.totals.pairs ≡ totals_after changes self.old) }
        ensures err { OnErr result (state_of self.new ≡ state_of self.old) }
        ensures err_totals { OnErr result (self.new.totals.pairs ≡ self.old.totals.pairs) }
    {
        self.held.reserve(changes.held.len())?;
        self.burnt.reserve(changes.burnt.len())?;
        self.totals.reserve(changes.totals.len())?;
        self.held.write_all(changes.held)?;
        self.burnt.write_all(changes.burnt)?;
        self.totals.write_all(changes.totals)
    }
}
