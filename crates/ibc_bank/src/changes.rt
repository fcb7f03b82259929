//! What moves change, beside the bank.

ghost use Rattle.std.specs.Prelude.{◌≡◌, ◌++◌, ◌∷◌, [], OnOk, IfOk, IsOkUnless};
ghost use Rattle.ibc_bank.specs.Moves.{after_move, after_moves};
ghost use Rattle.ibc_bank.specs.BankModel.{AreBalanced, IsBalanced, no_amount, state_of, state_after_changes};
ghost use Rattle.ibc_ids.specs.declared.refusal.Refusal.TheVariants.{NoMemory};
ghost use Rattle.ibc_bank.specs.declared.moves.Move.TheVariants as moving;
ghost use Rattle.ibc_bank.specs.Outcomes.{IsPoorIfNone, FailsPoor, FailsAs, FailsIf};
ghost use Rattle.ibc_bank.specs.BookChanges.{AreChangesOf, MakesMove, refund_in, MakesRefund, MakesSettlement, carry_in, MakesCarrying, take_in, MakesTaking, MakesPutting, AreBalancedWith, balance_after, AddsHeld, AddsTotal};

use crate::books::BankMaps;
use crate::holder::{AccountKey, AccountRef};
use crate::moves::{Move, Source};
use crate::place::Place;
use ibc_ids::{ChannelId, Denom, Refusal, UserName};
use std::alloc::{AllocError, Global};

/// What moves change in a bank, in their order: the new amounts. The bank itself is as before.
#[derive(Drop, Debug)]
pub(crate) struct Changes {
    pub(crate) held: Vec<((AccountKey, Denom), u128)>,
    pub(crate) burnt: Vec<(Denom, u128)>,
    pub(crate) totals: Vec<(Denom, u128)>,
}

impl Changes {
    /// No changes.
    pub(crate) fn new(alloc: Global) -> Changes
        ensures held { result.held.items ≡ [] }
        ensures burnt { result.burnt.items ≡ [] }
        ensures totals { result.totals.items ≡ [] }
    {
        Changes {
            held: Vec::new(alloc),
            burnt: Vec::new(alloc),
            totals: Vec::new(alloc),
        }
    }

    /// What the moves change, one after another. Refused as the first that is refused; `NoMemory`.
    pub(crate) fn of_moves(
        alloc: Global,
        books: &BankMaps,
        moves: &[Move],
    ) -> Result<Changes, Refusal>
        requires { IsBalanced no_amount (state_of books.now) books.now.totals.pairs }
        ensures ok { IfOk result (λ changes. AreChangesOf moves.now books.now changes) }
        ensures balanced { IfOk result (λ changes. AreBalanced no_amount changes books.now) }
        ensures refused { FailsAs result (after_moves moves.now (state_of books.now)) }
    {
        let mut changes = Changes::new(alloc);
        for step in moves {
            changes.apply(books, step)?;
        }
        Ok(changes)
    }

    /// Makes a move. A refusal is that of the move, or `NoMemory`; the changes are of no use then.
    pub(crate) fn apply(&mut self, books: &BankMaps, step: &Move) -> Result<(), Refusal>
        requires { AreBalanced no_amount self.old books.now }
        ensures ok { OnOk result (MakesMove step.now self.old self.new books.now) }
        ensures balanced { OnOk result (AreBalanced no_amount self.new books.now) }
        ensures err { FailsAs result (after_move step.now (state_after_changes self.old books.now)) }
    {
        match step {
            Move::Escrow {
                user,
                channel,
                denom,
                amount,
            } => self.into_escrow(books, user, channel, denom, *amount),
            Move::Release {
                channel,
                user,
                denom,
                amount,
            } => self.out_of_escrow(books, channel, user, denom, *amount),
            Move::Burn {
                user,
                denom,
                amount,
            } => self.carry(books, Place::user(user), Place::Burnt, denom, *amount),
            Move::Mint {
                user,
                denom,
                amount,
            } => self.carry(books, Place::Outside, Place::user(user), denom, *amount),
            Move::Refund {
                user,
                source,
                denom,
                amount,
            } => self.refund(books, user, source, denom, *amount),
            Move::Settle { denom, amount } => self.settle(books, denom, *amount),
        }
    }

    // From a user to the escrow account of a channel.
    fn into_escrow(
        &mut self,
        books: &BankMaps,
        user: &UserName,
        channel: &ChannelId,
        denom: &Denom,
        amount: u128,
    ) -> Result<(), Refusal>
        requires { AreBalanced no_amount self.old books.now }
        ensures ok { OnOk result (MakesMove (moving.Escrow user.now channel.now denom.now amount) self.old self.new books.now) }
        ensures balanced { OnOk result (AreBalanced no_amount self.new books.now) }
        ensures err { FailsAs result (after_move (moving.Escrow user.now channel.now denom.now amount) (state_after_changes self.old books.now)) }
    {
        self.carry(
            books,
            Place::user(user),
            Place::escrow(channel),
            denom,
            amount,
        )
    }

    // From the escrow account of a channel to a user.
    fn out_of_escrow(
        &mut self,
        books: &BankMaps,
        channel: &ChannelId,
        user: &UserName,
        denom: &Denom,
        amount: u128,
    ) -> Result<(), Refusal>
        requires { AreBalanced no_amount self.old books.now }
        ensures ok { OnOk result (MakesMove (moving.Release channel.now user.now denom.now amount) self.old self.new books.now) }
        ensures balanced { OnOk result (AreBalanced no_amount self.new books.now) }
        ensures err { FailsAs result (after_move (moving.Release channel.now user.now denom.now amount) (state_after_changes self.old books.now)) }
    {
        self.carry(
            books,
            Place::escrow(channel),
            Place::user(user),
            denom,
            amount,
        )
    }

    // Back to a user.
    fn refund(
        &mut self,
        books: &BankMaps,
        user: &UserName,
        source: &Source,
        denom: &Denom,
        amount: u128,
    ) -> Result<(), Refusal>
        requires { AreBalanced no_amount self.old books.now }
        ensures ok { OnOk result (MakesRefund user.now source.now denom.now amount self.old self.new books.now) }
        ensures balanced { OnOk result (AreBalanced no_amount self.new books.now) }
        ensures err { FailsPoor result (refund_in user.now source.now denom.now amount self.old books.now) }
        ensures refused { IsPoorIfNone result (refund_in user.now source.now denom.now amount self.old books.now) }
    {
        match source {
            Source::Escrow(channel) => self.carry(
                books,
                Place::escrow(channel),
                Place::user(user),
                denom,
                amount,
            ),
            Source::Burnt => self.carry(books, Place::Burnt, Place::user(user), denom, amount),
        }
    }

    // What was burnt isn't refunded any more.
    fn settle(&mut self, books: &BankMaps, denom: &Denom, amount: u128) -> Result<(), Refusal>
        requires { AreBalanced no_amount self.old books.now }
        ensures ok { OnOk result (MakesSettlement denom.now amount self.old self.new books.now) }
        ensures balanced { OnOk result (AreBalanced no_amount self.new books.now) }
        ensures err { IsOkUnless result NoMemory }
    {
        let amount = amount.min(books.burnt.after(&self.burnt, denom));
        self.carry(books, Place::Burnt, Place::Outside, denom, amount)
    }

    /// Carries tokens from one place to another. A refusal is as by `take`; the changes are of no use then.
    pub(crate) fn carry(
        &mut self,
        books: &BankMaps,
        from: Place<'_>,
        to: Place<'_>,
        denom: &Denom,
        amount: u128,
    ) -> Result<(), Refusal>
        requires { AreBalanced no_amount self.old books.now }
        ensures ok { OnOk result (MakesCarrying from.entry to.entry denom.now amount self.old self.new books.now) }
        ensures balanced { OnOk result (AreBalanced no_amount self.new books.now) }
        ensures err { FailsAs result (carry_in from.entry to.entry denom.now amount self.old books.now) }
        ensures refused { FailsIf result (carry_in from.entry to.entry denom.now amount self.old books.now) }
    {
        self.take(books, from, denom, amount)?;
        self.put(books, to, denom, amount)?;
        Ok(())
    }

    // Takes tokens from a place. Refused: `Poor` where it has less; `TooLarge` where more from outside wouldn't fit 128
    // bits together with what is held and burnt; `NoMemory`.
    fn take(
        &mut self,
        books: &BankMaps,
        from: Place<'_>,
        denom: &Denom,
        amount: u128,
    ) -> Result<(), Refusal>
        requires { AreBalanced no_amount self.old books.now }
        ensures ok { OnOk result (MakesTaking from.entry denom.now amount self.old self.new books.now) }
        ensures balanced { OnOk result (AreBalancedWith denom.now amount self.new books.now) }
        ensures err { FailsAs result (take_in from.entry denom.now amount self.old books.now) }
        ensures refused { FailsIf result (take_in from.entry denom.now amount self.old books.now) }
    {
        match from {
            Place::Account(party) => {
                let held = self.held_by(books, party, denom);
                if held < amount {
                    return Err(Refusal::Poor);
                }
                Ok(self.set_held(party, denom, held - amount)?)
            }
            Place::Burnt => {
                let burnt = books.burnt.after(&self.burnt, denom);
                if burnt < amount {
                    return Err(Refusal::Poor);
                }
                Ok(self.set_burnt(denom, burnt - amount)?)
            }
            Place::Outside => {
                let total = books.totals.after(&self.totals, denom);
                match total.checked_add(amount) {
                    Some(total) => Ok(self.set_total(denom, total)?),
                    None => Err(Refusal::TooLarge),
                }
            }
        }
    }

    // Puts tokens that are in hand into a place.
    fn put(
        &mut self,
        books: &BankMaps,
        to: Place<'_>,
        denom: &Denom,
        amount: u128,
    ) -> Result<(), AllocError>
        requires { AreBalancedWith denom.now amount self.old books.now }
        ensures ok { OnOk result (MakesPutting to.entry denom.now amount self.old self.new books.now) }
        ensures balanced { OnOk result (AreBalanced no_amount self.new books.now) }
    {
        match to {
            Place::Account(party) => {
                let held = self.held_by(books, party, denom);
                self.set_held(party, denom, held + amount)
            }
            Place::Burnt => {
                let burnt = books.burnt.after(&self.burnt, denom);
                self.set_burnt(denom, burnt + amount)
            }
            Place::Outside => {
                let total = books.totals.after(&self.totals, denom);
                self.set_total(denom, total - amount)
            }
        }
    }

    // What an account holds of a denomination after the changes.
    fn held_by(&self, books: &BankMaps, party: AccountRef<'_>, denom: &Denom) -> u128
        ensures { result ≡ balance_after self.now books.now party.entry denom.now }
    {
        books.held.lemma_in_order();
        let mut amount = books.held_by(party, denom);
        for ((holder, changed), after) in &self.held {
            if holder.compare(party).is_eq() && changed == denom {
                amount = *after;
            }
        }
        amount
    }

    fn set_held(
        &mut self,
        party: AccountRef<'_>,
        denom: &Denom,
        amount: u128,
    ) -> Result<(), AllocError>
        ensures ok { OnOk result (AddsHeld party.entry denom.now amount self.old self.new) }
        ensures burnt { self.new.burnt.items ≡ self.old.burnt.items }
        ensures totals { self.new.totals.items ≡ self.old.totals.items }
    {
        Ok(self.held.push(((party.holder()?, denom.clone()?), amount))?)
    }

    fn set_burnt(&mut self, denom: &Denom, amount: u128) -> Result<(), AllocError>
        ensures ok { OnOk result (self.new.burnt.items ≡ self.old.burnt.items ++ (denom.now, amount) ∷ []) }
        ensures held { self.new.held.items ≡ self.old.held.items }
        ensures totals { self.new.totals.items ≡ self.old.totals.items }
    {
        Ok(self.burnt.push((denom.clone()?, amount))?)
    }

    fn set_total(&mut self, denom: &Denom, amount: u128) -> Result<(), AllocError>
        ensures ok { OnOk result (AddsTotal denom.now amount self.old self.new) }
        ensures held { self.new.held.items ≡ self.old.held.items }
        ensures burnt { self.new.burnt.items ≡ self.old.burnt.items }
    {
        Ok(self.totals.push((denom.clone()?, amount))?)
    }
}
