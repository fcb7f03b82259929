//! The bank of a chain.

ghost use Rattle.std.specs.Prelude.{◌≡◌, [], true, Ok, map, IsTrue, IsOk, IfOk, OnOk, OnErr};
ghost use Rattle.std.specs.List.{list_all};
ghost use Rattle.ibc_ids.specs.Texts.{pair_cmp};
ghost use Rattle.ibc_ids.specs.Names.{is_denom};
ghost use Rattle.ibc_ids.specs.Paths.{account_text};
ghost use Rattle.ibc_machine.specs.ics20.Bank.{balance, supply};
ghost use Rattle.ibc_machine.specs.chain.Genesis.{starting_balances, is_fair};
ghost use Rattle.ibc_bank.specs.Amounts.{AreKept};
ghost use Rattle.ibc_bank.specs.BankModel.{IsBalanced, no_amount, state_of};
ghost use Rattle.ibc_bank.specs.Moves.{BankState, token_of, burnt_of, after_settlement, after_moves, escrowing, releasing, burning, minting, refunding, IsBoundedAt};
ghost use Rattle.ibc_bank.specs.TokenPlaces.{carrying};
ghost use Rattle.ibc_bank.specs.ListedHoldings.{abstract_holding};
ghost use Rattle.ibc_bank.specs.SortedStarts.{shown};
ghost use Rattle.ibc_ids.specs.declared.refusal.Refusal.TheVariants.{Poor, TooLarge};
ghost use Rattle.ibc_bank.specs.Outcomes.{GivesOnOk, IsErrIfNone, IsOkIfSome, FailsAs, FailsIf};

use crate::amounts::Amounts;
use crate::books::BankMaps;
use crate::changes::Changes;
use crate::holder::AccountRef;
use crate::moves::{Move, Source};
use crate::place::Place;
use crate::sorted_starts::sorted_by_user;
use ibc_ids::{Account, ChannelId, Denom, Refusal, UserName};
use ibc_machine::ChainStart;
use std::alloc::{AllocError, Global};
use std::marker::Model;

/// What users and the escrow accounts of channels hold of each denomination, and what was burnt of it in flight and may
/// still be refunded (ICS 20). All that is held of a denomination and what was burnt of it are below 2^128 together, so
/// a refund is never too large. A refused move changes nothing.
#[derive(Drop, Debug)]
pub struct Bank {
    books: BankMaps,
    alloc: Global,
}

impl Model for Bank {
    ghost Value = { BankState };

    ghost view = { λ bank. state_of bank.books };

    ghost invariant = { λ bank. IsBalanced no_amount (state_of bank.books) bank.books.totals.pairs };
}

impl Bank {
    /// A bank in which no one holds anything.
    pub fn new(alloc: Global) -> Bank
        ensures balances { result.balances ≡ [] }
        ensures burnt { result.burnt ≡ [] }
    {
        Bank {
            books: BankMaps {
                held: Amounts::new(alloc),
                burnt: Amounts::new(alloc),
                totals: Amounts::new(alloc),
            },
            alloc,
        }
    }

    /// The bank of a chain in the beginning, whose holdings are fair: each names a user and a base denomination once,
    /// and all amounts of a denomination fit 128 bits together.
    pub fn from_start(alloc: Global, start: &ChainStart) -> Result<Bank, AllocError>
        requires { IsTrue (list_all (is_fair start.now.balances.items) start.now.balances.items) }
        ensures balances { IfOk result (λ it. it.balances ≡ starting_balances start.now.balances.items) }
        ensures burnt { IfOk result (λ bank. bank.burnt ≡ []) }
    {
        let holdings = start.balances.as_slice();
        match sorted_by_user(alloc, holdings) {
            Ok(sorted) => Bank::from_sorted(alloc, &sorted),
            Err(AllocError) => Bank::from_listed(alloc, holdings),
        }
    }

    // The bank of fair holdings, which are set one after another.
    fn from_listed(alloc: Global, holdings: &[(UserName, Denom, u128)]) -> Result<Bank, AllocError>
        requires { IsTrue (list_all (is_fair holdings.now) holdings.now) }
        ensures balances { IfOk result (λ bank. bank.balances ≡ starting_balances holdings.now) }
        ensures burnt { IfOk result (λ bank. bank.burnt ≡ []) }
    {
        let mut books = BankMaps {
            held: Amounts::new(alloc),
            burnt: Amounts::new(alloc),
            totals: Amounts::new(alloc),
        };
        for (user, denom, amount) in holdings {
            books.hold(user, denom, *amount)?;
        }
        Ok(Bank { books, alloc })
    }

    // The same of references to holdings.
    fn from_sorted(alloc: Global, sorted: &[&(UserName, Denom, u128)]) -> Result<Bank, AllocError>
        requires { IsTrue (list_all (is_fair (map shown sorted.now)) (map shown sorted.now)) }
        ensures balances { IfOk result (λ bank. bank.balances ≡ starting_balances (map shown sorted.now)) }
        ensures burnt { IfOk result (λ bank. bank.burnt ≡ []) }
    {
        let mut books = BankMaps {
            held: Amounts::new(alloc),
            burnt: Amounts::new(alloc),
            totals: Amounts::new(alloc),
        };
        for holding in sorted {
            books.hold(&holding.0, &holding.1, holding.2)?;
        }
        Ok(Bank { books, alloc })
    }

    /// What an account holds of a denomination.
    pub fn balance(&self, account: &Account, denom: &Denom) -> u128
        ensures { result ≡ balance self.now.balances (account_text account.now) denom.now }
    {
        match account {
            Account::User(name) => self.books.held_by(AccountRef::User(name), denom),
            Account::Escrow(channel) => self.books.held_by(AccountRef::Escrow(channel), denom),
        }
    }

    /// All that accounts hold of a denomination; it fits 128 bits together with what was burnt.
    pub fn supply(&self, denom: &Denom) -> u128
        ensures value { result ≡ supply self.now.balances denom.now }
        ensures bounded { IsBoundedAt self.now denom.now }
    {
        self.books.totals.get(denom) - self.burnt(denom)
    }

    /// What was burnt of a denomination in flight, and may still be refunded.
    pub fn burnt(&self, denom: &Denom) -> u128
        ensures { result ≡ burnt_of self.now denom.now }
    {
        self.books.burnt.get(denom)
    }

    /// Each denomination of which an account holds something has the form of one (ICS 20).
    pub fn lemma_holds_denominations(&self)
        ensures { list_all (λ entry. is_denom entry.0.1) self.now.balances ≡ true }
    {
        for entry in self.books.held.entries() {
            let _denom = entry.0.1.as_str();
        }
    }

    /// Moves tokens from a user to the escrow of a channel. Refused: `Poor` exactly where the user holds less;
    /// `NoMemory`.
    pub fn escrow(
        &mut self,
        user: &UserName,
        channel: &ChannelId,
        denom: &Denom,
        amount: u128,
    ) -> Result<(), Refusal>
        ensures ok { GivesOnOk result (escrowing user.now channel.now denom.now amount self.old) self.new }
        ensures poor { IsErrIfNone result Poor (escrowing user.now channel.now denom.now amount self.old) }
        ensures memory { IsOkIfSome result (escrowing user.now channel.now denom.now amount self.old) }
        ensures err { OnErr result (self.new ≡ self.old) }
    {
        self.carry(Place::user(user), Place::escrow(channel), denom, amount)
    }

    /// Moves tokens from the escrow of a channel to a user. Refused: `Poor` exactly where the escrow holds less;
    /// `NoMemory`.
    pub fn release(
        &mut self,
        channel: &ChannelId,
        user: &UserName,
        denom: &Denom,
        amount: u128,
    ) -> Result<(), Refusal>
        ensures ok { GivesOnOk result (releasing channel.now user.now denom.now amount self.old) self.new }
        ensures poor { IsErrIfNone result Poor (releasing channel.now user.now denom.now amount self.old) }
        ensures memory { IsOkIfSome result (releasing channel.now user.now denom.now amount self.old) }
        ensures err { OnErr result (self.new ≡ self.old) }
    {
        self.carry(Place::escrow(channel), Place::user(user), denom, amount)
    }

    /// Burns a user's tokens, which may still be refunded. Refused: `Poor` exactly where the user holds less;
    /// `NoMemory`.
    pub fn burn(&mut self, user: &UserName, denom: &Denom, amount: u128) -> Result<(), Refusal>
        ensures ok { GivesOnOk result (burning user.now denom.now amount self.old) self.new }
        ensures poor { IsErrIfNone result Poor (burning user.now denom.now amount self.old) }
        ensures memory { IsOkIfSome result (burning user.now denom.now amount self.old) }
        ensures err { OnErr result (self.new ≡ self.old) }
    {
        self.carry(Place::user(user), Place::Burnt, denom, amount)
    }

    /// Mints tokens for a user. Refused: `TooLarge` exactly where they wouldn't fit 128 bits together with all that is
    /// held of the denomination and what was burnt of it; `NoMemory`.
    pub fn mint(&mut self, user: &UserName, denom: &Denom, amount: u128) -> Result<(), Refusal>
        ensures ok { GivesOnOk result (minting user.now denom.now amount self.old) self.new }
        ensures too_large { IsErrIfNone result TooLarge (minting user.now denom.now amount self.old) }
        ensures memory { IsOkIfSome result (minting user.now denom.now amount self.old) }
        ensures err { OnErr result (self.new ≡ self.old) }
    {
        self.carry(Place::Outside, Place::user(user), denom, amount)
    }

    /// Gives tokens back to a user: out of the escrow of a channel, or minted again where they were burnt. Refused:
    /// `Poor` exactly where the source holds less; `NoMemory`.
    pub fn refund(
        &mut self,
        user: &UserName,
        source: &Source,
        denom: &Denom,
        amount: u128,
    ) -> Result<(), Refusal>
        ensures ok { GivesOnOk result (refunding user.now source.now denom.now amount self.old) self.new }
        ensures poor { IsErrIfNone result Poor (refunding user.now source.now denom.now amount self.old) }
        ensures memory { IsOkIfSome result (refunding user.now source.now denom.now amount self.old) }
        ensures err { OnErr result (self.new ≡ self.old) }
    {
        match source {
            Source::Escrow(channel) => self.release(channel, user, denom, amount),
            Source::Burnt => self.carry(Place::Burnt, Place::user(user), denom, amount),
        }
    }

    /// What was burnt of a denomination falls by the amount, to 0 where it is less: no refund comes of it any more.
    pub fn settle(&mut self, denom: &Denom, amount: u128)
        ensures { self.new ≡ after_settlement (token_of denom.now amount) self.old }
    {
        let settled = amount.min(self.burnt(denom));
        self.books.burnt.lower(denom, settled);
        self.books.totals.lower(denom, settled);
    }

    /// Makes all the moves, one after another, or none. Refused as the first that is refused; `NoMemory`.
    pub fn apply_all(&mut self, moves: &[Move]) -> Result<(), Refusal>
        ensures ok { OnOk result (after_moves moves.now self.old ≡ Ok self.new) }
        ensures refused { FailsAs result (after_moves moves.now self.old) }
        ensures err { OnErr result (self.new ≡ self.old) }
    {
        let changes = Changes::of_moves(self.alloc, &self.books, moves)?;
        Ok(self.books.commit(changes)?)
    }

    /// Whether all the moves can be made, one after another; it changes nothing. Refused as the first that is refused;
    /// `NoMemory`.
    pub fn check(&self, moves: &[Move]) -> Result<(), Refusal>
        ensures ok { OnOk result (IsOk (after_moves moves.now self.now)) }
        ensures refused { FailsAs result (after_moves moves.now self.now) }
    {
        Changes::of_moves(self.alloc, &self.books, moves)?;
        Ok(())
    }

    /// Who holds how much of what: the amounts above 0, in the byte order of the accounts' texts and then of the
    /// denominations.
    pub fn list(&self, alloc: Global) -> Result<Vec<(Account, Denom, u128)>, AllocError>
        ensures balances { IfOk result (λ list. map abstract_holding list.items ≡ self.now.balances) }
        ensures kept { AreKept pair_cmp self.now.balances }
    {
        let entries = self.books.held.entries();
        let mut list = Vec::with_capacity(alloc, entries.len())?;
        for ((holder, denom), amount) in entries {
            list.push((holder.account()?, denom.clone()?, *amount))?;
        }
        Ok(list)
    }

    // Carries tokens from one place to another.
    fn carry(
        &mut self,
        from: Place<'_>,
        to: Place<'_>,
        denom: &Denom,
        amount: u128,
    ) -> Result<(), Refusal>
        ensures ok { OnOk result (carrying from.entry to.entry denom.now amount self.old ≡ Ok self.new) }
        ensures memory { FailsAs result (carrying from.entry to.entry denom.now amount self.old) }
        ensures refused { FailsIf result (carrying from.entry to.entry denom.now amount self.old) }
        ensures err { OnErr result (self.new ≡ self.old) }
    {
        let mut changes = Changes::new(self.alloc);
        changes.carry(&self.books, from, to, denom, amount)?;
        Ok(self.books.commit(changes)?)
    }
}
