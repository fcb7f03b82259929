//! Accounts as keys, in the order of their texts.

ghost use Rattle.std.specs.Prelude.{◌≡◌, Some, IfOk, refl, bytes_eq};
ghost use Rattle.std.specs.Ordering.{nat_cmp};
ghost use Rattle.std.specs.Cmp.{on_equiv, on_total, on_po, on_per, partial_equiv_from_equiv};
ghost use Rattle.std.specs.Cmp.Lexicographic.{slice_cmp, nat_list_eq_equiv, nat_list_cmp_total, texts_ties, texts_po};
ghost use Rattle.ibc_ids.specs.Texts.{text_cmp};
ghost use Rattle.ibc_ids.specs.Paths.{account_text};
ghost use Rattle.ibc_bank.specs.Parties.{party_text};

use ibc_ids::{Account, ChannelId, UserName};
use std::alloc::AllocError;
use std::cmp::Ordering;
use std::marker::Model;

// What stands before the channel in the text of an escrow account.
const ESCROW: &str = "escrow/transfer/";

/// Who holds tokens, by its name alone.
#[derive(Clone, Copy, Debug)]
pub(crate) enum AccountRef<'a> {
    /// A user.
    User(&'a UserName),
    /// The escrow account of a channel.
    Escrow(&'a ChannelId),
}

impl<'a> AccountRef<'a> {
    /// The account as a key.
    pub(crate) fn holder(self) -> Result<AccountKey, AllocError>
        ensures { IfOk result (λ holder. holder ≡ party_text self.entry) }
    {
        let account = match self {
            AccountRef::User(name) => Account::User(name.clone()?),
            AccountRef::Escrow(channel) => Account::Escrow(channel.clone()?),
        };
        Ok(AccountKey { account })
    }
}

/// An account as a key. Contracts see it as its text, and keys are in the byte order of the texts.
#[derive(Drop, Debug)]
pub(crate) struct AccountKey {
    account: Account,
}

impl Model for AccountKey {
    ghost use Rattle.std.specs.Prelude.{List, ℕ};
    ghost use Rattle.ibc_ids.specs.Paths.{account_text};

    ghost Value = { List ℕ };

    ghost view = { λ holder. account_text holder.account };
}

impl AccountKey {
    /// The account's name.
    pub(crate) fn party(&self) -> AccountRef<'_>
        ensures { party_text result ≡ self.now }
    {
        match &self.account {
            Account::User(name) => AccountRef::User(name),
            Account::Escrow(channel) => AccountRef::Escrow(channel),
        }
    }

    /// The account.
    pub(crate) fn account(&self) -> Result<Account, AllocError>
        ensures { IfOk result (λ account. account_text account ≡ self.now) }
    {
        self.account.clone()
    }

    /// How the account's text stands to another's.
    pub(crate) fn compare(&self, other: AccountRef<'_>) -> Ordering
        ensures { result ≡ text_cmp self.now (party_text other.entry) }
    {
        match (self.party(), other) {
            (AccountRef::User(mine), AccountRef::User(theirs)) => mine.cmp(theirs),
            (AccountRef::Escrow(mine), AccountRef::Escrow(theirs)) => mine.cmp(theirs),
            (AccountRef::User(mine), AccountRef::Escrow(_)) => mine.as_str().cmp(ESCROW),
            (AccountRef::Escrow(_), AccountRef::User(theirs)) => ESCROW.cmp(theirs.as_str()),
        }
    }
}

impl PartialEq for AccountKey {
    ghost eq = { λ a b. bytes_eq a b };

    ghost laws = { on_per (λ a. a) (partial_equiv_from_equiv nat_list_eq_equiv) };

    fn eq(&self, other: &AccountKey) -> bool {
        self.cmp(other).is_eq()
    }
}

impl Eq for AccountKey {
    ghost laws = { on_equiv (λ a. a) nat_list_eq_equiv };
}

impl PartialOrd for AccountKey {
    ghost partial_cmp = { λ a b. Some (slice_cmp nat_cmp a b) };

    ghost laws = { on_po (λ a. a) texts_po };

    fn partial_cmp(&self, other: &AccountKey) -> Option<Ordering> {
        Some(self.cmp(other))
    }
}

impl Ord for AccountKey {
    ghost cmp = { λ a b. slice_cmp nat_cmp a b };

    ghost total = { on_total (λ a. a) nat_list_cmp_total };

    ghost matches_partial_cmp = { λ a b. refl };

    ghost matches_eq = { λ a b. texts_ties a b };

    fn cmp(&self, other: &AccountKey) -> Ordering {
        self.compare(other.party())
    }
}
