//! Amounts above 0, by key.

ghost use Rattle.std.specs.Prelude.{◌≡◌, ◌≤◌, ◌<◌, ◌+◌, [], length, IsOk, IsTrue, OnOk};
ghost use Rattle.std.specs.FinMap.{is_sorted};
ghost use Rattle.ibc_ids.specs.Texts.{text_cmp};
ghost use Rattle.ibc_bank.specs.Amounts.{amount_at, with_amount, with_amounts, with_less};

use ibc_ids::Denom;
use ibc_maps::SortedMap;
use std::alloc::{AllocError, Global};
use std::cmp::Ord;
use std::marker::Model;

/// The amounts above 0, in the order of their keys. Contracts see them as pairs, and how many more keys fit without a
/// growth.
#[derive(Drop, Debug)]
pub(crate) struct Amounts<K: Ord> {
    map: SortedMap<K, u128>,
}

impl<K: Ord> Model for Amounts<K> {
    ghost use Rattle.std.specs.Prelude.{ℕ};
    ghost use Rattle.std.specs.Coded.{coded_ℕ};
    ghost use Rattle.ibc_maps.specs.SortedMapModel.{SortedMapModel, sorted_map_code};

    ghost Value = { SortedMapModel K ℕ };

    ghost coded = { sorted_map_code K.code coded_ℕ };

    ghost view = { λ amounts. amounts.map };
}

impl<K: Ord> Amounts<K> {
    /// No amounts.
    pub(crate) fn new(alloc: Global) -> Amounts<K>
        ensures { result.pairs ≡ [] }
    {
        Amounts {
            map: SortedMap::new(alloc),
        }
    }

    /// Makes room for this many keys more. A refusal changes nothing.
    pub(crate) fn reserve(&mut self, keys: usize) -> Result<(), AllocError>
        ensures pairs { self.new.pairs ≡ self.old.pairs }
        ensures ok { OnOk result (keys ≤ self.new.room) }
    {
        self.map.reserve(keys)
    }

    /// The amounts, in the order of their keys.
    pub(crate) fn entries(&self) -> &[(K, u128)]
        ensures pairs { result.now ≡ self.now.pairs }
        ensures sorted { IsTrue (is_sorted K.cmp self.now.pairs) }
    {
        self.map.entries()
    }

    /// The amounts are in the order of their keys.
    pub(crate) fn lemma_in_order(&self)
        ensures { IsTrue (is_sorted K.cmp self.now.pairs) }
    {
        self.map.entries();
    }

    /// The amount at a key, 0 where there is none.
    pub(crate) fn get(&self, key: &K) -> u128
        ensures { result ≡ amount_at K.cmp key.now self.now.pairs }
    {
        self.map.get(key).copied().unwrap_or(0)
    }

    /// Sets the amount at a key. With room it is not refused.
    pub(crate) fn set(&mut self, key: K, amount: u128) -> Result<(), AllocError>
    where
        K: Drop,
        ensures ok { OnOk result (self.new.pairs ≡ with_amount K.cmp key amount self.old.pairs) }
        ensures reserved { 0 < self.old.room → IsOk result }
        ensures room { self.old.room ≤ self.new.room + 1 }
    {
        if amount == 0 {
            self.map.remove(&key);
            return Ok(());
        }
        self.map.set(key, amount)
    }

    /// Lowers the amount at a key.
    pub(crate) fn lower(&mut self, key: &K, by: u128)
    where
        K: Drop,
        requires { by ≤ amount_at K.cmp key.now self.old.pairs }
        ensures { self.new.pairs ≡ with_less K.cmp key.now by self.old.pairs }
    {
        let left = self.get(key) - by;
        if left == 0 {
            self.map.remove(key);
        } else if let Some(amount) = self.map.get_mut(key) {
            *amount = left;
        }
    }

    /// Writes amounts, one after another. With room for each it is not refused.
    pub(crate) fn write_all(&mut self, changes: Vec<(K, u128)>) -> Result<(), AllocError>
    where
        K: Drop,
        ensures ok { OnOk result (self.new.pairs ≡ with_amounts K.cmp changes.items self.old.pairs) }
        ensures reserved { length changes.items ≤ self.old.room → IsOk result }
    {
        for (key, amount) in changes {
            self.set(key, amount)?;
        }
        Ok(())
    }
}

impl Amounts<Denom> {
    /// The amount of a denomination after changes.
    pub(crate) fn after(&self, changes: &[(Denom, u128)], denom: &Denom) -> u128
        ensures { result ≡ amount_at text_cmp denom.now (with_amounts text_cmp changes.now self.now.pairs) }
    {
        self.lemma_in_order();
        let mut amount = self.get(denom);
        for (changed, after) in changes {
            if changed == denom {
                amount = *after;
            }
        }
        amount
    }
}
