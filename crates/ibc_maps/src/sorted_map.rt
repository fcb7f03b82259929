//! A map as a sorted vector.

ghost use Rattle.std.specs.Prelude.{◌≡◌, ◌+◌, ◌≤◌, ◌<◌, length, [], IsTrue, IsOk, OnOk, OnErr, IfOk, IfErr, None, option_copied, slice_range};
ghost use Rattle.std.specs.Borrow.{sem};
ghost use Rattle.std.specs.Option.{option_copied_mut};
ghost use Rattle.std.specs.FinMap.{is_sorted};
ghost use Rattle.ibc_ids.specs.Maps.{at, with, without, IsKeyAt, IsGapFor};

use std::alloc::{AllocError, Global};
use std::cmp::Ord;
use std::marker::Model;

/// A map in the order of its keys, in which room can be made beforehand. Contracts see its pairs, and how many more
/// fit without a growth.
#[derive(Drop, Debug)]
pub struct SortedMap<K: Ord, V> {
    entries: Vec<(K, V)>,
}

impl<K: Ord, V> Model for SortedMap<K, V> {
    ghost use Rattle.std.specs.Prelude.{◌-◌, IsTrue, vec_len, vec_capacity};
    ghost use Rattle.std.specs.FinMap.{is_sorted};
    ghost use Rattle.ibc_maps.specs.SortedMapModel.{SortedMapModel, sorted_map_code};

    ghost Value = { SortedMapModel K V };

    ghost coded = { sorted_map_code K.code V.code };

    ghost view = { λ map. record { pairs = map.entries.items; room = vec_capacity map.entries - vec_len map.entries } };

    ghost invariant = { λ map. IsTrue (is_sorted K.cmp map.entries.items) };
}

impl<K: Ord, V> SortedMap<K, V> {
    ghost use Rattle.ibc_maps.specs.Lending.{lends_value};

    /// An empty map.
    pub fn new(alloc: Global) -> SortedMap<K, V>
        ensures { result.pairs ≡ [] }
    {
        SortedMap {
            entries: Vec::new(alloc),
        }
    }

    /// How many pairs there are.
    pub fn len(&self) -> usize
        ensures { result ≡ length self.now.pairs }
    {
        self.entries.len()
    }

    /// Makes room for this many keys more. Refused only where that room was missing, and then nothing changes.
    pub fn reserve(&mut self, keys: usize) -> Result<(), AllocError>
        ensures pairs { self.new.pairs ≡ self.old.pairs }
        ensures room { self.old.room ≤ self.new.room }
        ensures ok { OnOk result (keys ≤ self.new.room) }
        ensures roomy { keys ≤ self.old.room → IsOk result }
        ensures err { OnErr result (self.new.room ≡ self.old.room) }
    {
        self.entries.reserve(keys)
    }

    /// The pairs, in the order of their keys.
    pub fn entries(&self) -> &[(K, V)]
        ensures pairs { result.now ≡ self.now.pairs }
        ensures sorted { IsTrue (is_sorted K.cmp self.now.pairs) }
    {
        self.entries.as_slice()
    }

    /// The value of a key, or none.
    pub fn get(&self, key: &K) -> Option<&V>
        ensures { option_copied result ≡ at K.cmp key.now self.now.pairs }
    {
        match self.place(key) {
            Ok(index) => Some(&self.entries[index].1),
            Err(_) => None,
        }
    }

    /// The value of a key, to write to, or none.
    pub fn get_mut(&mut self, key: &K) -> Option<&mut V>
        ensures* writes_back { sem 𝓛 (lends_value K.row V.row K.Ord self.entry key.now result) }
        ensures value { option_copied_mut result ≡ at K.cmp key.now self.old.pairs }
    {
        match self.place(key) {
            Ok(index) => {
                let entry = &mut self.entries[index];
                Some(&mut entry.1)
            }
            Err(_) => None,
        }
    }

    /// Sets the value of a key. With room, or where the key is there, it is not refused. A refusal leaves the pairs.
    pub fn set(&mut self, key: K, value: V) -> Result<(), AllocError>
    where
        K: Drop,
        V: Drop,
        ensures ok { OnOk result (self.new.pairs ≡ with K.cmp key value self.old.pairs) }
        ensures reserved { 0 < self.old.room → IsOk result }
        ensures room { self.old.room ≤ self.new.room + 1 }
        ensures absent { OnErr result (at K.cmp key self.old.pairs ≡ None) }
        ensures err { OnErr result (self.new.pairs ≡ self.old.pairs) }
    {
        match self.place(&key) {
            Ok(index) => {
                self.entries[index].1 = value;
                Ok(())
            }
            Err(index) => Ok(self.entries.insert(index, (key, value))?),
        }
    }

    /// Removes a key and gives its value, or none.
    pub fn remove(&mut self, key: &K) -> Option<V>
    where
        K: Drop,
        ensures value { result ≡ at K.cmp key.now self.old.pairs }
        ensures pairs { self.new.pairs ≡ without K.cmp key.now self.old.pairs }
        ensures room { self.old.room ≤ self.new.room }
    {
        match self.place(key) {
            Ok(index) => Some(self.entries.remove(index).1),
            Err(_) => None,
        }
    }

    /// Removes all pairs, and keeps the room.
    pub fn clear(&mut self)
    where
        K: Drop,
        V: Drop,
        ensures pairs { self.new.pairs ≡ [] }
        ensures room { self.old.room ≤ self.new.room }
    {
        self.entries.clear();
    }

    /// The same pairs in a map of their own. Refused only where a growth is.
    pub fn copy(&self) -> Result<SortedMap<K, V>, AllocError>
    where
        K: Clone,
        V: Clone,
        requires keys { (key copy : K) → K.is_clone key copy → copy ≡ key }
        requires values { (value copy : V) → V.is_clone value copy → copy ≡ value }
        ensures { IfOk result (λ copy. copy.pairs ≡ self.now.pairs) }
    {
        Ok(SortedMap {
            entries: Vec::from_clones(*self.entries.allocator(), self.entries())?,
        })
    }

    /// The pairs from one place up to another, in a map of their own. Refused only where a growth is.
    pub fn part(&self, from: usize, to: usize) -> Result<SortedMap<K, V>, AllocError>
    where
        K: Clone,
        V: Clone,
        requires order { from ≤ to }
        requires within { to ≤ length self.now.pairs }
        requires keys { (key copy : K) → K.is_clone key copy → copy ≡ key }
        requires values { (value copy : V) → V.is_clone value copy → copy ≡ value }
        ensures { IfOk result (λ part. part.pairs ≡ slice_range self.now.pairs from to) }
    {
        let pairs = &self.entries()[from..to];
        Ok(SortedMap {
            entries: Vec::from_clones(*self.entries.allocator(), pairs)?,
        })
    }

    // Where a key stands, or where it would stand.
    fn place(&self, key: &K) -> Result<usize, usize>
        ensures found { IfOk result (λ index. index < length self.now.pairs) }
        ensures here { IfOk result (IsKeyAt K.cmp key.now self.now.pairs) }
        ensures within { IfErr result (λ index. index ≤ length self.now.pairs) }
        ensures gap { IfErr result (IsGapFor K.cmp key.now self.now.pairs) }
    {
        self.entries
            .as_slice()
            .binary_search_by(|entry| entry.0.cmp(key))
    }
}
