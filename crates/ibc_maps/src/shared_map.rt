//! A map whose changes wait beside what its copies share.

ghost use Rattle.std.specs.Prelude.{◌≡◌, ◌+◌, ◌≤◌, ◌<◌, [], IsTrue, IsOk, OnOk, OnErr, IfOk, option_copied};
ghost use Rattle.std.specs.Arc.{arc_value};
ghost use Rattle.std.specs.FinMap.{is_sorted};
ghost use Rattle.ibc_ids.specs.Maps.{at, with, without};
ghost use Rattle.ibc_maps.specs.Chunks.{CopiesAreSame, TiesAreSame};
ghost use Rattle.ibc_maps.specs.Changes.{with_change, with_changes, ComesToTheSame};
ghost use Rattle.ibc_maps.specs.SettledPairs.{settled_pairs, AreSettledSorted, WritesShared, RewritesShared, WritesSettled, RewritesSettled};

use crate::SortedMap;
use crate::pairs::{ChunkPairs, Pairs};
use crate::row::ChunkedMap;
use std::alloc::{AllocError, Global};
use std::cmp::Ord;
use std::marker::Model;
use std::sync::Arc;

// How many changes wait before they are settled.
const MANY: usize = 16;

// What copies of a map share, nothing where it has no pair.
type Settled<K, V> = Option<Arc<ChunkedMap<K, V>, Global>>;

/// A map in the order of its keys, in which room can be made beforehand, and whose copies share what is the same in both.
/// A change waits beside what is shared until it is settled. Contracts see the pairs, and how many changes more
/// fit without a growth.
#[derive(Drop, Debug)]
pub struct SharedMap<K: Ord + Clone, V: Clone> {
    settled: Settled<K, V>,
    changes: SortedMap<K, Option<V>>,
    alloc: Global,
}

impl<K: Ord + Clone, V: Clone> Model for SharedMap<K, V> {
    ghost use Rattle.ibc_maps.specs.SortedMapModel.{SortedMapModel, sorted_map_code};
    ghost use Rattle.ibc_maps.specs.Chunks.{CopiesAreSame, TiesAreSame};
    ghost use Rattle.ibc_maps.specs.Changes.{with_changes};
    ghost use Rattle.ibc_maps.specs.SettledPairs.{settled_pairs, AreSettledSorted};

    ghost Value = { SortedMapModel K V };

    ghost coded = { sorted_map_code K.code V.code };

    ghost view = { λ map. record { pairs = with_changes K.cmp map.changes.pairs (settled_pairs map.settled); room = map.changes.room } };

    ghost invariant = { λ map. AreSettledSorted K.cmp map.changes.pairs (settled_pairs map.settled) × TiesAreSame K.cmp × CopiesAreSame K.is_clone × CopiesAreSame V.is_clone };
}

impl<K: Ord + Clone, V: Clone> SharedMap<K, V> {
    /// An empty map.
    pub fn new(alloc: Global) -> SharedMap<K, V>
        requires order { TiesAreSame K.cmp }
        requires keys { CopiesAreSame K.is_clone }
        requires values { CopiesAreSame V.is_clone }
        ensures { result.pairs ≡ [] }
    {
        SharedMap {
            settled: None,
            changes: SortedMap::new(alloc),
            alloc,
        }
    }

    /// Makes room for this many changes more, and settles those that wait where they are many. Refused only where that room was
    /// missing; the pairs and the room that was there stay.
    pub fn reserve(&mut self, changes: usize) -> Result<(), AllocError>
    where
        K: Drop,
        V: Drop,
        ensures pairs { self.new.pairs ≡ self.old.pairs }
        ensures room { self.old.room ≤ self.new.room }
        ensures ok { OnOk result (changes ≤ self.new.room) }
        ensures roomy { changes ≤ self.old.room → IsOk result }
    {
        self.settle_many();
        self.changes.reserve(changes)
    }

    /// The pairs are in the order of their keys.
    pub fn lemma_in_order(&self)
        ensures { IsTrue (is_sorted K.cmp self.now.pairs) }
    {
        let _changes = &self.changes;
    }

    /// The value of a key, or none.
    pub fn get(&self, key: &K) -> Option<&V>
        ensures { option_copied result ≡ at K.cmp key.now self.now.pairs }
    {
        match self.changes.get(key) {
            Some(change) => change.as_ref(),
            None => match &self.settled {
                Some(row) => row.get(key),
                None => None,
            },
        }
    }

    /// The pairs, in the order of their keys.
    pub fn iter(&self) -> Pairs<'_, K, V>
        ensures { result ≡ self.now.pairs }
    {
        Pairs {
            changes: self.changes.entries(),
            settled: match &self.settled {
                Some(row) => row.pairs(),
                None => ChunkPairs {
                    pairs: &[],
                    chunks: &[],
                },
            },
        }
    }

    /// Sets the value of a key. With room it is not refused. A refusal leaves the pairs.
    pub fn set(&mut self, key: K, value: V) -> Result<(), AllocError>
    where
        K: Drop,
        V: Drop,
        ensures ok { OnOk result (self.new.pairs ≡ with K.cmp key value self.old.pairs) }
        ensures reserved { 0 < self.old.room → IsOk result }
        ensures room { self.old.room ≤ self.new.room + 1 }
        ensures err { OnErr result (self.new.pairs ≡ self.old.pairs) }
    {
        self.changes.set(key, Some(value))
    }

    /// Removes a key, if it is there. With room it is not refused. A refusal leaves the pairs.
    pub fn remove(&mut self, key: K) -> Result<(), AllocError>
    where
        K: Drop,
        V: Drop,
        ensures ok { OnOk result (self.new.pairs ≡ without K.cmp key self.old.pairs) }
        ensures reserved { 0 < self.old.room → IsOk result }
        ensures room { self.old.room ≤ self.new.room + 1 }
        ensures err { OnErr result (self.new.pairs ≡ self.old.pairs) }
    {
        self.changes.set(key, None)
    }

    /// Takes the value of a key out, or gives none where the key isn't there. The key can be set then without a growth. A value
    /// that copies share is copied. Refused only where a growth is; the pairs then stay.
    pub fn take(&mut self, key: &K) -> Result<Option<V>, AllocError>
    where
        K: Drop,
        V: Drop,
        ensures value { IfOk result (λ value. value ≡ at K.cmp key.now self.old.pairs) }
        ensures ok { OnOk result (self.new.pairs ≡ without K.cmp key.now self.old.pairs) }
        ensures room { OnOk result (0 < self.new.room) }
        ensures err { OnErr result (self.new.pairs ≡ self.old.pairs) }
    {
        self.reserve(2)?;
        if let Some(change) = self.changes.get_mut(key) {
            return Ok(change.take());
        }
        let removed = key.clone()?;
        let value = settled_value(&self.settled, key)?;
        let _ = self.changes.set(removed, None);
        Ok(value)
    }

    /// Settles the changes that wait, so that a copy made afterwards shares them too. What no copy shares is changed where it
    /// stands. Refused only where a growth is, and then nothing changes.
    pub fn settle(&mut self) -> Result<(), AllocError>
    where
        K: Drop,
        V: Drop,
        ensures pairs { self.new.pairs ≡ self.old.pairs }
        ensures room { self.old.room ≤ self.new.room }
        ensures err { OnErr result (self.new ≡ self.old) }
    {
        write_settled(self.alloc, &mut self.settled, self.changes.entries())?;
        self.changes.clear();
        Ok(())
    }

    // Settles the changes that wait, where they are many and memory is there.
    fn settle_many(&mut self)
    where
        K: Drop,
        V: Drop,
        ensures pairs { self.new.pairs ≡ self.old.pairs }
        ensures room { self.old.room ≤ self.new.room }
    {
        if self.changes.len() >= MANY {
            let _settled = self.settle();
        }
    }

    /// The same pairs in a map of its own, which shares what is settled with this one; the changes that wait are copied.
    /// Refused only where a growth is, or where too many share what is settled.
    pub fn copy(&self) -> Result<SharedMap<K, V>, AllocError>
    where
        K: Drop,
        V: Drop,
        ensures { IfOk result (λ copy. copy.pairs ≡ self.now.pairs) }
    {
        Ok(SharedMap {
            settled: another(&self.settled)?,
            changes: self.changes.copy()?,
            alloc: self.alloc,
        })
    }
}

// The same, shared once more.
fn another<K: Ord + Clone + Drop, V: Clone + Drop>(
    settled: &Settled<K, V>,
) -> Result<Settled<K, V>, AllocError>
    ensures { IfOk result (λ copy. settled_pairs copy ≡ settled_pairs settled.now) }
{
    match settled {
        Some(row) => Ok(Some(Arc::try_clone(row)?)),
        None => Ok(None),
    }
}

// A copy of the value of a key that is settled, or none.
fn settled_value<K: Ord + Clone + Drop, V: Clone + Drop>(
    settled: &Settled<K, V>,
    key: &K,
) -> Result<Option<V>, AllocError>
    requires { CopiesAreSame V.is_clone }
    ensures { IfOk result (λ value. value ≡ at K.cmp key.now (settled_pairs settled.now)) }
{
    let Some(row) = settled else {
        return Ok(None);
    };
    match row.get(key) {
        Some(value) => Ok(Some(value.clone()?)),
        None => Ok(None),
    }
}

// Writes changes to what is settled. After a refusal the same changes still come to the same.
fn write_settled<K: Ord + Clone + Drop, V: Clone + Drop>(
    alloc: Global,
    settled: &mut Settled<K, V>,
    changes: &[(K, Option<V>)],
) -> Result<(), AllocError>
    requires keys { CopiesAreSame K.is_clone }
    requires values { CopiesAreSame V.is_clone }
    requires order { TiesAreSame K.cmp }
    requires sorted { AreSettledSorted K.cmp changes.now (settled_pairs settled.old) }
    ensures ok { OnOk result (WritesSettled K.cmp changes.now settled.old settled.new) }
    ensures again { OnErr result (RewritesSettled K.cmp changes.now settled.old settled.new) }
    ensures sorted { OnErr result (IsTrue (is_sorted K.cmp (settled_pairs settled.new))) }
{
    match settled {
        Some(shared) => write_shared(alloc, shared, changes),
        None => {
            *settled = Some(first_row(alloc, changes)?);
            Ok(())
        }
    }
}

// A row with changes to no pair.
fn first_row<K: Ord + Clone + Drop, V: Clone + Drop>(
    alloc: Global,
    changes: &[(K, Option<V>)],
) -> Result<Arc<ChunkedMap<K, V>, Global>, AllocError>
    requires keys { CopiesAreSame K.is_clone }
    requires values { CopiesAreSame V.is_clone }
    requires order { TiesAreSame K.cmp }
    requires sorted { IsTrue (is_sorted K.cmp changes.now) }
    ensures { IfOk result (λ row. arc_value row ≡ with_changes K.cmp changes.now []) }
{
    let mut row = ChunkedMap::new(alloc);
    match write_all(&mut row, changes) {
        Ok(()) => Ok(Arc::new(alloc, row)?),
        Err(refused) => {
            drop(row);
            Err(refused)
        }
    }
}

// Writes changes to a row, which is copied first where others share it. After a refusal the same changes still come to the
// same.
fn write_shared<K: Ord + Clone + Drop, V: Clone + Drop>(
    alloc: Global,
    shared: &mut Arc<ChunkedMap<K, V>, Global>,
    changes: &[(K, Option<V>)],
) -> Result<(), AllocError>
    requires keys { CopiesAreSame K.is_clone }
    requires values { CopiesAreSame V.is_clone }
    requires order { TiesAreSame K.cmp }
    requires sorted { AreSettledSorted K.cmp changes.now (arc_value shared.old) }
    ensures ok { OnOk result (WritesShared K.cmp changes.now shared.old shared.new) }
    ensures again { OnErr result (RewritesShared K.cmp changes.now shared.old shared.new) }
    ensures sorted { OnErr result (IsTrue (is_sorted K.cmp (arc_value shared.new))) }
{
    if let Some(own) = Arc::get_mut(shared) {
        return write_all(own, changes);
    }
    let mut own = shared.copy()?;
    match write_all(&mut own, changes) {
        Ok(()) => {
            *shared = Arc::new(alloc, own)?;
            Ok(())
        }
        Err(refused) => {
            drop(own);
            Err(refused)
        }
    }
}

// Writes changes to a row, one after another. After a refusal the same changes still come to the same.
fn write_all<K: Ord + Clone + Drop, V: Clone + Drop>(
    row: &mut ChunkedMap<K, V>,
    changes: &[(K, Option<V>)],
) -> Result<(), AllocError>
    requires keys { CopiesAreSame K.is_clone }
    requires values { CopiesAreSame V.is_clone }
    requires order { TiesAreSame K.cmp }
    requires sorted { AreSettledSorted K.cmp changes.now row.old }
    ensures ok { OnOk result (row.new ≡ with_changes K.cmp changes.now row.old) }
    ensures again { OnErr result (ComesToTheSame K.cmp changes.now row.old row.new) }
    ensures sorted { OnErr result (IsTrue (is_sorted K.cmp row.new)) }
{
    for change in changes {
        write(row, &change.0, &change.1)?;
    }
    Ok(())
}

// Writes one change to a row. A refusal leaves the row.
fn write<K: Ord + Clone + Drop, V: Clone + Drop>(
    row: &mut ChunkedMap<K, V>,
    key: &K,
    change: &Option<V>,
) -> Result<(), AllocError>
    requires keys { CopiesAreSame K.is_clone }
    requires values { CopiesAreSame V.is_clone }
    ensures ok { OnOk result (row.new ≡ with_change K.cmp key.now change.now row.old) }
    ensures err { OnErr result (row.new ≡ row.old) }
{
    match change {
        Some(value) => row.set(key.clone()?, value.clone()?),
        None => row.remove(key),
    }
}
