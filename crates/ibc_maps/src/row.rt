//! A map in chunks that copies share.

ghost use Rattle.std.specs.Prelude.{◌≡◌, ◌<◌, ◌+◌, [], length, take, drop, OnOk, OnErr, IfOk, option_copied};
ghost use Rattle.std.specs.Arc.{arc_value};
ghost use Rattle.ibc_ids.specs.Maps.{at, with, without};
ghost use Rattle.ibc_maps.specs.Sides.{AllBelow, AllAbove};
ghost use Rattle.ibc_maps.specs.Chunks.{joined_chunks, begins_above, CopiesAreSame, IsRow, SetsAmong, RemovesAmong};

use crate::chunk::{Chunk, first_chunk, halves, remove_in, set_in};
use crate::pairs::ChunkPairs;
use std::alloc::{AllocError, Global};
use std::cmp::{Ord, Ordering};
use std::marker::Model;
use std::sync::Arc;

// How many pairs a chunk has before it is divided.
const FULL: usize = 128;

/// A map in the order of its keys, in chunks that copies share. Contracts see its pairs.
#[derive(Drop, Debug)]
pub struct ChunkedMap<K: Ord + Clone, V: Clone> {
    chunks: Vec<Chunk<K, V>>,
}

impl<K: Ord + Clone, V: Clone> Model for ChunkedMap<K, V> {
    ghost use Rattle.std.specs.Coded.{coded_list, coded×};
    ghost use Rattle.ibc_ids.specs.Maps.{Map};
    ghost use Rattle.ibc_maps.specs.Chunks.{joined_chunks, CopiesAreSame, IsRow};

    ghost Value = { Map K V };

    ghost coded = { coded_list (coded× K.code V.code) };

    ghost view = { λ row. joined_chunks row.chunks.items };

    ghost invariant = { λ row. IsRow K.cmp row.chunks.items × CopiesAreSame K.is_clone × CopiesAreSame V.is_clone };
}

impl<K: Ord + Clone, V: Clone> ChunkedMap<K, V> {
    /// A map with no pair.
    pub fn new(alloc: Global) -> ChunkedMap<K, V>
        requires keys { CopiesAreSame K.is_clone }
        requires values { CopiesAreSame V.is_clone }
        ensures { result ≡ [] }
    {
        ChunkedMap {
            chunks: Vec::new(alloc),
        }
    }

    /// The value of a key, or none.
    pub fn get(&self, key: &K) -> Option<&V>
        ensures { option_copied result ≡ at K.cmp key.now self.now }
    {
        if self.chunks.is_empty() {
            return None;
        }
        let place = place_of(&self.chunks, key);
        self.chunks[place].get(key)
    }

    /// Sets the value of a key. A refusal leaves the pairs.
    pub fn set(&mut self, key: K, value: V) -> Result<(), AllocError>
    where
        K: Drop,
        V: Drop,
        ensures ok { OnOk result (self.new ≡ with K.cmp key value self.old) }
        ensures err { OnErr result (self.new ≡ self.old) }
    {
        if self.chunks.is_empty() {
            let chunk = first_chunk(*self.chunks.allocator(), key, value)?;
            self.chunks.push(chunk)?;
            return Ok(());
        }
        set_among(&mut self.chunks, key, value)
    }

    /// Removes a key. A refusal leaves the pairs.
    pub fn remove(&mut self, key: &K) -> Result<(), AllocError>
    where
        K: Drop,
        V: Drop,
        ensures ok { OnOk result (self.new ≡ without K.cmp key.now self.old) }
        ensures err { OnErr result (self.new ≡ self.old) }
    {
        if self.chunks.is_empty() {
            return Ok(());
        }
        remove_among(&mut self.chunks, key)
    }

    /// The pairs, in the order of their keys.
    pub fn pairs(&self) -> ChunkPairs<'_, K, V>
        ensures { result ≡ self.now }
    {
        match self.chunks.split_first() {
            Some((chunk, chunks)) => ChunkPairs {
                pairs: chunk.entries(),
                chunks,
            },
            None => ChunkPairs {
                pairs: &[],
                chunks: &self.chunks,
            },
        }
    }

    /// The same pairs in a map of its own, which shares all chunks. Refused only where a growth is, or where too many
    /// share a chunk.
    pub fn copy(&self) -> Result<ChunkedMap<K, V>, AllocError>
    where
        K: Drop,
        V: Drop,
        ensures { IfOk result (λ copy. copy ≡ self.now) }
    {
        let mut chunks = Vec::with_capacity(*self.chunks.allocator(), self.chunks.len())?;
        for chunk in &self.chunks {
            chunks.push(Arc::try_clone(chunk)?)?;
        }
        Ok(ChunkedMap { chunks })
    }
}

// Sets the value of a key among chunks. A refusal leaves the pairs.
fn set_among<K: Ord + Clone + Drop, V: Clone + Drop>(
    chunks: &mut Vec<Chunk<K, V>>,
    key: K,
    value: V,
) -> Result<(), AllocError>
    requires some { 0 < length chunks.old.items }
    requires row { IsRow K.cmp chunks.old.items }
    requires keys { CopiesAreSame K.is_clone }
    requires values { CopiesAreSame V.is_clone }
    ensures row { IsRow K.cmp chunks.new.items }
    ensures ok { OnOk result (SetsAmong K.cmp key value chunks.old.items chunks.new.items) }
    ensures err { OnErr result (joined_chunks chunks.new.items ≡ joined_chunks chunks.old.items) }
{
    let alloc = *chunks.allocator();
    let full = place_of(chunks, &key);
    divide(chunks, full)?;
    let place = place_of(chunks, &key);
    set_in(alloc, &mut chunks[place], key, value)
}

// Removes a key among chunks. A refusal leaves the pairs.
fn remove_among<K: Ord + Clone + Drop, V: Clone + Drop>(
    chunks: &mut Vec<Chunk<K, V>>,
    key: &K,
) -> Result<(), AllocError>
    requires some { 0 < length chunks.old.items }
    requires row { IsRow K.cmp chunks.old.items }
    requires keys { CopiesAreSame K.is_clone }
    requires values { CopiesAreSame V.is_clone }
    ensures row { IsRow K.cmp chunks.new.items }
    ensures ok { OnOk result (RemovesAmong K.cmp key.now chunks.old.items chunks.new.items) }
    ensures err { OnErr result (joined_chunks chunks.new.items ≡ joined_chunks chunks.old.items) }
{
    let alloc = *chunks.allocator();
    let place = place_of(chunks, key);
    remove_in(alloc, &mut chunks[place], key)?;
    if chunks[place].len() == 0 {
        chunks.remove(place);
    }
    Ok(())
}

// Divides a chunk that is full.
fn divide<K: Ord + Clone + Drop, V: Clone + Drop>(
    chunks: &mut Vec<Chunk<K, V>>,
    place: usize,
) -> Result<(), AllocError>
    requires within { place < length chunks.old.items }
    requires row { IsRow K.cmp chunks.old.items }
    requires keys { CopiesAreSame K.is_clone }
    requires values { CopiesAreSame V.is_clone }
    ensures same { joined_chunks chunks.new.items ≡ joined_chunks chunks.old.items }
    ensures row { IsRow K.cmp chunks.new.items }
    ensures some { 0 < length chunks.new.items }
{
    let chunk = &chunks[place];
    if chunk.len() < FULL {
        return Ok(());
    }
    let (low, high) = halves(*chunks.allocator(), chunk, FULL / 2)?;
    chunks.insert(place + 1, high)?;
    chunks[place] = low;
    Ok(())
}

// The chunk in which a key stands or would stand.
fn place_of<K: Ord, V>(chunks: &[Chunk<K, V>], key: &K) -> usize
    requires some { 0 < length chunks.now }
    requires row { IsRow K.cmp chunks.now }
    ensures within { result < length chunks.now }
    ensures below { AllBelow K.cmp key.now (joined_chunks (take result chunks.now)) }
    ensures above { AllAbove K.cmp key.now (joined_chunks (drop (result + 1) chunks.now)) }
{
    let mut low = 0;
    let mut high = chunks.len();
    while low + 1 < high {
        let middle = low + (high - low) / 2;
        if begins_above(&chunks[middle], key) {
            high = middle;
        } else {
            low = middle;
        }
    }
    low
}

// Whether the first key of a chunk is above the key.
fn begins_above<K: Ord, V>(chunk: &Chunk<K, V>, key: &K) -> bool
    ensures { result ≡ begins_above K.cmp key.now (arc_value chunk.now).pairs }
{
    match chunk.entries().first() {
        Some(entry) => entry.0.cmp(key) == Ordering::Greater,
        None => false,
    }
}
