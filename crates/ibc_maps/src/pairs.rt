//! The pairs of a map, one after another.

ghost use Rattle.std.specs.Prelude.{◌≡◌, ◌++◌};
ghost use Rattle.std.specs.List.{AllByRecursion};
ghost use Rattle.std.specs.Iterator.{YieldsFirstBy, item_count};
ghost use Rattle.ibc_maps.specs.Chunks.{joined_chunks, HasPairs};
ghost use Rattle.ibc_maps.specs.Merging.{begins_below, behind_key};

use crate::chunk::Chunk;
use std::cmp::{Ord, Ordering};
use std::marker::Model;

/// The pairs of chunks that are still to come.
#[derive(Drop, Debug)]
pub struct ChunkPairs<'m, K: Ord, V> {
    pub(crate) pairs: &'m [(K, V)],
    pub(crate) chunks: &'m [Chunk<K, V>],
}

impl<'m, K: Ord, V> Model for ChunkPairs<'m, K, V> {
    ghost use Rattle.std.specs.Prelude.{◌++◌};
    ghost use Rattle.std.specs.Coded.{coded_list, coded×};
    ghost use Rattle.ibc_ids.specs.Maps.{Map};
    ghost use Rattle.ibc_maps.specs.Chunks.{joined_chunks};
    ghost use Rattle.ibc_maps.specs.Merging.{ShowsFirst};

    ghost Value = { Map K V };

    ghost coded = { coded_list (coded× K.code V.code) };

    ghost view = { λ rest. rest.pairs.now ++ joined_chunks rest.chunks.now };

    ghost invariant = { λ rest. ShowsFirst rest.pairs.now rest.chunks.now };
}

impl<'m, K: Ord, V> ChunkPairs<'m, K, V> {
    /// Gives the next pair, or none, and goes on behind it.
    pub(crate) fn take(&mut self) -> Option<(&'m K, &'m V)>
        ensures { YieldsFirstBy (λ pair. (pair.0.now, pair.1.now)) (λ rest. rest) self.old result self.new }
    {
        let (pair, pairs) = self.pairs.split_first()?;
        *self = front(pairs, self.chunks);
        Some((&pair.0, &pair.1))
    }

    /// Whether the next pair is below a key. One that has the key is passed.
    pub(crate) fn begins_below(&mut self, key: &K) -> bool
        ensures below { result ≡ begins_below K.cmp key.now self.old }
        ensures passed { self.new ≡ behind_key K.cmp key.now self.old }
    {
        let Some((pair, pairs)) = self.pairs.split_first() else {
            return false;
        };
        let order = key.cmp(&pair.0);
        if order == Ordering::Equal {
            *self = front(pairs, self.chunks);
        }
        order == Ordering::Greater
    }
}

// These pairs and those of the chunks.
fn front<'m, K: Ord, V>(pairs: &'m [(K, V)], chunks: &'m [Chunk<K, V>]) -> ChunkPairs<'m, K, V>
    requires { AllByRecursion HasPairs chunks.now }
    ensures { result ≡ pairs.now ++ joined_chunks chunks.now }
{
    if !pairs.is_empty() {
        return ChunkPairs { pairs, chunks };
    }
    match chunks.split_first() {
        Some((chunk, chunks)) => ChunkPairs {
            pairs: chunk.entries(),
            chunks,
        },
        None => ChunkPairs { pairs, chunks },
    }
}

/// The pairs of a map that are still to come, in the order of their keys.
#[derive(Drop, Debug)]
pub struct Pairs<'m, K: Ord, V> {
    pub(crate) changes: &'m [(K, Option<V>)],
    pub(crate) settled: ChunkPairs<'m, K, V>,
}

impl<'m, K: Ord, V> Model for Pairs<'m, K, V> {
    ghost use Rattle.ibc_maps.specs.Chunks.{TiesAreSame};
    ghost use Rattle.std.specs.Coded.{coded_list, coded×};
    ghost use Rattle.ibc_ids.specs.Maps.{Map};
    ghost use Rattle.ibc_maps.specs.Changes.{with_changes};
    ghost use Rattle.ibc_maps.specs.SettledPairs.{AreSettledSorted};

    ghost Value = { Map K V };

    ghost coded = { coded_list (coded× K.code V.code) };

    ghost view = { λ rest. with_changes K.cmp rest.changes.now rest.settled };

    ghost invariant = { λ rest. AreSettledSorted K.cmp rest.changes.now rest.settled × TiesAreSame K.cmp };
}

impl<'m, K: Ord, V> Iterator for Pairs<'m, K, V> {
    type Item = (&'m K, &'m V);

    ghost next_gives = { YieldsFirstBy (λ pair. (pair.0.now, pair.1.now)) (λ rest. rest) };

    ghost remaining = { item_count (λ rest. rest) };

    fn next(&mut self) -> Option<(&'m K, &'m V)> {
        while let Some((change, changes)) = self.changes.split_first() {
            if self.settled.begins_below(&change.0) {
                return self.settled.take();
            }
            self.changes = changes;
            if let Some(value) = &change.1 {
                return Some((&change.0, value));
            }
        }
        self.settled.take()
    }
}
