//! One chunk of a row, which copies of the row share.

ghost use Rattle.std.specs.Prelude.{◌≡◌, ◌<◌, ◌∷◌, [], length, take, drop, OnOk, OnErr, IfOk};
ghost use Rattle.ibc_ids.specs.Maps.{with, without};
ghost use Rattle.ibc_maps.specs.Chunks.{CopiesAreSame, chunk_pairs};

use crate::SortedMap;
use std::alloc::{AllocError, Global};
use std::cmp::Ord;
use std::sync::Arc;

/// A chunk.
pub(crate) type Chunk<K, V> = Arc<SortedMap<K, V>, Global>;

/// A chunk with one pair.
pub(crate) fn first_chunk<K: Ord + Clone + Drop, V: Clone + Drop>(
    alloc: Global,
    key: K,
    value: V,
) -> Result<Chunk<K, V>, AllocError>
    ensures { IfOk result (λ chunk. chunk_pairs chunk ≡ (key, value) ∷ []) }
{
    let mut chunk = SortedMap::new(alloc);
    chunk.set(key, value)?;
    Ok(Arc::new(alloc, chunk)?)
}

/// Sets the value of a key in a chunk; a shared chunk is copied first. A refusal leaves the pairs.
pub(crate) fn set_in<K: Ord + Clone + Drop, V: Clone + Drop>(
    alloc: Global,
    chunk: &mut Chunk<K, V>,
    key: K,
    value: V,
) -> Result<(), AllocError>
    requires keys { CopiesAreSame K.is_clone }
    requires values { CopiesAreSame V.is_clone }
    ensures ok { OnOk result (chunk_pairs chunk.new ≡ with K.cmp key value (chunk_pairs chunk.old)) }
    ensures err { OnErr result (chunk_pairs chunk.new ≡ chunk_pairs chunk.old) }
{
    if let Some(own) = Arc::get_mut(chunk) {
        return own.set(key, value);
    }
    let mut own = chunk.copy()?;
    own.set(key, value)?;
    *chunk = Arc::new(alloc, own)?;
    Ok(())
}

/// Removes a key from a chunk; a shared chunk is copied first. A refusal leaves the pairs.
pub(crate) fn remove_in<K: Ord + Clone + Drop, V: Clone + Drop>(
    alloc: Global,
    chunk: &mut Chunk<K, V>,
    key: &K,
) -> Result<(), AllocError>
    requires keys { CopiesAreSame K.is_clone }
    requires values { CopiesAreSame V.is_clone }
    ensures ok { OnOk result (chunk_pairs chunk.new ≡ without K.cmp key.now (chunk_pairs chunk.old)) }
    ensures err { OnErr result (chunk_pairs chunk.new ≡ chunk_pairs chunk.old) }
{
    if let Some(own) = Arc::get_mut(chunk) {
        own.remove(key);
        return Ok(());
    }
    let mut own = chunk.copy()?;
    own.remove(key);
    *chunk = Arc::new(alloc, own)?;
    Ok(())
}

/// The first pairs of a chunk, so many, and the others, in two chunks.
pub(crate) fn halves<K: Ord + Clone + Drop, V: Clone + Drop>(
    alloc: Global,
    chunk: &Chunk<K, V>,
    count: usize,
) -> Result<(Chunk<K, V>, Chunk<K, V>), AllocError>
    requires count { count < length (chunk_pairs chunk.now) }
    requires keys { CopiesAreSame K.is_clone }
    requires values { CopiesAreSame V.is_clone }
    ensures low { IfOk result (λ halves. chunk_pairs halves.0 ≡ take count (chunk_pairs chunk.now)) }
    ensures high { IfOk result (λ halves. chunk_pairs halves.1 ≡ drop count (chunk_pairs chunk.now)) }
{
    let low = Arc::new(alloc, chunk.part(0, count)?)?;
    let high = Arc::new(alloc, chunk.part(count, chunk.len())?)?;
    Ok((low, high))
}
