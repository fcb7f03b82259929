//! Pairs that a map shares with its trees.

ghost use Rattle.std.specs.Prelude.{◌≡◌, IfOk, IsOkUnless};
ghost use Rattle.std.specs.Arc.{arc_value};

use ibc_ids::Bytes;
use ibc_merkle::KeyValue;
use std::alloc::{AllocError, Global};
use std::marker::Model;
use std::sync::Arc;

/// How a pair is held: by all that share it, or by one alone.
#[derive(Drop, Debug)]
pub enum Hold {
    /// by all that share it
    Shared(Arc<KeyValue>),
    /// by one alone
    Own(Box<KeyValue>),
}

/// A pair of a key and its value, which has its memory in common with its clones. Only in memory that was made beforehand
/// it has none in common. Contracts see the pair.
#[derive(Drop, Debug)]
pub struct SharedEntry {
    hold: Hold,
}

impl Model for SharedEntry {
    ghost use Rattle.std.specs.Prelude.{ℕ, List};
    ghost use Rattle.ibc_forest.specs.StoredPairs.{stored_pair};

    ghost Value = { List ℕ × List ℕ };

    ghost view = { λ entry. stored_pair entry.hold };
}

impl SharedEntry {
    /// A pair that can be shared. Where memory is refused, the pair is handed back.
    pub fn new(alloc: Global, entry: KeyValue) -> Result<SharedEntry, KeyValue>
        ensures ok { IfOk result (λ shared. shared ≡ entry) }
        ensures err { IsOkUnless result entry }
    {
        match Arc::new(alloc, entry) {
            Ok(shared) => Ok(SharedEntry {
                hold: Hold::Shared(shared),
            }),
            Err(failed) => Err(failed.value),
        }
    }

    /// The key.
    pub fn key(&self) -> &[u8]
        ensures { result.now ≡ self.now.0 }
    {
        match &self.hold {
            Hold::Shared(entry) => entry.key(),
            Hold::Own(entry) => entry.key(),
        }
    }

    /// The value.
    pub fn value(&self) -> &[u8]
        ensures { result.now ≡ self.now.1 }
    {
        match &self.hold {
            Hold::Shared(entry) => entry.value(),
            Hold::Own(entry) => entry.value(),
        }
    }

    /// Whether its clones take no memory.
    pub(crate) fn is_shared(&self) -> bool {
        matches!(self.hold, Hold::Shared(_))
    }

    // The pair for one more to share, or a copy of it where one alone holds it.
    fn shared(&self) -> Result<Arc<KeyValue>, AllocError>
        ensures { IfOk result (λ shared. arc_value shared ≡ self.now) }
    {
        match &self.hold {
            Hold::Shared(entry) => Arc::try_clone(entry),
            Hold::Own(entry) => {
                let copy = entry.as_ref().clone()?;
                Ok(Arc::new(*Box::allocator(entry), copy)?)
            }
        }
    }
}

impl Clone for SharedEntry {
    ghost is_clone = { λ entry copy. copy ≡ entry };

    fn clone(&self) -> Result<SharedEntry, AllocError> {
        Ok(SharedEntry {
            hold: Hold::Shared(self.shared()?),
        })
    }
}

/// Memory for a pair, made before there is one.
#[derive(Drop, Debug)]
pub struct SpareEntry {
    place: Box<KeyValue>,
}

impl SpareEntry {
    /// Memory for a pair.
    pub fn new(alloc: Global) -> Result<SpareEntry, AllocError> {
        let key = Bytes::from_vec(Vec::new(alloc));
        let value = Bytes::from_vec(Vec::new(alloc));
        let place = Box::new(alloc, KeyValue::new(key, value))?;
        Ok(SpareEntry { place })
    }

    /// A pair in this memory, which no other one has in common with it.
    pub fn filled(self, entry: KeyValue) -> SharedEntry
        ensures { result ≡ entry }
    {
        let mut place = self.place;
        *place = entry;
        SharedEntry {
            hold: Hold::Own(place),
        }
    }
}
