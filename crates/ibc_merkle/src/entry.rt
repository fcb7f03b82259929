//! A pair of a map that trees are made of.

ghost use Rattle.std.specs.Prelude.{◌≡◌};

use ibc_ids::Bytes;
use std::alloc::AllocError;
use std::marker::Model;

/// A key and its value. Contracts see the pair of both.
#[derive(Drop, Debug)]
pub struct KeyValue {
    key: Bytes,
    value: Bytes,
}

impl Model for KeyValue {
    ghost use Rattle.std.specs.Prelude.{ℕ, List};

    ghost Value = { List ℕ × List ℕ };

    ghost view = { λ entry. (entry.key, entry.value) };
}

impl KeyValue {
    /// A pair of a key and a value, which are moved in.
    pub fn new(key: Bytes, value: Bytes) -> KeyValue
        ensures { result ≡ (key, value) }
    {
        KeyValue { key, value }
    }

    /// The key.
    pub fn key(&self) -> &[u8]
        ensures { result.now ≡ self.now.0 }
    {
        self.key.as_slice()
    }

    /// The value.
    pub fn value(&self) -> &[u8]
        ensures { result.now ≡ self.now.1 }
    {
        self.value.as_slice()
    }

    /// Puts another value in the place of the value, and keeps the key.
    pub fn set_value(&mut self, value: Bytes)
        ensures { self.new ≡ (self.old.0, value) }
    {
        self.value = value;
    }
}

impl Clone for KeyValue {
    ghost is_clone = { λ entry copy. copy ≡ entry };

    fn clone(&self) -> Result<KeyValue, AllocError> {
        Ok(KeyValue {
            key: self.key.clone()?,
            value: self.value.clone()?,
        })
    }
}
