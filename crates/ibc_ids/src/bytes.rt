//! Bytes of any kind.

ghost use Rattle.std.specs.Prelude.{◌≡◌, List, ℕ, IfOk, bytes_eq};
ghost use Rattle.std.specs.Cmp.{on_equiv, on_per, partial_equiv_from_equiv};
ghost use Rattle.std.specs.Cmp.Lexicographic.{nat_list_eq_equiv};

use std::alloc::{AllocError, Global};
use std::marker::Model;

/// Bytes of any kind, as a payload or a proof. Contracts see them as a list.
#[derive(Drop, Debug)]
pub struct Bytes {
    items: Vec<u8>,
}

impl Model for Bytes {
    ghost Value = { List ℕ };

    ghost view = { λ bytes. bytes.items.items };
}

impl Bytes {
    /// The bytes of a vector, which is moved in.
    pub fn from_vec(items: Vec<u8>) -> Bytes
        ensures { result ≡ items.items }
    {
        Bytes { items }
    }

    /// A copy of the bytes.
    pub fn copy_of(alloc: Global, bytes: &[u8]) -> Result<Bytes, AllocError>
        ensures { IfOk result (λ copy. copy ≡ bytes.now) }
    {
        Ok(Bytes {
            items: bytes.to_vec(alloc)?,
        })
    }

    /// The bytes.
    pub fn as_slice(&self) -> &[u8]
        ensures { result.now ≡ self.now }
    {
        self.items.as_slice()
    }
}

impl Clone for Bytes {
    ghost is_clone = { λ bytes copy. copy ≡ bytes };

    fn clone(&self) -> Result<Bytes, AllocError> {
        Ok(Bytes {
            items: self.items.clone()?,
        })
    }
}

impl PartialEq for Bytes {
    ghost eq = { λ a b. bytes_eq a b };

    ghost laws = { on_per (λ a. a) (partial_equiv_from_equiv nat_list_eq_equiv) };

    fn eq(&self, other: &Bytes) -> bool {
        self.as_slice() == other.as_slice()
    }
}

impl Eq for Bytes {
    ghost laws = { on_equiv (λ a. a) nat_list_eq_equiv };
}
