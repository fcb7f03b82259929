//! What stands before a child's hash, and behind it.

ghost use Rattle.std.specs.Prelude.{◌≡◌, ◌≤◌, length, bytes_eq, IsOk, IfOk};
ghost use Rattle.std.specs.Cmp.{on_equiv, on_per, partial_equiv_from_equiv};
ghost use Rattle.std.specs.Cmp.Lexicographic.{nat_list_eq_equiv};

use std::alloc::{AllocError, Global};
use std::fmt;
use std::marker::Model;

/// The most bytes that stand in the value itself: a mark and a hash.
const IN_PLACE: usize = 33;

// Where the bytes stand.
#[derive(Drop)]
enum AffixStorage {
    /// In the value: the first so many of these.
    Here(u8, [u8; IN_PLACE]),
    /// In an allocation.
    Away(Vec<u8>),
}

/// The prefix of a leaf, or the prefix or suffix of an operation (ICS 23, "LeafOp" and "InnerOp"). At most 33 bytes, a
/// mark and a hash, stand in the value, and more in an allocation. Contracts see them as a list.
#[derive(Drop)]
pub struct Affix {
    place: AffixStorage,
}

impl Model for Affix {
    ghost use Rattle.std.specs.Prelude.{List, ℕ};

    ghost Value = { List ℕ };

    ghost use Rattle.ibc_merkle.specs.Affixes.{text_at, IsSound};

    ghost view = { λ affix. text_at affix.place };

    ghost invariant = { λ affix. IsSound affix.place };
}

impl Affix {
    /// A copy of at most 33 bytes. It takes no memory.
    pub fn short(bytes: &[u8]) -> Affix
        requires { length bytes.now ≤ 33 }
        ensures { result ≡ bytes.now }
    {
        let mut held = [0; IN_PLACE];
        held[..bytes.len()].copy_from_slice(bytes);
        Affix {
            place: AffixStorage::Here(bytes.len() as u8, held),
        }
    }

    /// A copy of the bytes. `AllocError` where a growth is refused, which at most 33 bytes don't ask for.
    pub fn copy_of(alloc: Global, bytes: &[u8]) -> Result<Affix, AllocError>
        ensures ok { IfOk result (λ copy. copy ≡ bytes.now) }
        ensures short { length bytes.now ≤ 33 → IsOk result }
    {
        if bytes.len() <= IN_PLACE {
            return Ok(Affix::short(bytes));
        }
        Ok(Affix {
            place: AffixStorage::Away(bytes.to_vec(alloc)?),
        })
    }

    /// The bytes.
    pub fn as_slice(&self) -> &[u8]
        ensures { result.now ≡ self.now }
    {
        match &self.place {
            AffixStorage::Here(count, bytes) => &bytes[..usize::from(*count)],
            AffixStorage::Away(bytes) => bytes.as_slice(),
        }
    }
}

impl PartialEq for Affix {
    ghost eq = { λ a b. bytes_eq a b };

    ghost laws = { on_per (λ a. a) (partial_equiv_from_equiv nat_list_eq_equiv) };

    fn eq(&self, other: &Affix) -> bool {
        self.as_slice() == other.as_slice()
    }
}

impl Eq for Affix {
    ghost laws = { on_equiv (λ a. a) nat_list_eq_equiv };
}

impl fmt::Debug for Affix {
    fn fmt<W: fmt::Write>(&self, f: &mut fmt::Formatter<W>) -> fmt::Result {
        f.debug_list().entries(self.as_slice()).finish()
    }
}
