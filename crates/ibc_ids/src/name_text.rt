//! Where the text of a name stands.

ghost use Rattle.std.specs.Prelude.{◌≡◌, ◌≤◌, length, string_bytes, IsOk, IfOk};
ghost use Rattle.std.specs.Str.{IsUtf8};

use std::alloc::{AllocError, Global};
use std::fmt;
use std::marker::Model;

// The most bytes of a text that stands in the value itself.
const IN_PLACE: usize = 30;

// Where the text stands.
#[derive(Drop)]
enum TextStorage {
    // In the value: the first so many of these.
    Here(u8, [u8; IN_PLACE]),
    // In an allocation.
    Away(String),
}

/// The text of a name. At most 30 bytes stand in the value, and more in an allocation. Contracts see it as its bytes.
#[derive(Drop)]
pub(crate) struct NameText {
    place: TextStorage,
}

impl Model for NameText {
    ghost use Rattle.std.specs.Prelude.{List, ℕ};

    ghost Value = { List ℕ };

    ghost use Rattle.ibc_ids.specs.Storage.{stored_text, IsText};

    ghost view = { λ text. stored_text text.place };

    ghost invariant = { λ text. IsText text.place };
}

impl NameText {
    // A copy of at most 30 bytes. It takes no memory.
    fn short(text: &str) -> NameText
        requires { length text.now ≤ 30 }
        ensures { result ≡ text.now }
    {
        let bytes = text.as_bytes();
        let mut places = [0; IN_PLACE];
        places[..bytes.len()].copy_from_slice(bytes);
        NameText {
            place: TextStorage::Here(bytes.len() as u8, places),
        }
    }

    /// A copy of the text. `AllocError` where a growth is refused, which at most 30 bytes don't ask for.
    pub(crate) fn copy_of(alloc: Global, text: &str) -> Result<NameText, AllocError>
        ensures ok { IfOk result (λ copy. copy ≡ text.now) }
        ensures short { length text.now ≤ 30 → IsOk result }
    {
        if text.len() <= IN_PLACE {
            return Ok(NameText::short(text));
        }
        Ok(NameText {
            place: TextStorage::Away(String::from_str(alloc, text)?),
        })
    }

    /// The text, which is moved in: its memory is given back where at most 30 bytes are in it.
    pub(crate) fn from_string(text: String) -> NameText
        ensures { result ≡ string_bytes text }
    {
        if text.len() <= IN_PLACE {
            return NameText::short(text.as_str());
        }
        NameText {
            place: TextStorage::Away(text),
        }
    }

    /// The text.
    pub(crate) fn as_str(&self) -> &str
        ensures { result.now ≡ self.now }
    {
        match &self.place {
            TextStorage::Here(count, places) => text_of(&places[..usize::from(*count)]),
            TextStorage::Away(text) => text.as_str(),
        }
    }
}

// The text that has these bytes, which aren't looked at.
fn text_of(bytes: &[u8]) -> &str
    requires { IsUtf8 bytes.now }
    ensures { result.now ≡ bytes.now }
{
    unsafe { str::from_utf8_unchecked(bytes) }
}

impl Clone for NameText {
    ghost is_clone = { λ text copy. copy ≡ text };

    fn clone(&self) -> Result<NameText, AllocError> {
        let place = match &self.place {
            TextStorage::Here(count, places) => TextStorage::Here(*count, *places),
            TextStorage::Away(text) => TextStorage::Away(text.clone()?),
        };
        Ok(NameText { place })
    }
}

impl fmt::Debug for NameText {
    fn fmt<W: fmt::Write>(&self, f: &mut fmt::Formatter<W>) -> fmt::Result {
        let text = self.as_str();
        fmt::Debug::fmt(&text, f)
    }
}
