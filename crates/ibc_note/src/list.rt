//! The notes of one channel.

ghost use Rattle.std.specs.Prelude.{◌≡◌, [], ◌∷◌, ◌++◌, IfOk, OnOk, OnErr};

use ibc_ids::Bytes;
use std::alloc::{AllocError, Global};
use std::marker::Model;

/// Notes in the order in which they came.
#[derive(Drop)]
pub struct NoteList {
    items: Vec<Bytes>,
}

impl Model for NoteList {
    ghost use Rattle.std.specs.Prelude.{List, ℕ};

    ghost Value = { List (List ℕ) };

    ghost view = { λ list. list.items.items };
}

impl NoteList {
    /// No note.
    pub fn new(alloc: Global) -> NoteList
        ensures { result ≡ [] }
    {
        NoteList {
            items: Vec::new(alloc),
        }
    }

    /// Adds a note at the end. A refusal leaves the notes.
    pub fn push(&mut self, note: Bytes) -> Result<(), AllocError>
        ensures ok { OnOk result (self.new ≡ self.old ++ note ∷ []) }
        ensures unchanged { OnErr result (self.new ≡ self.old) }
    {
        Ok(self.items.push(note)?)
    }

    /// The notes.
    pub fn as_slice(&self) -> &[Bytes]
        ensures { result.now ≡ self.now }
    {
        self.items.as_slice()
    }

    /// A copy of the notes.
    pub fn to_vec(&self) -> Result<Vec<Bytes>, AllocError>
        ensures { IfOk result (λ copy. copy.items ≡ self.now) }
    {
        self.items.clone()
    }
}
