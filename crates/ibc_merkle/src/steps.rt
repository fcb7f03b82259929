//! How many texts were hashed.

ghost use Rattle.std.specs.Prelude.{◌≡◌};
ghost use Rattle.ibc_merkle.specs.Hash.{one_more};

use std::marker::Model;

/// How many texts were hashed. Once at 2^64 - 1, it stays there.
#[derive(Drop, Debug)]
pub struct Steps {
    count: u64,
}

impl Model for Steps {
    ghost use Rattle.std.specs.Prelude.{ℕ};

    ghost Value = { ℕ };

    ghost view = { λ steps. steps.count };
}

impl Steps {
    /// No text yet.
    pub fn new() -> Steps
        ensures { result ≡ 0 }
    {
        Steps { count: 0 }
    }

    /// How many texts were hashed.
    pub fn count(&self) -> u64
        ensures { result ≡ self.now }
    {
        self.count
    }

    /// Counts a text, which the caller hashes.
    pub fn add(&mut self)
        ensures { self.new ≡ one_more self.old }
    {
        self.count = self.count.saturating_add(1);
    }
}
