//! Pairs in the order of their keys, though some wait.

ghost use Rattle.std.specs.Prelude.{◌≡◌};
ghost use Rattle.std.specs.Iterator.{YieldsFirstRef, item_count};
ghost use Rattle.ibc_path_store.specs.Waiting.{merged, waits_first};

use ibc_forest::SharedEntry;
use std::fmt;
use std::marker::Model;

/// The pairs of two rows that are still to come, in the order of their keys. Contracts see them merged.
#[derive(Drop)]
pub struct InOrder<'a> {
    placed: &'a [SharedEntry],
    waiting: &'a [SharedEntry],
}

impl<'a> Model for InOrder<'a> {
    ghost use Rattle.ibc_merkle.specs.Tree.{Pairs};
    ghost use Rattle.ibc_path_store.specs.Waiting.{merged};

    ghost Value = { Pairs };

    ghost view = { λ rest. merged rest.placed.now rest.waiting.now };
}

impl<'a> InOrder<'a> {
    /// The pairs in their places, with those that wait among them.
    pub fn new(placed: &'a [SharedEntry], waiting: &'a [SharedEntry]) -> InOrder<'a>
        ensures { result ≡ merged placed.now waiting.now }
    {
        InOrder { placed, waiting }
    }
}

// Whether the first pair that waits comes before those in their places.
fn waits_first(placed: &[SharedEntry], waiting: &[SharedEntry]) -> bool
    ensures { result ≡ waits_first placed.now waiting.now }
{
    match (placed.first(), waiting.first()) {
        (Some(placed), Some(waiting)) => !placed.key().cmp(waiting.key()).is_lt(),
        (placed, waiting) => placed.is_none() && waiting.is_some(),
    }
}

impl<'a> Iterator for InOrder<'a> {
    type Item = &'a SharedEntry;

    ghost next_gives = { YieldsFirstRef (λ rest. rest) };

    ghost remaining = { item_count (λ rest. rest) };

    #[tactic(auto, using(crate::proofs::Merging::waiting_comes, crate::proofs::Merging::placed_comes, crate::proofs::Merging::none_comes, crate::proofs::Merging::some_waits))]
    fn next(&mut self) -> Option<&'a SharedEntry> {
        if waits_first(self.placed, self.waiting) {
            let (first, others) = self.waiting.split_first()?;
            self.waiting = others;
            return Some(first);
        }
        let (first, others) = self.placed.split_first()?;
        self.placed = others;
        Some(first)
    }
}

impl fmt::Debug for InOrder<'_> {
    fn fmt<W: fmt::Write>(&self, f: &mut fmt::Formatter<W>) -> fmt::Result {
        f.debug_list()
            .entries(InOrder::new(self.placed, self.waiting))
            .finish()
    }
}
