//! Numbers that look random, and are the same in each run.

ghost use Rattle.std.specs.Prelude.{◌≡◌, ◌<◌, ◌%◌, ◌==◌, IfNone, IfSome, MatchOption, OnSome};
ghost use Rattle.rand_core.specs.Stream.{next_u64};
ghost use Rattle.rand_xoshiro.specs.SplitMix64.{splitmix_seed};
ghost use Rattle.rand_xoshiro.specs.Xoshiro256.{of_seed};
ghost use Rattle.ibc_random_scripts.specs.Draws.{answers};

use rand_core::{Rng, SeedableRng};
use rand_xoshiro::Xoshiro256PlusPlus;
use std::marker::Model;

/// The numbers that the generator xoshiro256++ makes of a seed.
#[derive(Drop)]
pub struct Draws {
    generator: Xoshiro256PlusPlus,
}

impl Model for Draws {
    ghost use Rattle.std.specs.Prelude.{ℕ, List};

    ghost Value = { List ℕ };

    ghost view = { λ draws. draws.generator };
}

impl Draws {
    /// Those of a seed.
    pub fn new(seed: u64) -> Draws
        ensures { result ≡ of_seed (splitmix_seed 32 seed) }
    {
        Draws {
            generator: Xoshiro256PlusPlus::seed_from_u64(seed),
        }
    }

    /// The next one.
    pub fn number(&mut self) -> u64
        ensures { (result, answers self.new) ≡ next_u64 (answers self.old) }
    {
        self.generator.next_u64()
    }

    /// The next one below a bound.
    pub fn below(&mut self, bound: u64) -> u64
        requires { 0 < bound }
        ensures below { result < bound }
        ensures value { result ≡ (next_u64 (answers self.old)).0 % bound }
        ensures rest { answers self.new ≡ (next_u64 (answers self.old)).1 }
    {
        self.number() % bound
    }

    /// A place in a list of so many items; none where it has none, and then no number is drawn.
    pub fn place(&mut self, count: usize) -> Option<usize>
        ensures within { MatchOption result (count ≡ 0) (λ place. place < count) }
        ensures value { IfSome result (λ place. place ≡ (next_u64 (answers self.old)).0 % count) }
        ensures rest { OnSome result (answers self.new ≡ (next_u64 (answers self.old)).1) }
        ensures same { IfNone result (self.new ≡ self.old) }
    {
        if count == 0 {
            return None;
        }
        Some(self.below(count as u64) as usize)
    }

    /// Whether what happens once in so many times happens now.
    pub fn is_one_in(&mut self, times: u64) -> bool
        requires { 0 < times }
        ensures value { result ≡ ((next_u64 (answers self.old)).0 % times == 0) }
        ensures rest { answers self.new ≡ (next_u64 (answers self.old)).1 }
    {
        self.below(times) == 0
    }

    /// One of some texts.
    pub fn one_of(&mut self, texts: &[&'static str]) -> &'static str {
        let Some(place) = self.place(texts.len()) else {
            return "";
        };
        match texts.get(place) {
            Some(text) => *text,
            None => "",
        }
    }
}
