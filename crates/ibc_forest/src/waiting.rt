//! Places of a row whose nodes are still to be made.

ghost use Rattle.std.specs.Prelude.{◌≡◌, ◌<◌, ◌≤◌, ◌∷◌, ◌++◌, [], length, true, false};

use std::marker::Model;

/// Up to four places of a row, as many as there are lanes, whose nodes are still to be made. Contracts see the places, in the
/// order in which they came.
#[derive(Drop, Debug)]
pub struct Waiting {
    places: [usize; 4],
    count: usize,
}

impl Model for Waiting {
    ghost use Rattle.std.specs.Prelude.{◌≤◌, ℕ, List, take};

    ghost Value = { List ℕ };

    ghost view = { λ waiting. take waiting.count waiting.places };

    ghost invariant = { λ waiting. waiting.count ≤ 4 };
}

impl Waiting {
    /// No place.
    pub fn new() -> Waiting
        ensures { result ≡ [] }
    {
        Waiting {
            places: [0; 4],
            count: 0,
        }
    }

    /// The places.
    pub fn places(&self) -> &[usize]
        ensures places { result.now ≡ self.now }
        ensures few { length self.now ≤ 4 }
    {
        &self.places[..self.count]
    }

    /// Whether four places wait.
    pub fn is_full(&self) -> bool
        ensures full { result ≡ true → length self.now ≡ 4 }
        ensures room { result ≡ false → length self.now < 4 }
    {
        self.count == self.places.len()
    }

    /// One place more.
    pub fn push(&mut self, place: usize)
        requires { length self.old < 4 }
        ensures { self.new ≡ self.old ++ place ∷ [] }
    {
        self.places[self.count] = place;
        self.count += 1;
    }

    /// No place waits any more.
    pub fn clear(&mut self)
        ensures { self.new ≡ [] }
    {
        self.count = 0;
    }
}
