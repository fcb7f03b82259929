//! Memory for pairs, made beforehand.

ghost use Rattle.std.specs.Prelude.{◌≡◌, ◌+◌, ◌≤◌, ◌<◌, IfOk, IsOk, OnOk, vec_len};

use ibc_forest::{SharedEntry, SpareEntry};
use ibc_merkle::KeyValue;
use std::alloc::{AllocError, Global};
use std::marker::Model;

/// Memory for pairs, for where no other is to be had. Contracts see for how many pairs it is.
#[derive(Drop, Debug)]
pub struct Spare {
    places: Vec<SpareEntry>,
}

impl Model for Spare {
    ghost use Rattle.std.specs.Prelude.{ℕ, vec_len};

    ghost Value = { ℕ };

    ghost view = { λ spare. vec_len spare.places };
}

impl Spare {
    /// Memory for no pair.
    pub fn none(alloc: Global) -> Spare
        ensures { result ≡ 0 }
    {
        Spare {
            places: Vec::new(alloc),
        }
    }

    /// Makes memory until it is for so many pairs.
    pub fn fill(&mut self, pairs: usize) -> Result<(), AllocError>
        ensures more { self.old ≤ self.new }
        ensures ok { OnOk result (pairs ≤ self.new) }
    {
        fill(&mut self.places, pairs)
    }

    /// A pair that can be shared; where there is no memory for that, it is put into what was made beforehand.
    pub fn share(&mut self, entry: KeyValue) -> Result<SharedEntry, AllocError>
        ensures pair { IfOk result (λ shared. shared ≡ entry) }
        ensures reserved { 0 < self.old → IsOk result }
        ensures rest { self.old ≤ self.new + 1 }
    {
        let alloc = *self.places.allocator();
        match SharedEntry::new(alloc, entry) {
            Ok(shared) => Ok(shared),
            Err(entry) => match self.places.pop() {
                Some(place) => Ok(place.filled(entry)),
                None => Err(AllocError),
            },
        }
    }
}

// Makes memory for pairs until there are so many places.
fn fill(places: &mut Vec<SpareEntry>, pairs: usize) -> Result<(), AllocError>
    ensures more { vec_len places.old ≤ vec_len places.new }
    ensures ok { OnOk result (pairs ≤ vec_len places.new) }
{
    let alloc = *places.allocator();
    for made in places.len()..pairs {
        let place = SpareEntry::new(alloc)?;
        places.push(place)?;
    }
    Ok(())
}
