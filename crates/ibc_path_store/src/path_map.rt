//! A map from paths to values, in the order of the paths.

ghost use Rattle.std.specs.Prelude.{◌≡◌, ◌+◌, ◌≤◌, ◌<◌, [], false, length, Some, IsTrue, IsOk, OnOk, OnErr, option_map, string_bytes};
ghost use Rattle.std.specs.FinMap.{is_sorted};
ghost use Rattle.ibc_ids.specs.Texts.{text_cmp};
ghost use Rattle.ibc_ids.specs.Maps.{at, with, without};
ghost use Rattle.ibc_path_store.specs.GapChanges.{Shares, KeepsShared};
ghost use Rattle.ibc_path_store.specs.Waiting.{AreFew};

use crate::in_order::InOrder;
use crate::rows::{Position, find, merge, without_row};
use crate::spare::Spare;
use crate::touched::Touched;
use ibc_forest::{Gap, SharedEntry};
use ibc_ids::Bytes;
use ibc_merkle::KeyValue;
use std::alloc::{AllocError, Global};
use std::fmt;
use std::marker::Model;

/// A map from paths to values, which shares its pairs with the trees over them, and in which room can be made beforehand.
/// A new path waits behind the others, so that a set moves only the pairs that wait, until they are merged. They are never many.
#[derive(Drop)]
pub struct PathMap {
    entries: Vec<SharedEntry>,
    settled: usize,
    spare: Spare,
    touched: Touched,
}

impl Model for PathMap {
    ghost use Rattle.std.specs.Prelude.{◌-◌, min, vec_len, vec_capacity};
    ghost use Rattle.ibc_path_store.specs.StoreModel.{PathMapModel};
    ghost use Rattle.ibc_path_store.specs.Waiting.{settled_pairs, AreRows};

    ghost Value = { PathMapModel };

    ghost view = { λ map. record {
      pairs = settled_pairs map.settled map.entries.items;
      waiting = vec_len map.entries - map.settled;
      room = min (vec_capacity map.entries - vec_len map.entries) map.spare;
      touched = map.touched;
    } };

    ghost invariant = { λ map. AreRows map.settled map.entries.items };
}

impl PathMap {
    /// An empty map.
    pub fn new(alloc: Global) -> PathMap
        ensures pairs { result.pairs ≡ [] }
        ensures waiting { result.waiting ≡ 0 }
        ensures touched { result.touched ≡ Some [] }
    {
        PathMap {
            entries: Vec::new(alloc),
            settled: 0,
            spare: Spare::none(alloc),
            touched: Touched::none(alloc),
        }
    }

    /// The paths strictly rise in byte order.
    pub fn lemma_pairs_sorted(&self)
        ensures { IsTrue (is_sorted text_cmp self.now.pairs) }
    {
        let _entries = &self.entries;
    }

    /// Makes room for this many paths more.
    pub fn reserve(&mut self, paths: usize) -> Result<(), AllocError>
        ensures same { self.new ≡ record self.old { room = self.new.room } }
        ensures room { self.old.room ≤ self.new.room }
        ensures ok { OnOk result (paths ≤ self.new.room) }
    {
        self.entries.reserve(paths)?;
        self.spare.fill(paths)
    }

    /// Sets the value of a path. With room it is not refused, and a refusal leaves the pairs.
    pub fn set(&mut self, path: String, value: Bytes) -> Result<(), AllocError>
        ensures ok { OnOk result (self.new.pairs ≡ with text_cmp (string_bytes path) value self.old.pairs) }
        ensures reserved { 0 < self.old.room → IsOk result }
        ensures room { self.old.room ≤ self.new.room + 1 }
        ensures err { OnErr result (self.new.pairs ≡ self.old.pairs) }
        ensures shares { KeepsShared self.old self.new }
        ensures few { AreFew self.new.waiting (length self.new.pairs) }
    {
        let outcome = self.put(path, value);
        self.merge_many();
        outcome
    }

    // Sets the value of a path. A new one waits.
    fn put(&mut self, path: String, value: Bytes) -> Result<(), AllocError>
        ensures ok { OnOk result (self.new.pairs ≡ with text_cmp (string_bytes path) value self.old.pairs) }
        ensures reserved { 0 < self.old.room → IsOk result }
        ensures room { self.old.room ≤ self.new.room + 1 }
        ensures err { OnErr result (self.new.pairs ≡ self.old.pairs) }
        ensures shares { KeepsShared self.old self.new }
    {
        let key = Bytes::from_vec(path.into_bytes());
        match find(self.entries.as_slice(), self.settled, key.as_slice()) {
            Ok(Position { row, index }) => {
                let entry = self.spare.share(KeyValue::new(key, value))?;
                self.entries[row] = entry;
                self.touched.touch(index, 1, 1);
                Ok(())
            }
            Err(Position { row, index }) => {
                let entry = self.spare.share(KeyValue::new(key, value))?;
                self.entries.insert(row, entry)?;
                self.touched.touch(index, 0, 1);
                Ok(())
            }
        }
    }

    // Puts the pairs that wait in their places where they are many, so that neither an insert nor a merge moves more than
    // some few times the root of their number for each.
    #[tactic(auto, using(crate::proofs::Merging::rows_counted))]
    fn merge_many(&mut self)
        ensures same { self.new ≡ record self.old { waiting = self.new.waiting } }
        ensures few { AreFew self.new.waiting (length self.new.pairs) }
    {
        let pairs = self.entries.len();
        if are_many(pairs - self.settled, pairs) {
            self.merge();
        }
    }

    /// The value of a path, or none.
    pub fn get(&self, path: &str) -> Option<&[u8]>
        ensures { option_map (λ value. value.now) result ≡ at text_cmp path.now self.now.pairs }
    {
        match find(self.entries.as_slice(), self.settled, path.as_bytes()) {
            Ok(place) => Some(self.entries[place.row].value()),
            Err(_) => None,
        }
    }

    /// Removes a path and its value, if it is there.
    pub fn remove(&mut self, path: &str)
        ensures pairs { self.new.pairs ≡ without text_cmp path.now self.old.pairs }
        ensures room { self.old.room ≤ self.new.room }
        ensures shares { KeepsShared self.old self.new }
        ensures few { AreFew self.new.waiting (length self.new.pairs) }
    {
        self.take_out(path);
        self.merge_many();
    }

    // Takes out a path and its value, if it is there. Then as many wait as before, or one fewer, of fewer pairs.
    fn take_out(&mut self, path: &str)
        ensures pairs { self.new.pairs ≡ without text_cmp path.now self.old.pairs }
        ensures room { self.old.room ≤ self.new.room }
        ensures shares { KeepsShared self.old self.new }
    {
        if let Ok(Position { row, index }) = find(
            self.entries.as_slice(),
            self.settled,
            path.as_bytes(),
        ) {
            self.entries.remove(row);
            self.settled = without_row(self.settled, row);
            self.touched.touch(index, 1, 0);
        }
    }

    /// Begins to note anew where it is touched.
    pub fn settle(&mut self)
        ensures same { self.new ≡ record self.old { touched = Some [] } }
        ensures shares { Shares self.new.touched self.old.pairs self.new.pairs }
    {
        self.touched.clear();
    }

    /// The gaps in which the map was touched since it was settled, or none where there was no memory to note them.
    pub fn gaps(&self) -> Option<&[Gap]>
        ensures { option_map (λ gaps. gaps.now) result ≡ self.now.touched }
    {
        self.touched.gaps()
    }

    /// Puts the pairs that wait in their places.
    pub fn merge(&mut self)
        ensures { self.new ≡ record self.old { waiting = 0 } }
    {
        merge(self.entries.as_mut_slice(), self.settled);
        self.settled = self.entries.len();
    }

    /// The pairs, of which none waits; their keys strictly rise in byte order.
    pub fn entries(&self) -> &[SharedEntry]
        requires { self.now.waiting ≡ 0 }
        ensures pairs { result.now ≡ self.now.pairs }
        ensures sorted { IsTrue (is_sorted text_cmp result.now) }
    {
        self.entries.as_slice()
    }
}

impl fmt::Debug for PathMap {
    // The pairs in the order of their keys, also while some wait.
    fn fmt<W: fmt::Write>(&self, f: &mut fmt::Formatter<W>) -> fmt::Result {
        let (placed, waiting) = self.entries.as_slice().split_at(self.settled);
        f.debug_struct("PathMap")
            .field("entries", &InOrder::new(placed, waiting))
            .field("spare", &self.spare)
            .field("touched", &self.touched)
            .finish()
    }
}

// Whether so many pairs that wait are more than twice the root of the number of all.
fn are_many(waiting: usize, pairs: usize) -> bool
    ensures { result ≡ false → AreFew waiting pairs }
{
    let square = (waiting as u128) * (waiting as u128);
    square / 4 > pairs as u128
}
