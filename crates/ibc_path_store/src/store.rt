//! A store of records by path, with its committed heights.

ghost use Rattle.std.specs.Prelude.{◌≡◌, ◌⊎◌, ◌↔◌, ◌+◌, ◌-◌, ◌^◌, ◌≤◌, ◌<◌, ◌∷◌, ◌++◌, [], length, min, IsTrue, IsOk, OnOk, OnErr, IfSome, IfOk, IfErr, IsNone, None, option_map, IsOkUnless};
ghost use Rattle.std.specs.Option.{IsSomeAnd};
ghost use Rattle.ibc_ids.specs.Texts.{text_cmp};
ghost use Rattle.ibc_ids.specs.Maps.{at};
ghost use Rattle.ibc_ids.specs.Paths.{path};
ghost use Rattle.ibc_ids.specs.declared.refusal.Refusal.TheVariants.{NoMemory, NoConsensus, TimeBack};
ghost use Rattle.ibc_merkle.specs.Tree.{tree_root};
ghost use Rattle.std.specs.FinMap.{is_sorted};
ghost use Rattle.ibc_path_store.specs.StoreModel.{height_of, kept_at};
ghost use Rattle.ibc_path_store.specs.GapChanges.{Shares};
ghost use Rattle.ibc_path_store.specs.StoreChanges.{SetsPath, RemovesPath, Commits, StoreCountsNew, StoreHashesFew, StoreHashesPathsOnOk, IsKeptProof, IsKeptIndex};
ghost use Rattle.ibc_forest.specs.Commits.{CommitCountsNew, CommitHashesFew, CommitHashesPathsOnOk};

use crate::path_map::PathMap;
use crate::tree::CommittedTree;
use ibc_forest::Forest;
use ibc_ids::{Bytes, Key, Refusal, Root};
use ibc_merkle::Proof;
use std::alloc::{AllocError, Global};
use std::marker::Model;

/// A chain's provable records: a working map from paths to values, the working time, and of the committed heights the
/// last ones (ICS 24, "Provable store"; ICS 23, "CommitmentState"). Heights count from 1. A height has the map and the
/// time as they were when it was committed.
#[derive(Drop, Debug)]
pub struct Store {
    map: PathMap,
    time: u64,
    window: u64,
    gone: u64,
    forest: Forest,
}

impl Model for Store {
    ghost use Rattle.std.specs.Prelude.{◌≤◌, length};
    ghost use Rattle.ibc_path_store.specs.StoreModel.{StoreModel};
    ghost use Rattle.ibc_path_store.specs.GapChanges.{Shares};

    ghost Value = { StoreModel };

    ghost view = { λ store. record {
      pairs = store.map.pairs;
      room = store.map.room;
      time = store.time;
      window = store.window;
      gone = store.gone;
      kept = store.forest.kept;
      hashed = record { last = store.forest.last; digests = store.forest.digests };
    } };

    ghost invariant = { λ store. (length store.forest.kept ≤ store.window) × Shares store.map.touched store.forest.last store.map.pairs };
}

impl Store {
    /// A store with no path and no committed height, whose working time is the given one. It keeps the last `window`
    /// heights.
    pub fn new(alloc: Global, window: u64, time: u64) -> Store
        ensures pairs { result.pairs ≡ [] }
        ensures time { result.time ≡ time }
        ensures window { result.window ≡ window }
        ensures gone { result.gone ≡ 0 }
        ensures kept { result.kept ≡ [] }
        ensures hashed { result.hashed ≡ record { last = []; digests = 0 } }
    {
        Store {
            map: PathMap::new(alloc),
            time,
            window,
            gone: 0,
            forest: Forest::new(alloc),
        }
    }

    /// The last committed height, 0 if there is none, and never above 2^64 - 1.
    pub fn height(&self) -> u64
        ensures { result ≡ min (height_of self.now) (2 ^ 64 - 1) }
    {
        self.gone.saturating_add(self.forest.heights() as u64)
    }

    /// How many texts were counted for all accepted commits, and never above 2^64 - 1. A refused commit doesn't count, nor does
    /// anything else.
    pub fn digests(&self) -> u64
        ensures { result ≡ self.now.hashed.digests }
    {
        self.forest.digests()
    }

    /// The working time.
    pub fn time(&self) -> u64
        ensures { result ≡ self.now.time }
    {
        self.time
    }

    /// The paths strictly rise in byte order, and so do those of the last commit.
    pub fn lemma_pairs_sorted(&self)
        ensures pairs { IsTrue (is_sorted text_cmp self.now.pairs) }
        ensures last { IsTrue (is_sorted text_cmp self.now.hashed.last) }
    {
        self.map.lemma_pairs_sorted();
        self.forest.lemma_last_sorted();
    }

    /// Makes room for so many paths more: as many `set`s are not refused. `NoMemory` where a growth is refused.
    pub fn reserve(&mut self, paths: usize) -> Result<(), Refusal>
        ensures same { self.new ≡ record self.old { room = self.new.room } }
        ensures room { self.old.room ≤ self.new.room }
        ensures ok { OnOk result (paths ≤ self.new.room) }
        ensures err { IsOkUnless result NoMemory }
    {
        Ok(self.map.reserve(paths)?)
    }

    /// Sets the value of a path in the working map; both are moved in. `NoMemory` where a growth is refused, which is
    /// never so with room; the map is then as before.
    pub fn set(&mut self, path: String, value: Bytes) -> Result<(), Refusal>
        ensures ok { OnOk result (SetsPath path value self.old self.new) }
        ensures reserved { 0 < self.old.room → IsOk result }
        ensures room { self.old.room ≤ self.new.room + 1 }
        ensures err { IsOkUnless result NoMemory }
        ensures unchanged { OnErr result (self.new ≡ record self.old { room = self.new.room }) }
    {
        Ok(self.map.set(path, value)?)
    }

    /// The value of a path in the working map, or none.
    pub fn get(&self, path: &str) -> Option<&[u8]>
        ensures { option_map (λ value. value.now) result ≡ at text_cmp path.now self.now.pairs }
    {
        self.map.get(path)
    }

    /// Removes a path and its value from the working map, if it is there.
    pub fn remove(&mut self, path: &str)
        ensures pairs { RemovesPath path.now self.old self.new }
        ensures room { self.old.room ≤ self.new.room }
    {
        self.map.remove(path);
    }

    /// Commits the working map and the working time as the next height, answers the root of the map's tree (ICS 23,
    /// "CommitmentRoot"), and begins a block of the time `next_time`. `TimeBack` where `next_time` is below the working
    /// time; `NoMemory` where a growth is refused. A refusal leaves the store. Of n pairs, of which the last commit doesn't have k,
    /// at least `2k` texts are counted and at most `2k + n - 1`, and where the keys are those of the last commit at most
    /// `2k + k * ceil(log2 n)`.
    pub fn commit(&mut self, next_time: u64) -> Result<Root, Refusal>
        requires { 0 < length self.old.pairs }
        ensures root { IfOk result (λ root. root ≡ tree_root self.old.pairs) }
        ensures ok { OnOk result (Commits next_time self.old self.new) }
        ensures last { OnOk result (self.new.hashed.last ≡ self.old.pairs) }
        ensures more { self.old.hashed.digests ≤ self.new.hashed.digests }
        ensures counts { OnOk result (StoreCountsNew self.old self.new) }
        ensures few { OnOk result (StoreHashesFew self.old self.new) }
        ensures same { StoreHashesPathsOnOk self.old self.new result }
        ensures size { OnOk result (length self.old.pairs < 2 ^ 64) }
        ensures time_back { (result ≡ Err TimeBack) ↔ (next_time < self.old.time) }
        ensures err { IfErr result (λ refusal. (refusal ≡ TimeBack) ⊎ (refusal ≡ NoMemory)) }
        ensures unchanged { OnErr result (self.new ≡ self.old) }
    {
        if next_time < self.time {
            return Err(Refusal::TimeBack);
        }
        self.map.merge();
        let root = commit_map(&mut self.forest, &self.map, self.time)?;
        self.map.settle();
        self.time = next_time;
        if self.forest.heights() as u64 > self.window {
            self.forest.forget_first();
            self.gone = self.gone.saturating_add(1);
        }
        Ok(root)
    }

    /// The proof of what a committed height has at the path of a key: of its presence where it is there, and of its
    /// absence where not (ICS 23, "CommitmentProof"). `NoConsensus` where the height isn't committed or is gone from the
    /// window, `NoMemory` where a growth is refused.
    pub fn prove(&self, height: u64, key: &Key) -> Result<Proof, Refusal>
        ensures ok { IfOk result (λ proof. IsKeptProof self.now height key.now proof) }
        ensures unknown { (result ≡ Err NoConsensus) ↔ IsNone (kept_at self.now height) }
        ensures err { IfErr result (λ refusal. (refusal ≡ NoConsensus) ⊎ (refusal ≡ NoMemory)) }
    {
        let index = self.kept_index(height).ok_or(Refusal::NoConsensus)?;
        let alloc = self.forest.allocator();
        let path = key.path(alloc)?;
        Ok(self.forest.prove(alloc, index, path.as_bytes())?)
    }

    /// The tree of a committed height, as a value of its own; nothing is hashed for it, and all but the last few nodes are
    /// shared. `NoConsensus` exactly where the height isn't committed or is gone from the window, `NoMemory` where a growth
    /// is refused.
    pub fn snapshot(&self, height: u64) -> Result<CommittedTree, Refusal>
        ensures ok { IfOk result (λ tree. IsSomeAnd (kept_at self.now height) (λ kept. tree ≡ kept.0)) }
        ensures unknown { (result ≡ Err NoConsensus) ↔ IsNone (kept_at self.now height) }
        ensures err { IfErr result (λ refusal. (refusal ≡ NoConsensus) ⊎ (refusal ≡ NoMemory)) }
    {
        let index = self.kept_index(height).ok_or(Refusal::NoConsensus)?;
        Ok(CommittedTree::new(self.forest.tree(index)?))
    }

    // The place of a height among those that are kept.
    fn kept_index(&self, height: u64) -> Option<usize>
        ensures there { IfSome result (λ index. index < length self.now.kept) }
        ensures kept { IfSome result (λ index. IsKeptIndex self.now height index) }
        ensures none { result ≡ None → kept_at self.now height ≡ None }
    {
        if height <= self.gone {
            return None;
        }
        let index = height - self.gone - 1;
        if index < self.forest.heights() as u64 {
            Some(index as usize)
        } else {
            None
        }
    }
}

// Commits the pairs of a map with a time: in the gaps in which it was touched, if they are known.
fn commit_map(forest: &mut Forest, map: &PathMap, time: u64) -> Result<Root, AllocError>
    requires some { 0 < length map.now.pairs }
    requires merged { map.now.waiting ≡ 0 }
    requires shares { Shares map.now.touched forest.old.last map.now.pairs }
    ensures root { IfOk result (λ root. root ≡ tree_root map.now.pairs) }
    ensures last { OnOk result (forest.new.last ≡ map.now.pairs) }
    ensures kept { OnOk result (forest.new.kept ≡ forest.old.kept ++ (map.now.pairs, time) ∷ []) }
    ensures more { forest.old.digests ≤ forest.new.digests }
    ensures counts { OnOk result (CommitCountsNew map.now.pairs forest.old forest.new) }
    ensures few { OnOk result (CommitHashesFew map.now.pairs forest.old forest.new) }
    ensures same { CommitHashesPathsOnOk map.now.pairs forest.old forest.new result }
    ensures size { OnOk result (length map.now.pairs < 2 ^ 64) }
    ensures err { OnErr result (forest.new ≡ forest.old) }
{
    match map.gaps() {
        Some(gaps) => forest.commit_gaps(map.entries(), time, gaps),
        None => forest.commit(map.entries(), time),
    }
}
