//! The trees of a store's committed heights, over one arena.

ghost use Rattle.std.specs.Prelude.{◌≡◌, ◌+◌, ◌<◌, ◌≤◌, ◌∷◌, ◌++◌, [], length, drop, slice_index_or, IsTrue, IfOk, OnOk, OnErr};
ghost use Rattle.std.specs.FinMap.{is_sorted};
ghost use Rattle.ibc_ids.specs.Texts.{text_cmp};
ghost use Rattle.ibc_merkle.specs.Tree.{tree_root};
ghost use Rattle.ibc_forest.specs.Gaps.{DifferIn};
ghost use Rattle.ibc_forest.specs.Commits.{CommitCountsNew, CommitHashesFew, CommitHashesPathsOnOk, IsWrittenProof};

use crate::arena::Arena;
use crate::gap::Gap;
use crate::moving::{move_kept, move_rows};
use crate::next_rows::turn_rows;
use crate::proving::prove_in;
use crate::shared_entry::SharedEntry;
use crate::shared_tree::SharedTree;
use crate::working::{first_of, root_of};
use ibc_ids::Root;
use ibc_merkle::Proof;
use std::alloc::{AllocError, Global};
use std::collections::VecDeque;
use std::marker::Model;

/// A committed height: the number of its root, how many leaves it has, and its time.
#[derive(Clone, Copy, Drop, Debug)]
pub struct Height {
    pub root: usize,
    pub count: usize,
    pub time: u64,
}

// So many nodes more than twice those of the last gathering stand before the next one.
const SPARE: usize = 32_768;

/// The trees of committed heights, which share their nodes. Contracts see the pairs of the last commit, those of each
/// kept height, and how many texts were hashed.
#[derive(Drop, Debug)]
pub struct Forest {
    arena: Arena,
    rows: Vec<Vec<usize>>,
    kept: VecDeque<Height>,
    digests: u64,
    gathered: usize,
}

impl Model for Forest {
    ghost use Rattle.std.specs.Prelude.{IsTrue};
    ghost use Rattle.std.specs.FinMap.{is_sorted};
    ghost use Rattle.ibc_ids.specs.Texts.{text_cmp};
    ghost use Rattle.ibc_forest.specs.ForestModel.{ForestModel};

    ghost Value = { ForestModel };

    ghost use Rattle.ibc_forest.specs.NodeLevels.{rows_of, first_row};
    ghost use Rattle.ibc_forest.specs.Leaves.{row_pairs};
    ghost use Rattle.ibc_forest.specs.Forest.{kept_pairs, IsLast, AreSortedHeights};

    ghost view = { λ forest. record {
      last = row_pairs forest.arena.trees (first_row (rows_of forest.rows.items));
      kept = kept_pairs forest.arena.trees forest.kept.items;
      digests = forest.digests;
    } };

    ghost invariant = { λ forest. IsLast forest.arena.trees (rows_of forest.rows.items) × AreSortedHeights forest.arena.trees forest.kept.items × IsTrue (is_sorted text_cmp (row_pairs forest.arena.trees (first_row (rows_of forest.rows.items)))) };
}

impl Forest {
    /// A forest of no height.
    pub fn new(alloc: Global) -> Forest
        ensures { result ≡ record { last = []; kept = []; digests = 0 } }
    {
        Forest {
            arena: Arena::new(alloc),
            rows: Vec::new(alloc),
            kept: VecDeque::new(alloc),
            digests: 0,
            gathered: 0,
        }
    }

    /// The allocator that its nodes come from.
    pub fn allocator(&self) -> Global {
        *self.kept.allocator()
    }

    /// How many texts were hashed for all commits, and never above 2^64 - 1. A refused commit doesn't count.
    pub fn digests(&self) -> u64
        ensures { result ≡ self.now.digests }
    {
        self.digests
    }

    /// How many heights are kept.
    pub fn heights(&self) -> usize
        ensures { result ≡ length self.now.kept }
    {
        self.kept.len()
    }

    /// The keys of the last commit strictly rise in byte order.
    pub fn lemma_last_sorted(&self)
        ensures { IsTrue (is_sorted text_cmp self.now.last) }
    {
        let _rows = &self.rows;
    }

    /// Commits pairs, whose keys strictly rise in byte order, with a time as the next height, and answers the root of their
    /// tree. Of n pairs, of which the last commit doesn't have k, at least `2k` texts are counted and at most `2k + n - 1`, and
    /// where the keys are those of the last commit at most `2k + k * ceil(log2 n)`. A refusal leaves the forest.
    pub fn commit(&mut self, entries: &[SharedEntry], time: u64) -> Result<Root, AllocError>
        requires some { 0 < length entries.now }
        requires sorted { IsTrue (is_sorted text_cmp entries.now) }
        ensures root { IfOk result (λ root. root ≡ tree_root entries.now) }
        ensures last { OnOk result (self.new.last ≡ entries.now) }
        ensures kept { OnOk result (self.new.kept ≡ self.old.kept ++ (entries.now, time) ∷ []) }
        ensures more { self.old.digests ≤ self.new.digests }
        ensures counts { OnOk result (CommitCountsNew entries.now self.old self.new) }
        ensures few { OnOk result (CommitHashesFew entries.now self.old self.new) }
        ensures same { CommitHashesPathsOnOk entries.now self.old self.new result }
        ensures err { OnErr result (self.new ≡ self.old) }
    {
        let gap = Gap {
            kept: 0,
            gone: first_of(self.rows.as_slice()).len(),
            come: entries.len(),
        };
        self.commit_gaps(entries, time, [gap].as_slice())
    }

    /// The same of pairs that differ in gaps alone from those of the last commit: no other pair is looked at.
    pub fn commit_gaps(
        &mut self,
        entries: &[SharedEntry],
        time: u64,
        gaps: &[Gap],
    ) -> Result<Root, AllocError>
        requires some { 0 < length entries.now }
        requires sorted { IsTrue (is_sorted text_cmp entries.now) }
        requires gaps { DifferIn gaps.now self.old.last entries.now }
        ensures root { IfOk result (λ root. root ≡ tree_root entries.now) }
        ensures last { OnOk result (self.new.last ≡ entries.now) }
        ensures kept { OnOk result (self.new.kept ≡ self.old.kept ++ (entries.now, time) ∷ []) }
        ensures more { self.old.digests ≤ self.new.digests }
        ensures counts { OnOk result (CommitCountsNew entries.now self.old self.new) }
        ensures few { OnOk result (CommitHashesFew entries.now self.old self.new) }
        ensures same { CommitHashesPathsOnOk entries.now self.old self.new result }
        ensures err { OnErr result (self.new ≡ self.old) }
    {
        self.gather();
        self.kept.reserve(1)?;
        let alloc = *self.kept.allocator();
        self.arena.restart();
        turn_rows(alloc, &mut self.arena, &mut self.rows, entries, gaps)?;
        let root = root_of(&self.arena, self.rows.as_slice());
        let digest = self.arena.digest(root);
        self.kept.push_back_reserved(Height {
            root,
            count: entries.len(),
            time,
        });
        self.digests = self.digests.saturating_add(self.arena.steps());
        Ok(Root::from_bytes(digest))
    }

    /// The proof of what a kept height has at a key; the first of them is number 0. Nothing is hashed for it.
    pub fn prove(&self, alloc: Global, index: usize, key: &[u8]) -> Result<Proof, AllocError>
        requires { index < length self.now.kept }
        ensures { IfOk result (λ proof. IsWrittenProof self.now.kept index key.now proof) }
    {
        let height = self.kept[index];
        prove_in(alloc, self.arena.nodes(), height.root, height.count, key)
    }

    /// The tree of a kept height as a value of its own; the first of them is number 0. Nothing is hashed for it, and all but
    /// the last few nodes are shared.
    pub fn tree(&self, index: usize) -> Result<SharedTree, AllocError>
        requires { index < length self.now.kept }
        ensures { IfOk result (λ tree. tree ≡ (slice_index_or self.now.kept index ([], 0)).0) }
    {
        let height = self.kept[index];
        let nodes = self.arena.nodes().snapshot()?;
        Ok(SharedTree::new(nodes, height.root, height.count))
    }

    /// Forgets the first height that is kept.
    pub fn forget_first(&mut self)
        ensures { self.new ≡ record self.old { kept = drop 1 self.old.kept } }
    {
        self.kept.pop_front();
    }
    // Gives back the nodes that neither a kept height nor the last commit reaches, once there may be as many of them as of
    // the others. Where memory is refused, all nodes stay.
    fn gather(&mut self)
        ensures { self.new ≡ self.old }
    {
        if self.arena.count() / 2 <= self.gathered.saturating_add(SPARE) {
            return;
        }
        if let Ok(forest) = self.moved() {
            *self = forest;
        }
    }

    // The same forest over an arena of its own, which has only the nodes that a kept height or the last commit reaches.
    fn moved(&self) -> Result<Forest, AllocError>
        ensures { IfOk result (λ forest. forest ≡ self.now) }
    {
        let alloc = *self.kept.allocator();
        let nodes = self.arena.nodes();
        let mut arena = Arena::new(alloc);
        let mut places = vec![in alloc; None; self.arena.count()]?;
        let moved = places.as_mut_slice();
        let rows = move_rows(alloc, nodes, &mut arena, moved, self.rows.as_slice())?;
        let kept = move_kept(alloc, nodes, &mut arena, moved, &self.kept)?;
        let gathered = arena.count();
        Ok(Forest {
            arena,
            rows,
            kept,
            digests: self.digests,
            gathered,
        })
    }
}
