//! The nodes of a store's trees, and which pairs of them were hashed.

ghost use Rattle.std.specs.Prelude.{◌≡◌, ◌+◌, ◌<◌, ◌≤◌, ◌∷◌, ◌++◌, [], length, map, OnOk, OnErr, IfSome, IfOk};
ghost use Rattle.ibc_lanes.specs.Inner.{four_more, pair_hash};
ghost use Rattle.ibc_merkle.specs.Hash.{one_more};
ghost use Rattle.ibc_merkle.specs.Tree.{Node, root};
ghost use Rattle.ibc_forest.specs.Counts.{CountsAtLeast};
ghost use Rattle.ibc_forest.specs.Levels.{leaf_of, tree_at, trees_at};
ghost use Rattle.ibc_forest.specs.NodeLevels.{Stand};
ghost use Rattle.ibc_forest.specs.Nodes.{tree_of_node, ChildrenStand, IsRight, Grows, AddsNode};
ghost use Rattle.ibc_forest.specs.Parents.{IsParent};
ghost use Rattle.ibc_forest.specs.Hashes.{HashesOneIfNew};

use crate::node::{ArenaNode, Below, KnownParent};
use crate::nodes::Nodes;
use crate::shared_entry::SharedEntry;
use ibc_lanes::{InnerPair, hash_four_inner, hash_four_leaves, hash_four_values};
use ibc_merkle::{Steps, hash_inner, hash_leaf, hash_value};
use std::alloc::{AllocError, Global};
use std::marker::Model;

// The largest number that is remembered.
const MOST: usize = u32::MAX as usize;

// So many of four nodes come before the fourth.
const BEFORE_FOURTH: usize = 3;

/// The nodes of trees, by their numbers. Contracts see the tree of each node, and how many texts were hashed.
#[derive(Drop, Debug)]
pub struct Arena {
    nodes: Nodes,
    known: Vec<KnownParent>,
    steps: Steps,
}

impl Model for Arena {
    ghost use Rattle.std.specs.Prelude.{◌≡◌, length};
    ghost use Rattle.ibc_forest.specs.Codes.{ArenaModel, arena_code};

    ghost Value = { ArenaModel };

    ghost coded = { arena_code };

    ghost use Rattle.ibc_forest.specs.Nodes.{AllRemember};

    ghost view = { λ arena. record { trees = arena.nodes; steps = arena.steps } };

    ghost invariant = { λ arena. (length arena.known.items ≡ length arena.nodes) × AllRemember arena.nodes arena.known.items };
}

impl Arena {
    /// An arena with no node.
    pub fn new(alloc: Global) -> Arena
        ensures trees { result.trees ≡ [] }
        ensures steps { result.steps ≡ 0 }
    {
        Arena {
            nodes: Nodes::new(alloc),
            known: Vec::new(alloc),
            steps: Steps::new(),
        }
    }

    /// How many texts were hashed since the count began anew, and never above 2^64 - 1.
    pub fn steps(&self) -> u64
        ensures { result ≡ self.now.steps }
    {
        self.steps.count()
    }

    /// Counts anew from no text on.
    pub fn restart(&mut self)
        ensures { self.new ≡ record self.old { steps = 0 } }
    {
        self.steps = Steps::new();
    }

    /// The nodes.
    pub fn nodes(&self) -> &Nodes
        ensures { result.now ≡ self.now.trees }
    {
        &self.nodes
    }

    /// How many nodes there are.
    pub fn count(&self) -> usize
        ensures { result ≡ length self.now.trees }
    {
        self.known.len()
    }

    /// The digest of a node.
    pub fn digest(&self, node: usize) -> [u8; 32]
        requires { node < length self.now.trees }
        ensures { result ≡ root (tree_at self.now.trees node) }
    {
        self.nodes.digest(node)
    }

    /// What stands below a node.
    pub fn below(&self, node: usize) -> &Below
        requires { node < length self.now.trees }
        ensures built { tree_at self.now.trees node ≡ tree_of_node self.now.trees result.now }
        ensures stand { ChildrenStand self.now.trees result.now }
    {
        self.nodes.below(node)
    }

    /// Adds a node with its digest. Nothing is hashed.
    pub fn add(&mut self, node: ArenaNode) -> Result<usize, AllocError>
        requires { IsRight self.old.trees node }
        ensures ok { OnOk result (AddsNode node self.old.trees self.new.trees) }
        ensures number { IfOk result (λ number. number ≡ length self.old.trees) }
        ensures err { OnErr result (self.new.trees ≡ self.old.trees) }
        ensures steps { self.new.steps ≡ self.old.steps }
    {
        let number = self.known.len();
        self.known.reserve(1)?;
        self.nodes.add(node)?;
        self.known.push_reserved(KnownParent {
            right: 0,
            parent: 0,
        });
        Ok(number)
    }

    /// Whether no memory is asked for before the fourth node from here. Then all four texts may be hashed first: a
    /// refusal finds as many counted as one by one.
    pub fn has_room_for_four(&self) -> bool {
        let known = self.known.capacity().saturating_sub(self.known.len());
        known.min(self.nodes.room()) >= BEFORE_FOURTH
    }

    /// Adds a leaf, whose pair is moved in: two texts are hashed.
    #[tactic(auto, using(crate::proofs::Arenas::first_own))]
    pub fn leaf(&mut self, entry: SharedEntry) -> Result<usize, AllocError>
        ensures ok { OnOk result (self.new.trees ≡ self.old.trees ++ leaf_of entry ∷ []) }
        ensures number { IfOk result (λ number. number ≡ length self.old.trees) }
        ensures err { OnErr result (self.new.trees ≡ self.old.trees) }
        ensures steps { self.new.steps ≡ one_more (one_more self.old.steps) }
    {
        let value = hash_value(entry.value(), &mut self.steps);
        let digest = hash_leaf(entry.key(), &value, &mut self.steps);
        let first = self.count();
        self.add(ArenaNode {
            digest,
            first,
            below: Below::Record(entry),
        })
    }

    /// Adds the leaves of four pairs, which are shared with them: eight texts are hashed, four at a time.
    pub fn leaf_four(&mut self, entries: &[SharedEntry]) -> Result<[usize; 4], AllocError>
        requires { length entries.now ≡ 4 }
        ensures leaves { IfOk result (λ leaves. trees_at self.new.trees leaves ≡ map leaf_of entries.now) }
        ensures stand { IfOk result (λ leaves. Stand self.new.trees leaves) }
        ensures grows { Grows self.old.trees self.new.trees }
        ensures steps { self.new.steps ≡ four_more (four_more self.old.steps) }
    {
        let digests = self.leaf_digests(entries);
        let first = self.hashed_leaf(&entries[0], digests[0])?;
        let second = self.hashed_leaf(&entries[1], digests[1])?;
        let third = self.hashed_leaf(&entries[2], digests[2])?;
        let fourth = self.hashed_leaf(&entries[3], digests[3])?;
        Ok([first, second, third, fourth])
    }

    // The digests of the leaves of four pairs: eight texts are hashed.
    fn leaf_digests(&mut self, entries: &[SharedEntry]) -> [[u8; 32]; 4]
        requires { length entries.now ≡ 4 }
        ensures digests { result ≡ map root (map leaf_of entries.now) }
        ensures trees { self.new.trees ≡ self.old.trees }
        ensures steps { self.new.steps ≡ four_more (four_more self.old.steps) }
    {
        let (first, second) = (&entries[0], &entries[1]);
        let (third, fourth) = (&entries[2], &entries[3]);
        let values = hash_four_values(
            first.value(),
            second.value(),
            third.value(),
            fourth.value(),
            &mut self.steps,
        );
        hash_four_leaves(
            first.key(),
            second.key(),
            third.key(),
            fourth.key(),
            &values,
            &mut self.steps,
        )
    }

    // Adds the leaf of a pair, which is shared with it, by its digest. Nothing is hashed.
    #[tactic(auto, using(crate::proofs::Arenas::first_own))]
    fn hashed_leaf(&mut self, entry: &SharedEntry, digest: [u8; 32]) -> Result<usize, AllocError>
        requires { digest ≡ root (leaf_of entry.now) }
        ensures leaf { IfOk result (λ leaf. tree_at self.new.trees leaf ≡ leaf_of entry.now) }
        ensures there { IfOk result (λ leaf. leaf < length self.new.trees) }
        ensures grows { Grows self.old.trees self.new.trees }
        ensures steps { self.new.steps ≡ self.old.steps }
    {
        let first = self.count();
        self.add(ArenaNode {
            digest,
            first,
            below: Below::Record(entry.clone()?),
        })
    }

    /// The node over two nodes: the one that the left one remembers, or a new one, for which one text is hashed.
    #[inline]
    pub fn pair(&mut self, left: usize, right: usize) -> Result<usize, AllocError>
        requires left { left < length self.old.trees }
        requires right { right < length self.old.trees }
        ensures made { IfOk result (λ number. IsParent self.old self.new left right number) }
        ensures there { IfOk result (λ number. number < length self.new.trees) }
        ensures grows { Grows self.old.trees self.new.trees }
        ensures known { IfOk result (λ number. number < length self.old.trees → self.new ≡ self.old) }
        ensures hashed { IfOk result (λ number. HashesOneIfNew self.old self.new number) }
        ensures err { OnErr result (self.new.steps ≡ one_more self.old.steps) }
        ensures most { self.new.steps ≤ self.old.steps + 1 }
        ensures least { CountsAtLeast 0 self.old.steps self.new.steps }
    {
        match self.remembered(left, right) {
            Some(parent) => Ok(parent),
            None => self.join(left, right),
        }
    }

    /// The node over two nodes that the left one remembers, if it does.
    pub fn remembered(&self, left: usize, right: usize) -> Option<usize>
        requires { left < length self.now.trees }
        ensures made { IfSome result (λ number. IsParent self.now self.now left right number) }
        ensures there { IfSome result (λ number. number < length self.now.trees) }
    {
        let known = self.known[left];
        if known.parent > 0 && known.right as usize == right {
            return Some(known.parent as usize);
        }
        None
    }

    /// A new node over two nodes, which the left one remembers: one text is hashed.
    #[inline(never)]
    pub fn join(&mut self, left: usize, right: usize) -> Result<usize, AllocError>
        requires left { left < length self.old.trees }
        requires right { right < length self.old.trees }
        ensures made { IfOk result (λ number. IsParent self.old self.new left right number) }
        ensures there { IfOk result (λ number. number < length self.new.trees) }
        ensures number { IfOk result (λ number. number ≡ length self.old.trees) }
        ensures grows { Grows self.old.trees self.new.trees }
        ensures steps { self.new.steps ≡ one_more self.old.steps }
    {
        let (left_digest, right_digest) = (self.digest(left), self.digest(right));
        let digest = hash_inner(&left_digest, &right_digest, &mut self.steps);
        self.add_over(left, right, digest)
    }

    /// Adds the node over two nodes with its digest. The left one remembers it. Nothing is hashed.
    #[tactic(auto, using(crate::proofs::Arenas::first_left))]
    pub fn add_over(
        &mut self,
        left: usize,
        right: usize,
        digest: [u8; 32],
    ) -> Result<usize, AllocError>
        requires left { left < length self.old.trees }
        requires right { right < length self.old.trees }
        requires digest { digest ≡ root (Node (tree_at self.old.trees left) (tree_at self.old.trees right)) }
        ensures made { IfOk result (λ number. IsParent self.old self.new left right number) }
        ensures there { IfOk result (λ number. number < length self.new.trees) }
        ensures number { IfOk result (λ number. number ≡ length self.old.trees) }
        ensures grows { Grows self.old.trees self.new.trees }
        ensures steps { self.new.steps ≡ self.old.steps }
    {
        let first = self.nodes.first(left);
        let parent = self.add(ArenaNode {
            digest,
            first,
            below: Below::Children(left, right),
        })?;
        self.note(left, right, parent);
        Ok(parent)
    }

    /// The digests of two nodes.
    pub fn digests_of(&self, left: usize, right: usize) -> InnerPair
        requires left { left < length self.now.trees }
        requires right { right < length self.now.trees }
        ensures left { result.left ≡ root (tree_at self.now.trees left) }
        ensures right { result.right ≡ root (tree_at self.now.trees right) }
    {
        InnerPair {
            left: self.digest(left),
            right: self.digest(right),
        }
    }

    /// The hashes of four nodes, of their children's digests: four texts are hashed, and counted. No node is added.
    pub fn hash_four(&mut self, pairs: &[InnerPair; 4]) -> [[u8; 32]; 4]
        ensures digests { result ≡ map pair_hash pairs.now }
        ensures trees { self.new.trees ≡ self.old.trees }
        ensures steps { self.new.steps ≡ four_more self.old.steps }
    {
        hash_four_inner(pairs, &mut self.steps)
    }

    // Lets the left one of two nodes remember the node over them, if their numbers are small enough.
    fn note(&mut self, left: usize, right: usize, parent: usize)
        requires left { left < length self.old.trees }
        requires right { right < length self.old.trees }
        requires parent { parent < length self.old.trees }
        requires pair { IsParent self.old self.old left right parent }
        ensures { self.new ≡ self.old }
    {
        if right <= MOST && parent <= MOST {
            self.known[left] = KnownParent {
                right: right as u32,
                parent: parent as u32,
            };
        }
    }

    /// Lets the left one of two nodes remember the node over them, if it remembers none.
    pub fn remember(&mut self, left: usize, right: usize, parent: usize)
        requires left { left < length self.old.trees }
        requires right { right < length self.old.trees }
        requires parent { parent < length self.old.trees }
        requires pair { IsParent self.old self.old left right parent }
        ensures { self.new ≡ self.old }
    {
        if self.known[left].parent == 0 {
            self.note(left, right, parent);
        }
    }
}
