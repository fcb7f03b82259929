//! Hashes of nodes that were worked out before.

ghost use Rattle.std.specs.Prelude.{◌≡◌};
ghost use Rattle.ibc_merkle.specs.Hash.{hash};

use crate::operations::{NODE_LEN, NodeHasher, hash_parts, node_text};
use crate::texts::is_same;
use ibc_merkle::Operation;
use sha2::{Digest, Sha256};
use std::alloc::{AllocError, Global};
use std::marker::Model;

/// How many nodes are remembered.
const SLOTS: usize = 512;

/// A node's text with its hash. Contracts see nothing of it: what it says is true of every text.
#[derive(Drop)]
struct KnownNode {
    text: [u8; NODE_LEN],
    digest: [u8; 32],
}

impl Model for KnownNode {
    ghost use Rattle.std.specs.Prelude.{◌≡◌, ⊤};
    ghost use Rattle.ibc_merkle.specs.Hash.{hash};

    ghost Value = { ⊤ };

    ghost view = { λ _. tt };

    ghost invariant = { λ node. node.digest ≡ hash node.text };
}

impl KnownNode {
    // The node of a text.
    fn of(text: &[u8; NODE_LEN]) -> KnownNode {
        KnownNode {
            text: *text,
            digest: Sha256::digest(text.as_slice()),
        }
    }

    // The same node.
    fn copy(&self) -> KnownNode {
        KnownNode {
            text: self.text,
            digest: self.digest,
        }
    }

    // The hash of a text: as it is known where this is the node's text, or else worked out, and known from now on.
    fn hash_of(&mut self, text: &[u8; NODE_LEN]) -> [u8; 32]
        ensures { result ≡ hash text.now }
    {
        if is_same(self.text.as_slice(), text.as_slice()) {
            return self.digest;
        }
        let digest = Sha256::digest(text.as_slice());
        self.text = *text;
        self.digest = digest;
        digest
    }
}

/// Hashes of inner nodes that were worked out, each beside what was hashed (ICS 23, "InnerOp"). What it remembers changes
/// no answer, so contracts see nothing of it. It keeps a fixed number of nodes: a node takes the place of another.
#[derive(Drop)]
pub struct NodeMemory {
    alloc: Global,
    nodes: Vec<KnownNode>,
}

impl Model for NodeMemory {
    ghost use Rattle.std.specs.Prelude.{⊤};

    ghost Value = { ⊤ };

    ghost view = { λ _. tt };
}

impl NodeMemory {
    /// A memory of nothing yet, and without room.
    pub fn new(alloc: Global) -> NodeMemory {
        NodeMemory {
            alloc,
            nodes: Vec::new(alloc),
        }
    }

    /// Asks for the room, where there is none yet. Where it is refused, nothing is remembered until it is asked for again.
    pub(crate) fn ask(&mut self) {
        if !self.nodes.is_empty() {
            return;
        }
        if let Ok(nodes) = known_nodes(self.alloc) {
            self.nodes = nodes;
        }
    }

    // The hash of a node's text.
    fn hash_of(&mut self, text: &[u8; NODE_LEN]) -> [u8; 32]
        ensures { result ≡ hash text.now }
    {
        match self.nodes.get_mut(slot_of(text)) {
            Some(node) => node.hash_of(text),
            None => Sha256::digest(text.as_slice()),
        }
    }
}

impl NodeHasher for NodeMemory {
    fn parent(&mut self, operation: &Operation, child: &[u8; 32]) -> [u8; 32] {
        match node_text(operation, child) {
            Some(text) => self.hash_of(&text),
            None => hash_parts(operation, child),
        }
    }
}

// One node, in every slot. Where there is no room, none is hashed.
fn known_nodes(alloc: Global) -> Result<Vec<KnownNode>, AllocError> {
    let mut nodes = Vec::with_capacity(alloc, SLOTS)?;
    let first = KnownNode::of(&[0; NODE_LEN]);
    for _ in 0..SLOTS {
        nodes.push(first.copy())?;
    }
    Ok(nodes)
}

// The slot of a text, by the first bytes of both hashes.
fn slot_of(text: &[u8; NODE_LEN]) -> usize {
    let low = text[1] ^ text[33];
    let high = text[2] ^ text[34];
    usize::from(u16::from_le_bytes([low, high])) % SLOTS
}
