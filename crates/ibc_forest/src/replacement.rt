//! Other leaves for places of a row, and the nodes that stood on the paths above them.

/// Another leaf for a place of a row.
#[derive(Clone, Copy, Drop, Debug)]
pub struct Replacement {
    pub place: usize,
    pub leaf: usize,
}

/// The nodes that stood at a place of a tree and above it, one a row.
#[derive(Drop, Debug)]
pub struct NotedPath {
    pub place: usize,
    pub nodes: Vec<usize>,
}
