//! Another node at a place of a tree, and those above it.

ghost use Rattle.std.specs.Prelude.{◌≡◌, ◌+◌, ◌<◌, ◌≤◌, length, IfOk, OnOk};
ghost use Rattle.ibc_forest.specs.Counts.{CountsAtLeast};
ghost use Rattle.ibc_forest.specs.Nodes.{Grows};
ghost use Rattle.ibc_forest.specs.NodeLevels.{Stand, IsPyramid, Climbs, rows_of, with_replaced, leaves_of};
ghost use Rattle.ibc_forest.specs.Parents.{IsParentAt};

use crate::arena::Arena;
use std::alloc::AllocError;

// The node above a place, where another node is put there.
fn parent_at(
    arena: &mut Arena,
    row: &[usize],
    index: usize,
    node: usize,
) -> Result<usize, AllocError>
    requires stand { Stand arena.old.trees row.now }
    requires place { index < length row.now }
    requires node { node < length arena.old.trees }
    ensures pair { IfOk result (λ parent. IsParentAt arena.old arena.new row.now index node parent) }
    ensures there { IfOk result (λ parent. parent < length arena.new.trees) }
    ensures grows { Grows arena.old.trees arena.new.trees }
    ensures steps { arena.new.steps ≤ arena.old.steps + 1 }
    ensures least { CountsAtLeast 0 arena.old.steps arena.new.steps }
{
    if index % 2 == 1 {
        return arena.pair(row[index - 1], node);
    }
    if index + 1 < row.len() {
        return arena.pair(node, row[index + 1]);
    }
    Ok(node)
}

/// Adds the nodes of a place and above it to a path, where another node is put there: at most one text is hashed a row.
pub fn climb(
    arena: &mut Arena,
    rows: &[Vec<usize>],
    index: usize,
    node: usize,
    path: &mut Vec<usize>,
) -> Result<(), AllocError>
    requires levels { IsPyramid arena.old.trees (rows_of rows.now) }
    requires place { index < length (leaves_of rows.now) }
    requires node { node < length arena.old.trees }
    ensures climbs { IfOk result (λ _. Climbs arena.new.trees (rows_of rows.now) index node path.old.items path.new.items) }
    ensures grows { Grows arena.old.trees arena.new.trees }
    ensures steps { arena.new.steps + 1 ≤ arena.old.steps + length rows.now }
    ensures least { OnOk result (CountsAtLeast 0 arena.old.steps arena.new.steps) }
{
    path.push(node)?;
    if rows.len() > 1 {
        let (first, above) = rows.split_at(1);
        let parent = parent_at(arena, first[0].as_slice(), index, node)?;
        climb(arena, above, index / 2, parent, path)?;
    }
    Ok(())
}

/// Puts the nodes of a path into the rows, one a row, at a place and above it.
pub fn put_path(rows: &mut [Vec<usize>], index: usize, path: &[usize])
    requires { length path.now ≡ length rows.old }
    ensures { rows_of rows.new ≡ with_replaced (rows_of rows.old) index path.now }
{
    let mut place = index;
    for level in 0..rows.len() {
        let row = &mut rows[level];
        if place < row.len() {
            row[place] = path[level];
        }
        place /= 2;
    }
}
