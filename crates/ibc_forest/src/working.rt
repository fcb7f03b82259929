//! The rows of a tree, and what a commit changes in them.

ghost use Rattle.std.specs.Prelude.{◌≡◌, ◌+◌, ◌<◌, ◌≤◌, length, take, drop, IfOk, OnOk, OnErr};
ghost use Rattle.ibc_forest.specs.Counts.{CountsAtLeast};
ghost use Rattle.ibc_forest.specs.Leaves.{differing_count};
ghost use Rattle.ibc_forest.specs.Nodes.{Grows};
ghost use Rattle.ibc_forest.specs.NodeLevels.{Stand, IsPyramid, AreKnown, HasLevelsOver, rows_of, leaves_of, IsAsLong, IsRootOver, PutsLeaf};
ghost use Rattle.ibc_forest.specs.Hashes.{HashesAbove, HashesPathIfOther};

use crate::arena::Arena;
use crate::ascent::{climb, put_path};
use crate::rows::row_above;
use std::alloc::{AllocError, Global};

// The root of a tree, by its rows.
pub(crate) fn root_of(arena: &Arena, rows: &[Vec<usize>]) -> usize
    requires { IsPyramid arena.now.trees (rows_of rows.now) }
    ensures over { IsRootOver arena.now.trees rows.now result }
    ensures there { result < length arena.now.trees }
{
    rows[rows.len() - 1][0]
}

// The first so many numbers of a row, or all.
fn first_part(row: &[usize], count: usize) -> &[usize]
    ensures { result.now ≡ take count row.now }
{
    &row[..count.min(row.len())]
}

// The rows above the first one.
fn rows_behind(rows: &[Vec<usize>]) -> &[Vec<usize>]
    ensures { result.now ≡ drop 1 rows.now }
{
    if rows.is_empty() {
        return rows;
    }
    &rows[1..]
}

// Adds the rows of the tree over a row of leaves, of which so many first ones are those of a tree before: what stands over these
// is taken over. At most one text less than there are leaves is hashed.
fn add_levels(
    alloc: Global,
    arena: &mut Arena,
    rows: &mut Vec<Vec<usize>>,
    row: Vec<usize>,
    before: &[Vec<usize>],
    front: usize,
) -> Result<(), AllocError>
    requires stand { Stand arena.old.trees row.items }
    requires some { 0 < length row.items }
    requires before { AreKnown arena.old.trees (rows_of before.now) }
    requires there { front ≤ length row.items }
    requires front { take front row.items ≡ take front (leaves_of before.now) }
    ensures levels { IfOk result (λ _. HasLevelsOver arena.new.trees rows.old.items row.items rows.new.items) }
    ensures grows { Grows arena.old.trees arena.new.trees }
    ensures steps { IfOk result (λ _. arena.new.steps + 1 ≤ arena.old.steps + length row.items) }
    ensures least { OnOk result (CountsAtLeast 0 arena.old.steps arena.new.steps) }
{
    if row.len() == 1 {
        rows.push(row)?;
        return Ok(());
    }
    let behind = rows_behind(before);
    let known = first_part(first_of(behind), front / 2);
    let above = row_above(alloc, arena, row.as_slice(), known)?;
    rows.push(row)?;
    add_levels(alloc, arena, rows, above, behind, known.len())
}

// The rows of the tree over a row of leaves, of which so many first ones are those of a tree before: at most one text less
// than there are leaves is hashed.
pub(crate) fn raised(
    alloc: Global,
    arena: &mut Arena,
    row: Vec<usize>,
    before: &[Vec<usize>],
    front: usize,
) -> Result<Vec<Vec<usize>>, AllocError>
    requires stand { Stand arena.old.trees row.items }
    requires some { 0 < length row.items }
    requires before { AreKnown arena.old.trees (rows_of before.now) }
    requires there { front ≤ length row.items }
    requires front { take front row.items ≡ take front (leaves_of before.now) }
    ensures levels { IfOk result (λ rows. IsPyramid arena.new.trees (rows_of rows.items)) }
    ensures row { IfOk result (λ rows. leaves_of rows.items ≡ row.items) }
    ensures grows { Grows arena.old.trees arena.new.trees }
    ensures steps { IfOk result (λ _. arena.new.steps + 1 ≤ arena.old.steps + length row.items) }
    ensures least { OnOk result (CountsAtLeast 0 arena.old.steps arena.new.steps) }
{
    let mut rows = Vec::new(alloc);
    add_levels(alloc, arena, &mut rows, row, before, front)?;
    Ok(rows)
}

// Puts another leaf at a place of the tree, if it is another one: at most one text is hashed a row above it. A refusal leaves the
// rows.
pub(crate) fn put_leaf(
    arena: &mut Arena,
    rows: &mut [Vec<usize>],
    path: &mut Vec<usize>,
    index: usize,
    node: usize,
) -> Result<(), AllocError>
    requires levels { IsPyramid arena.old.trees (rows_of rows.old) }
    requires place { index < length (leaves_of rows.old) }
    requires node { node < length arena.old.trees }
    ensures levels { IfOk result (λ _. IsPyramid arena.new.trees (rows_of rows.new)) }
    ensures row { IfOk result (λ _. PutsLeaf rows.old rows.new index node) }
    ensures grows { Grows arena.old.trees arena.new.trees }
    ensures steps { HashesPathIfOther rows.old index node arena.old arena.new }
    ensures least { OnOk result (CountsAtLeast 0 arena.old.steps arena.new.steps) }
    ensures err { OnErr result (rows.new ≡ rows.old) }
{
    if first_of(rows)[index] == node {
        return Ok(());
    }
    path.clear();
    climb(arena, rows, index, node, path)?;
    put_path(rows, index, path.as_slice());
    Ok(())
}

// The first of some rows; of none it is empty.
pub(crate) fn first_of(rows: &[Vec<usize>]) -> &[usize]
    ensures { result.now ≡ leaves_of rows.now }
{
    match rows.first() {
        Some(row) => row.as_slice(),
        None => [].as_slice(),
    }
}

// Puts other leaves into the tree: at most one text is hashed for each other one and row above it.
pub(crate) fn put_leaves(
    arena: &mut Arena,
    rows: &mut [Vec<usize>],
    path: &mut Vec<usize>,
    row: &[usize],
) -> Result<(), AllocError>
    requires levels { IsPyramid arena.old.trees (rows_of rows.old) }
    requires stand { Stand arena.old.trees row.now }
    requires counted { IsAsLong rows.old row.now }
    ensures levels { IfOk result (λ _. IsPyramid arena.new.trees (rows_of rows.new)) }
    ensures row { IfOk result (λ _. leaves_of rows.new ≡ row.now) }
    ensures grows { Grows arena.old.trees arena.new.trees }
    ensures steps { IfOk result (λ _. HashesAbove rows.old row.now arena.old arena.new) }
    ensures least { OnOk result (CountsAtLeast 0 arena.old.steps arena.new.steps) }
{
    for i in 0..row.len() {
        put_leaf(arena, rows, path, i, row[i])?;
    }
    Ok(())
}

// A copy of rows.
pub(crate) fn copied(alloc: Global, rows: &[Vec<usize>]) -> Result<Vec<Vec<usize>>, AllocError>
    ensures { IfOk result (λ copy. rows_of copy.items ≡ rows_of rows.now) }
{
    let mut copy = Vec::with_capacity(alloc, rows.len())?;
    for i in 0..rows.len() {
        let row = rows[i].clone()?;
        copy.push(row)?;
    }
    Ok(copy)
}

// At how many places the first row has another number than the second, which is as long.
pub(crate) fn count_differing(row: &[usize], old: &[usize]) -> usize
    requires { length row.now ≡ length old.now }
    ensures { result ≡ differing_count row.now old.now }
{
    let mut count = 0;
    for i in 0..row.len() {
        if row[i] != old[i] {
            count += 1;
        }
    }
    count
}
