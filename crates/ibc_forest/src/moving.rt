//! Nodes that are moved to another arena, so that the others are given back. Nothing is hashed.

ghost use Rattle.std.specs.Prelude.{◌≡◌, ◌<◌, length, IfOk};
ghost use Rattle.ibc_forest.specs.Forest.{AreSortedHeights, HaveSamePairs};
ghost use Rattle.ibc_forest.specs.Levels.{tree_at, trees_at};
ghost use Rattle.ibc_forest.specs.NodeMoves.{AreMoved, AllStand, HaveSameTrees};
ghost use Rattle.ibc_forest.specs.Nodes.{tree_of_node, Grows, IsRight};
ghost use Rattle.ibc_forest.specs.NodeLevels.{Stand, rows_of};

use crate::arena::Arena;
use crate::forest::Height;
use crate::node::{ArenaNode, Below};
use crate::nodes::Nodes;
use std::alloc::{AllocError, Global};
use std::collections::VecDeque;

// Adds the copy of a node, and notes its number.
fn add_moved(
    old: &Nodes,
    new: &mut Arena,
    moved: &mut [Option<usize>],
    number: usize,
    node: ArenaNode,
) -> Result<usize, AllocError>
    requires there { number < length moved.old }
    requires right { IsRight new.old.trees node }
    requires same { tree_of_node new.old.trees node.below ≡ tree_at old.now number }
    requires moved { AreMoved old.now new.old.trees moved.old }
    ensures same { IfOk result (λ copy. tree_at new.new.trees copy ≡ tree_at old.now number) }
    ensures there { IfOk result (λ copy. copy < length new.new.trees) }
    ensures moved { IfOk result (λ _. AreMoved old.now new.new.trees moved.new) }
    ensures grows { Grows new.old.trees new.new.trees }
    ensures steps { new.new.steps ≡ new.old.steps }
{
    let copy = new.add(node)?;
    moved[number] = Some(copy);
    Ok(copy)
}

// Moves a node and those below it, where they weren't moved, and answers its number. A pair of moved nodes is remembered.
#[tactic(auto, using(crate::proofs::Arenas::first_own, crate::proofs::Arenas::first_left))]
fn move_node(
    old: &Nodes,
    new: &mut Arena,
    moved: &mut [Option<usize>],
    number: usize,
) -> Result<usize, AllocError>
    requires there { number < length old.now }
    requires counted { length moved.old ≡ length old.now }
    requires moved { AreMoved old.now new.old.trees moved.old }
    ensures same { IfOk result (λ copy. tree_at new.new.trees copy ≡ tree_at old.now number) }
    ensures there { IfOk result (λ copy. copy < length new.new.trees) }
    ensures moved { IfOk result (λ _. AreMoved old.now new.new.trees moved.new) }
    ensures grows { Grows new.old.trees new.new.trees }
    ensures steps { new.new.steps ≡ new.old.steps }
{
    if let Some(copy) = moved[number] {
        return Ok(copy);
    }
    let digest = old.digest(number);
    match old.below(number) {
        Below::Record(entry) => {
            let below = Below::Record(entry.clone()?);
            let node = ArenaNode {
                digest,
                first: new.count(),
                below,
            };
            add_moved(old, new, moved, number, node)
        }
        Below::Children(left, right) => {
            let left = move_node(old, new, moved, *left)?;
            let right = move_node(old, new, moved, *right)?;
            let node = ArenaNode {
                digest,
                first: new.nodes().first(left),
                below: Below::Children(left, right),
            };
            let copy = add_moved(old, new, moved, number, node)?;
            new.remember(left, right, copy);
            Ok(copy)
        }
    }
}

// Moves the nodes of a row.
fn move_row(
    alloc: Global,
    old: &Nodes,
    new: &mut Arena,
    moved: &mut [Option<usize>],
    row: &[usize],
) -> Result<Vec<usize>, AllocError>
    requires stand { Stand old.now row.now }
    requires counted { length moved.old ≡ length old.now }
    requires moved { AreMoved old.now new.old.trees moved.old }
    ensures same { IfOk result (λ next. trees_at new.new.trees next.items ≡ trees_at old.now row.now) }
    ensures stand { IfOk result (λ next. Stand new.new.trees next.items) }
    ensures moved { IfOk result (λ _. AreMoved old.now new.new.trees moved.new) }
    ensures grows { Grows new.old.trees new.new.trees }
    ensures steps { new.new.steps ≡ new.old.steps }
{
    let mut next = Vec::with_capacity(alloc, row.len())?;
    for i in 0..row.len() {
        let copy = move_node(old, new, moved, row[i])?;
        next.push(copy)?;
    }
    Ok(next)
}

// Moves the nodes of rows.
pub(crate) fn move_rows(
    alloc: Global,
    old: &Nodes,
    new: &mut Arena,
    moved: &mut [Option<usize>],
    rows: &[Vec<usize>],
) -> Result<Vec<Vec<usize>>, AllocError>
    requires stand { AllStand old.now (rows_of rows.now) }
    requires counted { length moved.old ≡ length old.now }
    requires moved { AreMoved old.now new.old.trees moved.old }
    ensures same { IfOk result (λ next. HaveSameTrees old.now new.new.trees rows.now next.items) }
    ensures stand { IfOk result (λ next. AllStand new.new.trees (rows_of next.items)) }
    ensures moved { IfOk result (λ _. AreMoved old.now new.new.trees moved.new) }
    ensures grows { Grows new.old.trees new.new.trees }
    ensures steps { new.new.steps ≡ new.old.steps }
{
    let mut next = Vec::with_capacity(alloc, rows.len())?;
    for i in 0..rows.len() {
        let row = move_row(alloc, old, new, moved, rows[i].as_slice())?;
        next.push(row)?;
    }
    Ok(next)
}

// Moves the roots of heights, and what stands below them.
pub(crate) fn move_kept(
    alloc: Global,
    old: &Nodes,
    new: &mut Arena,
    moved: &mut [Option<usize>],
    kept: &VecDeque<Height>,
) -> Result<VecDeque<Height>, AllocError>
    requires kept { AreSortedHeights old.now kept.now.items }
    requires counted { length moved.old ≡ length old.now }
    requires moved { AreMoved old.now new.old.trees moved.old }
    ensures same { IfOk result (λ next. HaveSamePairs old.now new.new.trees kept.now.items next.items) }
    ensures kept { IfOk result (λ next. AreSortedHeights new.new.trees next.items) }
    ensures grows { Grows new.old.trees new.new.trees }
    ensures steps { new.new.steps ≡ new.old.steps }
{
    let mut next = VecDeque::new(alloc);
    for i in 0..kept.len() {
        let height = kept[i];
        let root = move_node(old, new, moved, height.root)?;
        next.push_back(Height {
            root,
            count: height.count,
            time: height.time,
        })?;
    }
    Ok(next)
}
