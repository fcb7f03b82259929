//! The rows of the tree over pairs, from the rows of the tree before.

ghost use Rattle.std.specs.Prelude.{true, false, ◌≡◌, ◌+◌, ◌-◌, ◌*◌, ◌<◌, ◌≤◌, length, IsTrue, IfOk, IfSome, OnOk, OnErr};
ghost use Rattle.std.specs.FinMap.{is_sorted};
ghost use Rattle.ibc_ids.specs.Texts.{text_cmp};
ghost use Rattle.ibc_forest.specs.Counts.{CountsAtLeast};
ghost use Rattle.ibc_forest.specs.Leaves.{tree_pairs, DiffersAtFew, DiffersAtMany};
ghost use Rattle.ibc_forest.specs.Gaps.{DifferIn, IsOneOther, DifferAtOne, IsFrontOf};
ghost use Rattle.ibc_forest.specs.Nodes.{Grows};
ghost use Rattle.ibc_forest.specs.NodeLevels.{Stand, IsPyramid, rows_of, leaves_of, IsAsLong};
ghost use Rattle.ibc_forest.specs.Forest.{IsWorking, IsLast};
ghost use Rattle.ibc_forest.specs.Replacements.{AreReplaced, come_count};
ghost use Rattle.ibc_merkle.specs.Tree.{Pairs};
ghost use Rattle.ibc_forest.specs.Hashes.{CountsNew, HashesFew, HashesPathsOnOk, HashesAbove};

use crate::arena::Arena;
use crate::gap::Gap;
use crate::leaves::{leaf_row, other_leaf};
use crate::replacing::{put_others, replacements};
use crate::shared_entry::SharedEntry;
use crate::working::{copied, count_differing, first_of, put_leaf, put_leaves, raised};
use std::alloc::{AllocError, Global};

// Whether it takes fewer texts to put the other leaves into the tree than it has leaves.
fn are_few(rows: &[Vec<usize>], row: &[usize]) -> bool
    ensures few { result ≡ true → DiffersAtFew rows.now row.now }
    ensures many { result ≡ false → DiffersAtMany rows.now row.now }
{
    let old = first_of(rows);
    if row.len() != old.len() {
        return false;
    }
    let above = rows.len().saturating_sub(1);
    count_differing(row, old).saturating_mul(above) < row.len()
}

// The rows with other leaves: at most one text is hashed for each other one and row above it.
fn changed(
    alloc: Global,
    arena: &mut Arena,
    rows: &[Vec<usize>],
    row: &[usize],
) -> Result<Vec<Vec<usize>>, AllocError>
    requires levels { IsPyramid arena.old.trees (rows_of rows.now) }
    requires stand { Stand arena.old.trees row.now }
    requires counted { IsAsLong rows.now row.now }
    ensures levels { IfOk result (λ next. IsPyramid arena.new.trees (rows_of next.items)) }
    ensures row { IfOk result (λ next. leaves_of next.items ≡ row.now) }
    ensures grows { Grows arena.old.trees arena.new.trees }
    ensures steps { IfOk result (λ _. HashesAbove rows.now row.now arena.old arena.new) }
    ensures least { OnOk result (CountsAtLeast 0 arena.old.steps arena.new.steps) }
{
    let mut next = copied(alloc, rows)?;
    let mut path = Vec::new(alloc);
    put_leaves(arena, next.as_mut_slice(), &mut path, row)?;
    Ok(next)
}

// How many first numbers are the same in rows that differ in gaps, the first of which has so many.
#[tactic(auto, using(crate::proofs::KnownRows::front_first, crate::proofs::KnownRows::front_all))]
fn front_of(gaps: &[Gap], all: usize) -> usize
    ensures { IsFrontOf gaps.now all result }
{
    if gaps.is_empty() {
        return all;
    }
    gaps[0].kept
}

// The rows over a row of leaves that differs in gaps from the row before, from the rows before: fewer texts are hashed than
// there are leaves, and of as many leaves as before at most one for each other leaf and row above it.
fn rows_over(
    alloc: Global,
    arena: &mut Arena,
    rows: &[Vec<usize>],
    row: Vec<usize>,
    gaps: &[Gap],
) -> Result<Vec<Vec<usize>>, AllocError>
    requires last { IsLast arena.old.trees (rows_of rows.now) }
    requires stand { Stand arena.old.trees row.items }
    requires some { 0 < length row.items }
    requires gaps { DifferIn gaps.now (leaves_of rows.now) row.items }
    ensures levels { IfOk result (λ next. IsPyramid arena.new.trees (rows_of next.items)) }
    ensures row { IfOk result (λ next. leaves_of next.items ≡ row.items) }
    ensures grows { Grows arena.old.trees arena.new.trees }
    ensures steps { IfOk result (λ _. arena.new.steps + 1 ≤ arena.old.steps + length row.items) }
    ensures least { OnOk result (CountsAtLeast 0 arena.old.steps arena.new.steps) }
    ensures few { IsAsLong rows.now row.items → IfOk result (λ _. HashesAbove rows.now row.items arena.old arena.new) }
{
    if are_few(rows, row.as_slice()) {
        return changed(alloc, arena, rows, row.as_slice());
    }
    let front = front_of(gaps, first_of(rows).len());
    raised(alloc, arena, row, rows, front)
}

// The rows of the tree over pairs that differ in gaps from those before, from the rows before: at most two texts are hashed
// for each new pair, and fewer over them than there are pairs; where the keys are the same, at most one for each new pair and
// level above it.
fn next_rows(
    alloc: Global,
    arena: &mut Arena,
    rows: &[Vec<usize>],
    entries: &[SharedEntry],
    gaps: &[Gap],
) -> Result<Vec<Vec<usize>>, AllocError>
    requires last { IsLast arena.old.trees (rows_of rows.now) }
    requires some { 0 < length entries.now }
    requires sorted { IsTrue (is_sorted text_cmp entries.now) }
    requires sorted_last { IsTrue (is_sorted text_cmp (tree_pairs arena.old.trees rows.now)) }
    requires gaps { DifferIn gaps.now (tree_pairs arena.old.trees rows.now) entries.now }
    ensures working { IfOk result (λ next. IsWorking arena.new.trees (rows_of next.items)) }
    ensures pairs { IfOk result (λ next. tree_pairs arena.new.trees next.items ≡ entries.now) }
    ensures grows { Grows arena.old.trees arena.new.trees }
    ensures steps { IfOk result (λ _. HashesFew rows.now entries.now arena.old arena.new) }
    ensures least { OnOk result (CountsNew (leaves_of rows.now) entries.now arena.old arena.new) }
    ensures same { HashesPathsOnOk rows.now entries.now arena.old arena.new result }
{
    let row = leaf_row(alloc, arena, first_of(rows), entries, gaps)?;
    rows_over(alloc, arena, rows, row, gaps)
}

// The place of the one pair that came in place of another, where pairs differ in one such gap alone.
fn one_place(gaps: &[Gap]) -> Option<usize>
    ensures { IfSome result (λ index. DifferAtOne gaps.now index) }
{
    if gaps.len() != 1 {
        return None;
    }
    let gap = gaps[0];
    if gap.gone == 1 && gap.come == 1 {
        return Some(gap.kept);
    }
    None
}

// Puts the leaf of the pair at a place, the only one that may be another, into the rows: at most two texts are hashed for it,
// and one a row above it. A refusal leaves the rows.
fn put_other(
    alloc: Global,
    arena: &mut Arena,
    rows: &mut [Vec<usize>],
    entries: &[SharedEntry],
    index: usize,
) -> Result<(), AllocError>
    requires last { IsLast arena.old.trees (rows_of rows.old) }
    requires sorted { IsTrue (is_sorted text_cmp entries.now) }
    requires sorted_last { IsTrue (is_sorted text_cmp (tree_pairs arena.old.trees rows.old)) }
    requires other { IsOneOther index (tree_pairs arena.old.trees rows.old) entries.now }
    ensures working { IfOk result (λ _. IsWorking arena.new.trees (rows_of rows.new)) }
    ensures pairs { IfOk result (λ _. tree_pairs arena.new.trees rows.new ≡ entries.now) }
    ensures grows { Grows arena.old.trees arena.new.trees }
    ensures steps { IfOk result (λ _. HashesFew rows.old entries.now arena.old arena.new) }
    ensures least { OnOk result (CountsNew (leaves_of rows.old) entries.now arena.old arena.new) }
    ensures same { HashesPathsOnOk rows.old entries.now arena.old arena.new result }
    ensures err { OnErr result (rows.new ≡ rows.old) }
{
    let leaf = other_leaf(arena, first_of(rows), entries, index)?;
    let mut path = Vec::new(alloc);
    put_leaf(arena, rows, &mut path, index, leaf)
}

// Whether no pair is gone and none has come in any gap: then the pairs are the last ones.
fn are_empty(gaps: &[Gap]) -> bool
    ensures { result ≡ true → (last pairs : Pairs) → DifferIn gaps.now last pairs → pairs ≡ last }
{
    for i in 0..gaps.len() {
        if gaps[i].gone != 0 || gaps[i].come != 0 {
            return false;
        }
    }
    true
}

// The most places of a tree for each of which as many texts as there are rows above it make fewer than it has leaves.
#[tactic(auto, using(crate::proofs::OtherLeaves::most_texts))]
fn most_places(rows: &[Vec<usize>]) -> usize
    ensures { result * (length rows.now - 1) ≤ length (leaves_of rows.now) - 1 }
{
    let above = rows.len().saturating_sub(1);
    if above == 0 {
        return 0;
    }
    first_of(rows).len().saturating_sub(1) / above
}

// Whether as many pairs came as are gone in each gap, and so many in all at most.
fn are_replaced(gaps: &[Gap], most: usize) -> bool
    ensures each { result ≡ true → AreReplaced gaps.now }
    ensures few { result ≡ true → come_count gaps.now ≤ most }
{
    let mut left = most;
    for i in 0..gaps.len() {
        let gap = gaps[i];
        if gap.gone != gap.come || gap.come > left {
            return false;
        }
        left -= gap.come;
    }
    true
}

// Puts the leaves of the pairs in gaps, each as long as what is gone, into the rows: at most two texts are hashed for each new
// one, and one a row above it. A refusal leaves the rows.
fn put_replaced(
    alloc: Global,
    arena: &mut Arena,
    rows: &mut [Vec<usize>],
    entries: &[SharedEntry],
    gaps: &[Gap],
) -> Result<(), AllocError>
    requires last { IsLast arena.old.trees (rows_of rows.old) }
    requires some { 0 < length entries.now }
    requires sorted { IsTrue (is_sorted text_cmp entries.now) }
    requires sorted_last { IsTrue (is_sorted text_cmp (tree_pairs arena.old.trees rows.old)) }
    requires gaps { DifferIn gaps.now (tree_pairs arena.old.trees rows.old) entries.now }
    requires replaced { AreReplaced gaps.now }
    requires few { come_count gaps.now * (length rows.old - 1) ≤ length (leaves_of rows.old) - 1 }
    ensures working { IfOk result (λ _. IsWorking arena.new.trees (rows_of rows.new)) }
    ensures pairs { IfOk result (λ _. tree_pairs arena.new.trees rows.new ≡ entries.now) }
    ensures grows { Grows arena.old.trees arena.new.trees }
    ensures steps { IfOk result (λ _. HashesFew rows.old entries.now arena.old arena.new) }
    ensures least { OnOk result (CountsNew (leaves_of rows.old) entries.now arena.old arena.new) }
    ensures same { HashesPathsOnOk rows.old entries.now arena.old arena.new result }
    ensures err { OnErr result (rows_of rows.new ≡ rows_of rows.old) }
{
    let others = replacements(alloc, arena, first_of(rows), entries, gaps)?;
    put_others(alloc, arena, rows, others.as_slice())
}

// Turns the rows of the tree over pairs to those of the next one, whose pairs differ in gaps, within the bounds of `next_rows`.
// Where the pairs are the same, or few are others at the same places, nothing that grows with the pairs is read or written. A
// refusal leaves the rows.
pub(crate) fn turn_rows(
    alloc: Global,
    arena: &mut Arena,
    rows: &mut Vec<Vec<usize>>,
    entries: &[SharedEntry],
    gaps: &[Gap],
) -> Result<(), AllocError>
    requires last { IsLast arena.old.trees (rows_of rows.old.items) }
    requires some { 0 < length entries.now }
    requires sorted { IsTrue (is_sorted text_cmp entries.now) }
    requires sorted_last { IsTrue (is_sorted text_cmp (tree_pairs arena.old.trees rows.old.items)) }
    requires gaps { DifferIn gaps.now (tree_pairs arena.old.trees rows.old.items) entries.now }
    ensures working { IfOk result (λ _. IsWorking arena.new.trees (rows_of rows.new.items)) }
    ensures pairs { IfOk result (λ _. tree_pairs arena.new.trees rows.new.items ≡ entries.now) }
    ensures grows { Grows arena.old.trees arena.new.trees }
    ensures steps { IfOk result (λ _. HashesFew rows.old.items entries.now arena.old arena.new) }
    ensures least { OnOk result (CountsNew (leaves_of rows.old.items) entries.now arena.old arena.new) }
    ensures same { HashesPathsOnOk rows.old.items entries.now arena.old arena.new result }
    ensures err { OnErr result (rows_of rows.new.items ≡ rows_of rows.old.items) }
{
    if are_empty(gaps) {
        return Ok(());
    }
    if let Some(index) = one_place(gaps) {
        return put_other(alloc, arena, rows.as_mut_slice(), entries, index);
    }
    if are_replaced(gaps, most_places(rows.as_slice())) {
        return put_replaced(alloc, arena, rows.as_mut_slice(), entries, gaps);
    }
    let next = next_rows(alloc, arena, rows.as_slice(), entries, gaps)?;
    *rows = next;
    Ok(())
}
