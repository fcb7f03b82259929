//! Other leaves at several places of a tree: which they are, and how they are put.

ghost use Rattle.std.specs.Prelude.{◌≡◌, ◌+◌, ◌^◌, ◌<◌, ◌≤◌, length, drop, slice_index_or, IsTrue, IfOk, OnOk, OnErr};
ghost use Rattle.std.specs.FinMap.{is_sorted};
ghost use Rattle.ibc_ids.specs.Texts.{text_cmp};
ghost use Rattle.ibc_forest.specs.Counts.{CountsAtLeast};
ghost use Rattle.ibc_forest.specs.Leaves.{row_pairs, AreLeaves};
ghost use Rattle.ibc_forest.specs.Gaps.{DifferIn, IsFoundFrom, IsFoundIn};
ghost use Rattle.ibc_forest.specs.Nodes.{Grows};
ghost use Rattle.ibc_forest.specs.NodeLevels.{Stand, IsPyramid, rows_of, leaves_of, PutsLeaf};
ghost use Rattle.ibc_forest.specs.Replacements.{AreReplaced, come_count, with_leaves, FitIn, HasReplaced, nodes_at, put_back, AreLong, HasOwnLeaf, AddsOther, StayFit, AddsOneIfOther, LeadTo, rows_before};
ghost use Rattle.ibc_forest.specs.Hashes.{HashesNew, CountsNew, HashesNewFrom, CountsNewFrom, HashesPaths};
ghost use Rattle.ibc_forest.specs.SameKeys.{ReplacesNewFrom, ReplacesNew};

use crate::arena::Arena;
use crate::ascent::{climb, put_path};
use crate::gap::Gap;
use crate::leaves::{leaf_for, place_behind, place_from};
use crate::replacement::{NotedPath, Replacement};
use crate::shared_entry::SharedEntry;
use std::alloc::{AllocError, Global};

// Adds a leaf for a place, if another one stands there.
fn add_other(
    others: &mut Vec<Replacement>,
    row: &[usize],
    place: usize,
    leaf: usize,
) -> Result<(), AllocError>
    requires place { place < length row.now }
    requires there { HasOwnLeaf row.now others.old.items place }
    ensures leaves { OnOk result (AddsOther row.now place leaf others.old.items others.new.items) }
    ensures fit { OnOk result (StayFit row.now leaf others.old.items others.new.items) }
    ensures count { OnOk result (AddsOneIfOther row.now place leaf others.old.items others.new.items) }
{
    if row[place] == leaf {
        return Ok(());
    }
    others.push(Replacement { place, leaf })?;
    Ok(())
}

// Adds the leaves of the pairs from a place up to another one to those before, where they are others than those of the row: two
// texts are hashed for each pair that the row lacks. Pairs are looked for from a place of the row on, and the one from which the
// next one is looked for is answered.
fn add_others(
    arena: &mut Arena,
    others: &mut Vec<Replacement>,
    old: &[usize],
    place: usize,
    entries: &[SharedEntry],
    from: usize,
    end: usize,
) -> Result<usize, AllocError>
    requires leaves { AreLeaves arena.old.trees old.now }
    requires sorted { IsTrue (is_sorted text_cmp entries.now) }
    requires last { IsTrue (is_sorted text_cmp (row_pairs arena.old.trees old.now)) }
    requires replaced { HasReplaced arena.old.trees entries.now old.now others.old.items from }
    requires place { place ≤ length old.now }
    requires found { IsFoundFrom (row_pairs arena.old.trees old.now) place (drop from entries.now) }
    requires from { from ≤ end }
    requires end { end ≤ length entries.now }
    requires there { end ≤ length old.now }
    ensures replaced { IfOk result (λ _. HasReplaced arena.new.trees entries.now old.now others.new.items end) }
    ensures place { IfOk result (λ next. next ≤ length old.now) }
    ensures found { IfOk result (λ next. IsFoundIn arena.old.trees old.now next end entries.now) }
    ensures grows { Grows arena.old.trees arena.new.trees }
    ensures steps { IfOk result (λ _. HashesNewFrom old.now entries.now from end arena.old arena.new) }
    ensures least { OnOk result (CountsNewFrom old.now entries.now from end arena.old arena.new) }
    ensures few { OnOk result (length others.new.items + from ≤ length others.old.items + end) }
    ensures same { ReplacesNewFrom arena.old old.now entries.now from end others.old others.new result }
{
    let mut at = place;
    for i in from..end {
        let entry = &entries[i];
        let found = place_from(arena, old, at, entry.key());
        let leaf = leaf_for(arena, old, found, entry)?;
        add_other(others, old, i, leaf)?;
        at = place_behind(arena, old, found, entry.key());
    }
    Ok(at)
}

// The place from which pairs behind pairs that stayed are looked for: behind those, and where none stayed the other one.
fn place_past(gap: Gap, from: usize, place: usize) -> usize
    requires { from + gap.kept < 2 ^ 64 }
    ensures none { gap.kept ≡ 0 → result ≡ place }
    ensures some { 0 < gap.kept → result ≡ from + gap.kept }
{
    if gap.kept == 0 {
        return place;
    }
    from + gap.kept
}

// The leaves of pairs in gaps, each as long as what is gone, where they are others than those of the row: two texts are hashed
// for each pair that the row lacks.
pub(crate) fn replacements(
    alloc: Global,
    arena: &mut Arena,
    old: &[usize],
    entries: &[SharedEntry],
    gaps: &[Gap],
) -> Result<Vec<Replacement>, AllocError>
    requires leaves { AreLeaves arena.old.trees old.now }
    requires sorted { IsTrue (is_sorted text_cmp entries.now) }
    requires last { IsTrue (is_sorted text_cmp (row_pairs arena.old.trees old.now)) }
    requires gaps { DifferIn gaps.now (row_pairs arena.old.trees old.now) entries.now }
    requires replaced { AreReplaced gaps.now }
    ensures leaves { IfOk result (λ others. LeadTo arena.new.trees old.now others.items entries.now) }
    ensures stand { IfOk result (λ others. Stand arena.new.trees (with_leaves old.now others.items)) }
    ensures fit { IfOk result (λ others. FitIn (length old.now) arena.new.trees others.items) }
    ensures grows { Grows arena.old.trees arena.new.trees }
    ensures steps { IfOk result (λ _. HashesNew old.now entries.now arena.old arena.new) }
    ensures least { OnOk result (CountsNew old.now entries.now arena.old arena.new) }
    ensures few { IfOk result (λ others. length others.items ≤ come_count gaps.now) }
    ensures same { ReplacesNew arena.old old.now entries.now result }
{
    let mut others = Vec::new(alloc);
    let mut from = 0;
    let mut place = 0;
    for i in 0..gaps.len() {
        let gap = gaps[i];
        let behind = place_past(gap, from, place);
        let start = from + gap.kept;
        let end = start + gap.come;
        place = add_others(arena, &mut others, old, behind, entries, start, end)?;
        from = end;
    }
    Ok(others)
}

// The node at a place of a row, or 0.
fn node_at(row: &[usize], place: usize) -> usize
    ensures { result ≡ slice_index_or row.now place 0 }
{
    if place < row.len() {
        return row[place];
    }
    0
}

// The nodes at a place of a tree and above it.
fn noted_path(alloc: Global, rows: &[Vec<usize>], index: usize) -> Result<NotedPath, AllocError>
    ensures place { IfOk result (λ path. path.place ≡ index) }
    ensures nodes { IfOk result (λ path. path.nodes.items ≡ nodes_at (rows_of rows.now) index) }
{
    let mut nodes = Vec::with_capacity(alloc, rows.len())?;
    let mut place = index;
    for level in 0..rows.len() {
        nodes.push(node_at(rows[level].as_slice(), place))?;
        place /= 2;
    }
    Ok(NotedPath {
        place: index,
        nodes,
    })
}

// Puts another leaf at its place of the tree, and notes what stood there and above: at most one text is hashed a row above it.
// A refusal leaves both.
fn put_noted(
    alloc: Global,
    arena: &mut Arena,
    rows: &mut [Vec<usize>],
    path: &mut Vec<usize>,
    noted: &mut Vec<NotedPath>,
    other: Replacement,
) -> Result<(), AllocError>
    requires levels { IsPyramid arena.old.trees (rows_of rows.old) }
    requires place { other.place < length (leaves_of rows.old) }
    requires leaf { other.leaf < length arena.old.trees }
    requires long { AreLong (length rows.old) noted.old.items }
    ensures levels { OnOk result (IsPyramid arena.new.trees (rows_of rows.new)) }
    ensures row { OnOk result (PutsLeaf rows.old rows.new other.place other.leaf) }
    ensures grows { Grows arena.old.trees arena.new.trees }
    ensures steps { OnOk result (arena.new.steps + 1 ≤ arena.old.steps + length rows.old) }
    ensures least { OnOk result (CountsAtLeast 0 arena.old.steps arena.new.steps) }
    ensures noted { rows_before noted.new.items rows.new ≡ rows_before noted.old.items rows.old }
    ensures long { AreLong (length rows.old) noted.new.items }
{
    noted.reserve(1)?;
    path.clear();
    climb(arena, rows, other.place, other.leaf, path)?;
    let before = noted_path(alloc, rows, other.place)?;
    noted.push_reserved(before);
    put_path(rows, other.place, path.as_slice());
    Ok(())
}

// Puts other leaves at their places, one after the other, and notes what stood there and above.
fn put_each(
    alloc: Global,
    arena: &mut Arena,
    rows: &mut [Vec<usize>],
    others: &[Replacement],
    noted: &mut Vec<NotedPath>,
) -> Result<(), AllocError>
    requires levels { IsPyramid arena.old.trees (rows_of rows.old) }
    requires fit { FitIn (length (leaves_of rows.old)) arena.old.trees others.now }
    requires long { AreLong (length rows.old) noted.old.items }
    ensures levels { OnOk result (IsPyramid arena.new.trees (rows_of rows.new)) }
    ensures row { OnOk result (leaves_of rows.new ≡ with_leaves (leaves_of rows.old) others.now) }
    ensures grows { Grows arena.old.trees arena.new.trees }
    ensures steps { OnOk result (HashesPaths others.now rows.old arena.old arena.new) }
    ensures least { OnOk result (CountsAtLeast 0 arena.old.steps arena.new.steps) }
    ensures noted { rows_before noted.new.items rows.new ≡ rows_before noted.old.items rows.old }
    ensures long { AreLong (length rows.old) noted.new.items }
{
    let mut path = Vec::new(alloc);
    for i in 0..others.len() {
        put_noted(alloc, arena, rows, &mut path, noted, others[i])?;
    }
    Ok(())
}

// Puts back what was noted, the last first.
fn put_all_back(rows: &mut [Vec<usize>], noted: &[NotedPath])
    requires { AreLong (length rows.old) noted.now }
    ensures { rows_of rows.new ≡ put_back noted.now (rows_of rows.old) }
{
    let mut left = noted.len();
    while left > 0 {
        left -= 1;
        let path = &noted[left];
        put_path(rows, path.place, path.nodes.as_slice());
    }
}

// Puts other leaves at their places of the tree: at most one text is hashed for each and row above it. A refusal leaves the rows.
pub(crate) fn put_others(
    alloc: Global,
    arena: &mut Arena,
    rows: &mut [Vec<usize>],
    others: &[Replacement],
) -> Result<(), AllocError>
    requires levels { IsPyramid arena.old.trees (rows_of rows.old) }
    requires fit { FitIn (length (leaves_of rows.old)) arena.old.trees others.now }
    ensures levels { OnOk result (IsPyramid arena.new.trees (rows_of rows.new)) }
    ensures row { OnOk result (leaves_of rows.new ≡ with_leaves (leaves_of rows.old) others.now) }
    ensures grows { Grows arena.old.trees arena.new.trees }
    ensures steps { OnOk result (HashesPaths others.now rows.old arena.old arena.new) }
    ensures least { OnOk result (CountsAtLeast 0 arena.old.steps arena.new.steps) }
    ensures err { OnErr result (rows_of rows.new ≡ rows_of rows.old) }
{
    let mut noted = Vec::new(alloc);
    let result = put_each(alloc, arena, rows, others, &mut noted);
    if result.is_err() {
        put_all_back(rows, noted.as_slice());
    }
    result
}
