//! Rows of leaves.

ghost use Rattle.std.specs.Prelude.{◌≡◌, ◌+◌, ◌<◌, ◌≤◌, ◌++◌, Ok, length, drop, map, take, IsTrue, IfOk, OnOk};
ghost use Rattle.std.specs.FinMap.{is_sorted};
ghost use Rattle.ibc_forest.specs.AddedLeaves.{AddsLeavesOnOk};
ghost use Rattle.ibc_forest.specs.Levels.{leaf_of, tree_at, trees_at};
ghost use Rattle.ibc_forest.specs.Leaves.{pair_at, row_pairs, AreLeaves, begins_with, is_in_front, IsLeafAt, IsPlaceOfKey, IsPlaceBehind, KeepsLeaf};
ghost use Rattle.ibc_forest.specs.Gaps.{DifferIn, IsOneOther, HasFirst, IsFoundIn, FourStandInFront};
ghost use Rattle.ibc_forest.specs.Nodes.{Grows};
ghost use Rattle.ibc_forest.specs.NodeLevels.{Stand};
ghost use Rattle.ibc_ids.specs.Texts.{same_text, text_cmp};
ghost use Rattle.ibc_merkle.specs.Proofs.{is_below};
ghost use Rattle.ibc_forest.specs.Hashes.{HashesTwoIfNew, CountsTwoIfNew, HashesNew, CountsNew, HashesNewFrom, CountsNewFrom};
ghost use Rattle.ibc_forest.specs.SameKeys.{DiffersIfNew, DiffersWhereNew, AddsOthersWhereNew};

use crate::arena::Arena;
use crate::gap::Gap;
use crate::node::Below;
use crate::shared_entry::SharedEntry;
use std::alloc::{AllocError, Global};

// The pair of a leaf.
fn leaf_at(arena: &Arena, node: usize) -> &SharedEntry
    requires there { node < length arena.now.trees }
    requires leaf { tree_at arena.now.trees node ≡ leaf_of (pair_at arena.now.trees node) }
    ensures { tree_at arena.now.trees node ≡ leaf_of result.now }
{
    match arena.below(node) {
        Below::Record(entry) => entry,
        Below::Children(_, _) => unreachable!(),
    }
}

// Whether these are the same bytes.
fn is_same(a: &[u8], b: &[u8]) -> bool
    ensures { result ≡ same_text a.now b.now }
{
    a == b
}

// Whether the first bytes stand below the second in byte order.
fn stands_below(a: &[u8], b: &[u8]) -> bool
    ensures { result ≡ is_below a.now b.now }
{
    a.cmp(b).is_lt()
}

// The place of a row of leaves, from a place on, where the keys aren't below this one any more.
pub(crate) fn place_from(arena: &Arena, row: &[usize], from: usize, key: &[u8]) -> usize
    requires leaves { AreLeaves arena.now.trees row.now }
    requires from { from ≤ length row.now }
    ensures rest { IsPlaceOfKey (row_pairs arena.now.trees row.now) from key.now result }
    ensures within { result ≤ length row.now }
{
    for at in from..row.len() {
        if !stands_below(leaf_at(arena, row[at]).key(), key) {
            return at;
        }
    }
    row.len()
}

// The place behind a place of a row of leaves, if a leaf of this key is there, and else the place.
pub(crate) fn place_behind(arena: &Arena, row: &[usize], at: usize, key: &[u8]) -> usize
    requires leaves { AreLeaves arena.now.trees row.now }
    requires within { at ≤ length row.now }
    ensures rest { IsPlaceBehind (row_pairs arena.now.trees row.now) at key.now result }
    ensures within { result ≤ length row.now }
{
    if at == row.len() {
        return at;
    }
    if is_same(leaf_at(arena, row[at]).key(), key) {
        return at + 1;
    }
    at
}

// Whether the leaf of a pair stands at a place of a row of leaves.
fn is_there(arena: &Arena, row: &[usize], at: usize, entry: &SharedEntry) -> bool
    requires leaves { AreLeaves arena.now.trees row.now }
    requires within { at ≤ length row.now }
    ensures { result ≡ begins_with entry.now (drop at (row_pairs arena.now.trees row.now)) }
{
    if at == row.len() {
        return false;
    }
    let leaf = leaf_at(arena, row[at]);
    is_same(leaf.key(), entry.key()) && is_same(leaf.value(), entry.value())
}

// The leaf of a pair: the one at a place of a row, if it is that of the pair, and else a new one, for which two texts
// are hashed.
pub(crate) fn leaf_for(
    arena: &mut Arena,
    row: &[usize],
    at: usize,
    entry: &SharedEntry,
) -> Result<usize, AllocError>
    requires leaves { AreLeaves arena.old.trees row.now }
    requires within { at ≤ length row.now }
    ensures leaf { IfOk result (λ leaf. tree_at arena.new.trees leaf ≡ leaf_of entry.now) }
    ensures there { IfOk result (λ leaf. leaf < length arena.new.trees) }
    ensures grows { Grows arena.old.trees arena.new.trees }
    ensures steps { HashesTwoIfNew row.now at entry.now arena.old arena.new }
    ensures least { OnOk result (CountsTwoIfNew row.now at entry.now arena.old arena.new) }
    ensures kept { KeepsLeaf arena.old.trees row.now at entry.now result }
{
    if is_there(arena, row, at, entry) {
        return Ok(row[at]);
    }
    arena.leaf(entry.clone()?)
}

// Whether a key stands below that of the leaf at a place of a row of leaves, or no leaf is there.
fn stands_in_front(arena: &Arena, row: &[usize], at: usize, key: &[u8]) -> bool
    requires leaves { AreLeaves arena.now.trees row.now }
    requires within { at ≤ length row.now }
    ensures { result ≡ is_in_front key.now (drop at (row_pairs arena.now.trees row.now)) }
{
    at == row.len() || stands_below(key, leaf_at(arena, row[at]).key())
}

// Adds the leaf of the next pair: that of a row where it has the same pair, which is looked for from a place of it on, and else
// a new one, for which two texts are hashed. Answers the place from which the next one is looked for.
fn add_leaf(
    arena: &mut Arena,
    row: &mut Vec<usize>,
    old: &[usize],
    place: usize,
    entries: &[SharedEntry],
) -> Result<usize, AllocError>
    requires leaves { AreLeaves arena.old.trees old.now }
    requires sorted { IsTrue (is_sorted text_cmp entries.now) }
    requires last { IsTrue (is_sorted text_cmp (row_pairs arena.old.trees old.now)) }
    requires first { HasFirst arena.old.trees entries.now row.old.items }
    requires place { place ≤ length old.now }
    requires found { IsFoundIn arena.old.trees old.now place (length row.old.items) entries.now }
    requires some { length row.old.items < length entries.now }
    ensures more { IfOk result (λ _. length row.new.items ≡ length row.old.items + 1) }
    ensures added { AddsLeavesOnOk old.now entries.now row.old row.new arena.old arena.new result }
    ensures grows { Grows arena.old.trees arena.new.trees }
{
    let entry = &entries[row.len()];
    let found = place_from(arena, old, place, entry.key());
    let leaf = leaf_for(arena, old, found, entry)?;
    row.push(leaf)?;
    Ok(place_behind(arena, old, found, entry.key()))
}

// Adds the leaves of the next four pairs, which stand all in front of a place of a row: eight texts are hashed. The next one
// is looked for from the same place.
fn add_four(
    arena: &mut Arena,
    row: &mut Vec<usize>,
    old: &[usize],
    place: usize,
    entries: &[SharedEntry],
) -> Result<usize, AllocError>
    requires leaves { AreLeaves arena.old.trees old.now }
    requires sorted { IsTrue (is_sorted text_cmp entries.now) }
    requires last { IsTrue (is_sorted text_cmp (row_pairs arena.old.trees old.now)) }
    requires first { HasFirst arena.old.trees entries.now row.old.items }
    requires place { place ≤ length old.now }
    requires found { IsFoundIn arena.old.trees old.now place (length row.old.items) entries.now }
    requires some { length row.old.items + 4 ≤ length entries.now }
    requires new { FourStandInFront arena.old.trees old.now place row.old.items entries.now }
    ensures more { IfOk result (λ _. length row.new.items ≡ length row.old.items + 4) }
    ensures added { AddsLeavesOnOk old.now entries.now row.old row.new arena.old arena.new result }
    ensures grows { Grows arena.old.trees arena.new.trees }
{
    let first = row.len();
    let leaves = arena.leaf_four(&entries[first..first + 4])?;
    row.extend_from_slice(&leaves)?;
    Ok(place)
}

// Whether no memory is asked for before the last leaf of the next four pairs.
fn have_room(arena: &Arena, entries: &[SharedEntry], next: usize) -> bool
    requires { next + 4 ≤ length entries.now }
{
    arena.has_room_for_four()
        && entries[next].is_shared()
        && entries[next + 1].is_shared()
        && entries[next + 2].is_shared()
        && entries[next + 3].is_shared()
}

// Adds the leaves of the next pairs, of one or of four, up to a place at most. Answers the place from which the next one is
// looked for.
fn add_some(
    arena: &mut Arena,
    row: &mut Vec<usize>,
    old: &[usize],
    place: usize,
    entries: &[SharedEntry],
    end: usize,
) -> Result<usize, AllocError>
    requires leaves { AreLeaves arena.old.trees old.now }
    requires sorted { IsTrue (is_sorted text_cmp entries.now) }
    requires last { IsTrue (is_sorted text_cmp (row_pairs arena.old.trees old.now)) }
    requires first { HasFirst arena.old.trees entries.now row.old.items }
    requires place { place ≤ length old.now }
    requires found { IsFoundIn arena.old.trees old.now place (length row.old.items) entries.now }
    requires some { length row.old.items < end }
    requires end { end ≤ length entries.now }
    ensures more { IfOk result (λ _. length row.old.items < length row.new.items) }
    ensures end { IfOk result (λ _. length row.new.items ≤ end) }
    ensures added { AddsLeavesOnOk old.now entries.now row.old row.new arena.old arena.new result }
    ensures grows { Grows arena.old.trees arena.new.trees }
{
    let next = row.len();
    if end - next >= 4
        && stands_in_front(arena, old, place, entries[next + 3].key())
        && have_room(arena, entries, next)
    {
        return add_four(arena, row, old, place, entries);
    }
    add_leaf(arena, row, old, place, entries)
}

// Adds the leaves of pairs up to a place to those of the pairs before: those of a row where they have the same pairs, which are
// looked for from a place of it on, and two texts are hashed for each other one. Answers the place from which the next one
// is looked for.
fn add_leaves(
    arena: &mut Arena,
    row: &mut Vec<usize>,
    old: &[usize],
    place: usize,
    entries: &[SharedEntry],
    end: usize,
) -> Result<usize, AllocError>
    requires leaves { AreLeaves arena.old.trees old.now }
    requires sorted { IsTrue (is_sorted text_cmp entries.now) }
    requires last { IsTrue (is_sorted text_cmp (row_pairs arena.old.trees old.now)) }
    requires first { HasFirst arena.old.trees entries.now row.old.items }
    requires place { place ≤ length old.now }
    requires found { IsFoundIn arena.old.trees old.now place (length row.old.items) entries.now }
    requires from { length row.old.items ≤ end }
    requires end { end ≤ length entries.now }
    ensures first { IfOk result (λ _. HasFirst arena.new.trees entries.now row.new.items) }
    ensures front { IfOk result (λ _. take (length row.old.items) row.new.items ≡ row.old.items) }
    ensures end { IfOk result (λ _. length row.new.items ≡ end) }
    ensures place { IfOk result (λ next. next ≤ length old.now) }
    ensures found { IfOk result (λ next. IsFoundIn arena.old.trees old.now next end entries.now) }
    ensures grows { Grows arena.old.trees arena.new.trees }
    ensures steps { IfOk result (λ _. HashesNewFrom old.now entries.now (length row.old.items) end arena.old arena.new) }
    ensures least { OnOk result (CountsNewFrom old.now entries.now (length row.old.items) end arena.old arena.new) }
    ensures same { AddsOthersWhereNew arena.old old.now entries.now row.old row.new end result }
{
    let mut at = place;
    for i in row.len()..end {
        // where four leaves came together the row is longer
        if row.len() == i {
            at = add_some(arena, row, old, at, entries, end)?;
        }
    }
    Ok(at)
}

// The leaf of the pair at a place, the only one that may be another than in a row of leaves: the one of the row, if it is that
// of the pair, and else a new one, for which two texts are hashed.
pub(crate) fn other_leaf(
    arena: &mut Arena,
    old: &[usize],
    entries: &[SharedEntry],
    index: usize,
) -> Result<usize, AllocError>
    requires leaves { AreLeaves arena.old.trees old.now }
    requires sorted { IsTrue (is_sorted text_cmp entries.now) }
    requires last { IsTrue (is_sorted text_cmp (row_pairs arena.old.trees old.now)) }
    requires other { IsOneOther index (row_pairs arena.old.trees old.now) entries.now }
    ensures leaf { IfOk result (λ leaf. IsLeafAt arena.new.trees entries.now index leaf) }
    ensures there { IfOk result (λ leaf. leaf < length arena.new.trees) }
    ensures grows { Grows arena.old.trees arena.new.trees }
    ensures steps { HashesNew old.now entries.now arena.old arena.new }
    ensures least { OnOk result (CountsNew old.now entries.now arena.old arena.new) }
    ensures same { DiffersIfNew arena.old old.now entries.now index result }
{
    let entry = &entries[index];
    let found = place_from(arena, old, index, entry.key());
    leaf_for(arena, old, found, entry)
}

// Adds so many numbers of a row from a place on. Answers the place behind them, and where there are none the other one.
fn add_kept(
    row: &mut Vec<usize>,
    old: &[usize],
    from: usize,
    kept: usize,
    place: usize,
) -> Result<usize, AllocError>
    requires there { from + kept ≤ length old.now }
    ensures row { IfOk result (λ _. row.new.items ≡ row.old.items ++ take kept (drop from old.now)) }
    ensures none { kept ≡ 0 → result ≡ Ok place }
    ensures some { 0 < kept → IfOk result (λ next. next ≡ from + kept) }
{
    if kept == 0 {
        return Ok(place);
    }
    row.extend_from_slice(&old[from..from + kept])?;
    Ok(from + kept)
}

// The leaves of pairs that differ in gaps from those of a row of leaves: behind the gaps those of the row, and in them too
// where they have the same pairs; two texts are hashed for each other one.
pub(crate) fn leaf_row(
    alloc: Global,
    arena: &mut Arena,
    old: &[usize],
    entries: &[SharedEntry],
    gaps: &[Gap],
) -> Result<Vec<usize>, AllocError>
    requires leaves { AreLeaves arena.old.trees old.now }
    requires sorted { IsTrue (is_sorted text_cmp entries.now) }
    requires last { IsTrue (is_sorted text_cmp (row_pairs arena.old.trees old.now)) }
    requires gaps { DifferIn gaps.now (row_pairs arena.old.trees old.now) entries.now }
    ensures leaves { IfOk result (λ row. trees_at arena.new.trees row.items ≡ map leaf_of entries.now) }
    ensures stand { IfOk result (λ row. Stand arena.new.trees row.items) }
    ensures grows { Grows arena.old.trees arena.new.trees }
    ensures steps { IfOk result (λ row. HashesNew old.now entries.now arena.old arena.new) }
    ensures least { OnOk result (CountsNew old.now entries.now arena.old arena.new) }
    ensures same { DiffersWhereNew arena.old old.now entries.now result }
    ensures gaps { IfOk result (λ row. DifferIn gaps.now old.now row.items) }
{
    let mut row = Vec::with_capacity(alloc, entries.len())?;
    let mut from = 0;
    let mut place = 0;
    for i in 0..gaps.len() {
        let gap = gaps[i];
        let behind = add_kept(&mut row, old, from, gap.kept, place)?;
        let end = row.len() + gap.come;
        place = add_leaves(arena, &mut row, old, behind, entries, end)?;
        from += gap.kept + gap.gone;
    }
    row.extend_from_slice(&old[from..])?;
    Ok(row)
}
