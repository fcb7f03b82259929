//! Rows of nodes: the levels of a tree.

ghost use Rattle.std.specs.Prelude.{◌≡◌, ◌+◌, ◌*◌, ◌/◌, ◌<◌, ◌≤◌, ◌++◌, length, take, IfOk, OnOk};
ghost use Rattle.ibc_forest.specs.Counts.{CountsAtLeast};
ghost use Rattle.ibc_forest.specs.Levels.{BeginsAbove, odd_rest};
ghost use Rattle.ibc_forest.specs.Nodes.{Grows};
ghost use Rattle.ibc_forest.specs.NodeLevels.{AreFirstAbove, Stand};
ghost use Rattle.ibc_forest.specs.Gathered.{FrontStays, PairedBut, WaitingStaysBehind};
ghost use Rattle.ibc_forest.specs.Parents.{IsLevelAbove};
ghost use Rattle.ibc_forest.specs.Hashes.{HashesOneOrWaits, HashesOneForEach};

use crate::arena::Arena;
use crate::joining::make_waiting;
use crate::waiting::Waiting;
use std::alloc::{AllocError, Global};

// Adds the last node of a row of an odd number of nodes.
fn add_odd(above: &mut Vec<usize>, row: &[usize]) -> Result<(), AllocError>
    ensures { OnOk result (above.new.items ≡ above.old.items ++ odd_rest row.now) }
{
    if row.len() % 2 == 0 {
        return Ok(());
    }
    above.push(row[row.len() - 1])?;
    Ok(())
}

// Adds the node over the next pair of a row, if the left node remembers it. Else the place waits, and the number of the left node
// stands there until the node is made. Four that wait are made at once. Where memory is soon to be asked for, the node is made by
// itself.
fn add_pair(
    arena: &mut Arena,
    above: &mut Vec<usize>,
    row: &[usize],
    place: usize,
    waiting: &mut Waiting,
) -> Result<(), AllocError>
    requires row { Stand arena.old.trees row.now }
    requires place { place ≡ length above.old.items }
    requires within { 2 * place + 1 < length row.now }
    requires room { length waiting.old < 4 }
    requires gathered { PairedBut arena.old.trees row.now above.old.items waiting.old }
    ensures gathered { OnOk result (PairedBut arena.new.trees row.now above.new.items waiting.new) }
    ensures room { OnOk result (length waiting.new < 4) }
    ensures counted { OnOk result (length above.new.items ≡ length above.old.items + 1) }
    ensures front { OnOk result (FrontStays waiting.old above.old.items above.new.items) }
    ensures behind { OnOk result (WaitingStaysBehind place waiting.old waiting.new) }
    ensures grows { Grows arena.old.trees arena.new.trees }
    ensures steps { OnOk result (HashesOneOrWaits arena.old arena.new waiting.old waiting.new) }
    ensures least { OnOk result (CountsAtLeast 0 arena.old.steps arena.new.steps) }
{
    let (left, right) = (row[2 * place], row[2 * place + 1]);
    if let Some(parent) = arena.remembered(left, right) {
        above.push(parent)?;
        return Ok(());
    }
    above.push(left)?;
    let alone = waiting.places().is_empty() && !arena.has_room_for_four();
    waiting.push(place);
    if alone || waiting.is_full() {
        make_waiting(arena, above, row, waiting)?;
    }
    Ok(())
}

// Adds the nodes over the next pairs of a row. Those that nobody remembers are made by fours.
fn add_pairs(arena: &mut Arena, above: &mut Vec<usize>, row: &[usize]) -> Result<(), AllocError>
    requires row { Stand arena.old.trees row.now }
    requires above { AreFirstAbove arena.old.trees row.now above.old.items }
    ensures above { OnOk result (AreFirstAbove arena.new.trees row.now above.new.items) }
    ensures front { OnOk result (take (length above.old.items) above.new.items ≡ above.old.items) }
    ensures half { OnOk result (length above.new.items ≡ length row.now / 2) }
    ensures grows { Grows arena.old.trees arena.new.trees }
    ensures steps { OnOk result (HashesOneForEach above.old.items above.new.items arena.old arena.new) }
    ensures least { OnOk result (CountsAtLeast 0 arena.old.steps arena.new.steps) }
{
    let pairs = row.len() / 2;
    let mut waiting = Waiting::new();
    for place in above.len()..pairs {
        add_pair(arena, above, row, place, &mut waiting)?;
    }
    make_waiting(arena, above, row, &mut waiting)
}

// The row one level above a row, whose first so many nodes are known. Each other pair is hashed that its left node doesn't
// remember.
pub(crate) fn row_above(
    alloc: Global,
    arena: &mut Arena,
    row: &[usize],
    known: &[usize],
) -> Result<Vec<usize>, AllocError>
    requires row { Stand arena.old.trees row.now }
    requires stand { Stand arena.old.trees known.now }
    requires few { 2 * length known.now ≤ length row.now }
    requires known { BeginsAbove arena.old.trees row.now known.now }
    ensures level { IfOk result (λ above. IsLevelAbove arena.old arena.new row.now above.items) }
    ensures stand { IfOk result (λ above. Stand arena.new.trees above.items) }
    ensures grows { Grows arena.old.trees arena.new.trees }
    ensures steps { IfOk result (λ above. HashesOneForEach above.items row.now arena.old arena.new) }
    ensures least { OnOk result (CountsAtLeast 0 arena.old.steps arena.new.steps) }
    ensures half { IfOk result (λ above. length above.items + length above.items ≤ length row.now + 1) }
    ensures front { IfOk result (λ above. take (length known.now) above.items ≡ known.now) }
    ensures longer { IfOk result (λ above. length known.now ≤ length above.items) }
{
    let mut above = Vec::with_capacity(alloc, row.len().div_ceil(2))?;
    above.extend_from_slice(known)?;
    add_pairs(arena, &mut above, row)?;
    add_odd(&mut above, row)?;
    Ok(above)
}
