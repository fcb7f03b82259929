//! New nodes of a row above: whole fours are hashed together, and the rest one by one.

ghost use Rattle.std.specs.Prelude.{◌≡◌, ◌+◌, ◌*◌, ◌<◌, ◌≤◌, [], length, OnOk};
ghost use Rattle.std.specs.List.{All};
ghost use Rattle.ibc_merkle.specs.Tree.{root};
ghost use Rattle.ibc_lanes.specs.Inner.{four_more, pair_hash};
ghost use Rattle.ibc_forest.specs.Counts.{CountsAtLeast};
ghost use Rattle.ibc_forest.specs.Nodes.{Grows};
ghost use Rattle.ibc_forest.specs.NodeLevels.{Stand};
ghost use Rattle.ibc_forest.specs.Gathered.{node_over, AreDigestsOver, FrontStays, PairedBut};

use crate::arena::Arena;
use crate::waiting::Waiting;
use ibc_lanes::InnerPair;
use std::alloc::AllocError;

// So many texts are hashed together.
const LANES: usize = 4;

// The digests of the pair below a place.
fn pair_below(arena: &Arena, row: &[usize], place: usize) -> InnerPair
    requires row { Stand arena.now.trees row.now }
    requires place { 2 * place + 1 < length row.now }
    ensures { pair_hash result ≡ root (node_over arena.now.trees row.now place) }
{
    arena.digests_of(row[2 * place], row[2 * place + 1])
}

// The digests of the nodes at four places: four texts are hashed, and counted. No node is added.
fn hash_at(arena: &mut Arena, row: &[usize], places: &[usize]) -> [[u8; 32]; 4]
    requires four { length places.now ≡ 4 }
    requires row { Stand arena.old.trees row.now }
    requires places { All (λ place. 2 * place + 1 < length row.now) places.now }
    ensures digests { AreDigestsOver arena.old.trees row.now places.now result }
    ensures trees { arena.new.trees ≡ arena.old.trees }
    ensures steps { arena.new.steps ≡ four_more arena.old.steps }
{
    let pairs = [
        pair_below(arena, row, places[0]),
        pair_below(arena, row, places[1]),
        pair_below(arena, row, places[2]),
        pair_below(arena, row, places[3]),
    ];
    arena.hash_four(&pairs)
}

// Makes the nodes at four places, which are hashed together.
#[inline(never)]
fn make_together(
    arena: &mut Arena,
    above: &mut Vec<usize>,
    row: &[usize],
    places: &[usize],
) -> Result<(), AllocError>
    requires four { length places.now ≡ 4 }
    requires row { Stand arena.old.trees row.now }
    requires gathered { PairedBut arena.old.trees row.now above.old.items places.now }
    ensures gathered { OnOk result (PairedBut arena.new.trees row.now above.new.items []) }
    ensures counted { OnOk result (length above.new.items ≡ length above.old.items) }
    ensures front { OnOk result (FrontStays places.now above.old.items above.new.items) }
    ensures grows { Grows arena.old.trees arena.new.trees }
    ensures steps { arena.new.steps ≡ four_more arena.old.steps }
{
    let digests = hash_at(arena, row, places);
    for k in 0..places.len() {
        let place = places[k];
        let node = arena.add_over(row[2 * place], row[2 * place + 1], digests[k])?;
        above[place] = node;
    }
    Ok(())
}

// Makes the nodes at places one after another: one text is hashed for each, and counted.
fn make_each(
    arena: &mut Arena,
    above: &mut Vec<usize>,
    row: &[usize],
    places: &[usize],
) -> Result<(), AllocError>
    requires row { Stand arena.old.trees row.now }
    requires gathered { PairedBut arena.old.trees row.now above.old.items places.now }
    ensures gathered { OnOk result (PairedBut arena.new.trees row.now above.new.items []) }
    ensures counted { OnOk result (length above.new.items ≡ length above.old.items) }
    ensures front { OnOk result (FrontStays places.now above.old.items above.new.items) }
    ensures grows { Grows arena.old.trees arena.new.trees }
    ensures steps { OnOk result (arena.new.steps ≤ arena.old.steps + length places.now) }
    ensures least { OnOk result (CountsAtLeast (length places.now) arena.old.steps arena.new.steps) }
{
    for i in 0..places.len() {
        let place = places[i];
        let node = arena.join(row[2 * place], row[2 * place + 1])?;
        above[place] = node;
    }
    Ok(())
}

// Makes the nodes at up to four places: four together, and fewer one after another.
fn make_at(
    arena: &mut Arena,
    above: &mut Vec<usize>,
    row: &[usize],
    places: &[usize],
) -> Result<(), AllocError>
    requires few { length places.now ≤ 4 }
    requires row { Stand arena.old.trees row.now }
    requires gathered { PairedBut arena.old.trees row.now above.old.items places.now }
    ensures gathered { OnOk result (PairedBut arena.new.trees row.now above.new.items []) }
    ensures counted { OnOk result (length above.new.items ≡ length above.old.items) }
    ensures front { OnOk result (FrontStays places.now above.old.items above.new.items) }
    ensures grows { Grows arena.old.trees arena.new.trees }
    ensures steps { OnOk result (arena.new.steps ≤ arena.old.steps + length places.now) }
    ensures least { OnOk result (CountsAtLeast (length places.now) arena.old.steps arena.new.steps) }
{
    if places.len() == LANES {
        return make_together(arena, above, row, places);
    }
    make_each(arena, above, row, places)
}

/// Makes the nodes of a row above at all places that wait. Then none waits.
pub(crate) fn make_waiting(
    arena: &mut Arena,
    above: &mut Vec<usize>,
    row: &[usize],
    waiting: &mut Waiting,
) -> Result<(), AllocError>
    requires row { Stand arena.old.trees row.now }
    requires gathered { PairedBut arena.old.trees row.now above.old.items waiting.old }
    ensures gathered { OnOk result (PairedBut arena.new.trees row.now above.new.items []) }
    ensures none { OnOk result (waiting.new ≡ []) }
    ensures counted { OnOk result (length above.new.items ≡ length above.old.items) }
    ensures front { OnOk result (FrontStays waiting.old above.old.items above.new.items) }
    ensures grows { Grows arena.old.trees arena.new.trees }
    ensures steps { OnOk result (arena.new.steps ≤ arena.old.steps + length waiting.old) }
    ensures least { OnOk result (CountsAtLeast (length waiting.old) arena.old.steps arena.new.steps) }
{
    make_at(arena, above, row, waiting.places())?;
    waiting.clear();
    Ok(())
}
