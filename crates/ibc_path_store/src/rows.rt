//! Pairs in their places, and behind them pairs that wait to be put there.

ghost use Rattle.std.specs.Prelude.{◌≡◌, ◌+◌, ◌-◌, ◌≤◌, ◌<◌, length, take, IsTrue, IfOk, IfErr};
ghost use Rattle.std.specs.FinMap.{is_sorted};
ghost use Rattle.ibc_ids.specs.Texts.{text_cmp};
ghost use Rattle.ibc_path_store.specs.Waiting.{settled_pairs, turned_pairs, settled_without, AreRows, StandsAt, FitsAt};
ghost use Rattle.ibc_ids.specs.Maps.{IsKeyAt, IsGapFor};

use ibc_forest::SharedEntry;

/// Where a path stands, or where it would stand.
#[derive(Clone, Copy, Drop, Debug)]
pub struct Position {
    /// its place in memory
    pub row: usize,
    /// its place among all pairs in the order of their keys
    pub index: usize,
}

/// Where a path stands, or where it would stand: the first pairs are in their places, the others wait, and both are sorted.
pub fn find(entries: &[SharedEntry], settled: usize, path: &[u8]) -> Result<Position, Position>
    requires { AreRows settled entries.now }
    ensures here { IfOk result (λ place. StandsAt settled entries.now path.now place.row place.index) }
    ensures gap { IfErr result (λ place. FitsAt settled entries.now path.now place.row place.index) }
{
    let (placed, waiting) = entries.split_at(settled);
    match search(placed, path) {
        Ok(index) => match search(waiting, path) {
            Ok(later) => Ok(Position {
                row: settled + later,
                index: index + later,
            }),
            Err(later) => Ok(Position {
                row: index,
                index: index + later,
            }),
        },
        Err(index) => match search(waiting, path) {
            Ok(later) => Ok(Position {
                row: settled + later,
                index: index + later,
            }),
            Err(later) => Err(Position {
                row: settled + later,
                index: index + later,
            }),
        },
    }
}

/// How many pairs are in their places once that of a row is gone.
pub fn without_row(settled: usize, row: usize) -> usize
    ensures { result ≡ settled_without settled row }
{
    if row < settled { settled - 1 } else { settled }
}

/// Puts the pairs that wait in their places.
pub fn merge(entries: &mut [SharedEntry], settled: usize)
    requires { AreRows settled entries.old }
    ensures { entries.new ≡ settled_pairs settled entries.old }
{
    let waiting = entries.len() - settled;
    let mut placed = settled;
    for turned in 0..waiting {
        placed = put_last(entries, placed, waiting - turned);
    }
}

// Puts the last of so many pairs that wait in its place, and answers how many pairs stand before it in theirs. Those move
// behind it that it stands before.
fn put_last(entries: &mut [SharedEntry], settled: usize, waiting: usize) -> usize
    requires some { 0 < waiting }
    requires there { settled + waiting ≤ length entries.old }
    requires rows { AreRows settled (take (settled + waiting) entries.old) }
    ensures there { result + waiting ≤ length entries.new }
    ensures rows { AreRows result (take (result + (waiting - 1)) entries.new) }
    ensures same { turned_pairs entries.new result (waiting - 1) ≡ turned_pairs entries.old settled waiting }
{
    let end = settled + waiting;
    let shared = &entries[..];
    let place = match search(&shared[..settled], shared[end - 1].key()) {
        Ok(place) => place,
        Err(place) => place,
    };
    entries[place..end].rotate_left(settled - place);
    place
}

// Where a path stands among sorted pairs, or where it would stand.
fn search(entries: &[SharedEntry], path: &[u8]) -> Result<usize, usize>
    requires { IsTrue (is_sorted text_cmp entries.now) }
    ensures found { IfOk result (λ index. index < length entries.now) }
    ensures here { IfOk result (IsKeyAt text_cmp path.now entries.now) }
    ensures within { IfErr result (λ index. index ≤ length entries.now) }
    ensures gap { IfErr result (IsGapFor text_cmp path.now entries.now) }
{
    entries.binary_search_by(|entry| entry.key().cmp(path))
}
