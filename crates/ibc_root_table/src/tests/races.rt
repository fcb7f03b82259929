//! Threads that publish and read at the same time.
ghost use Rattle.std.specs.Prelude.{◌≡◌, IsSome, None, Some};
ghost use denote.Param.Send.{IsSync};
ghost use Rattle.ibc_ids.specs.Publications.{height_of};
ghost use Rattle.ibc_root_table.specs.Passes.{unused_pass};

use super::root_at;
use crate::{Pass, RootTable};
use std::test::Fail;
use std::thread;
use std::thread::{Threads, join};

const HEIGHTS: u64 = 4096;

const LOOKS: u64 = 1_000_000_000;

const TURNS: u64 = 1_000_000;

/// One thread publishes, and two read each row as soon as they see it: with room for all rows, both find each.
#[test]
fn readers_see_every_row(rt: HostRuntime) -> Result<(), Fail> {
    let (table, mut passes) = RootTable::new(rt.alloc(), 1, 2, HEIGHTS, HEIGHTS)?;
    let second = passes.pop().ok_or("a second reader")?;
    let first = passes.pop().ok_or("a first reader")?;
    let own = passes.pop().ok_or("the chain's own pass")?;
    assert!(rt; race(&rt, &table, own, first, second, Gone::Never));
    Ok(())
}

/// With a small window, each row that they find is right.
#[test]
fn readers_see_no_wrong_row(rt: HostRuntime) -> Result<(), Fail> {
    let (table, mut passes) = RootTable::new(rt.alloc(), 1, 2, 16, HEIGHTS)?;
    let second = passes.pop().ok_or("a second reader")?;
    let first = passes.pop().ok_or("a first reader")?;
    let own = passes.pop().ok_or("the chain's own pass")?;
    assert!(rt; race(&rt, &table, own, first, second, Gone::AtTimes));
    Ok(())
}

/// Whether a row may be gone when a reader asks for it.
#[derive(Clone, Copy, PartialEq, Eq)]
enum Gone {
    Never,
    AtTimes,
}

fn race<R: Threads + Sync>(
    rt: &R,
    table: &RootTable,
    own: Pass,
    first: Pass,
    second: Pass,
    gone: Gone,
) -> bool
    requires own { own ≡ unused_pass table.now (Some 0) }
    requires readers { (first ≡ unused_pass table.now None) × (second ≡ unused_pass table.now None) }
{
    let (published, (one, two)) = join(
        rt,
        || publish_all(table, own),
        || -> (bool, bool)
            requires { IsSync R.row × (first ≡ unused_pass table.now None) × (second ≡ unused_pass table.now None) }
        {
            join(
                rt,
                || read_all(table, first, gone),
                || read_all(table, second, gone),
            )
        },
    );
    published && one && two
}

fn publish_all(table: &RootTable, mut own: Pass) -> bool
    requires { own ≡ unused_pass table.now (Some 0) }
{
    for height in 0..HEIGHTS {
        let answer = table.publish(&mut own, root_at(height + 1), height + 1);
        if !matches!(answer, Ok(published) if published == height + 1) {
            return false;
        }
    }
    true
}

fn read_all(table: &RootTable, mut pass: Pass, gone: Gone) -> bool
    requires { pass ≡ unused_pass table.now None }
{
    let mut read = 0;
    'looks: for _ in 0..LOOKS {
        let height = table.published(&mut pass, 0);
        if !read_rows(table, &mut pass, read, height, gone) {
            return false;
        }
        if height == HEIGHTS {
            return true;
        }
        read = height;
        thread::yield_now();
    }
    false
}

// Reads the rows above one height up to another, and says whether each is right.
fn read_rows(table: &RootTable, pass: &mut Pass, from: u64, to: u64, gone: Gone) -> bool
    requires table { pass.old.table ≡ table.now }
    requires seen { to ≡ height_of 0 pass.old.seen }
    ensures { pass.new.table ≡ pass.old.table }
{
    for height in from..to {
        let right = match table.row(pass, 0, height + 1) {
            Some(row) => row == (root_at(height + 1), height + 1),
            None => gone == Gone::AtTimes,
        };
        if !right {
            return false;
        }
    }
    true
}

/// Two threads publish once each, and then each looks until it sees the other's height.
#[test]
fn each_sees_the_other(rt: HostRuntime) -> Result<(), Fail> {
    let (table, mut passes) = RootTable::new(rt.alloc(), 2, 0, 4, 4)?;
    let second = passes.pop().ok_or("the second chain's own pass")?;
    let first = passes.pop().ok_or("the first chain's own pass")?;
    assert!(rt; both_see(&rt, &table, first, second));
    Ok(())
}

fn both_see<R: Threads + Sync>(rt: &R, table: &RootTable, first: Pass, second: Pass) -> bool
    requires first { first ≡ unused_pass table.now (Some 0) }
    requires second { second ≡ unused_pass table.now (Some 1) }
{
    let (one, two) = join(
        rt,
        || publish_and_look(table, first, 1),
        || publish_and_look(table, second, 0),
    );
    one && two
}

fn publish_and_look(table: &RootTable, mut own: Pass, other: u8) -> bool
    requires { (own.table ≡ table.now) × IsSome own.own }
{
    if table.publish(&mut own, root_at(1), 1).is_err() {
        return false;
    }
    'turns: for _ in 0..TURNS {
        if table.published(&mut own, other) > 0 {
            return true;
        }
        thread::yield_now();
    }
    false
}
