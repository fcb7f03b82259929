ghost use Rattle.std.specs.Prelude.{◌≡◌, Some};

mod races;
mod readings;

use super::*;
use ibc_ids::{Refusal, Root};
use std::test::Fail;

fn root_at(height: u64) -> Root {
    Root::from_bytes([(height % 256) as u8; 32])
}

#[test]
fn a_chain_is_full_at_its_capacity(rt: HostRuntime) -> Result<(), Fail> {
    let (table, mut passes) = RootTable::new(rt.alloc(), 2, 1, 2, 2)?;
    let own = &mut passes[1];
    let first = table.publish(own, root_at(1), 7)?;
    let second = table.publish(own, root_at(2), 8)?;
    assert_eq!(rt; (first, second), (1, 2));
    let third = table.publish(own, root_at(3), 9);
    assert!(rt; matches!(third, Err(Refusal::TableFull)));
    let heights = heights_of(&table, &mut passes[2]);
    assert_eq!(rt; heights, [0, 2, 0]);
    let row = second_row(&table, &mut passes[2]);
    assert_eq!(rt; row, Some((root_at(2), 8)));
    Ok(())
}

// The heights of chains 0 and 1, and of one that the table lacks.
fn heights_of(table: &RootTable, reader: &mut Pass) -> [u64; 3]
    requires { reader.old.table ≡ table.now }
    ensures { reader.new.table ≡ reader.old.table }
{
    let none = table.published(reader, 0);
    let two = table.published(reader, 1);
    [none, two, table.published(reader, 9)]
}

fn second_row(table: &RootTable, reader: &mut Pass) -> Option<(Root, u64)>
    requires { reader.old.table ≡ table.now }
{
    if table.published(reader, 1) < 2 {
        return None;
    }
    table.row(reader, 1, 2)
}

#[test]
fn rows_go_with_the_window(rt: HostRuntime) -> Result<(), Fail> {
    let (table, mut passes) = RootTable::new(rt.alloc(), 1, 1, 2, 8)?;
    let times = times_of_three(&table, &mut passes[0]).ok_or("three heights")?;
    assert_eq!(rt; times, [None, Some(2), Some(3)]);
    Ok(())
}

// The times of the first three rows, once three heights are published.
fn times_of_three(table: &RootTable, own: &mut Pass) -> Option<[Option<u64>; 3]>
    requires { (own.old.table ≡ table.now) × (own.old.own ≡ Some 0) }
{
    for height in 1..4 {
        table.publish(own, root_at(height), height).ok()?;
    }
    if table.published(own, 0) < 3 {
        return None;
    }
    let first = table.row(own, 0, 1).map(|row| row.1);
    let second = table.row(own, 0, 2).map(|row| row.1);
    Some([first, second, table.row(own, 0, 3).map(|row| row.1)])
}

#[test]
fn a_table_larger_than_all_memory_is_refused(rt: HostRuntime) {
    for window in [1 << 50, u64::MAX] {
        let made = RootTable::new(rt.alloc(), 3, 1, window, window);
        assert!(rt; matches!(made, Err(Refusal::NoMemory)), "window {window}");
    }
}
