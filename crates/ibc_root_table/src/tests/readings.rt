//! What meetings say of readings, by the public contracts alone.
ghost use Rattle.std.specs.Prelude.{◌≡◌, Some, length};
ghost use mathlib.Core.List.{IsPrefix};
ghost use Rattle.ibc_ids.specs.Publications.{height_of, height_among};
ghost use Rattle.ibc_root_table.specs.Passes.{SamePass};

use super::root_at;
use crate::{Pass, RootTable};
use std::snapshot::Snapshot;
use std::test::Fail;

/// A height that was read, and, for proofs alone, the pass as it was then.
#[derive(Drop)]
struct HeightReading {
    height: u64,
    then: Snapshot<Pass>,
}

fn read(table: &RootTable, pass: &mut Pass, chain: u8) -> HeightReading
    requires { pass.old.table ≡ table.now }
    ensures pass { SamePass pass.old pass.new }
    ensures seen { IsPrefix pass.old.seen pass.new.seen }
    ensures then { result.then.value ≡ pass.new }
    ensures height { result.height ≡ height_of chain pass.new.seen }
{
    let height = table.published(pass, chain);
    let then = Snapshot::of(&*pass);
    HeightReading { height, then }
}

// Readings of two passes, which have their places in the one list that both have seen after they have met.
fn read_and_meet(
    table: &RootTable,
    first: &mut Pass,
    second: &mut Pass,
    chain: u8,
) -> (HeightReading, HeightReading)
    requires tables { (first.old.table ≡ table.now) × (second.old.table ≡ table.now) }
    ensures passes { SamePass first.old first.new × SamePass second.old second.new }
    ensures same { first.new.seen ≡ second.new.seen }
    ensures one { result.0.height ≡ height_among chain (length result.0.then.value.seen) first.new.seen }
    ensures two { result.1.height ≡ height_among chain (length result.1.then.value.seen) first.new.seen }
{
    let one = read(table, first, chain);
    let two = read(table, second, chain);
    table.meet(first, second);
    (one, two)
}

// The height that the owner of a chain has published, by a look of another pass: none is missed, and none is invented.
fn exact_height(table: &RootTable, reader: &mut Pass, owner: &mut Pass, chain: u8) -> u64
    requires tables { (reader.old.table ≡ table.now) × (owner.old.table ≡ table.now) }
    requires own { owner.old.own ≡ Some chain }
    ensures passes { SamePass reader.old reader.new × SamePass owner.old owner.new }
    ensures height { result ≡ height_of chain owner.old.seen }
{
    table.meet(reader, owner);
    let height = table.published(reader, chain);
    table.meet(reader, owner);
    height
}

#[test]
fn a_look_between_two_meetings_is_exact(rt: HostRuntime) -> Result<(), Fail> {
    let (table, mut passes) = RootTable::new(rt.alloc(), 1, 1, 2, 4)?;
    let mut reader = passes.pop().ok_or("a reader")?;
    let mut own = passes.pop().ok_or("the chain's own pass")?;
    table.publish(&mut own, root_at(1), 1)?;
    assert_eq!(rt; exact_height(&table, &mut reader, &mut own, 0), 1);
    let (one, two) = read_and_meet(&table, &mut reader, &mut own, 0);
    assert_eq!(rt; (one.height, two.height), (1, 1));
    Ok(())
}
