//! What is planned between two chains of which one has ended no block.

use crate::world::{block, create, new_world};
use ibc_ledger::View;
use ibc_relayer::plan;
use ibc_world_core::World;
use std::alloc::Global;
use std::process::Abort;

// The view of a chain of a world.
fn view_of(rt: &impl Abort, world: &World, chain: u8) -> View {
    let ledger = world.ledger(chain).expect(rt, "a chain");
    ledger.view().expect(rt, "memory")
}

// How many messages are planned for the second of two chains.
fn planned(rt: &impl Abort, alloc: Global, first: &View, second: &View) -> usize {
    let messages = plan(alloc, first, second).expect(rt, "memory");
    let count = messages.len();
    drop(messages);
    count
}

fn check_planned(rt: &impl Abort, alloc: Global, first: &View, second: &View) {
    assert!(rt; first.height() == 0);
    assert!(rt; second.height() == 1);
    assert!(rt; planned(rt, alloc, first, second) == 0);
    assert!(rt; planned(rt, alloc, second, first) == 0);
}

// The first chain has a client of the second, and the second alone has ended a block.
#[test]
fn nothing_is_planned_before_the_first_block(rt: HostRuntime) {
    let mut world = new_world(&rt, rt.alloc());
    drop(world.step(create()));
    drop(world.step(block(1, 100)));
    let first = view_of(&rt, &world, 0);
    let second = view_of(&rt, &world, 1);
    drop(world);
    check_planned(&rt, rt.alloc(), &first, &second);
    drop(first);
    drop(second);
}
