//! Whether supplies at home are those of the genesis.

ghost use Rattle.std.specs.Prelude.{◌≡◌};
ghost use Rattle.ibc_law_checks.specs.Supplies.{IsFirstChanged, is_kept};

use ibc_ids::Denom;
use ibc_world_core::World;

/// What a chain's genesis gave of a base denomination.
#[derive(Drop)]
pub struct HomeSupply {
    pub chain: u8,
    pub denom: Denom,
    pub amount: u128,
}

/// The first base denomination of which a chain doesn't hold what its genesis gave, escrows included; none where each supply
/// stays.
pub fn first_changed_supply(world: &World, supplies: &[HomeSupply]) -> Option<usize>
    ensures { IsFirstChanged world.now supplies.now result }
{
    for index in 0..supplies.len() {
        if !is_kept(world, &supplies[index]) {
            return Some(index);
        }
    }
    None
}

// Whether a chain holds what its genesis gave.
fn is_kept(world: &World, supply: &HomeSupply) -> bool
    ensures { result ≡ is_kept world.now supply.now }
{
    match world.ledger(supply.chain) {
        Some(ledger) => ledger.supply(&supply.denom) == supply.amount,
        None => false,
    }
}
