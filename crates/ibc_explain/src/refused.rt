//! Refusals, as they come.

use crate::places::EntryPlace;
use crate::reasons::write_sides;
use crate::running::RefusedEntry;
use ibc_ids::Refusal;
use ibc_world_core::World;
use std::alloc::Global;

/// The last entry of a chain, which is a refusal, with what was compared. After a refusal the state is as before, so the
/// ledger still tells it. Refused: `NoMemory`.
pub fn refused_entry(alloc: Global, world: &World, chain: u8) -> Result<RefusedEntry, Refusal> {
    let mut sides = String::new(alloc);
    let mut index = 0usize;
    if let Some(ledger) = world.ledger(chain) {
        let history = ledger.history();
        index = history.len().saturating_sub(1);
        if let Some(last) = history.last() {
            write_sides(alloc, &mut sides, ledger, &last.entry)?;
        }
    }
    let place = EntryPlace { chain, index };
    Ok(RefusedEntry { place, sides })
}
