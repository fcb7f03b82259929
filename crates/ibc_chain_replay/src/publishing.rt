//! What other chains published is published again, for one ledger to read.

ghost use Rattle.std.specs.Prelude.{◌≡◌, All, IsOkUnless};
ghost use Rattle.ibc_ids.specs.declared.refusal.Refusal.TheVariants.{NoMemory};
ghost use Rattle.ibc_chain_replay.specs.Publishing.{IsOwnPassOf};

use ibc_ids::{Refusal, Root};
use ibc_root_table::{Pass, RootTable};
use std::alloc::Global;
use std::marker::Model;
use std::sync::Arc;

/// The own pass of a chain, with its table. Contracts see which table that is.
#[derive(Drop)]
pub struct Publisher {
    table: Arc<RootTable, Global>,
    pass: Pass,
}

impl Model for Publisher {
    ghost use Rattle.ibc_root_table.specs.Passes.{TableName};
    ghost use Rattle.ibc_chain_replay.specs.Publishing.{IsOwnPassOf};

    ghost Value = { TableName };

    ghost view = { λ p. p.table.value };

    ghost invariant = { λ p. IsOwnPassOf p.table.value p.pass };
}

impl Publisher {
    fn new(table: Arc<RootTable, Global>, pass: Pass) -> Publisher
        requires { IsOwnPassOf table.value pass }
        ensures { result ≡ table.value }
    {
        Publisher { table, pass }
    }

    // How many heights the chain has published.
    fn published(&mut self, chain: u8) -> u64
        ensures { self.new ≡ self.old }
    {
        self.table.published(&mut self.pass, chain)
    }

    // Publishes the chain's next height. Refused: `TableFull`.
    fn publish(&mut self, root: Root, time: u64) -> Result<u64, Refusal>
        ensures { self.new ≡ self.old }
    {
        self.table.publish(&mut self.pass, root, time)
    }

    // Publishes the heights of the chain up to this one, which aren't published yet.
    fn catch_up(&mut self, chain: u8, heights: &[(Root, u64)], height: u64) {
        let end = height.min(heights.len() as u64);
        for next in self.published(chain)..end {
            let (root, time) = heights[next as usize];
            if self.publish(root, time).is_err() {
                return;
            }
        }
    }
}

/// The publishers of chains, by their own passes of a table. `NoMemory` where a growth is refused.
pub fn publishers_of(
    alloc: Global,
    table: &Arc<RootTable, Global>,
    passes: Vec<Pass>,
) -> Result<Vec<Publisher>, Refusal>
    requires { All (IsOwnPassOf table.now.value) passes.items }
    ensures { IsOkUnless result NoMemory }
{
    let mut publishers = Vec::with_capacity(alloc, passes.len())?;
    for pass in passes {
        let table = Arc::try_clone(table)?;
        publishers.push(Publisher::new(table, pass))?;
    }
    Ok(publishers)
}

/// Has a chain publish its heights up to this one. The publishers are those of all chains but one, in the order of their numbers;
/// that one's heights are its ledger's to publish.
pub fn publish_up_to(
    publishers: &mut [Publisher],
    but: u8,
    chain: u8,
    heights: &[(Root, u64)],
    height: u64,
) {
    let Some(place) = place_among(but, chain) else {
        return;
    };
    if let Some(publisher) = publishers.get_mut(place) {
        publisher.catch_up(chain, heights, height);
    }
}

// Where a chain stands among all but one.
fn place_among(but: u8, chain: u8) -> Option<usize> {
    if chain < but {
        Some(usize::from(chain))
    } else if chain > but {
        Some(usize::from(chain) - 1)
    } else {
        None
    }
}
