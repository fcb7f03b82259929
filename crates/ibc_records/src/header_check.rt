//! What a client is told of the chain that it tracks.

ghost use Rattle.std.specs.Prelude.{◌≡◌, ◌<◌};
ghost use Rattle.ibc_machine.specs.ics24.Evidence.{require_row};
ghost use Rattle.ibc_machine.specs.ledger.Ledgers.{IsReadBetween};
ghost use Rattle.ibc_records.specs.HeaderChecks.{require_published, row_found, SeesOn, FitsHeader};

use ibc_ids::{Refusal, Root};
use ibc_machine::Reading;
use ibc_root_table::{Pass, RootTable};
use ibc_wire::Header;

/// Looks at the header's height in the table: what was read, and whether the header is the published one. The height read
/// is how many the header's chain had published at some time of the call. Refused, by the first check that fails:
/// `NotPublished` where the height isn't published; `Pruned` where its row is gone; `WrongHeader` where the time or the
/// root is another.
pub fn look(table: &RootTable, pass: &mut Pass, header: &Header) -> (Reading, Result<(), Refusal>)
    requires table { pass.old.table ≡ table.now }
    requires height { 0 < header.now.height }
    ensures pass { SeesOn pass.old pass.new }
    ensures fits { FitsHeader table.now.shape.window pass.new.seen header.now result.0 }
    ensures read { IsReadBetween pass.old.seen pass.new.seen header.now.chain result.0.published }
    ensures checked { result.1 ≡ require_published pass.new.seen result.0 header.now }
{
    let published = table.published(pass, header.chain);
    if header.height > published {
        let reading = Reading {
            published,
            row_was_there: None,
        };
        return (reading, Err(Refusal::NotPublished));
    }
    let row = table.row(pass, header.chain, header.height);
    let reading = Reading {
        published,
        row_was_there: Some(row.is_some()),
    };
    (reading, check_row(row, header))
}

// The row is there, and is the header's.
fn check_row(row: Option<(Root, u64)>, header: &Header) -> Result<(), Refusal>
    ensures { result ≡ require_row (row_found row header.now) }
{
    match row {
        None => Err(Refusal::Pruned),
        Some(found) => {
            if header.time == found.1 && header.root == found.0 {
                Ok(())
            } else {
                Err(Refusal::WrongHeader)
            }
        }
    }
}
