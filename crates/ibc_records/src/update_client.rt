//! Telling clients of heights.

ghost use Rattle.std.specs.Prelude.{◌≡◌, is_some, IsNone, IsSome};
ghost use Rattle.ibc_ids.specs.Texts.{text_cmp};
ghost use Rattle.ibc_ids.specs.Maps.{at};
ghost use Rattle.ibc_records.specs.RecordsModel.{core_of};
ghost use Rattle.ibc_records.specs.ClientReplies.{IsLearned, AnswersUpdate};
ghost use Rattle.ibc_records.specs.HeaderChecks.{require_tracked, is_reading_update, FitsIfRead, IsReadDuring, SeesOn};

use crate::header_check::look;
use crate::{ConsensusState, Records};
use ibc_ids::Refusal;
use ibc_machine::Reading;
use ibc_root_table::{Pass, RootTable};
use ibc_wire::UpdateClient;

/// What became of an update, and what it read of the chain that the client tracks, where it looked.
#[derive(Drop)]
pub struct Updated {
    pub result: Result<(), Refusal>,
    pub reading: Option<Reading>,
}

/// Tells a client of a height of the chain that it tracks (ICS 2, "updateClient"). Refused, by the first check that
/// fails: `UnknownClient`; `WrongHeader` where the client tracks another chain than the header's, or the height is 0;
/// `NotPublished`; `Pruned` where the height's row is gone; `WrongHeader` where it has another time or root; and then
/// `NoMemory`. A refusal leaves the records, but the pass may have seen more. An update that passes the first two
/// checks reads the table, and another one doesn't; what it keeps as read is how many heights the header's chain had
/// published at some time of the call.
pub fn update(
    records: &mut Records,
    table: &RootTable,
    pass: &mut Pass,
    message: &UpdateClient,
) -> Updated
    requires table { pass.old.table ≡ table.now }
    ensures answer { AnswersUpdate pass.new.seen message.now records.old result records.new }
    ensures looks { is_some result.reading ≡ is_reading_update (core_of records.old) message.now }
    ensures fits { FitsIfRead table.now.shape.window pass.new.seen message.now.header result.reading }
    ensures read { IsReadDuring pass.old.seen pass.new.seen message.now.header.chain result.reading }
    ensures pass { SeesOn pass.old pass.new }
    ensures unread { IsNone result.reading → pass.new ≡ pass.old }
{
    if let Err(refusal) = check_tracked(records, message) {
        return Updated {
            result: Err(refusal),
            reading: None,
        };
    }
    let (reading, checked) = look(table, pass, &message.header);
    Updated {
        result: learn(records, message, checked),
        reading: Some(reading),
    }
}

// The client is there and tracks the header's chain, and the height isn't 0.
fn check_tracked(records: &Records, message: &UpdateClient) -> Result<(), Refusal>
    ensures { result ≡ require_tracked (core_of records.now) message.now }
{
    let header = &message.header;
    match records.client(&message.client) {
        None => Err(Refusal::UnknownClient),
        Some(client) => {
            if header.chain == client.state().chain && header.height != 0 {
                Ok(())
            } else {
                Err(Refusal::WrongHeader)
            }
        }
    }
}

// Where the header was checked, the client knows it.
fn learn(
    records: &mut Records,
    message: &UpdateClient,
    checked: Result<(), Refusal>,
) -> Result<(), Refusal>
    requires { IsSome (at text_cmp message.now.client records.old.clients) }
    ensures { IsLearned checked message.now records.old result records.new }
{
    checked?;
    let header = &message.header;
    let known = ConsensusState {
        root: header.root,
        time: header.time,
    };
    records.update_client(&message.client, header.height, known)
}
