//! What a ledger does at the end of a block.

ghost use Rattle.std.specs.Prelude.{◌≡◌, IsSome};
ghost use Rattle.ibc_ids.specs.declared.refusal.Refusal.TheVariants.{NoMemory};
ghost use Rattle.ibc_machine.specs.declared.reply.Reply.TheVariants as reply_of;
ghost use Rattle.ibc_path_store.specs.StoreModel.{height_of};
ghost use Rattle.ibc_ledger.specs.BlockEnd.{IsEnded, published_so_far};
ghost use Rattle.ibc_ledger.specs.HistoryGrowth.{AddsBlockEnd};

use crate::entry::seen_if;
use crate::outcome::{EffectTwice, replies};
use crate::{Ledger, StampedEntry};
use ibc_ids::{Refusal, Root};
use ibc_machine::{Entry, Event, Reply};
use ibc_records::Records;
use ibc_root_table::{Pass, RootTable};

impl Ledger {
    /// Ends the working block: it is committed as the next height and published, and the next block has this time. Refused,
    /// by the first check that fails: `TimeBack` where the time is below the working time, `TableFull` where the chain has
    /// published as many heights as it may. The history then has one entry more, with the event and the reply; where the
    /// reply is `NoMemory`, nothing has changed.
    pub fn end_block(&mut self, next_time: u64) -> Reply
        ensures table { self.new.table ≡ self.old.table }
        ensures adds { AddsBlockEnd self.old.ledger next_time result self.new.ledger }
        ensures nothing { result ≡ reply_of.No NoMemory → self.new ≡ self.old }
    {
        let Ok(()) = self.history.reserve(1) else {
            return Reply::No(Refusal::NoMemory);
        };
        let ended = commit_block(
            &mut self.node.records,
            &self.table,
            &mut self.pass,
            self.capacity,
            next_time,
        );
        let seen = seen_if(&self.pass, ended.is_ok());
        let Ok((reply, kept)) = replies(EffectTwice::of_block(ended)) else {
            return Reply::No(Refusal::NoMemory);
        };
        let event = Event::Block {
            chain: self.node.number,
            next_time,
        };
        self.history.push_reserved(StampedEntry {
            entry: Entry {
                event,
                reply: kept,
                reading: None,
            },
            seen,
        });
        reply
    }
}

// Commits the working block and publishes it: its height and its root.
fn commit_block(
    records: &mut Records,
    table: &RootTable,
    pass: &mut Pass,
    capacity: u64,
    next_time: u64,
) -> Result<(u64, Root), Refusal>
    requires table { pass.old.table ≡ table.now }
    requires own { IsSome pass.old.own }
    requires capacity { capacity ≡ table.now.shape.capacity }
    requires height { height_of records.old.store ≡ published_so_far pass.old }
    ensures { IsEnded capacity next_time records.old pass.old result records.new pass.new }
{
    let time = records.time();
    if next_time < time {
        return Err(Refusal::TimeBack);
    }
    if records.height() >= capacity {
        return Err(Refusal::TableFull);
    }
    let root = records.commit(next_time)?;
    let Ok(height) = table.publish(pass, root, time) else {
        unreachable!();
    };
    Ok((height, root))
}
