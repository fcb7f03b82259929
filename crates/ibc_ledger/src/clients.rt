//! What becomes of the messages of clients.

ghost use Rattle.std.specs.Prelude.{◌≡◌};
ghost use Rattle.ibc_wire.specs.declared.messages.Message.TheVariants as message_of;
ghost use Rattle.ibc_ledger.specs.MessageReplies.{IsReady, IsAnswered, IsUpdateAnswer};
ghost use Rattle.ibc_ledger.specs.PassGrowth.{SeesFurther};

use crate::host_state::HostState;
use crate::outcome::{EffectTwice, Outcome};
use ibc_ids::{Refusal, nth_client};
use ibc_machine::Effect;
use ibc_records::{create, update};
use ibc_root_table::{Pass, RootTable};
use ibc_wire::{CreateClient, UpdateClient};

impl HostState {
    /// Makes a client of a chain (ICS 2, "createClient"). Refused as by `ibc_records::create`.
    pub fn create_client(&mut self, message: &CreateClient) -> Result<EffectTwice, Refusal>
        requires { IsReady (message_of.CreateClient message.now) self.old }
        ensures { IsAnswered (message_of.CreateClient message.now) self.old result self.new }
    {
        let name = nth_client(self.alloc, self.records.next_client())?;
        let id = create(
            self.alloc,
            &mut self.records,
            self.number,
            self.chains,
            message,
        )?;
        Ok(EffectTwice {
            told: Effect::Client(id),
            kept: Effect::Client(name),
        })
    }

    /// Tells a client of a height (ICS 2, "updateClient"). Refused as by `ibc_records::update`.
    pub fn update_client(
        &mut self,
        table: &RootTable,
        pass: &mut Pass,
        message: &UpdateClient,
    ) -> Outcome
        requires { pass.old.table ≡ table.now }
        ensures answer { IsUpdateAnswer message.now self.old pass.old result self.new pass.new }
        ensures pass { SeesFurther pass.old pass.new }
    {
        let updated = update(&mut self.records, table, pass, message);
        Outcome {
            result: EffectTwice::of_nothing(updated.result),
            reading: updated.reading,
        }
    }
}
