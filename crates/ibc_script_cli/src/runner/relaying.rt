//! The steps `relay`.

ghost use Rattle.std.specs.Prelude.{◌∷◌, [], None, map, IfErr, IfOk, IsOkUnless};
ghost use Rattle.ibc_script.specs.Faults.{IsRunFault};
ghost use Rattle.ibc_script.specs.declared.script.Step.TheVariants as step;
ghost use Rattle.ibc_script_cli.specs.Runs.{Runs, relay_acts};
ghost use Rattle.ibc_script_cli.specs.Runs.Act.{Send, SendPlans, Take};
ghost use Rattle.ibc_script_cli.specs.ScriptChains.{ArePlans};

use super::{Runner, ask};
use crate::Chains;
use ibc_machine::Event;
use ibc_script::{EventKind, Fault};
use ibc_wire::Message;
use std::io::Write;

// What relayers plan between two chains: the messages for the second, and those for the first.
fn plans<C: Chains + Drop>(
    chains: &C,
    first: u8,
    second: u8,
) -> Result<(Vec<Message>, Vec<Message>), Fault>
    ensures plans { IfOk result (ArePlans C.known chains.now first second) }
    ensures fault { IsOkUnless result Fault.NoMemory }
{
    chains.plans(first, second).map_err(Fault::no_memory)
}

impl Runner<'_> {
    // Ends the working block of a chain, whose next one has the same time, and prints the reply.
    fn end<C: Chains + Drop, W: Write>(
        &self,
        chains: &mut C,
        on: u8,
        output: &mut W,
    ) -> Result<(), Fault>
        ensures ran { Runs C.known self.now.names.now (Take (step.Block on None) ∷ []) result chains.old (W.contents output.old) chains.new (W.contents output.new) }
        ensures faults { IfErr result IsRunFault }
    {
        self.end_and_tell(chains, on, None, output)?;
        Ok(())
    }

    // Sends a message to a chain, and prints the reply.
    fn send<C: Chains + Drop, W: Write>(
        &self,
        chains: &mut C,
        on: u8,
        message: Message,
        output: &mut W,
    ) -> Result<(), Fault>
        ensures ran { Runs C.known self.now.names.now (Send on message ∷ []) result chains.old (W.contents output.old) chains.new (W.contents output.new) }
        ensures faults { IfErr result IsRunFault }
    {
        let kind = EventKind::Message(message.kind());
        let reply = ask(chains, Event::Message { chain: on, message })?;
        self.tell(on, kind, Some(reply), output)?;
        Ok(())
    }

    // Sends messages to a chain in turn, and prints the replies.
    fn send_each<C: Chains + Drop, W: Write>(
        &self,
        chains: &mut C,
        on: u8,
        messages: Vec<Message>,
        output: &mut W,
    ) -> Result<(), Fault>
        ensures ran { Runs C.known self.now.names.now (map (Send on) messages.items) result chains.old (W.contents output.old) chains.new (W.contents output.new) }
        ensures faults { IfErr result IsRunFault }
    {
        for message in messages {
            self.send(chains, on, message, output)?;
        }
        Ok(())
    }

    // Sends two chains what is planned for them, as both stand before anything is sent.
    fn send_plans<C: Chains + Drop, W: Write>(
        &self,
        chains: &mut C,
        first: u8,
        second: u8,
        output: &mut W,
    ) -> Result<(), Fault>
        ensures ran { Runs C.known self.now.names.now (SendPlans first second ∷ []) result chains.old (W.contents output.old) chains.new (W.contents output.new) }
        ensures faults { IfErr result IsRunFault }
    {
        let (for_second, for_first) = plans(chains, first, second)?;
        match self.send_each(chains, second, for_second, output) {
            Ok(()) => self.send_each(chains, first, for_first, output),
            Err(fault) => {
                drop(for_first);
                Err(fault)
            }
        }
    }

    // Takes one turn of a `relay`: both chains end their blocks, and then each is sent what is planned for it. A block or a
    // message that is refused stops nothing.
    fn relay_once<C: Chains + Drop, W: Write>(
        &self,
        chains: &mut C,
        first: u8,
        second: u8,
        output: &mut W,
    ) -> Result<(), Fault>
        ensures ran { Runs C.known self.now.names.now (relay_acts first second 1) result chains.old (W.contents output.old) chains.new (W.contents output.new) }
        ensures faults { IfErr result IsRunFault }
    {
        self.end(chains, first, output)?;
        self.end(chains, second, output)?;
        self.send_plans(chains, first, second, output)
    }

    /// Relays between two chains for so many turns.
    pub(super) fn relay<C: Chains + Drop, W: Write>(
        &self,
        chains: &mut C,
        first: u8,
        second: u8,
        turns: u16,
        output: &mut W,
    ) -> Result<(), Fault>
        ensures ran { Runs C.known self.now.names.now (relay_acts first second turns) result chains.old (W.contents output.old) chains.new (W.contents output.new) }
        ensures faults { IfErr result IsRunFault }
    {
        for _turn in 0..turns {
            self.relay_once(chains, first, second, output)?;
        }
        Ok(())
    }
}
