//! The steps of a script are run.

ghost use Rattle.std.specs.Prelude.{◌≡◌, ◌∷◌, ◌≤◌, [], List, length, map, IfOk, IfErr, IsOkUnless};
ghost use Rattle.ibc_script.specs.Faults.{IsRunFault};
ghost use Rattle.ibc_script.specs.declared.event_kind.EventKind.{EventKind as Kind};
ghost use Rattle.ibc_script.specs.EventKinds.{draft_kind};
ghost use Rattle.ibc_script_cli.specs.Runs.{Emits, Ends, EndsBy, IsTold, Runs, RunsTo, Submits, acts_of, answer_line, asking_acts, given_by, name_of, opened};
ghost use Rattle.ibc_script_cli.specs.Runs.Act.{Open, Take};
ghost use Rattle.ibc_script_cli.specs.Opening.{turns_of_open};
ghost use Rattle.ibc_script_cli.specs.declared.opening.HandshakeSide.{HandshakeSide as Side};

mod looking;
mod relaying;

use crate::completing::Completer;
use crate::opening::{Handshake, HandshakeSide, PLAN};
use crate::printing::print;
use crate::{Chains, Holdings, Line};
use ibc_machine::{Effect, Event, Reply};
use ibc_script::{ChainName, Draft, EventKind, Fault, ProofSource, Step};
use std::alloc::Global;
use std::io::Write;

/// What runs the steps of a script on its chains: the chains' names, at most 8.
#[derive(Clone, Copy)]
pub struct Runner<'n> {
    alloc: Global,
    names: &'n [ChainName],
    ghost few: { length names.now ≤ 8 },
}

// Asks a chain for an event.
fn ask<C: Chains + Drop>(chains: &mut C, event: Event) -> Result<Reply, Fault>
    ensures reply { IfOk result (λ reply. C.known.asked chains.old event reply chains.new) }
    ensures fault { IsOkUnless result Fault.NoMemory }
{
    chains.ask(event).map_err(Fault::no_memory)
}

// Sends a chain the message of a step as the chains stand, and gives what it answers; `None` where something that the message
// needs isn't there.
fn submit<C: Chains + Drop>(
    alloc: Global,
    chains: &mut C,
    on: u8,
    draft: Draft,
) -> Result<Option<Reply>, Fault>
    ensures answer { IfOk result (λ answer. Submits C.known chains.old on draft answer chains.new) }
    ensures fault { IsOkUnless result Fault.NoMemory }
{
    let completer = Completer {
        alloc,
        chains: &*chains,
    };
    match completer.complete(on, draft)? {
        Some(message) => {
            let reply = ask(chains, Event::Message { chain: on, message })?;
            Ok(Some(reply))
        }
        None => Ok(None),
    }
}

// Ends the working block of a chain, and gives what it answers.
fn end_block<C: Chains + Drop>(chains: &mut C, on: u8, time: Option<u64>) -> Result<Reply, Fault>
    ensures answer { IfOk result (λ answer. Ends C.known chains.old on time answer chains.new) }
    ensures fault { IsOkUnless result Fault.NoMemory }
{
    let next_time = match time {
        Some(time) => time,
        None => chains.working_time(on).map_err(Fault::no_memory)?,
    };
    let event = Event::Block {
        chain: on,
        next_time,
    };
    ask(chains, event)
}

// What an accepted event gave, `None` where it was refused or nothing was asked.
fn given_by(answer: Option<Reply>) -> Option<Effect>
    ensures { result ≡ given_by answer }
{
    match answer {
        Some(Reply::Ok(effect)) => Some(effect),
        Some(Reply::No(_)) | None => None,
    }
}

impl<'n> Runner<'n> {
    /// What runs the steps of a script whose chains have these names.
    pub fn new(alloc: Global, names: &'n [ChainName]) -> Runner<'n>
        requires { length names.now ≤ 8 }
        ensures { result.names.now ≡ names.now }
    {
        Runner { alloc, names }
    }

    // The name of a chain.
    fn name(&self, chain: u8) -> &'n str
        ensures { result.now ≡ name_of self.now.names.now chain }
    {
        match self.names.get(usize::from(chain)) {
            Some(name) => name.as_str(),
            None => "",
        }
    }

    // Prints what a chain answered to an event of a kind.
    fn print_answer<W: Write>(
        &self,
        on: u8,
        kind: EventKind,
        answer: &Option<Reply>,
        output: &mut W,
    ) -> Result<(), Fault>
        ensures written { Emits W.contents result output.old output.new (answer_line self.now.names.now on kind answer.now) }
        ensures faults { IfErr result IsRunFault }
    {
        let chain = self.name(on);
        let line = match answer {
            Some(reply) => Line::Reply { chain, kind, reply },
            None => Line::Missing { chain, kind },
        };
        print(self.alloc, line, output)
    }

    // Prints what a chain answered to an event of a kind, and gives what the accepted event gave.
    fn tell<W: Write>(
        &self,
        on: u8,
        kind: EventKind,
        answer: Option<Reply>,
        output: &mut W,
    ) -> Result<Option<Effect>, Fault>
        ensures written { Emits W.contents result output.old output.new (answer_line self.now.names.now on kind answer) }
        ensures given { IfOk result (λ given. given ≡ given_by answer) }
        ensures faults { IfErr result IsRunFault }
    {
        match self.print_answer(on, kind, &answer, output) {
            Ok(()) => Ok(given_by(answer)),
            Err(fault) => {
                drop(answer);
                Err(fault)
            }
        }
    }

    // Sends a chain the message of a step and prints the answer.
    fn submit_and_tell<C: Chains + Drop, W: Write>(
        &self,
        chains: &mut C,
        on: u8,
        draft: Draft,
        output: &mut W,
    ) -> Result<Option<Effect>, Fault>
        ensures told { IsTold (Submits C.known chains.old on draft) (answer_line self.now.names.now on (Kind.Message (draft_kind draft))) result chains.new (W.contents output.old) (W.contents output.new) }
        ensures faults { IfErr result IsRunFault }
    {
        let kind = EventKind::Message(draft.kind());
        let answer = submit(self.alloc, chains, on, draft)?;
        self.tell(on, kind, answer, output)
    }

    // Ends the working block of a chain and prints the answer.
    fn end_and_tell<C: Chains + Drop, W: Write>(
        &self,
        chains: &mut C,
        on: u8,
        time: Option<u64>,
        output: &mut W,
    ) -> Result<Option<Effect>, Fault>
        ensures told { IsTold (EndsBy C.known chains.old on time) (answer_line self.now.names.now on Kind.Block) result chains.new (W.contents output.old) (W.contents output.new) }
        ensures faults { IfErr result IsRunFault }
    {
        let reply = end_block(chains, on, time)?;
        self.tell(on, EventKind::Block, Some(reply), output)
    }

    // Takes one turn of an `open`, and gives what the accepted event gave; `None` where the rest is to be left out.
    fn take_turn<C: Chains + Drop, W: Write>(
        &self,
        chains: &mut C,
        opening: &Handshake,
        side: HandshakeSide,
        kind: EventKind,
        output: &mut W,
    ) -> Result<Option<Effect>, Fault>
        ensures ran { (turns : List (Side × Kind)) → RunsTo C.known self.now.names.now (opened turns side opening.now) (Open ((side, kind) ∷ turns) opening.now ∷ []) result chains.old (W.contents output.old) chains.new (W.contents output.new) }
        ensures faults { IfErr result IsRunFault }
    {
        let on = opening.chain(side);
        let EventKind::Message(kind) = kind else {
            return self.end_and_tell(chains, on, None, output);
        };
        match opening.draft(self.alloc, side, kind)? {
            Some(draft) => self.submit_and_tell(chains, on, draft, output),
            None => Ok(None),
        }
    }

    // Takes turns of an `open`, up to the first that gives nothing.
    fn take_turns<C: Chains + Drop, W: Write>(
        &self,
        chains: &mut C,
        opening: &mut Handshake,
        turns: &[(HandshakeSide, EventKind)],
        output: &mut W,
    ) -> Result<(), Fault>
        ensures ran { Runs C.known self.now.names.now (Open turns.now opening.old ∷ []) result chains.old (W.contents output.old) chains.new (W.contents output.new) }
        ensures faults { IfErr result IsRunFault }
    {
        for (side, kind) in turns {
            match self.take_turn(chains, opening, *side, *kind, output)? {
                Some(effect) => opening.learn(*side, effect),
                None => return Ok(()),
            }
        }
        Ok(())
    }

    // Opens a channel of an application between two chains, on a new connection between new clients. After a refusal,
    // and where something that a message needs isn't there, the rest is left out.
    fn open<C: Chains + Drop, W: Write>(
        &self,
        chains: &mut C,
        mut opening: Handshake,
        output: &mut W,
    ) -> Result<(), Fault>
        ensures ran { Runs C.known self.now.names.now (Open turns_of_open opening ∷ []) result chains.old (W.contents output.old) chains.new (W.contents output.new) }
        ensures faults { IfErr result IsRunFault }
    {
        let opened = self.take_turns(chains, &mut opening, &PLAN, output);
        drop(opening);
        opened
    }

    /// Takes a step that asks the chains for events, and prints the replies; a step that only looks at what the chains have
    /// is passed over. Faults: `CannotWrite`, `NoMemory`; what was written stays written.
    pub fn act<C: Chains + Drop, W: Write>(
        &self,
        chains: &mut C,
        step: Step,
        output: &mut W,
    ) -> Result<(), Fault>
        ensures ran { Runs C.known self.now.names.now (asking_acts step) result chains.old (W.contents output.old) chains.new (W.contents output.new) }
        ensures faults { IfErr result IsRunFault }
    {
        match step {
            Step::Message { on, draft } => {
                self.submit_and_tell(chains, on, draft, output)?;
                Ok(())
            }
            Step::Block { on, time } => {
                self.end_and_tell(chains, on, time, output)?;
                Ok(())
            }
            Step::Open {
                first,
                second,
                application,
            } => self.open(chains, Handshake::new(application, first, second), output),
            Step::Relay {
                first,
                second,
                turns,
            } => self.relay(chains, first, second, turns, output),
            Step::Root { .. } => Ok(()),
            Step::Prove { .. } => Ok(()),
            Step::Totals { .. } => Ok(()),
        }
    }

    /// Takes a step, and prints its lines. Faults: `CannotWrite`, `NoMemory`; what was written stays written.
    pub fn take<C: Holdings + Drop, W: Write>(
        &self,
        chains: &mut C,
        step: Step,
        output: &mut W,
    ) -> Result<(), Fault>
        ensures ran { Runs C.known self.now.names.now (Take step ∷ []) result chains.old (W.contents output.old) chains.new (W.contents output.new) }
        ensures faults { IfErr result IsRunFault }
    {
        match step {
            Step::Root { on, height } => self.print_root(chains, on, height, output),
            Step::Prove { on, height, key } => {
                self.print_proof(chains, ProofSource { chain: on, height }, key, output)
            }
            Step::Totals { on, channel, denom } => {
                self.print_totals(chains, on, channel, denom, output)
            }
            step => self.act(chains, step, output),
        }
    }

    // Takes steps in turn, and prints their lines.
    fn take_each<C: Holdings + Drop, W: Write>(
        &self,
        chains: &mut C,
        steps: Vec<Step>,
        output: &mut W,
    ) -> Result<(), Fault>
        ensures ran { Runs C.known self.now.names.now (map Take steps.items) result chains.old (W.contents output.old) chains.new (W.contents output.new) }
        ensures faults { IfErr result IsRunFault }
    {
        for step in steps {
            self.take(chains, step, output)?;
        }
        Ok(())
    }

    /// Takes steps in turn and prints their lines, and then tells what the chains hold: the balances, and then the notes.
    /// Faults: `CannotWrite`, `NoMemory`; what was written stays written.
    pub fn run<C: Holdings + Drop, W: Write>(
        &self,
        chains: &mut C,
        steps: Vec<Step>,
        output: &mut W,
    ) -> Result<(), Fault>
        ensures ran { Runs C.known self.now.names.now (acts_of steps.items (length self.now.names.now)) result chains.old (W.contents output.old) chains.new (W.contents output.new) }
        ensures faults { IfErr result IsRunFault }
    {
        self.take_each(chains, steps, output)?;
        self.tell_balances(chains, output)?;
        self.tell_notes(chains, output)
    }
}
