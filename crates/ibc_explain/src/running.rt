//! A script is run, and its world is kept, with what was seen on the way.

ghost use Rattle.std.specs.Prelude.{◌≡◌, ◌⊎◌, ◌≤◌, ◌∷◌, [], IfErr, IfOk, length};
ghost use Rattle.ibc_machine.specs.chain.Genesis.{genesis_state};
ghost use Rattle.ibc_world_core.specs.EveryWorld.{IsLawfulUnlessClash};
ghost use Rattle.ibc_script.specs.Faults.{IsRunFault};
ghost use Rattle.ibc_script_cli.specs.Runs.Act.{Take};
ghost use Rattle.ibc_script_worlds.specs.WorldChains.{IsNewWorld};
ghost use Rattle.ibc_explain.specs.RunsOf.{IsRunOf};

use crate::{Absent, EntryPlace, Watched};
use ibc_script::{ChainName, Fault, Script, Step};
use ibc_script_cli::{Runner, Worlds};
use ibc_script_worlds::{ScriptWorld, WorldFactory};
use ibc_world_core::{World, lemma_what_every_world_keeps};
use std::alloc::Global;

/// A step of a run: how long the printed text is behind it, and what it looked for first that isn't there.
#[derive(Drop)]
pub struct StepTaken {
    pub end: usize,
    pub absent: Option<Absent>,
}

/// A refusal of a run: the place of its entry, and what was compared, in words, as far as that can be told.
#[derive(Drop)]
pub struct RefusedEntry {
    pub place: EntryPlace,
    pub sides: String,
}

/// A run of a script: its chains' names, the world at the end, and the printed text; how each step ended, and the refusals.
#[derive(Drop)]
pub struct ScriptRun {
    pub names: Vec<ChainName>,
    pub world: World,
    pub text: Vec<u8>,
    pub steps: Vec<StepTaken>,
    pub refusals: Vec<RefusedEntry>,
    ghost few: { length names.items ≤ 8 },
}

/// Chains whose steps are taken, and what was printed.
#[derive(Drop)]
struct Running {
    chains: Watched,
    text: Vec<u8>,
    steps: Vec<StepTaken>,
}

/// Runs a script. Faults: `BadScript` where no world begins with its genesis; `NoMemory`.
pub fn run(alloc: Global, script: Script) -> Result<ScriptRun, Fault>
    ensures run { IfOk result (λ run. IsRunOf script run.world run.text.items) }
    ensures names { IfOk result (λ run. run.names.items ≡ script.names.items) }
    ensures lawful { IfOk result (λ run. IsLawfulUnlessClash run.world) }
    ensures faults { IfErr result (λ fault. IsRunFault fault ⊎ (fault ≡ Fault.BadScript)) }
{
    match WorldFactory::new(alloc).begin(&script.genesis) {
        Ok(chains) => run_on(alloc, chains, script),
        Err(refusal) => {
            drop(script);
            Err(Fault::of_refusal(refusal))
        }
    }
}

// Runs a script on the world that its genesis begins.
fn run_on(alloc: Global, chains: ScriptWorld, script: Script) -> Result<ScriptRun, Fault>
    requires { IsNewWorld (genesis_state script.genesis) chains }
    ensures run { IfOk result (λ run. IsRunOf script run.world run.text.items) }
    ensures names { IfOk result (λ run. run.names.items ≡ script.names.items) }
    ensures lawful { IfOk result (λ run. IsLawfulUnlessClash run.world) }
    ensures faults { IfErr result IsRunFault }
{
    let Script {
        genesis,
        names,
        steps,
        ..
    } = script;
    drop(genesis);
    let mut running = Running {
        chains: Watched::new(alloc, chains),
        text: Vec::new(alloc),
        steps: Vec::new(alloc),
    };
    match running.take_all(alloc, names.as_slice(), steps) {
        Ok(()) => Ok(running.into_run(names)),
        Err(fault) => {
            drop(names);
            drop(running);
            Err(fault)
        }
    }
}

impl Running {
    ghost use Rattle.ibc_explain.specs.TakenActs.{HasTaken, HasTakenAll, HasTakenEach};

    // Takes steps, and then tells what the chains hold.
    fn take_all(
        &mut self,
        alloc: Global,
        names: &[ChainName],
        steps: Vec<Step>,
    ) -> Result<(), Fault>
        requires { length names.now ≤ 8 }
        ensures ran { IfOk result (λ _. HasTakenAll names.now steps.items self.old self.new) }
        ensures faults { IfErr result IsRunFault }
    {
        let runner = Runner::new(alloc, names);
        self.take_each(&runner, steps)?;
        let no_step = Vec::new(alloc);
        runner.run(&mut self.chains, no_step, &mut self.text)?;
        Ok(())
    }

    // Takes steps in turn.
    fn take_each(&mut self, runner: &Runner<'_>, steps: Vec<Step>) -> Result<(), Fault>
        ensures ran { IfOk result (λ _. HasTakenEach runner.now.names.now steps.items self.old self.new) }
        ensures faults { IfErr result IsRunFault }
    {
        for step in steps {
            self.take(runner, step)?;
        }
        Ok(())
    }

    // Takes a step, and notes how it ended.
    fn take(&mut self, runner: &Runner<'_>, step: Step) -> Result<(), Fault>
        ensures ran { IfOk result (λ _. HasTaken runner.now.names.now (Take step ∷ []) self.old self.new) }
        ensures faults { IfErr result IsRunFault }
    {
        runner.take(&mut self.chains, step, &mut self.text)?;
        let taken = StepTaken {
            end: self.text.len(),
            absent: self.chains.take_absent(),
        };
        self.steps.push(taken)?;
        Ok(())
    }

    // The run whose steps are taken.
    fn into_run(self, names: Vec<ChainName>) -> ScriptRun
        requires { length names.items ≤ 8 }
        ensures world { result.world ≡ self.chains }
        ensures text { result.text ≡ self.text }
        ensures names { result.names ≡ names }
        ensures lawful { IsLawfulUnlessClash result.world }
    {
        let Running {
            chains,
            text,
            steps,
        } = self;
        let (world, refusals) = chains.into_parts();
        lemma_what_every_world_keeps(&world);
        ScriptRun {
            names,
            world,
            text,
            steps,
            refusals,
        }
    }
}
