//! Scripts are run on chains that are looked at.

ghost use Rattle.std.specs.Prelude.{IfOk, OnOk};
ghost use Rattle.ibc_machine.specs.chain.Genesis.{genesis_state};
ghost use Rattle.ibc_script_worlds.specs.WorldChains.{IsNewWorld};
ghost use Rattle.ibc_sim.specs.ReadScripts.{ReadsAsScript};

use crate::checked::Checked;
use ibc_law_checks::Finding;
use ibc_run_notes::RunNotes;
use ibc_script::{Fault, Script, Step, read_script};
use ibc_script_cli::{Runner, Worlds};
use ibc_script_worlds::{ScriptWorld, WorldFactory};
use std::alloc::Global;
use std::io;

/// The chains with which a script begins. Faults: `BadScript` where no world begins so; `NoMemory`.
pub fn begin(alloc: Global, script: &Script) -> Result<Checked, Fault>
    ensures { IfOk result (IsNewWorld (genesis_state script.now.genesis)) }
{
    let notes = RunNotes::new(alloc, &script.genesis)?;
    match WorldFactory::new(alloc).begin(&script.genesis) {
        Ok(world) => {
            let checked = Checked::new(world, notes);
            Ok(checked)
        }
        Err(refusal) => {
            drop(notes);
            Err(Fault::of_refusal(refusal))
        }
    }
}

/// Takes steps in turn, up to the first after which a law is broken. The result is how many were taken. Fault: `NoMemory`.
pub fn take_steps(alloc: Global, chains: &mut Checked, steps: Vec<Step>) -> Result<usize, Fault> {
    let mut taken: usize = 0;
    for step in steps {
        if chains.notes.finding.is_some() {
            drop(step);
            break;
        }
        Runner::new(alloc, &[]).act(chains, step, &mut io::sink())?;
        taken = taken.saturating_add(1);
    }
    Ok(taken)
}

/// What is found where a script is run, looked at after each event and once more at the end; none where no law is broken.
/// Faults: `BadScript`, `NoMemory`.
pub fn replay(alloc: Global, text: &[u8]) -> Result<Option<Finding>, Fault>
    ensures { OnOk result (ReadsAsScript text.now) }
{
    let script = read_script(alloc, text)?;
    let mut chains = begin(alloc, &script)?;
    let Script {
        genesis,
        names,
        steps,
        ..
    } = script;
    drop(genesis);
    drop(names);
    match take_steps(alloc, &mut chains, steps) {
        Ok(_) => finding_of(chains),
        Err(fault) => {
            drop(chains);
            Err(fault)
        }
    }
}

/// What was found in a run that has ended, or is found now. Fault: `NoMemory`.
pub fn finding_of(chains: Checked) -> Result<Option<Finding>, Fault> {
    let Checked { chains, notes } = chains;
    let found = found_in(&chains, notes);
    drop(chains);
    found
}

// What is noted as found, or is found now.
fn found_in(chains: &ScriptWorld, notes: RunNotes) -> Result<Option<Finding>, Fault> {
    let mut notes = notes;
    if notes.finding.is_none() {
        notes.look_at_all(chains.world()).map_err(Fault::no_memory)?;
    }
    let found = notes.finding.take();
    drop(notes);
    Ok(found)
}
