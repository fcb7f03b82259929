//! The program, from its words and its input to the lines on its output.

ghost use Rattle.std.specs.Prelude.{⊤, ◌≡◌, ◌⊎◌, ◌<◌, ◌≤◌, ℕ, List, length, IfOk, IfErr, IfSome, IsErrOf, IsOk, OnErr, OnOk};
ghost use Rattle.std.specs.Io.KnownBytes.{Keeps};
ghost use Rattle.ibc_machine.specs.chain.Genesis.{GenesisState, genesis_state};
ghost use Rattle.ibc_script.specs.Faults.{IsRunFault, IsScriptFault};
ghost use Rattle.ibc_script_cli.specs.Program.{HasBegun, HasBegunInput, HasRacedInput, HasRacedInputInPart, HasRun, HasRunInput, IsFaultOfRun, PrintsRace, PrintsRaceInPart, RefusesWords, all_held, all_noted, audit_text, held_on, note_on};
ghost use Rattle.ibc_script_cli.specs.Runs.{Emits, name_of};
ghost use Rattle.ibc_script.specs.declared.script.Step.{Step as AnyStep};
ghost use Rattle.ibc_script_cli.specs.declared.racing.RaceAudit.{RaceAudit as ToldAudit};
ghost use Rattle.ibc_script_cli.specs.Words.{AskFor, AskForNothing, AskForSomething};
ghost use Rattle.ibc_script_cli.specs.declared.words.Command.TheVariants as Asked;

use crate::printing::{print_balances, print_notes};
use crate::runner::Runner;
use crate::{Command, Holdings, Race, RaceAudit, read_input, read_words};
use ibc_ids::Refusal;
use ibc_machine::Genesis;
use ibc_script::{ChainName, Fault, Script, read_script};
use std::alloc::{AllocError, Global};
use std::io::{Read, Write};

/// What makes the chains that a script is run on.
pub trait Worlds {
    /// The chains that are made.
    type Chains: Holdings + Drop;

    // Which chains begin with a genesis, and what is so of chains at all times.
    ghost begins: { GenesisState → Self.Chains → Type 0 } = { λ _ _. ⊤ };

    ghost keeps: { Self.Chains → Type 0 } = { λ _. ⊤ };

    /// The chains of a genesis in the beginning. Refused: `BadMessage` where no chains begin so; `NoMemory`.
    fn begin(&self, genesis: &Genesis) -> Result<Self::Chains, Refusal>
        ensures { IfOk result (begins (genesis_state genesis.now)) };

    /// What is so of chains at all times is so of these.
    fn lemma_keeps(&self, chains: &Self::Chains)
        ensures { keeps chains.now };
}

/// What runs races.
pub trait Races {
    // What it stands on to start threads: that its leave may be shared by these, where it has one.
    ghost may_race: { Self → Type 0 } = { λ _. ⊤ };

    // What is so of what is told at the end of a race, by the genesis and the steps.
    ghost raced: { GenesisState → List AnyStep → ToldAudit → Type 0 } = { λ _ _ _. ⊤ };

    /// Runs a race on chains of its genesis that threads share, with so many relayers at each `relay`, and tells what an audit
    /// of the chains finds at the end. Faults: `BadScript` where no chains begin so; those that stop a run.
    fn race(&self, relayers: u8, race: Race) -> Result<RaceAudit, Fault>
        requires may { Self.may_race self.now }
        requires few { 1 ≤ relayers × relayers ≤ 8 }
        ensures told { IfOk result (raced (genesis_state race.script.genesis) race.script.steps.items) }
        ensures faults { IfErr result (λ fault. IsRunFault fault ⊎ IsScriptFault fault) };
}

/// Does what the words after the program's name ask for: the script on the input is run on the chains of its genesis,
/// and its lines are written to the output. Faults, by the first step that fails: `BadArguments` where the words ask for
/// nothing that the program does; `CannotRead` where the input can't be read; `BadScript` where it is no script, or no
/// chains begin as it says; then `CannotWrite`, where what was written stays written. `NoMemory` may come at each step. Where
/// the words ask for a race, it is run by `races`, and what its audit tells is all that is written.
pub fn drive<S: Worlds, Q: Races, R: Read + Drop, W: Write>(
    alloc: Global,
    worlds: &S,
    races: &Q,
    words: &[&str],
    input: R,
    output: &mut W,
) -> Result<(), Fault>
    requires { Q.may_race races.now }
    ensures asked { IfOk result (λ _. AskForSomething words.now) }
    ensures bad_arguments { IsErrOf result Fault.BadArguments → AskForNothing words.now }
    ensures words_first { AskForNothing words.now → RefusesWords result }
    ensures too_long { IfOk result (λ _. IfSome (R.remaining input) (λ known. length known < 1048577)) }
    ensures unwritten { IfErr result (λ fault. IsRunFault fault ⊎ (output.new ≡ output.old)) }
    ensures lines { AskFor words.now Asked.Run → OnOk result (HasRunInput S.begins S.keeps S.Chains.known (R.remaining input) (W.contents output.old) (W.contents output.new)) }
    ensures begun { AskFor words.now Asked.Run → OnErr result (HasBegunInput S.begins S.Chains.known (R.remaining input) (W.contents output.old) (W.contents output.new)) }
    ensures race_lines { (relayers : ℕ) → AskFor words.now (Asked.Race relayers) → OnOk result (HasRacedInput Q.raced (R.remaining input) (W.contents output.old) (W.contents output.new)) }
    ensures race_begun { (relayers : ℕ) → AskFor words.now (Asked.Race relayers) → OnErr result (HasRacedInputInPart Q.raced (R.remaining input) (W.contents output.old) (W.contents output.new)) }
{
    let command = read_words(alloc, words)?;
    let bytes = read_input(alloc, input)?;
    let script = read_script(alloc, bytes.as_slice())?;
    match command {
        Command::Run => run_script(alloc, worlds, script, output),
        Command::Race { relayers } => race_script(alloc, races, relayers, script, output),
    }
}

/// Runs a script on the chains of its genesis: its lines are written. Faults: `BadScript` where no chains begin so, and then
/// nothing was written; `CannotWrite`, `NoMemory`, and then a beginning of the lines of a run was written.
pub fn run_script<S: Worlds, W: Write>(
    alloc: Global,
    worlds: &S,
    script: Script,
    output: &mut W,
) -> Result<(), Fault>
    ensures ran { OnOk result (HasRun S.begins S.keeps S.Chains.known script (W.contents output.old) (W.contents output.new)) }
    ensures stopped { OnErr result (Keeps (W.contents output.old) (W.contents output.new) ⊎ HasBegun S.begins S.Chains.known script (W.contents output.old) (W.contents output.new)) }
    ensures faults { IfErr result (IsFaultOfRun output.old output.new) }
{
    match worlds.begin(&script.genesis) {
        Ok(chains) => run_on(alloc, worlds, chains, script, output),
        Err(refusal) => {
            drop(script);
            Err(Fault::of_refusal(refusal))
        }
    }
}

// Runs a script on chains that its genesis begins.
fn run_on<S: Worlds, W: Write>(
    alloc: Global,
    worlds: &S,
    chains: S::Chains,
    script: Script,
    output: &mut W,
) -> Result<(), Fault>
    requires { S.begins (genesis_state script.genesis) chains }
    ensures ran { OnOk result (HasRun S.begins S.keeps S.Chains.known script (W.contents output.old) (W.contents output.new)) }
    ensures stopped { OnErr result (HasBegun S.begins S.Chains.known script (W.contents output.old) (W.contents output.new)) }
    ensures faults { IfErr result IsRunFault }
{
    let mut chains = chains;
    let Script { names, steps, .. } = script;
    let ran = Runner::new(alloc, names.as_slice()).run(&mut chains, steps, output);
    worlds.lemma_keeps(&chains);
    drop(chains);
    drop(names);
    flush_after(ran, output)
}

/// Runs a script as a race, and prints what the audit tells. Faults: `BadScript` where no chains begin so, and then nothing
/// was written; `CannotWrite`, `NoMemory`, and then what was written stays written.
fn race_script<Q: Races, W: Write>(
    alloc: Global,
    races: &Q,
    relayers: u8,
    script: Script,
    output: &mut W,
) -> Result<(), Fault>
    requires may { Q.may_race races.now }
    requires few { 1 ≤ relayers × relayers ≤ 8 }
    ensures raced { OnOk result (PrintsRace Q.raced script W.contents output.old output.new) }
    ensures stopped { OnErr result (PrintsRaceInPart Q.raced script W.contents output.old output.new) }
    ensures faults { IfErr result (IsFaultOfRun output.old output.new) }
{
    let names = copy_of(&script.names);
    let race = Race::new(alloc, script);
    let audited = races.race(relayers, race)?;
    print_race(alloc, names?.as_slice(), &audited, output)
}

// A copy of names.
fn copy_of(names: &Vec<ChainName>) -> Result<Vec<ChainName>, AllocError>
    ensures { IfOk result (λ copy. copy.items ≡ names.now.items) }
{
    names.clone()
}

/// Prints what an audit tells, and gives on what the output holds back.
fn print_race<W: Write>(
    alloc: Global,
    names: &[ChainName],
    audited: &RaceAudit,
    output: &mut W,
) -> Result<(), Fault>
    ensures written { Emits W.contents result output.old output.new (audit_text names.now audited.now) }
    ensures faults { IfErr result IsRunFault }
{
    flush_after(print_audited(alloc, names, audited, output), output)
}

// Prints what an audit tells: the balances of all chains, and then the notes, in the chains' order.
fn print_audited<W: Write>(
    alloc: Global,
    names: &[ChainName],
    audited: &RaceAudit,
    output: &mut W,
) -> Result<(), Fault>
    ensures written { Emits W.contents result output.old output.new (audit_text names.now audited.now) }
    ensures faults { IfErr result IsRunFault }
{
    print_all_balances(alloc, names, audited, output)?;
    print_all_notes(alloc, names, audited, output)
}

// Prints the balances of all chains that an audit tells.
fn print_all_balances<W: Write>(
    alloc: Global,
    names: &[ChainName],
    audited: &RaceAudit,
    output: &mut W,
) -> Result<(), Fault>
    ensures written { Emits W.contents result output.old output.new (all_held names.now audited.now) }
    ensures faults { IfErr result IsRunFault }
{
    for on in 0..names.len() {
        print_balances_of(alloc, name_at(names, on), audited, on, output)?;
    }
    Ok(())
}

// Prints the notes of all chains that an audit tells.
fn print_all_notes<W: Write>(
    alloc: Global,
    names: &[ChainName],
    audited: &RaceAudit,
    output: &mut W,
) -> Result<(), Fault>
    ensures written { Emits W.contents result output.old output.new (all_noted names.now audited.now) }
    ensures faults { IfErr result IsRunFault }
{
    for on in 0..names.len() {
        print_notes_of(alloc, name_at(names, on), audited, on, output)?;
    }
    Ok(())
}

// The name of a chain.
fn name_at(names: &[ChainName], on: usize) -> &str
    ensures { result.now ≡ name_of names.now on }
{
    match names.get(on) {
        Some(name) => name.as_str(),
        None => "",
    }
}

// Prints the balances that an audit tells of a chain.
fn print_balances_of<W: Write>(
    alloc: Global,
    name: &str,
    audited: &RaceAudit,
    on: usize,
    output: &mut W,
) -> Result<(), Fault>
    ensures written { Emits W.contents result output.old output.new (held_on name.now audited.now on) }
    ensures faults { IfErr result IsRunFault }
{
    match audited.balances.get(on) {
        Some(balances) => print_balances(alloc, name, balances.as_slice(), output),
        None => Ok(()),
    }
}

// Prints the notes that an audit tells of a chain.
fn print_notes_of<W: Write>(
    alloc: Global,
    name: &str,
    audited: &RaceAudit,
    on: usize,
    output: &mut W,
) -> Result<(), Fault>
    ensures written { Emits W.contents result output.old output.new (note_on name.now audited.now on) }
    ensures faults { IfErr result IsRunFault }
{
    match audited.notes.get(on) {
        Some(notes) => print_notes(alloc, name, notes.as_slice(), output),
        None => Ok(()),
    }
}

/// Gives on what the output holds back, also where the run has stopped.
fn flush_after<W: Write>(ran: Result<(), Fault>, output: &mut W) -> Result<(), Fault>
    requires { IfErr ran IsRunFault }
    ensures faults { IfErr result IsRunFault }
    ensures same { Keeps (W.contents output.old) (W.contents output.new) }
    ensures ran { OnOk result (IsOk ran) }
{
    let flushed = output.flush();
    ran?;
    match flushed {
        Ok(()) => Ok(()),
        Err(_) => Err(Fault::CannotWrite),
    }
}
