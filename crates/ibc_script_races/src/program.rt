//! The program, without the streams of its process.

ghost use Rattle.std.specs.Prelude.{◌≡◌, ◌⊎◌, ℕ, IfErr, IfOk, IsErrOf, OnErr, OnOk};
ghost use Rattle.ibc_script.specs.Faults.{IsRunFault};
ghost use Rattle.ibc_script_cli.specs.Program.{HasBegunInput, HasRacedInput, HasRacedInputInPart, HasRunInput, RefusesWords};
ghost use Rattle.ibc_script_cli.specs.Words.{AskFor, AskForNothing, AskForSomething};
ghost use Rattle.ibc_script_cli.specs.declared.words.Command.TheVariants as Asked;
ghost use Rattle.ibc_world_core.specs.EveryWorld.{IsLawfulUnlessClash};
ghost use Rattle.ibc_script_races.specs.Racing.{IsRaceOf};
ghost use Rattle.ibc_script_worlds.specs.WorldChains.{IsNewWorld, world_chains};

use crate::RaceRunner;
use ibc_script::Fault;
use ibc_script_cli::drive;
use ibc_script_worlds::WorldFactory;
use std::alloc::Global;
use std::io::{Read, Write};
use std::sync::Wait;
use std::thread::Threads;

/// The program: does what the words after its name ask for, with the script on the input, over ledgers. Where they ask for a
/// run, the output gets the lines of a run of the script that the input is, over one world, which begins with the script's genesis: each reply is
/// that of the world's step, and each root, proof, balance and note is what its ledgers have. At the end the world is lawful,
/// where no two hashed texts clash. Where they ask for a race, it gets what an audit tells of ledgers of the script's genesis,
/// which took the script's steps, and which together did one lawful run of the machine. Where the program stops, a beginning of
/// such lines is written. Where the output's bytes are known, these are the bytes behind those that it had. Faults: as of
/// `drive`.
pub fn drive_on_ledgers<R: Threads + Wait + Sync, I: Read + Drop, W: Write>(
    rt: &R,
    alloc: Global,
    words: &[&str],
    input: I,
    output: &mut W,
) -> Result<(), Fault>
    ensures asked { IfOk result (λ _. AskForSomething words.now) }
    ensures bad_arguments { IsErrOf result Fault.BadArguments → AskForNothing words.now }
    ensures words_first { AskForNothing words.now → RefusesWords result }
    ensures unwritten { IfErr result (λ fault. IsRunFault fault ⊎ (output.new ≡ output.old)) }
    ensures lines { AskFor words.now Asked.Run → OnOk result (HasRunInput IsNewWorld IsLawfulUnlessClash world_chains (I.remaining input) (W.contents output.old) (W.contents output.new)) }
    ensures begun { AskFor words.now Asked.Run → OnErr result (HasBegunInput IsNewWorld world_chains (I.remaining input) (W.contents output.old) (W.contents output.new)) }
    ensures race_lines { (relayers : ℕ) → AskFor words.now (Asked.Race relayers) → OnOk result (HasRacedInput IsRaceOf (I.remaining input) (W.contents output.old) (W.contents output.new)) }
    ensures race_begun { (relayers : ℕ) → AskFor words.now (Asked.Race relayers) → OnErr result (HasRacedInputInPart IsRaceOf (I.remaining input) (W.contents output.old) (W.contents output.new)) }
{
    let worlds = WorldFactory::new(alloc);
    let races = RaceRunner::new(rt, alloc);
    drive(alloc, &worlds, &races, words, input, output)
}
