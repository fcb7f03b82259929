//! `ibclab sim`: random scripts are run, and the laws are looked at.

use crate::{FAILED, FOUND, GOOD, RelayerNumber, bytes_of, relayers_in};
use clap::{Arg, ArgAction, ArgMatches, Command};
use ibc_law_checks::Finding;
use ibc_run_notes::AnswerCounts;
use ibc_script::Fault;
use ibc_sim::{FailedScript, ShortScript, Simulation, SimulationRequest, race_and_judge, replay};
use ibc_wire::MessageKind;
use std::alloc::{AllocError, Global};
use std::fs::Files;
use std::sync::Wait;
use std::thread::Threads;
use std::{fs, io};

/// A simulation runs at most so many scripts.
const MOST_SCRIPTS: u64 = 1_000_000_000;

/// What is asked of a simulation, and how many relayers work at the same time, if that is said.
#[derive(Clone, Copy)]
struct SimTask {
    request: SimulationRequest,
    relayers: Option<RelayerNumber>,
}

/// A number is out of its range.
#[derive(Clone, Copy)]
struct OutOfRange;

/// The words of `sim`.
pub fn sim_parser<'a>(alloc: Global) -> Result<Command<'a>, AllocError> {
    let command = Command::new(alloc, "sim")
        .about(
            "Run random scripts, look at the laws after each event, and write a script that breaks one",
        )
        .after_help(
            "The same seed gives the same scripts. What relayers do at the same time depends on the threads.",
        );
    command
        .arg(value_word(alloc, "seed", "N", "The seed of the first script (1)"))?
        .arg(value_word(alloc, "steps", "M", "So many steps in all (100000)"))?
        .arg(value_word(alloc, "chains", "K", "So many chains, 2 to 8 (3)"))?
        .arg(value_word(
            alloc,
            "window",
            "W",
            "A chain keeps so many heights, 1 to 2000",
        ))?
        .arg(value_word(
            alloc,
            "race",
            "R",
            "Run each script again with so many relayers at the same time, 1 to 8",
        ))?
        .arg(value_word(
            alloc,
            "out",
            "FILE",
            "Where a failing script is written (sim.json)",
        ))?
        .arg(value_word(
            alloc,
            "replay",
            "FILE",
            "Run this script in place of random ones",
        ))
}

// A word with a value.
fn value_word<'a>(alloc: Global, name: &'a str, value: &'a str, help: &'a str) -> Arg<'a> {
    Arg::new(alloc, name)
        .long(name)
        .value_name(value)
        .help(help)
        .action(ArgAction::Set)
}

// The number that a word has, or the usual one; none where it has another text.
fn number_of(words: &ArgMatches<'_>, name: &str, usual: u64) -> Option<u64> {
    match words.get_str(name) {
        Some(text) => text.parse::<u64>().ok(),
        None => Some(usual),
    }
}

// How many relayers the words ask for, if they do; an error where that is no number from 1 to 8.
fn relayers_of(words: &ArgMatches<'_>) -> Result<Option<RelayerNumber>, OutOfRange> {
    match words.get_str("race") {
        Some(text) => match relayers_in(text) {
            Some(relayers) => Ok(Some(relayers)),
            None => Err(OutOfRange),
        },
        None => Ok(None),
    }
}

// What the words ask for; none where a number is out of its range.
fn request_of(words: &ArgMatches<'_>) -> Option<SimulationRequest> {
    let seed = number_of(words, "seed", 1)?;
    let steps = number_of(words, "steps", 100_000)?;
    let chains = number_of(words, "chains", 3)?;
    let window = number_of(words, "window", 0)?;
    if !(2..=8).contains(&chains) || window > 2_000 {
        return None;
    }
    Some(SimulationRequest {
        seed,
        steps,
        chains: u8::try_from(chains).ok()?,
        window: if words.get_str("window").is_some() {
            Some(window)
        } else {
            None
        },
    })
}

/// Does what the words of `sim` ask for. The result is the status.
pub fn simulate<R: Files + Print + Eprint + AllocGlobal + Threads + Wait + Sync>(
    rt: &R,
    words: &ArgMatches<'_>,
    is_watched: bool,
) -> io::Result<u8> {
    let Ok(relayers) = relayers_of(words) else {
        return out_of_range(rt);
    };
    if let Some(file) = words.get_str("replay") {
        return replay_file(rt, file, relayers);
    }
    match request_of(words) {
        Some(request) if request.window != Some(0) => {
            let task = SimTask { request, relayers };
            simulate_all(rt, task, words.get_str("out"), is_watched)
        }
        _ => out_of_range(rt),
    }
}

// Tells that a number is out of its range.
fn out_of_range<R: Eprint>(rt: &R) -> io::Result<u8> {
    eprintln!(rt;
        "ibclab: sim wants numbers: 2 to 8 chains, a window of 1 to 2000, 1 to 8 relayers"
    )?;
    Ok(FAILED)
}

// Why a run can't go on.
fn failed<R: Eprint>(rt: &R, fault: Fault) -> io::Result<u8> {
    match fault {
        Fault::NoMemory => Err(io::Error::from(AllocError)),
        _ => {
            eprintln!(rt; "ibclab: no script")?;
            Ok(FAILED)
        }
    }
}

// Tells what a script breaks, where so many relayers work at the same time, if that is said.
fn replay_file<R: Files + Print + Eprint + AllocGlobal + Threads + Wait + Sync>(
    rt: &R,
    file: &str,
    relayers: Option<RelayerNumber>,
) -> io::Result<u8> {
    let text = match bytes_of(rt, file) {
        Ok(text) => text,
        Err(error) => {
            eprintln!(rt; "ibclab: {file}: {error}")?;
            return Ok(FAILED);
        }
    };
    let found = match relayers {
        Some(relayers) => race_and_judge(rt, rt.alloc(), relayers.value, text.as_slice()),
        None => replay(rt.alloc(), text.as_slice()),
    };
    drop(text);
    match found {
        Ok(Some(finding)) => {
            print_finding(rt, &finding)?;
            drop(finding);
            Ok(FOUND)
        }
        Ok(None) => {
            println!(rt; "no law is broken")?;
            Ok(GOOD)
        }
        Err(fault) => failed(rt, fault),
    }
}

// Prints which law is broken, where, and by what.
fn print_finding<R: Print>(rt: &R, finding: &Finding) -> io::Result<()> {
    let words = finding.law.words();
    let about = finding.about.as_str();
    let chain = finding.chain;
    println!(rt; "broken: {words}: chain {chain}: {about}")
}

// Runs scripts up to the first that breaks a law. The result is the status.
fn simulate_all<R: Files + Print + Eprint + AllocGlobal + Threads + Wait + Sync>(
    rt: &R,
    task: SimTask,
    out: Option<&str>,
    is_watched: bool,
) -> io::Result<u8> {
    let mut simulation = match Simulation::new(rt.alloc(), task.request) {
        Ok(simulation) => simulation,
        Err(fault) => return failed(rt, fault),
    };
    let failure = run_all(rt, &mut simulation, task, is_watched);
    let told = match failure {
        Ok(failure) => tell(rt, &simulation, task.relayers, failure, out),
        Err(error) => Err(error),
    };
    drop(simulation);
    told
}

// Runs scripts up to the first that breaks a law.
fn run_all<R: Eprint + Threads + Wait + Sync>(
    rt: &R,
    simulation: &mut Simulation,
    task: SimTask,
    is_watched: bool,
) -> io::Result<Result<Option<FailedScript>, Fault>> {
    let steps = task.request.steps;
    for _script in 0..MOST_SCRIPTS {
        if simulation.is_done() {
            break;
        }
        let failure = match task.relayers {
            Some(relayers) => simulation.race_next(rt, relayers.value),
            None => simulation.run_next(),
        };
        if is_watched {
            let done = simulation.steps;
            eprint!(rt; "\ribclab: {done} of {steps} steps")?;
        }
        match failure {
            Ok(None) => {}
            _ => {
                end_progress(rt, is_watched)?;
                return Ok(failure);
            }
        }
    }
    end_progress(rt, is_watched)?;
    Ok(Ok(None))
}

// Ends the line of progress.
fn end_progress<R: Eprint>(rt: &R, is_watched: bool) -> io::Result<()> {
    if is_watched {
        eprintln!(rt; "")?;
    }
    Ok(())
}

// Tells what was found, and what was tried.
fn tell<R: Files + Print + Eprint>(
    rt: &R,
    simulation: &Simulation,
    relayers: Option<RelayerNumber>,
    failure: Result<Option<FailedScript>, Fault>,
    out: Option<&str>,
) -> io::Result<u8> {
    match failure {
        Ok(None) => tell_good(rt, simulation, relayers),
        Ok(Some(failure)) => {
            let told = tell_failure(rt, simulation.steps, &failure, out);
            drop(failure);
            told
        }
        Err(fault) => failed(rt, fault),
    }
}

// Tells what was tried, where no law is broken.
fn tell_good<R: Print>(
    rt: &R,
    simulation: &Simulation,
    relayers: Option<RelayerNumber>,
) -> io::Result<u8> {
    print_counts(rt, &simulation.counts)?;
    let (scripts, steps) = (simulation.scripts, simulation.steps);
    match relayers {
        Some(relayers) => {
            let count = relayers.value;
            println!(rt; "{scripts} scripts, {steps} steps, {count} relayers: no law is broken")?;
        }
        None => println!(rt; "{scripts} scripts, {steps} steps: no law is broken")?,
    }
    Ok(GOOD)
}

// Prints how often each message was accepted, and how many events were refused.
fn print_counts<R: Print>(rt: &R, counts: &AnswerCounts) -> io::Result<()> {
    for tag in 1..20 {
        if let (Some(kind), Some(count)) = (
            MessageKind::of_tag(tag),
            counts.accepted.get(usize::from(tag)),
        ) {
            let name = kind.name();
            println!(rt; "{name} {count}")?;
        }
    }
    let blocks = counts.accepted.first().copied().unwrap_or(0);
    let refused = counts.refused_in_all();
    println!(rt; "Block {blocks}")?;
    println!(rt; "refused {refused}")
}

// Tells of a script that breaks a law, after so many steps in all, makes it shorter, and writes it.
fn tell_failure<R: Files + Print + Eprint>(
    rt: &R,
    all: u64,
    failure: &FailedScript,
    out: Option<&str>,
) -> io::Result<u8> {
    print_finding(rt, &failure.finding)?;
    let (seed, steps) = (failure.seed, failure.step_count());
    println!(rt; "seed {seed}, {steps} steps, {all} in all")?;
    let file = out.unwrap_or("sim.json");
    if failure.is_raced {
        return tell_whole(rt, failure, file);
    }
    match failure.shorter() {
        Ok(short) => {
            let told = tell_short(rt, &short, file);
            drop(short);
            told
        }
        Err(fault) => failed(rt, fault),
    }
}

// Writes all steps of a script on which relayers raced: the next race may find nothing.
fn tell_whole<R: Files + Print + Eprint>(
    rt: &R,
    failure: &FailedScript,
    file: &str,
) -> io::Result<u8> {
    match failure.whole() {
        Ok(whole) => {
            let told = write_script(rt, file, whole.text.as_str());
            drop(whole);
            told
        }
        Err(fault) => failed(rt, fault),
    }
}

// Tells how many steps suffice, and writes them.
fn tell_short<R: Files + Print + Eprint>(
    rt: &R,
    short: &ShortScript,
    file: &str,
) -> io::Result<u8> {
    let steps = short.steps;
    println!(rt; "{steps} of them suffice")?;
    write_script(rt, file, short.text.as_str())
}

// Writes the script into a file.
fn write_script<R: Files + Print + Eprint>(rt: &R, file: &str, script: &str) -> io::Result<u8> {
    match fs::write(rt, file, script) {
        Ok(()) => {
            println!(rt; "written: {file}")?;
            Ok(FOUND)
        }
        Err(error) => {
            eprintln!(rt; "ibclab: {file}: {error}")?;
            Ok(FAILED)
        }
    }
}
