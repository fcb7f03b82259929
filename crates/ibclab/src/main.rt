//! `ibclab check FILE..`: what is wrong with scripts, and where it stands. `ibclab explain FILE`: what the lines of a run are about.
//! `ibclab explain --race N FILE`: what relayers sent at the same time. `ibclab draw FILE`: a picture of a run. `ibclab sim`: random
//! scripts, and whether the laws hold of their runs.
#![tactic(auto)]

ghost use Rattle.std.specs.Prelude.{◌≤◌};

mod sim;

use clap::error::ErrorKind;
use clap::{Arg, ArgAction, ArgMatches, Command};
use ibc_drawing::{PictureForm, draw};
use ibc_explain::{ExplainedForm, NotPlaced, ScriptRun, explain, run as run_script};
use ibc_lab::{Verdict, check, report};
use ibc_race_counts::{CountsForm, count_race, tell_race};
use ibc_script::Script;
use sim::{sim_parser, simulate};
use std::alloc::{AllocError, Global};
use std::env::Env;
use std::fs::Files;
use std::io::{IsTerminal, Read};
use std::process::ExitCode;
use std::sync::Wait;
use std::thread::Threads;
use std::{env, fs, io};

/// All files are scripts that can be run.
const GOOD: u8 = 0;

/// Something is wrong with a script.
const FOUND: u8 = 1;

/// The words ask for nothing that the program does, or a file can't be read.
const FAILED: u8 = 2;

/// So many bytes of a file are read at most: one more than a script may have.
const MOST_BYTES: u64 = 1_048_577;

fn parser<'a>(alloc: Global) -> Result<Command<'a>, AllocError> {
    let files = Arg::new(alloc, "file")
        .value_name("FILE")
        .help("A script")
        .required(true)
        .num_args(1usize..)
        .action(ArgAction::Append);
    let check = Command::new(alloc, "check")
        .about(
            "Say what is wrong with scripts, a line for each fault: FILE:LINE:COLUMN: PLACE: WHAT",
        )
        .arg(files)?;
    let explain = explain_parser(alloc)?;
    Command::new(alloc, "ibclab")
        .version("1.0.0")
        .propagate_version(true)
        .about("Look at scripts of ibcworld")
        .after_help("It ends with 0 where all is good, 1 where it finds something, and else 2.")
        .arg_required_else_help(true)
        .subcommand_required(true)
        .subcommand(check)?
        .subcommand(explain)?
        .subcommand(draw_parser(alloc)?)?
        .subcommand(sim_parser(alloc)?)
}

fn draw_parser<'a>(alloc: Global) -> Result<Command<'a>, AllocError> {
    let file = Arg::new(alloc, "file")
        .value_name("FILE")
        .help("A script")
        .required(true)
        .action(ArgAction::Set);
    let html = Arg::new(alloc, "html")
        .long("html")
        .help("Print a page of HTML in place of SVG")
        .action(ArgAction::SetTrue);
    let mermaid = Arg::new(alloc, "mermaid")
        .long("mermaid")
        .help("Print a sequence chart of Mermaid in place of SVG")
        .conflicts_with("html")?
        .action(ArgAction::SetTrue);
    Command::new(alloc, "draw")
        .about("Run a script, and draw a picture of the run")
        .arg(html)?
        .arg(mermaid)?
        .arg(file)
}

fn explain_parser<'a>(alloc: Global) -> Result<Command<'a>, AllocError> {
    let file = Arg::new(alloc, "file")
        .value_name("FILE")
        .help("A script")
        .required(true)
        .action(ArgAction::Set);
    let json = Arg::new(alloc, "json")
        .long("json")
        .help("Print an object of JSON a line")
        .action(ArgAction::SetTrue);
    let race = Arg::new(alloc, "race")
        .long("race")
        .value_name("N")
        .help("Have so many relayers work at the same time, 1 to 8, and count their messages")
        .action(ArgAction::Set);
    Command::new(alloc, "explain")
        .about("Run a script, and say what each line is about")
        .arg(json)?
        .arg(race)?
        .arg(file)
}

/// The bytes of a file.
fn bytes_of<R: Files + AllocGlobal>(rt: &R, file: &str) -> io::Result<Vec<u8>> {
    let mut bytes = Vec::new(rt.alloc());
    let opened = fs::open(rt, file)?;
    opened.take(MOST_BYTES).read_to_end(&mut bytes)?;
    Ok(bytes)
}

/// So many relayers work at the same time.
#[derive(Clone, Copy)]
struct RelayerNumber {
    value: u8,
    ghost some: { 1 ≤ value },
    ghost few: { value ≤ 8 },
}

/// What is done with each file.
#[derive(Clone, Copy)]
enum LabTask {
    /// It is told what is wrong with it.
    Check,
    /// It is run, and its lines are explained.
    Explain(ExplainedForm),
    /// Relayers race on it, and their messages are counted.
    Count(RelayerNumber, CountsForm),
    /// It is run, and the run is drawn.
    Draw(PictureForm),
}

/// The name of a file without its folders.
fn base_name(file: &str) -> &str {
    match file.rsplit_once('/') {
        Some((_, name)) => name,
        None => file,
    }
}

/// What is printed of a run.
fn told_of(alloc: Global, task: LabTask, file: &str, run: &ScriptRun) -> Result<String, NotPlaced> {
    match task {
        LabTask::Check | LabTask::Count(..) => Ok(String::new(alloc)),
        LabTask::Explain(form) => explain(alloc, run, form),
        LabTask::Draw(form) => draw(alloc, run, base_name(file), form),
    }
}

/// Runs a script, and prints what is asked of the run. The result is the status.
fn tell_of_run<R: Print + AllocGlobal>(
    rt: &R,
    task: LabTask,
    file: &str,
    script: Script,
) -> io::Result<u8> {
    let Ok(run) = run_script(rt.alloc(), script) else {
        return Err(io::Error::from(AllocError));
    };
    let told = told_of(rt.alloc(), task, file, &run);
    drop(run);
    let told = match told {
        Ok(told) => told,
        Err(NotPlaced::NoMemory) => return Err(io::Error::from(AllocError)),
        Err(NotPlaced::LeftOut) => return Err(io::Error::from(io::ErrorKind::InvalidData)),
    };
    let printed = rt.print(told.as_str());
    drop(told);
    printed?;
    Ok(GOOD)
}

/// Has relayers race on a script, and prints what each of them sent. The result is the status.
fn tell_of_race<R: Print + AllocGlobal + Threads + Wait + Sync>(
    rt: &R,
    relayers: RelayerNumber,
    form: CountsForm,
    script: Script,
) -> io::Result<u8> {
    let Ok(race) = count_race(rt, rt.alloc(), relayers.value, script) else {
        return Err(io::Error::from(AllocError));
    };
    let told = tell_race(rt.alloc(), &race, form);
    drop(race);
    let told = told?;
    let printed = rt.print(told.as_str());
    drop(told);
    printed?;
    Ok(GOOD)
}

/// Does with a script what is asked. The result is the status.
fn look_at_script<R: Print + AllocGlobal + Threads + Wait + Sync>(
    rt: &R,
    task: LabTask,
    file: &str,
    script: Script,
) -> io::Result<u8> {
    match task {
        LabTask::Check => {
            drop(script);
            Ok(GOOD)
        }
        LabTask::Count(relayers, form) => tell_of_race(rt, relayers, form, script),
        LabTask::Explain(_) | LabTask::Draw(_) => tell_of_run(rt, task, file, script),
    }
}

/// Does with a text what is asked, or says what is wrong with it. The result is the status.
fn look_at_text<R: Print + AllocGlobal + Threads + Wait + Sync>(
    rt: &R,
    task: LabTask,
    file: &str,
    text: &[u8],
) -> io::Result<u8> {
    match check(rt.alloc(), text)? {
        Verdict::Good(script) => look_at_script(rt, task, file, script),
        Verdict::Bad(faults) => {
            let lines = report(rt.alloc(), file, text, faults.as_slice());
            drop(faults);
            let lines = lines?;
            let printed = rt.print(lines.as_str());
            drop(lines);
            printed?;
            Ok(FOUND)
        }
    }
}

/// Does with a file what is asked. The result is the status.
fn look_at_file<R: Files + Print + Eprint + AllocGlobal + Threads + Wait + Sync>(
    rt: &R,
    task: LabTask,
    file: &str,
) -> io::Result<u8> {
    match bytes_of(rt, file) {
        Ok(text) => {
            let status = look_at_text(rt, task, file, text.as_slice());
            drop(text);
            status
        }
        Err(error) => {
            eprintln!(rt; "ibclab: {file}: {error}")?;
            Ok(FAILED)
        }
    }
}

/// How many relayers a text asks for, none where it is no number from 1 to 8.
fn relayers_in(text: &str) -> Option<RelayerNumber> {
    let value = text.parse::<u8>().ok()?;
    if 1 <= value && value <= 8 {
        Some(RelayerNumber { value })
    } else {
        None
    }
}

/// What is asked for by the words behind `explain`, none where these ask for too few relayers or too many.
fn explaining_of(words: &ArgMatches<'_>) -> Option<LabTask> {
    match (words.get_str("race"), words.get_flag("json")) {
        (None, true) => Some(LabTask::Explain(ExplainedForm::Json)),
        (None, false) => Some(LabTask::Explain(ExplainedForm::Text)),
        (Some(text), true) => Some(LabTask::Count(relayers_in(text)?, CountsForm::Json)),
        (Some(text), false) => Some(LabTask::Count(relayers_in(text)?, CountsForm::Text)),
    }
}

/// What is asked for by a command's name and words, none where these ask for too few relayers or too many.
fn task_of(command: &str, words: &ArgMatches<'_>) -> Option<LabTask> {
    match command {
        "explain" => explaining_of(words),
        "draw" if words.get_flag("html") => Some(LabTask::Draw(PictureForm::Html)),
        "draw" if words.get_flag("mermaid") => Some(LabTask::Draw(PictureForm::Mermaid)),
        "draw" => Some(LabTask::Draw(PictureForm::Svg)),
        _ => Some(LabTask::Check),
    }
}

/// Does what the words ask for; where standard error is watched, it tells how far it is. The result is the greatest status.
fn look_at_files<R: Files + Print + Eprint + AllocGlobal + Threads + Wait + Sync>(
    rt: &R,
    found: &ArgMatches<'_>,
    is_watched: bool,
) -> io::Result<u8> {
    let mut status = GOOD;
    if let Some((command, inner)) = found.subcommand() {
        if command == "sim" {
            return simulate(rt, inner, is_watched);
        }
        let Some(task) = task_of(command, inner) else {
            eprintln!(rt; "ibclab: explain wants 1 to 8 relayers")?;
            return Ok(FAILED);
        };
        for file in inner.get_strs("file").unwrap_or(&[]) {
            status = status.max(look_at_file(rt, task, file)?);
        }
    }
    Ok(status)
}

/// The status of words that ask for no file to be looked at: those that ask for help or for the version are good.
fn status_of(kind: ErrorKind) -> u8 {
    match kind {
        ErrorKind::DisplayHelp | ErrorKind::DisplayVersion => GOOD,
        _ => FAILED,
    }
}

/// Does what the words after the program's name ask for. The result is the status.
fn run<R: Env + Files + Print + Eprint + AllocGlobal + Threads + Wait + Sync>(
    rt: &R,
    is_watched: bool,
) -> io::Result<u8> {
    let alloc = rt.alloc();
    let mut words = Vec::new(alloc);
    for word in env::args(rt)? {
        words.push(word)?;
    }
    match parser(alloc)?.try_get_matches_from(words.as_slice()) {
        Ok(found) => {
            let status = look_at_files(rt, &found, is_watched);
            drop(found);
            status
        }
        Err(error) => {
            let printed = error.print(rt);
            let status = status_of(error.kind());
            drop(error);
            printed?;
            Ok(status)
        }
    }
}

fn main(rt: HostRuntime) -> io::Result<ExitCode> {
    let is_watched = rt.stderr().is_terminal();
    match run(&rt, is_watched) {
        Ok(status) => Ok(ExitCode::from(status)),
        Err(error) => {
            eprintln!(rt; "ibclab: {error}")?;
            Ok(ExitCode::from(FAILED))
        }
    }
}
