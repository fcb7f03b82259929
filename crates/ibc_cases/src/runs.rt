//! Runs of the program.

use crate::forged_worlds::ForgedWorlds;
use crate::forgery::Group;
use crate::log::{Log, LogWriter};
use crate::mistake::Stop;
use crate::streams::{SlowReader, SlowWriter};
use ibc_script::Fault;
use ibc_script_cli::{Race, RaceAudit, Races, drive};
use ibc_script_worlds::WorldFactory;
use std::alloc::Global;
use std::io;
use std::io::Write;

/// Runs no races.
pub struct NoRaces;

impl Races for NoRaces {
    fn race(&self, _relayers: u8, race: Race) -> Result<RaceAudit, Fault> {
        drop(race);
        Err(Fault::NoMemory)
    }
}

/// Prints a fault, and the status with which the program ends by it.
pub fn print_fault<W: Write>(fault: Fault, output: &mut W) -> io::Result<()> {
    writeln!(output, "{fault}, status {}", fault.status())
}

// Prints why a run has stopped, if it has.
fn print_end<W: Write>(driven: Result<(), Fault>, output: &mut W) -> io::Result<()> {
    match driven {
        Ok(()) => Ok(()),
        Err(fault) => print_fault(fault, output),
    }
}

// Runs a script with groups of forgeries, and keeps in the log what comes.
fn keep_run(alloc: Global, script: &[u8], groups: &[Group<'_>], log: &Log) -> io::Result<()> {
    let worlds = ForgedWorlds { alloc, groups, log };
    let mut output = LogWriter { log };
    let driven = drive(alloc, &worlds, &NoRaces, &["run"], script, &mut output);
    print_end(driven, &mut output)
}

// Runs a script without forgeries, which is kept in an empty log, and prints how a run with so many groups of them is beside it.
fn print_beside<W: Write>(
    alloc: Global,
    script: &[u8],
    (log, spared): (&Log, &Log),
    groups: usize,
    output: &mut W,
) -> io::Result<()> {
    keep_run(alloc, script, &[], spared)?;
    match log.beside(spared, groups) {
        Some(beside) => writeln!(output, "{beside}"),
        None => Err(io::Error::from(io::ErrorKind::Other)),
    }
}

// Prints how a run with so many groups of forgeries is beside one without them; nothing where there are none.
fn print_compared<W: Write>(
    alloc: Global,
    script: &[u8],
    log: &Log,
    groups: usize,
    output: &mut W,
) -> Result<(), Stop> {
    if groups == 0 {
        return Ok(());
    }
    let spared = Log::new(alloc);
    let printed = print_beside(alloc, script, (log, &spared), groups, output);
    drop(spared);
    Ok(printed?)
}

// Runs a script with groups of forgeries or none, which is kept in an empty log, and prints what comes. Error: the first line of the
// forgeries that has a mistake.
fn print_run<W: Write>(
    alloc: Global,
    script: &[u8],
    groups: &[Group<'_>],
    log: &Log,
    output: &mut W,
) -> Result<(), Stop> {
    keep_run(alloc, script, groups, log)?;
    match log.wrong(groups) {
        Some(wrong) => Err(Stop::Wrong(wrong)),
        None => Ok(log.print(output)?),
    }
}

/// Runs a script, with groups of forgeries or none, and prints what comes; where there are some, also how that is beside a run
/// without them. Errors: the first line of the forgeries that has a mistake, before anything is printed; no memory, and an output
/// that can't be written.
pub fn print_script<W: Write>(
    alloc: Global,
    script: &[u8],
    groups: &[Group<'_>],
    output: &mut W,
) -> Result<(), Stop> {
    let log = Log::new(alloc);
    let printed = match print_run(alloc, script, groups, &log, output) {
        Ok(()) => print_compared(alloc, script, &log, groups.len(), output),
        stop => stop,
    };
    drop(log);
    printed
}

/// A run of the program: its word, its input, and how many reads and writes don't fail.
#[derive(Clone, Copy)]
pub struct Run<'t> {
    pub word: &'t str,
    pub script: &'t [u8],
    pub reads: u64,
    pub writes: u64,
}

impl Run<'_> {
    /// Runs the program, and prints what it wrote, and why it has stopped if it has.
    pub fn print<W: Write>(&self, alloc: Global, output: &mut W) -> io::Result<()> {
        let reader = SlowReader {
            text: self.script,
            calls: self.reads,
        };
        let mut writer = SlowWriter {
            taken: Vec::new(alloc),
            calls: self.writes,
        };
        let worlds = WorldFactory::new(alloc);
        let driven = drive(alloc, &worlds, &NoRaces, &[self.word], reader, &mut writer);
        let printed = output.write_all(writer.taken.as_slice());
        drop(writer);
        printed?;
        print_end(driven, output)
    }
}
