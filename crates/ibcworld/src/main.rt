//! Runs a script of several chains, and prints what they answer.
#![tactic(auto)]

use ibc_script::Fault;
use ibc_script_races::drive_on_ledgers;
use std::env::Env;
use std::io::BufWriter;
use std::process::ExitCode;
use std::sync::Wait;
use std::thread::Threads;
use std::{env, io};

/// The fault of words that can't be read, and of an output that can't be made.
fn fault_of(error: io::Error) -> Fault {
    if error.kind() == io::ErrorKind::OutOfMemory {
        Fault::NoMemory
    } else {
        Fault::BadArguments
    }
}

/// Does what the words after the program's name ask for.
fn run<R: Env + Input + Print + AllocGlobal + Threads + Wait + Sync>(rt: &R) -> Result<(), Fault> {
    let alloc = rt.alloc();
    let mut texts = Vec::new(alloc);
    for word in env::args(rt).map_err(fault_of)?.skip(1) {
        texts.push(word)?;
    }
    let words: Vec<&str> = texts.iter().map(|word| word.as_str()).collect(alloc)?;
    let mut output = BufWriter::new(alloc, io::writer(rt)).map_err(fault_of)?;
    drive_on_ledgers(rt, alloc, words.as_slice(), rt.reader(), &mut output)
}

fn main(rt: HostRuntime) -> io::Result<ExitCode> {
    match run(&rt) {
        Ok(()) => Ok(ExitCode::SUCCESS),
        Err(fault) => {
            eprintln!(rt; "{fault}")?;
            Ok(ExitCode::from(fault.status()))
        }
    }
}
