//! Runs the jobs that users of the libraries wait for, each on an input that a seed makes, and prints what the results come to.
#![tactic(auto)]

mod behind;
mod digest;
mod lanes;
mod log;
mod names;
mod network;
mod random;
mod relaying;
mod run_error;
mod tally;
mod words;
mod workloads;

use run_error::RunError;
use std::alloc::Global;
use std::env::Env;
use std::process::ExitCode;
use std::{env, io};
use tally::Tally;
use words::{Request, read_words};
use workloads::{SMALL, Workload};

// The seed of the small runs.
const SMALL_SEED: u64 = 1;

// The words after the program's name.
fn texts<R: Env + AllocGlobal>(rt: &R) -> Result<Vec<String>, RunError> {
    let Ok(words) = env::args(rt) else {
        return Err(RunError::BadWords);
    };
    let mut texts = Vec::new(rt.alloc());
    for word in words.skip(1) {
        texts.push(word)?;
    }
    Ok(texts)
}

// What words ask for.
fn read_texts(alloc: Global, texts: &[String]) -> Result<Request, RunError> {
    let words: Vec<&str> = texts.iter().map(|word| word.as_str()).collect(alloc)?;
    let request = read_words(words.as_slice());
    drop(words);
    request
}

// What the words after the program's name ask for.
fn requested<R: Env + AllocGlobal>(rt: &R) -> Result<Request, RunError> {
    let texts = texts(rt)?;
    let request = read_texts(rt.alloc(), texts.as_slice());
    drop(texts);
    request
}

// Prints a number, and a text behind it.
fn print_number<R: Print>(rt: &R, number: u64, behind: &str) -> io::Result<()> {
    print!(rt; "{number}{behind}")
}

// Prints how many events were accepted and refused.
fn print_answers<R: Print>(rt: &R, workload: Workload, tally: &Tally) -> io::Result<()> {
    print!(rt; "{}: ", workload.name())?;
    print_number(rt, tally.accepted, " accepted, ")?;
    print_number(rt, tally.refused, " refused\n")
}

// Prints how many packets, blocks and proofs there were.
fn print_counts<R: Print>(rt: &R, tally: &Tally) -> io::Result<()> {
    print_number(rt, tally.sent, " sent, ")?;
    print_number(rt, tally.received, " received, ")?;
    print_number(rt, tally.blocks, " blocks, ")?;
    print_number(rt, tally.proofs, " proofs\n")
}

// Prints what the results of a run come to.
fn print_tally<R: Print>(rt: &R, workload: Workload, tally: &Tally) -> io::Result<()> {
    print_answers(rt, workload, tally)?;
    print_counts(rt, tally)?;
    let digest = tally.digest.value();
    println!(rt; "digest {digest:016x}")
}

// Runs a workload and prints what its results come to. The answer is the status.
fn run_one<R: Print + Eprint + AllocGlobal>(
    rt: &R,
    workload: Workload,
    size: u64,
    seed: u64,
) -> io::Result<u8> {
    match workload.run(rt.alloc(), size, seed) {
        Ok(tally) => {
            print_tally(rt, workload, &tally)?;
            Ok(0)
        }
        Err(error) => {
            eprintln!(rt; "{error}")?;
            Ok(error.status())
        }
    }
}

// Runs each workload at a small size. The answer is the status of the last one that fails, or 0.
fn run_small<R: Print + Eprint + AllocGlobal>(rt: &R) -> io::Result<u8> {
    let mut status = 0;
    for (workload, size) in SMALL {
        status = run_one(rt, workload, size, SMALL_SEED)?.max(status);
    }
    Ok(status)
}

fn main(rt: HostRuntime) -> io::Result<ExitCode> {
    let status = match requested(&rt) {
        Ok(Request::Small) => run_small(&rt)?,
        Ok(
            Request::One {
                workload,
                size,
                seed,
            },
        ) => run_one(&rt, workload, size, seed)?,
        Err(error) => {
            eprintln!(rt; "{error}")?;
            error.status()
        }
    };
    Ok(ExitCode::from(status))
}
