//! Runs the cases of files, one after another, and prints what comes of each below its title: `ibc_cases [FILE ..]`. Where a line
//! has a mistake, it and the file are named on standard error, and the status is 1.
#![tactic(auto)]

mod case;
mod counts;
mod directive;
mod fields;
mod forged_worlds;
mod forgery;
mod lines;
mod log;
mod mistake;
mod runs;
mod spelled;
mod streams;
mod texts;
mod wrong_bytes;

use crate::case::print_cases;
use crate::mistake::Stop;
use std::env::Env;
use std::fs::Files;
use std::io::{BufWriter, Write};
use std::process::ExitCode;
use std::{env, fs, io};

/// Prints the cases of a file.
fn print_file<R: Files + AllocGlobal, W: Write>(
    rt: &R,
    name: &str,
    output: &mut W,
) -> Result<(), Stop> {
    let text = fs::read(rt, name)?;
    let printed = print_cases(rt.alloc(), text.as_slice(), output);
    drop(text);
    printed
}

/// Tells why the cases of a file weren't all run.
fn tell<R: Eprint>(rt: &R, name: &str, stop: &Stop) -> io::Result<ExitCode> {
    eprintln!(rt; "{name}: {stop}")?;
    Ok(ExitCode::FAILURE)
}

/// Prints the cases of each file, up to the first one whose cases can't all be run.
fn print_files<R: Files + Eprint + AllocGlobal, W: Write>(
    rt: &R,
    names: &[&str],
    output: &mut W,
) -> io::Result<ExitCode> {
    for name in names {
        if let Err(stop) = print_file(rt, name, output) {
            let told = tell(rt, name, &stop);
            drop(stop);
            return told;
        }
    }
    Ok(ExitCode::SUCCESS)
}

/// Prints the cases of each file, and what is held back of them where nothing has failed.
fn print_whole<R: Files + Eprint + AllocGlobal, W: Write>(
    rt: &R,
    names: &[&str],
    output: &mut W,
) -> io::Result<ExitCode> {
    let code = print_files(rt, names, output)?;
    output.flush()?;
    Ok(code)
}

/// Prints the cases of files on the standard output.
fn print_out<R: Files + Print + Eprint + AllocGlobal>(
    rt: &R,
    names: &[&str],
) -> io::Result<ExitCode> {
    let mut output = BufWriter::new(rt.alloc(), io::writer(rt))?;
    let code = print_whole(rt, names, &mut output);
    drop(output);
    code
}

/// The words after the program's name.
fn words<R: Env + AllocGlobal>(rt: &R) -> io::Result<Vec<String>> {
    let words = env::args(rt)?;
    let mut texts = Vec::new(rt.alloc());
    for word in words.skip(1) {
        texts.push(word)?;
    }
    Ok(texts)
}

/// Prints the cases of the files that words name.
fn print_named<R: Files + Print + Eprint + AllocGlobal>(
    rt: &R,
    words: &[String],
) -> io::Result<ExitCode> {
    let names: Vec<&str> = words.iter().map(|word| word.as_str()).collect(rt.alloc())?;
    let code = print_out(rt, names.as_slice());
    drop(names);
    code
}

fn main(rt: HostRuntime) -> io::Result<ExitCode> {
    let words = words(&rt)?;
    let code = print_named(&rt, words.as_slice());
    drop(words);
    code
}
