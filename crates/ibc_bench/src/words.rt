//! The words after the program's name.

use crate::run_error::RunError;
use crate::workloads::{Part, Workload};

/// What the words ask for.
#[derive(Clone, Copy)]
pub enum Request {
    /// Each workload at a small size.
    Small,
    /// A workload at a size, on the input that a seed makes.
    One {
        workload: Workload,
        size: u64,
        seed: u64,
    },
}

// The number that a word is, below 2^32.
fn number_of(word: &str) -> Result<u64, RunError> {
    match word.parse::<u32>() {
        Ok(number) => Ok(u64::from(number)),
        Err(_) => Err(RunError::BadWords),
    }
}

// What asks for a workload at a size, on the input that a seed makes.
fn one(workload: Option<Workload>, size: &str, seed: &str) -> Result<Request, RunError> {
    match workload {
        Some(workload) => Ok(Request::One {
            workload,
            size: number_of(size)?,
            seed: number_of(seed)?,
        }),
        None => Err(RunError::BadWords),
    }
}

/// What the words ask for. Error: `BadWords`.
pub fn read_words(words: &[&str]) -> Result<Request, RunError> {
    match words {
        ["small"] => Ok(Request::Small),
        [name, size, seed] => one(Workload::of(name), size, seed),
        ["parts", part, size, seed] => one(Part::of(part).map(Workload::Parts), size, seed),
        _ => Err(RunError::BadWords),
    }
}
