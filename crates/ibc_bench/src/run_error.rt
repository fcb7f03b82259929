//! Why a run stops before its end.

use ibc_ids::Refusal;
use ibc_script::Fault;
use std::alloc::{AllocError, AllocFailed};
use thiserror::Error;

/// Why a run stops before its end. Its text is what stands on standard error.
#[derive(Clone, Copy, Debug, Error)]
pub enum RunError {
    /// The words after the program's name ask for nothing that it does.
    #[error("ibc_bench: the words are neither WORKLOAD SIZE SEED nor parts PART SIZE SEED nor small")]
    BadWords,
    /// A growth was refused.
    #[error("ibc_bench: no memory")]
    NoMemory,
    /// A call was refused that should be accepted.
    #[error("ibc_bench: refused: {0}")]
    Refused(Refusal),
    /// A step was stopped that should be taken.
    #[error("ibc_bench: stopped: {0}")]
    Stopped(Fault),
    /// A result isn't what it should be.
    #[error("ibc_bench: unexpected: {0}")]
    Unexpected(&'static str),
}

impl RunError {
    /// The status with which the program ends: 2 for bad words, else 1.
    pub fn status(self) -> u8 {
        match self {
            RunError::BadWords => 2,
            _ => 1,
        }
    }
}

impl From<AllocError> for RunError {
    fn from(_error: AllocError) -> RunError {
        RunError::NoMemory
    }
}

impl<T: Drop> From<AllocFailed<T>> for RunError {
    fn from(_error: AllocFailed<T>) -> RunError {
        RunError::NoMemory
    }
}

impl From<Refusal> for RunError {
    fn from(refusal: Refusal) -> RunError {
        RunError::Refused(refusal)
    }
}

impl From<Fault> for RunError {
    fn from(fault: Fault) -> RunError {
        RunError::Stopped(fault)
    }
}
