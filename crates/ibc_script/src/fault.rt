//! Why the program stops.

ghost use Rattle.std.specs.Prelude.{◌≡◌};
ghost use Rattle.ibc_script.specs.Faults.{status_of, fault_of};
ghost use Rattle.ibc_script.specs.declared.fault.Fault.TheVariants.{NoMemory};

use ibc_ids::Refusal;
use std::alloc::{AllocError, AllocFailed};
use thiserror::Error;

/// Why the program stops before its end. Its text is what stands on standard error.
#[derive(Clone, Copy, Debug, PartialEq, Eq, Error)]
pub enum Fault {
    /// The words after the program's name ask for nothing that the program does.
    #[error("ibcworld: bad arguments")]
    BadArguments,
    /// The input is no script.
    #[error("ibcworld: bad script")]
    BadScript,
    /// Standard input could not be read.
    #[error("ibcworld: cannot read")]
    CannotRead,
    /// Standard output could not be written.
    #[error("ibcworld: cannot write")]
    CannotWrite,
    /// A growth was refused.
    #[error("ibcworld: no memory")]
    NoMemory,
}

impl Fault {
    /// The status with which the program ends: 2 for bad arguments, else 1.
    pub fn status(self) -> u8
        ensures { result ≡ status_of self }
    {
        match self {
            Fault::BadArguments => 2,
            Fault::BadScript | Fault::CannotRead | Fault::CannotWrite | Fault::NoMemory => 1,
        }
    }

    /// The fault of a call that is refused for want of memory alone.
    pub fn no_memory(_refusal: Refusal) -> Fault
        ensures { result ≡ Fault.NoMemory }
    {
        Fault::NoMemory
    }

    /// The fault of a script in which something is refused: want of memory stays that, and all else is a bad script.
    pub fn of_refusal(refusal: Refusal) -> Fault
        ensures { result ≡ fault_of refusal }
    {
        match refusal {
            Refusal::NoMemory => Fault::NoMemory,
            _ => Fault::BadScript,
        }
    }
}

impl From<AllocError> for Fault {
    ghost from_gives = { λ _ e. e ≡ NoMemory };

    fn from(_e: AllocError) -> Fault {
        Fault::NoMemory
    }
}

impl<T: Drop> From<AllocFailed<T>> for Fault {
    ghost from_gives = { λ _ e. e ≡ NoMemory };

    fn from(_e: AllocFailed<T>) -> Fault {
        Fault::NoMemory
    }
}
