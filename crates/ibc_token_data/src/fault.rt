//! Why no data is read.

ghost use Rattle.std.specs.Prelude.{◌≡◌};
ghost use Rattle.ibc_token_data.specs.declared.fault.TokenDataFault.TheVariants.{NoMemory};

use std::alloc::{AllocError, AllocFailed};

/// Why no data is read from bytes.
#[derive(Clone, Copy, Debug, PartialEq, Eq)]
pub(crate) enum TokenDataFault {
    /// The bytes aren't the one spelling of data.
    NotData,
    /// A growth was refused.
    NoMemory,
}

impl From<AllocError> for TokenDataFault {
    ghost from_gives = { λ _ fault. fault ≡ NoMemory };

    fn from(_error: AllocError) -> TokenDataFault {
        TokenDataFault::NoMemory
    }
}

impl<T: Drop> From<AllocFailed<T>> for TokenDataFault {
    ghost from_gives = { λ _ fault. fault ≡ NoMemory };

    fn from(_error: AllocFailed<T>) -> TokenDataFault {
        TokenDataFault::NoMemory
    }
}
