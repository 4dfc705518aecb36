ghost use Rattle.std.specs.Prelude.{◌≡◌};
ghost use Rattle.npa_syntax.specs.declared.fault.ReadFault.TheVariants.{NoMemory};

use std::alloc::{AllocError, AllocFailed};
use thiserror::Error;

/// Why a list of terminals wasn't read.
#[derive(Debug, Drop, Error)]
pub enum ReadFault {
    /// No text can go on at this terminal, counted from 0; past the last one, no text ends there.
    #[error("no text can go on at terminal {at}")]
    Syntax { at: usize },
    /// Memory was wanting.
    #[error("memory is wanting")]
    NoMemory,
}

impl From<AllocError> for ReadFault {
    ghost from_gives = { λ _ fault. fault ≡ NoMemory };

    fn from(_error: AllocError) -> ReadFault {
        ReadFault::NoMemory
    }
}

impl<T: Drop> From<AllocFailed<T>> for ReadFault {
    ghost from_gives = { λ _ fault. fault ≡ NoMemory };

    fn from(_error: AllocFailed<T>) -> ReadFault {
        ReadFault::NoMemory
    }
}
