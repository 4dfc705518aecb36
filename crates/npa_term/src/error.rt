ghost use Rattle.std.specs.Prelude.{◌≡◌};

use std::alloc::{AllocError, AllocFailed};
use thiserror::Error;

/// There was no memory for the answer.
#[derive(Clone, Copy, Debug, PartialEq, Eq, Hash, Error)]
#[error("out of memory")]
pub struct NoMemory;

impl From<AllocError> for NoMemory {
    ghost from_gives = { λ _ e. e ≡ record {} };

    fn from(_error: AllocError) -> NoMemory {
        NoMemory
    }
}

impl<T: Drop> From<AllocFailed<T>> for NoMemory {
    ghost from_gives = { λ _ e. e ≡ record {} };

    fn from(_error: AllocFailed<T>) -> NoMemory {
        NoMemory
    }
}

/// Why a call that bounds its answer's size made none.
#[derive(Clone, Copy, Debug, PartialEq, Eq, Hash, Error)]
pub enum TermFail {
    /// The term would have this many symbols, more than a term may have. The number stops at
    /// `u64::MAX`.
    #[error("a term of {0} symbols")]
    TooLarge(u64),
    #[error("out of memory")]
    NoMemory,
}

impl From<NoMemory> for TermFail {
    ghost use Rattle.npa_term.specs.declared.error.TermFail.TheVariants.{NoMemory as OutOfMemory};

    ghost from_gives = { λ _ e. e ≡ OutOfMemory };

    fn from(_error: NoMemory) -> TermFail {
        TermFail::NoMemory
    }
}

impl From<AllocError> for TermFail {
    ghost use Rattle.npa_term.specs.declared.error.TermFail.TheVariants.{NoMemory as OutOfMemory};

    ghost from_gives = { λ _ e. e ≡ OutOfMemory };

    fn from(_error: AllocError) -> TermFail {
        TermFail::NoMemory
    }
}

impl<T: Drop> From<AllocFailed<T>> for TermFail {
    ghost use Rattle.npa_term.specs.declared.error.TermFail.TheVariants.{NoMemory as OutOfMemory};

    ghost from_gives = { λ _ e. e ≡ OutOfMemory };

    fn from(_error: AllocFailed<T>) -> TermFail {
        TermFail::NoMemory
    }
}
