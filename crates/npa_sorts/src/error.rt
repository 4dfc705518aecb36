ghost use Rattle.std.specs.Prelude.{◌≡◌};

use std::alloc::{AllocError, AllocFailed};
use thiserror::Error;

/// There was no memory for the answer.
#[derive(Clone, Copy, Debug, PartialEq, Eq, Hash, Error)]
#[error("out of memory")]
pub struct NoMemory;

impl From<AllocError> for NoMemory {
    ghost from_gives = { λ _ e. e ≡ record {} };

    fn from(_error: AllocError) -> NoMemory {
        NoMemory
    }
}

impl<T: Drop> From<AllocFailed<T>> for NoMemory {
    ghost from_gives = { λ _ e. e ≡ record {} };

    fn from(_error: AllocFailed<T>) -> NoMemory {
        NoMemory
    }
}

/// Why pairs of sorts are no order of sorts.
#[derive(Clone, Copy, Debug, PartialEq, Eq, Hash, Error)]
pub enum SortFail {
    /// The sort of this number is strictly below itself.
    #[error("sort {0} is below itself")]
    Cycle(u16),
    /// The pair of this place, counted from 0, names the sort `Fresh`.
    #[error("pair {0} names the sort of fresh names")]
    Fresh(u64),
    #[error("out of memory")]
    NoMemory,
}

impl From<NoMemory> for SortFail {
    ghost use Rattle.npa_sorts.specs.declared.error.SortFail.TheVariants.{NoMemory as OutOfMemory};

    ghost from_gives = { λ _ e. e ≡ OutOfMemory };

    fn from(_error: NoMemory) -> SortFail {
        SortFail::NoMemory
    }
}

impl From<AllocError> for SortFail {
    ghost use Rattle.npa_sorts.specs.declared.error.SortFail.TheVariants.{NoMemory as OutOfMemory};

    ghost from_gives = { λ _ e. e ≡ OutOfMemory };

    fn from(_error: AllocError) -> SortFail {
        SortFail::NoMemory
    }
}
