ghost use Rattle.std.specs.Prelude.{◌≡◌};

use std::alloc::{AllocError, AllocFailed};
use thiserror::Error;

/// Memory was wanting.
#[derive(Debug, Drop, Clone, Copy, PartialEq, Eq, Error)]
#[error("out of memory")]
pub struct NoMemory;

impl From<AllocError> for NoMemory {
    fn from(_failure: AllocError) -> NoMemory {
        NoMemory
    }
}

impl<T: Drop> From<AllocFailed<T>> for NoMemory {
    fn from(_failure: AllocFailed<T>) -> NoMemory {
        NoMemory
    }
}

/// What is counted of a search's items and of the problems that its steps solve.
#[derive(Debug, Clone, Copy, PartialEq, Eq)]
pub enum Measure {
    /// The strands of a pattern.
    Strands,
    /// The facts of a pattern, known and unknown together.
    Facts,
    /// The symbols of a pattern.
    Symbols,
    /// The unifiers of one problem.
    Unifiers,
}

/// A result past its limit: the number of the result among those of its item, from 0, what was
/// counted of it, and how many there are.
#[derive(Debug, Clone, Copy, PartialEq, Eq)]
pub struct Large {
    pub rule: u64,
    pub measure: Measure,
    pub value: u64,
}

/// Why an item has no list of children.
#[derive(Debug, Drop, Error)]
pub enum ExpandFail {
    /// A child, or a problem on the way to it, is past a limit. It depends on the item alone.
    #[error("a result is past its limit")]
    Large(Large),
    /// Memory was wanting.
    #[error("out of memory")]
    NoMemory,
}

impl From<NoMemory> for ExpandFail {
    ghost use Rattle.fold_core.specs.declared.error.ExpandFail.TheVariants.{NoMemory as WantsMemory};

    ghost from_gives = { λ _ e. e ≡ WantsMemory };

    fn from(_failure: NoMemory) -> ExpandFail {
        ExpandFail::NoMemory
    }
}

impl From<AllocError> for ExpandFail {
    ghost use Rattle.fold_core.specs.declared.error.ExpandFail.TheVariants.{NoMemory as WantsMemory};

    ghost from_gives = { λ _ e. e ≡ WantsMemory };

    fn from(_failure: AllocError) -> ExpandFail {
        ExpandFail::NoMemory
    }
}
