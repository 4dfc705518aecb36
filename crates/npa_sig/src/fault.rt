ghost use Rattle.std.specs.Prelude.{◌≡◌};

use npa_sorts::NoMemory;
use npa_text::Name;
use std::alloc::{AllocError, AllocFailed};
use thiserror::Error;

/// Why operators make no signature.
#[derive(Clone, Copy, Debug, PartialEq, Eq, Error)]
pub enum SigFail {
    /// The result of the operator of this number is `Fresh`.
    #[error("operator {0} has a fresh value as its result")]
    Fresh(u16),
    /// The operator of this number is commutative and hasn't two arguments of one sort.
    #[error("operator {0} is commutative without two arguments of one sort")]
    Comm(u16),
    /// The operator of this number has an earlier operator's name.
    #[error("operator {0} has the name of an earlier one")]
    Twice(u16),
    #[error("out of memory")]
    NoMemory,
}

/// Why a term of a text means nothing: the word at fault, and its line and column.
#[derive(Debug, Drop)]
pub enum UseFail {
    /// The word is neither a variable of the scope nor an operator.
    Name { name: Name, line: u32, col: u32 },
    /// The number of the word's arguments or the sort of one of them is wrong.
    Sort { name: Name, line: u32, col: u32 },
    NoMemory,
}

/// Why a sort's least ground term isn't answered.
#[derive(Clone, Copy, Debug, PartialEq, Eq, Error)]
pub enum LeastFail {
    /// It has this many symbols, more than 64. The number stops at `u64::MAX`.
    #[error("the least ground term has {0} symbols")]
    Past(u64),
    #[error("out of memory")]
    NoMemory,
}

/// What is wrong with the ground terms of a signature's sorts.
#[derive(Clone, Copy, Debug, PartialEq, Eq)]
pub enum GroundFault {
    /// The sort has none.
    Inhabited(u16),
    /// The least one of the sort has this many symbols, more than 64. The number stops at
    /// `u64::MAX`.
    Ground(u16, u64),
}

impl From<NoMemory> for LeastFail {
    ghost use Rattle.npa_sig.specs.declared.fault.LeastFail.TheVariants.{NoMemory as OutOfMemory};

    ghost from_gives = { λ _ e. e ≡ OutOfMemory };

    fn from(_error: NoMemory) -> LeastFail {
        LeastFail::NoMemory
    }
}

impl From<AllocError> for SigFail {
    ghost use Rattle.npa_sig.specs.declared.fault.SigFail.TheVariants.{NoMemory as OutOfMemory};

    ghost from_gives = { λ _ e. e ≡ OutOfMemory };

    fn from(_error: AllocError) -> SigFail {
        SigFail::NoMemory
    }
}

impl From<NoMemory> for SigFail {
    ghost use Rattle.npa_sig.specs.declared.fault.SigFail.TheVariants.{NoMemory as OutOfMemory};

    ghost from_gives = { λ _ e. e ≡ OutOfMemory };

    fn from(_error: NoMemory) -> SigFail {
        SigFail::NoMemory
    }
}

impl<T: Drop> From<AllocFailed<T>> for SigFail {
    ghost use Rattle.npa_sig.specs.declared.fault.SigFail.TheVariants.{NoMemory as OutOfMemory};

    ghost from_gives = { λ _ e. e ≡ OutOfMemory };

    fn from(_error: AllocFailed<T>) -> SigFail {
        SigFail::NoMemory
    }
}

impl From<AllocError> for UseFail {
    ghost use Rattle.npa_sig.specs.declared.fault.UseFail.TheVariants.{NoMemory as OutOfMemory};

    ghost from_gives = { λ _ e. e ≡ OutOfMemory };

    fn from(_error: AllocError) -> UseFail {
        UseFail::NoMemory
    }
}

impl<T: Drop> From<AllocFailed<T>> for UseFail {
    ghost use Rattle.npa_sig.specs.declared.fault.UseFail.TheVariants.{NoMemory as OutOfMemory};

    ghost from_gives = { λ _ e. e ≡ OutOfMemory };

    fn from(_error: AllocFailed<T>) -> UseFail {
        UseFail::NoMemory
    }
}
