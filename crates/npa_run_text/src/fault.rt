ghost use Rattle.std.specs.Prelude.{◌≡◌};

use npa_text::{Name, NoMemory};
use std::alloc::{AllocError, AllocFailed};
use thiserror::Error;

/// Why a run text wasn't read: the first fault of its syntax, and where there is none, the first word
/// at fault in the order of the text. Lines and columns count from 1, a column is a byte.
#[derive(Debug, Drop, Error)]
pub enum RunTextFail {
    /// The text isn't a run: the first token at which none can go on, or the first byte that begins
    /// no token, or the end.
    #[error("syntax fault at {line}:{col}")]
    Syntax { line: u32, col: u32 },
    /// The word names no strand, or no operator.
    #[error("unknown name at {line}:{col}")]
    Name { name: Name, line: u32, col: u32 },
    /// The operator has a wrong number of arguments, or one of a wrong sort.
    #[error("arguments that don't fit at {line}:{col}")]
    Sort { name: Name, line: u32, col: u32 },
    #[error("out of memory")]
    NoMemory,
}

impl From<AllocError> for RunTextFail {
    ghost use Rattle.npa_run_text.specs.declared.fault.RunTextFail.TheVariants.{NoMemory as OutOfMemory};

    ghost from_gives = { λ _ e. e ≡ OutOfMemory };

    fn from(_error: AllocError) -> RunTextFail {
        RunTextFail::NoMemory
    }
}

impl<T: Drop> From<AllocFailed<T>> for RunTextFail {
    ghost use Rattle.npa_run_text.specs.declared.fault.RunTextFail.TheVariants.{NoMemory as OutOfMemory};

    ghost from_gives = { λ _ e. e ≡ OutOfMemory };

    fn from(_error: AllocFailed<T>) -> RunTextFail {
        RunTextFail::NoMemory
    }
}

impl From<NoMemory> for RunTextFail {
    ghost use Rattle.npa_run_text.specs.declared.fault.RunTextFail.TheVariants.{NoMemory as OutOfMemory};

    ghost from_gives = { λ _ e. e ≡ OutOfMemory };

    fn from(_error: NoMemory) -> RunTextFail {
        RunTextFail::NoMemory
    }
}
