ghost use Rattle.std.specs.Prelude.{◌≡◌};

use npa_limits::LimitPart;
use npa_model::Aims;
use npa_sig::Protocol;
use npa_text::Name;
use std::alloc::{AllocError, AllocFailed};
use thiserror::Error;

/// What a module text stands for: its name, its protocol and its aims.
#[derive(Debug, Drop)]
pub struct Source {
    pub name: Name,
    pub protocol: Protocol,
    pub aims: Aims,
}

/// Why a module text isn't read. Where several hold, the earlier of this list is answered.
#[derive(Debug, Drop, Error)]
pub enum ReadError {
    /// The place at which no module can go on: of a token, of a byte that begins none, or behind the
    /// last byte.
    #[error("no module goes on at {line}:{col}")]
    Syntax { line: u32, col: u32 },
    /// The place of the first item that is a grammar, which isn't read so far.
    #[error("not read so far at {line}:{col}")]
    Later { line: u32, col: u32 },
    /// A limit is passed: of which part, and by what number.
    #[error("past a limit")]
    Limit { part: LimitPart, value: u64 },
    /// A word breaks a rule on names, at this place.
    #[error("a name is refused at {line}:{col}")]
    Name { name: Name, line: u32, col: u32 },
    /// A word breaks a rule on sorts, at this place.
    #[error("a sort is refused at {line}:{col}")]
    Sort { name: Name, line: u32, col: u32 },
    #[error("out of memory")]
    NoMemory,
}

impl From<AllocError> for ReadError {
    ghost use Rattle.npa_module.specs.declared.source.ReadError.TheVariants.{NoMemory as OutOfMemory};

    ghost from_gives = { λ _ e. e ≡ OutOfMemory };

    fn from(_error: AllocError) -> ReadError {
        ReadError::NoMemory
    }
}

impl<T: Drop> From<AllocFailed<T>> for ReadError {
    ghost use Rattle.npa_module.specs.declared.source.ReadError.TheVariants.{NoMemory as OutOfMemory};

    ghost from_gives = { λ _ e. e ≡ OutOfMemory };

    fn from(_error: AllocFailed<T>) -> ReadError {
        ReadError::NoMemory
    }
}

impl From<npa_text::NoMemory> for ReadError {
    ghost use Rattle.npa_module.specs.declared.source.ReadError.TheVariants.{NoMemory as OutOfMemory};

    ghost from_gives = { λ _ e. e ≡ OutOfMemory };

    fn from(_error: npa_text::NoMemory) -> ReadError {
        ReadError::NoMemory
    }
}
