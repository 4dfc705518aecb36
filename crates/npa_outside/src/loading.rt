ghost use Rattle.std.specs.Prelude.{◌≡◌, ◌≤◌, ℕ, List, length, IfOk, IfSome, IfNone, MatchOption};
ghost use Rattle.std.specs.Result.{IsErrOf};
ghost use Rattle.npa_text.specs.Counts.{Rose};
ghost use Rattle.npa_outside.specs.Loads.{IsLong};

use npa_term::NoMemory;
use npa_text::{Files, ReadFail};
use std::alloc::{AllocError, Global};
use thiserror::Error;

/// The line for a file that is too long.
pub const LIMIT_BYTES: &[u8] = b"limit bytes 1048576\n";

/// Why there is no text to print.
#[derive(Clone, Copy, Debug, PartialEq, Eq, Error)]
pub enum Halt {
    /// A file couldn't be read.
    #[error("a file can't be read")]
    Fault,
    #[error("out of memory")]
    NoMemory,
}

impl From<AllocError> for Halt {
    ghost use Rattle.npa_outside.specs.declared.loading.Halt.TheVariants.{NoMemory as OutOfMemory};

    ghost from_gives = { λ _ e. e ≡ OutOfMemory };

    fn from(_error: AllocError) -> Halt {
        Halt::NoMemory
    }
}

impl From<NoMemory> for Halt {
    ghost use Rattle.npa_outside.specs.declared.loading.Halt.TheVariants.{NoMemory as OutOfMemory};

    ghost from_gives = { λ _ e. e ≡ OutOfMemory };

    fn from(_error: NoMemory) -> Halt {
        Halt::NoMemory
    }
}

/// What was loaded of a file.
#[derive(Debug, Drop)]
pub enum Loaded<T, E> {
    /// The file has more than 1,048,576 bytes.
    TooLong,
    /// Its text stands for nothing, for this reason.
    Refused(E),
    /// What its text stands for.
    Read(T),
}

/// The bytes of a file, or `None` where it has more than a text may have.
pub fn load<F: Files>(alloc: Global, files: &mut F, name: &str) -> Result<Option<Vec<u8>>, Halt>
    ensures texts_stay { (n : List ℕ) → F.holds files.new n ≡ F.holds files.old n }
    ensures faults_stay { (n : List ℕ) → F.faults files.old n ≤ F.faults files.new n }
    ensures longs_stay { (n : List ℕ) → F.longs files.old n ≤ F.longs files.new n }
    ensures short { IfOk result (λ loaded. IfSome loaded (λ bytes. length bytes.items ≤ 1048576)) }
    ensures told { IfOk result (λ loaded. IfSome (F.holds files.old name.now) (λ text. MatchOption loaded (IsLong text) (λ bytes. bytes.items ≡ text))) }
    ensures long { IfOk result (λ loaded. IfNone loaded (Rose (F.longs files.old name.now) (F.longs files.new name.now))) }
    ensures fault { IsErrOf result Halt.Fault → Rose (F.faults files.old name.now) (F.faults files.new name.now) }
{
    let mut bytes = Vec::new(alloc);
    match files.read(name, &mut bytes) {
        Ok(()) => Ok(Some(bytes)),
        Err(ReadFail::TooLong) => Ok(None),
        Err(ReadFail::Fault) => Err(Halt::Fault),
        Err(ReadFail::NoMemory) => Err(Halt::NoMemory),
    }
}
