ghost use Rattle.std.specs.Prelude.{◌≡◌, ◌≤◌, ◌<◌, ℕ, List, [], Option, length, OnOk, OnErr, IfSome};
ghost use Rattle.std.specs.Result.{IsErrOf};
ghost use Rattle.npa_text.specs.Counts.{Rose, appended, AppendsFront};

use std::alloc::AllocError;
use thiserror::Error;

/// Why a text wasn't read.
#[derive(Clone, Copy, Debug, PartialEq, Eq, Error)]
pub enum ReadFail {
    /// The text wasn't there, or reading it failed.
    #[error("the text can't be read")]
    Fault,
    /// The text has more than 1,048,576 bytes.
    #[error("the text is too long")]
    TooLong,
    /// Memory was wanting.
    #[error("out of memory")]
    NoMemory,
}

impl From<AllocError> for ReadFail {
    ghost use Rattle.npa_text.specs.declared.outside.ReadFail.TheVariants.{NoMemory};

    ghost from_gives = { λ _ fail. fail ≡ NoMemory };

    fn from(_error: AllocError) -> ReadFail {
        ReadFail::NoMemory
    }
}

/// Why a piece wasn't written.
#[derive(Clone, Copy, Debug, PartialEq, Eq, Error)]
pub enum PutFail {
    /// Writing failed; a part of the piece, from its first byte on, may be written.
    #[error("the text can't be written")]
    Fault,
    /// Memory was wanting, and nothing was written.
    #[error("out of memory")]
    NoMemory,
}

impl From<AllocError> for PutFail {
    ghost use Rattle.npa_text.specs.declared.outside.PutFail.TheVariants.{NoMemory};

    ghost from_gives = { λ _ fail. fail ≡ NoMemory };

    fn from(_error: AllocError) -> PutFail {
        PutFail::NoMemory
    }
}

/// Texts that are read by name.
///
/// `holds` is a name's text where an implementation tells it; `faults` and `longs` count, for each
/// name, the reads that failed and the texts that were too long.
pub trait Files {
    ghost holds: { Self → List ℕ → Option (List ℕ) };

    ghost faults: { Self → List ℕ → ℕ };

    ghost longs: { Self → List ℕ → ℕ };

    /// Reads the whole text of a name into an empty vector, which stays empty after a refusal. A
    /// fault, or a text that is too long, shows in that name's count.
    fn read(&mut self, name: &str, into: &mut Vec<u8>) -> Result<(), ReadFail>
        requires { into.old.items ≡ [] }
        ensures texts_stay { (n : List ℕ) → holds self.new n ≡ holds self.old n }
        ensures faults_stay { (n : List ℕ) → faults self.old n ≤ faults self.new n }
        ensures longs_stay { (n : List ℕ) → longs self.old n ≤ longs self.new n }
        ensures short { OnOk result (length into.new.items ≤ 1048576) }
        ensures told { OnOk result (IfSome (holds self.old name.now) (λ text. into.new.items ≡ text)) }
        ensures fault { IsErrOf result ReadFail.Fault
            → Rose (faults self.old name.now) (faults self.new name.now) }
        ensures too_long { IsErrOf result ReadFail.TooLong
            → Rose (longs self.old name.now) (longs self.new name.now) }
        ensures told_too_long { IsErrOf result ReadFail.TooLong
            → IfSome (holds self.old name.now) (λ text. 1048576 < length text) }
        ensures refused { OnErr result (into.new.items ≡ []) };
}

/// A place to write to.
///
/// `written` is what was written so far where an implementation tells it; `faults` counts the writes
/// that failed.
pub trait Sink {
    ghost written: { Self → Option (List ℕ) };

    ghost faults: { Self → ℕ };

    /// Writes a whole piece behind what was written before.
    fn put(&mut self, bytes: &[u8]) -> Result<(), PutFail>
        ensures faults_stay { faults self.old ≤ faults self.new }
        ensures ok { OnOk result (written self.new ≡ appended (written self.old) bytes.now) }
        ensures fault { IsErrOf result PutFail.Fault → Rose (faults self.old) (faults self.new) }
        ensures front { IsErrOf result PutFail.Fault
            → AppendsFront (written self.old) (written self.new) bytes.now }
        ensures memory { IsErrOf result PutFail.NoMemory → written self.new ≡ written self.old };
}
