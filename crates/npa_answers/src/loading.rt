ghost use Rattle.std.specs.Prelude.{◌≡◌, ◌≤◌, ℕ, List, IfOk};
ghost use Rattle.std.specs.Result.{IsErrOf};
ghost use Rattle.npa_text.specs.Counts.{Rose};
ghost use Rattle.npa_module.specs.Forms.{IsWellFormedSource, IsPlainSource};
ghost use Rattle.npa_module.specs.Modules.{Reads};
ghost use Rattle.npa_outside.specs.Loads.{LoadsText, LoadsTextAlone, IfRead, OnTooLong};

use npa_module::{ReadError, Source, read};
use npa_outside::{Halt, Loaded, load};
use npa_text::Files;
use std::alloc::Global;

/// The module that a file holds, or why it holds none: its length is looked at first, and then its text.
pub(crate) fn load_module<F: Files>(
    alloc: Global,
    files: &mut F,
    name: &str,
) -> Result<Loaded<Source, ReadError>, Halt>
    ensures texts_stay { (n : List ℕ) → F.holds files.new n ≡ F.holds files.old n }
    ensures faults_stay { (n : List ℕ) → F.faults files.old n ≤ F.faults files.new n }
    ensures longs_stay { (n : List ℕ) → F.longs files.old n ≤ F.longs files.new n }
    ensures told { IfOk result (LoadsText Reads (F.holds files.old name.now)) }
    ensures only { IfOk result (LoadsTextAlone Reads (F.holds files.old name.now)) }
    ensures long { IfOk result (λ loaded. OnTooLong loaded (Rose (F.longs files.old name.now) (F.longs files.new name.now))) }
    ensures form { IfOk result (λ loaded. IfRead loaded IsWellFormedSource) }
    ensures plain { IfOk result (λ loaded. IfRead loaded IsPlainSource) }
    ensures fault { IsErrOf result Halt.Fault → Rose (F.faults files.old name.now) (F.faults files.new name.now) }
{
    let bytes = match load(alloc, files, name)? {
        Some(bytes) => bytes,
        None => return Ok(Loaded::TooLong),
    };
    match read(alloc, bytes.as_slice()) {
        Ok(source) => Ok(Loaded::Read(source)),
        Err(ReadError::NoMemory) => Err(Halt::NoMemory),
        Err(error) => Ok(Loaded::Refused(error)),
    }
}
