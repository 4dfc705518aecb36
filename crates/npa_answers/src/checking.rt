//! `check FILE`: what is answered of a module.

ghost use Rattle.std.specs.Prelude.{IfOk};
ghost use Rattle.std.specs.Result.{IsErrOf};
ghost use Rattle.npa_text.specs.Counts.{Rose};
ghost use Rattle.npa_outside.specs.Outside.{counted};
ghost use Rattle.npa_answers.specs.Answers.{IsForCheck};

use crate::lines::{refusal, too_long};
use crate::loading::load_module;
use npa_checking::check_line;
use npa_outside::{Halt, Loaded, Printed};
use npa_text::Files;
use std::alloc::Global;

/// The text and the status for a check: of the file's length, of its text, and then of the checks of its
/// module.
pub(crate) fn check_answer<F: Files>(
    alloc: Global,
    files: &mut F,
    file: &str,
) -> Result<Printed, Halt>
    ensures shown { IfOk result (λ a. IsForCheck
        (counted (F.holds files.old) (F.longs files.old) (F.longs files.new) (F.faults files.old) (F.faults files.new))
        file.now a.text.items a.status) }
    ensures fault { IsErrOf result Halt.Fault → Rose (F.faults files.old file.now) (F.faults files.new file.now) }
{
    match load_module(alloc, files, file)? {
        Loaded::Read(source) => Ok(check_line(alloc, &source)?),
        Loaded::TooLong => Ok(too_long(alloc)?),
        Loaded::Refused(error) => Ok(refusal(alloc, &error)?),
    }
}
