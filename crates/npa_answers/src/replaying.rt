//! `replay FILE AIM RUN`: what is answered of a module, an aim and a run.

ghost use Rattle.std.specs.Prelude.{◌≡◌, ◌≤◌, ℕ, IfOk, Some, length, slice_get};
ghost use Rattle.std.specs.Result.{IsErrOf};
ghost use Rattle.npa_model.specs.declared.aim.Aim.{Aim as Pattern};
ghost use Rattle.npa_model.specs.WellFormed.{IsWellFormedAim};
ghost use Rattle.npa_module.specs.Forms.{IsWellFormedSource, IsPlainSource};
ghost use Rattle.npa_outside.specs.Outside.{counted};
ghost use Rattle.npa_answers.specs.Answers.{IsForReplay, IsForSource, IsForAim, ReadFaultOf, SourceFault, AimFault};

use crate::lines::{refusal, refused_no_aim, too_long};
use crate::loading::load_module;
use npa_checking::{check, fail_line};
use npa_close::Checked;
use npa_module::Source;
use npa_outside::{Halt, Loaded, Printed};
use npa_replaying::run_answer;
use npa_text::Files;
use std::alloc::Global;

/// The text and the status for a replay: of the module's file as `check` has it, then of the aim's name,
/// then of the run.
pub(crate) fn replay_answer<F: Files>(
    alloc: Global,
    files: &mut F,
    file: &str,
    name: &str,
    run: &str,
) -> Result<Printed, Halt>
    ensures shown { IfOk result (λ a. IsForReplay
        (counted (F.holds files.old) (F.longs files.old) (F.longs files.new) (F.faults files.old) (F.faults files.new))
        file.now name.now run.now a.text.items a.status) }
    ensures fault { IsErrOf result Halt.Fault → ReadFaultOf
        (counted (F.holds files.old) (F.longs files.old) (F.longs files.new) (F.faults files.old) (F.faults files.new))
        file.now name.now run.now }
{
    match load_module(alloc, files, file)? {
        Loaded::Read(source) => replay_source(alloc, files, &source, name, run),
        Loaded::TooLong => Ok(too_long(alloc)?),
        Loaded::Refused(error) => Ok(refusal(alloc, &error)?),
    }
}

// The text and the status where the module is read: of its checks, then of the aim's name and the run.
fn replay_source<F: Files>(
    alloc: Global,
    files: &mut F,
    source: &Source,
    name: &str,
    run: &str,
) -> Result<Printed, Halt>
    requires form { IsWellFormedSource source.now }
    requires plain { IsPlainSource source.now }
    ensures shown { IfOk result (λ a. IsForSource
        (counted (F.holds files.old) (F.longs files.old) (F.longs files.new) (F.faults files.old) (F.faults files.new))
        name.now run.now source.now a.text.items a.status) }
    ensures fault { IsErrOf result Halt.Fault → SourceFault
        (counted (F.holds files.old) (F.longs files.old) (F.longs files.new) (F.faults files.old) (F.faults files.new))
        name.now run.now source.now }
{
    match check(alloc, source) {
        Ok(checked) => {
            checked.laws();
            replay_aim(alloc, files, &checked, name, run)
        }
        Err(fail) => Ok(fail_line(alloc, source, &fail)?),
    }
}

// The text and the status where the module passes: of the aim's name, then of the run.
fn replay_aim<F: Files>(
    alloc: Global,
    files: &mut F,
    checked: &Checked,
    name: &str,
    run: &str,
) -> Result<Printed, Halt>
    requires aims { (k : ℕ) (aim : Pattern) → slice_get checked.now.1 k ≡ Some aim
        → IsWellFormedAim checked.now.0.sig checked.now.0.strands aim }
    ensures shown { IfOk result (λ a. IsForAim
        (counted (F.holds files.old) (F.longs files.old) (F.longs files.new) (F.faults files.old) (F.faults files.new))
        name.now run.now checked.now.0 checked.now.1 a.text.items a.status) }
    ensures fault { IsErrOf result Halt.Fault → AimFault
        (counted (F.holds files.old) (F.longs files.old) (F.longs files.new) (F.faults files.old) (F.faults files.new))
        name.now run.now checked.now.1 }
{
    checked.laws();
    match checked.aim(name.as_bytes()) {
        Some(aim) => run_answer(alloc, files, run, checked.ready(), aim),
        None => Ok(refused_no_aim(alloc, name.as_bytes())?),
    }
}
