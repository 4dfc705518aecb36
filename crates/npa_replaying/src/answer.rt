ghost use Rattle.std.specs.Prelude.{◌≡◌, ◌≤◌, ℕ, List, length, IfOk, IfSome};
ghost use Rattle.std.specs.Result.{IsErrOf};
ghost use Rattle.npa_text.specs.Counts.{Rose};
ghost use Rattle.npa_rewrite.specs.Theories.{theory_of};
ghost use Rattle.npa_model.specs.Accepted.{IsAccepted};
ghost use Rattle.npa_model.specs.WellFormed.{IsWellFormedAim, IsWellFormedRun};
ghost use Rattle.npa_run_text.specs.RunTexts.{ReadsRun};
ghost use Rattle.npa_outside.specs.Loads.{LoadsText, LoadsTextAlone, IfRead, OnTooLong};
ghost use Rattle.npa_outside.specs.Outside.{counted, IsOnly};
ghost use Rattle.npa_replaying.specs.Replaying.{IsForRun, Replayed};

use crate::lines::{answered, invalid};
use npa_model::{Aim, Run};
use npa_outside::{Halt, LIMIT_BYTES, Loaded, Printed, load, told};
use npa_replay::replay;
use npa_run_text::{RunTextFail, read_run};
use npa_sig::Protocol;
use npa_term::NoMemory;
use npa_text::Files;
use npa_variants::Ready;
use std::alloc::Global;

/// The text and the status that follow from the file of a run: its length, its text, and then what
/// comes of its replay against an aim of the protocol.
pub fn run_answer<F: Files>(
    alloc: Global,
    files: &mut F,
    name: &str,
    ready: &Ready,
    aim: &Aim,
) -> Result<Printed, Halt>
    requires aim { IsWellFormedAim ready.now.sig ready.now.strands aim.now }
    requires accepted { IsAccepted (theory_of ready.now) aim.now }
    ensures shown { IfOk result (λ a. IsForRun
        (counted (F.holds files.old) (F.longs files.old) (F.longs files.new) (F.faults files.old) (F.faults files.new))
        name.now ready.now aim.now a.text.items a.status) }
    ensures fault { IsErrOf result Halt.Fault → Rose (F.faults files.old name.now) (F.faults files.new name.now) }
{
    ready.laws();
    match load_run(alloc, files, name, ready.protocol())? {
        Loaded::Read(run) => Ok(replayed(alloc, ready, aim, &run)?),
        Loaded::TooLong => Ok(told(alloc, LIMIT_BYTES, 7)?),
        Loaded::Refused(fail) => Ok(invalid(alloc, &fail)?),
    }
}

// The run of the protocol that a file holds, or why it holds none.
fn load_run<F: Files>(
    alloc: Global,
    files: &mut F,
    name: &str,
    protocol: &Protocol,
) -> Result<Loaded<Run, RunTextFail>, Halt>
    requires few { length protocol.now.strands ≤ 65535 }
    ensures texts_stay { (n : List ℕ) → F.holds files.new n ≡ F.holds files.old n }
    ensures faults_stay { (n : List ℕ) → F.faults files.old n ≤ F.faults files.new n }
    ensures longs_stay { (n : List ℕ) → F.longs files.old n ≤ F.longs files.new n }
    ensures told { IfOk result (LoadsText (ReadsRun protocol.now) (F.holds files.old name.now)) }
    ensures only { IfOk result (LoadsTextAlone (ReadsRun protocol.now) (F.holds files.old name.now)) }
    ensures long { IfOk result (λ loaded. OnTooLong loaded (Rose (F.longs files.old name.now) (F.longs files.new name.now))) }
    ensures form { IfOk result (λ loaded. IfRead loaded (IsWellFormedRun protocol.now.sig)) }
    ensures fault { IsErrOf result Halt.Fault → Rose (F.faults files.old name.now) (F.faults files.new name.now) }
{
    let bytes = match load(alloc, files, name)? {
        Some(bytes) => bytes,
        None => return Ok(Loaded::TooLong),
    };
    match read_run(alloc, protocol, bytes.as_slice()) {
        Ok(run) => Ok(Loaded::Read(run)),
        Err(RunTextFail::NoMemory) => Err(Halt::NoMemory),
        Err(fail) => Ok(Loaded::Refused(fail)),
    }
}

// The text for what comes of a run.
fn replayed(alloc: Global, ready: &Ready, aim: &Aim, run: &Run) -> Result<Printed, NoMemory>
    requires aim { IsWellFormedAim ready.now.sig ready.now.strands aim.now }
    requires accepted { IsAccepted (theory_of ready.now) aim.now }
    requires run { IsWellFormedRun ready.now.sig run.now }
    ensures replayed { IfOk result (λ a. Replayed ready.now aim.now run.now a.text.items a.status) }
    ensures only { IfOk result (λ a. IsOnly (Replayed ready.now aim.now run.now) a.text.items a.status) }
{
    ready.laws();
    let answer = replay(alloc, ready, aim, run)?;
    answered(alloc, ready.protocol(), run, &answer)
}
