ghost use Rattle.std.specs.Prelude.{◌≡◌, ◌<◌, ◌^◌, [], length};
ghost use Rattle.npa_rewrite.specs.Innermost.{normalized};
ghost use Rattle.npa_rewrite.specs.Rewriting.{AllCancel};
ghost use Rattle.npa_model.specs.State.{AreCountable};
ghost use Rattle.npa_model.specs.WellFormed.{IsWellFormedRun};
ghost use Rattle.npa_sig.specs.WellFormed.{IsWellFormedProtocol};
ghost use Rattle.npa_replay.specs.Executions.{IsAfter, Ends, RunsThrough, halted};

use npa_model::{Cause, Instances, Run, RunFail, RunState, step_run};
use npa_rewrite::Theory;
use npa_sig::Protocol;
use std::alloc::Global;

/// Why a run wasn't executed to its end.
#[derive(Debug, Drop)]
pub(crate) enum Halt {
    /// The run breaks at this step, counted from 1; step 0 is the list of instances.
    Break(u32, Cause),
    NoMemory,
}

/// Begins the run and executes its schedule: the state in which it ends.
pub(crate) fn run_through(
    alloc: Global,
    th: &Theory,
    protocol: &Protocol,
    run: &Run,
) -> Result<RunState, Halt>
    requires cancelling { AllCancel th.now }
    requires protocol { IsWellFormedProtocol protocol.now }
    requires run { IsWellFormedRun protocol.now.sig run.now }
    ensures { RunsThrough (normalized th.now) protocol.now run.now result }
{
    let mut state = match RunState::start(alloc, th, protocol, &run.instances) {
        Ok(state) => state,
        Err(fail) => return Err(halted(0, fail)),
    };
    match execute(
        alloc,
        th,
        protocol,
        &run.instances,
        run.schedule.as_slice(),
        &mut state,
    ) {
        Ok(()) => Ok(state),
        Err(halt) => Err(halt),
    }
}

// Executes the schedule step by step.
fn execute(
    alloc: Global,
    th: &Theory,
    protocol: &Protocol,
    instances: &Instances,
    schedule: &[u32],
    state: &mut RunState,
) -> Result<(), Halt>
    requires cancelling { AllCancel th.now }
    requires begun { IsAfter (normalized th.now) protocol.now.strands instances.now [] state.old }
    requires few { length schedule.now < 2 ^ 32 }
    requires countable { AreCountable protocol.now.strands }
    ensures { Ends (normalized th.now) protocol.now.strands instances.now schedule.now state.new result }
{
    for k in 0..schedule.len() {
        match step_run(alloc, th, protocol, instances, state, schedule[k]) {
            Ok(()) => {}
            Err(fail) => return Err(halted(k as u32 + 1, fail)),
        }
    }
    Ok(())
}

// The failure at a step.
fn halted(step: u32, fail: RunFail) -> Halt
    ensures { result ≡ halted step fail }
{
    match fail {
        RunFail::Stop(cause) => Halt::Break(step, cause),
        RunFail::NoMemory => Halt::NoMemory,
    }
}
