ghost use Rattle.std.specs.Prelude.{◌≡◌, ◌<◌, ◌^◌, [], length, IfOk};
ghost use Rattle.npa_rewrite.specs.Rewriting.{AllCancel, IsConvergent};
ghost use Rattle.npa_rewrite.specs.Theories.{theory_of};
ghost use Rattle.npa_model.specs.Accepted.{IsAccepted};
ghost use Rattle.npa_model.specs.WellFormed.{IsWellFormedAim, IsWellFormedRun};
ghost use Rattle.npa_sig.specs.WellFormed.{IsWellFormedProtocol};
ghost use Rattle.npa_replay.specs.Choices.{IsMost};
ghost use Rattle.npa_replay.specs.Replays.{IsTrueOf, OfNormalForms, Stops};

use crate::answer::Replay;
use crate::execution::{Halt, run_through};
use crate::inhabited::have_ground_terms;
use crate::scene::Scene;
use crate::search::most_met;
use npa_model::{Aim, Run, RunState};
use npa_rewrite::Theory;
use npa_sig::Protocol;
use npa_term::NoMemory;
use npa_variants::Ready;
use std::alloc::Global;

/// Replays a run against an aim, modulo the equations of a protocol. The instances are judged first,
/// then each step of the schedule, then the parts of the aim, each in its order; the first fault is
/// answered. A part is missed where no normal ground terms for the aim's variables and no choice of
/// different instances meet it beside the parts before it. A run that reaches the aim, breaks or
/// misses a part does just one of these.
///
/// The protocol is ready, so that its equations give each term one normal form, and the aim is
/// accepted, so that its instances by normal terms are normal and can be found by matching.
pub fn replay(alloc: Global, ready: &Ready, aim: &Aim, run: &Run) -> Result<Replay, NoMemory>
    requires aim { IsWellFormedAim ready.now.sig ready.now.strands aim.now }
    requires accepted { IsAccepted (theory_of ready.now) aim.now }
    requires run { IsWellFormedRun ready.now.sig run.now }
    ensures answer { IfOk result (λ answer. OfNormalForms (theory_of ready.now) (λ nf. IsTrueOf nf ready.now aim.now run.now answer)) }
    ensures only { IfOk result (λ answer. OfNormalForms (theory_of ready.now) (λ nf. (other : Replay) → IsTrueOf nf ready.now aim.now run.now other → other ≡ answer)) }
{
    ready.laws();
    replayed(alloc, ready.theory(), ready.protocol(), aim, run)
}

// Replays a run of a protocol whose theory is convergent.
fn replayed(
    alloc: Global,
    th: &Theory,
    protocol: &Protocol,
    aim: &Aim,
    run: &Run,
) -> Result<Replay, NoMemory>
    requires signature { th.now.sig ≡ protocol.now.sig }
    requires cancelling { AllCancel th.now }
    requires convergent { IsConvergent th.now }
    requires protocol { IsWellFormedProtocol protocol.now }
    requires aim { IsWellFormedAim protocol.now.sig protocol.now.strands aim.now }
    requires accepted { IsAccepted th.now aim.now }
    requires run { IsWellFormedRun protocol.now.sig run.now }
    ensures answer { IfOk result (λ answer. OfNormalForms th.now (λ nf. IsTrueOf nf protocol.now aim.now run.now answer)) }
    ensures only { IfOk result (λ answer. OfNormalForms th.now (λ nf. (other : Replay) → IsTrueOf nf protocol.now aim.now run.now other → other ≡ answer)) }
{
    let state = match run_through(alloc, th, protocol, run) {
        Ok(state) => state,
        Err(halt) => return stopped(halt),
    };
    if !have_ground_terms(alloc, &protocol.sig, aim.sorts.as_slice())? {
        return Ok(Replay::Misses { part: 1 });
    }
    let met = parts_met(alloc, protocol, aim, run, &state)?;
    if met == aim.parts.len() {
        return Ok(Replay::Reaches);
    }
    Ok(Replay::Misses {
        part: met as u16 + 1,
    })
}

// How many parts of the aim can be met one after another in the state in which the run ends.
fn parts_met(
    alloc: Global,
    protocol: &Protocol,
    aim: &Aim,
    run: &Run,
    state: &RunState,
) -> Result<usize, NoMemory>
    requires few { length run.now.instances < 2 ^ 32 }
    requires counted { length state.now.executed ≡ length run.now.instances }
    ensures { IfOk result (λ most. IsMost run.now.instances state.now protocol.now.sig.sorts aim.now.parts [] [] most) }
{
    let scene = Scene {
        sorts: protocol.sig.sorts(),
        instances: &run.instances,
        state,
        parts: aim.parts.as_slice(),
    };
    most_met(alloc, &scene)
}

// The answer about a run that breaks.
fn stopped(halt: Halt) -> Result<Replay, NoMemory>
    ensures { Stops halt result }
{
    match halt {
        Halt::Break(step, cause) => Ok(Replay::Stops { step, cause }),
        Halt::NoMemory => Err(NoMemory),
    }
}
