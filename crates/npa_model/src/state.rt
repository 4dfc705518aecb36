ghost use Rattle.std.specs.Prelude.{◌≡◌, ◌<◌, ◌↔◌, ◌^◌, [], length, slice_get, replicate, IsTrue, IfOk, Contains};
ghost use Rattle.std.specs.Option.{option_copied};
ghost use Rattle.npa_rewrite.specs.Innermost.{normalized};
ghost use Rattle.npa_rewrite.specs.Rewriting.{AllCancel};
ghost use Rattle.npa_model.specs.Runs.{events_of};
ghost use Rattle.npa_model.specs.State.{Steps, AreCountable};

use crate::run::{Cause, Instance, Instances, RunFail};
use crate::sent::Sent;
use crate::values::message;
use npa_list::List;
use npa_rewrite::Theory;
use npa_sig::{Event, Protocol};
use npa_term::{Term, Terms};
use std::alloc::Global;
use std::marker::Model;

/// A run that is being executed: how many events each of its instances has executed, and the
/// terms that were sent, in order.
#[derive(Debug, Drop)]
pub struct RunState {
    pub(crate) counts: List<u16>,
    pub(crate) sent: Sent,
}

impl Model for RunState {
    ghost use Rattle.npa_term.specs.contracts.term.Term as term;
    ghost use Rattle.npa_model.specs.State.{State, state_code};

    ghost Value = { State };

    ghost coded = { state_code term.the_row.coded };

    ghost view = { λ s. record { executed = s.counts; sent = s.sent } };
}

impl RunState {
    /// How many events the instance has executed: `None` exactly where there is no such instance.
    pub fn executed(&self, instance: u32) -> Option<u16>
        ensures { result ≡ slice_get self.now.executed instance }
    {
        self.counts.get(instance as usize).copied()
    }

    /// The terms that were sent, in order.
    pub fn sent(&self) -> &Terms
        ensures { result.now ≡ self.now.sent }
    {
        self.sent.terms()
    }

    /// Whether the term was sent.
    pub fn was_sent(&self, term: &Term) -> bool
        ensures { IsTrue result ↔ Contains self.now.sent term.now }
    {
        self.sent.contains(term)
    }
}

/// Executes the next event of an instance, one of those that the run was begun with. A send adds
/// the normal form of its message to the terms that were sent; a receive needs that the normal
/// form of its message was sent.
pub fn step_run(
    alloc: Global,
    th: &Theory,
    protocol: &Protocol,
    instances: &Instances,
    state: &mut RunState,
    instance: u32,
) -> Result<(), RunFail>
    requires cancelling { AllCancel th.now }
    requires begun { length state.old.executed ≡ length instances.now }
    requires countable { AreCountable protocol.now.strands }
    ensures { Steps (normalized th.now) protocol.now.strands instances.now state.old state.new instance result }
{
    let place = instance as usize;
    let named = match instances.get(place) {
        Some(named) => named,
        None => return Err(RunFail::Stop(Cause::Instance(instance))),
    };
    let done = state.counts.as_slice()[place];
    let event = match event_at(protocol, named, done) {
        Some(event) => event,
        None => return Err(RunFail::Stop(Cause::Ended(instance))),
    };
    let next = done + 1;
    let term = message(alloc, th, named.args.as_slice(), &event.msg)?;
    match state.sent.exchange(event.sent, term) {
        Ok(()) => {
            state.counts.set(place, next);
            Ok(())
        }
        Err(fault) => Err(fault),
    }
}

// The event of the instance behind so many of its events.
fn event_at<'a>(protocol: &'a Protocol, instance: &Instance, done: u16) -> Option<&'a Event>
    ensures { option_copied result ≡ slice_get (events_of protocol.now.strands instance.now) done }
{
    protocol
        .strands
        .get(instance.strand as usize)?
        .events
        .get(done as usize)
}
